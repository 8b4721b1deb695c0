//! All lines of all files of a source, one after another.
ghost use Rattle.std.specs.Prelude.{◌≡◌, ◌+◌, ◌<◌, ◌≤◌, ◌==◌, ◌∷◌, ℕ, false, List, Ok, IfOk, IfErr, OnOk, length, IsTrue};
ghost use Rattle.std.specs.List.{list_any};
ghost use Rattle.tz_types.specs.declared.limit.TheConstants.{MOST_BYTES};
ghost use Rattle.tz_types.specs.Source.{bytes_together};
ghost use Rattle.tz_specs.specs.Line.{lines_of};
ghost use Rattle.tz_specs.specs.Contents.{contents_after, contents_over, contents_of};
ghost use Rattle.tz_lines.specs.Gathered.{contents_gathered};
ghost use Rattle.tz_lines.specs.RecordOrder.{are_before};
ghost use Rattle.tz_lines.specs.Refusal.{MeansLineFault};

use crate::contents::Gathered;
use crate::error::{AddError, LineError};
use std::alloc::Global;
use tz_records::read_line;
use tz_text::{Joined, may_have_nul, next_line};
use tz_types::{Cause, Text};

/// Reads one more line of a text. The limits are asked last: a line that has a lesser cause besides is refused with that.
///
/// `nuls` says whether the text may have a NUL byte.
fn take_line(
    alloc: Global,
    gathered: &mut Gathered,
    joined: &mut Joined,
    line: &[u8],
    nuls: bool,
    number: u32,
) -> Result<(), LineError>
    requires nuls { nuls ≡ false → list_any (λ byte. byte == 0) line.now ≡ false }
    requires before { IsTrue (are_before number (contents_gathered gathered.old).sets) }
    requires names { length gathered.old.names.labels.items < number }
    ensures ok { OnOk result ((lines : List (List ℕ)) →
        contents_after (contents_gathered gathered.old) number (line.now ∷ lines)
        ≡ contents_after (contents_gathered gathered.new) (number + 1) lines) }
    ensures before { OnOk result (IsTrue (are_before (number + 1) (contents_gathered gathered.new).sets)) }
    ensures names { length gathered.new.names.labels.items < number + 1 }
    ensures err { IfErr result (λ e. (lines : List (List ℕ)) →
        MeansLineFault e (contents_after (contents_gathered gathered.old) number (line.now ∷ lines))) }
{
    let said = match read_line(line, joined, nuls, number, gathered.waits()) {
        Ok(said) => said,
        Err(cause) => return Err(LineError::at(number, cause)),
    };
    match gathered.add(alloc, said, number) {
        Ok(()) => Ok(()),
        Err(AddError::NoMemory) => Err(LineError::NoMemory),
        Err(AddError::Limit) => Err(LineError::at(number, Cause::Limit)),
    }
}

/// Reads all lines of one more file of a source, whose first line has that running number, and answers the number behind its
/// last line.
fn take_lines(
    alloc: Global,
    gathered: &mut Gathered,
    joined: &mut Joined,
    text: &[u8],
    number: u32,
) -> Result<u32, LineError>
    requires before { IsTrue (are_before number (contents_gathered gathered.old).sets) }
    requires names { length gathered.old.names.labels.items < number }
    requires few { number + length text.now ≤ MOST_BYTES + 1 }
    ensures ok { OnOk result (contents_after (contents_gathered gathered.old) number (lines_of text.now) ≡ Ok (contents_gathered gathered.new)) }
    ensures next { IfOk result (λ next. next ≡ number + length (lines_of text.now)) }
    ensures within { IfOk result (λ next. next ≤ number + length text.now) }
    ensures before { IfOk result (λ next. IsTrue (are_before next (contents_gathered gathered.new).sets)) }
    ensures names { IfOk result (λ next. length gathered.new.names.labels.items < next) }
    ensures err { IfErr result (λ e. MeansLineFault e (contents_after (contents_gathered gathered.old) number (lines_of text.now))) }
{
    let nuls = may_have_nul(text);
    let mut next = number;
    let mut rest = text;
    while !rest.is_empty() {
        let (line, later) = next_line(rest);
        take_line(alloc, gathered, joined, line, nuls, next)?;
        next += 1;
        rest = later;
    }
    Ok(next)
}

/// Reads one more file of a source, whose first line has that running number, and answers the number behind its last line.
fn take_file(
    alloc: Global,
    gathered: &mut Gathered,
    joined: &mut Joined,
    text: &[u8],
    number: u32,
) -> Result<u32, LineError>
    requires before { IsTrue (are_before number (contents_gathered gathered.old).sets) }
    requires names { length gathered.old.names.labels.items < number }
    requires few { number + length text.now ≤ MOST_BYTES + 1 }
    ensures ok { IfOk result (λ next. (files : List (List ℕ)) →
        contents_over (contents_gathered gathered.old) number (text.now ∷ files)
        ≡ contents_over (contents_gathered gathered.new) next files) }
    ensures within { IfOk result (λ next. next ≤ number + length text.now) }
    ensures ended { OnOk result (gathered.new.begun ≡ false) }
    ensures before { IfOk result (λ next. IsTrue (are_before next (contents_gathered gathered.new).sets)) }
    ensures names { IfOk result (λ next. length gathered.new.names.labels.items < next) }
    ensures err { IfErr result (λ e. (files : List (List ℕ)) →
        MeansLineFault e (contents_over (contents_gathered gathered.old) number (text.now ∷ files))) }
{
    match take_lines(alloc, gathered, joined, text, number) {
        Ok(next) => {
            gathered.end_file();
            Ok(next)
        }
        Err(error) => Err(error),
    }
}

/// What all lines of all files give.
pub fn gather(alloc: Global, files: &[Text]) -> Result<Gathered, LineError>
    requires { bytes_together files.now ≤ MOST_BYTES }
    ensures ok { IfOk result (λ gathered. contents_of files.now ≡ Ok (contents_gathered gathered)) }
    ensures ended { IfOk result (λ gathered. gathered.begun ≡ false) }
    ensures err { IfErr result (λ e. MeansLineFault e (contents_of files.now)) }
{
    let mut gathered = Gathered::new(alloc);
    let mut joined = Joined::new();
    let mut number = 1;
    for text in files {
        number = take_file(alloc, &mut gathered, &mut joined, text.as_slice(), number)?;
    }
    Ok(gathered)
}
