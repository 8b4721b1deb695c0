//! The files that a command reads, one after another.
ghost use Rattle.std.specs.Prelude.{◌≡◌, ◌≤◌, ℕ, List, ◌∷◌, [], length, IfOk, IfErr, OnOk};
ghost use Rattle.tz_types.specs.declared.limit.TheConstants.{MOST_BYTES};
ghost use Rattle.tz_types.specs.Source.{bytes_together};
ghost use Rattle.tz_words.specs.NamedText.{parts_of};
ghost use Rattle.tz_words.specs.Command.{files_of, leap_files, meant};
ghost use Rattle.tz_cli.specs.Outcome.{MayRead, MayReadAll};
ghost use Rattle.tz_cli.specs.Refusal.{RefusesFile, RefusesContents};

use crate::refusal::Refusal;
use std::alloc::Global;
use tz_io::{FileError, Files};
use tz_types::{Items, MOST_BYTES, Text};
use tz_words::{CommandLine, first_name};

/// The content of a file, where it has no more bytes than are left to read.
fn read_file<F: Files>(
    alloc: Global,
    name: &str,
    left: usize,
    files: &mut F,
) -> Result<Vec<u8>, Refusal>
    requires { left ≤ MOST_BYTES }
    ensures content { IfOk result (λ content. MayRead (F.state files.old) name.now content.items) }
    ensures short { IfOk result (λ content. length content.items ≤ left) }
    ensures unharmed { OnOk result (F.state files.new ≡ F.state files.old) }
    ensures refused { IfErr result (λ refusal.
        RefusesFile (F.state files.old) (F.state files.new) name.now left refusal) }
    ensures kept { (F.state files.new).contents ≡ (F.state files.old).contents }
{
    let content = match files.read(alloc, name, left) {
        Ok(bytes) => bytes,
        Err(FileError::NoMemory) => return Err(Refusal::Memory),
        Err(FileError::Failed) => return Err(Refusal::Read),
    };
    if content.len() > left {
        return Err(Refusal::TooLarge);
    }
    Ok(content)
}

/// The contents of files whose names have commas between, where they aren't too large together. Each file is read with
/// the limit that the earlier ones leave.
pub fn read_files<F: Files>(
    alloc: Global,
    names: &str,
    files: &mut F,
) -> Result<Items<Text>, Refusal>
    ensures contents { IfOk result (λ contents. MayReadAll (F.state files.old) (parts_of names.now) contents) }
    ensures short { IfOk result (λ contents. bytes_together contents ≤ MOST_BYTES) }
    ensures unharmed { OnOk result (F.state files.new ≡ F.state files.old) }
    ensures refused { IfErr result (λ refusal.
        RefusesContents (F.state files.old) (F.state files.new) (parts_of names.now) refusal) }
    ensures kept { (F.state files.new).contents ≡ (F.state files.old).contents }
{
    let mut contents = Items::new(alloc);
    let mut left = MOST_BYTES;
    let mut rest = Some(names);
    while let Some(names) = rest {
        let (name, later) = first_name(names);
        let content = match read_file(alloc, name, left, files) {
            Ok(content) => content,
            Err(refusal) => return Err(refusal),
        };
        left -= content.len();
        if contents.push(Items::from_vec(content)).is_err() {
            return Err(Refusal::Memory);
        }
        rest = later;
    }
    Ok(contents)
}

/// The content of the one file of that name.
pub fn read_one<F: Files>(alloc: Global, name: &str, files: &mut F) -> Result<Items<Text>, Refusal>
    ensures contents { IfOk result (λ contents. MayReadAll (F.state files.old) (name.now ∷ []) contents) }
    ensures short { IfOk result (λ contents. bytes_together contents ≤ MOST_BYTES) }
    ensures unharmed { OnOk result (F.state files.new ≡ F.state files.old) }
    ensures refused { IfErr result (λ refusal.
        RefusesContents (F.state files.old) (F.state files.new) (name.now ∷ []) refusal) }
    ensures kept { (F.state files.new).contents ≡ (F.state files.old).contents }
{
    let content = match read_file(alloc, name, MOST_BYTES, files) {
        Ok(content) => content,
        Err(refusal) => return Err(refusal),
    };
    let mut contents = Items::new(alloc);
    if contents.push(Items::from_vec(content)).is_err() {
        return Err(Refusal::Memory);
    }
    Ok(contents)
}

/// The content of the file of a leap text. The word `-` stands for no file, and none is read.
pub fn read_leaps<F: Files>(
    alloc: Global,
    leaps: &str,
    files: &mut F,
) -> Result<Items<Text>, Refusal>
    ensures contents { IfOk result (λ contents. MayReadAll (F.state files.old) (leap_files leaps.now) contents) }
    ensures short { IfOk result (λ contents. bytes_together contents ≤ MOST_BYTES) }
    ensures unharmed { OnOk result (F.state files.new ≡ F.state files.old) }
    ensures refused { IfErr result (λ refusal.
        RefusesContents (F.state files.old) (F.state files.new) (leap_files leaps.now) refusal) }
    ensures kept { (F.state files.new).contents ≡ (F.state files.old).contents }
{
    match leaps {
        "-" => Ok(Items::new(alloc)),
        _ => read_one(alloc, leaps, files),
    }
}

/// The contents of the files that a command reads.
pub fn contents_of<F: Files>(
    alloc: Global,
    command: CommandLine<'_>,
    files: &mut F,
) -> Result<Items<Text>, Refusal>
    ensures contents { IfOk result (λ contents.
        MayReadAll (F.state files.old) (files_of (meant command.entry)) contents) }
    ensures short { IfOk result (λ contents. bytes_together contents ≤ MOST_BYTES) }
    ensures refused { IfErr result (λ refusal.
        RefusesContents (F.state files.old) (F.state files.new) (files_of (meant command.entry)) refusal) }
    ensures kept { (F.state files.new).contents ≡ (F.state files.old).contents }
{
    match command {
        CommandLine::Info { text, .. }
        | CommandLine::Local { text, .. }
        | CommandLine::Moves { text, .. }
        | CommandLine::Days { text, .. }
        | CommandLine::Tzif { text, .. }
        | CommandLine::Dump { text, .. }
        | CommandLine::Check { text } => read_files(alloc, text.names, files),
        CommandLine::Clock { leaps, .. } => read_leaps(alloc, leaps, files),
    }
}
