//! Scripts by their text.
ghost use Rattle.std.specs.Prelude.{◌≡◌, ℕ, ◌+◌, ◌≤◌, ◌∷◌, None, Ok, List, length, IfOk, IfErr, OnOk, IsTrue};
ghost use Rattle.tz_types.specs.declared.limit.TheConstants.{MOST_BYTES};
ghost use Rattle.tz_specs.specs.Line.{lines_of};
ghost use Rattle.tz_script.specs.Cause.{script_fault_at};
ghost use Rattle.tz_script.specs.Contents.{no_script_contents};
ghost use Rattle.tz_script.specs.Gathered.{script_contents_gathered};
ghost use Rattle.tz_script.specs.Inside.{all_stand_before};
ghost use Rattle.tz_script.specs.Keeping.{KeepsHolds, KeepsSources};
ghost use Rattle.tz_script.specs.Script.{script_contents_after, are_blank, blank_fault, script_contents_of, whole_fault, ReadsScript};
ghost use Rattle.tz_script.specs.Tells.{MeansScriptFault, MeansWholeScriptFault, IsScriptOf, MeansScriptRefusal};

use crate::cause::ScriptCause;
use crate::error::ScriptError;
use crate::gathered::Gathered;
use crate::line::read_line;
use crate::script::Script;
use crate::words::{before_comment, is_bad_line, next_word};
use std::alloc::Global;
use tz_text::next_line;
use tz_types::LineFault;

/// Why the script is refused at a line.
fn fault(line: u32, cause: ScriptCause) -> LineFault
    ensures { result ≡ script_fault_at line cause }
{
    LineFault {
        line,
        cause: cause.number(),
    }
}

/// Reads one more line. There are so many texts to reload.
fn take_line(
    gathered: &mut Gathered,
    line: &[u8],
    number: u32,
    sources: u32,
) -> Result<(), ScriptError>
    requires before { IsTrue (all_stand_before number gathered.old.operations) }
    requires few { number ≤ MOST_BYTES }
    ensures ok { OnOk result ((lines : List (List ℕ)) →
        script_contents_after sources (script_contents_gathered gathered.old) number (line.now ∷ lines)
        ≡ script_contents_after sources (script_contents_gathered gathered.new) (number + 1) lines) }
    ensures before { OnOk result (IsTrue (all_stand_before (number + 1) gathered.new.operations)) }
    ensures err { IfErr result (λ e. (lines : List (List ℕ)) →
        MeansScriptFault e (script_contents_after sources (script_contents_gathered gathered.old) number (line.now ∷ lines))) }
{
    match read_line(line, sources, gathered) {
        Ok(None) => Ok(()),
        Ok(Some(said)) => {
            gathered.add(number, said)?;
            Ok(())
        }
        Err(cause) => Err(ScriptError::Fault(fault(number, cause))),
    }
}

/// What all lines of a text give, where one of them has a word.
fn take_lines(alloc: Global, text: &[u8], sources: u32) -> Result<Gathered, ScriptError>
    requires { length text.now ≤ MOST_BYTES }
    ensures ok { IfOk result (λ gathered. script_contents_after sources no_script_contents 1 (lines_of text.now) ≡ Ok (script_contents_gathered gathered)) }
    ensures err { IfErr result (λ e. MeansScriptFault e (script_contents_after sources no_script_contents 1 (lines_of text.now))) }
{
    let mut gathered = Gathered::new(alloc);
    let mut number = 1;
    let mut rest = text;
    while !rest.is_empty() {
        let (line, later) = next_line(rest);
        take_line(&mut gathered, line, number, sources)?;
        number += 1;
        rest = later;
    }
    Ok(gathered)
}

/// Whether no line of the text has a word.
fn are_blank(text: &[u8]) -> bool
    ensures { result ≡ are_blank (lines_of text.now) }
{
    let mut rest = text;
    while !rest.is_empty() {
        let (line, later) = next_line(rest);
        if next_word(before_comment(line)).is_some() {
            return false;
        }
        rest = later;
    }
    true
}

/// Why a text is refused that has no word.
fn blank_fault(text: &[u8]) -> LineFault
    ensures { result ≡ blank_fault (lines_of text.now) }
{
    if text.is_empty() {
        return fault(1, ScriptCause::Lanes);
    }
    let (line, _) = next_line(text);
    if is_bad_line(line) {
        fault(1, ScriptCause::Line)
    } else {
        fault(1, ScriptCause::Lanes)
    }
}

/// What all lines of a text give.
#[tactic(auto, unfolding(crate::specs::Script::script_contents_of))]
fn gather(alloc: Global, text: &[u8], sources: u32) -> Result<Gathered, ScriptError>
    requires { length text.now ≤ MOST_BYTES }
    ensures ok { IfOk result (λ gathered. script_contents_of sources text.now ≡ Ok (script_contents_gathered gathered)) }
    ensures err { IfErr result (λ e. MeansScriptFault e (script_contents_of sources text.now)) }
{
    if are_blank(text) {
        return Err(ScriptError::Fault(blank_fault(text)));
    }
    take_lines(alloc, text, sources)
}

/// The script that the lines give, or their fault as a whole. Without one their operations keep the rules on holds.
fn script_of(gathered: Gathered) -> Result<Script, ScriptError>
    requires { whole_fault (script_contents_gathered gathered) ≡ None → KeepsHolds gathered.operations }
    ensures ok { IfOk result (IsScriptOf (script_contents_gathered gathered)) }
    ensures err { IfErr result (λ e. MeansWholeScriptFault e (script_contents_gathered gathered)) }
{
    let Some(lanes) = gathered.lanes else {
        return Err(ScriptError::Fault(fault(1, ScriptCause::Lanes)));
    };
    if let Some(line) = gathered.first_left() {
        return Err(ScriptError::Fault(fault(line, ScriptCause::HoldOpen)));
    }
    Ok(Script {
        lanes,
        rounds: gathered.rounds,
        operations: gathered.operations,
    })
}

/// The script of a text, or its fault.
fn read_whole(alloc: Global, text: &[u8], sources: u32) -> Result<Script, ScriptError>
    requires { length text.now ≤ MOST_BYTES }
    ensures ok { IfOk result (λ script. ReadsScript sources text.now script) }
    ensures refused { IfErr result (λ e. MeansScriptRefusal e sources text.now) }
{
    let gathered = match gather(alloc, text, sources) {
        Ok(gathered) => gathered,
        Err(error) => return Err(error),
    };
    script_of(gathered)
}

/// The script of a text of at most 4,194,304 bytes, where there are so many texts to reload.
///
/// Words are separated by spaces, tabs and carriage returns, `#` begins a comment, and blank lines say nothing. The
/// first line that isn't blank is `lanes N`, where N is from 1 to 16. Each later line is `round`, which begins a round, or
/// `LANE OP` and the operands of the operation: `look`, `hold H`, `drop H`, `info V ZONE T`, `local V ZONE L`,
/// `sys V ZONE L CHOICE`, `scan V ZONE FROM STEP COUNT`, `clock V CONV X`, `reload SRC`, `erase V` and `list`. V is
/// `front` or the name of a hold. Holds belong to their lane and round.
///
/// A text is refused at the first line that has one of these causes, with its least: 1 it is longer than 512 bytes with
/// its newline, or has before its comment a byte that is neither visible ASCII nor white, 2 it is no operation, or
/// stands before the first round, 3 its operands aren't those of the operation, 4 a hold of the name is open, 5 none
/// is, 7 seven are, 8 it isn't `lanes N`, or names no lane, 9 there is no such text, 10 it is the 65,537th operation,
/// the 1,025th round or the 4,097th reload or erasure. Where no line has one of these, it is refused at the first line
/// whose hold isn't dropped in its round, with cause 6. A text without a word has cause 8 at line 1, unless that line
/// has cause 1. `NoMemory` comes where memory runs out.
pub fn read_script(alloc: Global, text: &[u8], sources: u32) -> Result<Script, ScriptError>
    requires { length text.now ≤ MOST_BYTES }
    ensures ok { IfOk result (λ script. ReadsScript sources text.now script) }
    ensures holds { IfOk result (λ script. KeepsHolds script.operations) }
    ensures sources { IfOk result (λ script. KeepsSources sources script.operations) }
    ensures refused { IfErr result (λ e. MeansScriptRefusal e sources text.now) }
{
    match read_whole(alloc, text, sources) {
        Ok(script) => Ok(script),
        Err(error) => Err(error),
    }
}
