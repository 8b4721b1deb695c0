//! One line of a script.
ghost use Rattle.std.specs.Prelude.{◌≡◌, ◌∷◌, ◌<◌, Some, Ok, Err, option_map, IfOk, IfErr, IfSome, MatchResult};
ghost use Rattle.std.specs.Int.{IsInRange};
ghost use Rattle.tz_script.specs.Cause.{least_script_cause};
ghost use Rattle.tz_script.specs.Gathered.{script_contents_gathered, AreLanes, MayFollow, MayBeNext};
ghost use Rattle.tz_script.specs.declared.limit.TheConstants.{MOST_LANES};
ghost use Rattle.tz_script.specs.Line.{lanes_said, first_causes, round_causes, op_causes, is_held_twice, is_unknown, is_crowded, is_missing, is_late, standing_causes, operation_causes, operation_said, word_causes, words_say, script_line_says};
ghost use Rattle.tz_script.specs.Operation.{hold_begun, hold_needed, source_asked};
ghost use Rattle.tz_script.specs.OpWords.{op_said};
ghost use Rattle.tz_script.specs.Size.{IsSized};
ghost use Rattle.tz_script.specs.Tells.{MeansSaid, TellsSaid};
ghost use Rattle.tz_script.specs.Words.{script_words};

use crate::cause::ScriptCause;
use crate::gathered::Gathered;
use crate::hold_name::HoldName;
use crate::holds::{OpenHold, is_full, is_open};
use crate::limit::{MOST_CHANGES, MOST_OPERATIONS, MOST_ROUNDS};
use crate::op_reader::{keyword, op};
use crate::operand::{counted_of, lane_count_of};
use crate::operation::Op;
use crate::statement::Statement;
use crate::words::{before_comment, is_bad_line, is_exactly, next_word};

/// How many lanes there are, by the words `lanes N`.
#[tactic(auto, unfolding(crate::specs::Line::lanes_said))]
fn lanes(text: &[u8]) -> Option<u32>
    ensures value { result ≡ lanes_said (script_words text.now) }
    ensures bound { IfSome result (IsInRange 1 MOST_LANES) }
{
    let (word, rest) = next_word(text)?;
    if !is_exactly(word, b"lanes") {
        return None;
    }
    let (word, rest) = next_word(rest)?;
    let lanes = lane_count_of(word)?;
    match next_word(rest) {
        Some(_) => None,
        None => Some(lanes),
    }
}

/// The first line that isn't blank.
fn first_line(text: &[u8]) -> Result<Statement, ScriptCause>
    ensures told { TellsSaid (first_causes (script_words text.now)) (option_map Statement.Lanes (lanes_said (script_words text.now))) result }
    ensures bound { IfOk result AreLanes }
{
    match lanes(text) {
        Some(lanes) => Ok(Statement::Lanes(lanes)),
        None => Err(ScriptCause::Lanes),
    }
}

/// A round, behind whose word the text stands.
fn round(text: &[u8], gathered: &Gathered) -> Result<Statement, ScriptCause>
    ensures told { TellsSaid (round_causes (script_contents_gathered gathered.now) (script_words text.now)) (Some Statement.Round) result }
    ensures may { IfOk result (λ said. MayFollow (script_contents_gathered gathered.now) said) }
{
    if next_word(text).is_some() {
        return Err(ScriptCause::Operand);
    }
    if gathered.rounds >= MOST_ROUNDS {
        return Err(ScriptCause::Limit);
    }
    Ok(Statement::Round)
}

/// The operation that the words say.
fn operation_of(text: &[u8], gathered: &Gathered) -> Result<Op, ScriptCause>
    ensures told { TellsSaid (op_causes (script_contents_gathered gathered.now) (script_words text.now)) (op_said (script_words text.now)) result }
    ensures begun { IfOk result (λ _. 0 < gathered.now.rounds) }
    ensures sized { IfOk result IsSized }
{
    let Some((keyword, rest)) = keyword(text) else {
        return Err(ScriptCause::Op);
    };
    if gathered.rounds == 0 {
        return Err(ScriptCause::Op);
    }
    match op(keyword, rest) {
        Some(op) => Ok(op),
        None => Err(ScriptCause::Operand),
    }
}

/// Whether a hold of the name that begins is open.
fn is_held_twice(holds: &[OpenHold], lane: u32, begun: Option<&HoldName>) -> bool
    ensures { result ≡ is_held_twice lane holds.now (option_map (λ name. name.now) begun.entry) }
{
    match begun {
        Some(name) => is_open(holds, lane, name.as_bytes()),
        None => false,
    }
}

/// Whether no hold is open of the name that has to be.
fn is_unknown(holds: &[OpenHold], lane: u32, needed: Option<&HoldName>) -> bool
    ensures { result ≡ is_unknown lane holds.now (option_map (λ name. name.now) needed.entry) }
{
    match needed {
        Some(name) => !is_open(holds, lane, name.as_bytes()),
        None => false,
    }
}

/// Whether seven holds are open where another begins.
fn is_crowded(holds: &[OpenHold], lane: u32, begun: Option<&HoldName>) -> bool
    ensures { result ≡ is_crowded lane holds.now (option_map (λ name. name.now) begun.entry) }
{
    match begun {
        Some(name) => !is_open(holds, lane, name.as_bytes()) && is_full(holds, lane),
        None => false,
    }
}

/// Whether there is no text of the number.
fn is_missing(sources: u32, asked: Option<u32>) -> bool
    ensures { result ≡ is_missing sources asked }
{
    match asked {
        Some(src) => src >= sources,
        None => false,
    }
}

/// Whether the operation would be one too many.
fn is_late(gathered: &Gathered, op: &Op) -> bool
    ensures { result ≡ is_late (script_contents_gathered gathered.now) op.now }
{
    gathered.operations.len() >= MOST_OPERATIONS
        || (op.is_change() && gathered.changes >= MOST_CHANGES)
}

/// The least cause of an operation of a lane, by what stands before it.
fn standing_cause(gathered: &Gathered, sources: u32, lane: u32, op: &Op) -> Option<ScriptCause>
    ensures { result ≡ least_script_cause (standing_causes sources (script_contents_gathered gathered.now) lane op.now) }
{
    let holds = gathered.holds.as_slice();
    if is_held_twice(holds, lane, op.hold_begun()) {
        Some(ScriptCause::HoldTwice)
    } else if is_unknown(holds, lane, op.hold_needed()) {
        Some(ScriptCause::HoldUnknown)
    } else if is_crowded(holds, lane, op.hold_begun()) {
        Some(ScriptCause::TooManyHolds)
    } else if is_missing(sources, op.source()) {
        Some(ScriptCause::SourceIndex)
    } else if is_late(gathered, op) {
        Some(ScriptCause::Limit)
    } else {
        None
    }
}

/// An operation, by the number of lanes and the word of its lane, behind which the text stands.
fn operation(
    word: &[u8],
    text: &[u8],
    lanes: u32,
    sources: u32,
    gathered: &Gathered,
) -> Result<Statement, ScriptCause>
    requires { gathered.now.lanes ≡ Some lanes }
    ensures told { TellsSaid (operation_causes sources (script_contents_gathered gathered.now) lanes word.now (script_words text.now)) (operation_said lanes word.now (script_words text.now)) result }
    ensures may { IfOk result (λ said. MayFollow (script_contents_gathered gathered.now) said) }
{
    let op = match operation_of(text, gathered) {
        Ok(op) => op,
        Err(cause) => return Err(cause),
    };
    let Some(lane) = counted_of(word, 1, lanes) else {
        return Err(ScriptCause::Lanes);
    };
    match standing_cause(gathered, sources, lane, &op) {
        Some(cause) => Err(cause),
        None => Ok(Statement::Operation { lane, op }),
    }
}

/// A later line, by its first word, behind which the text stands.
fn later_line(
    word: &[u8],
    text: &[u8],
    lanes: u32,
    sources: u32,
    gathered: &Gathered,
) -> Result<Statement, ScriptCause>
    requires { gathered.now.lanes ≡ Some lanes }
    ensures told { TellsSaid (word_causes sources (script_contents_gathered gathered.now) (Some lanes) (word.now ∷ script_words text.now)) (words_say (Some lanes) (word.now ∷ script_words text.now)) result }
    ensures may { IfOk result (λ said. MayFollow (script_contents_gathered gathered.now) said) }
{
    if is_exactly(word, b"round") {
        round(text, gathered)
    } else {
        operation(word, text, lanes, sources, gathered)
    }
}

/// What the words of a line say: nothing where there are none.
fn words_said(
    text: &[u8],
    sources: u32,
    gathered: &Gathered,
) -> Result<Option<Statement>, ScriptCause>
    ensures told { MeansSaid (word_causes sources (script_contents_gathered gathered.now) gathered.now.lanes (script_words text.now)) (words_say gathered.now.lanes (script_words text.now)) result }
    ensures may { IfOk result (MayBeNext (script_contents_gathered gathered.now)) }
{
    let Some((word, rest)) = next_word(text) else {
        return Ok(None);
    };
    let said = match gathered.lanes {
        None => first_line(text),
        Some(lanes) => later_line(word, rest, lanes, sources, gathered),
    };
    match said {
        Ok(said) => Ok(Some(said)),
        Err(cause) => Err(cause),
    }
}

/// What a line says, by what stands before it: nothing where it is blank, or its least cause.
#[tactic(auto, unfolding(crate::specs::Line::script_line_says))]
pub fn read_line(
    line: &[u8],
    sources: u32,
    gathered: &Gathered,
) -> Result<Option<Statement>, ScriptCause>
    ensures ok { IfOk result (λ said. script_line_says sources (script_contents_gathered gathered.now) line.now ≡ Ok said) }
    ensures err { IfErr result (λ cause. script_line_says sources (script_contents_gathered gathered.now) line.now ≡ Err cause) }
    ensures may { IfOk result (MayBeNext (script_contents_gathered gathered.now)) }
{
    if is_bad_line(line) {
        return Err(ScriptCause::Line);
    }
    words_said(before_comment(line), sources, gathered)
}
