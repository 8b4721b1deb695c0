//! What a batch comes to over its texts.
ghost use Rattle.std.specs.Prelude.{◌≡◌, ◌≤◌, length, IfOk, IfErr};
ghost use Rattle.tz_types.specs.declared.limit.TheConstants.{MOST_BYTES};
ghost use Rattle.tz_script.specs.Keeping.{KeepsSources};
ghost use Rattle.tz_script.specs.Script.{ReadsScript};
ghost use Rattle.pin_book.specs.declared.limits.TheConstants.{FEWEST_SLOTS, MOST_SLOTS};
ghost use Rattle.tz_batch.specs.Answering.{IsAccepted};
ghost use Rattle.tz_batch.specs.Positions.{PositionsCountWrites};
ghost use Rattle.tz_batch.specs.Run.{IsRun};
ghost use Rattle.tz_cli.specs.Refusal.{Gives};
ghost use Rattle.tz_top.specs.BatchAnswer.{BatchAnswers};
ghost use Rattle.tz_top.specs.Refusal.{RefusesAsScript, RefusesToOpen};

use crate::texts::BatchTexts;
use std::alloc::Global;
use std::sync::{Arc, Wait};
use std::thread::Threads;
use tz_batch::{Outcome, outcome_text};
use tz_cli::Refusal;
use tz_lane::Gate;
use tz_rounds::run_script;
use tz_script::{Script, ScriptError, read_script};
use tz_types::Shared;
use tz_version::{MakeError, Sources};

/// The script that a text is, where it may name so many sources.
fn script_of(alloc: Global, text: &[u8], sources: u32) -> Result<Script, Refusal>
    requires { length text.now ≤ MOST_BYTES }
    ensures reads { IfOk result (λ script. ReadsScript sources text.now script) }
    ensures sources { IfOk result (λ script. KeepsSources sources script.operations) }
    ensures refused { IfErr result (λ refusal. RefusesAsScript sources text.now refusal) }
{
    match read_script(alloc, text, sources) {
        Ok(script) => Ok(script),
        Err(ScriptError::NoMemory) => Err(Refusal::Memory),
        Err(ScriptError::Fault(fault)) => Err(Refusal::Script(fault)),
    }
}

/// The outcome of a run of the script over these sources.
fn outcome_of<G: Gate>(
    rt: &(impl Threads + Wait + Sync),
    alloc: Global,
    script: &Script,
    sources: &Shared<Sources>,
    slots: u32,
    gate: &G,
) -> Result<Outcome, Refusal>
    requires slots { (FEWEST_SLOTS ≤ slots) × (slots ≤ MOST_SLOTS) }
    requires sources { KeepsSources (length sources.now.texts) script.now.operations }
    ensures run { IfOk result (λ outcome. IsRun script.now sources.now slots outcome) }
    ensures positions { IfOk result (λ outcome. PositionsCountWrites script.now.lanes outcome.replies) }
    ensures opens { IfOk result (λ _. IsAccepted sources.now 0) }
    ensures refused { IfErr result (λ refusal. RefusesToOpen sources.now refusal) }
{
    match run_script(rt, alloc, script, sources, slots, gate) {
        Ok(outcome) => Ok(outcome),
        Err(MakeError::NoMemory) => Err(Refusal::Memory),
        Err(MakeError::Leaps(fault)) => Err(Refusal::Leaps(fault)),
        Err(MakeError::Text(fault)) => Err(Refusal::Text(fault)),
    }
}

/// What a batch prints over its texts: the text of its outcome.
pub fn batch_text<G: Gate>(
    rt: &(impl Threads + Wait + Sync),
    alloc: Global,
    texts: BatchTexts,
    slots: u32,
    gate: &G,
) -> Result<Vec<u8>, Refusal>
    requires { (FEWEST_SLOTS ≤ slots) × (slots ≤ MOST_SLOTS) }
    ensures { Gives (BatchAnswers slots texts.script texts.sources) result }
{
    let script = match script_of(
        alloc,
        texts.script.as_slice(),
        texts.sources.texts.len() as u32,
    ) {
        Ok(script) => script,
        Err(refusal) => return Err(refusal),
    };
    let sources = match Arc::new(alloc, texts.sources) {
        Ok(sources) => Shared::from_arc(sources),
        Err(_) => return Err(Refusal::Memory),
    };
    let outcome = match outcome_of(rt, alloc, &script, &sources, slots, gate) {
        Ok(outcome) => outcome,
        Err(refusal) => return Err(refusal),
    };
    match outcome_text(alloc, &outcome) {
        Ok(text) => Ok(text),
        Err(_) => Err(Refusal::Memory),
    }
}
