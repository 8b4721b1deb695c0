//! The database of a source, or the refusal that a command prints.
ghost use Rattle.std.specs.Prelude.{IsTrue, IfOk, IfErr};
ghost use Rattle.tz_specs.specs.Reads.{Reads};
ghost use Rattle.tz_specs.specs.Sound.{is_sound};
ghost use Rattle.tz_cli.specs.Refusal.{RefusesAsText};

use crate::refusal::Refusal;
use std::alloc::Global;
use tz_lines::{ReadError, read_zones};
use tz_types::{Db, Source};

/// What a source says, or its refusal.
pub fn database_of(alloc: Global, source: &Source) -> Result<Db, Refusal>
    ensures ok { IfOk result (λ db. Reads source.now db) }
    ensures sound { IfOk result (λ db. IsTrue (is_sound db)) }
    ensures refused { IfErr result (λ refusal. RefusesAsText source.now refusal) }
{
    match read_zones(alloc, source) {
        Ok(db) => Ok(db),
        Err(ReadError::NoMemory) => Err(Refusal::Memory),
        Err(ReadError::Fault(fault)) => Err(Refusal::Text(fault)),
    }
}
