//! What a version's source and its leap text say.
ghost use Rattle.std.specs.Prelude.{◌≡◌, ◌≤◌, ◌<◌, length, Some, slice_get, IsTrue, IfOk, IfErr};
ghost use Rattle.tz_types.specs.declared.limit.TheConstants.{MOST_BYTES};
ghost use Rattle.tz_types.specs.declared.source.Source.{Source};
ghost use Rattle.tz_specs.specs.Reads.{Reads};
ghost use Rattle.tz_specs.specs.LeapText.{ReadsLeaps};
ghost use Rattle.tz_specs.specs.Sound.{is_sound};
ghost use Rattle.tz_version.specs.Refusal.{MeansLeapError, MeansTextError};

use crate::MakeError;
use std::alloc::Global;
use tz_lines::{ReadError, read_leaps, read_zones};
use tz_types::{Db, Leaps, Source};

/// The table of a leap text.
pub fn leap_table(alloc: Global, text: &[u8]) -> Result<Leaps, MakeError>
    requires { length text.now ≤ MOST_BYTES }
    ensures ok { IfOk result (λ leaps. ReadsLeaps text.now leaps) }
    ensures refused { IfErr result (λ e. MeansLeapError e text.now) }
{
    match read_leaps(alloc, text) {
        Ok(leaps) => Ok(leaps),
        Err(ReadError::NoMemory) => Err(MakeError::NoMemory),
        Err(ReadError::Fault(fault)) => Err(MakeError::Leaps(fault)),
    }
}

/// The database of a source.
pub fn database(alloc: Global, source: &Source) -> Result<Db, MakeError>
    ensures ok { IfOk result (λ db. Reads source.now db) }
    ensures sound { IfOk result (λ db. IsTrue (is_sound db)) }
    ensures refused { IfErr result (λ e. MeansTextError e source.now) }
{
    match read_zones(alloc, source) {
        Ok(db) => Ok(db),
        Err(ReadError::NoMemory) => Err(MakeError::NoMemory),
        Err(ReadError::Fault(fault)) => Err(MakeError::Text(fault)),
    }
}
