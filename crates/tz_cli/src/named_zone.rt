//! The zone of a name, read and made ready for one question.
ghost use Rattle.std.specs.Prelude.{IfOk, IfErr};
ghost use Rattle.tz_cli.specs.NamedZone.{IsNamedZone, RefusesZone};

use crate::refusal::Refusal;
use crate::text::database_of;
use std::alloc::Global;
use tz_expand::{CompiledZone, compile};
use tz_lines::locate;
use tz_types::Source;

/// The zone of a source that a name stands for, ready for questions.
pub fn named_zone(alloc: Global, source: &Source, name: &[u8]) -> Result<CompiledZone, Refusal>
    ensures ok { IfOk result (λ zone. IsNamedZone source.now name.now zone) }
    ensures refused { IfErr result (λ refusal. RefusesZone source.now name.now refusal) }
{
    let db = match database_of(alloc, source) {
        Ok(db) => db,
        Err(refusal) => return Err(refusal),
    };
    let place = match locate(&db, name) {
        Some(place) => place,
        None => return Err(Refusal::NoZone),
    };
    match compile(alloc, &db, place) {
        Ok(zone) => Ok(zone),
        Err(_) => Err(Refusal::Memory),
    }
}
