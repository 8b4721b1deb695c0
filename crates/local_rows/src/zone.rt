//! Zones that are read from texts.
use std::alloc::Global;
use tz_expand::{CompiledZone, compile};
use tz_lines::read_zones;
use tz_types::{NoMemory, Source};

/// The one zone of a text, ready for questions.
pub(crate) fn zone_of(alloc: Global, text: &[u8]) -> Result<Option<CompiledZone>, NoMemory> {
    if text.len() > 4_194_304 {
        return Ok(None);
    }
    let source = Source::of_text(alloc, text.to_vec(alloc)?)?;
    let Ok(db) = read_zones(alloc, &source) else {
        return Ok(None);
    };
    if db.zones.is_empty() {
        return Ok(None);
    }
    Ok(Some(compile(alloc, &db, 0)?))
}
