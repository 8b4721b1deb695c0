//! Which zones a dump is asked for, and over which stretch of time.
ghost use Rattle.std.specs.Prelude.{◌≡◌, ◌≤◌, ◌+◌, ◌↔◌, List, ℕ, None, Some, length, take, drop, IsTrue, IsNone, IfSome, IfOk, IfErr};
ghost use Rattle.tz_specs.specs.Sound.{is_sound};
ghost use Rattle.tz_lines.specs.Locate.{located};
ghost use Rattle.tz_expand.specs.Stretch.{IsStretch};
ghost use Rattle.tz_cli.specs.Dump.{asked_for, AreAskedFor, IsDumped, DumpAnswers};
ghost use Rattle.tz_cli.specs.Dumping.{compiled_texts};
ghost use Rattle.tz_cli.specs.Refusal.{IsRefusal};
ghost use Rattle.tz_words.specs.declared.status.Status.TheVariants as statuses;

use crate::dump::compiled_zones;
use crate::refusal::Refusal;
use crate::text::database_of;
use crate::zone_dump::ZoneDump;
use std::alloc::Global;
use tz_lines::locate;
use tz_types::{Db, END_OF_TIME, FIRST_INSTANT, Source};

/// The longest stretch of a dump of all zones, in seconds: some 272 years.
const LONGEST: i64 = 8_589_934_592;

/// Neighbours in the list of zones.
struct Neighbours {
    first: u32,
    count: u32,
}

/// The zones that a word asks for: all for `-`, and else the one of that name. None comes exactly where no zone and no
/// link has the name.
fn zones_asked_for(db: &Db, word: &[u8]) -> Option<Neighbours>
    requires { IsTrue (is_sound db.now) }
    ensures are { IfSome result (λ some. AreAskedFor db.now (asked_for word.now) (take some.count (drop some.first db.now.zones))) }
    ensures there { IfSome result (λ some. some.first + some.count ≤ length db.now.zones) }
    ensures missing { IsNone result → (asked_for word.now ≡ Some word.now) × (located db.now word.now ≡ None) }
{
    if word == b"-".as_slice() {
        let count = db.zones.len() as u32;
        return Some(Neighbours { first: 0, count });
    }
    match locate(db, word) {
        Some(first) => Some(Neighbours { first, count: 1 }),
        None => None,
    }
}

/// Whether the stretch has an instant, and lies in time.
pub fn is_stretch(from: i64, to: i64) -> bool
    ensures { IsTrue result ↔ IsStretch from to }
{
    FIRST_INSTANT <= from && from < to && to <= END_OF_TIME
}

/// Whether the stretch is one that is dumped. That of all zones has a limit of its own.
fn is_dumped(word: &[u8], from: i64, to: i64) -> bool
    ensures { IsTrue result ↔ IsDumped (asked_for word.now) from to }
{
    if !is_stretch(from, to) {
        return false;
    }
    word != b"-".as_slice() || to - from <= LONGEST
}

/// What a dump prints: the zones that the word asks for, over a stretch.
pub fn dump(
    alloc: Global,
    source: &Source,
    from: i64,
    to: i64,
    word: &[u8],
) -> Result<ZoneDump, Refusal>
    ensures ok { IfOk result (λ dump. DumpAnswers source.now from to (asked_for word.now) statuses.Ok (compiled_texts dump.from dump.to dump.zones.items)) }
    ensures refused { IfErr result (λ refusal. IsRefusal (DumpAnswers source.now from to (asked_for word.now)) refusal) }
{
    let db = match database_of(alloc, source) {
        Ok(db) => db,
        Err(refusal) => return Err(refusal),
    };
    let Some(Neighbours { first, count }) = zones_asked_for(&db, word) else {
        return Err(Refusal::NoZone);
    };
    if !is_dumped(word, from, to) {
        return Err(Refusal::Range);
    }
    match compiled_zones(alloc, &db, first, count) {
        Ok(zones) => Ok(ZoneDump { zones, from, to }),
        Err(_) => Err(Refusal::Memory),
    }
}
