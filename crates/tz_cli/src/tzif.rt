//! Zones as TZif files (RFC 8536) over civil years, which begin at their first midnight in universal time.
ghost use Rattle.std.specs.Prelude.{◌≡◌, ◌↔◌, pos, ◌+ℤ◌, IsTrue, IfOk};
ghost use Rattle.jiff_core.specs.Calendar.{IsYear};
ghost use Rattle.tz_types.specs.Calendar.{year_start};
ghost use Rattle.tz_tzif.specs.Answer.{Answers};
ghost use Rattle.tz_cli.specs.Tzif.{AreYears, MeansYears, IsFileOf, TzifAnswers, ranges_of_years, as_refusal};
ghost use Rattle.tz_cli.specs.Refusal.{Gives};
ghost use Rattle.tz_cli.specs.ZoneAnswer.{GivesOfZone};

use crate::named_zone::named_zone;
use crate::refusal::Refusal;
use std::alloc::Global;
use tz_expand::CompiledZone;
use tz_types::{LAST_RULE_YEAR, Source, civil_seconds};
use tz_tzif::TzifError;

/// The first year that a file may begin with.
const FIRST_YEAR: i32 = -(LAST_RULE_YEAR as i32);

/// The last year that it may end with: the year behind it has a midnight too.
const LAST_YEAR: i32 = LAST_RULE_YEAR as i32 - 1;

/// The second at which a civil year begins.
fn year_start(year: i32) -> i64
    requires { IsYear year }
    ensures { result ≡ year_start year }
{
    match civil_seconds(year, 1, 1, 0, 0, 0) {
        Ok(second) => second,
        Err(_) => unreachable!(),
    }
}

/// Whether the years are in order, and lie where a file may begin and end.
fn are_years(first: i32, last: i32) -> bool
    ensures { IsTrue result ↔ AreYears first last }
{
    FIRST_YEAR <= first && first <= last && last <= LAST_YEAR
}

/// The file of the zone from the start of a year to the end of another.
fn file_of_years(
    alloc: Global,
    zone: &CompiledZone,
    first: i32,
    last: i32,
) -> Result<Vec<u8>, TzifError>
    requires { AreYears first last }
    ensures answers { Answers (year_start first) (ranges_of_years first last zone.now) result }
    ensures means { IfOk result (λ file. MeansYears first last zone.now file.items) }
{
    tz_tzif::tzif(alloc, zone, year_start(first), year_start(last + 1))
}

/// Why there is no file.
fn refusal_of(error: TzifError) -> Refusal
    ensures { result ≡ as_refusal error }
{
    match error {
        TzifError::NoMemory => Refusal::Memory,
        TzifError::Types { .. } => Refusal::Types,
        TzifError::Designations { .. } => Refusal::Designations,
    }
}

/// The file of the zone over the years, where they are in range.
fn tzif_in(alloc: Global, zone: &CompiledZone, first: i32, last: i32) -> Result<Vec<u8>, Refusal>
    ensures { GivesOfZone (AreYears first last) (IsFileOf first last zone.now) result }
{
    if !are_years(first, last) {
        return Err(Refusal::Range);
    }
    match file_of_years(alloc, zone, first, last) {
        Ok(file) => Ok(file),
        Err(error) => Err(refusal_of(error)),
    }
}

/// What `tzif` prints: the file of the zone named over the years from one to another.
pub fn tzif(
    alloc: Global,
    source: &Source,
    name: &[u8],
    first: i32,
    last: i32,
) -> Result<Vec<u8>, Refusal>
    ensures { Gives (TzifAnswers source.now name.now first last) result }
{
    match named_zone(alloc, source, name) {
        Ok(zone) => tzif_in(alloc, &zone, first, last),
        Err(refusal) => Err(refusal),
    }
}
