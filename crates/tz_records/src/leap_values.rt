//! The values of single fields of leap texts.
ghost use Rattle.std.specs.Prelude.{◌≡◌, ◌==◌, nat_eq, IsTrue, IfSome, codes, if◌then◌else◌};
ghost use Rattle.std.specs.List.{list_any};
ghost use Rattle.tz_types.specs.Year.{IsRuleYear};
ghost use Rattle.tz_types.specs.Calendar.{has_day};
ghost use Rattle.tz_types.specs.declared.calendar.On.TheVariants.{Day};
ghost use Rattle.tz_specs.specs.Day.{day_number_of};
ghost use Rattle.tz_records.specs.PlainDay.{number_alone};
ghost use Rattle.tz_specs.specs.Value.{rule_year_of, month_named};
ghost use Rattle.tz_specs.specs.LeapLine.{leap_day_of, correction_of, leap_time, is_leap_time, is_stationary};

use crate::values::is_exactly;
use tz_text::{named, on};
use tz_types::{Month, On, has_day};

const KINDS: &[u8] = b"Stationary Rolling";

/// The day number, where the day is that alone.
fn number_alone(on: Option<On>) -> Option<u8>
    ensures { result ≡ number_alone on }
{
    match on {
        Some(On::Day(day)) => Some(day),
        Some(On::Last(_) | On::From(_, _) | On::UpTo(_, _)) | None => None,
    }
}

/// A day number alone, from 1 to 31.
#[tactic(auto, using(crate::proofs::PlainDays::alone))]
fn plain_day(field: &[u8]) -> Option<u8>
    ensures { result ≡ day_number_of field.now }
{
    number_alone(on(field))
}

/// A plain day number that the month has in that year.
pub fn leap_day(year: i32, month: Month, field: &[u8]) -> Option<u8>
    requires { IsRuleYear year }
    ensures value { result ≡ leap_day_of year month field.now }
    ensures day { IfSome result (λ day. IsTrue (has_day year month (Day day))) }
{
    let day = plain_day(field)?;
    if has_day(year, month, On::Day(day)) {
        Some(day)
    } else {
        None
    }
}

/// Whether a second is added, and not skipped.
pub fn correction(field: &[u8]) -> Option<bool>
    ensures { result ≡ correction_of field.now }
{
    if is_exactly(field, b"+") {
        return Some(true);
    }
    if is_exactly(field, b"-") {
        return Some(false);
    }
    None
}

/// The second that is added, or the one that is skipped.
fn leap_time(added: bool) -> &'static [u8]
    ensures { result.now ≡ leap_time added }
{
    if added { b"23:59:60" } else { b"23:59:59" }
}

/// Whether the time goes with the correction, or with either where there is none.
pub fn is_leap_time(correction: Option<bool>, field: &[u8]) -> bool
    ensures { result ≡ is_leap_time correction field.now }
{
    match correction {
        None => is_exactly(field, leap_time(true)) || is_exactly(field, leap_time(false)),
        Some(added) => is_exactly(field, leap_time(added)),
    }
}

/// Whether the word names the kind of seconds that stand still, in universal time.
pub fn is_stationary(word: &[u8]) -> bool
    ensures { result ≡ is_stationary word.now }
{
    match named(word, KINDS) {
        Some(place) => place == 0,
        None => false,
    }
}
