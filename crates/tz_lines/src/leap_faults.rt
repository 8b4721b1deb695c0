//! The faults of a leap text as a whole.
ghost use Rattle.std.specs.Prelude.{◌≡◌, ◌++◌, None};
ghost use Rattle.std.specs.Option.{option_to_list};
ghost use Rattle.tz_specs.specs.LeapText.{leap_fault_where};
ghost use Rattle.tz_lines.specs.LeapFaults.{repeats, repeats_after, later_expiries, early_expiries, last_date, is_early};
ghost use Rattle.tz_database.specs.LeastFault.{told_with};

use crate::leap_contents::{WrittenExpiry, WrittenLeap};
use tz_database::LeastFault;
use tz_types::{Cause, LineFault};

/// Tells a fault where the line has it.
fn tell(told: &mut LeastFault, holds: bool, line: u32, cause: Cause)
    ensures { told.new.least ≡ told_with told.old.least (option_to_list (leap_fault_where holds line cause)) }
{
    told.tell_where(holds, line, cause);
}

/// Tells each leap second that has the date of the one before it.
fn tell_repeats_after(told: &mut LeastFault, first: &WrittenLeap, later: &[WrittenLeap])
    ensures { told.new.least ≡ told_with told.old.least (repeats_after first.now later.now) }
{
    let mut before = first;
    for leap in later {
        tell(told, before.date == leap.date, leap.line, Cause::LeapRepeat);
        before = leap;
    }
}

/// Tells each leap second whose date an earlier line gives too, where they stand in the order of their dates and lines.
fn tell_repeats(told: &mut LeastFault, leaps: &[WrittenLeap])
    ensures { told.new.least ≡ told_with told.old.least (repeats leaps.now) }
{
    if let [first, later @ ..] = leaps {
        tell_repeats_after(told, first, later);
    }
}

/// Tells each expiry but the first.
fn tell_later_expiries(told: &mut LeastFault, expiries: &[WrittenExpiry])
    ensures { told.new.least ≡ told_with told.old.least (later_expiries expiries.now) }
{
    if let [_, later @ ..] = expiries {
        for expiry in later {
            tell(told, true, expiry.line, Cause::ExpiresTwice);
        }
    }
}

/// The date of the last leap second.
fn last_date(leaps: &[WrittenLeap]) -> Option<i64>
    ensures { result ≡ last_date leaps.now }
{
    match leaps.last() {
        Some(leap) => Some(leap.date),
        None => None,
    }
}

/// Whether the table expires no later than its last leap second.
fn is_early(last: Option<i64>, moment: i64) -> bool
    ensures { result ≡ is_early last moment }
{
    match last {
        Some(date) => moment <= date,
        None => false,
    }
}

/// Tells each expiry that isn't after the last leap second.
fn tell_early_expiries(told: &mut LeastFault, last: Option<i64>, expiries: &[WrittenExpiry])
    ensures { told.new.least ≡ told_with told.old.least (early_expiries last expiries.now) }
{
    for expiry in expiries {
        tell(
            told,
            is_early(last, expiry.moment),
            expiry.line,
            Cause::ExpiresEarly,
        );
    }
}

/// The fault at the least line, with the least cause there, where the leap seconds stand in the order of their dates and
/// lines.
pub fn least_leap_fault(leaps: &[WrittenLeap], expiries: &[WrittenExpiry]) -> Option<LineFault>
    ensures { result ≡ told_with None (repeats leaps.now ++ later_expiries expiries.now ++ early_expiries (last_date leaps.now) expiries.now) }
{
    let mut told = LeastFault::new();
    tell_repeats(&mut told, leaps);
    tell_later_expiries(&mut told, expiries);
    tell_early_expiries(&mut told, last_date(leaps), expiries);
    told.least
}
