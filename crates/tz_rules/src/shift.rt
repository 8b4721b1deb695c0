//! How far a clock is ahead of universal time, in seconds.
ghost use Rattle.std.specs.Prelude.{◌≡◌, neg_ℤ};
ghost use Rattle.jiff_core.specs.Calendar.{IsBetween};
ghost use Rattle.tz_types.specs.Amount.{IsShift};
ghost use Rattle.tz_specs.specs.State.{shift};
ghost use Rattle.tz_rules.specs.declared.shift.TheConstants.{MOST_SHIFT};

use tz_types::{AtKind, LONGEST_OFFSET};

/// The most seconds that a clock is ahead of universal time, or behind it: a standard offset and a save.
pub(crate) const MOST_SHIFT: i64 = LONGEST_OFFSET as i64;

/// How many seconds the clock that a time is read from is ahead of universal time.
pub(crate) fn shift_of(kind: AtKind, stdoff: i64, save: i64) -> i64
    requires stdoff_in { IsShift stdoff }
    requires save_in { IsShift save }
    ensures value { result ≡ shift kind stdoff save }
    ensures bound { IsBetween (neg_ℤ MOST_SHIFT) MOST_SHIFT result }
{
    match kind {
        AtKind::Universal => 0,
        AtKind::Standard => stdoff,
        AtKind::Wall => stdoff + save,
    }
}
