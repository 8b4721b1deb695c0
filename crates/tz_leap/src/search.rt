//! One search in the entries of a leap table: by their dates, or by the UTC counts from which they count. What the entries
//! before a place add is looked up, and not summed.
ghost use Rattle.std.specs.Prelude.{◌≡◌, ◌≤◌, ◌<◌, length, map, take, slice_index_or, count_by, int_lt, int_le, pos, if◌then◌else◌, IsTrue};
ghost use Rattle.jiff_core.specs.Calendar.{IsWithin};
ghost use Rattle.tz_types.specs.declared.limit.TheConstants.{MOST_LEAPS};
ghost use Rattle.tz_types.specs.Order.{ascends};
ghost use Rattle.tz_types.specs.Leap.{sum_where};
ghost use Rattle.tz_types.specs.declared.leap_entry.LeapEntry.{LeapEntry};
ghost use Rattle.tz_specs.specs.LeapSecond.{all_seconds, counts_at};

use tz_types::{LeapEntry, Leaps};

/// How many seconds the entries before a place add.
pub(crate) fn sum_before(leaps: &Leaps, place: usize) -> i64
    requires { place ≤ length leaps.now.entries }
    ensures value { result ≡ all_seconds (take place leaps.now.entries) }
    ensures bound { IsWithin MOST_LEAPS result }
{
    leaps.sums.as_slice()[place]
}

/// How many seconds all entries add.
pub(crate) fn sum_of_all(leaps: &Leaps) -> i64
    ensures value { result ≡ all_seconds leaps.now.entries }
    ensures bound { IsWithin MOST_LEAPS result }
{
    sum_before(leaps, leaps.entries.len())
}

/// How many of the entries lie at or before the system time.
fn entries_by(entries: &[LeapEntry], t: i64) -> usize
    requires { IsTrue (ascends int_lt (map (λ entry. entry.date) entries.now)) }
    ensures count { result ≡ count_by (λ entry. int_le entry.date t) entries.now }
    ensures bound { result ≤ length entries.now }
{
    entries.partition_point(
        |entry: &LeapEntry| -> bool
            ensures { result ≡ int_le entry.now.date t }
        { entry.date <= t },
    )
}

/// How many seconds the entries at or before the system time add.
pub(crate) fn added_by(leaps: &Leaps, t: i64) -> i64
    ensures value { result ≡ sum_where (λ entry. int_le entry.date t) leaps.now.entries }
    ensures bound { IsWithin MOST_LEAPS result }
{
    sum_before(leaps, entries_by(leaps.entries.as_slice(), t))
}

/// By how much an entry counts earlier than at its date and what the entries before it add: a skipped second by one.
fn lead(entry: LeapEntry) -> i64
    ensures value { result ≡ (if entry.added then pos 0 else pos 1) }
    ensures bound { IsWithin 1 result }
{
    if entry.added { 0 } else { 1 }
}

/// Whether the entry at a place counts at the UTC count.
fn counts_at(leaps: &Leaps, place: usize, u: i64) -> bool
    requires there { place < length leaps.now.entries }
    requires near { IsWithin 377_705_116_800 u }
    ensures { (missing : LeapEntry) → result ≡ counts_at leaps.now.entries u (slice_index_or leaps.now.entries place missing) }
{
    let entry = leaps.entries.as_slice()[place];
    // Taken from u, since the sum with the date may not fit.
    entry.date <= u - sum_before(leaps, place) + lead(entry)
}

/// How many entries count at the UTC count. They are the first so many.
pub(crate) fn entries_at(leaps: &Leaps, u: i64) -> usize
    requires { IsWithin 377_705_116_800 u }
    ensures count { result ≡ count_by (counts_at leaps.now.entries u) leaps.now.entries }
    ensures bound { result ≤ length leaps.now.entries }
{
    let mut low = 0;
    let mut high = leaps.entries.len();
    while low < high {
        let middle = low + (high - low) / 2;
        if counts_at(leaps, middle, u) {
            low = middle + 1;
        } else {
            high = middle;
        }
    }
    low
}
