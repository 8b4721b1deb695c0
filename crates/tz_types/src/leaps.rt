//! A table of leap seconds, with the running sums that its clocks look up. Dates and moments are in seconds from
//! 1970-01-01 00:00:00.
ghost use Rattle.std.specs.Prelude.{◌≡◌, ◌≤◌, ◌↔◌, length, map, pos, int_lt, IsTrue, IfOk};
ghost use Rattle.jiff_core.specs.Calendar.{IsWithin};
ghost use Rattle.tz_types.specs.Order.{ascends};
ghost use Rattle.tz_types.specs.declared.limit.TheConstants.{MOST_LEAPS};
ghost use Rattle.tz_types.specs.Leap.{sign, running_sums};

use crate::limit::MOST_LEAPS;
use crate::{Items, LeapEntry, NoMemory};
use std::alloc::Global;

/// Leap seconds in the order of their dates, and the moment from which the table isn't known to hold.
#[derive(Debug, PartialEq, Drop)]
pub struct Leaps {
    pub entries: Items<LeapEntry>,
    pub expires: Option<i64>,
    /// How many seconds the entries before each place add, and last how many all of them do.
    pub sums: Items<i64>,
    pub ghost ascending: { IsTrue (ascends int_lt (map (λ entry. entry.date) entries)) },
    pub ghost few_enough: { length entries ≤ MOST_LEAPS },
    pub ghost summed: { sums ≡ running_sums (pos 0) entries },
}

impl Leaps {
    /// Whether the entries make a table: each has a later date than the one before it, and there are at most 1,024.
    pub fn are_entries(entries: &[LeapEntry]) -> bool
        ensures { IsTrue result ↔ (IsTrue (ascends int_lt (map (λ entry. entry.date) entries.now)) × (length entries.now ≤ MOST_LEAPS)) }
    {
        entries.len() <= MOST_LEAPS && ascend(entries)
    }

    /// The table of entries that make one.
    pub fn new(
        alloc: Global,
        entries: Items<LeapEntry>,
        expires: Option<i64>,
    ) -> Result<Self, NoMemory>
        requires ascending { IsTrue (ascends int_lt (map (λ entry. entry.date) entries)) }
        requires few_enough { length entries ≤ MOST_LEAPS }
        ensures entries { IfOk result (λ leaps. leaps.entries ≡ entries) }
        ensures expires { IfOk result (λ leaps. leaps.expires ≡ expires) }
    {
        let sums = running_sums(alloc, entries.as_slice())?;
        Ok(Leaps {
            entries,
            expires,
            sums,
        })
    }
}

/// Each entry has an earlier date than the next.
fn ascend(entries: &[LeapEntry]) -> bool
    ensures { result ≡ ascends int_lt (map (λ entry. entry.date) entries.now) }
{
    entries.is_sorted_by(
        |a: &LeapEntry, b: &LeapEntry| -> bool
            ensures { result ≡ int_lt a.now.date b.now.date }
        { a.date < b.date },
    )
}

/// How many seconds the entries before each place add, and last how many all of them do.
fn running_sums(alloc: Global, entries: &[LeapEntry]) -> Result<Items<i64>, NoMemory>
    requires { length entries.now ≤ MOST_LEAPS }
    ensures { IfOk result (λ sums. sums ≡ running_sums (pos 0) entries.now) }
{
    let mut sums = Vec::with_capacity(alloc, entries.len() + 1)?;
    let mut sum = 0;
    for entry in entries {
        sums.push(sum)?;
        sum += entry.sign();
    }
    sums.push(sum)?;
    Ok(Items::from_vec(sums))
}
