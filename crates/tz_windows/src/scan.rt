//! Scans: what many instants, a step apart, tell of a zone in one call.
ghost use Rattle.std.specs.Prelude.{◌≡◌, ◌+◌, ◌*◌, ◌^◌, ◌<◌, ◌≤◌, List, ◌∷◌, filter_map, ℤ, pos, ◌+ℤ◌, None};
ghost use Rattle.jiff_core.specs.Calendar.{IsWithin};
ghost use Rattle.tz_types.specs.declared.limit.TheConstants.{LONGEST_OFFSET};
ghost use Rattle.tz_types.specs.declared.range.SysInfo.{SysInfo};
ghost use Rattle.tz_specs.specs.Expansion.{range_at};
ghost use Rattle.tz_expand.specs.Zone.{expansion_of};
ghost use Rattle.tz_windows.specs.declared.scan.TheConstants.{MOST_LOOKS};

use crate::ZoneRef;
use std::alloc::Global;
use std::sync::ledger::Ledger;
use tz_types::{Steps, SysInfo};

/// The most instants at which one scan looks.
pub const MOST_LOOKS: u32 = 65_536;

/// What a scan tells of the instants at which it looked.
#[derive(Clone, Copy, Debug, PartialEq, Eq, Hash)]
pub struct Scan {
    /// How many of them are in range.
    pub inside: u32,
    /// The sum of the offsets of their ranges, in seconds.
    pub offsets: i64,
    /// How often one in range lies in another range than the one in range before it.
    pub changes: u32,
}

/// What the instants up to some place tell, and where the range of the last of them in range begins.
#[derive(Clone, Copy)]
struct Seen {
    scan: Scan,
    begin: Option<i64>,
}

/// The instant at a place of a scan.
fn instant_at(from: i64, step: u32, place: u32) -> i64
    requires few { place ≤ MOST_LOOKS }
    requires near { IsWithin (10 ^ 15) from }
    ensures { result ≡ from +ℤ pos (place * step) }
{
    from + i64::from(place) * i64::from(step)
}

impl Seen {
    ghost use Rattle.tz_windows.specs.Seen.{nothing_seen, scan_from, change_to, IsSoFar};

    /// Before any instant.
    fn nothing() -> Self
        ensures { result ≡ nothing_seen }
    {
        Seen {
            scan: Scan {
                inside: 0,
                offsets: 0,
                changes: 0,
            },
            begin: None,
        }
    }

    /// 1 where the range isn't the one before, and 0 where it is, or where there is none before.
    fn change_to(self, range: &SysInfo) -> u32
        ensures value { result ≡ change_to self.begin range.now }
        ensures bound { result ≤ 1 }
    {
        match self.begin {
            Some(begin) if begin != range.begin => 1,
            _ => 0,
        }
    }

    /// What is seen with the range of one more instant.
    fn and(self, range: &SysInfo) -> Self
        requires so_far { IsSoFar self }
        requires few { self.scan.inside < MOST_LOOKS }
        requires near { IsWithin LONGEST_OFFSET range.now.offset }
        ensures so_far { IsSoFar result }
        ensures inside { result.scan.inside ≡ self.scan.inside + 1 }
        ensures later { (later : List SysInfo) → scan_from result later ≡ scan_from self (range.now ∷ later) }
    {
        Seen {
            scan: Scan {
                inside: self.scan.inside + 1,
                offsets: self.scan.offsets + range.offset,
                changes: self.scan.changes + self.change_to(range),
            },
            begin: Some(range.begin),
        }
    }
}

impl<'v> ZoneRef<'v> {
    ghost use Rattle.tz_windows.specs.Scan.{scan_of};
    ghost use Rattle.tz_windows.specs.Seen.{scan_from, IsSoFar};

    /// What is seen with one more instant.
    fn look<Q: Ledger, L: Ledger>(
        &mut self,
        alloc: Global,
        seen: Seen,
        t: i64,
        probes: &mut Steps<Q>,
        steps: &mut Steps<L>,
    ) -> Seen
        requires so_far { IsSoFar seen }
        requires few { seen.scan.inside < MOST_LOOKS }
        ensures so_far { IsSoFar result }
        ensures inside { result.scan.inside ≤ seen.scan.inside + 1 }
        ensures later { (later : List ℤ) → let found = range_at (expansion_of self.old) in scan_from result (filter_map found later) ≡ scan_from seen (filter_map found (t ∷ later)) }
        ensures zone { self.new ≡ self.old }
    {
        match self.info(alloc, t, probes, steps) {
            Some(range) => seen.and(&range),
            None => seen,
        }
    }

    /// What the instants `from`, `from + step` and so on tell, as many as `count`, in seconds from 1970-01-01 00:00:00.
    pub fn scan<Q: Ledger, L: Ledger>(
        &mut self,
        alloc: Global,
        from: i64,
        step: u32,
        count: u32,
        probes: &mut Steps<Q>,
        steps: &mut Steps<L>,
    ) -> Scan
        requires apart { 1 ≤ step }
        requires few { count ≤ MOST_LOOKS }
        requires near { IsWithin (10 ^ 15) from }
        ensures scan { result ≡ scan_of self.old from step count }
        ensures zone { self.new ≡ self.old }
    {
        let mut seen = Seen::nothing();
        for place in 0..count {
            seen = self.look(alloc, seen, instant_at(from, step, place), probes, steps);
        }
        seen.scan
    }
}
