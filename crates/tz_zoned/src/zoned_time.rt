//! Instants with their zones, after ISO C++20 [time.zone.zonedtime]. System and local times are seconds from 1970-01-01
//! 00:00:00.
ghost use Rattle.std.specs.Prelude.{◌≡◌, ◌↔◌, ◌<◌, Some, None, IsOk, IfOk};
ghost use Rattle.tz_types.specs.declared.range.LocalInfo.{LocalInfo};
ghost use Rattle.tz_specs.specs.Expansion.{IsInstant, range_at};
ghost use Rattle.tz_expand.specs.Zone.{expansion_of};
ghost use Rattle.tz_local.specs.LocalTime.{IsLocalTime};
ghost use Rattle.tz_local.specs.Choice.{IsInstantOf, NeedsChoice};
ghost use Rattle.tz_local.specs.Clock.{ShowsAt};

use std::marker::Brand;
use std::sync::ledger::{Blank, Ledger};
use tz_expand::{CompiledZone, info_at};
use tz_local::{OutOfRange, ToSysError, to_sys};
use tz_types::{Choose, END_OF_TIME, FIRST_INSTANT, Steps, SysInfo};

/// An instant, in seconds from 1970-01-01 00:00:00, from -9999-01-01 up to but excluding 10000-01-01, with a zone and the
/// number of the version that the zone is from.
#[derive(Clone, Copy, Debug)]
pub struct ZonedTime<'v> {
    pub zone: &'v CompiledZone,
    pub number: u32,
    pub sys: i64,
    pub ghost sys_in: { IsInstant sys },
}

/// The range of the zone that holds an instant, where nobody asks for the count of steps.
fn range_at<L: Ledger>(zone: &CompiledZone, t: i64, blank: Blank) -> SysInfo
    requires name { blank.name ≡ L.name }
    requires parts { blank.parts ≡ L.parts }
    requires counts { 0 < blank.parts }
    requires inside { IsInstant t }
    ensures { range_at (expansion_of zone.now) t ≡ Some result }
{
    let mut steps = Steps::<L>::new(blank);
    match info_at(zone, t, &mut steps) {
        Some(range) => range,
        None => unreachable!(),
    }
}

impl<'v> ZonedTime<'v> {
    /// The system time `sys` with its zone. `OutOfRange` comes exactly where it isn't in range.
    pub fn from_sys(zone: &'v CompiledZone, number: u32, sys: i64) -> Result<Self, OutOfRange>
        ensures in_range { IsOk result ↔ IsInstant sys }
        ensures made { IfOk result (λ time. (time.zone.now ≡ zone.now) × (time.number ≡ number) × (time.sys ≡ sys)) }
    {
        if sys < FIRST_INSTANT || sys >= END_OF_TIME {
            return Err(OutOfRange);
        }
        Ok(ZonedTime { zone, number, sys })
    }

    /// The instant that the local time `l` stands for under the choice, with its zone. It is refused exactly as by `to_sys`.
    pub fn from_local(
        zone: &'v CompiledZone,
        number: u32,
        l: i64,
        choose: Option<Choose>,
    ) -> Result<Self, ToSysError>
        ensures out_of_range { (result ≡ Err ToSysError.OutOfRange) ↔ ¬ (IsLocalTime l) }
        ensures undecided { (info : LocalInfo) → (result ≡ Err (ToSysError.Undecided info)) ↔ ((choose ≡ None) × NeedsChoice zone.now l info) }
        ensures instant { IfOk result (λ time. IsInstantOf zone.now l choose time.sys) }
        ensures made { IfOk result (λ time. (time.zone.now ≡ zone.now) × (time.number ≡ number)) }
    {
        match to_sys(zone, l, choose) {
            Ok(sys) => Ok(ZonedTime { zone, number, sys }),
            Err(error) => Err(error),
        }
    }

    /// The range of the zone that holds the instant.
    pub fn info(&self) -> SysInfo
        ensures { range_at (expansion_of self.now.zone.now) self.now.sys ≡ Some result }
    {
        range_at::<Brand>(self.zone, self.sys, Blank::new(1))
    }

    /// What the zone's clock shows at the instant, in seconds from 1970-01-01 00:00:00.
    pub fn local(&self) -> i64
        ensures { ShowsAt self.now.zone.now self.now.sys result }
    {
        self.sys + self.info().offset
    }

    /// The instant.
    pub fn sys(&self) -> i64
        ensures value { result ≡ self.now.sys }
        ensures in_range { IsInstant result }
    {
        self.sys
    }
}

/// Zoned times are equal exactly where the names of their zones, their versions' numbers and their instants are.
impl PartialEq for ZonedTime<'_> {
    ghost use Rattle.std.specs.Prelude.{◌≡◌, ◌↔◌, nat_eq, IsTrue};
    ghost use Rattle.std.specs.Cmp.Lexicographic.{pointwise};
    ghost use Rattle.std.specs.Cmp.Rules.{comparing};
    ghost use Rattle.std.specs.Ordering.{on, eq_of_both, int_eq};
    ghost use Rattle.std.proofs.Common.{rules};

    ghost eq = { eq_of_both (on (λ time. time.zone.now.name) (pointwise nat_eq)) (eq_of_both (on (λ time. time.number) nat_eq) (on (λ time. time.sys) int_eq)) };

    ghost laws = { Prim.search (comparing, rules) };

    fn eq(&self, other: &Self) -> bool
        ensures answer { result ≡ ⟦<Self as PartialEq>⟧.eq self.now other.now }
        ensures equal { IsTrue result ↔ ((self.now.zone.now.name ≡ other.now.zone.now.name) × (self.now.number ≡ other.now.number) × (self.now.sys ≡ other.now.sys)) }
    {
        self.zone.name == other.zone.name && self.number == other.number && self.sys == other.sys
    }
}

impl Eq for ZonedTime<'_> {
    ghost use Rattle.std.specs.Cmp.Rules.{comparing};
    ghost use Rattle.std.proofs.Common.{rules};

    ghost laws = { Prim.search (comparing, rules) };
}
