//! Zones lent with the cells of their windows.
ghost use Rattle.std.specs.Prelude.{◌≡◌, ◌↔◌, IsSome, IfSome};
ghost use Rattle.jiff_core.specs.Calendar.{IsWithin};
ghost use Rattle.tz_types.specs.declared.limit.TheConstants.{LONGEST_OFFSET};
ghost use Rattle.tz_specs.specs.Expansion.{IsInstant, range_at};
ghost use Rattle.tz_expand.specs.Zone.{expansion_of};

use crate::Cells;
use std::alloc::Global;
use std::marker::Model;
use std::sync::ledger::Ledger;
use tz_expand::{CompiledZone, info_at};
use tz_types::{Shared, Steps, SysInfo};

/// A zone that is asked many questions, lent with the cells of its windows. Contracts see it as the zone.
#[derive(Debug, Drop)]
pub struct ZoneRef<'v> {
    zone: &'v Shared<CompiledZone>,
    cells: &'v Cells,
}

impl<'v> Model for ZoneRef<'v> {
    ghost use Rattle.tz_expand.specs.declared.compiled_zone.CompiledZone.{CompiledZone};

    ghost Value = { CompiledZone };

    ghost view = { λ zone_ref. zone_ref.zone.now };
}

impl<'v> ZoneRef<'v> {
    /// The zone with its cells.
    pub fn new(zone: &'v Shared<CompiledZone>, cells: &'v Cells) -> Self
        ensures { result ≡ zone.now }
    {
        ZoneRef { zone, cells }
    }

    /// The zone.
    pub fn compiled(&self) -> &'v CompiledZone
        ensures { result.now ≡ self.now }
    {
        self.zone.get()
    }

    /// The one range of the zone's full expansion that holds the instant `t`, in seconds from 1970-01-01 00:00:00. None comes
    /// exactly where `t` isn't from -9999-01-01 up to but excluding 10000-01-01.
    ///
    /// A probe looks at one range of a window, and a step at one rule in one year. Memory serves to keep windows alone: where
    /// there is none, the answer is the same.
    pub fn info<Q: Ledger, L: Ledger>(
        &mut self,
        _alloc: Global,
        t: i64,
        _probes: &mut Steps<Q>,
        steps: &mut Steps<L>,
    ) -> Option<SysInfo>
        ensures range { result ≡ range_at (expansion_of self.old) t }
        ensures in_range { IsSome result ↔ IsInstant t }
        ensures near { IfSome result (λ range. IsWithin LONGEST_OFFSET range.offset) }
        ensures zone { self.new ≡ self.old }
    {
        info_at(self.zone.get(), t, steps)
    }
}
