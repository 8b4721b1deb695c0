//! Laws of compiled zones and of stretches, each the contract of a function with an empty body.
ghost use Rattle.std.specs.Prelude.{◌≡◌, ◌↔◌, ℤ, ◌<ℤ◌, ◌≤ℤ◌, Some, slice_get};
ghost use Rattle.std.specs.List.{Contains};
ghost use Rattle.tz_types.specs.declared.database.Db.{Db};
ghost use Rattle.tz_types.specs.declared.zone.Zone.{Zone};
ghost use Rattle.tz_types.specs.declared.range.SysInfo.{SysInfo};
ghost use Rattle.tz_specs.specs.Expansion.{range_at};
ghost use Rattle.tz_expand.specs.declared.compiled_zone.CompiledZone.{CompiledZone};
ghost use Rattle.tz_expand.specs.Zone.{IsCompiled, expansion_of};
ghost use Rattle.tz_expand.specs.Stretch.{ranges_between};

/// The ranges of a stretch are exactly those of the full expansion that have an instant of it, as they are there. So each
/// instant of the stretch lies in the same range.
pub fn ranges_between_have_an_instant_of_the_stretch()
    ensures members { (zone : CompiledZone) (from to : ℤ) (range : SysInfo) → from <ℤ to → Contains (ranges_between zone from to) range ↔ (Contains (expansion_of zone) range × ((t : ℤ) × (from ≤ℤ t) × (t <ℤ to) × (range.begin ≤ℤ t) × (t <ℤ range.end))) }
    ensures instants { (zone : CompiledZone) (from to t : ℤ) → from ≤ℤ t → t <ℤ to → range_at (ranges_between zone from to) t ≡ range_at (expansion_of zone) t }
{}

/// A zone of a database is compiled to one value.
pub fn zones_are_compiled_to_one_value()
    ensures { (db : Db) (zone : Zone) (one other : CompiledZone) → IsCompiled db zone one → IsCompiled db zone other → one ≡ other }
{}
