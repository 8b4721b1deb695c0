//! Laws of scans, each the contract of a function with an empty body.
ghost use Rattle.std.specs.Prelude.{◌≡◌, ℤ, Some};
ghost use Rattle.tz_types.specs.declared.range.SysInfo.{SysInfo};
ghost use Rattle.tz_specs.specs.Expansion.{range_at};
ghost use Rattle.tz_expand.specs.declared.compiled_zone.CompiledZone.{CompiledZone};
ghost use Rattle.tz_expand.specs.Zone.{expansion_of};

/// Two ranges of a zone that begin at one instant are one range.
pub fn ranges_of_a_zone_begin_apart()
    ensures { (zone : CompiledZone) (t u : ℤ) (range other : SysInfo) → range_at (expansion_of zone) t ≡ Some range → range_at (expansion_of zone) u ≡ Some other → range.begin ≡ other.begin → range ≡ other }
{}
