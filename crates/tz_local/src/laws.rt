//! Laws of local times and the instants that they stand for, each the contract of a function with an empty body.
ghost use Rattle.std.specs.Prelude.{◌≡◌, ◌⊎◌, ℤ, ◌≤ℤ◌, Option, Some};
ghost use Rattle.tz_types.specs.declared.range.SysInfo.{SysInfo};
ghost use Rattle.tz_types.specs.declared.range.LocalInfo.{LocalInfo};
ghost use Rattle.tz_types.specs.declared.range.LocalInfo.TheVariants.{Nonexistent};
ghost use Rattle.tz_types.specs.declared.range.Choose.{Choose};
ghost use Rattle.tz_types.specs.declared.range.Choose.TheVariants.{Earliest, Latest};
ghost use Rattle.tz_specs.specs.Expansion.{range_at};
ghost use Rattle.tz_specs.specs.Local.{local_info, chosen_instant};
ghost use Rattle.tz_expand.specs.declared.compiled_zone.CompiledZone.{CompiledZone};
ghost use Rattle.tz_expand.specs.Zone.{expansion_of};
ghost use Rattle.tz_local.specs.Clock.{ShowsAt};

/// At the instant that a local time gives, the zone's clock shows it, unless it shows it at no instant. Of the instants at
/// which the clock shows it, none is before the earliest and none after the latest.
pub fn instants_show_their_local_times()
    ensures shown { (zone : CompiledZone) (l t : ℤ) (info : LocalInfo) (choose : Option Choose) → local_info (expansion_of zone) l ≡ Some info → chosen_instant info l choose ≡ Some t → ShowsAt zone t l ⊎ ((other : ℤ) → ¬ (ShowsAt zone other l)) }
    ensures earliest { (zone : CompiledZone) (l t other : ℤ) (info : LocalInfo) → local_info (expansion_of zone) l ≡ Some info → chosen_instant info l (Some Earliest) ≡ Some t → ShowsAt zone other l → t ≤ℤ other }
    ensures latest { (zone : CompiledZone) (l t other : ℤ) (info : LocalInfo) → local_info (expansion_of zone) l ≡ Some info → chosen_instant info l (Some Latest) ≡ Some t → ShowsAt zone other l → other ≤ℤ t }
{}

/// A local time that doesn't exist is shown at no instant: the clock jumps over it where the first range ends and the second
/// begins.
pub fn gaps_are_jumped_over()
    ensures hidden { (zone : CompiledZone) (l t : ℤ) (first second : SysInfo) → local_info (expansion_of zone) l ≡ Some (Nonexistent first second) → ¬ (ShowsAt zone t l) }
    ensures begins { (zone : CompiledZone) (l : ℤ) (first second : SysInfo) → local_info (expansion_of zone) l ≡ Some (Nonexistent first second) → range_at (expansion_of zone) first.end ≡ Some second }
{}
