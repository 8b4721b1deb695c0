//! Laws: what a local time stands for (C++20, [time.zone.info.local]).
ghost use Rattle.std.specs.Prelude.{◌≡◌, ◌↔◌, ℤ, pos, ◌+ℤ◌, ◌-ℤ◌, ◌<ℤ◌, ◌≤ℤ◌, List, Some, IsSome};
ghost use Rattle.std.specs.List.{All};
ghost use Rattle.jiff_core.specs.Calendar.{IsWithin};
ghost use Rattle.tz_types.specs.declared.limit.TheConstants.{LONGEST_OFFSET};
ghost use Rattle.tz_types.specs.declared.range.SysInfo.{SysInfo};
ghost use Rattle.tz_types.specs.declared.range.LocalInfo.TheVariants.{Unique, Nonexistent, Ambiguous};
ghost use Rattle.tz_specs.specs.Local.{local_info};
ghost use Rattle.tz_specs.specs.Cover.{Covers};
ghost use Rattle.tz_specs.specs.Shown.{IsShownOnce, IsShownTwice, IsInGap};

/// Each local time is told that lies two days inside the ends of ranges whose offsets are at most two days.
pub fn local_times_are_told()
    ensures { (a b l : ℤ) (ranges : List SysInfo) → Covers a b ranges → All (λ range. IsWithin LONGEST_OFFSET range.offset) ranges → (a +ℤ pos LONGEST_OFFSET) ≤ℤ l → l <ℤ (b -ℤ pos LONGEST_OFFSET) → IsSome (local_info ranges l) }
{}

/// A local time is unique exactly where one range alone shows it, and ambiguous exactly where several do, of which the first
/// and the last are told. It doesn't exist exactly where no range shows it: it lies between the clocks of two neighbours, the
/// last such two.
pub fn local_times_mean_what_they_say()
    ensures unique { (a b l : ℤ) (ranges : List SysInfo) (range : SysInfo) → Covers a b ranges → IsShownOnce ranges l range ↔ (local_info ranges l ≡ Some (Unique range)) }
    ensures ambiguous { (a b l : ℤ) (ranges : List SysInfo) (first second : SysInfo) → Covers a b ranges → IsShownTwice ranges l first second ↔ (local_info ranges l ≡ Some (Ambiguous first second)) }
    ensures nonexistent { (a b l : ℤ) (ranges : List SysInfo) (first second : SysInfo) → Covers a b ranges → IsInGap ranges l first second ↔ (local_info ranges l ≡ Some (Nonexistent first second)) }
{}
