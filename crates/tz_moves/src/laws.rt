//! Laws of moves and of days, each the contract of a function with an empty body.
ghost use Rattle.std.specs.Prelude.{◌≡◌, ◌↔◌, ℕ, suc, ℤ, pos, ◌-ℤ◌, List, Some, slice_get};
ghost use Rattle.std.specs.List.{Contains, count_by};
ghost use Rattle.tz_types.specs.declared.range.SysInfo.{SysInfo};
ghost use Rattle.tz_specs.specs.Expansion.{first_instant, end_of_time};
ghost use Rattle.tz_expand.specs.declared.compiled_zone.CompiledZone.{CompiledZone};
ghost use Rattle.tz_expand.specs.Zone.{expansion_of};
ghost use Rattle.tz_moves.specs.Day.{day_seconds, seconds_from, shows_day};
ghost use Rattle.tz_moves.specs.Moves.{moved_ranges, IsNextMove, IsPreviousMove};

/// Ranges that begin with a move are exactly those that differ from the range right before them in offset, save or
/// abbreviation.
pub fn moves_begin_ranges_that_differ()
    ensures { (ranges : List SysInfo) (range : SysInfo) → Contains (moved_ranges ranges) range ↔
        ((place : ℕ) × (before : SysInfo) × (slice_get ranges place ≡ Some before) × (slice_get ranges (suc place) ≡ Some range)
        × ¬ ((before.offset ≡ range.offset) × (before.save ≡ range.save) × (before.abbrev ≡ range.abbrev))) }
{}

/// An instant has at most one next move, and at most one previous one.
pub fn nearest_moves_are_one()
    ensures next { (zone : CompiledZone) (t one other : ℤ) → IsNextMove zone t one → IsNextMove zone t other → one ≡ other }
    ensures previous { (zone : CompiledZone) (t one other : ℤ) → IsPreviousMove zone t one → IsPreviousMove zone t other → one ≡ other }
{}

/// The seconds of a day are as many as the instants in time at which the clock shows a second of it.
pub fn day_seconds_are_counted()
    ensures { (zone : CompiledZone) (day : ℤ) (all : ℕ) → pos all ≡ (end_of_time -ℤ first_instant) →
        day_seconds day (expansion_of zone) ≡ pos (count_by (shows_day day (expansion_of zone)) (seconds_from first_instant all)) }
{}
