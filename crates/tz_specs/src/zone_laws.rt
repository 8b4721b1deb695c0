//! Laws: what is told of all times by a zone that is sound.
ghost use Rattle.std.specs.Prelude.{◌≡◌, ℤ, pos, ◌+ℤ◌, ◌-ℤ◌, ◌<ℤ◌, ◌≤ℤ◌, Some, IsSome, IsTrue};
ghost use Rattle.std.specs.List.{Contains};
ghost use Rattle.jiff_core.specs.Calendar.{IsWithin};
ghost use Rattle.tz_types.specs.declared.limit.TheConstants.{LONGEST_OFFSET};
ghost use Rattle.tz_types.specs.declared.database.Db.{Db};
ghost use Rattle.tz_types.specs.declared.range.SysInfo.{SysInfo};
ghost use Rattle.tz_types.specs.declared.zone.Zone.{Zone};
ghost use Rattle.tz_specs.specs.Expansion.{IsInstant, first_instant, end_of_time, periods_of, full_expansion, holds_instant, range_at};
ghost use Rattle.tz_specs.specs.Local.{local_info};
ghost use Rattle.tz_specs.specs.Cover.{Covers, IsSound};

/// A sound zone's ranges cover all of time, its offsets are at most two days, each instant has its range, and each
/// local time is told that lies two days inside of time.
pub fn sound_zones_tell_all_times()
    ensures covered { (db : Db) (zone : Zone) → IsSound db zone → Covers first_instant end_of_time (full_expansion (periods_of db zone)) }
    ensures instants { (db : Db) (zone : Zone) (t : ℤ) → IsSound db zone → IsInstant t → (range : SysInfo) × (range_at (full_expansion (periods_of db zone)) t ≡ Some range) × IsTrue (holds_instant t range) }
    ensures offsets { (db : Db) (zone : Zone) (range : SysInfo) → Contains (full_expansion (periods_of db zone)) range → IsWithin LONGEST_OFFSET range.offset }
    ensures local_times { (db : Db) (zone : Zone) (l : ℤ) → IsSound db zone → (first_instant +ℤ pos LONGEST_OFFSET) ≤ℤ l → l <ℤ (end_of_time -ℤ pos LONGEST_OFFSET) → IsSome (local_info (full_expansion (periods_of db zone)) l) }
{}
