//! What the clocks of UTC, TAI and GPS keep to.
ghost use Rattle.std.specs.Prelude.{◌≡◌, ◌↔◌, List, All, map, ℤ, ◌+ℤ◌, ◌-ℤ◌, pos, ◌<ℤ◌, ◌≤ℤ◌, int_lt, IsTrue};
ghost use Rattle.tz_types.specs.Order.{ascends};
ghost use Rattle.tz_types.specs.declared.leap_entry.LeapEntry.{LeapEntry};
ghost use Rattle.tz_specs.specs.Expansion.{IsInstant, first_instant, end_of_time};
ghost use Rattle.tz_specs.specs.LeapSecond.{utc_count, tai_count, gps_count, elapsed_by, is_inserted, IsSystemTime, IsUtcCount};

/// Of two system times the later one has no lesser UTC count.
pub fn utc_counts_never_fall()
    ensures { (entries : List LeapEntry) (t later : ℤ) → IsTrue (ascends int_lt (map (λ entry. entry.date) entries)) → t ≤ℤ later → utc_count entries t ≤ℤ utc_count entries later }
{}

/// Where no second is skipped, the later one has the greater count.
pub fn utc_counts_rise_where_none_is_skipped()
    ensures { (entries : List LeapEntry) (t later : ℤ) → All (λ entry. IsTrue entry.added) entries → t <ℤ later → utc_count entries t <ℤ utc_count entries later }
{}

/// The system time of the UTC count of a system time has that count too, and isn't before it: of those that share a
/// count it is the greatest.
pub fn shared_counts_go_to_the_last_time()
    ensures { (entries : List LeapEntry) (t time : ℤ) → IsTrue (ascends int_lt (map (λ entry. entry.date) entries)) → IsSystemTime entries (utc_count entries t) time → (utc_count entries time ≡ utc_count entries t) × (t ≤ℤ time) }
{}

/// The counts that are the UTC count of no system time are exactly the added seconds.
pub fn only_inserted_seconds_are_left_out()
    ensures { (entries : List LeapEntry) (u : ℤ) → IsTrue (ascends int_lt (map (λ entry. entry.date) entries)) → (((t : ℤ) → ¬ (utc_count entries t ≡ u)) ↔ IsTrue (is_inserted entries u)) }
{}

/// Each UTC count has a system time, and only one.
pub fn utc_counts_have_one_system_time()
    ensures some { (entries : List LeapEntry) (u : ℤ) → IsTrue (ascends int_lt (map (λ entry. entry.date) entries)) → (t : ℤ) × IsSystemTime entries u t }
    ensures once { (entries : List LeapEntry) (u t other : ℤ) → IsTrue (ascends int_lt (map (λ entry. entry.date) entries)) → IsSystemTime entries u t → IsSystemTime entries u other → t ≡ other }
{}

/// A UTC count is its system time and the seconds that were added up to it, less those that were skipped.
pub fn utc_counts_are_system_time_and_what_elapsed()
    ensures { (entries : List LeapEntry) (u t : ℤ) → IsTrue (ascends int_lt (map (λ entry. entry.date) entries)) → IsSystemTime entries u t → u ≡ t +ℤ elapsed_by entries u }
{}

/// The UTC count of a system time in range is in range, and so is the system time of a UTC count in range,
/// where the dates lie in time.
pub fn clocks_keep_their_ranges()
    ensures utc { (entries : List LeapEntry) (t : ℤ) → IsTrue (ascends int_lt (map (λ entry. entry.date) entries)) → All (λ entry. (first_instant <ℤ entry.date) × (entry.date <ℤ end_of_time)) entries → IsInstant t → IsUtcCount entries (utc_count entries t) }
    ensures system { (entries : List LeapEntry) (u t : ℤ) → IsTrue (ascends int_lt (map (λ entry. entry.date) entries)) → All (λ entry. (first_instant <ℤ entry.date) × (entry.date <ℤ end_of_time)) entries → IsUtcCount entries u → IsSystemTime entries u t → IsInstant t }
{}

/// TAI and GPS keep their distance from UTC.
pub fn tai_and_gps_keep_their_distance()
    ensures tai { (u : ℤ) → tai_count u ≡ u +ℤ pos 378_691_210 }
    ensures gps { (u : ℤ) → gps_count u ≡ u -ℤ pos 315_964_809 }
{}
