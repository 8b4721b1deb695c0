//! What texts and zones mean. There is no code here: only definitions, in `specs/`, one file a subject,
//! and laws about them, each the contract of a public function with an empty body.
//!
//! A law is read from the contract of its function. `ranges_cover_time`, for one, says: lines that follow one another in time
//! give ranges that do, each beginning where the one before it ends. A proof in a crate above cites it by a call:
//!
//! ```rust
//! use tz_specs::ranges_cover_time;
//!
//! ranges_cover_time();        // costs nothing, and from here on the check knows the law
//! ```
#![tactic(auto)]

mod around_laws;
mod before_laws;
mod calendar_laws;
mod clock_laws;
mod cover_laws;
mod effect_laws;
mod expansion_laws;
mod field;
mod leap_laws;
mod leap_text_laws;
mod local_laws;
mod occurrence_laws;
mod range_laws;
mod rules_followed_laws;
mod state_laws;
mod text_laws;
mod until_laws;
mod zone_laws;

pub use around_laws::{
    lines_follow_one_another, next_change_takes_effect, range_around_an_instant,
    range_of_a_line_is_found,
};
pub use before_laws::standard_time_is_in_force_before_any_occurrence;
pub use calendar_laws::instant_lies_in_one_year;
pub use clock_laws::{lines_end_on_the_clocks_of_their_untils, occurrences_come_on_their_clocks};
pub use cover_laws::{
    cuts_rise, each_instant_has_one_range, leading_is_following_one_another, ranges_cover_time,
    ranges_stand_in_order,
};
pub use effect_laws::{
    in_force_is_put_by_what_is_in_effect, instants_follow_the_clock_before,
    state_is_what_is_in_effect, taking_effect_is_coming_and_being_in_effect,
    until_is_read_on_its_own_clock,
};
pub use expansion_laws::{line_without_rules_is_one_range, time_runs_from_midnight_to_midnight};
pub use field::{at_most_one_list, no_list_where_open, one_reading};
pub use leap_laws::{
    clocks_keep_their_ranges, only_inserted_seconds_are_left_out,
    shared_counts_go_to_the_last_time, tai_and_gps_keep_their_distance,
    utc_counts_are_system_time_and_what_elapsed, utc_counts_have_one_system_time,
    utc_counts_never_fall, utc_counts_rise_where_none_is_skipped,
};
pub use leap_text_laws::{
    at_most_one_leap_fault, at_most_one_leap_table, each_leap_text_is_read_or_refused,
    leap_texts_give_dates_in_time, read_leap_texts_are_not_refused,
};
pub use local_laws::{local_times_are_told, local_times_mean_what_they_say};
pub use occurrence_laws::{
    nominal_second_rises, occurrences_are_rules_in_their_years, occurrences_differ,
    occurrences_stand_in_order, precedes_is_an_order,
};
pub use range_laws::{
    cuts_are_where_occurrences_take_effect, expansion_is_ranges_of_lines,
    ranges_run_from_cut_to_cut,
};
pub use rules_followed_laws::most_rules_followed_is_the_greatest;
pub use state_laws::{state_holds_at_its_instant, state_is_last_come};
pub use text_laws::{at_most_one_database, at_most_one_fault, read_sources_are_not_refused};
pub use until_laws::{greater_untils_end_no_earlier, untils_lie_inside_time};
pub use zone_laws::sound_zones_tell_all_times;
