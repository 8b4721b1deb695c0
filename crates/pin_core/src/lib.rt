//! The list of versions that threads share, as arithmetic on plain values: no thread is here, and nothing is atomic.
//!
//! `specs/Core` is a state of the list, `specs/Step` each step, and `specs/Lawful` what holds in each state. `step_laws`
//! says that each step keeps states lawful, and `reader_laws` to `packing_laws` what follows. Who runs these steps, a
//! table of atomic words or a schedule on one thread, cites them and says nothing of them again. The crate stands on
//! `pin_book` for writes, journals and their replay.
//!
//! ```rust
//! // the word of slot 1, which shows version 2 and counts one pin
//! let word = SlotWord { number: 2, count: 1 };
//! assert_eq!(rt; (word.number, word.count), (2, 1));
//! ```
#![tactic(auto)]

mod entry;
mod home_laws;
mod packing_laws;
mod place_laws;
mod reader_laws;
mod run_laws;
mod step_laws;
mod view;

pub use entry::{Entry, SlotWord};
pub use home_laws::{
    other_places_stay_at_home, places_come_home, places_stay_at_home, the_book_comes_home,
};
pub use packing_laws::{packed_words_are_read_back, places_stand_apart, words_show_small_numbers};
pub use place_laws::{
    a_claimed_slot_has_all_its_places, a_first_handle_finds_its_place_at_home,
    a_place_is_away_for_a_handle_or_a_claim, other_places_stay,
};
pub use reader_laws::{
    a_claim_meets_the_kept_number, a_handle_keeps_its_slot, a_held_slot_is_not_claimed,
    a_main_with_all_numbers_has_all_writes, a_refused_turn_names_another_reader,
    a_slot_found_pinned_was_the_front_s, a_stray_tells_of_more_writes, allowances_have_room,
    each_write_stands_once, nothing_seen_is_forgotten, seen_journals_are_parts_of_one,
    splits_and_joins_keep_allowances, the_floor_moves_under_no_reader, the_turn_has_one_holder,
};
pub use run_laws::{
    lawful_states_stay_lawful, no_slot_is_claimed_under_a_handle, no_stray_stands_beside_a_handle,
    reached_states_are_lawful, the_opening_is_lawful, the_opening_with_all_readers_is_lawful,
};
pub use step_laws::{
    a_claim_keeps_states_lawful, a_join_keeps_states_lawful, a_load_keeps_states_lawful,
    a_pin_keeps_states_lawful, a_pin_taken_off_keeps_states_lawful, a_split_keeps_states_lawful,
    a_store_keeps_states_lawful, a_turn_given_back_keeps_states_lawful,
    an_exchange_of_the_turn_keeps_states_lawful,
};
pub use view::{Role, View};
