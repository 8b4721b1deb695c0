//! What holds in every state that steps reach from the opening, over every interleaving.

ghost use Rattle.std.specs.Prelude.{◌≡◌, ◌<◌, ℕ};
ghost use mathlib.Core.Option.{some};
ghost use lib.ListN.{get_elem?};
ghost use Rattle.pin_core.specs.declared.entry.Entry.{Entry};
ghost use Rattle.pin_core.specs.declared.view.View.{View};
ghost use Rattle.pin_book.specs.Replay.{front_number, front_slot};
ghost use Rattle.pin_core.specs.Core.{CoreState, number_at};
ghost use Rattle.pin_core.specs.Lawful.{Lawful};
ghost use Rattle.pin_core.specs.Step.{HasReader, HasHandle, MayClaim, claim, miss_slot, opening_state, opening_with_readers};
ghost use Rattle.pin_core.specs.Run.{Reaches, KeepsStraysApart};

/// The opening state of a list that has a slot is lawful.
pub fn the_opening_is_lawful()
    ensures { (slots readers room : ℕ) → 0 < slots → Lawful (opening_state slots readers room) }
{}

/// The opening state with all readers out is lawful too.
pub fn the_opening_with_all_readers_is_lawful()
    ensures { (slots readers writes : ℕ) → 0 < slots → Lawful (opening_with_readers slots readers writes) }
{}

/// Every state that is reached from the opening is lawful.
pub fn reached_states_are_lawful()
    ensures { (slots readers room : ℕ) (s : CoreState) → 0 < slots → Reaches (opening_state slots readers room) s → Lawful s }
{}

/// Every state that is reached from a lawful one is lawful.
pub fn lawful_states_stay_lawful()
    ensures { (s t : CoreState) → Lawful s → Reaches s t → Lawful t }
{}

/// No slot is claimed while a reader has a handle there: whoever claims it finds it pinned.
pub fn no_slot_is_claimed_under_a_handle()
    ensures { (slots readers room : ℕ) (s : CoreState) (id number other claimer : ℕ) (v u : View) (e : Entry) → 0 < slots
        → Reaches (opening_state slots readers room) s → HasHandle s id number v e
        → HasReader s other claimer u → MayClaim s e.slot u → claim s other u e.slot ≡ miss_slot s other u e.slot }
{}

/// No reader has a stray at a slot where it has a handle: a pin that it adds there finds the number that it has seen.
pub fn no_stray_stands_beside_a_handle()
    ensures reached { (slots readers room : ℕ) (s : CoreState) (id : ℕ) (v : View) → 0 < slots
        → Reaches (opening_state slots readers room) s → get_elem? s.views id ≡ some v → KeepsStraysApart v }
    ensures shown { (s : CoreState) (id number : ℕ) (v : View) (e : Entry) → Lawful s → HasHandle s id number v e
        → e.slot ≡ front_slot s.slots v.seen
        → number_at s.words (front_slot s.slots v.seen) ≡ front_number s.slots v.seen }
{}
