//! Each step that is allowed keeps states lawful.

ghost use Rattle.std.specs.Prelude.{◌≡◌, ℕ};
ghost use mathlib.Core.Option.{some};
ghost use lib.ListN.{get_elem?};
ghost use Rattle.pin_core.specs.declared.entry.Entry.{Entry};
ghost use Rattle.pin_core.specs.declared.view.View.{View};
ghost use Rattle.pin_book.specs.declared.write.Write.{Write};
ghost use Rattle.pin_core.specs.Core.{CoreState};
ghost use Rattle.pin_core.specs.Lawful.{Lawful};
ghost use Rattle.pin_core.specs.Step.{HasReader, MayPin, MayTake, MayTakeTurn, MayClaim, MayStore, MayGive, MaySplit, MayJoin, load_front, add_pin, take_pin, exchange_turn, claim, store_front, give_turn, split, join};

/// A load of the front word keeps states lawful.
pub fn a_load_keeps_states_lawful()
    ensures { (s : CoreState) (id number : ℕ) (v : View) → Lawful s → HasReader s id number v
        → Lawful (load_front s id v) }
{}

/// A pin that may be added keeps states lawful.
pub fn a_pin_keeps_states_lawful()
    ensures { (s : CoreState) (id number : ℕ) (v : View) → Lawful s → HasReader s id number v → MayPin v
        → Lawful (add_pin s id v) }
{}

/// A pin that is taken off keeps states lawful.
pub fn a_pin_taken_off_keeps_states_lawful()
    ensures { (s : CoreState) (id number : ℕ) (v : View) (place : ℕ) (e : Entry) → Lawful s → HasReader s id number v → MayTake place e v
        → Lawful (take_pin s id v place e) }
{}

/// An exchange of the turn word, whether it gets the turn or not, keeps states lawful.
pub fn an_exchange_of_the_turn_keeps_states_lawful()
    ensures { (s : CoreState) (id number : ℕ) (v : View) → Lawful s → HasReader s id number v → MayTakeTurn v
        → Lawful (exchange_turn s id number v) }
{}

/// A claim, whether it gets the slot or finds it pinned, keeps states lawful.
pub fn a_claim_keeps_states_lawful()
    ensures { (s : CoreState) (id number : ℕ) (v : View) (slot : ℕ) → Lawful s → HasReader s id number v → MayClaim s slot v
        → Lawful (claim s id v slot) }
{}

/// A store of the front word keeps states lawful.
pub fn a_store_keeps_states_lawful()
    ensures { (s : CoreState) (id number : ℕ) (v : View) (write : Write) → Lawful s → HasReader s id number v → MayStore s number write v
        → Lawful (store_front s id v write) }
{}

/// A turn that may be given back keeps states lawful.
pub fn a_turn_given_back_keeps_states_lawful()
    ensures { (s : CoreState) (id number : ℕ) (v : View) → Lawful s → HasReader s id number v → MayGive v
        → Lawful (give_turn s id v) }
{}

/// A split keeps states lawful.
pub fn a_split_keeps_states_lawful()
    ensures { (s : CoreState) (id : ℕ) (v : View) (number writes : ℕ) → Lawful s → get_elem? s.views id ≡ some v → MaySplit number writes v
        → Lawful (split s id v number writes) }
{}

/// A join keeps states lawful.
pub fn a_join_keeps_states_lawful()
    ensures { (s : CoreState) (id : ℕ) (v : View) (other : ℕ) (w : View) → Lawful s → get_elem? s.views id ≡ some v → get_elem? s.views other ≡ some w → MayJoin v w
        → Lawful (join s id v other w) }
{}
