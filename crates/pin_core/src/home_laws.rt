//! What stays at home from step to step, in a table that keeps copies of versions in places and a book behind the turn.
//!
//! The tests `a` and `b` are what a table means by a place at home before a step and after it. Where a step moves no place, one
//! meaning stays. A step that takes places says nothing of these, and one that puts places back wants that these are then
//! as a place at home is.

ghost use Rattle.std.specs.Prelude.{◌≡◌, ◌≢◌, ℕ, ◌<◌, List, Bool, true};
ghost use mathlib.Core.Option.{some};
ghost use lib.ListN.{get_elem?};
ghost use Rattle.pin_book.specs.declared.write.Write.{Write};
ghost use Rattle.pin_book.specs.declared.write.Change.TheVariants as changes;
ghost use Rattle.pin_core.specs.declared.entry.Entry.{Entry};
ghost use Rattle.pin_core.specs.declared.view.View.{View};
ghost use Rattle.pin_core.specs.Core.{CoreState, number_at, total};
ghost use Rattle.pin_core.specs.Lawful.{Lawful, away, Passes, JournalPasses, PlacesAtHome, BookAtHome};
ghost use Rattle.pin_core.specs.Step.{HasReader, MayTake, MayClaim, MayStore, MaySplit, MayJoin, load_front, add_pin, take_pin, exchange_turn, claim_slot, miss_slot, store_front, give_turn, split, join};

/// A load, an exchange of the turn, a claim that misses, an erase, a turn given back, a split and a join move no place.
pub fn places_stay_at_home()
    ensures load { (a : ℕ → ℕ → ℕ → Bool) (s : CoreState) (id number : ℕ) (v : View) → HasReader s id number v
        → PlacesAtHome (Passes a) s → PlacesAtHome (Passes a) (load_front s id v) }
    ensures exchange { (a : ℕ → ℕ → ℕ → Bool) (s : CoreState) (id number : ℕ) (v : View) → HasReader s id number v
        → PlacesAtHome (Passes a) s → PlacesAtHome (Passes a) (exchange_turn s id number v) }
    ensures miss { (a : ℕ → ℕ → ℕ → Bool) (s : CoreState) (id number slot : ℕ) (v : View) → HasReader s id number v
        → PlacesAtHome (Passes a) s → PlacesAtHome (Passes a) (miss_slot s id v slot) }
    ensures erase { (a b : ℕ → ℕ → ℕ → Bool) (s : CoreState) (id number after gone : ℕ) (v : View) (write : Write)
        → HasReader s id number v → write.change ≡ changes.Erase after gone
        → ((slot reader n : ℕ) → Passes a slot reader n → Passes b slot reader n) → PlacesAtHome (Passes a) s → PlacesAtHome (Passes b) (store_front s id v write) }
    ensures give { (a : ℕ → ℕ → ℕ → Bool) (s : CoreState) (id number : ℕ) (v : View) → HasReader s id number v
        → PlacesAtHome (Passes a) s → PlacesAtHome (Passes a) (give_turn s id v) }
    ensures split { (a : ℕ → ℕ → ℕ → Bool) (s : CoreState) (id number writes : ℕ) (v : View) → Lawful s
        → get_elem? s.views id ≡ some v → MaySplit number writes v → PlacesAtHome (Passes a) s → PlacesAtHome (Passes a) (split s id v number writes) }
    ensures join { (a : ℕ → ℕ → ℕ → Bool) (s : CoreState) (id other : ℕ) (v w : View) → Lawful s → get_elem? s.views id ≡ some v
        → get_elem? s.views other ≡ some w → MayJoin v w → PlacesAtHome (Passes a) s → PlacesAtHome (Passes a) (join s id v other w) }
{}

/// A pin takes at most the reader's own place at its slot, and a claim the places of the slot that it claims.
pub fn other_places_stay_at_home()
    ensures pin { (a b : ℕ → ℕ → ℕ → Bool) (s : CoreState) (id number : ℕ) (v : View) → HasReader s id number v
        → ((slot reader n : ℕ) → total (away slot reader) (add_pin s id v).views ≡ 0 → Passes a slot reader n → Passes b slot reader n)
        → PlacesAtHome (Passes a) s → PlacesAtHome (Passes b) (add_pin s id v) }
    ensures claim { (a b : ℕ → ℕ → ℕ → Bool) (s : CoreState) (id number taken : ℕ) (v : View) → HasReader s id number v
        → MayClaim s taken v → ((slot reader n : ℕ) → slot ≢ taken → Passes a slot reader n → Passes b slot reader n)
        → PlacesAtHome (Passes a) s → PlacesAtHome (Passes b) (claim_slot s id v taken) }
{}

/// A pin that is taken off may put the reader's own place at its slot back, and a push puts back the places of its slot.
pub fn places_come_home()
    ensures take { (a b : ℕ → ℕ → ℕ → Bool) (s : CoreState) (id number place : ℕ) (v : View) (e : Entry)
        → HasReader s id number v → MayTake place e v
        → ((slot reader n : ℕ) → total (away slot reader) s.views ≡ 0 → Passes a slot reader n → Passes b slot reader n)
        → (total (away e.slot number) (take_pin s id v place e).views ≡ 0 → Passes b e.slot number (number_at s.words e.slot))
        → PlacesAtHome (Passes a) s → PlacesAtHome (Passes b) (take_pin s id v place e) }
    ensures push { (a b : ℕ → ℕ → ℕ → Bool) (s : CoreState) (id number n src into : ℕ) (v : View) (write : Write)
        → HasReader s id number v → MayStore s number write v → write.change ≡ changes.Push n src into
        → ((slot reader m : ℕ) → slot ≢ into → Passes a slot reader m → Passes b slot reader m)
        → ((reader : ℕ) → reader < s.readers → Passes b into reader (number_at s.words into))
        → PlacesAtHome (Passes a) s → PlacesAtHome (Passes b) (store_front s id v write) }
{}

/// The book is at home before and after each step of a reader without the turn, is nowhere while one has it, and comes home
/// with the journal that its holder has seen.
pub fn the_book_comes_home()
    ensures load { (a : List Write → Bool) (s : CoreState) (id : ℕ) (v : View) → BookAtHome (JournalPasses a) s → BookAtHome (JournalPasses a) (load_front s id v) }
    ensures pin { (a : List Write → Bool) (s : CoreState) (id : ℕ) (v : View) → BookAtHome (JournalPasses a) s → BookAtHome (JournalPasses a) (add_pin s id v) }
    ensures take { (a : List Write → Bool) (s : CoreState) (id place : ℕ) (v : View) (e : Entry)
        → BookAtHome (JournalPasses a) s → BookAtHome (JournalPasses a) (take_pin s id v place e) }
    ensures exchange { (b : List Write → Bool) (s : CoreState) (id number : ℕ) (v : View) → BookAtHome (JournalPasses b) (exchange_turn s id number v) }
    ensures claim { (a : List Write → Bool) (s : CoreState) (id slot : ℕ) (v : View)
        → BookAtHome (JournalPasses a) s → BookAtHome (JournalPasses a) (claim_slot s id v slot) × BookAtHome (JournalPasses a) (miss_slot s id v slot) }
    ensures store { (b : List Write → Bool) (s : CoreState) (id number : ℕ) (v : View) (write : Write) → Lawful s
        → HasReader s id number v → MayStore s number write v → BookAtHome (JournalPasses b) (store_front s id v write) }
    ensures give { (b : List Write → Bool) (s : CoreState) (id number : ℕ) (v : View) → Lawful s → HasReader s id number v
        → v.turn ≡ true → JournalPasses b v.seen → BookAtHome (JournalPasses b) (give_turn s id v) }
    ensures split { (a : List Write → Bool) (s : CoreState) (id number writes : ℕ) (v : View)
        → BookAtHome (JournalPasses a) s → BookAtHome (JournalPasses a) (split s id v number writes) }
    ensures join { (a : List Write → Bool) (s : CoreState) (id other : ℕ) (v w : View)
        → BookAtHome (JournalPasses a) s → BookAtHome (JournalPasses a) (join s id v other w) }
{}
