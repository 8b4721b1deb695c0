//! Which places are away from home, for a table that keeps copies of each slot's version in places of its readers.

ghost use Rattle.std.specs.Prelude.{◌≡◌, ◌≢◌, ℕ, ◌↔◌, Some, None, true, false};
ghost use mathlib.Core.Option.{some};
ghost use lib.ListN.{get_elem?};
ghost use Rattle.pin_core.specs.declared.entry.Entry.{Entry};
ghost use Rattle.pin_core.specs.declared.view.View.{View};
ghost use Rattle.pin_book.specs.declared.write.Write.{Write};
ghost use Rattle.pin_book.specs.declared.write.Change.TheVariants as changes;
ghost use Rattle.pin_book.specs.Replay.{front_number, front_slot};
ghost use Rattle.pin_core.specs.Core.{CoreState, number_at, count_at, total, held_at};
ghost use Rattle.pin_core.specs.Lawful.{Lawful, away};
ghost use Rattle.pin_core.specs.Step.{HasReader, MayPin, MayTake, MayClaim, MayStore, MayGive, MaySplit, MayJoin, load_front, add_pin, take_pin, exchange_turn, claim_slot, miss_slot, store_front, give_turn, split, join};

/// A reader's place is away exactly while the reader has a handle at its slot, or the slot is claimed.
pub fn a_place_is_away_for_a_handle_or_a_claim()
    ensures { (s : CoreState) (id number slot : ℕ) (v : View) → Lawful s → HasReader s id number v
        → (total (away slot number) s.views ≡ 0)
        ↔ ((held_at slot v ≡ 0)
        × ((other : ℕ) (u : View) → get_elem? s.views other ≡ some u → u.claimed ≢ Some slot)) }
{}

/// A reader whose pin becomes its first handle at a slot finds its place there at home.
pub fn a_first_handle_finds_its_place_at_home()
    ensures { (s : CoreState) (id number : ℕ) (v : View) → Lawful s → HasReader s id number v
        → held_at (front_slot s.slots v.seen) v ≡ 0 → number_at s.words (front_slot s.slots v.seen) ≡ front_number s.slots v.seen
        → total (away (front_slot s.slots v.seen) number) s.views ≡ 0 }
{}

/// Who claims a slot that no pin is at finds all of its places at home, and who pushes into it leaves them so.
pub fn a_claimed_slot_has_all_its_places()
    ensures claimed { (s : CoreState) (id number slot reader : ℕ) (v : View) → Lawful s
        → HasReader s id number v → MayClaim s slot v → count_at s.words slot ≡ 0
        → total (away slot reader) s.views ≡ 0 }
    ensures pushed { (s : CoreState) (id number n src slot reader : ℕ) (v : View) (write : Write)
        → Lawful s → HasReader s id number v → MayStore s number write v → write.change ≡ changes.Push n src slot
        → total (away slot reader) (store_front s id v write).views ≡ 0 }
{}

/// Each step leaves all places that it isn't about as far away as they were.
pub fn other_places_stay()
    ensures load { (s : CoreState) (id number slot reader : ℕ) (v : View) → HasReader s id number v
        → total (away slot reader) (load_front s id v).views ≡ total (away slot reader) s.views }
    ensures pin { (s : CoreState) (id number slot reader : ℕ) (v : View) → HasReader s id number v
        → (slot ≡ front_slot s.slots v.seen → reader ≢ number)
        → total (away slot reader) (add_pin s id v).views ≡ total (away slot reader) s.views }
    ensures take { (s : CoreState) (id number slot reader place : ℕ) (v : View) (e : Entry)
        → HasReader s id number v → MayTake place e v → (slot ≡ e.slot → reader ≢ number)
        → total (away slot reader) (take_pin s id v place e).views ≡ total (away slot reader) s.views }
    ensures exchange { (s : CoreState) (id number slot reader : ℕ) (v : View) → HasReader s id number v
        → total (away slot reader) (exchange_turn s id number v).views ≡ total (away slot reader) s.views }
    ensures claim { (s : CoreState) (id number slot reader taken : ℕ) (v : View)
        → HasReader s id number v → MayClaim s taken v → slot ≢ taken
        → total (away slot reader) (claim_slot s id v taken).views ≡ total (away slot reader) s.views }
    ensures miss { (s : CoreState) (id number slot reader taken : ℕ) (v : View) → HasReader s id number v
        → total (away slot reader) (miss_slot s id v taken).views ≡ total (away slot reader) s.views }
    ensures push { (s : CoreState) (id number slot reader n src into : ℕ) (v : View) (write : Write)
        → HasReader s id number v → MayStore s number write v → write.change ≡ changes.Push n src into → slot ≢ into
        → total (away slot reader) (store_front s id v write).views ≡ total (away slot reader) s.views }
    ensures erase { (s : CoreState) (id number slot reader after gone : ℕ) (v : View) (write : Write)
        → HasReader s id number v → write.change ≡ changes.Erase after gone
        → total (away slot reader) (store_front s id v write).views ≡ total (away slot reader) s.views }
    ensures give { (s : CoreState) (id number slot reader : ℕ) (v : View) → HasReader s id number v
        → total (away slot reader) (give_turn s id v).views ≡ total (away slot reader) s.views }
    ensures split { (s : CoreState) (id number writes slot reader : ℕ) (v : View)
        → Lawful s → get_elem? s.views id ≡ some v → MaySplit number writes v
        → total (away slot reader) (split s id v number writes).views ≡ total (away slot reader) s.views }
    ensures join { (s : CoreState) (id other slot reader : ℕ) (v w : View) → Lawful s
        → get_elem? s.views id ≡ some v → get_elem? s.views other ≡ some w → MayJoin v w
        → total (away slot reader) (join s id v other w).views ≡ total (away slot reader) s.views }
{}
