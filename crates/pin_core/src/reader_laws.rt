//! What a lawful state promises each reader, in the reader's own words.

ghost use Rattle.std.specs.Prelude.{◌≡◌, ◌≢◌, ℕ, ◌+◌, ◌<◌, ◌≤◌, Some, None, length, take, slice_get, true, false, Contains};
ghost use mathlib.Core.Option.{some};
ghost use lib.ListN.{get_elem?};
ghost use Rattle.pin_core.specs.declared.entry.Entry.{Entry};
ghost use Rattle.pin_core.specs.declared.view.View.{View};
ghost use Rattle.pin_core.specs.declared.view.Role.TheVariants as roles;
ghost use Rattle.pin_book.specs.declared.write.Write.{Write};
ghost use Rattle.pin_book.specs.Sequence.{writes_by};
ghost use Rattle.pin_book.specs.Replay.{front_number, front_slot, kept_number};
ghost use Rattle.pin_core.specs.Core.{CoreState, number_at, count_at, total, allowance_of, with_view};
ghost use Rattle.pin_core.specs.Lawful.{Lawful, WasFrontOnce, entry_number};
ghost use Rattle.pin_core.specs.Step.{HasReader, HasEntry, HasHandle, IsOut, MayTakeTurn, MayClaim, MaySplit, MayJoin, exchange_turn, split, join};
ghost use Rattle.pin_core.specs.Run.{Moves};

/// While a reader holds a handle, its slot keeps its number after each position from the handle's to the last, and so
/// after each that the reader is told. The number is the front's at the handle's position, and the slot's word shows it.
pub fn a_handle_keeps_its_slot()
    ensures shown { (s : CoreState) (id number : ℕ) (v : View) (e : Entry) → Lawful s → HasHandle s id number v e
        → number_at s.words e.slot ≡ front_number s.slots (take e.position v.seen) }
    ensures told { (s : CoreState) (id number : ℕ) (v : View) (e : Entry) (w : ℕ) → Lawful s → HasHandle s id number v e
        → e.position ≤ w → w ≤ length v.seen
        → kept_number s.slots (take w v.seen) e.slot ≡ front_number s.slots (take e.position v.seen) }
    ensures always { (s : CoreState) (id number : ℕ) (v : View) (e : Entry) (w : ℕ) → Lawful s → HasHandle s id number v e
        → e.position ≤ w → w ≤ length s.journal
        → kept_number s.slots (take w s.journal) e.slot ≡ entry_number s.slots s.journal e }
{}

/// While a reader has a pin at a slot, the slot's word counts it, so that no claim gets the slot; and while it holds a
/// handle there, nobody has claimed the slot.
pub fn a_held_slot_is_not_claimed()
    ensures pinned { (s : CoreState) (id number : ℕ) (v : View) (e : Entry) → Lawful s → HasEntry s id number v e
        → 0 < count_at s.words e.slot }
    ensures unclaimed { (s : CoreState) (id number : ℕ) (v : View) (e : Entry) (other : ℕ) (u : View) → Lawful s → HasHandle s id number v e
        → get_elem? s.views other ≡ some u → u.claimed ≢ Some e.slot }
{}

/// Who may claim a slot finds in its word the number that the slot keeps.
pub fn a_claim_meets_the_kept_number()
    ensures { (s : CoreState) (id number slot : ℕ) (v : View) → Lawful s → HasReader s id number v → MayClaim s slot v
        → number_at s.words slot ≡ kept_number s.slots s.journal slot }
{}

/// One seat at most has the turn, and the turn word names its reader; where the word names nobody, no seat has it.
pub fn the_turn_has_one_holder()
    ensures one { (s : CoreState) (id other : ℕ) (v u : View) → Lawful s
        → get_elem? s.views id ≡ some v → get_elem? s.views other ≡ some u → v.turn ≡ true → u.turn ≡ true → id ≡ other }
    ensures named { (s : CoreState) (id number : ℕ) (v : View) → Lawful s → HasReader s id number v → v.turn ≡ true
        → s.turn ≡ Some number }
    ensures nobody { (s : CoreState) (id : ℕ) (v : View) → Lawful s → get_elem? s.views id ≡ some v → s.turn ≡ None → v.turn ≡ false }
{}

/// A try for the turn that finds it taken tells another reader that is out, and the seat then knows which. With one
/// reader there is no such try.
pub fn a_refused_turn_names_another_reader()
    ensures other { (s : CoreState) (id number holder : ℕ) (v : View) → Lawful s → HasReader s id number v → MayTakeTurn v
        → s.turn ≡ Some holder → (holder ≢ number) × (holder < s.readers) × IsOut s holder }
    ensures told { (s : CoreState) (id number holder : ℕ) (v : View) → s.turn ≡ Some holder
        → exchange_turn s id number v ≡ with_view s id (record v { refused = v.refused + 1; holder = Some holder }) }
    ensures alone { (s : CoreState) (id number : ℕ) (v : View) → Lawful s → HasReader s id number v → MayTakeTurn v
        → s.readers ≡ 1 → s.turn ≡ None }
{}

/// Each slot that a reader's claims found pinned was the front's after some number of writes that the reader has seen,
/// from its floor on.
pub fn a_slot_found_pinned_was_the_front_s()
    ensures { (s : CoreState) (id : ℕ) (v : View) (slot : ℕ) → Lawful s → get_elem? s.views id ≡ some v → v.role ≢ roles.Spent
        → Contains v.pinned slot → WasFrontOnce s.slots v.seen v.floor (length v.seen) slot }
{}

/// A main that has all numbers, since no reader is out, has seen the whole journal, and has all of its writes as its own.
pub fn a_main_with_all_numbers_has_all_writes()
    ensures own { (s : CoreState) (id : ℕ) (v : View) (number : ℕ) → Lawful s → get_elem? s.views id ≡ some v → v.role ≡ roles.Main
        → length v.numbers ≡ s.readers → number < s.readers → writes_by number v.own ≡ writes_by number s.journal }
    ensures seen { (s : CoreState) (id : ℕ) (v : View) → Lawful s → get_elem? s.views id ≡ some v → v.role ≡ roles.Main
        → length v.numbers ≡ s.readers → v.seen ≡ s.journal }
{}

/// A split and a join move allowances from seat to seat, and make none.
pub fn splits_and_joins_keep_allowances()
    ensures split { (s : CoreState) (id number writes : ℕ) (v : View) → get_elem? s.views id ≡ some v → MaySplit number writes v
        → total allowance_of (split s id v number writes).views ≡ total allowance_of s.views }
    ensures join { (s : CoreState) (id other : ℕ) (v w : View) → get_elem? s.views id ≡ some v → get_elem? s.views other ≡ some w
        → MayJoin v w → total allowance_of (join s id v other w).views ≡ total allowance_of s.views }
{}

/// What each seat has seen is the front part of one journal, so of two seen journals the shorter is the front part of
/// the longer.
pub fn seen_journals_are_parts_of_one()
    ensures journal { (s : CoreState) (id : ℕ) (v : View) → Lawful s → get_elem? s.views id ≡ some v → v.role ≢ roles.Spent
        → (length v.seen ≤ length s.journal) × (take (length v.seen) s.journal ≡ v.seen) }
    ensures one { (s : CoreState) (id other : ℕ) (v u : View) → Lawful s
        → get_elem? s.views id ≡ some v → get_elem? s.views other ≡ some u → v.role ≢ roles.Spent → u.role ≢ roles.Spent
        → length v.seen ≤ length u.seen → take (length v.seen) u.seen ≡ v.seen }
{}

/// No step takes a write back, and none makes a seat forget what it has seen: the journal goes on, and so does what each
/// seat has seen of it.
pub fn nothing_seen_is_forgotten()
    ensures journal { (s t : CoreState) → Lawful s → Moves s t → take (length s.journal) t.journal ≡ s.journal }
    ensures seen { (s t : CoreState) (id : ℕ) (v u : View) → Lawful s → Moves s t
        → get_elem? s.views id ≡ some v → get_elem? t.views id ≡ some u → u.role ≢ roles.Spent
        → take (length v.seen) u.seen ≡ v.seen }
{}

/// Each write stands once in the journal: no two have one number and one count. A reader's own writes are those of the
/// journal by its number, and it has seen them all.
pub fn each_write_stands_once()
    ensures once { (s : CoreState) (place other : ℕ) (write same : Write) → Lawful s
        → slice_get s.journal place ≡ Some write → slice_get s.journal other ≡ Some same
        → write.by ≡ same.by → write.seq ≡ same.seq → place ≡ other }
    ensures own { (s : CoreState) (id number : ℕ) (v : View) → Lawful s → HasReader s id number v
        → (writes_by number s.journal ≡ v.own) × (writes_by number v.seen ≡ v.own) }
{}

/// A slot's word that shows another number than the front's at the front's slot tells that there are more writes than
/// the reader has seen.
pub fn a_stray_tells_of_more_writes()
    ensures { (s : CoreState) (id number : ℕ) (v : View) → Lawful s → HasReader s id number v
        → number_at s.words (front_slot s.slots v.seen) ≢ front_number s.slots v.seen → length v.seen < length s.journal }
{}

/// While a seat may still make writes, the journal has room for them.
pub fn allowances_have_room()
    ensures { (s : CoreState) (id : ℕ) (v : View) → Lawful s → get_elem? s.views id ≡ some v
        → length s.journal + v.allowance ≤ s.room }
{}

/// While a reader is out, a split leaves the floor where it was; where none is, the floor becomes what the main has seen.
pub fn the_floor_moves_under_no_reader()
    ensures stays { (s : CoreState) (id number writes other : ℕ) (v u : View) → Lawful s → get_elem? s.views id ≡ some v
        → MaySplit number writes v → get_elem? s.views other ≡ some u → u.role ≡ roles.Reader
        → (split s id v number writes).floor ≡ s.floor }
    ensures moves { (s : CoreState) (id number writes : ℕ) (v : View) → Lawful s → get_elem? s.views id ≡ some v
        → MaySplit number writes v
        → ((other : ℕ) (u : View) → get_elem? s.views other ≡ some u → u.role ≢ roles.Reader)
        → (split s id v number writes).floor ≡ length v.seen }
{}
