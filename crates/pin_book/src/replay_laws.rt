//! Laws of journals that replay. Each is the contract of a public function with an empty body.
ghost use Rattle.std.specs.Prelude.{◌≡◌, ◌≢◌, ℕ, ◌+◌, ◌<◌, ◌≤◌, ◌↔◌, ◌⊎◌, List, [], ◌∷◌, ◌++◌, length, Some, false, slice_get, slice_index, IsTrue, Contains};
ghost use Rattle.pin_book.specs.declared.write.Write.{Write};
ghost use Rattle.pin_book.specs.declared.write.Change.TheVariants as changes;
ghost use Rattle.pin_book.specs.Replay.{Edition, front_of, is_listed, is_slot_listed, greatest_below, allowed, after_write, state_after, replays};
ghost use Rattle.pin_book.specs.Pushes.{pushes, is_erased};
ghost use Rattle.pin_book.specs.Sources.{source_of};

/// The versions that are pushed have the numbers 2, 3, 4 and so on in the order of their pushes: the first version is 1.
/// The front is the one pushed last.
pub fn pushes_are_numbered_in_order()
    ensures numbers { (slots place : ℕ) (journal : List Write) (edition : Edition) → 0 < slots → IsTrue (replays slots journal) → slice_get (pushes journal) place ≡ Some edition → edition.n ≡ place + 2 }
    ensures front { (slots : ℕ) (journal : List Write) → 0 < slots → IsTrue (replays slots journal) → (front_of (state_after slots journal).listed).n ≡ length (pushes journal) + 1 }
{}

/// Something is always listed, and numbers fall from the newest to the oldest.
pub fn listed_numbers_fall()
    ensures some { (slots : ℕ) (journal : List Write) → 0 < slots → IsTrue (replays slots journal) → 0 < length (state_after slots journal).listed }
    ensures fall { (slots newer older : ℕ) (journal : List Write) (edition other : Edition) → 0 < slots → IsTrue (replays slots journal) → newer < older → slice_get (state_after slots journal).listed newer ≡ Some edition → slice_get (state_after slots journal).listed older ≡ Some other → other.n < edition.n }
{}

/// What is listed is exactly what was pushed, or is the first version, and was never erased.
pub fn listed_is_pushed_and_not_erased()
    ensures { (slots : ℕ) (journal : List Write) (edition : Edition) → 0 < slots → IsTrue (replays slots journal) → Contains (state_after slots journal).listed edition ↔ (((edition ≡ record { n = 1; src = 0; slot = 0 }) ⊎ Contains (pushes journal) edition) × (is_erased edition.n journal ≡ false)) }
{}

/// No write erases the front: where an erase is allowed, what goes lies below the one that it goes after, which isn't
/// above the front.
pub fn front_is_never_erased()
    ensures { (slots after gone : ℕ) (journal : List Write) → 0 < slots → IsTrue (replays slots journal) → IsTrue (allowed (state_after slots journal) (changes.Erase after gone)) → (gone < after) × (after ≤ (front_of (state_after slots journal).listed).n) }
{}

/// What goes was listed, and nothing is listed between it and the one that it goes after.
pub fn erase_takes_the_next()
    ensures listed { (slots after gone : ℕ) (journal : List Write) → 0 < slots → IsTrue (replays slots journal) → IsTrue (allowed (state_after slots journal) (changes.Erase after gone)) → IsTrue (is_listed gone (state_after slots journal).listed) }
    ensures between { (slots after gone : ℕ) (journal : List Write) (edition : Edition) → 0 < slots → IsTrue (replays slots journal) → IsTrue (allowed (state_after slots journal) (changes.Erase after gone)) → Contains (state_after slots journal).listed edition → edition.n < after → edition.n ≤ gone }
{}

/// A slot keeps the number that was pushed into it last. Where none was, the first slot keeps 1, and the others nothing.
pub fn slots_keep_what_was_pushed_last()
    ensures last { (slots n src slot : ℕ) (before later : List Write) (write : Write) → 0 < slots → IsTrue (replays slots (before ++ write ∷ later)) → write.change ≡ changes.Push n src slot → is_slot_listed slot (pushes later) ≡ false → slice_index (state_after slots (before ++ write ∷ later)).kept slot ≡ n }
    ensures first { (slots : ℕ) (journal : List Write) → 0 < slots → IsTrue (replays slots journal) → is_slot_listed 0 (pushes journal) ≡ false → slice_index (state_after slots journal).kept 0 ≡ 1 }
    ensures nothing { (slots slot : ℕ) (journal : List Write) → 0 < slots → IsTrue (replays slots journal) → (slice_index (state_after slots journal).kept slot ≡ 0) ↔ ((slot ≢ 0) × (is_slot_listed slot (pushes journal) ≡ false)) }
{}

/// What is listed is kept by its slot, which is one of the list's. So a slot is listed exactly where the number that it
/// keeps is, and no more are listed than there are slots.
pub fn listed_is_kept()
    ensures kept { (slots : ℕ) (journal : List Write) (edition : Edition) → 0 < slots → IsTrue (replays slots journal) → Contains (state_after slots journal).listed edition → (edition.slot < slots) × (slice_index (state_after slots journal).kept edition.slot ≡ edition.n) }
    ensures by_number { (slots slot : ℕ) (journal : List Write) → 0 < slots → IsTrue (replays slots journal) → slot < slots → IsTrue (is_slot_listed slot (state_after slots journal).listed) ↔ IsTrue (is_listed (slice_index (state_after slots journal).kept slot) (state_after slots journal).listed) }
    ensures few { (slots : ℕ) (journal : List Write) → 0 < slots → IsTrue (replays slots journal) → length (state_after slots journal).listed ≤ slots }
{}

/// The journal tells the source of each version by its number: what is listed has it, a push gives it to the version that
/// it lists, and no later write changes it.
pub fn the_journal_tells_each_source()
    ensures listed { (slots : ℕ) (journal : List Write) (edition : Edition) → 0 < slots → IsTrue (replays slots journal) → Contains (state_after slots journal).listed edition → edition.src ≡ source_of journal edition.n }
    ensures pushed { (slots n src slot : ℕ) (journal : List Write) (write : Write) → 0 < slots → IsTrue (replays slots (journal ++ write ∷ [])) → write.change ≡ changes.Push n src slot → source_of (journal ++ write ∷ []) n ≡ src }
    ensures stays { (journal later : List Write) (number : ℕ) → 1 ≤ number → number ≤ length (pushes journal) + 1 → source_of (journal ++ later) number ≡ source_of journal number }
{}

/// Where a journal replays, so does each front of it: each position has a state, and the next write is allowed there.
pub fn each_position_replays()
    ensures front { (slots : ℕ) (before later : List Write) → IsTrue (replays slots (before ++ later)) → IsTrue (replays slots before) }
    ensures next { (slots : ℕ) (before later : List Write) (write : Write) → IsTrue (replays slots (before ++ write ∷ later)) → IsTrue (allowed (state_after slots before) write.change) }
    ensures one_more { (slots : ℕ) (journal : List Write) (write : Write) → IsTrue (replays slots journal) → IsTrue (allowed (state_after slots journal) write.change) → IsTrue (replays slots (journal ++ write ∷ [])) × (state_after slots (journal ++ write ∷ []) ≡ after_write (state_after slots journal) write) }
{}
