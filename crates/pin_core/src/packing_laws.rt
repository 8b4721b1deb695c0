//! The words of a lawful state fit 64 bits, and can be read back.

ghost use Rattle.std.specs.Prelude.{◌≡◌, ℕ, ◌+◌, ◌*◌, ◌/◌, ◌%◌, ◌^◌, ◌<◌, ◌≤◌, ◌↔◌, Option, None};
ghost use Rattle.pin_book.specs.declared.limits.TheConstants.{READER_NUMBERS};
ghost use Rattle.pin_book.specs.Replay.{front_number};
ghost use Rattle.pin_core.specs.Core.{CoreState, number_at, count_at};
ghost use Rattle.pin_core.specs.Lawful.{Lawful};
ghost use Rattle.pin_core.specs.Packing.{packed_slot, packed_front, packed_turn, place, book_place};

/// What words show is small: a slot's number is at most two more than there are writes, and its count is at most eight for
/// each reader.
pub fn words_show_small_numbers()
    ensures number { (s : CoreState) (slot : ℕ) → Lawful s → slot < s.slots
        → number_at s.words slot ≤ s.room + 2 }
    ensures count { (s : CoreState) (slot : ℕ) → Lawful s → slot < s.slots
        → count_at s.words slot ≤ 8 * s.readers }
    ensures front { (s : CoreState) → Lawful s
        → (s.front.w ≤ s.room)
        × (s.front.n ≤ s.room + 1)
        × (s.front.slot < s.slots) }
    ensures turn { (s : CoreState) → Lawful s → packed_turn s.turn ≤ s.readers }
{}

/// A slot's word and the front word fit 64 bits, and each part of them can be read back.
pub fn packed_words_are_read_back()
    ensures slot { (number count : ℕ) → number < 2 ^ 26 → count < 2 ^ 32
        → (packed_slot record { number = number; count = count } < 2 ^ 64)
        × (packed_slot record { number = number; count = count } / 2 ^ 32 ≡ number)
        × (packed_slot record { number = number; count = count } % 2 ^ 32 ≡ count) }
    ensures front { (w n slot : ℕ) → w < 2 ^ 26 → n < 2 ^ 26 → slot < 2 ^ 6
        → (packed_front record { w = w; n = n; slot = slot } < 2 ^ 64)
        × (packed_front record { w = w; n = n; slot = slot } / 2 ^ 32 ≡ w)
        × (packed_front record { w = w; n = n; slot = slot } / 2 ^ 6 % 2 ^ 26 ≡ n)
        × (packed_front record { w = w; n = n; slot = slot } % 2 ^ 6 ≡ slot) }
    ensures turn { (turn other : Option ℕ) → packed_turn turn ≡ packed_turn other → turn ≡ other }
    ensures nobody { (turn : Option ℕ) → (packed_turn turn ≡ 0) ↔ (turn ≡ None) }
{}

/// The places of different readers and slots are different, and none is the book's.
pub fn places_stand_apart()
    ensures apart { (slot other reader another : ℕ) → reader < READER_NUMBERS → another < READER_NUMBERS → place slot reader ≡ place other another
        → (slot ≡ other)
        × (reader ≡ another) }
    ensures book { (slots slot reader : ℕ) → slot < slots → reader < READER_NUMBERS
        → place slot reader < book_place slots }
{}
