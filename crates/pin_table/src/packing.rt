//! How the words of a table are packed and read.
ghost use Rattle.std.specs.Prelude.{◌≡◌, ◌<◌, ◌^◌, ◌/◌, ◌%◌, Some};
ghost use Rattle.pin_core.specs.Packing.{packed_slot, packed_front, packed_turn};

use crate::position::Position;

/// The turn word where nobody has the turn.
pub(crate) const NOBODY: u64 = 0;

/// Packs a slot's word: the number that the slot keeps, and how many pins are there.
pub(crate) fn pack_slot(number: u32, count: u32) -> u64
    ensures { result ≡ packed_slot record { number = number; count = count } }
{
    ((number as u64) << 32) + count as u64
}

/// Packs the front word: how many writes there are, and the front's number and slot.
pub(crate) fn pack_front(w: u32, n: u32, slot: u32) -> u64
    requires n { n < 2 ^ 26 }
    requires slot { slot < 2 ^ 6 }
    ensures { result ≡ packed_front record { w = w; n = n; slot = slot } }
{
    ((w as u64) << 32) + ((n as u64) << 6) + slot as u64
}

/// Reads the front word.
pub(crate) fn unpack_front(word: u64) -> Position
    ensures w { result.w ≡ word / 2 ^ 32 }
    ensures n { result.n ≡ word / 2 ^ 6 % 2 ^ 26 }
    ensures slot { result.slot ≡ word % 2 ^ 6 }
{
    Position {
        w: (word >> 32) as u32,
        n: ((word >> 6) % (1 << 26)) as u32,
        slot: (word % (1 << 6)) as u32,
    }
}

/// Packs the turn word of the reader of this number.
pub(crate) fn pack_turn(number: u32) -> u64
    ensures { result ≡ packed_turn (Some number) }
{
    number as u64 + 1
}
