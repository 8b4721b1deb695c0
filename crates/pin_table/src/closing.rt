//! What is taken out of a table's base once it is closed.
ghost use Rattle.std.specs.Prelude.{◌≡◌, ◌+◌};
ghost use Rattle.std.specs.Mem.Slots.{slots_items, slots_len, IsFull};
ghost use mathlib.Core.Option.{some};
ghost use lib.ListN.{get_elem?};

use atomic_table::Closed;
use std::alloc::Global;

/// Returns what the last slot of the base holds. What the others hold is dropped.
pub(crate) fn take_last<S: Drop>(mut closed: Closed<S, Global>, last: usize) -> S
    requires count { slots_len closed.slots ≡ last + 1 }
    requires full { IsFull closed.slots }
    ensures { get_elem? (slots_items closed.slots) last ≡ some result }
{
    let taken = closed.take(last);
    let mut place = 0;
    while place < last {
        drop(closed.take(place));
        place += 1;
    }
    closed.free();
    taken
}
