//! What each atomic step tells the seat that makes it.

use crate::cell::Cell;
use crate::sitting::Sitting;
use atomic_table::Play;
use pin_book::Payload;
use std::marker::{Brand, PhantomData};

/// Which of a reader's pins goes, known at run time alone: its place among the pins, and the pin. A call picks it.
pub trait WhichPin {
    ghost use Rattle.std.specs.Prelude.{ℕ};
    ghost use Rattle.pin_core.specs.declared.entry.Entry.{Entry};

    ghost place: { ℕ };

    ghost entry: { Entry };
}

impl WhichPin for Brand {
    ghost use Rattle.std.specs.Prelude.{false};

    ghost place = { 0 };

    ghost entry = { record { slot = 0; position = 0; held = false } };
}

/// Which slot a reader claims. A call picks it.
pub trait WhichSlot {
    ghost use Rattle.std.specs.Prelude.{ℕ};

    ghost slot: { ℕ };
}

impl WhichSlot for Brand {
    ghost slot = { 0 };
}

/// Which write a reader makes. A call picks it.
pub trait WhichWrite {
    ghost use Rattle.pin_book.specs.declared.write.Write.{Write};

    ghost write: { Write };
}

impl WhichWrite for Brand {
    ghost use Rattle.pin_book.specs.declared.write.Change.TheVariants.{Erase};

    ghost write = { record { by = 0; seq = 0; change = Erase 0 0 } };
}

/// A load of the front word.
pub struct LoadFront<P> {
    marker: PhantomData<P>,
}

impl<P: Payload> Play<Cell<P>, Sitting<P>> for LoadFront<P> {
    ghost use Rattle.pin_table.specs.Plays.{ForReader, FrontLoaded};

    ghost then = { λ st m n m'. ForReader m.0 (λ plan number. FrontLoaded plan number m n m') };
}

/// A pin more at the slot of the front that the reader has seen last.
pub struct AddPin<P> {
    marker: PhantomData<P>,
}

impl<P: Payload> Play<Cell<P>, Sitting<P>> for AddPin<P> {
    ghost use Rattle.pin_table.specs.Plays.{ForReader, PinAdded};

    ghost then = { λ st m n m'. ForReader m.0 (λ plan number. PinAdded P.home P.source plan number m n m') };
}

/// A pin less.
pub struct TakePin<P, W> {
    marker: PhantomData<(P, W)>,
}

impl<P: Payload, W: WhichPin> Play<Cell<P>, Sitting<P>> for TakePin<P, W> {
    ghost use Rattle.pin_table.specs.Plays.{ForReader, PinTaken};

    ghost then = { λ st m n m'. ForReader m.0 (λ plan number. PinTaken P.home P.source plan W.place W.entry m n m') };
}

/// An exchange of the turn word from nobody to the reader.
pub struct TryTurn<P> {
    marker: PhantomData<P>,
}

impl<P: Payload> Play<Cell<P>, Sitting<P>> for TryTurn<P> {
    ghost use Rattle.pin_table.specs.Plays.{ForReader, TurnTried};

    ghost then = { λ st m n m'. ForReader m.0 (λ plan number. TurnTried P.home P.name_of plan number m n m') };
}

/// A store of nobody in the turn word.
pub struct GiveTurn;

impl<P: Payload> Play<Cell<P>, Sitting<P>> for GiveTurn {
    ghost use Rattle.pin_table.specs.Plays.{TurnGiven};

    ghost then = { λ st m n m'. TurnGiven m m' };
}

/// An exchange of a slot's word from the number that it keeps and no pin to the number that comes next.
pub struct TryClaim<P, W> {
    marker: PhantomData<(P, W)>,
}

impl<P: Payload, W: WhichSlot> Play<Cell<P>, Sitting<P>> for TryClaim<P, W> {
    ghost use Rattle.pin_table.specs.Plays.{ForReader, SlotTried};

    ghost then = { λ st m n m'. ForReader m.0 (λ plan number. SlotTried plan W.slot m n m') };
}

/// A store of the front word after an erase.
pub struct StoreErase<W> {
    marker: PhantomData<W>,
}

impl<P: Payload, W: WhichWrite> Play<Cell<P>, Sitting<P>> for StoreErase<W> {
    ghost use Rattle.pin_table.specs.Plays.{EraseStored};

    ghost then = { λ st m n m'. EraseStored W.write m m' };
}

/// A store of the front word after a push.
pub struct StorePush<P, W> {
    marker: PhantomData<(P, W)>,
}

impl<P: Payload, W: WhichWrite> Play<Cell<P>, Sitting<P>> for StorePush<P, W> {
    ghost use Rattle.pin_table.specs.Plays.{ForReader, PushStored};

    ghost then = { λ st m n m'. ForReader m.0 (λ plan number. PushStored plan W.write m m') };
}
