//! The rule of the table, which holds between any two of its steps.

use crate::cell::Cell;
use crate::sitting::{Key, Sitting};
use atomic_table::{Seat, Shared, Table, TableRule};
use pin_book::Payload;
use std::alloc::Global;
use std::marker::PhantomData;

/// The rule: the table is at each moment in a state of the list that the list's own steps reach.
pub struct ListRule<P> {
    marker: PhantomData<P>,
}

impl<P: Payload> TableRule<Cell<P>, Sitting<P>, Key<P>> for ListRule<P> {
    ghost use Rattle.pin_table.specs.Rule.{KeepsList};
    ghost use Rattle.pin_table.specs.Seat.{plan_of, first_sitting};

    ghost holds = { λ key. KeepsList P.home P.source P.name_of (plan_of key) };

    ghost first = { λ key. first_sitting (plan_of key) };
}

/// The table as threads see it.
pub type Board<P> = Shared<Cell<P>, Sitting<P>, Key<P>, ListRule<P>>;

/// The table with its memory.
pub type Base<P> = Table<Cell<P>, Sitting<P>, Key<P>, ListRule<P>, Global>;

/// A seat at the table.
pub type Chair<P> = Seat<Cell<P>, Sitting<P>>;
