//! What a slot of the base holds.

use crate::shelf::Shelf;
use pin_book::{Book, Payload};

/// What a slot of the base holds: the copies at a place, or the book. It is empty while what it held is in hand.
#[derive(Drop)]
pub enum Cell<P: Payload> {
    Empty,
    Place(Shelf<P>),
    Desk(Book),
}
