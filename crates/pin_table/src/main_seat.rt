//! The main: what the thread has that made a table.
ghost use Rattle.std.specs.Prelude.{◌≡◌, ℕ, ◌<◌, ◌≤◌, ◌↔◌, length, slice_index_or, position, [], false, IsTrue, IsErr, OnErr, IfOk};
ghost use Rattle.pin_book.specs.declared.limits.TheConstants.{READER_NUMBERS};
ghost use Rattle.pin_core.specs.Core.{has_number};
ghost use Rattle.pin_core.specs.declared.view.Role.TheVariants as roles;
ghost use Rattle.pin_table.specs.Position.{IsAfter, slots_of_plan};

use crate::exchange::Carried;
use crate::hand::Hand;
use crate::no_reader::NoReader;
use crate::parting::{meet, part};
use crate::position::Position;
use crate::reader::Reader;
use crate::rule::Chair;
use crate::table::PinTable;
use arrayvec::ArrayVec;
use pin_book::{Payload, READER_NUMBERS};

/// What the thread has that made a table. It has the numbers of the readers that aren't out, and the writes that may
/// still be handed out.
#[derive(Drop)]
pub struct Main<P: Payload> {
    pub(crate) seat: Chair<P>,
    // Of each reader number whether the main has it.
    has: [bool; READER_NUMBERS],
    allowance: u32,
    // The front that the main has seen last.
    seen: Position,
    pub ghost role: { seat.me.0.core.role ≡ roles.Main },
    pub ghost carries_none: { length seat.me.1 ≡ 0 },
    ghost long: { length has ≡ READER_NUMBERS },
    ghost numbers: { (number : ℕ) → (0 < has_number number seat.me.0.core) ↔ IsTrue (slice_index_or has number false) },
    ghost allowed: { allowance ≡ seat.me.0.core.allowance },
    ghost position: { IsAfter (slots_of_plan seat.me.0.plan) seat.me.0.core.seen seen },
}

impl<P: Payload> Main<P> {
    ghost use Rattle.pin_core.specs.Step.{main_at_first, taken_in};
    ghost use Rattle.pin_table.specs.Main.{main_view};
    ghost use Rattle.pin_table.specs.Reader.{reader_view};
    ghost use Rattle.pin_table.specs.Numbers.{SplitsLeast};
    ghost use Rattle.pin_table.specs.Parting.{AreFronts};
    ghost use Rattle.pin_table.specs.Table.{plan, IsMainOf};

    /// Makes the main of a new table, whose first seat this is.
    pub(crate) fn first(seat: Chair<P>, readers: u32, writes: u32) -> Self
        requires numbers { readers ≤ READER_NUMBERS }
        requires core { seat.me.0.core ≡ main_at_first readers writes }
        requires carried { length seat.me.1 ≡ 0 }
        ensures { result.seat ≡ seat }
    {
        Main {
            seat,
            has: first_numbers(readers),
            allowance: writes,
            seen: Position {
                w: 0,
                n: 1,
                slot: 0,
            },
        }
    }

    /// Sends a reader out with so many writes: that of the least number that isn't out, if there is one.
    pub fn split<'t>(
        &mut self,
        table: &'t PinTable<P>,
        writes: u32,
    ) -> Result<Reader<'t, P>, NoReader>
        requires own { IsMainOf table.now self.old }
        requires room { writes ≤ (main_view self.old).allowance }
        ensures none { IsErr result ↔ ((main_view self.old).numbers ≡ []) }
        ensures unchanged { OnErr result (main_view self.new ≡ main_view self.old) }
        ensures parted { IfOk result (λ reader. SplitsLeast (plan table.now).readers writes (main_view self.old) (main_view self.new) (reader_view reader)) }
        ensures table { IfOk result (λ reader. reader.table.now ≡ table.now) }
        ensures own { IsMainOf table.now self.new }
    {
        let Some(place) = first_true(&self.has) else {
            return Err(NoReader);
        };
        let number = place as u32;
        let seat = part(table, &mut self.seat, number, writes);
        self.has[place] = false;
        self.allowance -= writes;
        Ok(Reader {
            table,
            hand: Hand {
                seat,
                carried: Carried::new(),
            },
            number,
            allowance: writes,
            seen: self.seen,
            entries: ArrayVec::new(),
        })
    }

    /// Takes a reader of this table that holds no handle back in, with all that it had seen and the writes that it may
    /// still make. What one of the two had seen is a front part of what the other had.
    pub fn join(&mut self, reader: Reader<P>)
        requires own { IsMainOf reader.table.now self.old }
        requires released { (reader_view reader).entries ≡ [] }
        ensures joined { main_view self.new ≡ taken_in (main_view self.old) (reader_view reader.entry) }
        ensures alike { AreFronts (main_view self.old).seen (reader_view reader.entry).seen }
        ensures own { IsMainOf reader.entry.table.now self.new }
    {
        let Reader {
            table,
            hand: Hand { seat, carried: _ },
            number,
            allowance,
            seen,
            entries: _,
        } = reader;
        meet(table, &mut self.seat, seat);
        self.has[number as usize] = true;
        self.allowance += allowance;
        if self.seen.w < seen.w {
            self.seen = seen;
        }
    }

    /// Returns the seat alone.
    pub(crate) fn into_seat(self) -> Chair<P>
        ensures { result ≡ self.seat }
    {
        let Main {
            seat,
            has: _,
            allowance: _,
            seen: _,
        } = self;
        seat
    }

    /// How many writes may still be made or handed out.
    pub fn allowance(&self) -> u32
        ensures { result ≡ (main_view self.now).allowance }
    {
        self.allowance
    }
}

/// The numbers that the main of a new table has: all.
fn first_numbers(readers: u32) -> [bool; READER_NUMBERS]
    requires { readers ≤ READER_NUMBERS }
    ensures marks { (number : ℕ) → IsTrue (slice_index_or result number false) ↔ (number < readers) }
    ensures long { length result ≡ READER_NUMBERS }
{
    let mut has = [false; READER_NUMBERS];
    for number in 0..readers as usize {
        has[number] = true;
    }
    has
}

/// The place of the first that is true.
fn first_true(has: &[bool; READER_NUMBERS]) -> Option<usize>
    ensures { result ≡ position (λ one. one) has.now }
{
    has.iter().position(|one| *one)
}
