//! The calls of a reader that list the versions.
ghost use Rattle.std.specs.Prelude.{◌≡◌, IfOk, IfErr};
ghost use Rattle.pin_table.specs.Idle.{IsIdle};
ghost use Rattle.pin_table.specs.Kept.{KeepsPins, KeepsWrites, KeepsHandles};
ghost use Rattle.pin_table.specs.Position.{IsAfter};
ghost use Rattle.pin_table.specs.Reader.{reader_view};
ghost use Rattle.pin_table.specs.Table.{IsAt, plan};
ghost use Rattle.pin_table.specs.Turns.{MeetsTurn, Lists, AfterWait};

use crate::answers::{Busy, Listing};
use crate::hand::Hand;
use crate::position::Position;
use crate::reader::Reader;
use crate::table::PinTable;
use crate::turns::{front_in, give_turn_back, rows_in, take_turn};
use pin_book::Payload;
use std::sync::Wait;
use std::thread;

/// Lists the versions in a turn, with the front.
fn list_in_turn<P: Payload>(
    table: &PinTable<P>,
    hand: &mut Hand<P>,
    number: u32,
) -> Result<(Listing, Position), Busy>
    requires own { IsAt table.now hand.old.seat }
    requires idle { IsIdle (plan table.now).slots number hand.old.seat.me.0.core }
    ensures own { IsAt table.now hand.new.seat }
    ensures idle { IsIdle (plan table.now).slots number hand.new.seat.me.0.core }
    ensures listed { IfOk result (λ found. Lists P.home P.name_of (plan table.now) hand.old.seat.me.0.core hand.new.seat.me.0.core found.0) }
    ensures front { IfOk result (λ found. IsAfter (plan table.now).slots hand.new.seat.me.0.core.seen found.1) }
    ensures busy { IfErr result (λ busy. MeetsTurn (plan table.now) number hand.old.seat.me.0.core hand.new.seat.me.0.core busy.holder) }
{
    let book = take_turn(table, &mut hand.seat, &mut hand.carried, number)?;
    let listing = Listing {
        w: book.w(),
        rows: rows_in(&book),
    };
    let front = front_in(&book);
    give_turn_back(table, &mut hand.seat, &mut hand.carried, number, book);
    Ok((listing, front))
}

impl<'t, P: Payload> Reader<'t, P> {
    /// Lists the versions, newest first, if no other reader has the turn.
    pub fn try_list(&mut self) -> Result<Listing, Busy>
        ensures listed { IfOk result (λ listing. Lists P.home P.name_of (plan self.old.table.now) (reader_view self.old) (reader_view self.new) listing) }
        ensures busy { IfErr result (λ busy. MeetsTurn (plan self.old.table.now) self.old.number (reader_view self.old) (reader_view self.new) busy.holder) }
        ensures table { self.new.table.now ≡ self.old.table.now }
        ensures number { self.new.number ≡ self.old.number }
        ensures kept { KeepsPins (reader_view self.old) (reader_view self.new) }
        ensures handles { KeepsHandles P.home P.source self.old self.new }
        ensures unwritten { KeepsWrites (reader_view self.old) (reader_view self.new) }
    {
        let (listing, front) = list_in_turn(self.table, &mut self.hand, self.number)?;
        self.seen = front;
        Ok(listing)
    }

    /// Lists the versions, newest first, once no other reader has the turn.
    pub fn list<R: Wait>(&mut self, rt: &R) -> Listing
        ensures listed { AfterWait (reader_view self.old) (λ v. Lists P.home P.name_of (plan self.old.table.now) v (reader_view self.new) result) }
        ensures table { self.new.table.now ≡ self.old.table.now }
        ensures number { self.new.number ≡ self.old.number }
        ensures kept { KeepsPins (reader_view self.old) (reader_view self.new) }
        ensures handles { KeepsHandles P.home P.source self.old self.new }
        ensures unwritten { KeepsWrites (reader_view self.old) (reader_view self.new) }
    {
        for _ in rt.forever() {
            match self.try_list() {
                Ok(listing) => return listing,
                Err(_) => thread::yield_now(),
            }
        }
        unreachable!()
    }
}
