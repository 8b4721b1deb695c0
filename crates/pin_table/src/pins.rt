//! Pins: how a reader gets handles on the front and releases them. No call here waits for another thread.
ghost use Rattle.std.specs.Prelude.{◌≡◌, ◌<◌, ◌==◌, ◌↔◌, true, None, Some, ◌&&◌, position, length, Contains, IfOk, IfSome, IsErr, OnErr};
ghost use Rattle.std.specs.List.{list_any};
ghost use Rattle.pin_core.specs.declared.entry.Entry.{Entry};
ghost use Rattle.std.specs.Arc.{arc_value};
ghost use Rattle.pin_book.specs.Replay.{replays, front_slot};
ghost use Rattle.pin_core.specs.Core.{IsReader, held_count, times};
ghost use Rattle.pin_core.specs.Packing.{place};
ghost use Rattle.pin_table.specs.declared.reader.TheConstants.{MOST_HANDLES};
ghost use Rattle.pin_table.specs.Carried.{slots_of};
ghost use Rattle.pin_table.specs.Handles.{Handle, pin_of, HasCopyAt, HasRoomAt, CopyTaken, CopyPut, MadeBy};
ghost use Rattle.pin_table.specs.Kept.{KeepsHandles};
ghost use Rattle.pin_table.specs.Pins.{PinsFront, PinsAtOnce, Misses, Releases};
ghost use Rattle.pin_table.specs.Reader.{reader_view, seen};
ghost use Rattle.pin_table.specs.Table.{IsAt, plan};

use crate::answers::{Released, TooManyHandles};
use crate::packing::unpack_front;
use crate::pinned::Pinned;
use crate::position::Position;
use crate::reader::{MOST_HANDLES, Reader};
use pin_book::Payload;
use pin_core::Entry;

/// Whether one of these pins is at the slot.
fn is_pinned(entries: &[Entry], slot: u32) -> bool
    ensures { result ≡ list_any (λ (e : Entry). e.slot == slot) entries.now }
{
    entries.iter().any(|entry| entry.slot == slot)
}

/// The place among these pins of the first that was added at this slot and position.
fn place_among(entries: &[Entry], slot: u32, w: u32) -> Option<usize>
    ensures { result ≡ position (λ (e : Entry). (e.slot == slot) && (e.position == w)) entries.now }
{
    entries
        .iter()
        .position(|entry| entry.slot == slot && entry.position == w)
}

impl<'t, P: Payload> Reader<'t, P> {
    /// Pins the front, and returns a handle on it. The call loads the front word first. `TooManyHandles` comes exactly where
    /// the reader has eight handles.
    pub fn front(&mut self) -> Result<Pinned<P>, TooManyHandles>
        ensures refused { IsErr result ↔ (length (reader_view self.old).entries ≡ MOST_HANDLES) }
        ensures unchanged { OnErr result (self.new ≡ self.old) }
        ensures pinned { IfOk result (λ handle. PinsFront P.home P.source self.old self.new handle) }
        ensures handles { KeepsHandles P.home P.source self.old self.new }
    {
        if self.entries.len() == MOST_HANDLES {
            return Err(TooManyHandles);
        }
        self.look();
        loop {
            if let Some(handle) = self.try_pin() {
                return Ok(handle);
            }
        }
    }

    /// Adds a pin at the front that the reader has seen last. Where the slot's word shows another number there is a later
    /// front by now: the reader loads it, and takes its pin off.
    fn try_pin(&mut self) -> Option<Pinned<P>>
        requires room { length (reader_view self.old).entries < MOST_HANDLES }
        requires replay { replays (plan self.old.table.now).slots (seen self.old) ≡ true }
        ensures pinned { IfSome result (λ handle. PinsAtOnce P.home P.source self.old self.new handle) }
        ensures missed { result ≡ None → Misses self.old self.new }
    {
        let Position { w, n, slot } = self.seen;
        let first = !is_pinned(self.entries.as_slice(), slot);
        let count = self.entries.len();
        match self
            .hand
            .pin(self.table, self.number, self.seen, count, first)
        {
            Ok(version) => {
                let entry = Entry {
                    slot,
                    position: w,
                    held: true,
                };
                self.entries.push(entry);
                Some(Pinned {
                    version,
                    number: n,
                    slot,
                    position: w,
                    reader: self.number,
                })
            }
            Err(later) => {
                self.seen = unpack_front(later);
                None
            }
        }
    }

    /// Spends a handle of this reader. The call loads the front word first, and is never refused. Others whose pins are left
    /// stay the reader's.
    pub fn release(&mut self, handle: Pinned<P>) -> Released
        requires made { MadeBy P.home P.source (plan self.old.table.now) (reader_view self.old) handle }
        ensures released { Releases self.old self.new handle result }
        ensures others { (other : Handle P) → MadeBy P.home P.source (plan self.old.table.now) (reader_view self.old) other → Contains (reader_view self.new).entries (pin_of other) → MadeBy P.home P.source (plan self.new.table.now) (reader_view self.new) other }
    {
        let front = self.look();
        let Pinned {
            version,
            number: _,
            slot,
            position,
            reader: _,
        } = handle;
        let entry = Entry {
            slot,
            position,
            held: true,
        };
        let Some(place) = place_among(self.entries.as_slice(), slot, position) else {
            unreachable!()
        };
        self.entries.remove(place);
        let last = !is_pinned(self.entries.as_slice(), slot);
        let found = self
            .hand
            .unpin(self.table, self.number, place, entry, version, last);
        Released {
            number: (found >> 32) as u32,
            slot,
            w: front.w,
        }
    }

    /// Returns the reader's number, which no other reader has while this one is out.
    pub fn number(&self) -> u32
        ensures { IsReader result (reader_view self.now) }
    {
        self.number
    }

    /// Returns how many handles the reader has.
    pub fn held(&self) -> u32
        ensures { result ≡ held_count (reader_view self.now) }
    {
        self.entries.len() as u32
    }

    /// Returns how many writes the reader may still make.
    pub fn allowance(&self) -> u32
        ensures { result ≡ (reader_view self.now).allowance }
    {
        self.allowance
    }
}
