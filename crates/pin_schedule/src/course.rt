//! The course of a schedule: what its events have made of the core so far.
//!
//! Beside the core stands what makes each step quick: the front that each reader has seen last, so that no step goes
//! back through the journal, and the versions that are listed.
ghost use Rattle.std.specs.Prelude.{◌≡◌, ℕ, ◌^◌, not, nat_lt, filter, if◌then◌else◌, IsSome, ◌+◌, ◌-◌, ◌<◌, ◌≤◌, ◌&&◌, ◌==◌, [], ◌∷◌, ◌++◌, ◌↔◌, Some, None, Ok, is_some, length, map, replicate, slice_index_or, slice_set, IfOk, OnOk, IsTrue};
ghost use Rattle.std.specs.List.{remove};
ghost use Rattle.pin_core.specs.declared.entry.Entry.{Entry};
ghost use Rattle.pin_book.specs.declared.write.Change.TheVariants as changes;
ghost use Rattle.pin_schedule.specs.declared.row.Row.{Row};
ghost use Rattle.pin_core.specs.declared.entry.SlotWord.{SlotWord};
ghost use Rattle.pin_core.specs.Core.{CoreState};
ghost use Rattle.pin_core.specs.Step.{with_number, reader_at_first, opening_with_readers};
ghost use Rattle.pin_book.specs.declared.limits.TheConstants.{FEWEST_SLOTS, MOST_SLOTS, MOST_WRITES, READER_NUMBERS};
ghost use Rattle.pin_schedule.specs.Pin.{taken_place};
ghost use Rattle.pin_schedule.specs.Schedule.{IsAllowed, after_event};
ghost use Rattle.pin_schedule.specs.Answer.{reader_of};
ghost use Rattle.pin_schedule.specs.Progress.{Progress, reader_at, front_at, newest, word_at, counting, greatest_under, is_placed, is_numbered, without, is_turn_of, passes, written, progress_of, with_reader, with_pin, with_word, with_turn, with_claimed, with_write, HasReach, Stands, CanMake};

use crate::answer::Core;
use crate::core_reader::CoreReader;
use crate::entries::{Entries, has_pin_at, has_place};
use crate::event::{Event, Kind};
use crate::row::{FIRST, Row};
use crate::slots::Slots;
use pin_book::{Change, Write};
use pin_core::{Entry, SlotWord};
use std::alloc::Global;
use std::marker::Model;
use tz_types::{Items, NoMemory};

#[derive(Debug, Drop)]
pub struct Course {
    room: u32,
    journal: Vec<Write>,
    words: Vec<SlotWord>,
    turn: Option<u32>,
    claimed: Option<u32>,
    readers: Vec<CoreReader>,
    fronts: Vec<Row>,
    listed: Vec<Row>,
}

impl Model for Course {
    ghost use Rattle.pin_schedule.specs.Progress.{Progress};

    ghost Value = { Progress };

    ghost view = { λ c. record { room = c.room; core = record { journal = c.journal.items; words = c.words.items; turn = c.turn; claimed = c.claimed; readers = c.readers.items }; fronts = c.fronts.items; listed = c.listed.items } };
}

impl Course {
    /// So many slots, and so many readers, all of them out and each with room for so many writes.
    pub fn new(alloc: Global, slots: u32, readers: u32, room: u32) -> Result<Self, NoMemory>
        requires { 0 < slots }
        ensures { IfOk result (λ course. course ≡ progress_of room (opening_with_readers slots readers room)) }
    {
        let nothing = SlotWord {
            number: 0,
            count: 0,
        };
        let mut words = vec![in alloc; nothing; slots as usize]?;
        words[0] = SlotWord {
            number: FIRST.n,
            count: 0,
        };
        Ok(Course {
            room,
            journal: Vec::new(alloc),
            words,
            turn: None,
            claimed: None,
            readers: readers_at_first(alloc, readers, room)?,
            fronts: vec![in alloc; FIRST; readers as usize]?,
            listed: vec![in alloc; FIRST; 1]?,
        })
    }

    /// The event is made, which is allowed.
    pub fn make(&mut self, event: Event) -> Result<(), NoMemory>
        requires { CanMake self.old event }
        ensures { (made room : ℕ) (s : CoreState) → Stands made room s self.old → IsAllowed s event → OnOk result (Stands (made + 1) room (after_event s event) self.new) }
    {
        let number = event.reader;
        let reader = number as usize;
        match event.kind {
            Kind::LoadFront => {
                self.load_front(reader);
                Ok(())
            }
            Kind::AddPin => self.add_pin(reader),
            Kind::TakePin { slot } => {
                self.take_pin(reader, slot);
                Ok(())
            }
            Kind::TakeTurn => {
                self.exchange_turn(reader, number);
                Ok(())
            }
            Kind::Claim { slot } => self.claim(reader, slot),
            Kind::StorePush { src } => self.push(reader, number, src),
            Kind::StoreErase { after } => self.erase(reader, number, after),
            Kind::StoreTurn => {
                self.give_turn();
                Ok(())
            }
        }
    }

    /// The core as it was answered when all events are over.
    pub fn into_core(self) -> Core
        ensures { result ≡ self.core }
    {
        let Course {
            room: _,
            journal,
            words,
            turn,
            claimed,
            readers,
            fronts: _,
            listed: _,
        } = self;
        Core {
            journal: Items::from_vec(journal),
            words: Items::from_vec(words),
            turn,
            claimed,
            readers: Items::from_vec(readers),
        }
    }

    /// The reader loads the front word.
    fn load_front(&mut self, reader: usize)
        requires { HasReach self.old reader }
        ensures { self.new ≡ record (with_reader self.old reader (record (reader_at self.old reader) { seen = length self.old.core.journal; loads = (reader_at self.old reader).loads + 1 })) { fronts = slice_set self.old.fronts reader (newest self.old) } }
    {
        let seen = self.journal.len() as u32;
        self.fronts[reader] = self.listed[0];
        let reader = &mut self.readers[reader];
        reader.seen = seen;
        reader.loads += 1;
    }

    /// The reader adds a pin at the slot of the front that it has seen last.
    fn add_pin(&mut self, reader: usize) -> Result<(), NoMemory>
        requires reach { HasReach self.old reader }
        requires inside { (front_at self.old reader).slot < length self.old.core.words }
        requires count { (word_at self.old (front_at self.old reader).slot).count + 1 < 2 ^ 32 }
        ensures { OnOk result (self.new ≡ with_word (with_reader self.old reader (with_pin (front_at self.old reader) (word_at self.old (front_at self.old reader).slot) (reader_at self.old reader))) (front_at self.old reader).slot (counting (word_at self.old (front_at self.old reader).slot) ((word_at self.old (front_at self.old reader).slot).count + 1))) }
    {
        let front = self.fronts[reader];
        let word = &mut self.words[front.slot as usize];
        word.count += 1;
        let held = word.number == front.n;
        let reader = &mut self.readers[reader];
        reader.pins += 1;
        let position = reader.seen;
        reader.entries.push(Entry {
            slot: front.slot,
            position,
            held,
        })
    }

    /// The reader takes off the pin at this slot that goes first: its stray, or else its oldest.
    fn take_pin(&mut self, reader: usize, slot: u32)
        requires inside { reader < length self.old.core.readers }
        requires there { IsSome (taken_place slot (reader_at self.old reader).entries) }
        requires slot { slot < length self.old.core.words }
        requires count { 0 < (word_at self.old slot).count }
        ensures { (place : ℕ) → taken_place slot (reader_at self.old reader).entries ≡ Some place → self.new ≡ with_word (with_reader self.old reader (record (reader_at self.old reader) { entries = remove (reader_at self.old reader).entries place })) slot (counting (word_at self.old slot) ((word_at self.old slot).count - 1)) }
    {
        self.words[slot as usize].count -= 1;
        self.readers[reader].entries.take_at(slot);
    }

    /// The reader exchanges the turn word: it gets the turn, or finds it taken.
    fn exchange_turn(&mut self, reader: usize, number: u32)
        requires { HasReach self.old reader }
        ensures taken { IsSome self.old.core.turn → self.new ≡ with_reader self.old reader (record (reader_at self.old reader) { refused = (reader_at self.old reader).refused + 1 }) }
        ensures free { self.old.core.turn ≡ None → self.new ≡ with_turn (record (with_reader self.old reader (record (reader_at self.old reader) { seen = length self.old.core.journal; pinned = []; taken = (reader_at self.old reader).taken + 1 })) { fronts = slice_set self.old.fronts reader (newest self.old) }) (Some number) }
    {
        if self.turn.is_some() {
            self.readers[reader].refused += 1;
            return;
        }
        self.turn = Some(number);
        let seen = self.journal.len() as u32;
        self.fronts[reader] = self.listed[0];
        let reader = &mut self.readers[reader];
        reader.seen = seen;
        reader.taken += 1;
        reader.pinned.clear();
    }

    /// The holder of the turn claims this slot, or finds it pinned.
    fn claim(&mut self, reader: usize, slot: u32) -> Result<(), NoMemory>
        requires reach { HasReach self.old reader }
        requires slot { slot < length self.old.core.words }
        ensures free { (word_at self.old slot).count ≡ 0 → OnOk result (self.new ≡ with_claimed (with_word self.old slot (record { number = (newest self.old).n + 1; count = 0 })) (Some slot)) }
        ensures pinned { 0 < (word_at self.old slot).count → OnOk result (self.new ≡ with_reader self.old reader (record (reader_at self.old reader) { pinned = with_number slot (reader_at self.old reader).pinned })) }
    {
        let word = &mut self.words[slot as usize];
        if word.count > 0 {
            return self.readers[reader].pinned.add(slot);
        }
        word.number = self.listed[0].n + 1;
        self.claimed = Some(slot);
        Ok(())
    }

    /// The holder of the turn pushes a version of this source into the slot that it has claimed.
    fn push(&mut self, reader: usize, number: u32, src: u32) -> Result<(), NoMemory>
        requires reach { HasReach self.old reader }
        requires claimed { IsSome self.old.core.claimed }
        requires allowance { 0 < (reader_at self.old reader).allowance }
        requires room { (reader_at self.old reader).allowance ≤ self.old.room }
        ensures { (slot : ℕ) → self.old.core.claimed ≡ Some slot → OnOk result (self.new ≡ with_claimed (with_write self.old reader (written self.old reader number (changes.Push ((newest self.old).n + 1) src slot)) (record { n = (newest self.old).n + 1; slot = slot } ∷ self.old.listed)) None) }
    {
        let Some(slot) = self.claimed else {
            unreachable!()
        };
        let n = self.listed[0].n + 1;
        self.listed.insert(0, Row { n, slot })?;
        self.claimed = None;
        self.write(reader, number, Change::Push { n, src, slot })
    }

    /// The holder of the turn erases the version behind the one of this number.
    fn erase(&mut self, reader: usize, number: u32, after: u32) -> Result<(), NoMemory>
        requires reach { HasReach self.old reader }
        requires left { 0 < length (without (greatest_under after self.old.listed) self.old.listed) }
        requires allowance { 0 < (reader_at self.old reader).allowance }
        requires room { (reader_at self.old reader).allowance ≤ self.old.room }
        ensures { OnOk result (self.new ≡ with_write self.old reader (written self.old reader number (changes.Erase after (greatest_under after self.old.listed))) (without (greatest_under after self.old.listed) self.old.listed)) }
    {
        let gone = greatest_under(&self.listed, after);
        take_off(&mut self.listed, gone);
        self.write(reader, number, Change::Erase { after, gone })
    }

    /// The reader's next write, with this change, goes to the end of the journal. The list is as the change left it.
    fn write(&mut self, reader: usize, number: u32, change: Change) -> Result<(), NoMemory>
        requires inside { reader < length self.old.core.readers }
        requires front { reader < length self.old.fronts }
        requires listed { 0 < length self.old.listed }
        requires seen { (reader_at self.old reader).seen + 1 < 2 ^ 32 }
        requires allowance { 0 < (reader_at self.old reader).allowance }
        requires room { (reader_at self.old reader).allowance ≤ self.old.room }
        ensures { OnOk result (self.new ≡ with_write self.old reader (written self.old reader number change) self.old.listed) }
    {
        self.fronts[reader] = self.listed[0];
        let reader = &mut self.readers[reader];
        let seq = self.room - reader.allowance + 1;
        reader.seen += 1;
        reader.allowance -= 1;
        self.journal.push(Write {
            by: number,
            seq,
            change,
        })?;
        Ok(())
    }

    /// The holder of the turn gives it back.
    fn give_turn(&mut self)
        ensures { self.new ≡ with_turn self.old None }
    {
        self.turn = None;
    }

    /// Whether the event is allowed.
    pub fn allows(&self, event: Event) -> bool
        ensures { (made room : ℕ) (s : CoreState) → Stands made room s self.now → (IsTrue result ↔ IsAllowed s event) }
    {
        (event.reader as usize) < self.readers.len() && self.passes(event.reader, event.kind)
    }

    /// Whether the reader of this number may make a step of this kind.
    fn passes(&self, number: u32, kind: Kind) -> bool
        requires { number < length self.now.core.readers }
        ensures { result ≡ passes self.now number kind }
    {
        let reader = &self.readers[number as usize];
        match kind {
            Kind::LoadFront => true,
            Kind::AddPin => has_place(reader.entries.as_slice()),
            Kind::TakePin { slot } => self.has_slot(slot)
                && has_pin_at(reader.entries.as_slice(), slot),
            Kind::TakeTurn => !self.has_turn(number),
            Kind::Claim { slot } => {
                self.has_turn(number) && self.claimed.is_none() && self.is_free(slot)
            }
            Kind::StorePush { src: _ } => {
                self.has_turn(number) && self.claimed.is_some() && reader.allowance > 0
            }
            Kind::StoreErase { after } => {
                self.has_turn(number)
                    && self.claimed.is_none()
                    && reader.allowance > 0
                    && has_behind(&self.listed, after)
            }
            Kind::StoreTurn => self.has_turn(number) && self.claimed.is_none(),
        }
    }

    /// Whether the reader of this number has the turn.
    fn has_turn(&self, number: u32) -> bool
        ensures { result ≡ is_turn_of number self.now.core.turn }
    {
        match self.turn {
            Some(holder) => holder == number,
            None => false,
        }
    }

    /// Whether there is such a slot.
    fn has_slot(&self, slot: u32) -> bool
        ensures { result ≡ nat_lt slot (length self.now.core.words) }
    {
        (slot as usize) < self.words.len()
    }

    /// Whether there is such a slot, and no version that is listed is in it.
    fn is_free(&self, slot: u32) -> bool
        ensures { result ≡ (nat_lt slot (length self.now.core.words) && not (is_placed slot self.now.listed)) }
    {
        self.has_slot(slot) && !is_placed(&self.listed, slot)
    }
}

/// So many readers that have done nothing yet, and may each make so many writes.
fn readers_at_first(alloc: Global, readers: u32, room: u32) -> Result<Vec<CoreReader>, NoMemory>
    ensures { IfOk result (λ v. v.items ≡ replicate readers (reader_of (reader_at_first room 0))) }
{
    let mut all = Vec::with_capacity(alloc, readers as usize)?;
    for _ in 0..readers {
        all.push(CoreReader {
            seen: 0,
            loads: 0,
            pins: 0,
            taken: 0,
            refused: 0,
            allowance: room,
            pinned: Slots::new(alloc),
            entries: Entries::new(alloc),
        })?;
    }
    Ok(all)
}

/// Whether a version in this slot is among these.
fn is_placed(listed: &[Row], slot: u32) -> bool
    ensures { result ≡ is_placed slot listed.now }
{
    listed.iter().any(|row| row.slot == slot)
}

/// Whether the version of this number is among these, and one behind it.
fn has_behind(listed: &[Row], after: u32) -> bool
    ensures { result ≡ (is_numbered after listed.now && nat_lt 0 (greatest_under after listed.now)) }
{
    is_numbered(listed, after) && greatest_under(listed, after) > 0
}

/// Whether the version of this number is among these.
fn is_numbered(listed: &[Row], number: u32) -> bool
    ensures { result ≡ is_numbered number listed.now }
{
    listed.iter().any(|row| row.n == number)
}

/// The greatest number of these versions that is less than this one, or 0.
fn greatest_under(listed: &[Row], number: u32) -> u32
    ensures { result ≡ greatest_under number listed.now }
{
    listed
        .iter()
        .map(|row| row.n)
        .filter(|other| *other < number)
        .fold(0, |most, other| most.max(other))
}

/// Takes the version of this number off the list.
fn take_off(listed: &mut Vec<Row>, gone: u32)
    ensures { listed.new.items ≡ without gone listed.old.items }
{
    listed.retain(|row| row.n != gone);
}
