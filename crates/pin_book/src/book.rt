//! The list of one thread: its journal, the names of versions, and the list that they replay to.
//!
//! A position w is the number of writes so far. `Book::new` takes all memory that the book will ever use.
ghost use Rattle.std.specs.Prelude.{◌≡◌, ℕ, ◌+◌, ◌<◌, ◌≤◌, ◌↔◌, ◌≢◌, [], ◌∷◌, ◌++◌, length, slice_index, false, IsTrue, IfOk, OnOk, IsErrOf, Contains};
ghost use Rattle.pin_book.specs.declared.listed.Listed.{Listed};
ghost use Rattle.pin_book.specs.declared.write.Change.TheVariants as changes;
ghost use Rattle.pin_book.specs.declared.after_error.AfterError.TheVariants as errors;
ghost use Rattle.pin_book.specs.declared.limits.TheConstants.{FEWEST_SLOTS, MOST_SLOTS, MOST_WRITES};
ghost use Rattle.pin_book.specs.Replay.{front_of, is_listed, is_slot_listed, greatest_below};
ghost use Rattle.pin_book.specs.Pushes.{pushes};
ghost use Rattle.pin_book.specs.Sequence.{next_seq};
ghost use Rattle.pin_book.specs.Names.{with_name};
ghost use Rattle.pin_book.specs.Book.{list_of, rows_of, IsBook};

use crate::after_error::AfterError;
use crate::journal::Journal;
use crate::limits::{FEWEST_SLOTS, MOST_SLOTS, MOST_WRITES};
use crate::listed::Listed;
use crate::standing::Standing;
use crate::write::{Change, Write};
use std::alloc::Global;
use std::marker::Model;
use tz_types::{NoMemory, VersionText};

/// A journal with the names of its versions, and the list that it replays to.
#[derive(Debug, Drop)]
pub struct Book {
    journal: Journal,
    names: Vec<VersionText>,
    standing: Standing,
}

impl Model for Book {
    ghost use Rattle.std.specs.Prelude.{◌≡◌, ◌+◌, ◌≤◌, length, vec_capacity};
    ghost use Rattle.pin_book.specs.Book.{Chronicle, IsShelved};

    ghost Value = { Chronicle };

    ghost view = { λ b. record { slots = length b.standing.kept; room = b.journal.room; journal = b.journal.writes; names = b.names.items } };

    ghost invariant = { λ b. (b.journal.room + 1 ≤ vec_capacity b.names) × IsShelved (record { slots = length b.standing.kept; room = b.journal.room; journal = b.journal.writes; names = b.names.items }) b.standing };
}

impl Book {
    /// A book of so many slots, with room for so many writes, whose list begins with version 1 of source 0, of this
    /// name, in slot 0.
    pub fn new(alloc: Global, slots: u32, room: u32, name: VersionText) -> Result<Self, NoMemory>
        requires slots { (FEWEST_SLOTS ≤ slots) × (slots ≤ MOST_SLOTS) }
        requires room { (1 ≤ room) × (room ≤ MOST_WRITES) }
        ensures { IfOk result (λ book. book ≡ record { slots = slots; room = room; journal = []; names = name ∷ [] }) }
    {
        let journal = Journal::new(alloc, room)?;
        let mut names = Vec::with_capacity(alloc, room as usize + 1)?;
        names.push_reserved(name.copied());
        let first = Listed {
            n: 1,
            src: 0,
            slot: 0,
            name,
        };
        let standing = Standing::new(alloc, slots, first)?;
        Ok(Book {
            journal,
            names,
            standing,
        })
    }

    /// The position: how many writes were made.
    pub fn w(&self) -> u32
        ensures position { result ≡ length self.now.journal }
        ensures within { result ≤ self.now.room }
    {
        self.journal.writes().len() as u32
    }

    /// How many writes may be made in all.
    pub fn room(&self) -> u32
        ensures { result ≡ self.now.room }
    {
        self.journal.room()
    }

    /// How many slots the list has.
    pub fn slots(&self) -> u32
        ensures { result ≡ self.now.slots }
    {
        self.standing.kept().len() as u32
    }

    /// The newest version that is listed.
    pub fn front(&self) -> Listed
        ensures { result ≡ with_name self.now.names (front_of (list_of self.now).listed) }
    {
        self.standing.listed()[0].copied()
    }

    /// The versions that are listed, newest first.
    pub fn listed(&self) -> &[Listed]
        ensures { result.now ≡ rows_of self.now }
    {
        self.standing.listed()
    }

    /// The journal: every write so far, in order.
    pub fn entries(&self) -> &[Write]
        ensures journal { result.now ≡ self.now.journal }
        ensures book { IsBook self.now }
    {
        self.journal.writes()
    }

    /// The names of the first version and of each push, in order.
    pub fn names(&self) -> &[VersionText]
        ensures { result.now ≡ self.now.names }
    {
        self.names.as_slice()
    }

    /// The number that the slot keeps, also after an erase. 0 comes exactly where the slot isn't the first and nothing
    /// was ever pushed into it.
    pub fn kept(&self, slot: u32) -> u32
        requires { slot < self.now.slots }
        ensures number { result ≡ slice_index (list_of self.now).kept slot }
        ensures none { (result ≡ 0) ↔ ((slot ≢ 0) × (is_slot_listed slot (pushes self.now.journal) ≡ false)) }
    {
        self.standing.kept()[slot as usize]
    }

    /// Whether the version that the slot keeps is listed. A push wants a slot where it isn't.
    pub fn is_slot_listed(&self, slot: u32) -> bool
        ensures { result ≡ is_slot_listed slot (list_of self.now).listed }
    {
        self.standing.has_slot(slot)
    }

    /// The version behind the one of this number: the greatest that is listed below it. `NotListed` comes exactly where
    /// the number isn't listed, and `Nothing` exactly where it is the least that is.
    pub fn after(&self, number: u32) -> Result<Listed, AfterError>
        ensures behind { IfOk result (λ row. Contains (rows_of self.now) row × (row.n ≡ greatest_below number (list_of self.now).listed)) }
        ensures erasable { OnOk result (IsTrue (is_listed number (list_of self.now).listed) × (0 < greatest_below number (list_of self.now).listed)) }
        ensures not_listed { IsErrOf result errors.NotListed ↔ (is_listed number (list_of self.now).listed ≡ false) }
        ensures nothing { IsErrOf result errors.Nothing ↔ (IsTrue (is_listed number (list_of self.now).listed) × (greatest_below number (list_of self.now).listed ≡ 0)) }
    {
        let Some(place) = self.standing.place_of(number) else {
            return Err(AfterError::NotListed);
        };
        match self.standing.listed().get(place + 1) {
            Some(row) => Ok(row.copied()),
            None => Err(AfterError::Nothing),
        }
    }

    /// The number of the next version.
    fn next_number(&self) -> u32
        ensures { result ≡ (front_of (list_of self.now).listed).n + 1 }
    {
        self.standing.listed()[0].n + 1
    }

    /// Lists the next version before all others, made of this source and put in this slot, as a write of the reader of
    /// number `by`. Answers the version's number.
    pub fn push(&mut self, by: u32, src: u32, name: VersionText, slot: u32) -> u32
        requires room { length self.old.journal < self.old.room }
        requires slot { slot < self.old.slots }
        requires unlisted { is_slot_listed slot (list_of self.old).listed ≡ false }
        ensures number { result ≡ (front_of (list_of self.old).listed).n + 1 }
        ensures write { self.new ≡ record self.old { journal = self.old.journal ++ record { by = by; seq = next_seq by self.old.journal; change = changes.Push result src slot } ∷ []; names = self.old.names ++ name ∷ [] } }
        ensures book { IsBook self.new }
    {
        let n = self.next_number();
        self.journal.add(by, Change::Push { n, src, slot });
        self.names.push_reserved(name.copied());
        self.standing.put_first(Listed { n, src, slot, name });
        n
    }

    /// Takes the version behind the one of number `after` off the list, as a write of the reader of number `by`. Its
    /// slot still keeps it. Answers the number that is gone.
    pub fn erase(&mut self, by: u32, after: u32) -> u32
        requires room { length self.old.journal < self.old.room }
        requires listed { IsTrue (is_listed after (list_of self.old).listed) }
        requires behind { 0 < greatest_below after (list_of self.old).listed }
        ensures gone { result ≡ greatest_below after (list_of self.old).listed }
        ensures write { self.new ≡ record self.old { journal = self.old.journal ++ record { by = by; seq = next_seq by self.old.journal; change = changes.Erase after result } ∷ [] } }
        ensures book { IsBook self.new }
    {
        let Some(place) = self.standing.place_of(after) else {
            unreachable!()
        };
        let gone = self.standing.take_off(place + 1);
        self.journal.add(by, Change::Erase { after, gone });
        gone
    }
}
