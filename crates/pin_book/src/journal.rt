//! The journal: every write so far, in the order in which they were made. Its room is taken at the start.
//!
//! Beside the writes stands how many are by each reader's number, so that the next count is known without a look
//! back. Numbers that no reader bears are counted by a look at all writes.
ghost use Rattle.std.specs.Prelude.{◌≡◌, ◌<◌, ◌≤◌, [], ◌∷◌, ◌++◌, length, IfOk};
ghost use Rattle.pin_book.specs.Journal.{IsTally};
ghost use Rattle.pin_book.specs.Sequence.{writes_by, next_seq};
ghost use Rattle.pin_book.specs.declared.limits.TheConstants.{MOST_WRITES};

use crate::limits::{MOST_WRITES, READER_NUMBERS};
use crate::write::{Change, Write};
use std::alloc::Global;
use std::marker::Model;
use tz_types::NoMemory;

#[derive(Debug, Drop)]
pub struct Journal {
    room: u32,
    writes: Vec<Write>,
    counts: [u32; READER_NUMBERS],
}

impl Model for Journal {
    ghost use Rattle.std.specs.Prelude.{◌≤◌, vec_len, vec_capacity};
    ghost use Rattle.pin_book.specs.Journal.{Writes, IsTally};
    ghost use Rattle.pin_book.specs.declared.limits.TheConstants.{MOST_WRITES};

    ghost Value = { Writes };

    ghost view = { λ j. record { room = j.room; writes = j.writes.items } };

    ghost invariant = { λ j. (vec_len j.writes ≤ j.room) × (j.room ≤ vec_capacity j.writes) × (j.room ≤ MOST_WRITES) × IsTally j.counts j.writes.items };
}

impl Journal {
    /// A journal without writes, with room for so many.
    pub fn new(alloc: Global, room: u32) -> Result<Self, NoMemory>
        requires { room ≤ MOST_WRITES }
        ensures { IfOk result (λ journal. journal ≡ record { room = room; writes = [] }) }
    {
        Ok(Journal {
            room,
            writes: Vec::with_capacity(alloc, room as usize)?,
            counts: [0; READER_NUMBERS],
        })
    }

    pub fn room(&self) -> u32
        ensures { result ≡ self.now.room }
    {
        self.room
    }

    pub fn writes(&self) -> &[Write]
        ensures writes { result.now ≡ self.now.writes }
        ensures within { length result.now ≤ self.now.room }
        ensures limit { self.now.room ≤ MOST_WRITES }
    {
        self.writes.as_slice()
    }

    /// Puts a change by this reader number at the end, with the number's next count.
    pub fn add(&mut self, by: u32, change: Change)
        requires { length self.old.writes < self.old.room }
        ensures { self.new ≡ record self.old { writes = self.old.writes ++ record { by = by; seq = next_seq by self.old.writes; change = change } ∷ [] } }
    {
        let seq = self.count(by) + 1;
        self.writes.push_reserved(Write { by, seq, change });
        let place = by as usize;
        if place < READER_NUMBERS {
            self.counts[place] = seq;
        }
    }

    /// How many writes are by this number.
    fn count(&self, by: u32) -> u32
        ensures count { result ≡ length (writes_by by self.now.writes) }
        ensures limit { result ≤ MOST_WRITES }
    {
        let place = by as usize;
        if place < READER_NUMBERS {
            self.counts[place]
        } else {
            count_among(self.writes.as_slice(), by)
        }
    }
}

/// How many of these writes are by this number.
fn count_among(writes: &[Write], by: u32) -> u32
    requires { length writes.now ≤ MOST_WRITES }
    ensures { result ≡ length (writes_by by writes.now) }
{
    writes.iter().filter(|write| write.by == by).count() as u32
}
