//! The pins of a reader.
ghost use Rattle.std.specs.Prelude.{◌≡◌, ℕ, ◌<◌, ◌||◌, Some, is_some, IsSome, not, nat_le, [], ◌∷◌, ◌++◌, length, position, OnOk};
ghost use Rattle.std.specs.List.{remove, list_all};
ghost use Rattle.pin_core.specs.declared.entry.Entry.{Entry};
ghost use Rattle.pin_schedule.specs.Pin.{is_stray_at, is_held_at, is_oldest_at, taken_place, has_place};

use crate::limits::MOST_HANDLES;
use pin_core::Entry;
use std::alloc::Global;
use std::marker::Model;
use tz_types::NoMemory;

/// The pins of a reader, in the order in which they were added.
#[derive(Debug, Drop)]
pub struct Entries {
    items: Vec<Entry>,
}

impl Model for Entries {
    ghost use Rattle.std.specs.Prelude.{List};
    ghost use Rattle.pin_core.specs.declared.entry.Entry.{Entry};

    ghost Value = { List Entry };

    ghost view = { λ e. e.items.items };
}

impl Entries {
    /// No pin, and no memory.
    pub fn new(alloc: Global) -> Self
        ensures { result ≡ [] }
    {
        Entries {
            items: Vec::new(alloc),
        }
    }

    pub fn as_slice(&self) -> &[Entry]
        ensures { result.now ≡ self.now }
    {
        self.items.as_slice()
    }

    /// Puts a pin at the end.
    pub fn push(&mut self, entry: Entry) -> Result<(), NoMemory>
        ensures { OnOk result (self.new ≡ self.old ++ entry ∷ []) }
    {
        self.items.push(entry)?;
        Ok(())
    }

    /// Takes off the pin at this slot that goes first: the stray there, or else the oldest that is held there.
    pub fn take_at(&mut self, slot: u32)
        requires { IsSome (taken_place slot self.old) }
        ensures { (place : ℕ) → taken_place slot self.old ≡ Some place → self.new ≡ remove self.old place }
    {
        if let Some(place) = taken_at(&self.items, slot) {
            let _ = self.items.remove(place);
        }
    }
}

/// Whether one more pin may be added: there are fewer than eight, and each is held.
pub fn has_place(entries: &[Entry]) -> bool
    ensures { result ≡ has_place entries.now }
{
    entries.len() < MOST_HANDLES && are_held(entries)
}

/// Whether some pin at this slot can be taken off.
pub fn has_pin_at(entries: &[Entry], slot: u32) -> bool
    ensures { result ≡ is_some (taken_place slot entries.now) }
{
    taken_at(entries, slot).is_some()
}

/// Whether each pin is held, so that none is a stray.
fn are_held(entries: &[Entry]) -> bool
    ensures { result ≡ list_all (λ (e : Entry). e.held) entries.now }
{
    entries.iter().all(|entry| entry.held)
}

/// The place of the pin that is taken off at this slot, if there is one.
fn taken_at(entries: &[Entry], slot: u32) -> Option<usize>
    ensures { result ≡ taken_place slot entries.now }
{
    match stray_at(entries, slot) {
        Some(place) => Some(place),
        None => oldest_at(entries, slot),
    }
}

/// The place of the stray at this slot.
fn stray_at(entries: &[Entry], slot: u32) -> Option<usize>
    ensures { result ≡ position (is_stray_at slot) entries.now }
{
    entries
        .iter()
        .position(|entry| entry.slot == slot && !entry.held)
}

/// The place of the oldest pin that is held at this slot.
fn oldest_at(entries: &[Entry], slot: u32) -> Option<usize>
    ensures { result ≡ position (is_oldest_at slot entries.now) entries.now }
{
    entries.iter().position(|entry| is_held(entry, slot) && is_least(entries, slot, entry.position))
}

/// Whether the pin is held at this slot.
fn is_held(entry: &Entry, slot: u32) -> bool
    ensures { result ≡ is_held_at slot entry.now }
{
    entry.slot == slot && entry.held
}

/// Whether no pin that is held at this slot has a lesser position.
fn is_least(entries: &[Entry], slot: u32, position: u32) -> bool
    ensures { result ≡ list_all (λ (other : Entry). not (is_held_at slot other) || nat_le position other.position) entries.now }
{
    entries.iter().all(|other| !is_held(other, slot) || position <= other.position)
}
