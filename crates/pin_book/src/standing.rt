//! The list as it stands: what is listed, newest first, and the number that each slot keeps. Its room is taken at the
//! start: no more can be listed than there are slots.
ghost use Rattle.std.specs.Prelude.{◌≡◌, ℕ, ◌+◌, ◌<◌, ◌==◌, [], ◌∷◌, length, replicate, remove, position, slice_index, slice_index_or, slice_set, IfOk};
ghost use Rattle.std.specs.List.{list_any};
ghost use Rattle.pin_book.specs.declared.listed.Listed.{Listed};

use crate::listed::Listed;
use std::alloc::Global;
use std::marker::Model;
use tz_types::NoMemory;

#[derive(Debug, Drop)]
pub struct Standing {
    listed: Vec<Listed>,
    kept: Vec<u32>,
}

impl Model for Standing {
    ghost use Rattle.std.specs.Prelude.{◌≤◌, vec_len, vec_capacity};
    ghost use Rattle.pin_book.specs.Standing.{Rows};

    ghost Value = { Rows };

    ghost view = { λ s. record { listed = s.listed.items; kept = s.kept.items } };

    ghost invariant = { λ s. vec_len s.kept ≤ vec_capacity s.listed };
}

impl Standing {
    /// So many slots, the first of which keeps the version that alone is listed.
    pub fn new(alloc: Global, slots: u32, first: Listed) -> Result<Self, NoMemory>
        requires { 0 < slots }
        ensures { IfOk result (λ standing. standing ≡ record { listed = first ∷ []; kept = slice_set (replicate slots 0) 0 first.n }) }
    {
        let mut kept = vec![in alloc; 0; slots as usize]?;
        kept[0] = first.n;
        let mut listed = Vec::with_capacity(alloc, slots as usize)?;
        listed.push_reserved(first);
        Ok(Standing { listed, kept })
    }

    pub fn listed(&self) -> &[Listed]
        ensures { result.now ≡ self.now.listed }
    {
        self.listed.as_slice()
    }

    pub fn kept(&self) -> &[u32]
        ensures { result.now ≡ self.now.kept }
    {
        self.kept.as_slice()
    }

    /// The place of this number among those that are listed.
    pub fn place_of(&self, number: u32) -> Option<usize>
        ensures { result ≡ position (λ (row : Listed). row.n == number) self.now.listed }
    {
        self.listed.iter().position(|row| row.n == number)
    }

    /// Whether a version in this slot is listed.
    pub fn has_slot(&self, slot: u32) -> bool
        ensures { result ≡ list_any (λ (row : Listed). row.slot == slot) self.now.listed }
    {
        self.listed.iter().any(|row| row.slot == slot)
    }

    /// Lists a version before all others, and lets its slot keep its number.
    pub fn put_first(&mut self, row: Listed)
        requires slot { row.slot < length self.old.kept }
        requires room { length self.old.listed < length self.old.kept }
        ensures { self.new ≡ record { listed = row ∷ self.old.listed; kept = slice_set self.old.kept row.slot row.n } }
    {
        self.kept[row.slot as usize] = row.n;
        let _ = self.listed.insert(0, row);
    }

    /// Takes the version at this place off the list, and tells its number. Its slot keeps it.
    pub fn take_off(&mut self, place: usize) -> u32
        requires { place < length self.old.listed }
        ensures rest { self.new ≡ record self.old { listed = remove self.old.listed place } }
        ensures number { (row : Listed) → result ≡ (slice_index_or self.old.listed place row).n }
    {
        self.listed.remove(place).n
    }
}
