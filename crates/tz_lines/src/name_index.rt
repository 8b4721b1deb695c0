//! Where each of some names stands.
ghost use Rattle.std.specs.Prelude.{◌≡◌, ℕ, List, Some, None, if◌then◌else◌, OnOk, OnErr};
ghost use Rattle.tz_specs.specs.Value.{is_exactly};
ghost use Rattle.tz_lines.specs.NameIndex.{place_of};

use std::alloc::Global;
use std::collections::HashMap;
use tz_types::NoMemory;

/// The places of names, from 0. The bytes of each are its own: a name that a line gives lies in a buffer that the next line uses
/// again.
#[derive(Debug, Drop)]
pub struct NameIndex {
    places: HashMap<Vec<u8>, u32>,
}

impl NameIndex {
    /// Of no name.
    pub fn new(alloc: Global) -> Self
        ensures { (name : List ℕ) → place_of result name ≡ None }
    {
        NameIndex {
            places: HashMap::new(alloc),
        }
    }

    /// The place of a name, if one is noted.
    pub fn get(&self, name: &[u8]) -> Option<u32>
        ensures { result ≡ place_of self.now name.now }
    {
        self.places.get(name).copied()
    }

    /// Notes the place of a name.
    pub fn insert(&mut self, alloc: Global, name: &[u8], place: u32) -> Result<(), NoMemory>
        ensures ok { OnOk result ((other : List ℕ) →
            place_of self.new other ≡ (if is_exactly name.now other then Some place else place_of self.old other)) }
        ensures err { OnErr result ((other : List ℕ) → place_of self.new other ≡ place_of self.old other) }
    {
        let key = Vec::from_slice(alloc, name)?;
        self.places.insert(key, place)?;
        Ok(())
    }
}
