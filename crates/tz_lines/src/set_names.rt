//! Names of rule sets that lines of zones give.
ghost use Rattle.std.specs.Prelude.{◌≡◌, ◌+◌, ◌<◌, ◌≤◌, ◌^◌, [], ◌∷◌, ◌++◌, Some, None, length, slice_get, IsTrue, IfOk, OnOk, OnErr};
ghost use Rattle.tz_lines.specs.NameIndex.{name_position, IsIndex};
ghost use Rattle.tz_lines.specs.SetNames.{with_set_name, AreBegun};

use crate::name_index::NameIndex;
use std::alloc::Global;
use tz_records::GivenName;
use tz_types::{Items, Label, NoMemory};

/// Names, each once, in the order in which they came.
#[derive(Debug, Drop)]
pub struct SetNames {
    labels: Vec<Label>,
    places: NameIndex,
    /// The place of the name that came last: a line of a zone mostly gives the name that the line before it gave.
    last: u32,
    ghost placed: { IsIndex places labels.items },
}

impl SetNames {
    /// Before any name.
    pub fn new(alloc: Global) -> Self
        ensures { result.labels.items ≡ [] }
    {
        SetNames {
            labels: Vec::new(alloc),
            places: NameIndex::new(alloc),
            last: 0,
        }
    }

    /// Whether the name that came last is this one.
    fn came_last(&self, name: &[u8]) -> bool
        ensures { IsTrue result → slice_get self.now.labels.items self.now.last ≡ Some name.now }
    {
        match self.labels.get(self.last as usize) {
            Some(label) => label.as_bytes() == name,
            None => false,
        }
    }

    /// Adds a name that isn't there, and says its place.
    fn add(&mut self, alloc: Global, name: Label) -> Result<u32, NoMemory>
        requires room { length self.old.labels.items < 2 ^ 32 }
        requires missing { name_position name self.old.labels.items ≡ None }
        ensures place { IfOk result (λ place. place ≡ length self.old.labels.items) }
        ensures ok { OnOk result (self.new.labels.items ≡ self.old.labels.items ++ name ∷ []) }
        ensures err { OnErr result (self.new.labels.items ≡ self.old.labels.items) }
    {
        let place = self.labels.len() as u32;
        self.labels.reserve(1)?;
        self.places.insert(alloc, name.as_bytes(), place)?;
        match self.labels.push(name) {
            Ok(()) => Ok(place),
            Err(_) => unreachable!(),
        }
    }

    /// The place of a name by a search. It is added where it is new.
    fn search(&mut self, alloc: Global, name: GivenName<'_>) -> Result<u32, NoMemory>
        requires { length self.old.labels.items < 2 ^ 32 }
        ensures place { IfOk result (λ place. slice_get self.new.labels.items place ≡ Some name.entry.bytes.now) }
        ensures labels { OnOk result (self.new.labels.items ≡ with_set_name name.entry.bytes.now self.old.labels.items) }
        ensures begun { AreBegun self.old.labels.items self.new.labels.items }
        ensures few { length self.new.labels.items ≤ length self.old.labels.items + 1 }
    {
        match self.places.get(name.as_bytes()) {
            Some(place) => Ok(place),
            None => self.add(alloc, name.label()),
        }
    }

    /// The place of a name, which is added where it is new.
    pub fn place(&mut self, alloc: Global, name: GivenName<'_>) -> Result<u32, NoMemory>
        requires { length self.old.labels.items < 2 ^ 32 }
        ensures place { IfOk result (λ place. slice_get self.new.labels.items place ≡ Some name.entry.bytes.now) }
        ensures labels { OnOk result (self.new.labels.items ≡ with_set_name name.entry.bytes.now self.old.labels.items) }
        ensures begun { AreBegun self.old.labels.items self.new.labels.items }
        ensures few { length self.new.labels.items ≤ length self.old.labels.items + 1 }
    {
        if self.came_last(name.as_bytes()) {
            return Ok(self.last);
        }
        let place = self.search(alloc, name)?;
        self.last = place;
        Ok(place)
    }

    /// The names.
    pub fn into_labels(self) -> Items<Label>
        ensures { result ≡ self.labels.items }
    {
        let SetNames { labels, .. } = self;
        Items::from_vec(labels)
    }
}
