//! Lists that contracts see as their elements.
ghost use Rattle.std.specs.Prelude.{◌≡◌, [], ◌∷◌, ◌++◌, ◌↔◌, ◌-◌, ◌<◌, length, slice_index_or, IsTrue, IsSome, IfSome, OnOk, OnErr};
ghost use Rattle.std.specs.Cmp.Lexicographic.{pointwise, lists_per};

use crate::NoMemory;
use std::alloc::Global;
use std::marker::Model;

/// A `Vec` that contracts see as the list of its elements.
#[derive(Debug, Drop)]
pub struct Items<T> {
    items: Vec<T>,
}

impl<T> Model for Items<T> {
    ghost use Rattle.std.specs.Prelude.{List};
    ghost use Rattle.std.specs.Coded.{coded_list};

    ghost Value = { List T };

    ghost coded = { coded_list T.code };

    ghost view = { λ it. it.items.items };
}

impl<T> Items<T> {
    ghost use Rattle.std.specs.Borrow.{sem};
    ghost use Rattle.tz_types.specs.Lending.{lends_element};

    /// An empty list, which takes no memory.
    pub fn new(alloc: Global) -> Self
        ensures { result ≡ [] }
    {
        Items {
            items: Vec::new(alloc),
        }
    }

    pub fn from_vec(items: Vec<T>) -> Self
        ensures { result ≡ items.items }
    {
        Items { items }
    }

    pub fn into_vec(self) -> Vec<T>
        ensures { result.items ≡ self }
    {
        let Items { items } = self;
        items
    }

    pub fn as_slice(&self) -> &[T]
        ensures { result.now ≡ self.now }
    {
        self.items.as_slice()
    }

    /// The element at a place, for change. None comes exactly where there are no more than `place` elements.
    pub fn get_mut(&mut self, place: usize) -> Option<&mut T>
        ensures* writes_back { sem 𝓛 (lends_element T.row self.entry place result) }
        ensures there { IsSome result ↔ (place < length self.old) }
        ensures element { IfSome result (λ element. element.now ≡ slice_index_or self.old place element.now) }
    {
        self.items.get_mut(place)
    }

    /// The last element, for change. None comes exactly where there are none.
    pub fn last_mut(&mut self) -> Option<&mut T>
        ensures* writes_back { sem 𝓛 (lends_element T.row self.entry (length self.old - 1) result) }
        ensures there { IsSome result ↔ (0 < length self.old) }
        ensures element { IfSome result (λ element. element.now ≡ slice_index_or self.old (length self.old - 1) element.now) }
    {
        self.items.last_mut()
    }

    pub fn len(&self) -> usize
        ensures { result ≡ length self.now }
    {
        self.items.len()
    }

    pub fn is_empty(&self) -> bool
        ensures { IsTrue result ↔ (self.now ≡ []) }
    {
        self.items.is_empty()
    }
}

impl<T: Drop> Items<T> {
    /// Puts the item at the end. After `NoMemory` the list is as before, and the item is gone.
    pub fn push(&mut self, item: T) -> Result<(), NoMemory>
        ensures ok { OnOk result (self.new ≡ self.old ++ item ∷ []) }
        ensures err { OnErr result (self.new ≡ self.old) }
    {
        self.items.push(item)?;
        Ok(())
    }
}

impl<T: PartialEq> PartialEq for Items<T> {
    ghost eq = { pointwise T.eq };

    ghost laws = { lists_per T.laws };

    fn eq(&self, other: &Self) -> bool {
        self.items == other.items
    }
}
