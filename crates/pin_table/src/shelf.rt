//! The copies of one version that stand at one place.
//!
//! A handle takes a copy out of its reader's place at its slot, and its release puts one back, so neither takes memory.
ghost use Rattle.std.specs.Prelude.{◌≡◌, ◌<◌, ◌∷◌, length, IfOk};
ghost use Rattle.std.specs.Arc.{arc_value};
ghost use Rattle.pin_table.specs.Shelf.{AreOf, full_shelf};
ghost use Rattle.pin_table.specs.declared.shelf.TheConstants.{SHELF_COPIES};

use pin_book::Payload;
use std::marker::Model;
use std::sync::Arc;
use tz_types::NoMemory;

/// How many copies a full shelf has: one for each handle that a reader may have.
pub const SHELF_COPIES: usize = 8;

/// Up to eight copies. All are of one home and one source, and they fill the fields from the first on. Contracts see
/// the versions that they are copies of, the copy that is taken next first.
#[derive(Drop)]
pub struct Shelf<P: Payload> {
    first: Option<Arc<P>>,
    second: Option<Arc<P>>,
    third: Option<Arc<P>>,
    fourth: Option<Arc<P>>,
    fifth: Option<Arc<P>>,
    sixth: Option<Arc<P>>,
    seventh: Option<Arc<P>>,
    eighth: Option<Arc<P>>,
}

impl<P: Payload> Model for Shelf<P> {
    ghost use Rattle.std.specs.Prelude.{List, [], ◌∷◌};
    ghost use Rattle.pin_table.specs.Shelf.{copies_in, HaveNoGap, AreAlike};

    ghost Value = { List P };

    ghost view = { λ s. copies_in (s.first ∷ s.second ∷ s.third ∷ s.fourth ∷ s.fifth ∷ s.sixth ∷ s.seventh ∷ s.eighth ∷ []) };

    ghost invariant = { λ s. let fields = s.first ∷ s.second ∷ s.third ∷ s.fourth ∷ s.fifth ∷ s.sixth ∷ s.seventh ∷ s.eighth ∷ [] in
        HaveNoGap fields × AreAlike P.home P.source (copies_in fields) };
}

impl<P: Payload> Shelf<P> {
    /// Returns a shelf with eight copies of this version.
    pub fn full(version: &Arc<P>) -> Result<Self, NoMemory>
        ensures { IfOk result (λ shelf. shelf ≡ full_shelf (arc_value version.now)) }
    {
        Ok(Shelf {
            first: Some(Arc::try_clone(version)?),
            second: Some(Arc::try_clone(version)?),
            third: Some(Arc::try_clone(version)?),
            fourth: Some(Arc::try_clone(version)?),
            fifth: Some(Arc::try_clone(version)?),
            sixth: Some(Arc::try_clone(version)?),
            seventh: Some(Arc::try_clone(version)?),
            eighth: Some(Arc::try_clone(version)?),
        })
    }

    /// Takes a copy out, and returns it with the other copies.
    pub fn take(self) -> (Arc<P>, Self)
        requires { 0 < length self }
        ensures { self ≡ arc_value result.0 ∷ result.1 }
    {
        let Shelf {
            first,
            second,
            third,
            fourth,
            fifth,
            sixth,
            seventh,
            eighth,
        } = self;
        let Some(copy) = first else { unreachable!() };
        let rest = Shelf {
            first: second,
            second: third,
            third: fourth,
            fourth: fifth,
            fifth: sixth,
            sixth: seventh,
            seventh: eighth,
            eighth: None,
        };
        (copy, rest)
    }

    /// Puts a copy back among the others. It is of their home and source.
    pub fn put_back(self, copy: Arc<P>) -> Self
        requires room { length self < SHELF_COPIES }
        requires alike { AreOf P.home P.source (P.home (arc_value copy)) (P.source (arc_value copy)) self }
        ensures { result ≡ arc_value copy ∷ self }
    {
        let Shelf {
            first,
            second,
            third,
            fourth,
            fifth,
            sixth,
            seventh,
            eighth: _,
        } = self;
        Shelf {
            first: Some(copy),
            second: first,
            third: second,
            fourth: third,
            fifth: fourth,
            sixth: fifth,
            seventh: sixth,
            eighth: seventh,
        }
    }
}
