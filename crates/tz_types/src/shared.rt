//! Values that several owners share.
ghost use Rattle.std.specs.Prelude.{◌≡◌, IfOk};

use crate::NoMemory;
use std::alloc::Global;
use std::marker::Model;
use std::sync::Arc;

/// An `Arc` that contracts see as the value that it shares.
#[derive(Debug, Drop)]
pub struct Shared<T> {
    arc: Arc<T>,
}

impl<T> Model for Shared<T> {
    ghost Value = { T };

    ghost coded = { T.code };

    ghost view = { λ s. s.arc.value };
}

impl<T> Shared<T> {
    pub fn from_arc(arc: Arc<T>) -> Self
        ensures { result ≡ arc.value }
    {
        Shared { arc }
    }

    pub fn get(&self) -> &T
        ensures { result.now ≡ self.now }
    {
        &self.arc
    }
}

impl<T: Drop> Shared<T> {
    /// The same value, shared once more and not copied.
    pub fn share(&self) -> Result<Self, NoMemory>
        ensures { IfOk result (λ again. again ≡ self.now) }
    {
        let arc = self.arc.clone()?;
        Ok(Shared { arc })
    }
}

impl<T: PartialEq> PartialEq for Shared<T> {
    ghost eq = { T.eq };

    ghost laws = { T.laws };

    fn eq(&self, other: &Self) -> bool {
        *self.arc == *other.arc
    }
}
