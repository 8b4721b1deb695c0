//! A handle: a version that a reader has pinned.
ghost use Rattle.std.specs.Prelude.{◌≡◌};

use pin_book::Payload;
use std::marker::Model;
use std::sync::Arc;

/// A version that a reader has pinned. Its slot keeps the version until the reader releases the handle, which alone can
/// spend it.
pub struct Pinned<P: Payload> {
    pub(crate) version: Arc<P>,
    pub(crate) number: u32,
    pub(crate) slot: u32,
    pub(crate) position: u32,
    pub(crate) reader: u32,
}

impl<P: Payload> Model for Pinned<P> {
    ghost use Rattle.std.specs.Arc.{arc_value};
    ghost use Rattle.pin_table.specs.Handles.{Handle};

    ghost Value = { Handle P };

    ghost view = { λ h. record { version = arc_value h.version; number = h.number; slot = h.slot; position = h.position; reader = h.reader } };
}

impl<P: Payload> Pinned<P> {
    /// Returns the version. It stays for as long as the handle does.
    pub fn version(&self) -> &P
        ensures { result.now ≡ self.now.version }
    {
        &self.version
    }

    /// Returns the version's number.
    pub fn number(&self) -> u32
        ensures { result ≡ self.now.number }
    {
        self.number
    }

    /// Returns the slot that keeps the version.
    pub fn slot(&self) -> u32
        ensures { result ≡ self.now.slot }
    {
        self.slot
    }

    /// Returns the position after which the version was the front: the number of writes.
    pub fn position(&self) -> u32
        ensures { result ≡ self.now.position }
    {
        self.position
    }

    /// Returns the number of the reader that made the handle.
    pub fn reader(&self) -> u32
        ensures { result ≡ self.now.reader }
    {
        self.reader
    }
}
