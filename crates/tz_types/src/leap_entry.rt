//! One leap second of a table. Dates are in seconds from 1970-01-01 00:00:00.
ghost use Rattle.std.specs.Prelude.{◌≡◌};
ghost use Rattle.jiff_core.specs.Calendar.{IsWithin};
ghost use Rattle.tz_types.specs.Leap.{sign};

/// A second that is added to the UTC count right before a midnight, or skipped there.
#[derive(Clone, Copy, Debug, PartialEq, Eq, Hash)]
pub struct LeapEntry {
    /// The midnight that follows.
    pub date: i64,
    /// Whether the second is added, and not skipped.
    pub added: bool,
}

impl LeapEntry {
    /// How many seconds the entry adds: 1, or -1 where it skips one.
    pub fn sign(self) -> i64
        ensures value { result ≡ sign self.added }
        ensures bound { IsWithin 1 result }
    {
        if self.added { 1 } else { -1 }
    }
}
