//! Counts of what went wrong, as a caller sees them before a call and after it.
ghost use Rattle.std.specs.Prelude.{◌≡◌, ◌<◌, ◌-◌, ◌^◌, ◌↔◌, ◌⊎◌};
ghost use Rattle.tz_io.specs.Counts.{Rose};

/// A count of 64 bits rose exactly where it is greater than before, or stands at the end of its type, where it can't
/// rise any more.
pub fn rose_is_greater_or_at_the_end(before: u64, now: u64)
    ensures { Rose before now ↔ ((before < now) ⊎ (now ≡ 2 ^ 64 - 1)) }
{}
