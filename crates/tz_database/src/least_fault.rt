//! The least of the faults that are told one after another.
ghost use Rattle.std.specs.Prelude.{◌≡◌, None};
ghost use Rattle.std.specs.Option.{option_to_list};
ghost use Rattle.tz_specs.specs.Causes.{fault_at};
ghost use Rattle.tz_specs.specs.Whole.{fault_where, is_told_before};
ghost use Rattle.tz_database.specs.LeastFault.{lesser, told_with};

use tz_types::{Cause, LineFault};

/// The fault at the least line so far, with the least cause there.
#[derive(Clone, Copy, Debug)]
pub struct LeastFault {
    pub least: Option<LineFault>,
}

/// Whether the one stands at an earlier line, or at the same with a cause that isn't greater.
fn is_told_before(fault: LineFault, other: LineFault) -> bool
    ensures { result ≡ is_told_before fault other }
{
    fault.line < other.line || (fault.line == other.line && fault.cause <= other.cause)
}

impl LeastFault {
    /// Before any fault.
    pub fn new() -> Self
        ensures { result.least ≡ None }
    {
        LeastFault { least: None }
    }

    /// Tells a fault.
    pub fn tell(&mut self, line: u32, cause: Cause)
        ensures { self.new.least ≡ lesser self.old.least (fault_at line cause) }
    {
        let fault = LineFault {
            line,
            cause: cause.number(),
        };
        self.least = match self.least {
            Some(least) if is_told_before(least, fault) => Some(least),
            _ => Some(fault),
        };
    }

    /// Tells a fault where the line has it.
    pub fn tell_where(&mut self, holds: bool, line: u32, cause: Cause)
        ensures { self.new.least ≡ told_with self.old.least (option_to_list (fault_where holds line cause)) }
    {
        if holds {
            self.tell(line, cause);
        }
    }
}
