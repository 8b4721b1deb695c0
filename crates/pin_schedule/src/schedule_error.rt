//! Why a schedule wasn't run to its end.
ghost use Rattle.std.specs.Prelude.{◌≡◌};
ghost use Rattle.pin_schedule.specs.declared.schedule_error.ScheduleError.TheVariants as errors;

use std::error::Error;
use std::fmt;
use tz_types::NoMemory;

/// Why a schedule wasn't run to its end: want of memory, or the first event that isn't allowed, counted from 0.
#[derive(Clone, Copy, Debug, PartialEq, Eq, Hash)]
pub enum ScheduleError {
    NoMemory,
    NotAllowed { index: u32 },
}

impl fmt::Display for ScheduleError {
    ghost use Rattle.std.specs.Prelude.{Some};
    ghost use Rattle.pin_schedule.specs.Messages.{schedule_error_text};

    ghost output = { λ error. Some (schedule_error_text error) };

    fn fmt<W: fmt::Write>(&self, f: &mut fmt::Formatter<W>) -> fmt::Result {
        match self {
            ScheduleError::NoMemory => f.write_str("memory ran out"),
            ScheduleError::NotAllowed { index } => {
                let index = *index;
                write!(f, "event {index} isn't allowed")
            }
        }
    }
}

impl Error for ScheduleError {}

impl From<NoMemory> for ScheduleError {
    ghost from_gives = { λ _ e. e ≡ errors.NoMemory };

    fn from(_: NoMemory) -> Self {
        ScheduleError::NoMemory
    }
}
