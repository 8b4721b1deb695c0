//! A schedule is run, event by event.
ghost use Rattle.std.specs.Prelude.{◌≡◌, ℕ, ◌<◌, ◌≤◌, ◌⊎◌, length, IfOk, OnOk, IsErrOf};
ghost use Rattle.pin_core.specs.Lawful.{Lawful};
ghost use Rattle.pin_core.specs.Step.{opening_with_readers};
ghost use Rattle.pin_book.specs.declared.limits.TheConstants.{FEWEST_SLOTS, MOST_SLOTS, MOST_WRITES, READER_NUMBERS};
ghost use Rattle.pin_schedule.specs.declared.limits.TheConstants.{MOST_EVENTS};
ghost use Rattle.pin_schedule.specs.declared.schedule_error.ScheduleError.TheVariants as errors;
ghost use Rattle.pin_schedule.specs.Answer.{core_of};
ghost use Rattle.pin_schedule.specs.Schedule.{after_events, AreAllowed, IsFirstRefused};

use crate::answer::Core;
use crate::course::Course;
use crate::event::Event;
use crate::schedule_error::ScheduleError;
use std::alloc::Global;

/// Runs the events one after another on a list of so many slots, with so many readers. All readers are out from the
/// start, and each may make `room` writes. The answer is the core that the events' steps give. `NotAllowed` comes, want
/// of memory aside, exactly where some event isn't allowed, and names the first.
pub fn run_schedule(
    alloc: Global,
    slots: u32,
    readers: u32,
    room: u32,
    events: &[Event],
) -> Result<Core, ScheduleError>
    requires slots { (FEWEST_SLOTS ≤ slots) × (slots ≤ MOST_SLOTS) }
    requires readers { (1 ≤ readers) × (readers ≤ READER_NUMBERS) }
    requires room { (1 ≤ room) × (room ≤ MOST_WRITES) }
    requires events { length events.now < MOST_EVENTS }
    ensures core { IfOk result (λ core. core ≡ core_of (after_events (opening_with_readers slots readers room) events.now)) }
    ensures allowed { OnOk result (AreAllowed (opening_with_readers slots readers room) events.now) }
    ensures lawful { OnOk result (Lawful (after_events (opening_with_readers slots readers room) events.now)) }
    ensures refused { (index : ℕ) → IsErrOf result (errors.NotAllowed index) → IsFirstRefused (opening_with_readers slots readers room) events.now index }
    ensures found { (index : ℕ) → IsFirstRefused (opening_with_readers slots readers room) events.now index → IsErrOf result (errors.NotAllowed index) ⊎ IsErrOf result errors.NoMemory }
{
    let mut course = Course::new(alloc, slots, readers, room)?;
    for (index, event) in events.iter().enumerate() {
        if !course.allows(*event) {
            return Err(ScheduleError::NotAllowed {
                index: index as u32,
            });
        }
        course.make(*event)?;
    }
    Ok(course.into_core())
}
