//! The holds that are open in a round. A lane has at most seven, so that an operation looks at few, however long the
//! script is.
ghost use Rattle.std.specs.Prelude.{◌≡◌, ◌==◌, ◌∷◌, ◌++◌, [], count_by, OnOk};
ghost use Rattle.tz_script.specs.Holds.{is_hold, is_open, is_full, without_hold, longest_open_line, holds_after};

use crate::hold_name::HoldName;
use crate::limit::MOST_HOLDS;
use crate::operation::Op;
use crate::words::is_exactly;
use tz_types::NoMemory;

/// A hold that is open: its lane, its name, and the line where it began.
#[derive(Debug, PartialEq, Drop)]
pub struct OpenHold {
    pub lane: u32,
    pub name: HoldName,
    pub line: u32,
}

impl OpenHold {
    /// Whether it is the hold of that lane by that name.
    fn is(&self, lane: u32, name: &[u8]) -> bool
        ensures { result ≡ is_hold lane name.now self.now }
    {
        self.lane == lane && is_exactly(self.name.as_bytes(), name)
    }
}

/// Whether the lane has a hold of that name open.
pub fn is_open(holds: &[OpenHold], lane: u32, name: &[u8]) -> bool
    ensures { result ≡ is_open lane name.now holds.now }
{
    holds.iter().any(|hold| hold.is(lane, name))
}

/// Whether the lane has seven holds open.
pub fn is_full(holds: &[OpenHold], lane: u32) -> bool
    ensures { result ≡ is_full lane holds.now }
{
    count(holds, lane) >= MOST_HOLDS
}

/// How many holds of the lane are open.
fn count(holds: &[OpenHold], lane: u32) -> usize
    ensures { result ≡ count_by (λ hold. hold.lane == lane) holds.now }
{
    holds.iter().filter(|hold| hold.lane == lane).count()
}

/// Begins a hold.
fn begin(holds: &mut Vec<OpenHold>, lane: u32, name: &HoldName, line: u32) -> Result<(), NoMemory>
    ensures { OnOk result (holds.new.items ≡ holds.old.items ++ record { lane = lane; name = name.now; line = line } ∷ []) }
{
    holds.push(OpenHold {
        lane,
        name: name.copied(),
        line,
    })?;
    Ok(())
}

/// Lets a hold go.
fn end(holds: &mut Vec<OpenHold>, lane: u32, name: &[u8])
    ensures { holds.new.items ≡ without_hold lane name.now holds.old.items }
{
    holds.retain(|hold| !hold.is(lane, name));
}

/// The line of the hold that has been open longest.
pub fn longest_open_line(holds: &[OpenHold]) -> Option<u32>
    ensures { result ≡ longest_open_line holds.now }
{
    match holds.first() {
        Some(hold) => Some(hold.line),
        None => None,
    }
}

/// Begins the hold, or lets the one go, that an operation says.
pub fn change(holds: &mut Vec<OpenHold>, line: u32, lane: u32, op: &Op) -> Result<(), NoMemory>
    ensures { OnOk result (holds.new.items ≡ holds_after line lane op.now holds.old.items) }
{
    match op {
        Op::Hold(name) => begin(holds, lane, name, line),
        Op::Drop(name) => {
            end(holds, lane, name.as_bytes());
            Ok(())
        }
        _ => Ok(()),
    }
}
