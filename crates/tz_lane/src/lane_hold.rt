//! A version that a lane holds by a name.

use tz_list::ListHandle;
use tz_script::HoldName;

/// A hold that is open: its name, the line of the script where it began, and the handle on its version.
pub struct LaneHold {
    pub name: HoldName,
    pub line: u32,
    pub handle: ListHandle,
}
