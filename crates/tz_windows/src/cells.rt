//! Where the windows of a zone are kept.
//!
//! The cells stay empty so far, and each answer is worked out anew. The first body that fills them ends that.
ghost use Rattle.std.specs.Prelude.{◌≡◌, None, length, replicate, IfOk};
ghost use Rattle.tz_windows.specs.Window.{windows_of_a_zone};

use std::alloc::Global;
use tz_types::{Items, NoMemory, SysInfo};

/// How many windows a zone has: from -9999-01-01 to 10000-01-01 in stretches of 64 mean Gregorian years.
pub const WINDOWS: usize = 313;

/// The ranges of a zone that have an instant of one window, in the order of time.
#[derive(Debug, Drop)]
struct Window {
    ranges: Items<SysInfo>,
}

/// One cell for each window of a zone.
#[derive(Debug, Drop)]
pub struct Cells {
    windows: Items<Option<Window>>,
    ghost one_each: { length windows ≡ windows_of_a_zone },
}

impl Cells {
    /// Empty cells.
    pub fn new(alloc: Global) -> Result<Self, NoMemory>
        ensures { IfOk result (λ cells. cells.windows ≡ replicate windows_of_a_zone None) }
    {
        let mut windows = Vec::with_capacity(alloc, WINDOWS)?;
        for _ in 0..WINDOWS {
            windows.push(None)?;
        }
        Ok(Cells {
            windows: Items::from_vec(windows),
        })
    }
}
