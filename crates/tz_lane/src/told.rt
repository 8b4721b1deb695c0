//! What an operation of a lane is told.

use tz_batch::Answer;

/// An answer, and the position that it tells of.
#[derive(Debug, PartialEq, Drop)]
pub struct Told {
    pub w: u32,
    pub answer: Answer,
}
