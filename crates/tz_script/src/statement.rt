//! What a line of a script says.
use crate::operation::Op;

/// What a line says that isn't blank.
#[derive(Debug, Drop)]
pub enum Statement {
    /// How many lanes there are.
    Lanes(u32),
    /// A round begins.
    Round,
    /// A lane does an operation.
    Operation { lane: u32, op: Op },
}
