//! What is passed before each operation.
use std::sync::Wait;
use tz_list::ListReader;

/// What a lane passes before each of its operations. It may hold the lane back, and tells nothing.
pub trait Gate: Sync {
    /// Lets the lane pass, which is numbered from 1, with the operation at a line of the script. The reader is the one that
    /// does the operation.
    fn pass(&self, rt: &impl Wait, reader: &ListReader<'_>, lane: u32, line: u32);
}

/// Lets everyone pass at once.
#[derive(Clone, Copy, Debug)]
pub struct OpenGate;

impl Gate for OpenGate {
    fn pass(&self, _rt: &impl Wait, _reader: &ListReader<'_>, _lane: u32, _line: u32) {}
}
