//! Why a command has no text: its status, and the line that tells it.
ghost use Rattle.std.specs.Prelude.{◌≡◌, IfOk};
ghost use Rattle.tz_cli.specs.Refusal.{refusal_status, refusal_line};

use crate::line::fault_line;
use std::alloc::Global;
use tz_types::{Fault, LineFault, NoMemory};
use tz_words::Status;

/// Why a command has no text.
#[derive(Clone, Copy, Debug, PartialEq, Eq)]
pub enum Refusal {
    Read,
    TooLarge,
    /// The text is refused.
    Text(Fault),
    /// The leap text is refused.
    Leaps(Fault),
    /// The script is refused.
    Script(LineFault),
    NoZone,
    Range,
    /// A file would have more types than can be numbered.
    Types,
    /// A designation of a file would begin further on than an index tells.
    Designations,
    Memory,
}

impl Refusal {
    /// The status with which the command ends.
    pub fn status(self) -> Status
        ensures { result ≡ refusal_status self }
    {
        match self {
            Refusal::Read => Status::Read,
            Refusal::TooLarge => Status::TooLarge,
            Refusal::Text(_) | Refusal::Leaps(_) => Status::Text,
            Refusal::Script(_) => Status::Script,
            Refusal::NoZone => Status::NoZone,
            Refusal::Range => Status::Range,
            Refusal::Types => Status::Types,
            Refusal::Designations => Status::Designations,
            Refusal::Memory => Status::Memory,
        }
    }

    /// The line that the command prints.
    pub fn line(self, alloc: Global) -> Result<Vec<u8>, NoMemory>
        ensures { IfOk result (λ line. line.items ≡ refusal_line self) }
    {
        let word = match self {
            Refusal::Text(fault) => return fault_line(alloc, b"text", fault),
            Refusal::Leaps(fault) => return fault_line(alloc, b"leaps", fault),
            // A script has one file, so no number of a file is told.
            Refusal::Script(fault) => return fault_line(alloc, b"script", fault.in_file(0)),
            Refusal::Read => b"read\n".as_slice(),
            Refusal::TooLarge => b"toolarge\n".as_slice(),
            Refusal::NoZone => b"nozone\n".as_slice(),
            Refusal::Range => b"range\n".as_slice(),
            Refusal::Types => b"types\n".as_slice(),
            Refusal::Designations => b"designations\n".as_slice(),
            Refusal::Memory => b"memory\n".as_slice(),
        };
        Ok(word.to_vec(alloc)?)
    }
}
