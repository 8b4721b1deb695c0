//! What the lines of a leap text have given so far. Dates and moments are in seconds from 1970-01-01 00:00:00.
ghost use Rattle.std.specs.Prelude.{◌≡◌, Some, OnOk};
ghost use Rattle.tz_specs.specs.LeapText.{no_leap_contents, with_leap_record};
ghost use Rattle.tz_records.specs.LeapRecord.{record_meant};
ghost use Rattle.tz_lines.specs.LeapContents.{contents_meant};

use std::alloc::Global;
use tz_records::LeapRecord;
use tz_types::NoMemory;

/// A leap second, and the line where it stands. They are ordered by their dates, and those of one date by their lines.
#[derive(Clone, Copy, Debug, PartialEq, Eq, PartialOrd, Ord)]
pub struct WrittenLeap {
    pub date: i64,
    pub line: u32,
    pub added: bool,
}

/// The moment from which the table isn't known to hold, and the line where it stands.
#[derive(Clone, Copy, Debug, PartialEq, Eq)]
pub struct WrittenExpiry {
    pub moment: i64,
    pub line: u32,
}

/// The leap seconds and the expiries, in the order of their lines.
#[derive(Drop)]
pub struct LeapContents {
    pub leaps: Vec<WrittenLeap>,
    pub expiries: Vec<WrittenExpiry>,
}

impl LeapContents {
    /// Before any line.
    pub fn new(alloc: Global) -> Self
        ensures { contents_meant result ≡ no_leap_contents }
    {
        LeapContents {
            leaps: Vec::new(alloc),
            expiries: Vec::new(alloc),
        }
    }

    /// Adds what a line says. After `NoMemory` the text can't be read on.
    pub fn add(&mut self, line: u32, said: LeapRecord) -> Result<(), NoMemory>
        ensures { OnOk result (contents_meant self.new ≡ with_leap_record line (Some (record_meant said)) (contents_meant self.old)) }
    {
        match said {
            LeapRecord::Second(entry) => self.leaps.push(WrittenLeap {
                date: entry.date,
                line,
                added: entry.added,
            })?,
            LeapRecord::Expiry(moment) => self.expiries.push(WrittenExpiry { moment, line })?,
        }
        Ok(())
    }
}
