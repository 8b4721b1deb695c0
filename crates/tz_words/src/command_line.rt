//! What the words of a command line stand for.
use crate::text_word::TextWord;
use tz_lookup::{Choice, Conversion};

/// A command, with what its words name.
#[derive(Clone, Copy)]
pub enum CommandLine<'w> {
    Info {
        text: TextWord<'w>,
        zone: &'w str,
        instant: i64,
    },
    Local {
        text: TextWord<'w>,
        zone: &'w str,
        time: i64,
        choice: Choice,
    },
    Moves {
        text: TextWord<'w>,
        zone: &'w str,
        from: i64,
        to: i64,
    },
    Days {
        text: TextWord<'w>,
        zone: &'w str,
        first: i64,
        count: u32,
    },
    Tzif {
        text: TextWord<'w>,
        zone: &'w str,
        first: i32,
        last: i32,
    },
    Dump {
        text: TextWord<'w>,
        from: i64,
        to: i64,
        zone: &'w str,
    },
    Check {
        text: TextWord<'w>,
    },
    Clock {
        leaps: &'w str,
        conversion: Conversion,
        number: i64,
    },
}
