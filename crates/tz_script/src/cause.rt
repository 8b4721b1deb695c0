//! Why scripts are refused, by number and in words.
ghost use Rattle.std.specs.Prelude.{◌≡◌};
ghost use Rattle.tz_script.specs.Cause.{script_cause_number, script_cause_numbered, script_cause_text};

use std::fmt;

/// Why a script is refused.
#[derive(Clone, Copy, Debug, PartialEq, Eq, Hash)]
pub enum ScriptCause {
    /// The line is longer than 512 bytes with its newline, or has a byte that may stand in a comment alone.
    Line,
    /// The line is no operation, or stands before the first round.
    Op,
    /// The operands aren't those of the operation.
    Operand,
    /// A hold of this name is open.
    HoldTwice,
    /// No hold of this name is open.
    HoldUnknown,
    /// The hold isn't dropped in its round.
    HoldOpen,
    /// Seven holds of the lane are open.
    TooManyHolds,
    /// The line says no number of lanes, or names no lane.
    Lanes,
    /// There is no text of this number.
    SourceIndex,
    /// There are too many operations, rounds or changes.
    Limit,
}

const CAUSES: [ScriptCause; 10] = [
    ScriptCause::Line,
    ScriptCause::Op,
    ScriptCause::Operand,
    ScriptCause::HoldTwice,
    ScriptCause::HoldUnknown,
    ScriptCause::HoldOpen,
    ScriptCause::TooManyHolds,
    ScriptCause::Lanes,
    ScriptCause::SourceIndex,
    ScriptCause::Limit,
];

impl fmt::Display for ScriptCause {
    ghost use Rattle.std.specs.Prelude.{Some};
    ghost use Rattle.tz_script.specs.Cause.{script_cause_text};

    ghost output = { λ cause. Some (script_cause_text cause) };

    fn fmt<W: fmt::Write>(&self, f: &mut fmt::Formatter<W>) -> fmt::Result {
        f.write_str(self.text())
    }
}

impl ScriptCause {
    /// What is wrong, and behind the colon what is wanted.
    fn text(self) -> &'static str
        ensures { result.now ≡ script_cause_text self }
    {
        match self {
            ScriptCause::Line =>
                "bad line: at most 512 bytes with its newline, and outside of a comment visible ASCII and white space alone",
            ScriptCause::Op =>
                "no operation: look, hold, drop, info, local, sys, scan, clock, reload, erase or list, behind the first round",
            ScriptCause::Operand =>
                "bad operands: as many as the operation takes, each of its form; none behind round",
            ScriptCause::HoldTwice => "open hold: one is dropped before another takes its name",
            ScriptCause::HoldUnknown => "no such hold: one of that name is open in the lane",
            ScriptCause::HoldOpen => "hold left open: it is dropped in its round",
            ScriptCause::TooManyHolds => "too many holds: at most seven are open in a lane",
            ScriptCause::Lanes =>
                "no lane: the first line is lanes N, and an operation begins with the number of its lane",
            ScriptCause::SourceIndex => "no such text: a number below the number of texts",
            ScriptCause::Limit =>
                "too much: at most 65536 operations, 1024 rounds, and 4096 reloads and erasures",
        }
    }

    /// The cause of that number, if there is one.
    pub fn of_number(number: u8) -> Option<ScriptCause>
        ensures { result ≡ script_cause_numbered number }
    {
        CAUSES
            .iter()
            .copied()
            .find(|cause| cause.number() == number)
    }

    /// The number by which the cause is told.
    pub fn number(self) -> u8
        ensures { result ≡ script_cause_number self }
    {
        match self {
            ScriptCause::Line => 1,
            ScriptCause::Op => 2,
            ScriptCause::Operand => 3,
            ScriptCause::HoldTwice => 4,
            ScriptCause::HoldUnknown => 5,
            ScriptCause::HoldOpen => 6,
            ScriptCause::TooManyHolds => 7,
            ScriptCause::Lanes => 8,
            ScriptCause::SourceIndex => 9,
            ScriptCause::Limit => 10,
        }
    }
}
