//! Why zone texts and leap texts are refused, by number and in words.
ghost use Rattle.std.specs.Prelude.{◌≡◌};
ghost use Rattle.tz_types.specs.Cause.{cause_number, cause_numbered, cause_text};

use std::fmt;

/// Why a text is refused.
#[derive(Clone, Copy, Debug, PartialEq, Eq, Hash)]
pub enum Cause {
    /// The line is longer than 2,048 bytes with its newline.
    LongLine,
    /// The line has a NUL byte.
    Nul,
    /// A quoted piece isn't closed at the line's end.
    OpenQuote,
    /// The first field names no keyword.
    Keyword,
    /// The record has another number of fields.
    FieldCount,
    /// A year isn't of its form or range, or TO names `minimum`.
    Year,
    /// TO is below FROM.
    YearOrder,
    /// The fifth field of a Rule line isn't `-`.
    Reserved,
    /// A field names no month.
    Month,
    /// A day isn't of its form or range for its month and years.
    Day,
    /// A time or a standard offset isn't of its form or range.
    Time,
    /// A save isn't of its form or range.
    Save,
    /// A name has no bytes or one that isn't visible, or a rule's name starts as an amount does.
    BadName,
    /// A format isn't of its form, or letters have a byte that isn't visible.
    Format,
    /// A format or letters have too many bytes.
    LongAbbrev,
    /// A leap second is neither added nor skipped.
    Corr,
    /// A leap second isn't told in universal time.
    Rolling,
    /// There are too many lines, records or bytes of a name.
    Limit,
    /// The last line of a zone has an UNTIL.
    NoContinuation,
    /// A line follows a rule set that has no rule.
    UnknownRule,
    /// An earlier zone or link has the name.
    DuplicateName,
    /// A link leads to no zone.
    LinkTarget,
    /// A line ends no later than it starts.
    UntilOrder,
    /// An earlier leap second has the date.
    LeapRepeat,
    /// An earlier line says when the table expires.
    ExpiresTwice,
    /// The table expires no later than a leap second.
    ExpiresEarly,
}

const CAUSES: [Cause; 26] = [
    Cause::LongLine,
    Cause::Nul,
    Cause::OpenQuote,
    Cause::Keyword,
    Cause::FieldCount,
    Cause::Year,
    Cause::YearOrder,
    Cause::Reserved,
    Cause::Month,
    Cause::Day,
    Cause::Time,
    Cause::Save,
    Cause::BadName,
    Cause::Format,
    Cause::LongAbbrev,
    Cause::Corr,
    Cause::Rolling,
    Cause::Limit,
    Cause::NoContinuation,
    Cause::UnknownRule,
    Cause::DuplicateName,
    Cause::LinkTarget,
    Cause::UntilOrder,
    Cause::LeapRepeat,
    Cause::ExpiresTwice,
    Cause::ExpiresEarly,
];

impl fmt::Display for Cause {
    ghost use Rattle.std.specs.Prelude.{Some};
    ghost use Rattle.tz_types.specs.Cause.{cause_text};

    ghost output = { λ cause. Some (cause_text cause) };

    fn fmt<W: fmt::Write>(&self, f: &mut fmt::Formatter<W>) -> fmt::Result {
        f.write_str(self.text())
    }
}

impl Cause {
    /// What is wrong, and behind the colon what is wanted.
    fn text(self) -> &'static str
        ensures { result.now ≡ cause_text self }
    {
        match self {
            Cause::LongLine => "line too long: at most 2048 bytes with its newline",
            Cause::Nul => "NUL byte: a line has none, not even in a comment",
            Cause::OpenQuote => "open quote: a quoted piece is closed in its line",
            Cause::Keyword =>
                "no keyword: Rule, Zone or Link in a zone text, Leap or Expires in a leap text",
            Cause::FieldCount =>
                "wrong number of fields: 10 in a Rule line, 5 to 9 in a Zone line, 3 to 7 in a line that continues it, 3 in a Link line, 7 in a Leap line, 5 in an Expires line",
            Cause::Year => "bad year: digits and in range, or in a Rule line maximum or only as TO",
            Cause::YearOrder => "years in wrong order: TO is not below FROM",
            Cause::Reserved => "bad fifth field of a Rule line: it is -",
            Cause::Month => "bad month: a name, as Jan or January",
            Cause::Day => "bad day: one that the month has, as 31, lastSun, Sun>=8 or Sun<=25",
            Cause::Time =>
                "bad time or offset: as 2, 2:30 or -4:56:02, in range, in AT and TIME with w, s, u, g or z behind it; in a leap text 23:59:60 with +, 23:59:59 with -, or HH:MM:SS",
            Cause::Save =>
                "bad save: -, an amount as 1:00 in range, with s or d behind it, or the name of a rule set",
            Cause::BadName =>
                "bad name: visible ASCII, at least one byte, and no digit or sign at the start of a rule's name",
            Cause::Format =>
                "bad format or letters: visible ASCII, and in a format %s or %z once, or a / between two parts",
            Cause::LongAbbrev => "format or letters too long: at most 24 and 8 bytes",
            Cause::Corr => "bad correction: + or -",
            Cause::Rolling => "bad seventh field of a Leap line: it is Stationary",
            Cause::Limit =>
                "too much: a limit on lines, on records of one kind or on the bytes of a name is passed",
            Cause::NoContinuation => "no continuation: the last line of a zone has no UNTIL",
            Cause::UnknownRule => "unknown rule set: some Rule line has the name in RULES",
            Cause::DuplicateName => "repeated name: no two zones or links have one name",
            Cause::LinkTarget => "link to no zone: the targets of a link lead to a zone",
            Cause::UntilOrder => "UNTIL too early: a line ends later than it starts",
            Cause::LeapRepeat => "repeated date: no two leap seconds have one date",
            Cause::ExpiresTwice => "second Expires line: a leap text has at most one",
            Cause::ExpiresEarly => "Expires too early: it is later than every leap second",
        }
    }

    /// The cause of that number, if there is one.
    pub fn of_number(number: u8) -> Option<Cause>
        ensures { result ≡ cause_numbered number }
    {
        CAUSES
            .iter()
            .copied()
            .find(|cause| cause.number() == number)
    }

    /// The number by which the cause is told.
    pub fn number(self) -> u8
        ensures { result ≡ cause_number self }
    {
        match self {
            Cause::LongLine => 1,
            Cause::Nul => 2,
            Cause::OpenQuote => 3,
            Cause::Keyword => 4,
            Cause::FieldCount => 5,
            Cause::Year => 6,
            Cause::YearOrder => 7,
            Cause::Reserved => 8,
            Cause::Month => 9,
            Cause::Day => 10,
            Cause::Time => 11,
            Cause::Save => 12,
            Cause::BadName => 13,
            Cause::Format => 14,
            Cause::LongAbbrev => 15,
            Cause::Corr => 16,
            Cause::Rolling => 17,
            Cause::Limit => 18,
            Cause::NoContinuation => 19,
            Cause::UnknownRule => 20,
            Cause::DuplicateName => 21,
            Cause::LinkTarget => 22,
            Cause::UntilOrder => 23,
            Cause::LeapRepeat => 24,
            Cause::ExpiresTwice => 25,
            Cause::ExpiresEarly => 26,
        }
    }
}
