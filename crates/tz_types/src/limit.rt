//! How much a source and a leap text may have.

/// The most files of a source.
pub const MOST_FILES: usize = 16;

/// The most bytes of the files of a source together, and of a leap text or a script.
pub const MOST_BYTES: usize = 4_194_304;

/// The most lines of the files of a source together, and of a leap text.
pub const MOST_TEXT_LINES: u32 = 100_000;

/// The most bytes of a line, with its newline.
pub const LONGEST_LINE: usize = 2_048;

/// The most bytes of the name of a zone, a link or a rule set.
pub const LONGEST_NAME: usize = 255;

/// The most bytes of a version.
pub const LONGEST_VERSION: usize = 64;

/// The most bytes of a format, as its line writes it.
pub const LONGEST_FORMAT: usize = 24;

/// The most bytes of the letters that a rule puts in place of `%s`.
pub const LONGEST_LETTERS: usize = 8;

/// The most bytes of an abbreviation: a format with letters or an offset put in.
pub const LONGEST_ABBREVIATION: usize = 32;

/// The greatest year that a text may write, with either sign.
pub const LAST_WRITTEN_YEAR: u32 = 999_999_999;

/// The last year in which a rule may occur or a line may end; the first is as many years before the year 0.
pub const LAST_RULE_YEAR: u32 = 9_998;

/// The most seconds of a time of day, with either sign: 999 hours, 59 minutes and 60.99.. seconds, rounded.
pub const LONGEST_TIME: u32 = 3_600_001;

/// The most seconds of a standard offset or a save, with either sign: a day.
pub const LONGEST_SHIFT: u32 = 86_400;

/// The most seconds that a zone's clock is ahead of universal time, or behind it: a standard offset and a save.
pub const LONGEST_OFFSET: u32 = 2 * LONGEST_SHIFT;

/// The most rule sets of a source.
pub const MOST_SETS: usize = 1_024;

/// The most rules of one set.
pub const MOST_RULES: usize = 512;

/// The most zones of a source.
pub const MOST_ZONES: usize = 1_024;

/// The most lines of one zone.
pub const MOST_ZONE_LINES: usize = 255;

/// The most links of a source.
pub const MOST_LINKS: usize = 4_096;

/// The most leap seconds of a table.
pub const MOST_LEAPS: usize = 1_024;
