//! How much a script may have.

/// How many bytes a line may have, with its newline.
pub const LONGEST_LINE: usize = 512;

/// How many bytes the name of a hold may have.
pub const LONGEST_HOLD_NAME: usize = 16;

/// How many lanes a script may have.
pub const MOST_LANES: u32 = 16;

/// How many rounds a script may have.
pub const MOST_ROUNDS: u32 = 1_024;

/// How many operations a script may have.
pub const MOST_OPERATIONS: usize = 65_536;

/// How many of its operations may be reloads and erasures.
pub const MOST_CHANGES: u32 = 4_096;

/// How many holds a lane may have open at once.
pub const MOST_HOLDS: usize = 7;

/// The number of the last text to reload that an operation may name; the texts are numbered from 0.
pub const LAST_SOURCE: u32 = 63;

/// How many seconds the instants of a scan may be apart.
pub const LONGEST_STEP: u32 = 4_294_967_295;

/// How many instants a scan may have.
pub const MOST_SCANNED: u32 = 65_536;
