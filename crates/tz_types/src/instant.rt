//! The ends of time, in seconds from 1970-01-01 00:00:00.
/// -9999-01-01 00:00:00, at which time begins here: seconds from 1970-01-01 00:00:00.
pub const FIRST_INSTANT: i64 = -377_705_116_800;

/// 10000-01-01 00:00:00, before which time ends here.
pub const END_OF_TIME: i64 = 253_402_300_800;
