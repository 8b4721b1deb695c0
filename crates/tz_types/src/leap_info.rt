//! What there is to know of a second of the UTC count, after ISO C++20 [time.clock.utc], `leap_second_info`.

/// Whether a UTC count is an inserted second, how many seconds were added up to it, itself among them, less those that were
/// skipped, and whether the table isn't known to hold there.
#[derive(Clone, Copy, Debug, PartialEq, Eq, Hash)]
pub struct LeapInfo {
    pub is_leap: bool,
    pub elapsed: i64,
    pub expired: bool,
}
