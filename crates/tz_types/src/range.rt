//! Ranges of a zone, and what a local time stands for (C++20, [time.zone.info]).
use crate::Abbrev;

/// One range of a zone: from `begin` up to but excluding `end`, local time is `offset` seconds ahead
/// of universal time, of which `save` are daylight saving, and is called `abbrev`.
#[derive(Debug, PartialEq, Drop)]
pub struct SysInfo {
    pub begin: i64,
    pub end: i64,
    pub offset: i64,
    pub save: i64,
    pub abbrev: Abbrev,
}

/// What a local time stands for: one range, a gap between two, or two or more ranges at once.
#[derive(Debug, PartialEq, Drop)]
pub enum LocalInfo {
    Unique(SysInfo),
    Nonexistent { first: SysInfo, second: SysInfo },
    Ambiguous { first: SysInfo, second: SysInfo },
}

/// Which instant to take of a local time that stands for two.
#[derive(Clone, Copy, Debug, PartialEq, Eq, Hash)]
pub enum Choose {
    Earliest,
    Latest,
}
