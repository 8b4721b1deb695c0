//! What is known of a local time while the ranges of a zone are looked at, one after another.
ghost use Rattle.std.specs.Prelude.{◌≡◌, false, ℤ, List, [], ◌∷◌, ◌++◌, IsTrue};
ghost use Rattle.jiff_core.specs.Calendar.{IsWithin};
ghost use Rattle.tz_types.specs.declared.limit.TheConstants.{LONGEST_OFFSET};
ghost use Rattle.tz_types.specs.declared.range.SysInfo.{SysInfo};
ghost use Rattle.tz_specs.specs.Local.{candidates, shows_local, begins_by};
ghost use Rattle.tz_local.specs.LocalTime.{IsLocalTime};
ghost use Rattle.tz_local.specs.Findings.{AreFindings};

use crate::range::{has_begun, is_shown};
use tz_types::{LocalInfo, SysInfo};

/// What the ranges seen so far tell of a local time.
#[derive(Debug, Drop)]
pub enum Findings {
    /// None shows it, and the last of them had begun, on its own clock, before it.
    Begun(SysInfo),
    /// The local info if there were no more ranges.
    Told(LocalInfo),
}

impl Findings {
    /// With a first range that has begun, where those before it are too early to show the local time.
    pub fn from_first(range: SysInfo, l: i64) -> Self
        requires inside { IsLocalTime l }
        requires near { IsWithin LONGEST_OFFSET range.offset }
        requires begun { IsTrue (begins_by l range) }
        ensures { (before : List SysInfo) → candidates before l ≡ [] → AreFindings (before ++ range ∷ []) l result }
    {
        if is_shown(&range, l) {
            Findings::Told(LocalInfo::Unique(range))
        } else {
            Findings::Begun(range)
        }
    }

    /// With the next range.
    pub fn and(self, range: SysInfo, l: i64) -> Self
        requires inside { IsLocalTime l }
        requires near { IsWithin LONGEST_OFFSET range.offset }
        ensures { (seen : List SysInfo) → AreFindings seen l self → AreFindings (seen ++ range ∷ []) l result }
    {
        if is_shown(&range, l) {
            return self.and_candidate(range);
        }
        if has_begun(&range, l) {
            self.and_begun(range)
        } else {
            self.and_later(range)
        }
    }

    /// With a range that shows the local time.
    fn and_candidate(self, range: SysInfo) -> Self
        ensures { (seen : List SysInfo) (l : ℤ) → IsTrue (shows_local l range) → AreFindings seen l self → AreFindings (seen ++ range ∷ []) l result }
    {
        match self {
            Findings::Begun(_) => Findings::Told(LocalInfo::Unique(range)),
            Findings::Told(LocalInfo::Nonexistent { .. }) => {
                Findings::Told(LocalInfo::Unique(range))
            }
            Findings::Told(LocalInfo::Unique(first)) => Findings::Told(LocalInfo::Ambiguous {
                first,
                second: range,
            }),
            Findings::Told(LocalInfo::Ambiguous { first, .. }) => {
                Findings::Told(LocalInfo::Ambiguous {
                    first,
                    second: range,
                })
            }
        }
    }

    /// With a range that has begun, on its own clock, but doesn't show the local time.
    fn and_begun(self, range: SysInfo) -> Self
        ensures { (seen : List SysInfo) (l : ℤ) → shows_local l range ≡ false → IsTrue (begins_by l range) → AreFindings seen l self → AreFindings (seen ++ range ∷ []) l result }
    {
        match self {
            Findings::Begun(_) => Findings::Begun(range),
            Findings::Told(LocalInfo::Nonexistent { .. }) => Findings::Begun(range),
            Findings::Told(LocalInfo::Unique(only)) => Findings::Told(LocalInfo::Unique(only)),
            Findings::Told(LocalInfo::Ambiguous { first, second }) => {
                Findings::Told(LocalInfo::Ambiguous { first, second })
            }
        }
    }

    /// With a range that has not begun, on its own clock, by the local time.
    fn and_later(self, range: SysInfo) -> Self
        ensures { (seen : List SysInfo) (l : ℤ) → shows_local l range ≡ false → begins_by l range ≡ false → AreFindings seen l self → AreFindings (seen ++ range ∷ []) l result }
    {
        match self {
            Findings::Begun(first) => Findings::Told(LocalInfo::Nonexistent {
                first,
                second: range,
            }),
            Findings::Told(info) => Findings::Told(info),
        }
    }
}
