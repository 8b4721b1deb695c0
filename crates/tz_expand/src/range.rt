//! Ranges of one line.
ghost use Rattle.std.specs.Prelude.{◌≡◌};
ghost use Rattle.tz_specs.specs.Expansion.{state_in, range_of};
ghost use Rattle.tz_expand.specs.Compiled.{period_of};
ghost use Rattle.tz_expand.specs.Stretch.{line_meets};

use crate::CompiledLine;
use tz_rules::{InForce, abbreviation};
use tz_types::SysInfo;

impl CompiledLine {
    /// Whether the line has an instant of the stretch.
    pub(crate) fn meets(&self, from: i64, to: i64) -> bool
        ensures { result ≡ line_meets from to self.now }
    {
        self.start < to && from < self.end
    }

    /// The range from an instant up to another, with what is in force where it begins.
    pub(crate) fn range(&self, in_force: InForce<'_>, begin: i64, end: i64) -> SysInfo
        ensures { state_in (period_of self.now) begin ≡ in_force.entry → result ≡ range_of (period_of self.now) begin end }
    {
        let offset = in_force.offset(self.stdoff);
        SysInfo {
            begin,
            end,
            offset,
            save: in_force.save(),
            abbrev: abbreviation(&self.format, &in_force, offset),
        }
    }
}
