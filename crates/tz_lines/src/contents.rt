//! What the lines read so far have given.
ghost use Rattle.std.specs.Prelude.{◌≤◌, length, IsTrue};
ghost use Rattle.std.specs.List.{list_all};
ghost use Rattle.tz_types.specs.declared.limit.TheConstants.{MOST_ZONES, MOST_LINKS};
ghost use Rattle.tz_database.specs.Continued.{are_continued, is_named_by};

use crate::rule_sets::RuleSets;
use crate::set_names::SetNames;
use tz_types::{Items, Link, Zone};

/// What the lines of a text have given so far: rule sets, zones and links in the order of their lines, and whether a zone was
/// begun in the file that is read. A line of a zone that follows a rule set gives the place of the set's name among the names.
#[derive(Debug, Drop)]
pub struct Gathered {
    pub sets: RuleSets,
    pub names: SetNames,
    pub zones: Items<Zone>,
    pub links: Items<Link>,
    pub begun: bool,
    pub ghost few_zones: { length zones ≤ MOST_ZONES },
    pub ghost few_links: { length links ≤ MOST_LINKS },
    pub ghost continued: { IsTrue (list_all (λ zone. are_continued zone.lines) zones) },
    pub ghost named: { IsTrue (list_all (λ zone. list_all (λ line. is_named_by (length names.labels.items) line.rules) zone.lines) zones) },
}
