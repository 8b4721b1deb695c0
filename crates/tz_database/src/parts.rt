//! What the lines of a zone text gave, before anybody looks at the text as a whole.
ghost use Rattle.std.specs.Prelude.{◌≤◌, length, map, IsTrue};
ghost use Rattle.std.specs.List.{list_all};
ghost use Rattle.tz_types.specs.Order.{ascends, name_before};
ghost use Rattle.tz_types.specs.declared.limit.TheConstants.{MOST_SETS, MOST_ZONES, MOST_LINKS};
ghost use Rattle.tz_database.specs.Continued.{are_continued, is_named_by};

use tz_types::{Items, Label, Link, RuleSet, VersionText, Zone};

/// The version, the rule sets in the order of their names, and the zones and links in the order of their lines. A line of a
/// zone that follows a rule set gives the place of the set's name in `names`, and the set may be missing. The `zone` of a
/// link says nothing yet.
#[derive(Debug, Drop)]
pub struct Parts {
    pub version: VersionText,
    pub sets: Items<RuleSet>,
    pub names: Items<Label>,
    pub zones: Items<Zone>,
    pub links: Items<Link>,
    pub ghost sets_ascend: { IsTrue (ascends name_before (map (λ set. set.name) sets)) },
    pub ghost few_sets: { length sets ≤ MOST_SETS },
    pub ghost few_zones: { length zones ≤ MOST_ZONES },
    pub ghost few_links: { length links ≤ MOST_LINKS },
    pub ghost continued: { IsTrue (list_all (λ zone. are_continued zone.lines) zones) },
    pub ghost named: { IsTrue (list_all (λ zone. list_all (λ line. is_named_by (length names) line.rules) zone.lines) zones) },
}
