//! What a source says as a whole (C++20, [time.zone.db.tzdb]).
ghost use Rattle.std.specs.Prelude.{◌≤◌, length, map, IsTrue};
ghost use Rattle.tz_types.specs.Order.{ascends, name_before};
ghost use Rattle.tz_types.specs.declared.limit.TheConstants.{MOST_SETS, MOST_ZONES, MOST_LINKS};

use crate::{Items, Link, RuleSet, Shared, VersionText, Zone};

/// What a text says: its version, and its rule sets, zones and links, each in the order of their names.
#[derive(Debug, PartialEq, Drop)]
pub struct Db {
    pub version: VersionText,
    pub sets: Items<Shared<RuleSet>>,
    pub zones: Items<Zone>,
    pub links: Items<Link>,
    pub ghost sets_ascend: { IsTrue (ascends name_before (map (λ set. set.name) sets)) },
    pub ghost zones_ascend: { IsTrue (ascends name_before (map (λ zone. zone.name) zones)) },
    pub ghost links_ascend: { IsTrue (ascends name_before (map (λ link. link.name) links)) },
    pub ghost few_sets: { length sets ≤ MOST_SETS },
    pub ghost few_zones: { length zones ≤ MOST_ZONES },
    pub ghost few_links: { length links ≤ MOST_LINKS },
}
