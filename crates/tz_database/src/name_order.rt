//! Zones and links in the order of their names.
ghost use Rattle.std.specs.Prelude.{◌≡◌, ◌≢◌, map, IsTrue};
ghost use Rattle.std.specs.List.{AllPairs};
ghost use Rattle.std.specs.List.Sorted.{IsPermutation};
ghost use Rattle.tz_types.specs.Order.{ascends, name_before};
ghost use Rattle.tz_types.specs.declared.zone.Zone.{Zone as DeclaredZone};
ghost use Rattle.tz_types.specs.declared.link.Link.{Link as DeclaredLink};

use tz_types::{Link, Zone};

/// Puts zones, whose names differ, in the order of their names.
pub fn sort_zones(zones: &mut Vec<Zone>)
    requires { AllPairs ◌≢◌ (map (λ (zone : DeclaredZone). zone.name) zones.old.items) }
    ensures same { IsPermutation zones.old.items zones.new.items }
    ensures ascend { IsTrue (ascends name_before (map (λ (zone : DeclaredZone). zone.name) zones.new.items)) }
{
    zones.sort_unstable_by(|zone, other| zone.name.as_bytes().cmp(other.name.as_bytes()));
}

/// Puts links, whose names differ, in the order of their names.
pub fn sort_links(links: &mut Vec<Link>)
    requires { AllPairs ◌≢◌ (map (λ (link : DeclaredLink). link.name) links.old.items) }
    ensures same { IsPermutation links.old.items links.new.items }
    ensures ascend { IsTrue (ascends name_before (map (λ (link : DeclaredLink). link.name) links.new.items)) }
{
    links.sort_unstable_by(|link, other| link.name.as_bytes().cmp(other.name.as_bytes()));
}
