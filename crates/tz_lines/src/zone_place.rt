//! The place of a zone by its name, or by that of a link.
ghost use Rattle.std.specs.Prelude.{◌≡◌, option_map, map, length, position, find, ◌<◌, IfSome, IsTrue};
ghost use Rattle.tz_types.specs.Order.{ascends, name_before};
ghost use Rattle.tz_types.specs.declared.link.Link.{Link};
ghost use Rattle.tz_types.specs.declared.zone.Zone.{Zone};
ghost use Rattle.tz_lines.specs.Locate.{is_zone_named, is_link_named, located};

use tz_types::{Db, Link, Zone};

fn zone_place(zones: &[Zone], name: &[u8]) -> Option<usize>
    requires { IsTrue (ascends name_before (map (λ (zone : Zone). zone.name) zones.now)) }
    ensures place { result ≡ position (is_zone_named name.now) zones.now }
    ensures there { IfSome result (λ place. place < length zones.now) }
{
    match zones.binary_search_by(|zone| zone.name.as_bytes().cmp(name)) {
        Ok(place) => Some(place),
        Err(_) => None,
    }
}

/// The place of the zone to which the link of that name leads, of links in the order of their names. None comes exactly where no
/// link has the name.
pub fn link_place(links: &[Link], name: &[u8]) -> Option<u32>
    requires { IsTrue (ascends name_before (map (λ (link : Link). link.name) links.now)) }
    ensures { result ≡ option_map (λ (link : Link). link.zone) (find (is_link_named name.now) links.now) }
{
    match links.binary_search_by(|link| link.name.as_bytes().cmp(name)) {
        Ok(place) => Some(links[place].zone),
        Err(_) => None,
    }
}

/// The place, in the list of zones, of the zone of that name, or else of the zone that the link of that name
/// leads to. None comes exactly where no zone and no link has the name.
pub fn locate(db: &Db, name: &[u8]) -> Option<u32>
    ensures { result ≡ located db.now name.now }
{
    match zone_place(db.zones.as_slice(), name) {
        Some(place) => Some(place as u32),
        None => link_place(db.links.as_slice(), name),
    }
}
