//! Zones of a version by name, as `locate` finds those of a database.
ghost use Rattle.std.specs.Prelude.{◌≡◌, map, length, position, ◌<◌, IfSome, IsTrue};
ghost use Rattle.tz_types.specs.Order.{ascends, name_before};
ghost use Rattle.tz_types.specs.declared.link.Link.{Link};
ghost use Rattle.tz_expand.specs.declared.compiled_zone.CompiledZone.{CompiledZone};
ghost use Rattle.tz_version.specs.Search.{is_compiled_named, place_called};

use tz_expand::CompiledZone;
use tz_lines::link_place;
use tz_types::{Link, Shared};

fn zone_place(zones: &[Shared<CompiledZone>], name: &[u8]) -> Option<usize>
    requires { IsTrue (ascends name_before (map (λ (zone : CompiledZone). zone.name) zones.now)) }
    ensures { result ≡ position (is_compiled_named name.now) zones.now }
{
    match zones.binary_search_by(|zone| zone.get().name.as_bytes().cmp(name)) {
        Ok(place) => Some(place),
        Err(_) => None,
    }
}

/// The place of the zone of that name, or else of the zone that the link of that name leads to. None comes exactly where no zone
/// and no link has the name.
pub fn place_called(zones: &[Shared<CompiledZone>], links: &[Link], name: &[u8]) -> Option<usize>
    requires zones_ascend { IsTrue (ascends name_before (map (λ (zone : CompiledZone). zone.name) zones.now)) }
    requires links_ascend { IsTrue (ascends name_before (map (λ (link : Link). link.name) links.now)) }
    ensures { result ≡ place_called zones.now links.now name.now }
{
    match zone_place(zones, name) {
        Some(place) => Some(place),
        None => match link_place(links, name) {
            Some(place) => Some(place as usize),
            None => None,
        },
    }
}
