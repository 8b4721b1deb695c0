//! The places of the zones that links reach.
ghost use Rattle.std.specs.Prelude.{◌≡◌, ◌≤◌, length, map, Some, is_some, IsTrue, IfOk};
ghost use Rattle.std.specs.List.{list_all};
ghost use Rattle.tz_types.specs.Order.{ascends, name_before};
ghost use Rattle.tz_types.specs.declared.limit.TheConstants.{MOST_ZONES};
ghost use Rattle.tz_types.specs.declared.zone.Zone.{Zone as DeclaredZone};
ghost use Rattle.tz_types.specs.declared.link.Link.{Link as DeclaredLink};
ghost use Rattle.tz_specs.specs.Written.{written_link};
ghost use Rattle.tz_database.specs.ZonePlace.{zone_place_of, place_reached};

use std::alloc::Global;
use tz_types::{Items, Label, Link, NoMemory, Zone};

/// Copies of the names of zones, in their order.
pub fn zone_names(alloc: Global, zones: &[Zone]) -> Result<Vec<Label>, NoMemory>
    ensures { IfOk result (λ names. names.items ≡ map (λ (zone : DeclaredZone). zone.name) zones.now) }
{
    let mut names = Vec::with_capacity(alloc, zones.len())?;
    for zone in zones {
        names.push(zone.name.copied())?;
    }
    Ok(names)
}

/// The place of the zone of that name, where there is one.
fn zone_place(zones: &[Zone], name: &[u8]) -> Option<u32>
    requires ascend { IsTrue (ascends name_before (map (λ (zone : DeclaredZone). zone.name) zones.now)) }
    requires few { length zones.now ≤ MOST_ZONES }
    ensures { result ≡ zone_place_of zones.now name.now }
{
    match zones.binary_search_by(|zone| zone.name.as_bytes().cmp(name)) {
        Ok(place) => Some(place as u32),
        Err(_) => None,
    }
}

/// The place, among the zones, of the one whose name stands at a place among the names.
fn place_reached(reached: Option<u32>, names: &[Label], zones: &[Zone]) -> Option<u32>
    requires ascend { IsTrue (ascends name_before (map (λ (zone : DeclaredZone). zone.name) zones.now)) }
    requires few { length zones.now ≤ MOST_ZONES }
    ensures { result ≡ place_reached names.now zones.now reached }
{
    let name = names.get(reached? as usize)?;
    zone_place(zones, name.as_bytes())
}

/// Gives a link its zone.
fn place_link(link: &mut Link, zone: u32)
    ensures written { written_link link.new ≡ written_link link.old }
    ensures zone { link.new.zone ≡ zone }
{
    link.zone = zone;
}

/// Gives each link the place, among the zones, of the zone that it reaches. `reached` has the place of that zone's name
/// among the names, link by link.
pub fn place_links(
    links: Items<Link>,
    reached: &[Option<u32>],
    names: &[Label],
    zones: &[Zone],
) -> Vec<Link>
    requires ascend { IsTrue (ascends name_before (map (λ (zone : DeclaredZone). zone.name) zones.now)) }
    requires few { length zones.now ≤ MOST_ZONES }
    requires alike { length reached.now ≡ length links }
    requires there { IsTrue (list_all (λ place. is_some (place_reached names.now zones.now place)) reached.now) }
    ensures written { map written_link result.items ≡ map written_link links }
    ensures places { map (λ (link : DeclaredLink). Some link.zone) result.items ≡ map (place_reached names.now zones.now) reached.now }
{
    let mut links = links.into_vec();
    for (place, link) in links.iter_mut().enumerate() {
        match place_reached(reached[place], names, zones) {
            Some(zone) => place_link(link, zone),
            None => unreachable!(),
        }
    }
    links
}
