//! Where names lead: to a zone, or to a link that leads on.
ghost use Rattle.std.specs.Prelude.{◌≡◌, ◌≤◌, ℕ, List, length, IfOk, OnOk};
ghost use Rattle.tz_types.specs.declared.limit.TheConstants.{MOST_ZONES, MOST_LINKS};
ghost use Rattle.tz_database.specs.NameMap.{known_of};
ghost use Rattle.tz_database.specs.Stops.{zone_names, link_names, first_stop, known_stop, stop_of};
ghost use Rattle.tz_database.specs.declared.stop.Stop.TheVariants as stops;

use std::alloc::Global;
use std::collections::HashMap;
use tz_types::{Link, NoMemory, Zone};

/// The place of a zone among the zones, or of a link among the links; or no zone and no link has the name.
#[derive(Clone, Copy, Debug, PartialEq, Eq)]
pub enum Stop {
    Zone(u32),
    Link(u32),
    Nowhere,
}

/// Notes the zones from the last to the first, so that the first of a name is what stays.
fn note_zones<'a>(known: &mut HashMap<&'a [u8], Stop>, zones: &'a [Zone]) -> Result<(), NoMemory>
    requires few { length zones.now ≤ MOST_ZONES }
    ensures { OnOk result ((name : List ℕ) →
        known_of known.new name
        ≡ first_stop stops.Zone 0 name (zone_names zones.now) (known_of known.old name)) }
{
    for (place, zone) in zones.iter().enumerate().rev() {
        known.insert(zone.name.as_bytes(), Stop::Zone(place as u32))?;
    }
    Ok(())
}

/// Notes the links from the last to the first, so that the first of a name is what stays.
fn note_links<'a>(known: &mut HashMap<&'a [u8], Stop>, links: &'a [Link]) -> Result<(), NoMemory>
    requires few { length links.now ≤ MOST_LINKS }
    ensures { OnOk result ((name : List ℕ) →
        known_of known.new name
        ≡ first_stop stops.Link 0 name (link_names links.now) (known_of known.old name)) }
{
    for (place, link) in links.iter().enumerate().rev() {
        known.insert(link.name.as_bytes(), Stop::Link(place as u32))?;
    }
    Ok(())
}

/// Where each name leads; a zone comes before a link of its name.
pub fn known_stops<'a>(
    alloc: Global,
    zones: &'a [Zone],
    links: &'a [Link],
) -> Result<HashMap<&'a [u8], Stop>, NoMemory>
    requires few_zones { length zones.now ≤ MOST_ZONES }
    requires few_links { length links.now ≤ MOST_LINKS }
    ensures { IfOk result (λ known. (name : List ℕ) → known_of known name ≡ known_stop zones.now links.now name) }
{
    let mut known = HashMap::new(alloc);
    note_links(&mut known, links)?;
    note_zones(&mut known, zones)?;
    Ok(known)
}

/// Where the name leads.
pub fn stop_of(known: &HashMap<&[u8], Stop>, name: &[u8]) -> Stop
    ensures { result ≡ stop_of (known_of known.now) name.now }
{
    known.get(name).copied().unwrap_or(Stop::Nowhere)
}
