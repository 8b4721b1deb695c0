//! The zones that links reach: the zone of the target's name, or what the target of the earliest link of that name reaches.
ghost use Rattle.std.specs.Prelude.{◌≡◌, ◌≤◌, ℕ, false, [], List, length, map, IfOk};
ghost use Rattle.tz_types.specs.declared.limit.TheConstants.{MOST_ZONES, MOST_LINKS};
ghost use Rattle.tz_specs.specs.Written.{written_zone, written_link};
ghost use Rattle.tz_specs.specs.Whole.{zone_of_link};
ghost use Rattle.tz_database.specs.NameMap.{known_of};
ghost use Rattle.tz_database.specs.Reach.{name_at};
ghost use Rattle.tz_database.specs.Stops.{targets_of, next_stop, stop_after, zone_place};

use crate::stop::{Stop, known_stops, stop_of};
use std::alloc::Global;
use std::collections::HashMap;
use tz_types::{Link, NoMemory, Zone};

/// Where the target of each link leads.
fn targets_of(
    alloc: Global,
    known: &HashMap<&[u8], Stop>,
    links: &[Link],
) -> Result<Vec<Stop>, NoMemory>
    ensures { IfOk result (λ targets. targets.items ≡ targets_of (known_of known.now) links.now) }
{
    let targets = links
        .iter()
        .map(|link| stop_of(known, link.target.as_bytes()))
        .collect::<Vec<_>>(alloc)?;
    Ok(targets)
}

/// One link further, by where each link leads; a zone is the end of the way.
fn next_stop(targets: &[Stop], stop: Stop) -> Stop
    ensures { result ≡ next_stop targets.now stop }
{
    match stop {
        Stop::Zone(place) => Stop::Zone(place),
        Stop::Link(place) => targets
            .get(place as usize)
            .copied()
            .unwrap_or(Stop::Nowhere),
        Stop::Nowhere => Stop::Nowhere,
    }
}

/// The same from each of these stops.
fn next_stops(alloc: Global, targets: &[Stop], from: &[Stop]) -> Result<Vec<Stop>, NoMemory>
    ensures { IfOk result (λ ends. ends.items ≡ map (next_stop targets.now) from.now) }
{
    let ends = from
        .iter()
        .map(|stop| next_stop(targets, *stop))
        .collect::<Vec<_>>(alloc)?;
    Ok(ends)
}

/// Where each way ends, as many links further as there are. Each round doubles how many links the stops ahead span, and so
/// the rounds are as many as that count has binary digits.
fn ends_of_ways(alloc: Global, targets: &[Stop]) -> Result<Vec<Stop>, NoMemory>
    ensures { IfOk result (λ ends. ends.items ≡ map (stop_after targets.now (length targets.now)) targets.now) }
{
    let mut ends = targets.to_vec(alloc)?;
    let mut ahead = targets.to_vec(alloc)?;
    let mut left = targets.len();
    while left > 0 {
        if left % 2 == 1 {
            ends = next_stops(alloc, &ahead, &ends)?;
        }
        ahead = next_stops(alloc, &ahead, &ahead)?;
        left /= 2;
    }
    Ok(ends)
}

fn zone_place(stop: Stop) -> Option<u32>
    ensures { result ≡ zone_place stop }
{
    match stop {
        Stop::Zone(place) => Some(place),
        Stop::Link(_) | Stop::Nowhere => None,
    }
}

/// The places of the zones where ways end.
fn zone_places(alloc: Global, ends: &[Stop]) -> Result<Vec<Option<u32>>, NoMemory>
    ensures { IfOk result (λ places. places.items ≡ map zone_place ends.now) }
{
    let places = ends
        .iter()
        .map(|stop| zone_place(*stop))
        .collect::<Vec<_>>(alloc)?;
    Ok(places)
}

/// For each link the place, among the zones, of the zone that its targets reach; none where the way goes in a circle, or to
/// a name that nothing has.
pub fn zones_reached(
    alloc: Global,
    zones: &[Zone],
    links: &[Link],
) -> Result<Vec<Option<u32>>, NoMemory>
    requires few_zones { length zones.now ≤ MOST_ZONES }
    requires few_links { length links.now ≤ MOST_LINKS }
    ensures { IfOk result (λ reached. (names : List (List ℕ)) →
        map (name_at zones.now) reached.items
        ≡ map (zone_of_link (record { sets = []; zones = map (written_zone names) zones.now; links = map written_link links.now; begun = false })) (map written_link links.now)) }
{
    let known = known_stops(alloc, zones, links)?;
    let targets = targets_of(alloc, &known, links)?;
    let ends = ends_of_ways(alloc, &targets)?;
    zone_places(alloc, &ends)
}
