//! The database of what lines gave, where it has no fault.
ghost use Rattle.std.specs.Prelude.{◌≡◌, [], map, IsTrue, IfOk};
ghost use Rattle.tz_specs.specs.Whole.{zone_of_link, whole_faults};
ghost use Rattle.tz_database.specs.Parts.{contents_given};
ghost use Rattle.tz_database.specs.LineOrder.{begin_in_order, link_in_order};
ghost use Rattle.tz_database.specs.Reach.{name_at};
ghost use Rattle.tz_database.specs.SetPlace.{set_place_of};
ghost use Rattle.tz_database.specs.Built.{IsBuiltOf};

use crate::link_zones::{place_links, zone_names};
use crate::name_order::{sort_links, sort_zones};
use crate::parts::Parts;
use crate::settled_lines::settled_zones;
use std::alloc::Global;
use std::sync::Arc;
use tz_types::{Db, Items, NoMemory, RuleSet, Shared};

/// The sets, each where many zones can share it.
fn shared_sets(alloc: Global, sets: Items<RuleSet>) -> Result<Items<Shared<RuleSet>>, NoMemory>
    ensures { IfOk result (λ shared. shared ≡ sets) }
{
    let mut shared = Vec::with_capacity(alloc, sets.len())?;
    for set in sets.into_vec() {
        shared.push(Shared::from_arc(Arc::new(alloc, set)?))?;
    }
    Ok(Items::from_vec(shared))
}

/// The database of parts without a fault, by the places of the rule sets of their names, and of the zones that their links
/// reach. Its zones and links stand in the order of their names.
pub fn settle(
    alloc: Global,
    parts: Parts,
    places: &[Option<u32>],
    reached: &[Option<u32>],
) -> Result<Db, NoMemory>
    requires places { places.now ≡ map (set_place_of parts.sets) parts.names }
    requires reached { map (name_at parts.zones) reached.now ≡ map (zone_of_link (contents_given parts)) (contents_given parts).links }
    requires faultless { whole_faults parts.sets (contents_given parts) ≡ [] }
    requires zones { IsTrue (begin_in_order (contents_given parts)) }
    requires links { IsTrue (link_in_order (contents_given parts)) }
    ensures { IfOk result (λ db. IsBuiltOf (contents_given parts) parts.version db) }
{
    let Parts {
        version,
        sets,
        zones,
        links,
        ..
    } = parts;
    let names = zone_names(alloc, zones.as_slice())?;
    let mut zones = settled_zones(alloc, zones, places)?;
    sort_zones(&mut zones);
    let mut links = place_links(links, reached, names.as_slice(), zones.as_slice());
    sort_links(&mut links);
    Ok(Db {
        version,
        sets: shared_sets(alloc, sets)?,
        zones: Items::from_vec(zones),
        links: Items::from_vec(links),
    })
}
