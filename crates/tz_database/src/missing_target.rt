//! Links whose targets reach no zone.
ghost use Rattle.std.specs.Prelude.{◌≡◌, map, filter_map};
ghost use Rattle.std.specs.Option.{is_none};
ghost use Rattle.tz_specs.specs.Whole.{zone_of_link, missing_target};
ghost use Rattle.tz_database.specs.Parts.{contents_given};
ghost use Rattle.tz_database.specs.Reach.{name_at};
ghost use Rattle.tz_database.specs.LeastFault.{told_with};

use crate::least_fault::LeastFault;
use crate::parts::Parts;
use tz_types::{Cause, Zone};

/// Whether no zone is there.
fn is_missing(zones: &[Zone], place: Option<u32>) -> bool
    ensures { result ≡ is_none (name_at zones.now place) }
{
    match place {
        Some(place) => zones.get(place as usize).is_none(),
        None => true,
    }
}

/// Tells each link that leads to no zone. `reached` gives the place of each link's zone.
pub fn tell_missing_targets(told: &mut LeastFault, parts: &Parts, reached: &[Option<u32>])
    requires reached { map (name_at parts.now.zones) reached.now ≡ map (zone_of_link (contents_given parts.now)) (contents_given parts.now).links }
    ensures { told.new.least ≡ told_with told.old.least
        (filter_map (missing_target (contents_given parts.now)) (contents_given parts.now).links) }
{
    let zones = parts.zones.as_slice();
    for (link, place) in parts.links.as_slice().iter().zip(reached) {
        told.tell_where(is_missing(zones, *place), link.line, Cause::LinkTarget);
    }
}
