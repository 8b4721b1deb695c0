//! The least fault of a text as a whole.
ghost use Rattle.std.specs.Prelude.{◌≡◌, map, IfOk};
ghost use Rattle.tz_specs.specs.Whole.{zone_of_link, whole_faults};
ghost use Rattle.tz_database.specs.Parts.{contents_given};
ghost use Rattle.tz_database.specs.Reach.{name_at};
ghost use Rattle.tz_database.specs.SetPlace.{set_place_of};
ghost use Rattle.tz_database.specs.LeastFault.{IsLeastOf};

use crate::late_line::tell_late_lines;
use crate::least_fault::LeastFault;
use crate::missing_target::tell_missing_targets;
use crate::parts::Parts;
use crate::repeated_name::tell_repeated_names;
use crate::unfinished_zone::tell_unfinished_zones;
use crate::unknown_set::tell_unknown_sets;
use std::alloc::Global;
use tz_types::{LineFault, NoMemory};

/// The fault at the least line, with the least cause there, or none where there are no faults. `places` gives the rule set of
/// each name, and `reached` the zone of each link.
pub fn whole_fault(
    alloc: Global,
    parts: &Parts,
    places: &[Option<u32>],
    reached: &[Option<u32>],
) -> Result<Option<LineFault>, NoMemory>
    requires places { places.now ≡ map (set_place_of parts.now.sets) parts.now.names }
    requires reached { map (name_at parts.now.zones) reached.now ≡ map (zone_of_link (contents_given parts.now)) (contents_given parts.now).links }
    ensures { IfOk result (λ least. IsLeastOf (whole_faults parts.now.sets (contents_given parts.now)) least) }
{
    let mut told = LeastFault::new();
    tell_unfinished_zones(&mut told, parts);
    tell_unknown_sets(&mut told, parts, places);
    tell_repeated_names(&mut told, alloc, parts)?;
    tell_missing_targets(&mut told, parts, reached);
    tell_late_lines(&mut told, parts, places);
    Ok(told.least)
}
