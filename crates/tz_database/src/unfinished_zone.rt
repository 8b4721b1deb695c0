//! Zones whose last line has an UNTIL, so that no line says what comes then.
ghost use Rattle.std.specs.Prelude.{◌≡◌, map, filter_map};
ghost use Rattle.std.specs.Option.{option_to_list};
ghost use Rattle.tz_specs.specs.Written.{written_zone};
ghost use Rattle.tz_specs.specs.Whole.{missing_continuation};
ghost use Rattle.tz_database.specs.LeastFault.{told_with};

use crate::least_fault::LeastFault;
use crate::parts::Parts;
use tz_types::{Cause, Zone};

fn tell_unfinished_zone(told: &mut LeastFault, parts: &Parts, zone: &Zone)
    ensures { told.new.least ≡ told_with told.old.least (option_to_list (missing_continuation (written_zone parts.now.names zone.now))) }
{
    if let Some(line) = zone.lines.as_slice().last() {
        told.tell_where(line.until.is_some(), line.line, Cause::NoContinuation);
    }
}

/// Tells the last line of each zone, where it has an UNTIL.
pub fn tell_unfinished_zones(told: &mut LeastFault, parts: &Parts)
    ensures { told.new.least ≡ told_with told.old.least (filter_map missing_continuation (map (written_zone parts.now.names) parts.now.zones)) }
{
    for zone in parts.zones.as_slice() {
        tell_unfinished_zone(told, parts, zone);
    }
}
