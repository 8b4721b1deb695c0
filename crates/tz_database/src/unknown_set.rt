//! Lines of zones that follow a rule set without a rule.
ghost use Rattle.std.specs.Prelude.{◌≡◌, length, map, filter_map, IsTrue};
ghost use Rattle.std.specs.Option.{is_none};
ghost use Rattle.std.specs.List.{list_all, flat_map};
ghost use Rattle.tz_specs.specs.Written.{written_rules, written_line, written_zone};
ghost use Rattle.tz_specs.specs.Whole.{following_in, unknown_rule};
ghost use Rattle.tz_database.specs.Continued.{is_named_by};
ghost use Rattle.tz_database.specs.SetPlace.{set_place_of};
ghost use Rattle.tz_database.specs.LeastFault.{told_with};

use crate::followed_set::followed_set;
use crate::least_fault::LeastFault;
use crate::parts::Parts;
use tz_types::{Cause, LineRules, ZoneLine};

/// Whether no rule has the name of the set that is followed.
fn follows_unknown(parts: &Parts, places: &[Option<u32>], rules: LineRules) -> bool
    requires places { places.now ≡ map (set_place_of parts.now.sets) parts.now.names }
    requires named { IsTrue (is_named_by (length parts.now.names) rules) }
    ensures { result ≡ is_none (following_in parts.now.sets (written_rules parts.now.names rules)) }
{
    match rules {
        LineRules::Set(name) => followed_set(parts, places, name).is_none(),
        LineRules::Plain | LineRules::Fixed { .. } => false,
    }
}

fn tell_unknown_lines(
    told: &mut LeastFault,
    parts: &Parts,
    places: &[Option<u32>],
    lines: &[ZoneLine],
)
    requires places { places.now ≡ map (set_place_of parts.now.sets) parts.now.names }
    requires named { IsTrue (list_all (λ line. is_named_by (length parts.now.names) line.rules) lines.now) }
    ensures { told.new.least ≡ told_with told.old.least
        (filter_map (unknown_rule parts.now.sets) (map (written_line parts.now.names) lines.now)) }
{
    for line in lines {
        told.tell_where(
            follows_unknown(parts, places, line.rules),
            line.line,
            Cause::UnknownRule,
        );
    }
}

/// Tells each line whose rule set has no rule.
pub fn tell_unknown_sets(told: &mut LeastFault, parts: &Parts, places: &[Option<u32>])
    requires places { places.now ≡ map (set_place_of parts.now.sets) parts.now.names }
    ensures { told.new.least ≡ told_with told.old.least
        (flat_map (λ zone. filter_map (unknown_rule parts.now.sets) zone.lines) (map (written_zone parts.now.names) parts.now.zones)) }
{
    for zone in parts.zones.as_slice() {
        tell_unknown_lines(told, parts, places, zone.lines.as_slice());
    }
}
