//! Lines of zones that end no later than they start. Instants are seconds from 1970-01-01 00:00:00 in universal time.
ghost use Rattle.std.specs.Prelude.{◌≡◌, length, map, option_map, IsTrue};
ghost use Rattle.std.specs.List.{list_all, flat_map};
ghost use Rattle.tz_specs.specs.Expansion.{first_instant};
ghost use Rattle.tz_specs.specs.Until.{until_instant};
ghost use Rattle.tz_specs.specs.Written.{written_rules, written_line, written_zone};
ghost use Rattle.tz_specs.specs.Whole.{following_in, finish_in, late_lines};
ghost use Rattle.tz_database.specs.Continued.{is_named_by};
ghost use Rattle.tz_database.specs.SetPlace.{set_place_of};
ghost use Rattle.tz_database.specs.LeastFault.{told_with};

use crate::followed_set::followed_set;
use crate::least_fault::LeastFault;
use crate::parts::Parts;
use tz_rules::until_instant;
use tz_types::{Cause, FIRST_INSTANT, LineRules, Until, ZoneLine};

/// The instant of a line's UNTIL, where its rule set is known.
#[tactic(auto, unfolding(tz_specs::specs::Until::until_instant))]
fn known_instant(
    parts: &Parts,
    places: &[Option<u32>],
    line: &ZoneLine,
    until: &Until,
) -> Option<i64>
    requires places { places.now ≡ map (set_place_of parts.now.sets) parts.now.names }
    requires named { IsTrue (is_named_by (length parts.now.names) line.now.rules) }
    ensures { result ≡ option_map (λ following. until_instant following line.now.stdoff until.now.year until.now.moment)
        (following_in parts.now.sets (written_rules parts.now.names line.now.rules)) }
{
    match line.rules {
        LineRules::Plain => Some(until_instant(None, 0, line.stdoff, until)),
        LineRules::Fixed { save, .. } => Some(until_instant(None, save, line.stdoff, until)),
        LineRules::Set(name) => match followed_set(parts, places, name) {
            Some(set) => Some(until_instant(Some(set), 0, line.stdoff, until)),
            None => None,
        },
    }
}

/// When a line with an UNTIL ends, where its rule set is known.
fn finish(parts: &Parts, places: &[Option<u32>], line: &ZoneLine) -> Option<i64>
    requires places { places.now ≡ map (set_place_of parts.now.sets) parts.now.names }
    requires named { IsTrue (is_named_by (length parts.now.names) line.now.rules) }
    ensures { result ≡ finish_in parts.now.sets (written_line parts.now.names line.now) }
{
    match &line.until {
        Some(until) => known_instant(parts, places, line, until),
        None => None,
    }
}

/// Tells the lines of a zone that end no later than they start, up to the first whose end isn't known.
fn tell_late_lines_of(
    told: &mut LeastFault,
    parts: &Parts,
    places: &[Option<u32>],
    lines: &[ZoneLine],
)
    requires places { places.now ≡ map (set_place_of parts.now.sets) parts.now.names }
    requires named { IsTrue (list_all (λ line. is_named_by (length parts.now.names) line.rules) lines.now) }
    ensures { told.new.least ≡ told_with told.old.least
        (late_lines parts.now.sets first_instant (map (written_line parts.now.names) lines.now)) }
{
    let mut start = FIRST_INSTANT;
    for line in lines {
        let Some(finish) = finish(parts, places, line) else {
            return;
        };
        told.tell_where(start >= finish, line.line, Cause::UntilOrder);
        start = finish;
    }
}

/// Tells the late lines of each zone.
pub fn tell_late_lines(told: &mut LeastFault, parts: &Parts, places: &[Option<u32>])
    requires places { places.now ≡ map (set_place_of parts.now.sets) parts.now.names }
    ensures { told.new.least ≡ told_with told.old.least
        (flat_map (λ zone. late_lines parts.now.sets first_instant zone.lines) (map (written_zone parts.now.names) parts.now.zones)) }
{
    for zone in parts.zones.as_slice() {
        tell_late_lines_of(told, parts, places, zone.lines.as_slice());
    }
}
