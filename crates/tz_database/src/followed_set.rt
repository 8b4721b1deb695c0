//! The rule sets that lines of zones follow, by the places of the sets' names.
ghost use Rattle.std.specs.Prelude.{◌≡◌, ◌<◌, length, map, option_map, option_copied};
ghost use Rattle.tz_types.specs.declared.zone_line.LineRules.TheVariants as line_rules;
ghost use Rattle.tz_specs.specs.Until.{Rules};
ghost use Rattle.tz_specs.specs.Written.{written_rules};
ghost use Rattle.tz_specs.specs.Whole.{following_in};
ghost use Rattle.tz_database.specs.SetPlace.{set_place_of};

use crate::parts::Parts;
use tz_types::RuleSet;

/// The rule set of the name at a place among the names; none where no rule has the name. `places` gives each name's set.
pub fn followed_set<'a>(parts: &'a Parts, places: &[Option<u32>], name: u32) -> Option<&'a RuleSet>
    requires places { places.now ≡ map (set_place_of parts.now.sets) parts.now.names }
    requires named { name < length parts.now.names }
    ensures { option_map Rules (option_copied result) ≡ following_in parts.now.sets (written_rules parts.now.names (line_rules.Set name)) }
{
    let place = places[name as usize]?;
    parts.sets.as_slice().get(place as usize)
}
