//! The places of rule sets, by their names.
ghost use Rattle.std.specs.Prelude.{◌≡◌, ◌≤◌, length, map, IsTrue, IfOk};
ghost use Rattle.tz_types.specs.Order.{ascends, name_before};
ghost use Rattle.tz_types.specs.declared.limit.TheConstants.{MOST_SETS};
ghost use Rattle.tz_specs.specs.Written.{set_names};
ghost use Rattle.tz_database.specs.SetPlace.{set_place_of};

use std::alloc::Global;
use tz_types::{Label, NoMemory, RuleSet};

/// The place of the set of that name, where there is one.
fn set_place(sets: &[RuleSet], name: &[u8]) -> Option<u32>
    requires ascend { IsTrue (ascends name_before (set_names sets.now)) }
    requires few { length sets.now ≤ MOST_SETS }
    ensures { result ≡ set_place_of sets.now name.now }
{
    match sets.binary_search_by(|set| set.name.as_bytes().cmp(name)) {
        Ok(place) => Some(place as u32),
        Err(_) => None,
    }
}

/// The place of each name's rule set among the sets; none where no rule has the name.
pub fn set_places(
    alloc: Global,
    sets: &[RuleSet],
    names: &[Label],
) -> Result<Vec<Option<u32>>, NoMemory>
    requires ascend { IsTrue (ascends name_before (set_names sets.now)) }
    requires few { length sets.now ≤ MOST_SETS }
    ensures { IfOk result (λ places. places.items ≡ map (set_place_of sets.now) names.now) }
{
    let mut places = Vec::with_capacity(alloc, names.len())?;
    for name in names {
        places.push(set_place(sets, name.as_bytes()))?;
    }
    Ok(places)
}
