//! Lines of zones that give their rule sets by the places of the sets.
//!
//! The lines of a text give a set by the place of its name among the names of sets that the text mentions; those of a
//! database give it by the place of the set itself.
ghost use Rattle.std.specs.Prelude.{◌≡◌, ℕ, List, length, map, IsTrue, IfOk};
ghost use Rattle.std.specs.List.{list_all};
ghost use Rattle.tz_types.specs.declared.rule_set.RuleSet.{RuleSet};
ghost use Rattle.tz_types.specs.declared.zone.Zone.{Zone as DeclaredZone};
ghost use Rattle.tz_specs.specs.Written.{set_names, written_line};
ghost use Rattle.tz_database.specs.Settled.{has_set, have_sets, settled_rules, ArePlaces, AreSettled, AreSettledZones};

use std::alloc::Global;
use tz_types::{Items, LineRules, NoMemory, Zone, ZoneLine};

/// The same rules by the place of their set, from those of all names.
fn settled_rules(rules: LineRules, places: &[Option<u32>]) -> LineRules
    requires { IsTrue (has_set places.now rules) }
    ensures { result ≡ settled_rules places.now rules }
{
    match rules {
        LineRules::Set(name) => match places.get(name as usize) {
            Some(Some(place)) => LineRules::Set(*place),
            _ => unreachable!(),
        },
        LineRules::Plain | LineRules::Fixed { .. } => rules,
    }
}

/// Gives the line its set by the set's place; it says the same then.
fn settle_line(line: &mut ZoneLine, places: &[Option<u32>])
    requires { IsTrue (has_set places.now line.old.rules) }
    ensures rules { line.new.rules ≡ settled_rules places.now line.old.rules }
    ensures written { (sets : List RuleSet) → (names : List (List ℕ)) → ArePlaces places.now sets names →
        written_line (set_names sets) line.new ≡ written_line names line.old }
{
    line.rules = settled_rules(line.rules, places);
}

/// The lines of a zone, each changed where it lies.
fn settled_lines(lines: Items<ZoneLine>, places: &[Option<u32>]) -> Items<ZoneLine>
    requires { IsTrue (have_sets places.now lines) }
    ensures count { length result ≡ length lines }
    ensures settled { (sets : List RuleSet) → (names : List (List ℕ)) → ArePlaces places.now sets names → AreSettled sets names lines result }
{
    let mut lines = lines.into_vec();
    for line in lines.iter_mut() {
        settle_line(line, places);
    }
    Items::from_vec(lines)
}

/// The zones with lines that give their sets by the places of the sets.
pub fn settled_zones(
    alloc: Global,
    zones: Items<Zone>,
    places: &[Option<u32>],
) -> Result<Vec<Zone>, NoMemory>
    requires { IsTrue (list_all (λ (zone : DeclaredZone). have_sets places.now zone.lines) zones) }
    ensures { IfOk result (λ settled. (sets : List RuleSet) → (names : List (List ℕ)) → ArePlaces places.now sets names → AreSettledZones sets names zones settled.items) }
{
    let mut settled = Vec::with_capacity(alloc, zones.len())?;
    for zone in zones.into_vec() {
        settled.push(Zone {
            name: zone.name,
            lines: settled_lines(zone.lines, places),
        })?;
    }
    Ok(settled)
}
