//! Rule sets, as rules come for them.
ghost use Rattle.std.specs.Prelude.{◌≡◌, ◌≢◌, ◌∷◌, ◌++◌, [], ◌<◌, ◌≤◌, Some, None, length, map, find, slice_get, nat_lt, nat_le, IsTrue, IfOk, OnOk};
ghost use Rattle.std.specs.List.{list_all, AllPairs};
ghost use Rattle.std.specs.List.Sorted.{IsPermutation};
ghost use Rattle.tz_types.specs.Order.{ascends, name_before};
ghost use Rattle.tz_types.specs.declared.limit.TheConstants.{MOST_RULES, MOST_SETS};
ghost use Rattle.tz_types.specs.declared.rule.Rule.{Rule as DeclaredRule};
ghost use Rattle.tz_types.specs.declared.rule_set.RuleSet.{RuleSet as DeclaredSet};
ghost use Rattle.tz_specs.specs.Written.{written_rule, written_set, set_names};
ghost use Rattle.tz_specs.specs.Contents.{with_rule, is_set_named, is_full_set};
ghost use Rattle.tz_lines.specs.NameIndex.{name_position, IsIndex};
ghost use Rattle.tz_lines.specs.RuleSets.{in_name_order};
ghost use Rattle.tz_lines.specs.RecordOrder.{are_before};
ghost use Rattle.tz_lines.specs.Excess.{MeansLimit};

use crate::error::AddError;
use crate::name_index::NameIndex;
use std::alloc::Global;
use tz_records::GivenName;
use tz_types::{Items, MOST_RULES, MOST_SETS, NoMemory, Rule, RuleSet};

/// Rule sets in the order in which their first rules came. They are put in the order of their names once, at the end.
#[derive(Debug, Drop)]
pub struct RuleSets {
    sets: Vec<RuleSet>,
    places: NameIndex,
    /// The place of the set of the rule that came last: a rule mostly has the name of the rule before it.
    last: u32,
    ghost placed: { IsIndex places (set_names sets.items) },
    ghost apart: { AllPairs ◌≢◌ (set_names sets.items) },
    ghost few: { length sets.items ≤ MOST_SETS },
}

/// Adds a rule that stands behind those of its set, unless it is one too many.
fn push_rule(set: &mut RuleSet, rule: Rule) -> Result<(), AddError>
    requires { IsTrue (list_all (λ (other : DeclaredRule). nat_lt other.line rule.line) set.old.rules) }
    ensures rules { OnOk result (set.new.rules ≡ set.old.rules ++ rule ∷ []) }
    ensures name { set.new.name ≡ set.old.name }
    ensures limit { MeansLimit result (nat_le MOST_RULES (length set.old.rules)) }
{
    if set.rules.len() >= MOST_RULES {
        return Err(AddError::Limit);
    }
    set.rules.push(rule)?;
    Ok(())
}

/// A set of one rule.
fn set_of(alloc: Global, name: GivenName<'_>, rule: Rule) -> Result<RuleSet, NoMemory>
    ensures rules { IfOk result (λ (set : DeclaredSet). set.rules ≡ rule ∷ []) }
    ensures name { IfOk result (λ (set : DeclaredSet). set.name ≡ name.entry.bytes.now) }
{
    let mut rules = Items::new(alloc);
    rules.push(rule)?;
    Ok(RuleSet {
        name: name.label(),
        rules,
    })
}

/// Puts sets, whose names differ, in the order of their names.
fn sort_sets(sets: &mut Vec<RuleSet>)
    requires { AllPairs ◌≢◌ (set_names sets.old.items) }
    ensures same { IsPermutation sets.old.items sets.new.items }
    ensures ascend { IsTrue (ascends name_before (set_names sets.new.items)) }
{
    sets.sort_unstable_by(|set, other| set.name.as_bytes().cmp(other.name.as_bytes()));
}

impl RuleSets {
    /// Before any rule.
    pub fn new(alloc: Global) -> Self
        ensures { result.sets.items ≡ [] }
    {
        RuleSets {
            sets: Vec::new(alloc),
            places: NameIndex::new(alloc),
            last: 0,
        }
    }

    /// Whether the rule that came last has this name.
    fn came_last(&self, name: &[u8]) -> bool
        ensures { IsTrue result → slice_get (set_names self.now.sets.items) self.now.last ≡ Some name.now }
    {
        match self.sets.get(self.last as usize) {
            Some(set) => set.name.as_bytes() == name,
            None => false,
        }
    }

    /// The place of the set of that name.
    fn place(&self, name: &[u8]) -> Option<u32>
        ensures { result ≡ name_position name.now (set_names self.now.sets.items) }
    {
        if self.came_last(name) {
            return Some(self.last);
        }
        self.places.get(name)
    }

    /// Puts a set, whose name no other has, behind the others.
    fn push(&mut self, alloc: Global, set: RuleSet) -> Result<(), NoMemory>
        requires room { length self.old.sets.items < MOST_SETS }
        requires missing { name_position set.name (set_names self.old.sets.items) ≡ None }
        ensures { OnOk result (self.new.sets.items ≡ self.old.sets.items ++ set ∷ []) }
    {
        let place = self.sets.len() as u32;
        self.sets.reserve(1)?;
        self.places.insert(alloc, set.name.as_bytes(), place)?;
        self.last = place;
        match self.sets.push(set) {
            Ok(()) => Ok(()),
            Err(_) => unreachable!(),
        }
    }

    /// Adds a rule behind those of its name, or as the first of them, unless it is one too many. One look tells both whether it
    /// is, and where it goes.
    pub fn add(&mut self, alloc: Global, name: GivenName<'_>, rule: Rule) -> Result<(), AddError>
        requires { IsTrue (are_before rule.line (in_name_order (map written_set self.old.sets.items))) }
        ensures limit { MeansLimit result (is_full_set (in_name_order (map written_set self.old.sets.items)) (find (is_set_named name.entry.bytes.now) (in_name_order (map written_set self.old.sets.items)))) }
        ensures sets { OnOk result (in_name_order (map written_set self.new.sets.items) ≡ with_rule name.entry.bytes.now (written_rule rule) (in_name_order (map written_set self.old.sets.items))) }
    {
        match self.place(name.as_bytes()) {
            Some(place) => {
                self.last = place;
                push_rule(&mut self.sets[place as usize], rule)
            }
            None => {
                if self.sets.len() >= MOST_SETS {
                    return Err(AddError::Limit);
                }
                self.push(alloc, set_of(alloc, name, rule)?)?;
                Ok(())
            }
        }
    }

    /// The sets in the order of their names.
    pub fn into_ordered(self) -> Items<RuleSet>
        ensures sets { map written_set result ≡ in_name_order (map written_set self.sets.items) }
        ensures ascend { IsTrue (ascends name_before (set_names result)) }
        ensures few { length result ≤ MOST_SETS }
    {
        let RuleSets { mut sets, .. } = self;
        sort_sets(&mut sets);
        Items::from_vec(sets)
    }
}
