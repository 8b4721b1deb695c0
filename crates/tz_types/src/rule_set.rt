//! Rules of one name.
ghost use Rattle.std.specs.Prelude.{◌≤◌, length, map, nat_lt, IsTrue};
ghost use Rattle.tz_types.specs.Order.{ascends};
ghost use Rattle.tz_types.specs.declared.limit.TheConstants.{MOST_RULES};

use crate::{Items, Label, Rule};

/// All rules of one name, in the order of their lines.
#[derive(Debug, PartialEq, Drop)]
pub struct RuleSet {
    pub name: Label,
    pub rules: Items<Rule>,
    pub ghost in_line_order: { IsTrue (ascends nat_lt (map (λ rule. rule.line) rules)) },
    pub ghost few_enough: { length rules ≤ MOST_RULES },
}
