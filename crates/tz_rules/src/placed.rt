//! Occurrences of a rule set, told by where their rules stand in it.
ghost use Rattle.std.specs.Prelude.{◌≡◌, ◌+◌};
ghost use Rattle.tz_rules.specs.Occurs.{OccursIn};

use crate::occurrences::Occurrence;
use std::sync::ledger::Ledger;
use tz_types::{Rule, Steps};

/// An occurrence, with the place of its rule among the rules of a set.
#[derive(Debug, Drop)]
pub struct Placed<'a> {
    pub place: usize,
    pub occurrence: Occurrence<'a>,
}

impl<'a> Placed<'a> {
    /// Looks at the rule, which stands at that place, in one of its years.
    pub(crate) fn look<L: Ledger>(
        rule: &'a Rule,
        place: usize,
        year: i32,
        steps: &mut Steps<L>,
    ) -> Self
        requires { OccursIn rule.now year }
        ensures value { result ≡ record { place = place; occurrence = record { rule = rule.now; year = year } } }
        ensures steps { steps.new ≡ steps.old + 1 }
    {
        Placed {
            place,
            occurrence: Occurrence::look(rule, year, steps),
        }
    }
}
