//! Every rule of a set in every one of its years, in order.
ghost use Rattle.std.specs.Prelude.{◌≡◌, ◌≤◌, length, IfOk, OnOk};
ghost use Rattle.std.specs.List.{insert};
ghost use Rattle.tz_types.specs.Year.{IsRuleYear};
ghost use Rattle.tz_specs.specs.Occurrence.{occurrences_of_rule, put_in_order, occurrences};
ghost use Rattle.rule_rows.specs.Listing.{put_all, occurrence_in};

use crate::rule_year::RuleYear;
use std::alloc::Global;
use tz_types::{NoMemory, Rule, RuleSet};

/// How many years there are from -9998 to 9998.
const YEARS: u32 = 19_997;

/// Where the first one stands that the occurrence precedes, and the end where it precedes none.
fn place_among<'a>(list: &[RuleYear<'a>], occurrence: &RuleYear<'a>) -> usize
    ensures bound { result ≤ length list.now }
    ensures place { insert list.now result occurrence.now ≡ put_in_order occurrence.now list.now }
{
    for (place, next) in list.iter().enumerate() {
        if occurrence.precedes(next) {
            return place;
        }
    }
    list.len()
}

/// Puts the rule's occurrence in a year in its place, if the rule has one then.
fn put_year<'a>(list: &mut Vec<RuleYear<'a>>, rule: &'a Rule, year: i32) -> Result<(), NoMemory>
    requires { IsRuleYear year }
    ensures { OnOk result (list.new.items ≡ put_all (occurrence_in rule.now year) list.old.items) }
{
    if year < rule.from || year > rule.to {
        return Ok(());
    }
    let occurrence = RuleYear::new(rule, year);
    let place = place_among(list.as_slice(), &occurrence);
    list.insert(place, occurrence)?;
    Ok(())
}

/// Puts a rule's occurrences in their places, from the last year to the first.
fn put_rule<'a>(list: &mut Vec<RuleYear<'a>>, rule: &'a Rule) -> Result<(), NoMemory>
    ensures { OnOk result (list.new.items ≡ put_all (occurrences_of_rule rule.now) list.old.items) }
{
    for back in 0..YEARS {
        put_year(list, rule, 9_998 - back as i32)?;
    }
    Ok(())
}

/// Every rule of the set in every one of its years from -9998 to 9998, in order.
pub fn occurrences(alloc: Global, set: &RuleSet) -> Result<Vec<RuleYear<'_>>, NoMemory>
    ensures { IfOk result (λ list. list.items ≡ occurrences set.now) }
{
    let rules = set.rules.as_slice();
    let mut list = Vec::new(alloc);
    for back in 0..rules.len() {
        put_rule(&mut list, &rules[rules.len() - 1 - back])?;
    }
    Ok(list)
}
