//! Laws: the occurrences of a rule set (zic(8), "Rule lines").
ghost use Rattle.std.specs.Prelude.{◌≡◌, ℕ, ◌<◌, ◌↔◌, ◌⊎◌, ℤ, pos, ◌+ℤ◌, ◌-ℤ◌, ◌*ℤ◌, ◌<ℤ◌, ◌≤ℤ◌, Some, false, slice_get, IsTrue};
ghost use Rattle.std.specs.List.{Contains};
ghost use Rattle.jiff_core.specs.Calendar.{days_from_civil};
ghost use Rattle.tz_types.specs.declared.rule.Rule.{Rule};
ghost use Rattle.tz_types.specs.declared.rule_set.RuleSet.{RuleSet};
ghost use Rattle.tz_types.specs.Year.{IsRuleYear};
ghost use Rattle.tz_specs.specs.Occurrence.{Occurrence, nominal_of, nominal_second, occurrences, precedes};
ghost use Rattle.tz_specs.specs.Standing.{IsOccurrence};

/// The list of a rule set has exactly the rules of the set, each in exactly its years from -9998 to 9998.
pub fn occurrences_are_rules_in_their_years()
    ensures { (set : RuleSet) (occurrence : Occurrence) → Contains (occurrences set) occurrence ↔ IsOccurrence set occurrence }
{}

/// A rule's nominal seconds of two years are at least 350 days apart, the later year's later, and each lies less
/// than 48 days outside its year.
pub fn nominal_second_rises()
    ensures later { (rule : Rule) (year later : ℤ) → IsRuleYear year → year <ℤ later → nominal_second year rule.moment <ℤ nominal_second later rule.moment }
    ensures apart { (rule : Rule) (year later : ℤ) → IsRuleYear year → year <ℤ later → (nominal_second year rule.moment +ℤ pos 30_240_000) ≤ℤ nominal_second later rule.moment }
    ensures near { (rule : Rule) (year next : ℤ) → IsRuleYear year → rule.from ≤ℤ year → year ≤ℤ rule.to → next ≡ (year +ℤ pos 1) → (((pos 86_400 *ℤ days_from_civil year 1 1) -ℤ pos 4_118_401) ≤ℤ nominal_second year rule.moment) × (nominal_second year rule.moment ≤ℤ ((pos 86_400 *ℤ days_from_civil next 1 1) +ℤ pos 4_118_401)) }
{}

/// No two occurrences share both nominal second and line, so of two different ones one precedes the other.
pub fn occurrences_differ()
    ensures same { (set : RuleSet) (first second : Occurrence) → IsOccurrence set first → IsOccurrence set second → nominal_of first ≡ nominal_of second → first.rule.line ≡ second.rule.line → first ≡ second }
    ensures total { (set : RuleSet) (first second : Occurrence) → IsOccurrence set first → IsOccurrence set second → (first ≡ second) ⊎ (IsTrue (precedes first second) ⊎ IsTrue (precedes second first)) }
{}

/// To stand earlier in the list is to precede.
pub fn occurrences_stand_in_order()
    ensures earlier { (set : RuleSet) (place later : ℕ) (first second : Occurrence) → place < later → slice_get (occurrences set) place ≡ Some first → slice_get (occurrences set) later ≡ Some second → IsTrue (precedes first second) }
    ensures places { (set : RuleSet) (place other : ℕ) (first second : Occurrence) → slice_get (occurrences set) place ≡ Some first → slice_get (occurrences set) other ≡ Some second → IsTrue (precedes first second) → place < other }
{}

/// To precede is an order: never both ways, and handed on.
pub fn precedes_is_an_order()
    ensures one_way { (first second : Occurrence) → IsTrue (precedes first second) → precedes second first ≡ false }
    ensures handed_on { (first second third : Occurrence) → IsTrue (precedes first second) → IsTrue (precedes second third) → IsTrue (precedes first third) }
{}
