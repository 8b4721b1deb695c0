//! Laws: what is in force before any occurrence (zic(8), "Rule lines").
ghost use Rattle.std.specs.Prelude.{◌≡◌, ◌⊎◌, ℤ, pos, false, List, [], ℕ};
ghost use Rattle.tz_types.specs.declared.rule_set.RuleSet.{RuleSet};
ghost use Rattle.tz_specs.specs.Occurrence.{Occurrence, occurrences};
ghost use Rattle.tz_specs.specs.State.{in_force};
ghost use Rattle.tz_specs.specs.Until.{Rules};
ghost use Rattle.tz_specs.specs.Before.{letters_before};
ghost use Rattle.tz_specs.specs.Expansion.{Period, state_in};
ghost use Rattle.tz_specs.specs.Standing.{IsOccurrence};
ghost use Rattle.tz_specs.specs.Effect.{NoneInEffect, IsFirstStandard};

/// Before any occurrence is in effect, standard time without a save is in force, with the letters of the first occurrence
/// that has save 0. There is one such, or none has save 0, and then there are no letters.
pub fn standard_time_is_in_force_before_any_occurrence()
    ensures letters { (set : RuleSet) (occurrence : Occurrence) → IsFirstStandard set occurrence → letters_before (Rules set) ≡ occurrence.rule.letters }
    ensures no_letters { (set : RuleSet) → ((other : Occurrence) → IsOccurrence set other → ¬ (other.rule.save ≡ pos 0)) → letters_before (Rules set) ≡ [] }
    ensures always { (set : RuleSet) → ((occurrence : Occurrence) × IsFirstStandard set occurrence) ⊎ ((other : Occurrence) → IsOccurrence set other → ¬ (other.rule.save ≡ pos 0)) }
    ensures once { (set : RuleSet) (first second : Occurrence) → IsFirstStandard set first → IsFirstStandard set second → first ≡ second }
    ensures number { (set : RuleSet) → in_force (occurrences set) 0 ≡ record { save = pos 0; daylight = false; letters = letters_before (Rules set) } }
    ensures instant { (period : Period) (set : RuleSet) (t : ℤ) → period.following ≡ Rules set → NoneInEffect set period.stdoff t → state_in period t ≡ record { save = pos 0; daylight = false; letters = letters_before (Rules set) } }
{}
