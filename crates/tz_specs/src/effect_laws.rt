//! Laws: which occurrence is in effect, and what it puts in force.
ghost use Rattle.std.specs.Prelude.{◌≡◌, ℕ, suc, ◌↔◌, ◌⊎◌, ℤ, pos, ◌-ℤ◌, [], Some, slice_get};
ghost use Rattle.jiff_core.specs.Calendar.{IsWithin};
ghost use Rattle.tz_types.specs.declared.limit.TheConstants.{LONGEST_OFFSET};
ghost use Rattle.tz_types.specs.Amount.{IsShift};
ghost use Rattle.tz_types.specs.declared.rule_set.RuleSet.{RuleSet};
ghost use Rattle.tz_types.specs.declared.moment.Moment.{Moment};
ghost use Rattle.tz_specs.specs.Occurrence.{Occurrence, nominal_of, occurrences};
ghost use Rattle.tz_specs.specs.State.{instants, state_at, in_force, put_in_force, before_first, first_letters};
ghost use Rattle.tz_specs.specs.Until.{Rules, until_instant};
ghost use Rattle.tz_specs.specs.Standing.{IsOccurrence, TakesEffect};
ghost use Rattle.tz_specs.specs.Effect.{ComesAt, IsInEffect, NoneInEffect, IsFirstStandard, until_with, FirstNotBefore, IsUntilUnder};

/// The instant with the number of an occurrence is its time on the clock that the occurrence right before it keeps.
/// Each occurrence comes at one instant, within two days of its nominal second.
pub fn instants_follow_the_clock_before()
    ensures number { (set : RuleSet) (stdoff : ℤ) (place : ℕ) (occurrence : Occurrence) (instant : ℤ) → slice_get (occurrences set) place ≡ Some occurrence → (slice_get (instants stdoff (occurrences set)) place ≡ Some instant) ↔ ComesAt set stdoff occurrence instant }
    ensures somewhen { (set : RuleSet) (stdoff : ℤ) (occurrence : Occurrence) → IsOccurrence set occurrence → (instant : ℤ) × ComesAt set stdoff occurrence instant }
    ensures once { (set : RuleSet) (stdoff : ℤ) (occurrence : Occurrence) (first second : ℤ) → IsOccurrence set occurrence → ComesAt set stdoff occurrence first → ComesAt set stdoff occurrence second → first ≡ second }
    ensures near { (set : RuleSet) (stdoff : ℤ) (occurrence : Occurrence) (instant : ℤ) → IsShift stdoff → ComesAt set stdoff occurrence instant → IsWithin LONGEST_OFFSET (instant -ℤ nominal_of occurrence) }
{}

/// The state at `t` is the number of the occurrence in effect, and 0 where none is. There is always exactly one of the two.
pub fn state_is_what_is_in_effect()
    ensures number { (set : RuleSet) (stdoff t : ℤ) (place : ℕ) (occurrence : Occurrence) → slice_get (occurrences set) place ≡ Some occurrence → (state_at (instants stdoff (occurrences set)) t ≡ suc place) ↔ IsInEffect set stdoff t occurrence }
    ensures none { (set : RuleSet) (stdoff t : ℤ) → (state_at (instants stdoff (occurrences set)) t ≡ 0) ↔ NoneInEffect set stdoff t }
    ensures always { (set : RuleSet) (stdoff t : ℤ) → NoneInEffect set stdoff t ⊎ ((occurrence : Occurrence) × IsInEffect set stdoff t occurrence) }
    ensures once { (set : RuleSet) (stdoff t : ℤ) (first second : Occurrence) → IsInEffect set stdoff t first → IsInEffect set stdoff t second → first ≡ second }
{}

/// What is in force is what the occurrence in effect puts in force, and standard time before any is.
pub fn in_force_is_put_by_what_is_in_effect()
    ensures under { (set : RuleSet) (stdoff t : ℤ) (occurrence : Occurrence) → IsInEffect set stdoff t occurrence → in_force (occurrences set) (state_at (instants stdoff (occurrences set)) t) ≡ put_in_force occurrence }
    ensures before { (set : RuleSet) (stdoff t : ℤ) → NoneInEffect set stdoff t → in_force (occurrences set) (state_at (instants stdoff (occurrences set)) t) ≡ before_first (occurrences set) }
    ensures letters { (set : RuleSet) (occurrence : Occurrence) → IsFirstStandard set occurrence → first_letters (occurrences set) ≡ occurrence.rule.letters }
    ensures no_letters { (set : RuleSet) → ((other : Occurrence) → IsOccurrence set other → ¬ (other.rule.save ≡ pos 0)) → first_letters (occurrences set) ≡ [] }
{}

/// An occurrence takes effect at an instant exactly where it comes there and is then in effect.
pub fn taking_effect_is_coming_and_being_in_effect()
    ensures { (set : RuleSet) (stdoff instant : ℤ) → TakesEffect (Rules set) stdoff instant ↔ ((occurrence : Occurrence) × ComesAt set stdoff occurrence instant × IsInEffect set stdoff instant occurrence) }
{}

/// A line that follows rules ends at its UNTIL under the first occurrence whose successor doesn't come before that,
/// or before any occurrence where the first one doesn't. One of the two is always so.
pub fn until_is_read_on_its_own_clock()
    ensures under { (set : RuleSet) (stdoff year : ℤ) (moment : Moment) (occurrence : Occurrence) → IsUntilUnder set stdoff year moment occurrence → until_instant (Rules set) stdoff year moment ≡ until_with stdoff year moment occurrence.rule.save }
    ensures before { (set : RuleSet) (stdoff year : ℤ) (moment : Moment) → FirstNotBefore set stdoff (until_with stdoff year moment (pos 0)) → until_instant (Rules set) stdoff year moment ≡ until_with stdoff year moment (pos 0) }
    ensures always { (set : RuleSet) (stdoff year : ℤ) (moment : Moment) → FirstNotBefore set stdoff (until_with stdoff year moment (pos 0)) ⊎ ((occurrence : Occurrence) × IsUntilUnder set stdoff year moment occurrence) }
{}
