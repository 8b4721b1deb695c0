//! Laws: the full expansion of a zone (C++20, [time.zone.info.sys]).
ghost use Rattle.std.specs.Prelude.{◌≡◌, ℤ, pos, neg_ℤ, ◌*ℤ◌, Bool, [], ◌∷◌};
ghost use Rattle.jiff_core.specs.Calendar.{days_from_civil};
ghost use Rattle.tz_specs.specs.Until.{Nothing, Fixed};
ghost use Rattle.tz_specs.specs.Expansion.{first_instant, end_of_time, Period, range_of, ranges_of};

/// A line without rules, or with a fixed save, is one range from its start to its finish.
#[tactic(auto, using(crate::proofs::ExpansionLemmas::ranges_of_plain, crate::proofs::ExpansionLemmas::ranges_of_fixed))]
pub fn line_without_rules_is_one_range()
    ensures plain { (period : Period) → period.following ≡ Nothing → ranges_of period ≡ range_of period period.start period.finish ∷ [] }
    ensures fixed { (period : Period) (save : ℤ) (daylight : Bool) → period.following ≡ Fixed save daylight → ranges_of period ≡ range_of period period.start period.finish ∷ [] }
{}

/// Time runs from the midnight that begins -9999 to the one that begins 10000.
pub fn time_runs_from_midnight_to_midnight()
    ensures begin { first_instant ≡ (pos 86_400 *ℤ days_from_civil (neg_ℤ (pos 9999)) 1 1) }
    ensures end { end_of_time ≡ (pos 86_400 *ℤ days_from_civil (pos 10_000) 1 1) }
{}
