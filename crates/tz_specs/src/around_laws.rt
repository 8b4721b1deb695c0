//! Laws: the range round an instant, and the change that ends it.
ghost use Rattle.std.specs.Prelude.{◌≡◌, Bool, ℤ, ◌<ℤ◌, ◌≤ℤ◌, List, Some, IsTrue};
ghost use Rattle.std.specs.List.{All, Contains};
ghost use Rattle.tz_types.specs.declared.range.SysInfo.{SysInfo};
ghost use Rattle.tz_types.specs.declared.rule_set.RuleSet.{RuleSet};
ghost use Rattle.tz_types.specs.declared.zone_line.ZoneLine.{ZoneLine};
ghost use Rattle.tz_specs.specs.Until.{Nothing, Fixed, Rules};
ghost use Rattle.tz_specs.specs.Expansion.{Period, state_in, range_of, full_expansion, holds_instant, range_at, periods_from};
ghost use Rattle.tz_specs.specs.Cover.{Chains, end_from};
ghost use Rattle.tz_specs.specs.Standing.{TakesEffect, IsRangeOf};
ghost use Rattle.tz_specs.specs.Around.{IsNextChange, IsBeginAround, IsEndAround};

/// In a line that follows rules, the range around `t` runs from where the occurrence in effect comes to the least
/// instant of those to come, both cut to the line. What is in force at its begin is in force at `t`.
pub fn range_around_an_instant()
    ensures range { (set : RuleSet) (period : Period) (t begin end : ℤ) → period.following ≡ Rules set → period.start ≤ℤ t → t <ℤ period.finish → IsBeginAround set period t begin → IsEndAround set period t end → IsRangeOf period (range_of period begin end) × IsTrue (holds_instant t (range_of period begin end)) }
    ensures in_force { (set : RuleSet) (period : Period) (t begin : ℤ) → period.following ≡ Rules set → period.start ≤ℤ t → IsBeginAround set period t begin → state_in period begin ≡ state_in period t }
{}

/// The next change is after `t`, and an occurrence takes effect there.
pub fn next_change_takes_effect()
    ensures later { (set : RuleSet) (stdoff t change : ℤ) → IsNextChange set stdoff t change → t <ℤ change }
    ensures effect { (set : RuleSet) (stdoff t change : ℤ) → IsNextChange set stdoff t change → TakesEffect (Rules set) stdoff change }
{}

/// The range of a line that holds `t` is the one that the full expansion finds.
pub fn range_of_a_line_is_found()
    ensures found { (a b t : ℤ) (periods : List Period) (period : Period) (range : SysInfo) → Chains a b periods → Contains periods period → IsRangeOf period range → IsTrue (holds_instant t range) → range_at (full_expansion periods) t ≡ Some range }
    ensures plain { (period : Period) → period.start <ℤ period.finish → period.following ≡ Nothing → IsRangeOf period (range_of period period.start period.finish) }
    ensures fixed { (period : Period) (save : ℤ) (daylight : Bool) → period.start <ℤ period.finish → period.following ≡ Fixed save daylight → IsRangeOf period (range_of period period.start period.finish) }
{}

/// The lines of a zone follow one another wherever each one takes time.
pub fn lines_follow_one_another()
    ensures { (sets : List RuleSet) (start : ℤ) (lines : List ZoneLine) → All (λ period. period.start <ℤ period.finish) (periods_from sets start lines) → Chains start (end_from start (periods_from sets start lines)) (periods_from sets start lines) }
{}
