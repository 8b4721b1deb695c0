//! Laws: the clocks on which occurrences and UNTILs are read (zic(8), AT and UNTIL).
ghost use Rattle.std.specs.Prelude.{◌≡◌, ℤ, pos, ◌+ℤ◌, Bool};
ghost use Rattle.tz_types.specs.declared.moment.AtKind.TheVariants as kinds;
ghost use Rattle.tz_types.specs.declared.moment.Moment.{Moment};
ghost use Rattle.tz_types.specs.declared.rule_set.RuleSet.{RuleSet};
ghost use Rattle.tz_specs.specs.Occurrence.{Occurrence, nominal_of, nominal_second};
ghost use Rattle.tz_specs.specs.Until.{Following, Nothing, Fixed, Rules, until_instant};
ghost use Rattle.tz_specs.specs.Standing.{IsOccurrence};
ghost use Rattle.tz_specs.specs.Effect.{HasSaveBefore, ComesAt, FirstNotBefore, IsUntilUnder, until_with};

/// An occurrence comes when its clock shows its nominal second. The clock of universal time is ahead by nothing, that of
/// standard time by the standard offset, whatever save is in force, and that of wall time by the save before it besides.
pub fn occurrences_come_on_their_clocks()
    ensures universal { (set : RuleSet) (stdoff : ℤ) (occurrence : Occurrence) (instant : ℤ) → occurrence.rule.moment.kind ≡ kinds.Universal → ComesAt set stdoff occurrence instant → instant ≡ nominal_of occurrence }
    ensures standard { (set : RuleSet) (stdoff : ℤ) (occurrence : Occurrence) (instant : ℤ) → occurrence.rule.moment.kind ≡ kinds.Standard → ComesAt set stdoff occurrence instant → (instant +ℤ stdoff) ≡ nominal_of occurrence }
    ensures wall { (set : RuleSet) (stdoff save : ℤ) (occurrence : Occurrence) (instant : ℤ) → occurrence.rule.moment.kind ≡ kinds.Wall → IsOccurrence set occurrence → HasSaveBefore set occurrence save → ComesAt set stdoff occurrence instant → ((instant +ℤ stdoff) +ℤ save) ≡ nominal_of occurrence }
{}

/// A line ends when the clock of its UNTIL shows the nominal second of the UNTIL. The clocks of universal and of standard
/// time show it whatever the line follows; that of wall time has the line's fixed save, or that of the occurrence
/// under which the UNTIL is read.
pub fn lines_end_on_the_clocks_of_their_untils()
    ensures universal { (following : Following) (stdoff year : ℤ) (moment : Moment) → moment.kind ≡ kinds.Universal → until_instant following stdoff year moment ≡ nominal_second year moment }
    ensures standard { (following : Following) (stdoff year : ℤ) (moment : Moment) → moment.kind ≡ kinds.Standard → (until_instant following stdoff year moment +ℤ stdoff) ≡ nominal_second year moment }
    ensures wall_alone { (stdoff year : ℤ) (moment : Moment) → moment.kind ≡ kinds.Wall → (until_instant Nothing stdoff year moment +ℤ stdoff) ≡ nominal_second year moment }
    ensures wall_fixed { (stdoff year save : ℤ) (daylight : Bool) (moment : Moment) → moment.kind ≡ kinds.Wall → ((until_instant (Fixed save daylight) stdoff year moment +ℤ stdoff) +ℤ save) ≡ nominal_second year moment }
    ensures wall_under { (set : RuleSet) (stdoff year : ℤ) (moment : Moment) (occurrence : Occurrence) → moment.kind ≡ kinds.Wall → IsUntilUnder set stdoff year moment occurrence → ((until_instant (Rules set) stdoff year moment +ℤ stdoff) +ℤ occurrence.rule.save) ≡ nominal_second year moment }
    ensures wall_before { (set : RuleSet) (stdoff year : ℤ) (moment : Moment) → moment.kind ≡ kinds.Wall → FirstNotBefore set stdoff (until_with stdoff year moment (pos 0)) → (until_instant (Rules set) stdoff year moment +ℤ stdoff) ≡ nominal_second year moment }
{}
