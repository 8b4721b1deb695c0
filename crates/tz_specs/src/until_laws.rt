//! Laws: when lines end (zic(8), "Zone lines", UNTIL).
ghost use Rattle.std.specs.Prelude.{◌≡◌, ◌⊎◌, ℤ, ◌<ℤ◌, ◌≤ℤ◌, Bool, List, Some, IsTrue};
ghost use Rattle.tz_types.specs.Amount.{IsShift};
ghost use Rattle.tz_types.specs.declared.moment.AtKind.TheVariants as kinds;
ghost use Rattle.tz_types.specs.declared.moment.Moment.{Moment};
ghost use Rattle.tz_types.specs.declared.rule_set.RuleSet.{RuleSet};
ghost use Rattle.tz_types.specs.declared.until.Until.{Until};
ghost use Rattle.tz_types.specs.declared.zone_line.ZoneLine.{ZoneLine};
ghost use Rattle.tz_specs.specs.Occurrence.{Occurrence, nominal_second, precedes};
ghost use Rattle.tz_specs.specs.Until.{Following, Nothing, Fixed, Rules, until_instant};
ghost use Rattle.tz_specs.specs.Expansion.{first_instant, end_of_time, finish_of};
ghost use Rattle.tz_specs.specs.Effect.{IsUntilUnder};

/// A line with an UNTIL ends strictly inside time, whatever it follows.
pub fn untils_lie_inside_time()
    ensures alone { (stdoff : ℤ) (until : Until) → IsShift stdoff → (first_instant <ℤ until_instant Nothing stdoff until.year until.moment) × (until_instant Nothing stdoff until.year until.moment <ℤ end_of_time) }
    ensures fixed { (stdoff save : ℤ) (daylight : Bool) (until : Until) → IsShift stdoff → IsShift save → (first_instant <ℤ until_instant (Fixed save daylight) stdoff until.year until.moment) × (until_instant (Fixed save daylight) stdoff until.year until.moment <ℤ end_of_time) }
    ensures rules { (set : RuleSet) (stdoff : ℤ) (until : Until) → IsShift stdoff → (first_instant <ℤ until_instant (Rules set) stdoff until.year until.moment) × (until_instant (Rules set) stdoff until.year until.moment <ℤ end_of_time) }
    ensures lines { (sets : List RuleSet) (line : ZoneLine) (until : Until) → line.until ≡ Some until → (first_instant <ℤ finish_of sets line) × (finish_of sets line <ℤ end_of_time) }
{}

/// With a greater UNTIL on the same clock a line doesn't end earlier: on the clocks of universal and of standard time
/// whatever it follows, and on that of wall time where it follows no rule set.
/// In wall time under rules an UNTIL inside a gap may end a line earlier than one before the gap. There the occurrence
/// under which the greater one is read is the same, or a later one.
pub fn greater_untils_end_no_earlier()
    ensures universal { (following : Following) (stdoff year later : ℤ) (moment other : Moment) → moment.kind ≡ kinds.Universal → other.kind ≡ kinds.Universal → nominal_second year moment ≤ℤ nominal_second later other → until_instant following stdoff year moment ≤ℤ until_instant following stdoff later other }
    ensures standard { (following : Following) (stdoff year later : ℤ) (moment other : Moment) → moment.kind ≡ kinds.Standard → other.kind ≡ kinds.Standard → nominal_second year moment ≤ℤ nominal_second later other → until_instant following stdoff year moment ≤ℤ until_instant following stdoff later other }
    ensures wall_alone { (stdoff year later : ℤ) (moment other : Moment) → moment.kind ≡ kinds.Wall → other.kind ≡ kinds.Wall → nominal_second year moment ≤ℤ nominal_second later other → until_instant Nothing stdoff year moment ≤ℤ until_instant Nothing stdoff later other }
    ensures wall_fixed { (stdoff save year later : ℤ) (daylight : Bool) (moment other : Moment) → moment.kind ≡ kinds.Wall → other.kind ≡ kinds.Wall → nominal_second year moment ≤ℤ nominal_second later other → until_instant (Fixed save daylight) stdoff year moment ≤ℤ until_instant (Fixed save daylight) stdoff later other }
    ensures under { (set : RuleSet) (stdoff year later : ℤ) (moment other : Moment) (first second : Occurrence) → moment.kind ≡ other.kind → nominal_second year moment ≤ℤ nominal_second later other → IsUntilUnder set stdoff year moment first → IsUntilUnder set stdoff later other second → (first ≡ second) ⊎ IsTrue (precedes first second) }
{}
