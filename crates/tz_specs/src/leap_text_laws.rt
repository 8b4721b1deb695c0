//! A leap text is read as one table, or refused with one fault, and not both.
ghost use Rattle.std.specs.Prelude.{◌≡◌, ◌⊎◌, ℕ, List, All, ◌<ℤ◌};
ghost use Rattle.tz_types.specs.declared.fault.LineFault.{LineFault};
ghost use Rattle.tz_types.specs.declared.leaps.Leaps.{Leaps};
ghost use Rattle.tz_specs.specs.Expansion.{first_instant, end_of_time};
ghost use Rattle.tz_specs.specs.LeapText.{ReadsLeaps, RefusesLeaps};

/// Each leap text is read as a table, or refused with a fault.
pub fn each_leap_text_is_read_or_refused()
    ensures { (text : List ℕ) → ((leaps : Leaps) × ReadsLeaps text leaps) ⊎ ((fault : LineFault) × RefusesLeaps text fault) }
{}

/// Two tables that a leap text is read as are one.
pub fn at_most_one_leap_table()
    ensures { (text : List ℕ) (leaps other : Leaps) → ReadsLeaps text leaps → ReadsLeaps text other → leaps ≡ other }
{}

/// Two faults with which a leap text is refused are one.
pub fn at_most_one_leap_fault()
    ensures { (text : List ℕ) (fault other : LineFault) → RefusesLeaps text fault → RefusesLeaps text other → fault ≡ other }
{}

/// A leap text that is read isn't refused.
pub fn read_leap_texts_are_not_refused()
    ensures { (text : List ℕ) (leaps : Leaps) (fault : LineFault) → ReadsLeaps text leaps → ¬ (RefusesLeaps text fault) }
{}

/// The dates of a table that is read lie in time, so that its clocks keep to their ranges.
pub fn leap_texts_give_dates_in_time()
    ensures { (text : List ℕ) (leaps : Leaps) → ReadsLeaps text leaps → All (λ entry. (first_instant <ℤ entry.date) × (entry.date <ℤ end_of_time)) leaps.entries }
{}
