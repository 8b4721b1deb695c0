//! Laws: civil years in seconds.
ghost use Rattle.std.specs.Prelude.{◌≡◌, ◌↔◌, ℤ};
ghost use Rattle.jiff_core.specs.Calendar.{IsYear};
ghost use Rattle.tz_types.specs.Calendar.{LiesInYear};
ghost use Rattle.tz_specs.specs.CivilYear.{IsSecondOfYear};
ghost use Rattle.tz_specs.specs.Expansion.{IsInstant};

/// A civil year has the seconds of its days and no others: the midnight that ends it is the next year's. So an
/// instant lies in at most one year, and one in range in exactly one.
pub fn instant_lies_in_one_year()
    ensures seconds { (t year : ℤ) → IsYear year → LiesInYear t year ↔ IsSecondOfYear t year }
    ensures once { (t year other : ℤ) → IsYear year → IsYear other → LiesInYear t year → LiesInYear t other → year ≡ other }
    ensures some { (t : ℤ) → IsInstant t → (year : ℤ) × IsYear year × LiesInYear t year }
{}
