//! Rule sets, each as a text of its own.

/// The United States from 1967 on.
pub(crate) const UNITED_STATES: &str = "\
Rule S 1967 2006 - Oct lastSun 2:00 0 S
Rule S 1967 1973 - Apr lastSun 2:00 1:00 D
Rule S 1974 only - Jan 6 2:00 1:00 D
Rule S 1975 only - Feb lastSun 2:00 1:00 D
Rule S 1976 1986 - Apr lastSun 2:00 1:00 D
Rule S 1987 2006 - Apr Sun>=1 2:00 1:00 D
Rule S 2007 max - Mar Sun>=8 2:00 1:00 D
Rule S 2007 max - Nov Sun>=1 2:00 0 S
";

/// Ireland, whose winter time is the one with a save, and whose changes are read in universal time.
pub(crate) const IRELAND: &str = "\
Rule S 1981 max - Mar lastSun 1:00u 0 -
Rule S 1981 1989 - Oct Sun>=23 1:00u -1:00 -
Rule S 1990 1995 - Oct Sun>=22 1:00u -1:00 -
Rule S 1996 max - Oct lastSun 1:00u -1:00 -
";

/// The Sunday on or after 31 October, in two years: the second lies in November.
pub(crate) const LATE_OCTOBER: &str = "Rule S 2021 2022 - Oct Sun>=31 0:00u 1:00 X\n";

/// An hour from April to October, read in local time.
pub(crate) const APRIL_TO_OCTOBER: &str = "\
Rule S 2000 max - Apr 1 2:00 1:00 D
Rule S 2000 max - Oct 1 2:00 0 S
";

/// Saves of a whole day, with which each change overtakes others within a few days.
pub(crate) const OVERTAKING: &str = "\
Rule S 1980 1999 - Mar 1 0:00 24:00 A
Rule S 1980 1999 - Mar 2 0:00 -24:00 B
Rule S 1980 1999 - Mar 3 0:00 0 C
Rule S 1980 1999 - Mar 3 12:00 24:00 D
Rule S 1980 1999 - Mar 4 0:00 -24:00 E
Rule S 1980 1999 - Mar 4 0:00u 1:00 F
Rule S 1980 1999 - Mar 4 0:00s 24:00 G
Rule S 1980 1999 - Mar 5 23:00 -24:00 H
Rule S 1980 1999 - Mar 6 0:00 24:00 I
Rule S 1980 1999 - Mar 7 0:00s -24:00 J
";

/// Several rules on one nominal second, some of which come at one instant.
pub(crate) const ONE_SECOND: &str = "\
Rule S 1970 1985 - Apr lastSun 2:00 1:00 A
Rule S 1975 1990 - Apr lastSun 2:00 2:00 B
Rule S 1970 1990 - Apr lastSun 2:00s 0 C
Rule S 1972 1990 - Apr lastSun 2:00u 1:00 D
Rule S 1970 1990 - Apr lastSun 3:00 2:00 E
Rule S 1970 1990 - Apr lastSun 4:00 0 F
Rule S 1970 1990 - Oct Sun>=25 2:00 0 G
Rule S 1970 1990 - Oct Sun>=25 3:00 1:00 H
";

/// Years at the ends of those in which rules occur, and far outside of them.
pub(crate) const FIRST_AND_LAST_YEARS: &str = "\
Rule S -9998 only - Jan Sun<=1 -999:00 1:00 A
Rule S -99999 -9998 - Jan 1 0:00 0 B
Rule S -99999 -9990 - Dec Sun>=31 999:00 24:00 C
Rule S 9990 9998 - Jan 1 0:00 1:00 D
Rule S 9998 only - Dec Sun>=31 999:00 0 E
Rule S 9998 99999 - Dec 31 23:59:59 -24:00 F
Rule S 9997 max - Jul 1 0:00 0 G
";

/// One change in each year there is, beside the one of the last year.
pub(crate) const EVERY_YEAR: &str = "\
Rule S -99999 max - Jul 1 0:00 1:00 A
Rule S 9998 only - Jul 1 0:00 0 B
";

/// 29 February, and days that fall in the next month or year, or in the one before.
pub(crate) const STRANGE_DAYS: &str = "\
Rule S 2000 only - Feb 29 2:00 1:00 A
Rule S 1990 2010 - Feb Sun>=29 2:00 0 B
Rule S 1990 2010 - Mar Sun<=1 2:00 2:00 C
Rule S 1990 2010 - Oct Sun>=31 0:00u 1:00 D
Rule S 1990 2010 - Dec Sun>=31 500:00 0 E
Rule S 1990 2010 - Jan Sun<=1 -500:00 24:00 F
Rule S 1995 2005 - Jan 1 0:00 -24:00 G
Rule S 1995 2005 - Dec 31 24:00 1:00 H
";

/// Rules that are all over, or all to come, around years without any.
pub(crate) const GAPS: &str = "\
Rule S 1900 1901 - Jun 1 0:00 1:00 A
Rule S 1900 1903 - Sep 1 0:00 0 B
Rule S 1950 only - Jun 1 0:00 2:00 C
Rule S 2100 2101 - Jun 1 0:00s 1:00 D
Rule S 2100 2103 - Sep 1 0:00u 0 E
";
