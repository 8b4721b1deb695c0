//! Texts that the rows name.

/// Two lines of New York's zone.
const TEXT_N: &str =
    "Zone America/New_York -4:56:02 - LMT 1883 Nov 18 17:00u\n        -5:00 - EST\n";

/// New York's rules, its zone, and a link to it.
const TEXT_A: &str = "\
# version 2024a
Rule US 1967 2006 - Oct lastSun 2:00 0 S
Rule US 1967 1973 - Apr lastSun 2:00 1:00 D
Rule US 1974 only - Jan 6 2:00 1:00 D
Rule US 1975 only - Feb lastSun 2:00 1:00 D
Rule US 1976 1986 - Apr lastSun 2:00 1:00 D
Rule US 1987 2006 - Apr Sun>=1 2:00 1:00 D
Rule US 2007 max - Mar Sun>=8 2:00 1:00 D
Rule US 2007 max - Nov Sun>=1 2:00 0 S
Zone America/New_York -4:56:02 - LMT 1883 Nov 18 17:00u
        -5:00 US E%sT
Link America/New_York US/Eastern
";

/// The same of a later version.
const TEXT_B: &str = "\
# version 2024b
Rule US 1967 2006 - Oct lastSun 2:00 0 S
Rule US 1967 1973 - Apr lastSun 2:00 1:00 D
Rule US 1974 only - Jan 6 2:00 1:00 D
Rule US 1975 only - Feb lastSun 2:00 1:00 D
Rule US 1976 1986 - Apr lastSun 2:00 1:00 D
Rule US 1987 2006 - Apr Sun>=1 2:00 1:00 D
Rule US 2007 max - Mar Sun>=8 2:00 1:00 D
Rule US 2007 max - Nov Sun>=1 2:00 0 S
Zone America/New_York -4:56:02 - LMT 1883 Nov 18 17:00u
        -5:00 US E%sT
Link America/New_York US/Eastern
";

/// The same rules in the compact spelling.
const TEXT_Z: &str = "\
# version 2024a
# This zic input file is in the public domain.
R u 1967 2006 - O lastSu 2 0 S
R u 1967 1973 - Ap lastSu 2 1 D
R u 1974 o - Ja 6 2 1 D
R u 1975 o - F lastSu 2 1 D
R u 1976 1986 - Ap lastSu 2 1 D
R u 1987 2006 - Ap Su>=1 2 1 D
R u 2007 ma - Mar Su>=8 2 1 D
R u 2007 ma - N Su>=1 2 0 S
Z America/New_York -4:56:2 - LMT 1883 N 18 17u
-5 u E%sT
L America/New_York US/Eastern
";

/// A save below zero in winter.
const TEXT_E: &str = "\
Rule Eire 1981 max - Mar lastSun 1:00u 0 -
Rule Eire 1996 max - Oct lastSun 1:00u -1:00 -
Zone Europe/Dublin 1:00 Eire IST/GMT
";

/// A rule that takes effect at the very end of a line.
const TEXT_U: &str = "\
Rule T 2000 max - Apr 1 2:00 1:00 D
Rule T 2000 max - Oct 1 2:00 0 S
Zone Test/Until 1:00 T A%sT 2010 Oct 1 2:00
        2:00 - B
";

/// The rules of that text, and its zone, apart.
const TEXT_P: &str = "\
Rule T 2000 max - Apr 1 2:00 1:00 D
Rule T 2000 max - Oct 1 2:00 0 S
";

const TEXT_Q: &str = "\
Zone Test/Until 1:00 T A%sT 2010 Oct 1 2:00
        2:00 - B
";

/// A zone whose continuation stands in another text.
const TEXT_G: &str = "Zone A 0 - X 2000\n";

const TEXT_H: &str = "0 - Y\n";

/// A day that may lie in the next month.
const TEXT_O: &str = "\
Rule O 2021 2022 - Oct Sun>=31 0:00u 1:00 X
Zone Test/Oct 0:00 O T%sT
";

/// Zones that don't stand in the order of their names, one of them named as the word for all zones, and a link.
const SEVERAL: &str = "\
Zone B 0 - b
Zone a 1 - c
Link B L
Zone A -1 1:00 d/e
Zone - 2 - %z
";

/// A standard offset of a day, on a last line without a newline.
const TEXT_D: &str = "Zone\tFar/East 24 - DAY";

/// A line whose end comes at its start.
const EMPTY_LINE: &str = "Zone A 0 - X 2000 Jan 1 0u\n0 - Y 2000 Jan 1 0u\n0 - Z\n";

/// An UNTIL whose time ends with a capital letter, which is a suffix like the small one.
const TEXT_C: &str = "Zone A 0 - X 2000 Jan 1 0U\n0 - Z\n";

/// The same offset under twelve abbreviations of 24 letters.
const TWELVE: &str = "\
Zone W 0 - AAAAAAAAAAAAAAAAAAAAAA00 2000
0 - AAAAAAAAAAAAAAAAAAAAAA01 2001
0 - AAAAAAAAAAAAAAAAAAAAAA02 2002
0 - AAAAAAAAAAAAAAAAAAAAAA03 2003
0 - AAAAAAAAAAAAAAAAAAAAAA04 2004
0 - AAAAAAAAAAAAAAAAAAAAAA05 2005
0 - AAAAAAAAAAAAAAAAAAAAAA06 2006
0 - AAAAAAAAAAAAAAAAAAAAAA07 2007
0 - AAAAAAAAAAAAAAAAAAAAAA08 2008
0 - AAAAAAAAAAAAAAAAAAAAAA09 2009
0 - AAAAAAAAAAAAAAAAAAAAAA10 2010
0 - AAAAAAAAAAAAAAAAAAAAAA11
";

/// Two lines of a zone that show the same.
const TEXT_V: &str = "Zone A 1 - X 2000\n1 - X\n";

/// Abbreviations without bytes.
const BARE: &str = "Rule R 2000 only - Jan 1 0 1 -\nZone Z 0 R %s\n";

/// A zone whose last line wants another.
const TEXT_W: &str = "Zone A 0 - X 2000 Jan 1 0u\n";

/// The 27 seconds that were inserted up to 2016.
const LEAPS: &str = "\
Leap 1972 Jun 30 23:59:60 + S
Leap 1981 Jun 30 23:59:60 + S
Leap 1982 Jun 30 23:59:60 + S
Leap 1983 Jun 30 23:59:60 + S
Leap 1985 Jun 30 23:59:60 + S
Leap 1992 Jun 30 23:59:60 + S
Leap 1993 Jun 30 23:59:60 + S
Leap 1994 Jun 30 23:59:60 + S
Leap 1997 Jun 30 23:59:60 + S
Leap 2012 Jun 30 23:59:60 + S
Leap 2015 Jun 30 23:59:60 + S
Leap 1972 Dec 31 23:59:60 + S
Leap 1973 Dec 31 23:59:60 + S
Leap 1974 Dec 31 23:59:60 + S
Leap 1975 Dec 31 23:59:60 + S
Leap 1976 Dec 31 23:59:60 + S
Leap 1977 Dec 31 23:59:60 + S
Leap 1978 Dec 31 23:59:60 + S
Leap 1979 Dec 31 23:59:60 + S
Leap 1987 Dec 31 23:59:60 + S
Leap 1989 Dec 31 23:59:60 + S
Leap 1990 Dec 31 23:59:60 + S
Leap 1995 Dec 31 23:59:60 + S
Leap 1998 Dec 31 23:59:60 + S
Leap 2005 Dec 31 23:59:60 + S
Leap 2008 Dec 31 23:59:60 + S
Leap 2016 Dec 31 23:59:60 + S
";

/// The same second twice.
const TWICE: &str = "Leap 2016 Dec 31 23:59:60 + S\nLeap 2016 Dec 31 23:59:60 + S\n";

/// A second is added before 2017, and one skipped before July 2020; the table expires with 2021.
const SKIPPED: &str = "\
Leap 2016 Dec 31 23:59:60 + S
Leap 2020 Jun 30 23:59:59 - S
Expires 2021 Jan 1 00:00:00
";

/// The same, and it expires once more.
const EXPIRES_TWICE: &str = "\
Leap 2016 Dec 31 23:59:60 + S
Leap 2020 Jun 30 23:59:59 - S
Expires 2021 Jan 1 00:00:00
Expires 2021 Jan 1 00:00:00
";

/// A table that expires before its only leap second.
const EARLY: &str = "Expires 2016 Dec 31 00:00:00\nLeap 2016 Dec 31 23:59:60 + S\n";

/// Seconds are skipped alone, so that fewer than none were added.
const BELOW: &str = "Leap 1969 Dec 31 23:59:59 - S\nLeap 1969 Dec 30 23:59:59 - S\n";

/// Two gaps, of which the second alone has the local time 1000.
const TWO_GAPS: &str =
    "Zone W 0 - A 1970\n24 - B 1970 Jan 1 0:01:40u\n-24 - C 1970 Jan 1 0:03:20u\n24 - D\n";

/// Each text by the name that rows call it.
pub const TEXTS: [(&str, &str); 40] = [
    ("N", TEXT_N),
    ("A", TEXT_A),
    ("B", TEXT_B),
    ("Z", TEXT_Z),
    ("E", TEXT_E),
    ("U", TEXT_U),
    ("P", TEXT_P),
    ("Q", TEXT_Q),
    ("G", TEXT_G),
    ("H", TEXT_H),
    ("=f", "Zone F 0 - F\n"),
    ("a,b", ""),
    ("O", TEXT_O),
    ("several", SEVERAL),
    ("D", TEXT_D),
    ("gap", TWO_GAPS),
    ("C", TEXT_C),
    ("emptyline", EMPTY_LINE),
    ("V", TEXT_V),
    ("twelve", TWELVE),
    ("bare", BARE),
    ("W", TEXT_W),
    ("empty", ""),
    ("L27", LEAPS),
    ("nul", "#\0\n"),
    ("quote", "Leap \"2016\n"),
    ("keyword", "\n# no\nFoo A B\n"),
    ("count", "Leap 2016 Dec 31 23:59:60 +\n"),
    ("year", "Leap 20x0 Dec 31 23:59:60 + S\n"),
    ("month", "Leap 2016 Ju 30 23:59:60 + S\n"),
    ("day", "Leap 2001 Feb 29 23:59:60 + S\n"),
    ("time", "Leap 2016 Dec 31 23:59:59 + S\n"),
    ("corr", "Leap 2016 Dec 31 23:59:60 * S\n"),
    ("rolling", "Leap 2016 Dec 31 23:59:60 + R\n"),
    ("twice", TWICE),
    ("M", SKIPPED),
    ("expires", EXPIRES_TWICE),
    ("early", EARLY),
    ("below", BELOW),
    ("X", "Expires 2021 Jan 1 00:00:00\n"),
];
