//! Months, weekdays and days of a month in the proleptic Gregorian calendar (zic(8), "Rule lines", IN and ON).
ghost use Rattle.std.specs.Prelude.{◌≡◌, ℕ, ◌+◌, ◌-◌, ◌<◌, ◌≤◌, pos, neg_ℤ, ◌+ℤ◌, ◌-ℤ◌, ◌≤ℤ◌, ◌<ℤ◌, IsTrue};
ghost use Rattle.std.specs.Int.{IsInRange};
ghost use Rattle.jiff_core.specs.Calendar.{days_from_civil, days_in_month, is_leap_year, weekday_number, IsBetween, IsYear, IsEpochDay};
ghost use Rattle.jiff_core.specs.Date.{epoch_day};
ghost use Rattle.tz_types.specs.Year.{IsRuleYear};
ghost use Rattle.tz_types.specs.Calendar.{month_number, monday_zero, has_day, has_day_through, is_day_up_to, longest_month, shortest_month, counted_day, on_or_after, on_or_before, day_number, LiesInYear};

use jiff_core::civil::{Date, days_in_month};

/// A month of the Gregorian calendar.
#[derive(Clone, Copy, Debug, PartialEq, Eq, Hash)]
pub enum Month {
    January,
    February,
    March,
    April,
    May,
    June,
    July,
    August,
    September,
    October,
    November,
    December,
}

/// A day of the week.
#[derive(Clone, Copy, Debug, PartialEq, Eq, Hash)]
pub enum Weekday {
    Sunday,
    Monday,
    Tuesday,
    Wednesday,
    Thursday,
    Friday,
    Saturday,
}

/// A day of a month, as zic(8) writes it: `5`, `lastSun`, `Sun>=8` or `Sun<=25`.
#[derive(Clone, Copy, Debug, PartialEq, Eq, Hash)]
pub enum On {
    Day(u8),
    Last(Weekday),
    From(Weekday, u8),
    UpTo(Weekday, u8),
}

impl Month {
    /// January is 1, and December 12.
    pub fn number(self) -> u8
        ensures value { result ≡ month_number self }
        ensures bound { IsInRange 1 12 result }
    {
        match self {
            Month::January => 1,
            Month::February => 2,
            Month::March => 3,
            Month::April => 4,
            Month::May => 5,
            Month::June => 6,
            Month::July => 7,
            Month::August => 8,
            Month::September => 9,
            Month::October => 10,
            Month::November => 11,
            Month::December => 12,
        }
    }
}

impl Weekday {
    /// Monday is 0, and Sunday 6.
    fn from_monday(self) -> u8
        ensures value { result ≡ monday_zero self }
        ensures bound { result < 7 }
    {
        match self {
            Weekday::Sunday => 6,
            Weekday::Monday => 0,
            Weekday::Tuesday => 1,
            Weekday::Wednesday => 2,
            Weekday::Thursday => 3,
            Weekday::Friday => 4,
            Weekday::Saturday => 5,
        }
    }
}

/// The day number of a civil date, where 1970-01-01 is 0.
fn civil_day(year: i32, month: Month, day: u8) -> i64
    requires year_in { IsRuleYear year }
    requires day_in { IsInRange 1 (days_in_month year (month_number month)) day }
    ensures value { result ≡ days_from_civil year (month_number month) day }
    ensures bound { IsBetween (neg_ℤ (pos 4_371_222)) (pos 2_932_531) result }
{
    let date = Date {
        year: year as i16,
        month: month.number(),
        day,
    };
    i64::from(date.to_unix_epoch_day())
}

/// Which day of the week a day number is, from 0 for Monday.
#[tactic(auto, unfolding(jiff_core::specs::Calendar::weekday_number))]
fn weekday_of(day: i64) -> u8
    requires { IsBetween (neg_ℤ (pos 4_372_000)) (pos 2_933_000) day }
    ensures value { result ≡ weekday_number day }
    ensures bound { result < 7 }
{
    (day + 3).rem_euclid(7) as u8
}

/// How many days the month has in the year.
fn month_length(year: i32, month: Month) -> u8
    requires { IsRuleYear year }
    ensures value { result ≡ days_in_month year (month_number month) }
    ensures bound { IsInRange 28 31 result }
{
    days_in_month(year as i16, month.number())
}

/// Day `day` counted from the first of the month.
fn counted(year: i32, month: Month, day: u8) -> i64
    requires year_in { IsRuleYear year }
    requires day_in { IsTrue (is_day_up_to (longest_month month) day) }
    ensures value { result ≡ counted_day year month day }
    ensures bound { IsBetween (neg_ℤ (pos 4_371_222)) (pos 2_932_561) result }
{
    civil_day(year, month, 1) + (i64::from(day) - 1)
}

/// The first such weekday on or after the day.
fn first_from(weekday: Weekday, day: i64) -> i64
    requires { IsBetween (neg_ℤ (pos 4_371_222)) (pos 2_932_561) day }
    ensures value { result ≡ on_or_after weekday day }
    ensures bound { IsBetween (neg_ℤ (pos 4_371_222)) (pos 2_932_567) result }
{
    day + i64::from((weekday.from_monday() + 7 - weekday_of(day)) % 7)
}

/// The last such weekday on or before the day.
fn last_up_to(weekday: Weekday, day: i64) -> i64
    requires { IsBetween (neg_ℤ (pos 4_371_222)) (pos 2_932_561) day }
    ensures value { result ≡ on_or_before weekday day }
    ensures bound { IsBetween (neg_ℤ (pos 4_371_228)) (pos 2_932_561) result }
{
    day - i64::from((weekday_of(day) + 7 - weekday.from_monday()) % 7)
}

/// Whether the day can be asked for in that year: a plain day number is one that the month then has, and
/// one after `>=` or `<=` is one that it has in a leap year.
pub fn has_day(year: i32, month: Month, on: On) -> bool
    requires { IsRuleYear year }
    ensures { result ≡ has_day year month on }
{
    match on {
        On::Day(day) => is_up_to(day, month_length(year, month)),
        On::Last(_) => true,
        On::From(_, day) => is_up_to(day, month_length(2000, month)),
        On::UpTo(_, day) => is_up_to(day, month_length(2000, month)),
    }
}

/// Whether the year has a 29 February, as every fourth year, but of the centuries only every fourth.
fn is_leap_year(year: i32) -> bool
    ensures { result ≡ is_leap_year year }
{
    let year = year.unsigned_abs();
    year % 4 == 0 && (year % 100 != 0 || year % 400 == 0)
}

/// How many days the month has in a year that may lie far outside of those in which rules occur.
fn length_in(year: i32, month: Month) -> u8
    ensures { result ≡ days_in_month year (month_number month) }
{
    if is_leap_year(year) {
        month_length(2000, month)
    } else {
        month_length(2001, month)
    }
}

/// Whether the day can be asked for in every year from one to another: 29 February as a plain day number takes one
/// single leap year.
pub fn has_day_through(from: i32, to: i32, month: Month, on: On) -> bool
    ensures { result ≡ has_day_through from to month on }
{
    match on {
        On::Day(day) if from == to => is_up_to(day, length_in(from, month)),
        On::Day(day) => is_up_to(day, month_length(2001, month)),
        On::Last(_) => true,
        On::From(_, day) => is_up_to(day, month_length(2000, month)),
        On::UpTo(_, day) => is_up_to(day, month_length(2000, month)),
    }
}

fn is_up_to(day: u8, last: u8) -> bool
    ensures { result ≡ is_day_up_to last day }
{
    day >= 1 && day <= last
}

/// The day number of a day of a month, where 1970-01-01 is 0. The day may lie in the neighbouring month.
#[tactic(auto, unfolding(crate::specs::Calendar::day_number))]
pub fn day_of(year: i32, month: Month, on: On) -> i64
    requires year_in { IsRuleYear year }
    requires day_in { IsTrue (has_day year month on) }
    ensures value { result ≡ day_number year month on }
    ensures bound { IsBetween (neg_ℤ (pos 4_371_228)) (pos 2_932_567) result }
{
    match on {
        On::Day(day) => civil_day(year, month, day),
        On::Last(weekday) => last_up_to(weekday, civil_day(year, month, month_length(year, month))),
        On::From(weekday, day) => first_from(weekday, counted(year, month, day)),
        On::UpTo(weekday, day) => last_up_to(weekday, counted(year, month, day)),
    }
}

/// The civil day with that day number, where 1970-01-01 is 0.
fn date_of(day: i64) -> Date
    requires { IsEpochDay day }
    ensures { epoch_day result ≡ day }
{
    match Date::from_unix_epoch_day(day) {
        Ok(date) => date,
        Err(_) => unreachable!(),
    }
}

/// The civil year of an instant in universal time, in seconds from 1970-01-01 00:00:00.
pub fn civil_year(t: i64) -> i32
    requires from { neg_ℤ (pos 377_705_116_800) ≤ℤ t }
    requires before { t <ℤ pos 253_402_300_800 }
    ensures year { LiesInYear t result }
    ensures bound { IsYear result }
{
    i32::from(date_of(t.div_euclid(86_400)).year)
}
