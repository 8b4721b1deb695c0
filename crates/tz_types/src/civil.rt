//! Civil dates and times of day, as a clock on the wall shows them, after ISO C++20 [time.cal.ymd] and [time.hms]. Their seconds
//! are counted from 1970-01-01 00:00:00 of the same clock.
ghost use Rattle.std.specs.Prelude.{◌≡◌, ◌≤◌, ◌+◌, ◌*◌, ◌↔◌, pos, neg_ℤ, IsTrue, IsOk, IfOk};
ghost use Rattle.std.specs.Int.{IsInRange};
ghost use Rattle.jiff_core.specs.Calendar.{days_from_civil, days_in_month, IsBetween, IsYear, IsCivilDate};
ghost use Rattle.tz_types.specs.Civil.{is_civil_date, is_time_of_day, is_civil_second, civil_second};

use jiff_core::civil::{Date, days_in_month};
use std::error::Error;
use std::fmt;

/// No calendar has the date, or no clock shows the time.
#[derive(Clone, Copy, Debug, PartialEq, Eq, Hash)]
pub struct BadDate;

impl fmt::Display for BadDate {
    ghost use Rattle.std.specs.Prelude.{Some, codes};

    ghost output = { λ _. Some (codes "no calendar has the date, or no clock shows the time") };

    fn fmt<W: fmt::Write>(&self, f: &mut fmt::Formatter<W>) -> fmt::Result {
        f.write_str("no calendar has the date, or no clock shows the time")
    }
}

impl Error for BadDate {}

/// The calendar has the day, in the years -9999 to 9999.
fn is_date(year: i32, month: u8, day: u8) -> bool
    ensures { result ≡ is_civil_date year month day }
{
    if year < -9_999 || year > 9_999 || month < 1 || month > 12 {
        return false;
    }
    day >= 1 && day <= days_in_month(year as i16, month)
}

/// The day number of a date, where 1970-01-01 is 0.
fn day_number(year: i32, month: u8, day: u8) -> i64
    requires { IsTrue (is_civil_date year month day) }
    ensures value { result ≡ days_from_civil year month day }
    ensures bound { IsBetween (neg_ℤ (pos 4_371_587)) (pos 2_932_896) result }
{
    let date = Date {
        year: year as i16,
        month,
        day,
    };
    i64::from(date.to_unix_epoch_day())
}

/// How many seconds of a day have passed.
fn second_of_day(hour: u8, minute: u8, second: u8) -> u32
    requires { IsTrue (is_time_of_day hour minute second) }
    ensures value { result ≡ 3_600 * hour + 60 * minute + second }
    ensures bound { result ≤ 86_399 }
{
    3_600 * u32::from(hour) + 60 * u32::from(minute) + u32::from(second)
}

/// The local second of a civil date and time of day. `BadDate` comes exactly where this is no civil date of the years -9999
/// to 9999, where the hour is above 23, or the minute or the second above 59.
pub fn civil_seconds(
    year: i32,
    month: u8,
    day: u8,
    hour: u8,
    minute: u8,
    second: u8,
) -> Result<i64, BadDate>
    ensures accepted { IsOk result ↔ IsTrue (is_civil_second year month day hour minute second) }
    ensures value { IfOk result (λ t. t ≡ civil_second year month day hour minute second) }
{
    if !is_date(year, month, day) || hour > 23 || minute > 59 || second > 59 {
        return Err(BadDate);
    }
    Ok(86_400 * day_number(year, month, day) + i64::from(second_of_day(hour, minute, second)))
}
