use crate::{amount, named, on, put_number, year};
use std::test::Fail;
use tz_types::{On, Weekday};

const MONTHS: &[u8] =
    b"January February March April May June July August September October November December";

const WEEKDAYS: &[u8] = b"Sunday Monday Tuesday Wednesday Thursday Friday Saturday";

const BOUNDS: &[u8] = b"maximum minimum only";

#[test]
fn reads_years(rt: HostRuntime) {
    let cases = [
        ("2000", Some(2000)),
        ("-9998", Some(-9998)),
        ("999999999", Some(999_999_999)),
        ("-999999999", Some(-999_999_999)),
        ("0007", Some(7)),
        ("1234567890", None),
        ("-1234567890", None),
        ("-", None),
        ("--1", None),
        ("+1", None),
        ("", None),
        ("20x0", None),
    ];
    for (word, want) in cases {
        assert_eq!(rt; year(word.as_bytes()), want, "{word}");
    }
}

#[test]
fn reads_amounts(rt: HostRuntime) {
    let cases = [
        ("2", Some((7_200, 0))),
        ("2:00", Some((7_200, 0))),
        ("-2:30s", Some((-9_000, b's'))),
        ("1:28:14", Some((5_294, 0))),
        ("00:19:32.5", Some((1_172, 0))),
        ("0:0:0.5", Some((0, 0))),
        ("0:0:1.5", Some((2, 0))),
        ("-0:0:0.5", Some((0, 0))),
        ("-0:0:1.5", Some((-2, 0))),
        ("0:0:1.499999999999", Some((1, 0))),
        ("0:0:1.500000000001", Some((2, 0))),
        ("0:0:1.5000000000001", None),
        ("0:0:1.", None),
        ("0:0:1.5.5", None),
        ("24:60", None),
        ("0:0:60", Some((60, 0))),
        ("0:0:61", None),
        ("1:2:3:4", None),
        ("1:", None),
        (":1", None),
        ("1.5", None),
        ("1:1.5", None),
        ("--1", None),
        ("+1", None),
        ("", None),
        ("-", Some((0, 0))),
        ("-s", None),
        ("s", None),
        ("1:00D", Some((3_600, b'd'))),
        ("1:00u", None),
        ("999:59:60.999", Some((3_600_001, 0))),
        ("-999:59:60.999", Some((-3_600_001, 0))),
        ("1000", None),
    ];
    for (word, want) in cases {
        let got = amount(word.as_bytes(), b"sd").map(|a| (a.seconds, a.suffix));
        assert_eq!(rt; got, want, "{word}");
    }
}

#[test]
fn names_entries(rt: HostRuntime) {
    let cases = [
        ("Mar", MONTHS, Some(2)),
        ("may", MONTHS, Some(4)),
        ("O", MONTHS, Some(9)),
        ("Jun", MONTHS, Some(5)),
        ("DECEMBER", MONTHS, Some(11)),
        ("Decembers", MONTHS, None),
        ("Ma", MONTHS, None),
        ("Ju", MONTHS, None),
        ("A", MONTHS, None),
        ("", MONTHS, None),
        ("Su", WEEKDAYS, Some(0)),
        ("M", WEEKDAYS, Some(1)),
        ("W", WEEKDAYS, Some(3)),
        ("F", WEEKDAYS, Some(5)),
        ("T", WEEKDAYS, None),
        ("S", WEEKDAYS, None),
        ("ma", BOUNDS, Some(0)),
        ("max", BOUNDS, Some(0)),
        ("mi", BOUNDS, Some(1)),
        ("o", BOUNDS, Some(2)),
        ("m", BOUNDS, None),
    ];
    for (word, table, want) in cases {
        assert_eq!(rt; named(word.as_bytes(), table), want, "{word}");
    }
}

#[test]
fn reads_days(rt: HostRuntime) {
    let cases = [
        ("5", Some(On::Day(5))),
        ("05", Some(On::Day(5))),
        ("31", Some(On::Day(31))),
        ("32", None),
        ("0", None),
        ("lastSun", Some(On::Last(Weekday::Sunday))),
        ("LASTsu", Some(On::Last(Weekday::Sunday))),
        ("Sun>=8", Some(On::From(Weekday::Sunday, 8))),
        ("Su<=25", Some(On::UpTo(Weekday::Sunday, 25))),
        ("T>=8", None),
        ("Sun>=", None),
        ("Sun>8", None),
        ("Sun>=32", None),
        ("Sun>=8>", None),
        (">=8", None),
        ("last", None),
        ("", None),
    ];
    for (word, want) in cases {
        assert_eq!(rt; on(word.as_bytes()), want, "{word}");
    }
}

#[test]
fn puts_numbers(rt: HostRuntime) -> Result<(), Fail> {
    let mut out = Vec::from_slice(rt.alloc(), b"at ")?;
    put_number(&mut out, 0)?;
    put_number(&mut out, -17)?;
    put_number(&mut out, i64::MAX)?;
    put_number(&mut out, i64::MIN)?;
    assert_eq!(rt;
        out.as_slice(),
        b"at 0-179223372036854775807-9223372036854775808".as_slice()
    );
    Ok(())
}
