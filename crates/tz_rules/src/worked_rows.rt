//! Until-times, letters and abbreviations whose values are known from elsewhere.
ghost use Rattle.std.specs.Prelude.{◌≡◌, ◌≤ℤ◌, ◌&&◌, ◌||◌, ◌==◌, not, map, nat_lt, length, pos, IsTrue, IfOk};
ghost use Rattle.std.specs.List.{list_all};
ghost use Rattle.jiff_core.specs.Calendar.{IsWithin};
ghost use Rattle.tz_types.specs.Amount.{IsShift, IsTimeOfDay};
ghost use Rattle.tz_types.specs.Calendar.{has_day, has_day_through};
ghost use Rattle.tz_types.specs.Format.{is_plain_part, is_format_length, is_format};
ghost use Rattle.tz_types.specs.Order.{ascends, ascends_after};
ghost use Rattle.tz_types.specs.Year.{IsWrittenYear, IsRuleYear};

use crate::{InForce, abbreviation, letters_before, until_instant};
use std::alloc::Global;
use std::test::Fail;
use tz_types::{
    Abbrev, AtKind, Format, Items, Label, Letters, Moment, Month, On, Rule, RuleSet, TextError,
    Until, Weekday,
};

const MAX: i32 = 999_999_999;

fn ascend_after(line: u32, rules: &[Rule]) -> bool
    ensures { result ≡ ascends_after nat_lt line (map (λ rule. rule.line) rules.now) }
{
    match rules {
        [] => true,
        [first, rest @ ..] => line < first.line && ascend_after(first.line, rest),
    }
}

fn ascend(rules: &[Rule]) -> bool
    ensures { result ≡ ascends nat_lt (map (λ rule. rule.line) rules.now) }
{
    match rules {
        [] => true,
        [first, rest @ ..] => ascend_after(first.line, rest),
    }
}

/// A set of these rules, where their lines ascend.
fn set_of(rules: Vec<Rule>) -> Result<RuleSet, Fail> {
    let name = Label::new(b"Test")?;
    let rules = Items::from_vec(rules);
    if !ascend(rules.as_slice()) || rules.len() > 512 {
        return Err(Fail::from(TextError));
    }
    Ok(RuleSet { name, rules })
}

fn rule(
    years: (i32, i32),
    moment: Moment,
    save: i64,
    letters: &str,
    line: u32,
) -> Result<Rule, Fail>
    requires from_in { IsWrittenYear years.0 }
    requires to_in { IsWrittenYear years.1 }
    requires ordered { years.0 ≤ℤ years.1 }
    requires day_in { IsTrue (has_day_through years.0 years.1 moment.month moment.on) }
    requires at_in { IsTimeOfDay moment.at }
    requires save_in { IsShift save }
{
    let letters = Letters::new(letters.as_bytes())?;
    Ok(Rule {
        from: years.0,
        to: years.1,
        moment,
        save,
        daylight: save != 0,
        letters,
        line,
    })
}

fn wall(month: Month, on: On, at: i64) -> Moment
    ensures { result ≡ record { month = month; on = on; at = at; kind = AtKind.Wall } }
{
    Moment {
        month,
        on,
        at,
        kind: AtKind::Wall,
    }
}

fn universal(month: Month, on: On, at: i64) -> Moment
    ensures { result ≡ record { month = month; on = on; at = at; kind = AtKind.Universal } }
{
    Moment {
        month,
        on,
        at,
        kind: AtKind::Universal,
    }
}

fn until(year: i32, moment: Moment) -> Until
    requires year_in { IsRuleYear year }
    requires day_in { IsTrue (has_day year moment.month moment.on) }
    requires at_in { IsTimeOfDay moment.at }
{
    Until { year, moment }
}

/// The rules of the United States from 1967 on.
fn united_states(alloc: Global) -> Result<RuleSet, Fail> {
    use Month::{April, February, January, March, November, October};
    use On::{Day, From, Last};
    let sunday = Weekday::Sunday;
    let last_april = wall(April, Last(sunday), 7200);
    let last_october = wall(October, Last(sunday), 7200);
    set_of(vec![in alloc;
        rule((1967, 2006), last_october, 0, "S", 1)?,
        rule((1967, 1973), last_april, 3600, "D", 2)?,
        rule((1974, 1974), wall(January, Day(6), 7200), 3600, "D", 3)?,
        rule(
            (1975, 1975),
            wall(February, Last(sunday), 7200),
            3600,
            "D",
            4
        )?,
        rule((1976, 1986), last_april, 3600, "D", 5)?,
        rule(
            (1987, 2006),
            wall(April, From(sunday, 1), 7200),
            3600,
            "D",
            6
        )?,
        rule(
            (2007, MAX),
            wall(March, From(sunday, 8), 7200),
            3600,
            "D",
            7
        )?,
        rule(
            (2007, MAX),
            wall(November, From(sunday, 1), 7200),
            0,
            "S",
            8
        )?,
    ]?)
}

/// Clocks go forward on 1 April and back on 1 October, from 2000 on.
fn april_to_october(alloc: Global) -> Result<RuleSet, Fail> {
    let april = wall(Month::April, On::Day(1), 7200);
    let october = wall(Month::October, On::Day(1), 7200);
    set_of(vec![in alloc;
        rule((2000, MAX), april, 3600, "D", 1)?,
        rule((2000, MAX), october, 0, "S", 2)?,
    ]?)
}

/// Ireland's rules, where winter time is the one with a save.
fn ireland(alloc: Global) -> Result<RuleSet, Fail> {
    let march = universal(Month::March, On::Last(Weekday::Sunday), 3600);
    let october = universal(Month::October, On::Last(Weekday::Sunday), 3600);
    set_of(vec![in alloc;
        rule((1981, MAX), march, 0, "", 1)?,
        rule((1996, MAX), october, -3600, "", 2)?,
    ]?)
}

/// A rule with a save alone.
fn saves_alone(alloc: Global) -> Result<RuleSet, Fail> {
    let october = universal(Month::October, On::From(Weekday::Sunday, 31), 0);
    set_of(vec![in alloc; rule((2021, 2022), october, 3600, "X", 1)?]?)
}

/// Clocks go forward once, on 1 March 2000 at 02:00.
fn forward_once(alloc: Global) -> Result<RuleSet, Fail> {
    let march = wall(Month::March, On::Day(1), 7200);
    set_of(vec![in alloc; rule((2000, 2000), march, 3600, "D", 1)?]?)
}

#[test]
fn lines_end_without_rules(rt: HostRuntime) {
    let noon = universal(Month::November, On::Day(18), 61_200);
    assert_eq!(rt;
        until_instant(None, 0, -17_762, &until(1883, noon)),
        -2_717_650_800
    );
    let first = wall(Month::January, On::Day(1), 0);
    assert_eq!(rt; until_instant(None, 0, 3600, &until(1970, first)), -3600);
    assert_eq!(rt; until_instant(None, 1800, 3600, &until(1970, first)), -5400);
}

#[test]
fn lines_end_at_a_rule(rt: HostRuntime) -> Result<(), Fail> {
    let set = april_to_october(rt.alloc())?;
    let october = |at| wall(Month::October, On::Day(1), at);
    let ends = [
        (7199, 1_285_891_199),
        (7200, 1_285_891_200),
        (7201, 1_285_894_801),
    ];
    for (at, instant) in ends {
        let end = until(2010, october(at));
        assert_eq!(rt; until_instant(Some(&set), 0, 3600, &end), instant);
    }
    Ok(())
}

#[test]
fn lines_end_inside_a_gap(rt: HostRuntime) -> Result<(), Fail> {
    let set = forward_once(rt.alloc())?;
    let march = |at| wall(Month::March, On::Day(1), at);
    let ends = [
        (7199, 951_875_999),
        (7200, 951_876_000),
        (7201, 951_872_401),
        (9000, 951_874_200),
        (10_800, 951_876_000),
        (10_801, 951_876_001),
    ];
    for (at, instant) in ends {
        let end = until(2000, march(at));
        assert_eq!(rt; until_instant(Some(&set), 0, 0, &end), instant);
    }
    Ok(())
}

#[test]
fn letters_before_rules(rt: HostRuntime) -> Result<(), Fail> {
    let alloc = rt.alloc();
    assert_eq!(rt;
        letters_before(&united_states(alloc)?).as_bytes(),
        b"S".as_slice()
    );
    assert_eq!(rt;
        letters_before(&april_to_october(alloc)?).as_bytes(),
        b"S".as_slice()
    );
    assert_eq!(rt; letters_before(&ireland(alloc)?).as_bytes(), b"".as_slice());
    assert_eq!(rt;
        letters_before(&saves_alone(alloc)?).as_bytes(),
        b"".as_slice()
    );
    Ok(())
}

fn is_plain_part(bytes: &[u8]) -> bool
    ensures { result ≡ is_plain_part bytes.now }
{
    bytes.iter().all(|byte| !(*byte == b'%' || *byte == b'/'))
}

fn is_format_length(bytes: usize) -> bool
    ensures { result ≡ is_format_length bytes }
{
    bytes >= 1 && bytes <= 24
}

fn is_format(format: &Format) -> bool
    ensures { result ≡ is_format format.now }
{
    match format {
        Format::Text(text) => {
            is_plain_part(text.as_bytes()) && is_format_length(text.as_bytes().len())
        }
        Format::Letters { before, after } | Format::Offset { before, after } => {
            is_plain_part(before.as_bytes())
                && is_plain_part(after.as_bytes())
                && is_format_length(before.as_bytes().len() + 2 + after.as_bytes().len())
        }
        Format::Pair { standard, daylight } => {
            is_plain_part(standard.as_bytes())
                && is_plain_part(daylight.as_bytes())
                && standard.as_bytes().len() >= 1
                && daylight.as_bytes().len() >= 1
                && is_format_length(standard.as_bytes().len() + 1 + daylight.as_bytes().len())
        }
    }
}

fn abbrev(text: &str) -> Result<Abbrev, Fail> {
    Ok(Abbrev::new(text.as_bytes())?)
}

/// Whether the format gives this abbreviation.
fn gives(format: &Format, in_force: &InForce<'_>, offset: i64, text: &str) -> bool
    requires { IsWithin 172_800 offset }
{
    is_format(format) && abbreviation(format, in_force, offset).as_bytes() == text.as_bytes()
}

#[test]
fn abbreviations_by_letters(rt: HostRuntime) -> Result<(), Fail> {
    let format = Format::Letters {
        before: abbrev("E")?,
        after: abbrev("T")?,
    };
    let summer = rule(
        (2007, MAX),
        wall(Month::March, On::Day(8), 7200),
        3600,
        "D",
        1,
    )?;
    let letters = letters_before(&united_states(rt.alloc())?);
    assert!(rt; gives(&format, &InForce::put_by(&summer), -14_400, "EDT"));
    assert!(rt; gives(&format, &InForce::standard(&letters), -18_000, "EST"));
    assert!(rt; gives(&format, &InForce::fixed(3600, true), -14_400, "ET"));
    let text = Format::Text(abbrev("LMT")?);
    assert!(rt; gives(&text, &InForce::put_by(&summer), -17_762, "LMT"));
    Ok(())
}

#[test]
fn abbreviations_by_the_mark(rt: HostRuntime) -> Result<(), Fail> {
    let format = Format::Pair {
        standard: abbrev("IST")?,
        daylight: abbrev("GMT")?,
    };
    let october = universal(Month::October, On::Last(Weekday::Sunday), 3600);
    let winter = rule((1996, MAX), october, -3600, "", 1)?;
    let letters = letters_before(&ireland(rt.alloc())?);
    assert!(rt; gives(&format, &InForce::put_by(&winter), 0, "GMT"));
    assert!(rt; gives(&format, &InForce::standard(&letters), 3600, "IST"));
    assert!(rt; gives(&format, &InForce::fixed(0, false), 3600, "IST"));
    Ok(())
}

#[test]
fn abbreviations_by_the_offset(rt: HostRuntime) -> Result<(), Fail> {
    let format = Format::Offset {
        before: abbrev("")?,
        after: abbrev("")?,
    };
    let standard = InForce::fixed(0, false);
    let texts = [
        (0, "+00"),
        (7200, "+02"),
        (-12_600, "-0330"),
        (20_700, "+0545"),
        (-17_762, "-045602"),
        (59, "+000059"),
        (-60, "-0001"),
        (172_800, "+48"),
        (-172_800, "-48"),
    ];
    for (offset, text) in texts {
        assert!(rt; gives(&format, &standard, offset, text), "{text}");
    }
    let framed = Format::Offset {
        before: abbrev("A")?,
        after: abbrev("B")?,
    };
    assert!(rt; gives(&framed, &standard, 3600, "A+01B"));
    Ok(())
}
