//! Each set under each standard offset, at instants around a dozen of its changes and far outside of time.
ghost use Rattle.tz_types.specs.Amount.{IsShift};

use crate::compared::{Listed, Told, agree, searched};
use crate::listing::occurrences;
use crate::sets::{
    APRIL_TO_OCTOBER, EVERY_YEAR, FIRST_AND_LAST_YEARS, GAPS, IRELAND, LATE_OCTOBER, ONE_SECOND,
    OVERTAKING, STRANGE_DAYS, UNITED_STATES,
};
use crate::state::instants;
use std::alloc::Global;
use std::test::Fail;
use tz_lines::read_zones;
use tz_rules::Taken;
use tz_types::{Db, RuleSet, Source, TextError};

/// Standard offsets, to both ends.
const OFFSETS: [i64; 5] = [-86_400, -18_000, 0, 3_600, 86_400];

/// How far from a change the instants lie that are asked for.
const DISTANCES: [i64; 7] = [-172_800, -86_400, -1, 0, 1, 86_400, 172_800];

/// Instants far outside of time, and at its ends.
const FAR: [i64; 6] = [
    i64::MIN,
    -377_705_116_800,
    -377_678_000_000,
    253_378_000_000,
    253_402_300_799,
    i64::MAX,
];

/// About how many changes of a set are asked for, and of one with many, whose list is slow.
const CHANGES: usize = 60;

const CHANGES_OF_MANY: usize = 8;

/// A set with more changes has many.
const MANY: usize = 1_000;

fn db_of(alloc: Global, text: &str) -> Result<Db, Fail> {
    if text.len() > 4_194_304 {
        return Err(Fail::from(TextError));
    }
    let Ok(source) = Source::of_text(alloc, text.as_bytes().to_vec(alloc)?) else {
        return Err(Fail::from(TextError));
    };
    match read_zones(alloc, &source) {
        Ok(db) => Ok(db),
        Err(_) => Err(Fail::from(TextError)),
    }
}

/// How many instants agree, of how many that are asked for.
fn count(listed: Listed<'_>, stdoff: i64) -> (u32, u32)
    requires { IsShift stdoff }
{
    let mut agreed: u32 = 0;
    let mut asked: u32 = 0;
    let all = listed.instants.len();
    let step = if all > MANY {
        all / CHANGES_OF_MANY
    } else {
        all / CHANGES + 1
    };
    for (place, change) in listed.instants.iter().enumerate() {
        if place % step == 0 || place + 3 > all {
            for distance in DISTANCES {
                asked = asked.wrapping_add(1);
                if agree(listed, stdoff, change.wrapping_add(distance)) {
                    agreed = agreed.wrapping_add(1);
                }
            }
        }
    }
    for t in FAR {
        asked = asked.wrapping_add(1);
        if agree(listed, stdoff, t) {
            agreed = agreed.wrapping_add(1);
        }
    }
    (agreed, asked)
}

/// The same for a set under each offset, and how many occurrences it has.
fn counts(alloc: Global, set: &RuleSet) -> Result<(u32, u32), Fail> {
    let list = occurrences(alloc, set)?;
    let mut agreed: u32 = 0;
    let mut asked: u32 = 0;
    for stdoff in OFFSETS {
        if stdoff < -86_400 || stdoff > 86_400 {
            return Err(Fail::from(TextError));
        }
        let instants = instants(alloc, stdoff, list.as_slice())?;
        let listed = Listed {
            set,
            list: list.as_slice(),
            instants: instants.as_slice(),
        };
        let (more, all) = count(listed, stdoff);
        agreed = agreed.wrapping_add(more);
        asked = asked.wrapping_add(all);
    }
    Ok((agreed, asked))
}

fn all_agree(alloc: Global, text: &str) -> Result<u32, Fail> {
    let db = db_of(alloc, text)?;
    let Some(set) = db.sets.as_slice().first() else {
        return Err(Fail::from(TextError));
    };
    let (agreed, asked) = counts(alloc, set.get())?;
    if agreed == asked {
        Ok(asked)
    } else {
        Err(Fail::from(TextError))
    }
}

#[test]
fn sets_of_real_lines_agree(rt: HostRuntime) -> Result<(), Fail> {
    assert!(rt; all_agree(rt.alloc(), UNITED_STATES)? > 200);
    assert!(rt; all_agree(rt.alloc(), IRELAND)? > 200);
    Ok(())
}

#[test]
fn sets_made_to_hurt_agree(rt: HostRuntime) -> Result<(), Fail> {
    assert!(rt; all_agree(rt.alloc(), OVERTAKING)? > 200);
    assert!(rt; all_agree(rt.alloc(), ONE_SECOND)? > 200);
    assert!(rt; all_agree(rt.alloc(), STRANGE_DAYS)? > 200);
    assert!(rt; all_agree(rt.alloc(), GAPS)? > 200);
    Ok(())
}

/// A set of as many rules as there may be, of which four stand on one nominal second in most years.
#[test]
fn a_full_set_agrees(rt: HostRuntime) -> Result<(), Fail> {
    let alloc = rt.alloc();
    let mut text = String::new(alloc);
    for year in 1700..2212 {
        let last = year + 3;
        let save = year % 25;
        let line = format!(in alloc; "Rule S {year} {last} - Apr 1 2:00 {save}:00 A\n")?;
        text.push_str(line.as_str())?;
    }
    assert!(rt; all_agree(alloc, text.as_str())? > 200);
    Ok(())
}

#[test]
fn sets_at_the_ends_of_time_agree(rt: HostRuntime) -> Result<(), Fail> {
    assert!(rt; all_agree(rt.alloc(), FIRST_AND_LAST_YEARS)? > 200);
    assert!(rt; all_agree(rt.alloc(), EVERY_YEAR)? > 200);
    Ok(())
}

/// An occurrence as it is told: the place of its rule, its year and its instant.
fn taken(rule: u32, year: i32, at: i64) -> Option<Taken> {
    Some(Taken { rule, year, at })
}

/// Whether the searches tell this of a set.
fn tells(alloc: Global, text: &str, stdoff: i64, rows: &[(i64, Told)]) -> Result<bool, Fail>
    requires { IsShift stdoff }
{
    let db = db_of(alloc, text)?;
    let Some(set) = db.sets.as_slice().first() else {
        return Err(Fail::from(TextError));
    };
    for (t, told) in rows {
        if searched(set.get(), stdoff, *t) != *told {
            return Ok(false);
        }
    }
    Ok(true)
}

#[test]
fn changes_of_new_york(rt: HostRuntime) -> Result<(), Fail> {
    let spring = taken(6, 2024, 1_710_054_000);
    let rows = [
        (1_710_053_999, (taken(7, 2023, 1_699_164_000), spring)),
        (1_710_054_000, (spring, taken(7, 2024, 1_730_613_600))),
        (-84_387_601, (None, taken(1, 1967, -84_387_600))),
        (253_402_300_799, (taken(7, 9998, 253_365_516_000), None)),
    ];
    assert!(rt; tells(rt.alloc(), UNITED_STATES, -18_000, rows.as_slice())?);
    Ok(())
}

#[test]
fn changes_of_small_sets(rt: HostRuntime) -> Result<(), Fail> {
    let first = taken(0, 2021, 1_635_638_400);
    let october = [
        (0, (None, first)),
        (1_640_000_000, (first, taken(0, 2022, 1_667_692_800))),
        (1_667_692_800, (taken(0, 2022, 1_667_692_800), None)),
    ];
    assert!(rt; tells(rt.alloc(), LATE_OCTOBER, 0, october.as_slice())?);
    let summer = taken(0, 2010, 1_270_083_600);
    let autumn = taken(1, 2010, 1_285_891_200);
    let april = [
        (1_285_891_199, (summer, autumn)),
        (1_285_891_200, (autumn, taken(0, 2011, 1_301_619_600))),
    ];
    assert!(rt; tells(rt.alloc(), APRIL_TO_OCTOBER, 3600, april.as_slice())?);
    let winter = [(
        1_704_067_200,
        (taken(3, 2023, 1_698_541_200), taken(0, 2024, 1_711_846_800)),
    )];
    assert!(rt; tells(rt.alloc(), IRELAND, 3600, winter.as_slice())?);
    Ok(())
}
