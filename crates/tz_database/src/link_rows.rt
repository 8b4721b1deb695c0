//! Links whose zones are told by hand: chains, circles, and names that are given twice.
ghost use Rattle.std.specs.Prelude.{IsTrue, IfOk};
ghost use Rattle.tz_types.specs.Format.{is_format};

use crate::reach::zones_reached;
use std::alloc::Global;
use std::test::Fail;
use tz_types::{
    Abbrev, Format, Items, Label, LineRules, Link, MOST_LINKS, MOST_ZONES, TextError, Zone,
    ZoneLine,
};

/// The format `UTC`.
fn format() -> Result<Format, TextError>
    ensures { IfOk result (λ format. IsTrue (is_format format)) }
{
    match Abbrev::new(b"UTC") {
        Ok(text) => Ok(Format::Text(text)),
        Err(error) => Err(error),
    }
}

/// A line that holds over all of time, in universal time.
fn line() -> Result<ZoneLine, TextError> {
    Ok(ZoneLine {
        stdoff: 0,
        rules: LineRules::Plain,
        format: format()?,
        until: None,
        line: 1,
    })
}

fn zones_of(alloc: Global, names: &[&str]) -> Result<Vec<Zone>, Fail> {
    let mut zones = Vec::new(alloc);
    for name in names {
        let mut lines = Items::new(alloc);
        lines.push(line()?)?;
        zones.push(Zone {
            name: Label::new(name.as_bytes())?,
            lines,
        })?;
    }
    Ok(zones)
}

fn links_of(alloc: Global, pairs: &[(&str, &str)]) -> Result<Vec<Link>, Fail> {
    let mut links = Vec::new(alloc);
    for (target, name) in pairs {
        links.push(Link {
            name: Label::new(name.as_bytes())?,
            target: Label::new(target.as_bytes())?,
            zone: 0,
            line: 1,
        })?;
    }
    Ok(links)
}

/// The zones that these links reach, as targets and names.
fn reached(
    alloc: Global,
    names: &[&str],
    pairs: &[(&str, &str)],
) -> Result<Vec<Option<u32>>, Fail> {
    let zones = zones_of(alloc, names)?;
    let links = links_of(alloc, pairs)?;
    if zones.len() > MOST_ZONES || links.len() > MOST_LINKS {
        return Err(Fail::from(TextError));
    }
    Ok(zones_reached(alloc, &zones, &links)?)
}

#[test]
fn links_lead_through_links(rt: HostRuntime) -> Result<(), Fail> {
    let alloc = rt.alloc();
    let places = reached(
        alloc,
        &["A", "B"],
        &[("D", "C"), ("E", "D"), ("B", "E"), ("A", "F")],
    )?;
    assert_eq!(rt;
        places.as_slice(),
        [Some(1), Some(1), Some(1), Some(0)].as_slice()
    );
    Ok(())
}

#[test]
fn circles_and_unknown_names_lead_nowhere(rt: HostRuntime) -> Result<(), Fail> {
    let alloc = rt.alloc();
    let places = reached(
        alloc,
        &["A"],
        &[("D", "C"), ("C", "D"), ("C", "E"), ("X", "F"), ("G", "G")],
    )?;
    assert_eq!(rt;
        places.as_slice(),
        [None, None, None, None, None].as_slice()
    );
    Ok(())
}

#[test]
fn the_earliest_of_a_name_counts(rt: HostRuntime) -> Result<(), Fail> {
    let alloc = rt.alloc();
    let places = reached(
        alloc,
        &["A", "B", "A"],
        &[("B", "C"), ("X", "C"), ("C", "A"), ("C", "D"), ("A", "E")],
    )?;
    assert_eq!(rt;
        places.as_slice(),
        [Some(1), None, Some(1), Some(1), Some(0)].as_slice()
    );
    Ok(())
}
