//! Links: what they lead to, and where they lead nowhere.
use crate::outside::answer_over;
use std::alloc::{AllocError, Global};
use std::process::Abort;
use std::test::Fail;
use std::thread::Threads;
use tz_cli::Plain;
use tz_words::Status;

/// Links that lead to the zone `Z`, and one name that is looked up.
const LEAD: [(&str, &str); 9] = [
    ("Zone Z 0 - z\nLink Z A\n", "A"),
    ("Link Z A\nZone Z 0 - z\n", "A"),
    // A link to a link of an earlier line, and to one of a later line.
    ("Zone Z 0 - z\nLink Z A\nLink A B\n", "B"),
    ("Link A B\nLink Z A\nZone Z 0 - z\n", "B"),
    (
        "Link B C\nZone Y 1 - y\nLink Z A\nLink A B\nZone Z 0 - z\n",
        "C",
    ),
    // Several links to one target, one of them asked for.
    ("Link Z C\nLink Z B\nZone Z 0 - z\nLink Z A\n", "B"),
    // Names that begin alike.
    (
        "Zone Z 0 - z\nZone ZZ 1 - zz\nLink ZZ Z/Z\nLink Z ZZZ\n",
        "ZZZ",
    ),
    ("Link Z \"A#\"\nZone Z 0 - z\n", "A#"),
    ("l Z A\nz Z 0 - z\n", "A"),
];

/// Links that lead to no zone, or bear a name that is there.
const ASTRAY: [(&str, &str); 24] = [
    // Circles of one, two and three links, and a way into one.
    ("Link A A\n", "text 1 22\n"),
    ("Zone Z 0 - z\nLink A A\n", "text 2 22\n"),
    ("Link A B\nLink B A\n", "text 1 22\n"),
    ("Link A B\nLink B C\nLink C A\n", "text 1 22\n"),
    (
        "Zone Z 0 - z\nLink Z Y\nLink B C\nLink A B\nLink B A\n",
        "text 3 22\n",
    ),
    // A target that no line names.
    ("Link Nowhere A\n", "text 1 22\n"),
    ("Zone Z 0 - z\nLink z A\n", "text 2 22\n"),
    ("Zone Z 0 - z\nLink Z A\nLink Nowhere B\n", "text 3 22\n"),
    ("Zone Z 0 - z\nLink A B\nLink Nowhere A\n", "text 2 22\n"),
    (
        "Zone Z 0 - z\nLink B C\nLink A B\nLink Nowhere A\n",
        "text 2 22\n",
    ),
    ("Rule Z 2000 max - Jan 1 0 0 -\nLink Z A\n", "text 2 22\n"),
    // A link's name that is a zone's: the later line has it twice. Its target is looked for besides.
    ("Zone A 0 - X\nLink A A\n", "text 2 21\n"),
    ("Link A A\nZone A 0 - X\n", "text 2 21\n"),
    ("Zone A 0 - X\nLink Nowhere A\n", "text 2 21\n"),
    ("Link A B\nZone A 0 - X\nZone B 0 - Y\n", "text 3 21\n"),
    ("Link A B\nZone B 0 - X\nZone A 0 - Y\n", "text 2 21\n"),
    ("Link Nowhere A\nZone A 0 - X\n", "text 1 22\n"),
    // Two links of one name: a target is looked for by the earliest.
    ("Zone Z 0 - z\nLink Z A\nLink Z A\n", "text 3 21\n"),
    (
        "Zone Z 0 - z\nLink A B\nLink Z A\nLink Nowhere A\n",
        "text 4 21\n",
    ),
    (
        "Zone Z 0 - z\nLink A B\nLink Nowhere A\nLink Z A\n",
        "text 2 22\n",
    ),
    (
        "Zone Z 0 - z\nLink A B\nLink Z A\nLink B A\n",
        "text 4 21\n",
    ),
    (
        "Zone Z 0 - z\nLink A B\nLink B A\nLink Z A\n",
        "text 2 22\n",
    ),
    // A zone's name ends the way, even where a later link has it too.
    ("Zone Z 0 - z\nLink Z A\nLink Nowhere Z\n", "text 3 21\n"),
    ("Link A B\nLink Nowhere A\nZone A 0 - a\n", "text 2 22\n"),
];

/// Asserts what a command prints of a text, and how it ends.
fn prints(
    rt: &(impl Abort + Threads + Sync),
    alloc: Global,
    text: &[u8],
    line: &str,
    status: Status,
    printed: &str,
) -> Result<(), AllocError> {
    let (answer, taken) = answer_over(rt, alloc, text.to_vec(alloc)?, line)?;
    assert_eq!(rt; taken.as_slice(), printed.as_bytes(), "{line} {printed}");
    assert_eq!(rt; answer, Plain::Done(status), "{line} {printed}");
    Ok(())
}

#[test]
fn links_lead_to_zones(rt: HostRuntime) -> Result<(), Fail> {
    let alloc = rt.alloc();
    let range = "-377705116800 253402300800 0 0 z\n";
    for (text, name) in LEAD {
        let info = format!(in alloc; "info T {name} 0")?;
        prints(
            &rt,
            alloc,
            text.as_bytes(),
            info.as_str(),
            Status::Ok,
            range,
        )?;
        let dump = format!(in alloc; "dump T 0 1 {name}")?;
        let zone = format!(in alloc; "zone Z\n{range}")?;
        prints(
            &rt,
            alloc,
            text.as_bytes(),
            dump.as_str(),
            Status::Ok,
            zone.as_str(),
        )?;
    }
    Ok(())
}

#[test]
fn links_astray_are_refused(rt: HostRuntime) -> Result<(), Fail> {
    let alloc = rt.alloc();
    for (text, printed) in ASTRAY {
        prints(
            &rt,
            alloc,
            text.as_bytes(),
            "check T",
            Status::Text,
            printed,
        )?;
        prints(
            &rt,
            alloc,
            text.as_bytes(),
            "info T Z 0",
            Status::Text,
            printed,
        )?;
        prints(
            &rt,
            alloc,
            text.as_bytes(),
            "dump T 1 0 -",
            Status::Text,
            printed,
        )?;
    }
    Ok(())
}

/// Where the links of a chain stand.
#[derive(Clone, Copy)]
enum Order {
    /// Each leads to the one before it.
    Back,
    /// Each leads to the one behind it.
    Ahead,
}

/// A zone `Z`, and so many links, named `1` and so on, each with the number before its own as its target. Nothing is named
/// `0`.
fn chain(alloc: Global, links: u32, order: Order) -> Result<Vec<u8>, AllocError> {
    let mut text = b"Zone Z 0 - z\n".to_vec(alloc)?;
    for place in 0..links {
        let target = match order {
            Order::Back => place,
            Order::Ahead => links - 1 - place,
        };
        let name = target + 1;
        let line = format!(in alloc; "Link {target} {name}\n")?;
        text.extend_from_slice(line.as_bytes())?;
    }
    Ok(text)
}

/// A chain and one more line.
fn closed(alloc: Global, links: u32, order: Order, line: &str) -> Result<Vec<u8>, AllocError> {
    let mut text = chain(alloc, links, order)?;
    text.extend_from_slice(line.as_bytes())?;
    Ok(text)
}

/// Chains to the zone, of as many links as a text may have.
#[test]
fn long_chains_lead_to_zones(rt: HostRuntime) -> Result<(), Fail> {
    let alloc = rt.alloc();
    for order in [Order::Back, Order::Ahead] {
        let text = closed(alloc, 4_095, order, "Link Z 0\n")?;
        let counts = "ok unknown rules 0 zones 1 links 4096\n";
        prints(&rt, alloc, text.as_slice(), "check T", Status::Ok, counts)?;
        let range = "-377705116800 253402300800 0 0 z\n";
        prints(
            &rt,
            alloc,
            text.as_slice(),
            "info T 4095 0",
            Status::Ok,
            range,
        )?;
    }
    Ok(())
}

/// A circle of as many links as a text may have, a circle of 2,001 links with a way into it, and chains that lead nowhere.
/// The first link is in line 2.
#[test]
fn long_chains_astray_are_refused(rt: HostRuntime) -> Result<(), Fail> {
    let alloc = rt.alloc();
    // The last one has the name of a link that is there already, which leads to `0`.
    let cases = [
        (Order::Back, "Link 4095 0\n"),
        (Order::Ahead, "Link 4095 0\n"),
        (Order::Back, "Link 2000 0\n"),
        (Order::Ahead, "Link Nowhere 0\n"),
        (Order::Back, "Link Z 1\n"),
    ];
    for (order, line) in cases {
        let text = closed(alloc, 4_095, order, line)?;
        prints(
            &rt,
            alloc,
            text.as_slice(),
            "check T",
            Status::Text,
            "text 2 22\n",
        )?;
    }
    // One link more, whose line is told before any that leads nowhere.
    let text = closed(alloc, 4_096, Order::Back, "Link Z 0\n")?;
    prints(
        &rt,
        alloc,
        text.as_slice(),
        "check T",
        Status::Text,
        "text 4098 18\n",
    )?;
    Ok(())
}
