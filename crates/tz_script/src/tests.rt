//! Texts of scripts, each with what it says, or with the line and the number of the cause.
use crate::{HoldName, Op, Pick, ScriptError, read_script};
use std::alloc::Global;
use std::process::Abort;
use std::test::Fail;
use tz_lookup::Conversion;
use tz_types::{Choose, Label, LineFault, MOST_BYTES};

/// How many texts there are to reload.
const SOURCES: u32 = 2;

fn refuses(rt: &impl Abort, alloc: Global, text: &[u8], line: u32, cause: u8) {
    assert!(rt; text.len() <= MOST_BYTES);
    match read_script(alloc, text, SOURCES) {
        Ok(_) => assert!(rt; false, "{text:?}"),
        Err(ScriptError::NoMemory) => assert!(rt; false, "{text:?}"),
        Err(ScriptError::Fault(fault)) => assert_eq!(rt;
            fault,
            LineFault { line, cause },
            "{text:?}"
        ),
    }
}

fn reads(rt: &impl Abort, alloc: Global, text: &[u8], lanes: u32, rounds: u32, operations: usize) {
    assert!(rt; text.len() <= MOST_BYTES);
    match read_script(alloc, text, SOURCES) {
        Ok(script) => {
            assert_eq!(rt; script.lanes, lanes, "{text:?}");
            assert_eq!(rt; script.rounds, rounds, "{text:?}");
            assert_eq!(rt; script.operations.len(), operations, "{text:?}");
        }
        Err(_) => assert!(rt; false, "{text:?}"),
    }
}

#[test]
fn refuses_scripts(rt: HostRuntime) {
    let cases = [
        ("", 1, 8),
        ("\n \t\r\n# no word\n", 1, 8),
        ("lanes 0\n", 1, 8),
        ("lanes 17\n", 1, 8),
        ("lanes 016\n", 1, 8),
        ("lanes 01\n", 1, 8),
        ("lanes\n", 1, 8),
        ("lanes 1 1\n", 1, 8),
        ("Lanes 1\n", 1, 8),
        ("\n\nround\n", 3, 8),
        ("lanes 1\nlanes 1\n", 2, 2),
        ("lanes 1\n1 look\n", 2, 2),
        ("lanes 1\nround x\n", 2, 3),
        ("lanes 1\nround\n1\n", 3, 2),
        ("lanes 1\nround\n1 Look\n", 3, 2),
        ("lanes 1\nround\nlook\n", 3, 2),
        ("lanes 1\nround\n1 drop a\n", 3, 5),
        ("lanes 1\nround\n1 hold a\n", 3, 6),
        ("lanes 1\nround\n1 hold a\n1 hold a\n", 4, 4),
        ("lanes 1\nround\n1 hold a\n2 drop a\n", 4, 8),
        ("lanes 1\nround\n1 hold a\nround\n1 drop a\n", 5, 5),
        (
            "lanes 1\nround\n1 hold a\nround\n1 hold a\n1 drop a\n",
            3,
            6,
        ),
        (
            "lanes 1\nround\n1 hold a\n1 hold b\n1 drop a\n1 hold a\n",
            4,
            6,
        ),
        ("lanes 1\nround\n1 hold a\nround\n1\n", 5, 2),
        ("lanes 1\nround\n1 info a Z 0\n", 3, 5),
        ("lanes 1\nround\n1 erase a\n", 3, 5),
        ("lanes 1\nround\n2 look\n", 3, 8),
        ("lanes 16\nround\n17 look\n", 3, 8),
        ("lanes 2\nround\n1 hold a\n2 drop a\n", 4, 5),
        ("lanes 1\nround\n0 look\n", 3, 8),
        ("lanes 1\nround\n+1 look\n", 3, 8),
        ("lanes 1\nround\n00000000001 look\n", 3, 8),
        ("lanes 1\nround\n2 look x\n", 3, 3),
        ("lanes 1\nround\n2 drop a\n", 3, 8),
        ("lanes 1\nround\n2 reload 2\n", 3, 8),
        ("lanes 1\nround\n1 reload 2\n", 3, 9),
        ("lanes 1\nround\n1 reload 64\n", 3, 3),
        (
            "lanes 1\nround\n1 hold a\n1 hold b\n1 hold c\n1 hold d\n1 hold e\n1 hold f\n1 hold g\n1 hold a\n",
            10,
            4,
        ),
        (
            "lanes 1\nround\n1 hold a\n1 hold b\n1 hold c\n1 hold d\n1 hold e\n1 hold f\n1 hold g\n1 hold h\n",
            10,
            7,
        ),
    ];
    for (text, line, cause) in cases {
        refuses(&rt, rt.alloc(), text.as_bytes(), line, cause);
    }
}

#[test]
fn refuses_operands(rt: HostRuntime) -> Result<(), Fail> {
    let operations = [
        "look x",
        "hold",
        "hold a b",
        "hold front",
        "hold abcdefghijklmnopq",
        "hold a-b",
        "drop front",
        "drop",
        "info front Z",
        "info front Z 0 0",
        "info a-b Z 0",
        "info front Z +0",
        "info front Z 1234567890123456",
        "info front Z -",
        "local front Z 2024-02-30T00:00:00",
        "local front Z 2024-02-28T24:00:00",
        "local front Z 2024-02-28 00:00:00",
        "sys front Z 0",
        "sys front Z 0 none",
        "sys front Z 0 Strict",
        "scan front Z 0 0 1",
        "scan front Z 0 1 0",
        "scan front Z 0 4294967296 1",
        "scan front Z 0 1 65537",
        "scan front Z 0 +1 1",
        "scan front Z 0 1 00000000001",
        "clock front sys-tai 0",
        "clock front UTC-SYS 0",
        "clock front utc-sys x",
        "reload",
        "reload -0",
        "erase",
        "erase front front",
        "list x",
    ];
    for operation in operations {
        let text = format!(in rt.alloc(); "lanes 1\nround\n1 {operation}\n")?;
        refuses(&rt, rt.alloc(), text.as_bytes(), 3, 3);
    }
    Ok(())
}

#[test]
fn bytes_of_lines(rt: HostRuntime) -> Result<(), Fail> {
    refuses(&rt, rt.alloc(), b"lanes 1\0\n", 1, 1);
    refuses(&rt, rt.alloc(), b"lanes 1\nround\n\x0b\n", 3, 1);
    refuses(&rt, rt.alloc(), b"lanes 1\nround\n1 hold \xc3\xa9\n", 3, 1);
    reads(&rt, rt.alloc(), b"lanes 1 #\0\n", 1, 0, 0);
    reads(&rt, rt.alloc(), b"lanes 16\nround\n16 look\n", 16, 1, 1);
    reads(
        &rt,
        rt.alloc(),
        b"\r\nlanes\t1#\xc3\xa9 \x7f\r\n\rround\r",
        1,
        1,
        0,
    );
    reads(&rt, rt.alloc(), b"lanes 1\nround\n0000000001 look", 1, 1, 1);
    let comment = [b'#'; 511];
    refuses(&rt, rt.alloc(), comment.as_slice(), 1, 8);
    let long = [b'#'; 512];
    refuses(&rt, rt.alloc(), long.as_slice(), 1, 1);
    let mut text = Vec::new(rt.alloc());
    text.push(b'\n')?;
    text.extend_from_slice(long.as_slice())?;
    refuses(&rt, rt.alloc(), text.as_slice(), 1, 8);
    text.extend_from_slice(b"\nlanes 1\n")?;
    refuses(&rt, rt.alloc(), text.as_slice(), 2, 1);
    Ok(())
}

/// The text, with a line as often as asked behind it.
fn repeated(alloc: Global, begin: &[u8], line: &[u8], count: u32) -> Result<Vec<u8>, Fail> {
    let mut text = Vec::new(alloc);
    text.extend_from_slice(begin)?;
    for _ in 0..count {
        text.extend_from_slice(line)?;
    }
    Ok(text)
}

#[test]
fn keeps_the_limits(rt: HostRuntime) -> Result<(), Fail> {
    let rounds = repeated(rt.alloc(), b"lanes 1\n", b"round\n", 1_024)?;
    reads(&rt, rt.alloc(), rounds.as_slice(), 1, 1_024, 0);
    let rounds = repeated(rt.alloc(), b"lanes 1\n", b"round\n", 1_025)?;
    refuses(&rt, rt.alloc(), rounds.as_slice(), 1_026, 10);
    let changes = repeated(rt.alloc(), b"lanes 1\nround\n", b"1 reload 1\n", 4_096)?;
    reads(&rt, rt.alloc(), changes.as_slice(), 1, 1, 4_096);
    let changes = repeated(rt.alloc(), b"lanes 1\nround\n", b"1 erase front\n", 4_097)?;
    refuses(&rt, rt.alloc(), changes.as_slice(), 4_099, 10);
    let operations = repeated(rt.alloc(), b"lanes 1\nround\n", b"1 list\n", 65_537)?;
    refuses(&rt, rt.alloc(), operations.as_slice(), 65_539, 10);
    Ok(())
}

#[test]
fn keeps_what_is_just_allowed(rt: HostRuntime) -> Result<(), Fail> {
    reads(
        &rt,
        rt.alloc(),
        b"lanes 1\nround\n1 look\n1 hold a\n1 hold b\n1 hold c\n1 hold d\n1 hold e\n1 hold f\n1 hold abcdefGHIJ012345\n1 drop a\n1 hold a\n1 drop b\n1 drop c\n1 drop d\n1 drop e\n1 drop f\n1 drop abcdefGHIJ012345\n1 drop a\n",
        1,
        1,
        17,
    );
    let mut zone = repeated(rt.alloc(), b"lanes 1\nround\n1 info front ", b"Z", 255)?;
    zone.extend_from_slice(b" 0")?;
    reads(&rt, rt.alloc(), zone.as_slice(), 1, 1, 1);
    let mut zone = repeated(rt.alloc(), b"lanes 1\nround\n1 info front ", b"Z", 256)?;
    zone.extend_from_slice(b" 0")?;
    refuses(&rt, rt.alloc(), zone.as_slice(), 3, 3);
    let operations = repeated(rt.alloc(), b"lanes 1\nround\n", b"1 list\n", 65_536)?;
    reads(&rt, rt.alloc(), operations.as_slice(), 1, 1, 65_536);
    Ok(())
}

/// A script with every operation.
const EVERY: &[u8] = b"# every operation
lanes 1

round
01 look
1 hold Old1
1 info Old1 Europe/Zurich -5
1 drop Old1
round
1 local front Europe/Zurich 1970-01-02T00:00:00
1 sys front Europe/Zurich 7 strict
1 sys front Europe/Zurich 7 latest
1 scan front Europe/Zurich 0 4294967295 65536
1 clock front utc-gps 999999999999999
1 reload 1
1 erase front
1 list
";

#[test]
fn reads_every_operation(rt: HostRuntime) {
    match (
        read_script(rt.alloc(), EVERY, SOURCES),
        HoldName::new(b"Old1"),
        Label::new(b"Europe/Zurich"),
    ) {
        (Ok(script), Some(name), Ok(zone)) => {
            let ops = [
                (5, 1, 1, Op::Look),
                (6, 1, 1, Op::Hold(name.copied())),
                (
                    7,
                    1,
                    1,
                    Op::Info {
                        v: Pick::Held(name.copied()),
                        zone: zone.copied(),
                        t: -5,
                    },
                ),
                (8, 1, 1, Op::Drop(name)),
                (
                    10,
                    2,
                    1,
                    Op::Local {
                        v: Pick::Front,
                        zone: zone.copied(),
                        l: 86_400,
                    },
                ),
                (
                    11,
                    2,
                    1,
                    Op::Sys {
                        v: Pick::Front,
                        zone: zone.copied(),
                        l: 7,
                        choose: None,
                    },
                ),
                (
                    12,
                    2,
                    1,
                    Op::Sys {
                        v: Pick::Front,
                        zone: zone.copied(),
                        l: 7,
                        choose: Some(Choose::Latest),
                    },
                ),
                (
                    13,
                    2,
                    1,
                    Op::Scan {
                        v: Pick::Front,
                        zone,
                        from: 0,
                        step: 4_294_967_295,
                        count: 65_536,
                    },
                ),
                (
                    14,
                    2,
                    1,
                    Op::Clock {
                        v: Pick::Front,
                        conv: Conversion::UtcToGps,
                        x: 999_999_999_999_999,
                    },
                ),
                (15, 2, 1, Op::Reload { src: 1 }),
                (16, 2, 1, Op::Erase { v: Pick::Front }),
                (17, 2, 1, Op::List),
            ];
            assert_eq!(rt; script.lanes, 1);
            assert_eq!(rt; script.rounds, 2);
            assert_eq!(rt; script.operations.len(), ops.len());
            for (operation, (line, round, lane, op)) in script
                .operations
                .as_slice()
                .iter()
                .zip(&ops)
            {
                assert_eq!(rt;
                    (operation.line, operation.round, operation.lane),
                    (*line, *round, *lane)
                );
                assert!(rt; operation.op == *op, "line {line}");
            }
        }
        _ => assert!(rt; false),
    }
}
