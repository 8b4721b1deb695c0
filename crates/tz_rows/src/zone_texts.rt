//! Zone texts, each with the line that `check` prints of it.
use crate::outside::answer_over;
use std::alloc::{AllocError, Global};
use std::process::Abort;
use std::test::Fail;
use std::thread::Threads;
use tz_cli::Plain;
use tz_words::Status;

/// A text for each cause of one line.
const BY_LINE: [(&str, &str); 53] = [
    ("#\0\n", "text 1 2\n"),
    ("Zone \"A 0 - X\n", "text 1 3\n"),
    ("Foo A B\n", "text 1 4\n"),
    ("0 - X\n", "text 1 4\n"),
    ("Rule US 2000 only - Mar 1 2:00 0\n", "text 1 5\n"),
    ("Zone A 0 - X 2000\n0 - X Y Z 1 2 3\n", "text 2 5\n"),
    ("Zone A 0 -\n", "text 1 5\n"),
    ("Zone A 0 - X 2000 Jan 1 0 0\n", "text 1 5\n"),
    ("Link A\n", "text 1 5\n"),
    ("Link A B C\n", "text 1 5\n"),
    ("Rule US 20x0 only - Mar 1 2:00 0 S\n", "text 1 6\n"),
    ("Rule US 2000 minimum - Mar 1 2:00 0 S\n", "text 1 6\n"),
    ("Rule US minimum only - Mar 1 2:00 0 S\n", "text 1 6\n"),
    ("Zone A 0 - X 9999\n", "text 1 6\n"),
    ("Zone A 0 - X -9999\n", "text 1 6\n"),
    ("Rule US 2001 2000 - Mar 1 2:00 0 S\n", "text 1 7\n"),
    ("Rule US 2000 only even Mar 1 2:00 0 S\n", "text 1 8\n"),
    ("Rule US 2000 only - Ju 1 2:00 0 S\n", "text 1 9\n"),
    ("Rule US 2001 only - Feb 29 2:00 0 S\n", "text 1 10\n"),
    ("Rule US 2000 max - Feb 29 2:00 0 S\n", "text 1 10\n"),
    ("Rule US 2000 only - Mar 1 2:60 0 S\n", "text 1 11\n"),
    ("Zone A 24:00:01 - X\n", "text 1 11\n"),
    ("Zone A 0s - X\n", "text 1 11\n"),
    // What follows an UNTIL continues its zone, whatever its first field is.
    ("Zone A 0 - X 2000\nLink A B\n", "text 2 11\n"),
    ("Rule US 2000 only - Mar 1 2:00 25:00 S\n", "text 1 12\n"),
    ("Zone A 0 25:00 X\n", "text 1 12\n"),
    ("Zone A 0 +1 X\n", "text 1 12\n"),
    ("Zone A 0 -1:00x X\n", "text 1 12\n"),
    ("Rule 2US 2000 only - Mar 1 2:00 0 S\n", "text 1 13\n"),
    ("Zone A 0 \"\" X\n", "text 1 13\n"),
    ("Zone A 0 \"U S\" X\n", "text 1 13\n"),
    ("Link \"\" A\n", "text 1 13\n"),
    ("Link A \"B C\"\n", "text 1 13\n"),
    ("Zone A 0 - X%d\n", "text 1 14\n"),
    ("Zone A 0 - \"\"\n", "text 1 14\n"),
    ("Zone A 0 - X%\n", "text 1 14\n"),
    ("Zone A 0 - %s%s\n", "text 1 14\n"),
    ("Zone A 0 - %z/X\n", "text 1 14\n"),
    ("Zone A 0 - X/%s\n", "text 1 14\n"),
    ("Zone A 0 - /X\n", "text 1 14\n"),
    ("Zone A 0 - X/\n", "text 1 14\n"),
    ("Zone A 0 - X/Y/Z\n", "text 1 14\n"),
    ("Rule US 2000 only - Mar 1 2:00 0 \"A B\"\n", "text 1 14\n"),
    (
        "Rule US 2000 only - Mar 1 2:00 0 ABCDEFGHI\n",
        "text 1 15\n",
    ),
    // The most that an offset or a save may be is 86,400 seconds, either way.
    ("Zone A -24:00:01 - X\n", "text 1 11\n"),
    ("Zone A 24:00:00.6 - X\n", "text 1 11\n"),
    ("Zone A 0 - X 2000\n24:00:01 - Y\n", "text 2 11\n"),
    ("Rule US 2000 only - Mar 1 2:00 24:00:01 S\n", "text 1 12\n"),
    (
        "Rule US 2000 only - Mar 1 2:00 -24:00:01 S\n",
        "text 1 12\n",
    ),
    ("Zone A 0 24:00:01 X\n", "text 1 12\n"),
    ("Zone A 0 -24:00:01d X\n", "text 1 12\n"),
    // Hours have at most three digits, where no other limit is.
    ("Rule US 2000 only - Mar 1 1000:00 0 S\n", "text 1 11\n"),
    ("Zone A 0 - X 2000 Jan 1 -1000:00\n0 - Y\n", "text 1 11\n"),
];

/// A text for each cause of whole texts but for links, which have texts of their own.
const WHOLE: [(&str, &str); 16] = [
    ("Zone A 0 - X 2000\n", "text 1 19\n"),
    ("Zone A 0 - X 2000\n0 - Y 2001\n", "text 2 19\n"),
    ("Zone A 0 - X 2000\n\n# no line\n", "text 1 19\n"),
    ("Zone A 0 US X\n", "text 1 20\n"),
    (
        "Rule us 2000 only - Mar 1 2:00 0 S\nZone A 0 US X\n",
        "text 2 20\n",
    ),
    (
        "Rule US 2000 only - Mar 1 2:00 0 S\nZone A 0 US X 2001\n0 EU Y\n",
        "text 3 20\n",
    ),
    ("Zone US 0 - X\nLink US A\nZone B 0 A X\n", "text 3 20\n"),
    ("Zone A 0 - X\nZone A 0 - X\n", "text 2 21\n"),
    (
        "Zone A 0 - X\nZone B 0 - X\nZone A 1 - Y\nZone B 1 - Y\n",
        "text 3 21\n",
    ),
    ("Link A B\nLink B A\n", "text 1 22\n"),
    ("Zone A 0 - X 2000\n0 - Y 1999\n0 - Z\n", "text 2 23\n"),
    ("Zone A 0 - X 2000\n0 - Y 2000\n0 - Z\n", "text 2 23\n"),
    (
        "Zone A 0 - X 2000\n-1 - Y 1999 Dec 31 23:00\n0 - Z\n",
        "text 2 23\n",
    ),
    (
        "Zone A 0 1:00 X 2000\n0 - Y 1999 Dec 31 23:00\n0 - Z\n",
        "text 2 23\n",
    ),
    (
        "Zone A 0 1:00 X 2000 Jan 1 0s\n0 - Y 2000\n0 - Z\n",
        "text 2 23\n",
    ),
    // An hour of summer is on where the first line ends.
    (
        "Rule R 1990 max - Jan 1 0 1:00 S\nZone A 0 R X 2000 Jan 1 1:00\n0 - Y 2000 Jan 1 0:00u\n0 - Z\n",
        "text 3 23\n",
    ),
];

/// Where several causes hold: on one line, on a later line, and on the whole.
const ORDER: [(&str, &str); 32] = [
    // The least cause of one line.
    ("Rule 2US 20x0 only even Ju 1 2:60 0 S\n", "text 1 6\n"),
    ("Rule US 2000 only even Ju 31 2:60 25 %\n", "text 1 8\n"),
    ("Rule US 2001 2000 even Ju 1 2:60 25 S\n", "text 1 7\n"),
    (
        "Rule \"U S\" 2000 only - Mar 1 2:00 25 ABCDEFGHI\n",
        "text 1 12\n",
    ),
    ("Zone A 25 - X%d 20x0 Ju\n", "text 1 6\n"),
    (
        "Zone \"A B\" 0 - ABCDEFGHIJKLMNOPQRSTUVWX%d\n",
        "text 1 13\n",
    ),
    ("Zone A 0 - ABCDEFGHIJKLMNOPQRSTUVWX%d\n", "text 1 14\n"),
    ("Foo \"A\0\n", "text 1 2\n"),
    ("Foo \"A\n", "text 1 3\n"),
    // The first line with a cause of its own, and that before any of the whole text.
    ("Zone A 0 - X\nZone \"\" 0 - X\nFoo\n", "text 2 13\n"),
    ("Zone A 0 - X\nFoo\nZone \"\n", "text 2 4\n"),
    ("Zone A 0 - X\nZone A 0 - X\nFoo\n", "text 3 4\n"),
    ("Zone A 0 US X\nFoo\n", "text 2 4\n"),
    ("Link A B\nLink B A\nFoo\n", "text 3 4\n"),
    ("Zone A 0 - X 2000\n0 - Y 1999\n0 - Z\nFoo\n", "text 4 4\n"),
    ("Zone A 0 - X 2000\n0 - X%d\n", "text 2 14\n"),
    // Causes of the whole text on one line: the least.
    ("Zone A 0 US X 2000\n", "text 1 19\n"),
    ("Zone A 0 - X\nZone A 0 - Y 1900\n", "text 2 19\n"),
    ("Zone A 0 - X\nZone A 0 US Y 1900\n", "text 2 19\n"),
    ("Zone A 0 - X 2000\n0 - Y 1999\n", "text 2 19\n"),
    ("Zone A 0 - X\nZone A 0 US X\n", "text 2 20\n"),
    ("Zone A 0 - X 2000\n0 US Y 1999\n0 - Z\n", "text 2 20\n"),
    ("Zone A 0 - X\nLink Nowhere A\n", "text 2 21\n"),
    // Causes of the whole text on several lines: the least line, whatever its cause.
    ("Zone A 0 US X\nZone B 0 - X 2000\n", "text 1 20\n"),
    ("Zone A 0 - X\nZone A 0 - Y\nZone B 0 US Z\n", "text 2 21\n"),
    (
        "Link A B\nLink B A\nZone C 0 - X\nZone C 0 US X 2000\n",
        "text 1 22\n",
    ),
    ("Zone Z 0 - Z\nLink Nowhere B\nLink Z Z\n", "text 2 22\n"),
    (
        "Zone A 0 - X\nZone B 0 - X 2000\n0 - X 1999\n0 - X\nZone A 0 - X\n",
        "text 3 23\n",
    ),
    (
        "Zone A 0 - X 2000\n0 - Y 1999\n0 US Z\nLink B C\n",
        "text 2 23\n",
    ),
    (
        "Zone B 0 - X\nZone A 0 - X 2000\n0 - Y 1999\n0 - Z\nZone C 0 - X 2000\n0 - Y 1999\n0 - Z\n",
        "text 3 23\n",
    ),
    // Behind a line whose rules aren't there, no end is asked for.
    ("Zone A 0 US X 2000\n0 - Y 1999\n0 - Z\n", "text 1 20\n"),
    ("Zone A 0 - X\nLink A A\nZone A 0 - X\n", "text 2 21\n"),
];

/// Texts that are accepted.
const ACCEPTED: [(&str, &str); 34] = [
    ("", "ok unknown rules 0 zones 0 links 0\n"),
    ("# version 2024a\n", "ok 2024a rules 0 zones 0 links 0\n"),
    ("# version 2024a \t\r", "ok 2024a rules 0 zones 0 links 0\n"),
    ("# version \n", "ok unknown rules 0 zones 0 links 0\n"),
    (
        "# version two words\n",
        "ok unknown rules 0 zones 0 links 0\n",
    ),
    (
        "\n# version 2024a\n",
        "ok unknown rules 0 zones 0 links 0\n",
    ),
    ("# Version 2024a\n", "ok unknown rules 0 zones 0 links 0\n"),
    (
        "Rule US 2000 only - Feb 29 2:00 0 S\n",
        "ok unknown rules 1 zones 0 links 0\n",
    ),
    (
        "Rule US 2000 only - jun Sun<=25 -2:30s -1 \"\"\n",
        "ok unknown rules 1 zones 0 links 0\n",
    ),
    (
        "Zone \"A#B\" 0 - X # \"\n",
        "ok unknown rules 0 zones 1 links 0\n",
    ),
    ("Zone A 0 - X", "ok unknown rules 0 zones 1 links 0\n"),
    ("z A - - X\n", "ok unknown rules 0 zones 1 links 0\n"),
    (
        "Zone A 0 - X 2000\r\n0 - Y\r\n",
        "ok unknown rules 0 zones 1 links 0\n",
    ),
    (
        "Zone A 0 - X 2000 F lastSu 24s\n0 - Y\n",
        "ok unknown rules 0 zones 1 links 0\n",
    ),
    (
        "Zone A 0 - X 2000\n0 - Y 2000 Jan 1 0:00:01\n0 - Z\n",
        "ok unknown rules 0 zones 1 links 0\n",
    ),
    (
        "Zone A 0 - X 2000\n-1 - Y 1999 Dec 31 23:00:01\n0 - Z\n",
        "ok unknown rules 0 zones 1 links 0\n",
    ),
    (
        "Zone A 0 1:00 X 2000\n0 - Y 1999 Dec 31 23:00:01\n0 - Z\n",
        "ok unknown rules 0 zones 1 links 0\n",
    ),
    (
        "Rule R 1990 max - Jan 1 0 1:00 S\nZone A 0 R X 2000 Jan 1 1:00\n0 - Y 2000 Jan 1 0:00:01u\n0 - Z\n",
        "ok unknown rules 1 zones 1 links 0\n",
    ),
    (
        "Zone A 0 - X%sT\nZone B 0 - X/Y\nZone C 0 - %z\nZone D 0 - %s\n",
        "ok unknown rules 0 zones 4 links 0\n",
    ),
    (
        "Zone A 0 1:00 X\nZone B 0 -24s X\nZone C 0 0d %s\n",
        "ok unknown rules 0 zones 3 links 0\n",
    ),
    (
        "Rule US 2000 only - Mar 1 2:00 0 S\nZone A 0 US X%sT\nLink A B\n",
        "ok unknown rules 1 zones 1 links 1\n",
    ),
    (
        "Link B C\nLink A B\nZone A 0 US %z 2000\n0 EU E%sT\nRule US 1 max - Mar 1 0 0 S\nRule EU 1 o - Mar 1 0 0 S\n",
        "ok unknown rules 2 zones 1 links 2\n",
    ),
    (
        "Zone US 0 US X\nRule US 2000 only - Mar 1 2:00 0 S\nLink US us\n",
        "ok unknown rules 1 zones 1 links 1\n",
    ),
    (
        "Zone B 0 - X\nZone A 0 - X\n",
        "ok unknown rules 0 zones 2 links 0\n",
    ),
    (
        "Zone A 0 - X 2000\n# between\n\n0 - Y\nZone B 0 - Z\n",
        "ok unknown rules 0 zones 2 links 0\n",
    ),
    (
        "Rule b 1 ma - F 1 0 0 -\nR a 1 o - F 1 0 0 -\nRule b 2 3 - F 1 0 0 -\n",
        "ok unknown rules 3 zones 0 links 0\n",
    ),
    (
        "Rule US -999999999 999999999 - Dec Sun>=31 999:59:60.5G 24d ABCDEFGH\n",
        "ok unknown rules 1 zones 0 links 0\n",
    ),
    (
        "Zone A -24 - ABCDEFGHIJKLMNOPQRSTUVWX -9998\n24 - X\n",
        "ok unknown rules 0 zones 1 links 0\n",
    ),
    // Years and amounts at their ends.
    (
        "Zone A 0 - X 9998\n0 - Y\n",
        "ok unknown rules 0 zones 1 links 0\n",
    ),
    (
        "Zone A 24:00:00 - X 2000\n-24:00:00 - X 2001\n23:59:60 - X 2002\n24:00:00.5 - X\n",
        "ok unknown rules 0 zones 1 links 0\n",
    ),
    (
        "Rule US 2000 only - Mar 1 24:00:01 24:00:00 S\nRule US 2000 only - Apr 1 -999:59:60 -24:00:00 S\n",
        "ok unknown rules 2 zones 0 links 0\n",
    ),
    (
        "Zone A 0 24:00:00 X 2000 Jan 1 24:00:01\n0 -24:00:00s X\n",
        "ok unknown rules 0 zones 1 links 0\n",
    ),
    // A version has at most 64 bytes; a longer one is a comment.
    (
        "# version vvvvvvvvvvvvvvvvvvvvvvvvvvvvvvvvvvvvvvvvvvvvvvvvvvvvvvvvvvvvvvvv\n",
        "ok vvvvvvvvvvvvvvvvvvvvvvvvvvvvvvvvvvvvvvvvvvvvvvvvvvvvvvvvvvvvvvvv rules 0 zones 0 links 0\n",
    ),
    (
        "# version vvvvvvvvvvvvvvvvvvvvvvvvvvvvvvvvvvvvvvvvvvvvvvvvvvvvvvvvvvvvvvvvv\n",
        "ok unknown rules 0 zones 0 links 0\n",
    ),
];

/// Asserts what `check` prints of a text.
fn prints(
    rt: &(impl Abort + Threads + Sync),
    alloc: Global,
    text: &[u8],
    printed: &str,
) -> Result<(), AllocError> {
    let status = if printed.starts_with("ok") {
        Status::Ok
    } else {
        Status::Text
    };
    let (answer, taken) = answer_over(rt, alloc, text.to_vec(alloc)?, "check T")?;
    assert_eq!(rt; taken.as_slice(), printed.as_bytes(), "{text:?}");
    assert_eq!(rt; answer, Plain::Done(status), "{text:?}");
    Ok(())
}

#[test]
fn check_tells_each_text(rt: HostRuntime) -> Result<(), Fail> {
    let alloc = rt.alloc();
    for table in [
        BY_LINE.as_slice(),
        WHOLE.as_slice(),
        ORDER.as_slice(),
        ACCEPTED.as_slice(),
    ] {
        for (text, printed) in table {
            prints(&rt, alloc, text.as_bytes(), printed)?;
        }
    }
    Ok(())
}
