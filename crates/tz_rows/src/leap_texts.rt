//! Leap texts in which several causes hold, each with what is printed.
use crate::outside::answer_over;
use std::test::Fail;
use tz_cli::Plain;
use tz_words::Status;

/// Leap texts, each with the line that `clock` prints where 0 is asked for.
const ORDER: [(&str, &str); 20] = [
    // The least cause of one line.
    ("Leap 20x0 Ju 32 23:59:61 * R\n", "leaps 1 6\n"),
    ("Leap 2016 Ju 32 23:59:61 * R\n", "leaps 1 9\n"),
    ("Leap 2016 Dec 32 23:59:61 * R\n", "leaps 1 10\n"),
    ("Leap 2016 Dec 31 23:59:61 * R\n", "leaps 1 11\n"),
    ("Leap 2016 Dec 31 23:59:60 * R\n", "leaps 1 16\n"),
    ("Foo \"\0\n", "leaps 1 2\n"),
    ("Foo \"\n", "leaps 1 3\n"),
    // The first line with a cause of its own, though a later line has a lesser one.
    ("Leap 2016 Dec 31 23:59:60 * S\nFoo\n", "leaps 1 16\n"),
    (
        "Leap 2016 Dec 31 23:59:60 + R\nLeap 20x0 Dec 31 23:59:60 + S\n",
        "leaps 1 17\n",
    ),
    (
        "Leap 2016 Dec 31 23:59:60 + S\nExpires 2021 Feb 29 00:00:00\nLeap\n#\0\n",
        "leaps 2 10\n",
    ),
    // A cause of a line comes before any of the whole text.
    (
        "Leap 2016 Dec 31 23:59:60 + S\nLeap 2016 Dec 31 23:59:60 + S\nFoo\n",
        "leaps 3 4\n",
    ),
    (
        "Expires 2016 Dec 31 00:00:00\nLeap 2016 Dec 31 23:59:60 + S\nLeap 2016 Dec 31 23:59:60 + R\n",
        "leaps 3 17\n",
    ),
    // Causes of the whole text on several lines: the least line, whatever its cause.
    (
        "Expires 2016 Dec 31 00:00:00\nLeap 2016 Dec 31 23:59:60 + S\nLeap 2016 Dec 31 23:59:60 + S\n",
        "leaps 1 26\n",
    ),
    (
        "Leap 2016 Dec 31 23:59:60 + S\nExpires 2016 Dec 31 00:00:00\nLeap 2016 Dec 31 23:59:60 + S\n",
        "leaps 2 26\n",
    ),
    (
        "Leap 2016 Dec 31 23:59:60 + S\nLeap 2016 Dec 31 23:59:60 + S\nExpires 2016 Dec 31 00:00:00\n",
        "leaps 2 24\n",
    ),
    // Two causes of the whole text on one line: the least.
    (
        "Expires 2021 Jan 1 00:00:00\nExpires 2016 Dec 31 00:00:00\nLeap 2016 Dec 31 23:59:60 + S\n",
        "leaps 2 25\n",
    ),
    // A second that is skipped has the date of one that is added.
    (
        "Leap 2016 Dec 31 23:59:60 + S\nLeap 2016 Dec 31 23:59:59 - S\n",
        "leaps 2 24\n",
    ),
    // A table expires after the midnight that follows its last leap second.
    (
        "Leap 2016 Dec 31 23:59:60 + S\nExpires 2017 Jan 1 00:00:00\n",
        "leaps 2 26\n",
    ),
    (
        "Leap 2016 Dec 31 23:59:60 + S\nExpires 2017 Jan 1 00:00:01\n",
        "0\n",
    ),
    ("Leap 2016 Dec 31 23:59:60 - S\n", "leaps 1 11\n"),
];

#[test]
fn the_cause_that_is_told_of_a_leap_text(rt: HostRuntime) -> Result<(), Fail> {
    let alloc = rt.alloc();
    for (text, printed) in ORDER {
        let status = if printed.starts_with("leaps") {
            Status::Text
        } else {
            Status::Ok
        };
        let content = text.as_bytes().to_vec(alloc)?;
        let (answer, taken) = answer_over(&rt, alloc, content, "clock T sys-utc 0")?;
        assert_eq!(rt; taken.as_slice(), printed.as_bytes(), "{text:?}");
        assert_eq!(rt; answer, Plain::Done(status), "{text:?}");
    }
    Ok(())
}
