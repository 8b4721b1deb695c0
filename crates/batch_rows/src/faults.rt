//! Batches of which a file can't be read.
use crate::outside::{files_with_a_fault, run};
use crate::scripts::S1_PRINTED;
use std::test::Fail;
use tz_words::Status;

/// Batches, each with the number of the read that fails.
const ROWS: [(&str, u32, Status, &str); 18] = [
    // The script, the leap text and two texts are read, each once.
    ("batch S1 4 L27 A B", 1, Status::Read, "read\n"),
    ("batch S1 4 L27 A B", 2, Status::Read, "read\n"),
    ("batch S1 4 L27 A B", 3, Status::Read, "read\n"),
    ("batch S1 4 L27 A B", 4, Status::Read, "read\n"),
    ("batch S1 4 L27 A B", 5, Status::Ok, S1_PRINTED),
    // No file is read for a leap text without a name.
    ("batch S1 4 - A B", 3, Status::Read, "read\n"),
    ("batch S1 4 - A B", 4, Status::Ok, S1_PRINTED),
    // Each file of a text is read.
    ("batch S6 4 L27 N E,ju", 5, Status::Read, "read\n"),
    (
        "batch S6 4 L27 N E,ju",
        6,
        Status::Ok,
        "journal 0\nreplies 1\n3 @0 refused 1 9 in 2\nend\n",
    ),
    // A file that is named twice is read twice.
    ("batch S6 4 - N N", 3, Status::Read, "read\n"),
    // All files are read before a script or a text is refused.
    ("batch open 4 - A B", 3, Status::Read, "read\n"),
    ("batch open 4 - A B", 4, Status::Script, "script 3 6\n"),
    ("batch S1 4 - ju A", 3, Status::Read, "read\n"),
    ("batch S1 4 corr ju A", 4, Status::Read, "read\n"),
    ("batch S1 4 corr ju A", 5, Status::Text, "leaps 1 16\n"),
    // A text that no reload asks for is read, too.
    ("batch none 2 - A B", 3, Status::Read, "read\n"),
    // Nothing is read where the words are none of a batch.
    ("batch S1 1 - A B", 1, Status::Usage, "usage\n"),
    ("batch S1 4 -", 1, Status::Usage, "usage\n"),
];

#[test]
fn a_read_fails(rt: HostRuntime) -> Result<(), Fail> {
    for (line, read, status, printed) in ROWS {
        let mut files = files_with_a_fault(rt.alloc(), read)?;
        let (answer, taken) = run(&rt, rt.alloc(), &mut files, line, 64, 4_096)?;
        assert_eq!(rt; answer, status, "{line}, read {read}");
        assert_eq!(rt; taken.as_slice(), printed.as_bytes(), "{line}, read {read}");
    }
    Ok(())
}
