//! Batches: scripts over texts, with the journal and the replies that are printed.
use crate::outside::{answers, named_files};
use crate::scripts::S1_PRINTED;
use std::test::Fail;
use tz_words::Status;

const ALL_PRINTED: &str = "\
journal 4
1 1 1 push 2 1 1
2 1 2 push 3 0 2
3 1 3 erase 2 1
4 1 4 erase 3 2
replies 40
5 @0 1 0 nonexistent 1699164000 1710054000 -18000 0 EST 1710054000 1730613600 -14400 3600 EDT
6 @0 1 0 ambiguous 1710054000 1730613600 -14400 3600 EDT 1730613600 1741503600 -18000 0 EST
7 @0 1 0 unique -5767200 9961200 -18000 0 EST
8 @0 1 0 nonexistent 1699164000 1710054000 -18000 0 EST 1710054000 1730613600 -14400 3600 EDT
9 @0 1 0 sys 1710054000
10 @0 1 0 sys 1730611800
11 @0 1 0 sys 1730615400
12 @0 1 0 sys 18000
13 @0 1 0 range
14 @0 1 0 nozone
15 @0 1 0 range
16 @0 1 0 range
17 @0 1 0 nozone
18 @0 1 0 nozone
19 @0 1 0 nozone
20 @0 1 0 scan 1 -18000 0
21 @0 1 0 clock leap 27
22 @0 1 0 clock plain 27
23 @0 1 0 clock 1483228799
24 @0 1 0 clock 1861920037
25 @0 1 0 clock 1167264018
26 @0 1 0 clock 1483228827
27 @0 1 0 clock 1483228827
28 @0 1 0 range
29 @0 1 0 nothing
31 @0 held 1 0
32 @1 pushed 2 1
33 @1 held 2 1
34 @1 front 2 1
35 @2 pushed 3 2
36 @2 list 3/0/2 2/1/1 1/0/0
37 @3 2 1 erased 1
38 @3 2 1 nothing
39 @3 1 0 unique -5767200 9961200 -18000 0 EST
40 @3 1 0 clock 378691210
41 @3 dropped 1 0
42 @3 dropped 2 1
43 @4 3 2 erased 2
44 @4 list 3/0/2
45 @4 refused 1 9
end
";

/// What a script gives, by the words of its command.
const ROWS: [(&str, Status, &str); 24] = [
    ("batch S1 4 - A B", Status::Ok, S1_PRINTED),
    (
        "batch S2 2 - A B",
        Status::Ok,
        "journal 3\n1 1 1 push 2 1 1\n2 1 2 erase 2 1\n3 1 3 push 3 0 0\nreplies 6\n3 @0 held 1 0\n4 @1 pushed 2 1\n5 @2 2 1 erased 1\n6 @2 full\n7 @2 dropped 1 0\n8 @3 pushed 3 0\nend\n",
    ),
    (
        "batch S3 2 - A ju",
        Status::Ok,
        "journal 0\nreplies 5\n3 @0 held 1 0\n4 @0 refused 1 9\n5 @0 1 0 info 1710054000 1730613600 -14400 3600 EDT\n6 @0 1 0 nothing\n7 @0 dropped 1 0\nend\n",
    ),
    (
        "batch S4 4 L27 A B",
        Status::Ok,
        "journal 2\n1 1 1 push 2 1 1\n2 1 2 erase 2 1\nreplies 11\n3 @0 front 1 0\n4 @0 1 0 info 1710054000 1730613600 -14400 3600 EDT\n5 @0 held 1 0\n6 @1 pushed 2 1\n7 @1 1 0 info 1699164000 1710054000 -18000 0 EST\n8 @1 2 1 sys 1730615400\n9 @1 2 1 clock 1483228827\n10 @2 2 1 erased 1\n11 @2 1 0 notlisted\n12 @2 list 2/1/1\n13 @2 dropped 1 0\nend\n",
    ),
    (
        "batch S5 2 - A",
        Status::Ok,
        "journal 0\nreplies 2\n3 @0 1 0 scan 366 -5731200 2\n4 @0 1 0 nozone\nend\n",
    ),
    ("batch all 3 L27 A B ju", Status::Ok, ALL_PRINTED),
    ("batch undropped 4 - A", Status::Script, "script 3 5\n"),
    ("batch open 4 - A", Status::Script, "script 3 6\n"),
    ("batch empty 4 - A", Status::Script, "script 1 8\n"),
    ("batch lanes 4 - A", Status::Script, "script 1 8\n"),
    ("batch S1 4 - A", Status::Script, "script 3 9\n"),
    ("batch S1 4 - ju A", Status::Text, "text 1 9\n"),
    ("batch S1 4 corr ju A", Status::Text, "leaps 1 16\n"),
    ("batch S1 4 - A,ju B", Status::Text, "text 1 9 in 2\n"),
    // Two texts without a version have one name, and one that is given is another.
    (
        "batch S6 4 - N empty",
        Status::Ok,
        "journal 0\nreplies 1\n3 @0 same 1\nend\n",
    ),
    (
        "batch S6 4 - N =2024a,empty",
        Status::Ok,
        "journal 1\n1 1 1 push 2 1 1\nreplies 1\n3 @1 pushed 2 1\nend\n",
    ),
    // A refusal of several files names the file.
    (
        "batch S6 4 - N E,ju",
        Status::Ok,
        "journal 0\nreplies 1\n3 @0 refused 1 9 in 2\nend\n",
    ),
    (
        "batch none 2 - A",
        Status::Ok,
        "journal 0\nreplies 0\nend\n",
    ),
    ("batch S1 1 - A B", Status::Usage, "usage\n"),
    ("batch S1 65 - A B", Status::Usage, "usage\n"),
    ("batch S1 4 -", Status::Usage, "usage\n"),
    ("batch absent 4 - A B", Status::Read, "read\n"),
    ("batch open 4 absent A", Status::Read, "read\n"),
    ("batch open 4 - A absent", Status::Read, "read\n"),
];

#[test]
fn answers_each_batch(rt: HostRuntime) -> Result<(), Fail> {
    let mut files = named_files(rt.alloc())?;
    answers(&rt, rt.alloc(), &mut files, ROWS.as_slice())?;
    Ok(())
}
