//! Scripts that the rows name.

/// A reload, and one that finds its name at the front.
const S1: &str = "lanes 1\nround\n1 reload 1\n1 reload 1\n";

/// What that prints over two texts of two names.
pub const S1_PRINTED: &str =
    "journal 1\n1 1 1 push 2 1 1\nreplies 2\n3 @1 pushed 2 1\n4 @1 same 2\nend\n";

/// A list of two slots, full under a hold.
const S2: &str =
    "lanes 1\nround\n1 hold a\n1 reload 1\n1 erase front\n1 reload 0\n1 drop a\n1 reload 0\n";

/// A reload that is refused, and nothing behind the version that is held.
const S3: &str =
    "lanes 1\nround\n1 hold a\n1 reload 1\n1 info a America/New_York 1710054000\n1 erase a\n1 drop a\n";

/// Lookups in the front and in a version that is held and erased.
const S4: &str = "\
lanes 1
round
1 look
1 info front US/Eastern 1710054000
1 hold old
1 reload 1
1 info old America/New_York 1710053999
1 sys front America/New_York 2024-11-03T01:30:00 latest
1 clock front sys-utc 1483228800
1 erase front
1 erase old
1 list
1 drop old
";

/// Each midnight of 2024, and a zone that isn't there.
const S5: &str =
    "lanes 1\nround\n1 scan front America/New_York 1704067200 86400 366\n1 info front Nowhere 0\n";

/// Every operation, and every answer that the others don't have.
const ALL: &str = "\
# every operation
lanes 1

round
1 local front US/Eastern 2024-03-10T02:30:00   # in a gap
1 local front US/Eastern 1730597400
1 local front US/Eastern 0
1 sys front US/Eastern 2024-03-10T02:30:00 strict
1 sys front US/Eastern 2024-03-10T02:30:00 earliest
1 sys front US/Eastern 1730597400 earliest
1 sys front US/Eastern 1730597400 latest
1 sys front US/Eastern 0 strict
1 info front US/Eastern 253402300800
1 info front Nowhere 253402300800
1 local front US/Eastern -377705116800
1 sys front US/Eastern -377705116800 strict
1 sys front Nowhere 0 strict
1 local front Nowhere 0
1 scan front Nowhere 0 1 1
1 scan front US/Eastern 253402300799 1 2
1 clock front utc-info 1483228826
1 clock front utc-info 1483228827
1 clock front utc-sys 1483228826
1 clock front utc-tai 1483228827
1 clock front utc-gps 1483228827
1 clock front tai-utc 1861920037
1 clock front gps-utc 1167264018
1 clock front sys-utc 253402300800
1 erase front
round
1 hold a
1 reload 1
1 hold b
1 look
1 reload 0
1 list
1 erase b
1 erase b
1 local a US/Eastern 0
1 clock a utc-tai 0
1 drop a
1 drop b
1 erase front
1 list
1 reload 2
";

/// Three of sixteen lanes look beside each other in the first round and in the third; one of them reloads alone in between.
const APART: &str = "\
lanes 16
round
1 look
16 hold a
3 list
16 drop a
round
16 reload 1
round
3 look
1 look
";

/// One look.
pub const LOOK: &str = "lanes 1\nround\n1 look\n";

/// The scripts, and a text that is refused: no month is called so.
pub const SCRIPTS: [(&str, &str); 15] = [
    ("ju", "Rule X 2000 only - Ju 1 0 0 -\n"),
    ("S1", S1),
    ("S2", S2),
    ("S3", S3),
    ("S4", S4),
    ("S5", S5),
    ("S6", "lanes 1\nround\n1 reload 1\n"),
    ("look", LOOK),
    ("all", ALL),
    ("undropped", "lanes 1\nround\n1 drop a\n"),
    ("open", "lanes 1\nround\n1 hold a\n"),
    ("lanes", "lanes 17\nround\n1 look\n"),
    ("none", "lanes 1\n"),
    ("apart", APART),
    ("G3", "lanes 2\nround\n1 reload 1\n2 reload 1\n"),
];
