//! The texts and the script of one zone and of two, written out by hand.

use crate::generate;
use std::test::Fail;

const TEXT: &str = "\
# version g0
Rule G 1970 max - Mar lastSun 1:00u 1:00 S
Rule G 1970 max - Oct lastSun 1:00u 0 -
Zone Gen/0 -12:00 G G%sT
";

/// Its days are 7 times the round and the lane.
const SCRIPT: &str = "\
lanes 8
round
1 reload 1
2 hold a
2 erase a
2 drop a
1 info front Gen/0 691200
2 info front Gen/0 777600
3 info front Gen/0 864000
4 info front Gen/0 950400
5 info front Gen/0 1036800
6 info front Gen/0 1123200
7 info front Gen/0 1209600
8 info front Gen/0 1296000
round
1 reload 2
2 hold a
2 erase a
2 drop a
1 info front Gen/0 1296000
2 info front Gen/0 1382400
3 info front Gen/0 1468800
4 info front Gen/0 1555200
5 info front Gen/0 1641600
6 info front Gen/0 1728000
7 info front Gen/0 1814400
8 info front Gen/0 1900800
round
1 reload 3
2 hold a
2 erase a
2 drop a
1 info front Gen/0 1900800
2 info front Gen/0 1987200
3 info front Gen/0 2073600
4 info front Gen/0 2160000
5 info front Gen/0 2246400
6 info front Gen/0 2332800
7 info front Gen/0 2419200
8 info front Gen/0 2505600
round
1 reload 0
2 hold a
2 erase a
2 drop a
1 info front Gen/0 2505600
2 info front Gen/0 2592000
3 info front Gen/0 2678400
4 info front Gen/0 2764800
5 info front Gen/0 2851200
6 info front Gen/0 2937600
7 info front Gen/0 3024000
8 info front Gen/0 3110400
";

/// The last text of two zones.
const TEXT_OF_TWO: &str = "\
# version g3
Rule G 1970 max - Mar lastSun 1:00u 1:00 S
Rule G 1970 max - Oct lastSun 1:00u 0 -
Zone Gen/0 -12:00 G G%sT
Zone Gen/1 -11:00 G G%sT
";

/// The script over two zones begins so. The first lane begins with the zone at the place of 7 modulo 2.
const SCRIPT_OF_TWO: &str = "\
lanes 8
round
1 reload 1
2 hold a
2 erase a
2 drop a
1 info front Gen/1 691200
1 info front Gen/0 3283200
2 info front Gen/0 777600
2 info front Gen/1 3369600
";

#[test]
fn one_zone_has_these_bytes(rt: HostRuntime) -> Result<(), Fail> {
    let generated = generate(rt.alloc(), 1)?;
    assert_eq!(rt; generated.texts.len(), 4);
    assert_eq!(rt; generated.texts.as_slice()[0].as_slice(), TEXT.as_bytes());
    assert_eq!(rt; generated.script.as_slice(), SCRIPT.as_bytes());
    Ok(())
}

#[test]
fn two_zones_have_these_bytes(rt: HostRuntime) -> Result<(), Fail> {
    let generated = generate(rt.alloc(), 2)?;
    assert_eq!(rt;
        generated.texts.as_slice()[3].as_slice(),
        TEXT_OF_TWO.as_bytes()
    );
    assert!(rt;
        generated
            .script
            .as_slice()
            .starts_with(SCRIPT_OF_TWO.as_bytes())
    );
    Ok(())
}
