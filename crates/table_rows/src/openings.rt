//! Tables on which nothing is done, or little.

use crate::record::made;
use pin_table::{PinTable, Position};
use std::test::Fail;

#[test]
fn readers_go_out_and_come_back(rt: HostRuntime) -> Result<(), Fail> {
    let (table, mut main) = PinTable::new(rt.alloc(), made(rt.alloc(), 0)?, 2, 2, 5)?;
    assert_eq!(rt; main.allowance(), 5);
    let mut one = main.split(&table, 3)?;
    let mut other = main.split(&table, 1)?;
    assert!(rt; main.split(&table, 0).is_err());
    assert_eq!(rt; main.allowance(), 1);
    let front = Position {
        w: 0,
        n: 1,
        slot: 0,
    };
    assert_eq!(rt; one.look(), front);
    assert_eq!(rt; other.look(), front);
    main.join(one);
    main.join(other);
    assert_eq!(rt; main.allowance(), 5);
    let book = table.close(main);
    assert_eq!(rt; (book.w(), book.room(), book.slots()), (0, 5, 2));
    Ok(())
}
