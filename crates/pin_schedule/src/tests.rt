//! Values of schedules.

use crate::{Core, Entry, Event, Kind, MOST_EVENTS, ScheduleError, SlotWord, run_schedule};
use pin_book::{Change, MOST_SLOTS, MOST_WRITES, READER_NUMBERS, Write};
use std::test::Fail;

/// The steps of the one reader, in order.
fn event(reader: u32, kind: Kind) -> Event {
    Event { reader, kind }
}

fn word(number: u32, count: u32) -> SlotWord {
    SlotWord { number, count }
}

fn held(slot: u32, position: u32) -> Entry {
    Entry {
        slot,
        position,
        held: true,
    }
}

fn push(by: u32, seq: u32, n: u32, src: u32, slot: u32) -> Write {
    Write {
        by,
        seq,
        change: Change::Push { n, src, slot },
    }
}

fn erase(by: u32, seq: u32, after: u32, gone: u32) -> Write {
    Write {
        by,
        seq,
        change: Change::Erase { after, gone },
    }
}

/// The index of the event that isn't allowed, if there is one.
fn refused(answer: Result<Core, ScheduleError>) -> Option<u32> {
    match answer {
        Ok(_) => None,
        Err(ScheduleError::NotAllowed { index }) => Some(index),
        Err(ScheduleError::NoMemory) => None,
    }
}

#[test]
fn a_slot_is_used_again(rt: HostRuntime) -> Result<(), Fail> {
    let events = [
        event(0, Kind::LoadFront),
        event(1, Kind::TakeTurn),
        event(1, Kind::Claim { slot: 1 }),
        event(1, Kind::StorePush { src: 1 }),
        event(1, Kind::StoreErase { after: 2 }),
        event(1, Kind::Claim { slot: 0 }),
        event(0, Kind::AddPin),
        event(1, Kind::StorePush { src: 0 }),
        event(0, Kind::TakePin { slot: 0 }),
    ];
    let core = run_schedule(rt.alloc(), 2, 2, 4, &events)?;
    let writes = [push(1, 1, 2, 1, 1), erase(1, 2, 2, 1), push(1, 3, 3, 0, 0)];
    assert_eq!(rt; core.journal.as_slice(), writes.as_slice());
    assert_eq!(rt; core.words.as_slice(), [word(3, 0), word(2, 0)].as_slice());
    assert_eq!(rt; (core.turn, core.claimed), (Some(1), None));
    let [first, second] = core.readers.as_slice() else {
        return Err("two readers".into());
    };
    assert_eq!(rt; first.entries.as_slice().len(), 0);
    assert_eq!(rt;
        (first.seen, first.loads, first.pins, first.allowance),
        (0, 1, 1, 4)
    );
    assert_eq!(rt;
        (second.seen, second.taken, second.refused, second.allowance),
        (3, 1, 0, 1)
    );
    Ok(())
}

#[test]
fn a_pinned_slot_is_not_claimed(rt: HostRuntime) -> Result<(), Fail> {
    let events = [
        event(0, Kind::AddPin),
        event(1, Kind::TakeTurn),
        event(1, Kind::Claim { slot: 1 }),
        event(1, Kind::StorePush { src: 1 }),
        event(1, Kind::StoreErase { after: 2 }),
        event(1, Kind::Claim { slot: 0 }),
        event(1, Kind::StoreTurn),
    ];
    let core = run_schedule(rt.alloc(), 2, 2, 4, &events)?;
    let writes = [push(1, 1, 2, 1, 1), erase(1, 2, 2, 1)];
    assert_eq!(rt; core.journal.as_slice(), writes.as_slice());
    assert_eq!(rt; core.words.as_slice(), [word(1, 1), word(2, 0)].as_slice());
    assert_eq!(rt; (core.turn, core.claimed), (None, None));
    let [first, second] = core.readers.as_slice() else {
        return Err("two readers".into());
    };
    assert_eq!(rt; first.entries.as_slice(), [held(0, 0)].as_slice());
    assert_eq!(rt; second.pinned.as_slice(), [0].as_slice());
    Ok(())
}

#[test]
fn the_turn_has_one_holder(rt: HostRuntime) -> Result<(), Fail> {
    let events = [
        event(0, Kind::TakeTurn),
        event(1, Kind::TakeTurn),
        event(1, Kind::Claim { slot: 1 }),
    ];
    let answer = run_schedule(rt.alloc(), 2, 2, 4, &events);
    assert_eq!(rt; refused(answer), Some(2));
    let core = run_schedule(rt.alloc(), 2, 2, 4, &events[..2])?;
    let [first, second] = core.readers.as_slice() else {
        return Err("two readers".into());
    };
    assert_eq!(rt; (first.taken, first.refused), (1, 0));
    assert_eq!(rt; (second.taken, second.refused), (0, 1));
    Ok(())
}

const LOAD: Event = Event {
    reader: 0,
    kind: Kind::LoadFront,
};

const PIN: Event = Event {
    reader: 0,
    kind: Kind::AddPin,
};

const UNPIN: Event = Event {
    reader: 0,
    kind: Kind::TakePin { slot: 0 },
};

const TAKE: Event = Event {
    reader: 1,
    kind: Kind::TakeTurn,
};

const CLAIM: Event = Event {
    reader: 1,
    kind: Kind::Claim { slot: 1 },
};

const CLAIM_FIRST: Event = Event {
    reader: 1,
    kind: Kind::Claim { slot: 0 },
};

const PUSH: Event = Event {
    reader: 1,
    kind: Kind::StorePush { src: 5 },
};

const ERASE: Event = Event {
    reader: 1,
    kind: Kind::StoreErase { after: 2 },
};

const GIVE: Event = Event {
    reader: 1,
    kind: Kind::StoreTurn,
};

/// Schedules whose last event isn't allowed: readers and slots that aren't there, claims, stores and turns without leave,
/// a ninth pin, and pins that nobody has.
const REFUSED: [&[Event]; 26] = [
    &[
        PIN,
        Event {
            reader: 2,
            kind: Kind::LoadFront,
        },
    ],
    &[Event {
        reader: u32::MAX,
        kind: Kind::AddPin,
    }],
    &[
        TAKE,
        Event {
            reader: 1,
            kind: Kind::Claim { slot: 2 },
        },
    ],
    &[TAKE, CLAIM_FIRST],
    &[CLAIM],
    &[
        TAKE,
        Event {
            reader: 0,
            kind: Kind::Claim { slot: 1 },
        },
    ],
    &[TAKE, CLAIM, CLAIM],
    &[TAKE, CLAIM, PUSH, ERASE, CLAIM_FIRST, CLAIM_FIRST],
    &[TAKE, PUSH],
    &[PUSH],
    &[TAKE, CLAIM, PUSH, PUSH],
    &[
        TAKE,
        Event {
            reader: 1,
            kind: Kind::StoreErase { after: 1 },
        },
    ],
    &[TAKE, ERASE],
    &[
        TAKE,
        CLAIM,
        PUSH,
        Event {
            reader: 1,
            kind: Kind::StoreErase { after: 1 },
        },
    ],
    &[
        TAKE,
        CLAIM,
        PUSH,
        Event {
            reader: 1,
            kind: Kind::StoreErase { after: 3 },
        },
    ],
    &[TAKE, CLAIM, PUSH, ERASE, ERASE],
    &[
        TAKE,
        CLAIM,
        PUSH,
        Event {
            reader: 0,
            kind: Kind::StoreErase { after: 2 },
        },
    ],
    &[TAKE, CLAIM, GIVE],
    &[GIVE],
    &[
        TAKE,
        Event {
            reader: 0,
            kind: Kind::StoreTurn,
        },
    ],
    &[TAKE, TAKE],
    &[PIN, PIN, PIN, PIN, PIN, PIN, PIN, PIN, PIN],
    &[UNPIN],
    &[PIN, UNPIN, UNPIN],
    &[
        PIN,
        Event {
            reader: 0,
            kind: Kind::TakePin { slot: 1 },
        },
    ],
    &[
        LOAD,
        PIN,
        Event {
            reader: 0,
            kind: Kind::TakePin { slot: 2 },
        },
    ],
];

#[test]
fn refuses_the_first_that_is_not_allowed(rt: HostRuntime) {
    for events in REFUSED {
        assert!(rt; events.len() < MOST_EVENTS);
        if let [before @ .., _] = events {
            assert!(rt;
                run_schedule(rt.alloc(), 2, 2, 4, before).is_ok(),
                "{events:?}"
            );
            let answer = run_schedule(rt.alloc(), 2, 2, 4, events);
            assert_eq!(rt; refused(answer), Some(before.len() as u32), "{events:?}");
        }
    }
}

#[test]
fn an_allowance_ends(rt: HostRuntime) -> Result<(), Fail> {
    let events = [
        event(1, Kind::TakeTurn),
        event(1, Kind::Claim { slot: 1 }),
        event(1, Kind::StorePush { src: 0 }),
        event(1, Kind::Claim { slot: 2 }),
        event(1, Kind::StorePush { src: 0 }),
    ];
    let answer = run_schedule(rt.alloc(), 3, 2, 1, &events);
    assert_eq!(rt; refused(answer), Some(4));
    let erases = [
        events[0],
        events[1],
        events[2],
        event(1, Kind::StoreErase { after: 2 }),
    ];
    let answer = run_schedule(rt.alloc(), 3, 2, 1, &erases);
    assert_eq!(rt; refused(answer), Some(3));
    Ok(())
}

#[test]
fn no_erase_while_a_slot_is_claimed(rt: HostRuntime) -> Result<(), Fail> {
    let events = [
        event(0, Kind::TakeTurn),
        event(0, Kind::Claim { slot: 1 }),
        event(0, Kind::StorePush { src: 0 }),
        event(0, Kind::Claim { slot: 2 }),
        event(0, Kind::StoreErase { after: 2 }),
    ];
    let answer = run_schedule(rt.alloc(), 3, 1, 4, &events);
    assert_eq!(rt; refused(answer), Some(4));
    let core = run_schedule(rt.alloc(), 3, 1, 4, &events[..4])?;
    assert_eq!(rt; core.claimed, Some(2));
    assert_eq!(rt;
        core.words.as_slice(),
        [word(1, 0), word(2, 0), word(3, 0)].as_slice()
    );
    Ok(())
}

#[test]
fn the_oldest_pin_goes_first(rt: HostRuntime) -> Result<(), Fail> {
    let events = [
        event(1, Kind::TakeTurn),
        event(1, Kind::Claim { slot: 1 }),
        event(1, Kind::StorePush { src: 0 }),
        event(0, Kind::LoadFront),
        event(0, Kind::AddPin),
        event(1, Kind::StoreErase { after: 2 }),
        event(0, Kind::LoadFront),
        event(0, Kind::AddPin),
        event(0, Kind::TakePin { slot: 1 }),
    ];
    let core = run_schedule(rt.alloc(), 2, 2, 4, &events)?;
    let [first, _] = core.readers.as_slice() else {
        return Err("two readers".into());
    };
    assert_eq!(rt; first.entries.as_slice(), [held(1, 2)].as_slice());
    assert_eq!(rt; core.words.as_slice(), [word(1, 0), word(2, 1)].as_slice());
    Ok(())
}

#[test]
fn a_pin_at_a_claimed_slot_is_a_stray(rt: HostRuntime) -> Result<(), Fail> {
    let events = [
        event(1, Kind::TakeTurn),
        event(1, Kind::Claim { slot: 1 }),
        event(1, Kind::StorePush { src: 0 }),
        event(1, Kind::StoreErase { after: 2 }),
        event(1, Kind::Claim { slot: 0 }),
        event(0, Kind::AddPin),
        event(0, Kind::LoadFront),
        event(0, Kind::AddPin),
    ];
    let answer = run_schedule(rt.alloc(), 2, 2, 4, &events);
    assert_eq!(rt; refused(answer), Some(7));
    let core = run_schedule(rt.alloc(), 2, 2, 4, &events[..7])?;
    let [first, _] = core.readers.as_slice() else {
        return Err("two readers".into());
    };
    let stray = Entry {
        slot: 0,
        position: 0,
        held: false,
    };
    assert_eq!(rt; first.entries.as_slice(), [stray].as_slice());
    assert_eq!(rt;
        (core.words.as_slice(), core.claimed),
        ([word(3, 1), word(2, 0)].as_slice(), Some(0))
    );
    Ok(())
}

#[test]
fn a_turn_got_forgets_what_was_pinned(rt: HostRuntime) -> Result<(), Fail> {
    let events = [
        event(0, Kind::AddPin),
        event(1, Kind::TakeTurn),
        event(1, Kind::Claim { slot: 2 }),
        event(1, Kind::StorePush { src: 0 }),
        event(0, Kind::LoadFront),
        event(0, Kind::AddPin),
        event(1, Kind::Claim { slot: 1 }),
        event(1, Kind::StorePush { src: 0 }),
        event(1, Kind::StoreErase { after: 3 }),
        event(1, Kind::StoreErase { after: 3 }),
        event(1, Kind::Claim { slot: 2 }),
        event(1, Kind::Claim { slot: 0 }),
        event(1, Kind::Claim { slot: 2 }),
        event(1, Kind::StoreTurn),
        event(0, Kind::TakeTurn),
        event(1, Kind::TakeTurn),
        event(0, Kind::StoreTurn),
        event(1, Kind::TakeTurn),
    ];
    for (count, pinned) in [
        (13, [0, 2].as_slice()),
        (17, [0, 2].as_slice()),
        (18, [].as_slice()),
    ] {
        let core = run_schedule(rt.alloc(), 3, 2, 4, &events[..count])?;
        let [_, second] = core.readers.as_slice() else {
            return Err("two readers".into());
        };
        assert_eq!(rt; second.pinned.as_slice(), pinned);
    }
    Ok(())
}

#[test]
fn runs_a_million_events_but_one(rt: HostRuntime) -> Result<(), Fail> {
    let turns = [
        event(15, Kind::LoadFront),
        event(15, Kind::AddPin),
        event(15, Kind::TakePin { slot: 0 }),
    ];
    let mut events = Vec::with_capacity(rt.alloc(), MOST_EVENTS - 1)?;
    for _ in 0..333_333 {
        events.extend_from_slice(&turns)?;
    }
    assert_eq!(rt; events.len(), 999_999);
    let core = run_schedule(
        rt.alloc(),
        MOST_SLOTS,
        READER_NUMBERS as u32,
        MOST_WRITES,
        &events,
    )?;
    let Some(last) = core.readers.as_slice().last() else {
        return Err("sixteen readers".into());
    };
    assert_eq!(rt; (last.loads, last.pins, last.taken), (333_333, 333_333, 0));
    assert_eq!(rt; core.words.as_slice().len(), 64);
    assert_eq!(rt; last.allowance, 4_096);
    Ok(())
}

#[test]
fn writes_to_the_end_of_all_allowances(rt: HostRuntime) -> Result<(), Fail> {
    let mut events = Vec::new(rt.alloc());
    for reader in 0..READER_NUMBERS as u32 {
        events.push(event(reader, Kind::TakeTurn))?;
        for pair in 0..MOST_WRITES / 2 {
            let slot = 1 - pair % 2;
            events.push(event(reader, Kind::Claim { slot }))?;
            events.push(event(reader, Kind::StorePush { src: pair }))?;
            let after = reader * (MOST_WRITES / 2) + pair + 2;
            events.push(event(reader, Kind::StoreErase { after }))?;
        }
        events.push(event(reader, Kind::StoreTurn))?;
    }
    let count = events.len();
    assert!(rt; count < MOST_EVENTS);
    let core = run_schedule(rt.alloc(), 2, READER_NUMBERS as u32, MOST_WRITES, &events)?;
    assert_eq!(rt; core.journal.len(), 65_536);
    let words = [word(32_769, 0), word(32_768, 0)];
    assert_eq!(rt; core.words.as_slice(), words.as_slice());
    Ok(())
}

#[test]
fn errors_say_what_they_are(rt: HostRuntime) -> Result<(), Fail> {
    let text = format!(in rt.alloc(); "{}", ScheduleError::NotAllowed { index: 7 })?;
    assert_eq!(rt; text.as_str(), "event 7 isn't allowed");
    let text = format!(in rt.alloc(); "{}", ScheduleError::NoMemory)?;
    assert_eq!(rt; text.as_str(), "memory ran out");
    Ok(())
}
