//! Every schedule of up to six events of two readers and two slots. What each leaves is looked at as plain numbers, with
//! a list of versions of this test's own, and not by what the definitions say.
ghost use Rattle.std.specs.Prelude.{◌<◌};

use crate::{Core, CoreReader, Entry, Event, Kind, ScheduleError, run_schedule};
use pin_book::{Change, Write};
use std::alloc::Global;
use std::process::Abort;
use std::test::Fail;

/// How many slots and readers there are, and how many writes each reader may make.
const SLOTS: u32 = 2;

const READERS: u32 = 2;

const ROOM: u32 = 4;

/// How many events a schedule has at most.
const DEPTH: usize = 6;

/// The kinds of steps that each reader tries. No version beyond 3 can be there before the last event.
const KINDS: [Kind; 12] = [
    Kind::LoadFront,
    Kind::AddPin,
    Kind::TakePin { slot: 0 },
    Kind::TakePin { slot: 1 },
    Kind::TakeTurn,
    Kind::Claim { slot: 0 },
    Kind::Claim { slot: 1 },
    Kind::StorePush { src: 0 },
    Kind::StoreErase { after: 1 },
    Kind::StoreErase { after: 2 },
    Kind::StoreErase { after: 3 },
    Kind::StoreTurn,
];

/// What these writes make of the list: its versions, newest first, as numbers and slots; the front at each position;
/// what each slot was given last; and the newest number.
#[derive(Drop)]
struct Replayed {
    listed: Vec<(u32, u32)>,
    fronts: Vec<(u32, u32)>,
    kept: Vec<u32>,
    newest: u32,
}

impl Replayed {
    fn new(alloc: Global) -> Result<Self, Fail> {
        let mut kept = vec![in alloc; 0; SLOTS as usize]?;
        if let Some(first) = kept.first_mut() {
            *first = 1;
        }
        Ok(Replayed {
            listed: vec![in alloc; (1, 0); 1]?,
            fronts: vec![in alloc; (1, 0); 1]?,
            kept,
            newest: 1,
        })
    }

    /// Makes a write, and tells whether it makes sense.
    fn write(&mut self, change: Change) -> Result<bool, Fail> {
        let fits = match change {
            Change::Push { n, src: _, slot } => self.push(n, slot)?,
            Change::Erase { after, gone } => self.erase(after, gone),
        };
        match self.listed.first() {
            Some(front) => self.fronts.push(*front)?,
            None => return Ok(false),
        }
        Ok(fits)
    }

    fn push(&mut self, n: u32, slot: u32) -> Result<bool, Fail> {
        let taken = self.listed.iter().any(|version| version.1 == slot);
        let next = n == self.newest.wrapping_add(1);
        self.newest = n;
        self.listed.insert(0, (n, slot))?;
        match self.kept.get_mut(slot as usize) {
            Some(kept) => *kept = n,
            None => return Ok(false),
        }
        Ok(next && !taken)
    }

    fn erase(&mut self, after: u32, gone: u32) -> bool {
        let before = self
            .listed
            .iter()
            .filter(|version| version.0 == after)
            .count();
        let behind = self
            .listed
            .iter()
            .filter(|version| version.0 < after)
            .map(|version| version.0)
            .max();
        self.listed.retain(|version| version.0 != gone);
        before == 1 && behind == Some(gone)
    }
}

/// What all writes make of the list, if they make sense.
fn replay_of(alloc: Global, writes: &[Write]) -> Result<Option<Replayed>, Fail> {
    let mut list = Replayed::new(alloc)?;
    for write in writes {
        if !list.write(write.change)? {
            return Ok(None);
        }
    }
    Ok(Some(list))
}

/// How many pins of all readers are at this slot.
fn pins_at(core: &Core, slot: u32) -> u32 {
    let mut pins: u32 = 0;
    for reader in core.readers.as_slice() {
        for entry in reader.entries.as_slice() {
            if entry.slot == slot {
                pins = pins.wrapping_add(1);
            }
        }
    }
    pins
}

/// The slot's word counts its pins. It shows what the slot was given last, so that no number is lost, and a claimed slot,
/// in which nothing listed is, shows the next number.
fn slot_fits(list: &Replayed, core: &Core, slot: u32) -> bool {
    let Some(word) = core.words.as_slice().get(slot as usize) else {
        return false;
    };
    let versions = &list.listed;
    let listed = versions.iter().any(|version| version.1 == slot);
    let shown = versions
        .iter()
        .all(|version| version.1 != slot || version.0 == word.number);
    let number = if core.claimed == Some(slot) {
        list.newest.wrapping_add(1)
    } else {
        list.kept.get(slot as usize).copied().unwrap_or(0)
    };
    let free = core.claimed != Some(slot) || !listed;
    word.count == pins_at(core, slot) && word.number == number && shown && free
}

/// The pin stands where the front was at its position. Where it is held, its slot still shows that front's number, and so
/// nobody has claimed it.
fn entry_fits(list: &Replayed, core: &Core, seen: u32, entry: &Entry) -> bool {
    let Some(front) = list.fronts.get(entry.position as usize) else {
        return false;
    };
    let Some(word) = core.words.as_slice().get(entry.slot as usize) else {
        return false;
    };
    let kept = word.number == front.0 && core.claimed != Some(entry.slot);
    entry.position <= seen && entry.slot == front.1 && (!entry.held || kept)
}

/// The pins of the reader fit, and one at most is a stray.
fn entries_fit(list: &Replayed, core: &Core, reader: &CoreReader) -> bool {
    let mut strays: u32 = 0;
    for entry in reader.entries.as_slice() {
        if !entry_fits(list, core, reader.seen, entry) {
            return false;
        }
        if !entry.held {
            strays = strays.wrapping_add(1);
        }
    }
    strays < 2
}

/// The reader's writes bear 1, 2, 3 and so on. It has seen them, and what it may still make is the rest.
fn writes_fit(core: &Core, number: u32, reader: &CoreReader) -> bool {
    let mut own: u32 = 0;
    for (place, write) in core.journal.as_slice().iter().enumerate() {
        if write.by == number {
            own = own.wrapping_add(1);
            if write.seq != own || place >= reader.seen as usize {
                return false;
            }
        }
    }
    own.wrapping_add(reader.allowance) == ROOM
}

/// The slots that were found pinned rise, and each was a front's.
fn pinned_fit(list: &Replayed, reader: &CoreReader) -> bool {
    let rising = match reader.pinned.as_slice() {
        [] | [_] => true,
        [low, high] => low < high,
        _ => false,
    };
    let fronts = &list.fronts;
    rising
        && reader
            .pinned
            .as_slice()
            .iter()
            .all(|slot| fronts.iter().any(|front| front.1 == *slot))
}

/// What the reader knows fits the list and the words. Who has the turn has seen every write.
fn reader_fits(list: &Replayed, core: &Core, number: u32) -> bool {
    let Some(reader) = core.readers.as_slice().get(number as usize) else {
        return false;
    };
    let seen = reader.seen as usize;
    let writes = core.journal.len();
    seen <= writes
        && (core.turn != Some(number) || seen == writes)
        && entries_fit(list, core, reader)
        && writes_fit(core, number, reader)
        && pinned_fit(list, reader)
}

/// Whether the core looks as a core of the list should.
fn fits(alloc: Global, core: &Core) -> Result<bool, Fail> {
    let Some(list) = replay_of(alloc, core.journal.as_slice())? else {
        return Ok(false);
    };
    let turn = match core.turn {
        Some(holder) => holder < READERS,
        None => core.claimed.is_none(),
    };
    for slot in 0..SLOTS {
        if !slot_fits(&list, core, slot) {
            return Ok(false);
        }
    }
    for number in 0..READERS {
        if !reader_fits(&list, core, number) {
            return Ok(false);
        }
    }
    Ok(turn)
}

/// A claim gets its slot exactly where no pin was, and no write is taken back.
fn step_fits(before: &Core, after: &Core, kind: Kind) -> bool {
    let old = before.journal.as_slice();
    let new = after.journal.as_slice();
    let kept = old.len() <= new.len() && old.iter().zip(new).all(|(one, other)| one == other);
    let claimed = match kind {
        Kind::Claim { slot } => (after.claimed == Some(slot)) == (pins_at(before, slot) == 0),
        _ => true,
    };
    kept && claimed
}

/// Tries each event after these, and keeps the schedules that are allowed.
fn walk_on<R: Abort>(
    rt: &R,
    alloc: Global,
    walk: &[Event; DEPTH],
    count: usize,
    walks: &mut Vec<[Event; DEPTH]>,
) -> Result<(), Fail>
    requires { count < DEPTH }
{
    let before = run_schedule(alloc, SLOTS, READERS, ROOM, &walk[..count])?;
    for reader in 0..READERS {
        for kind in KINDS {
            let mut longer = *walk;
            longer[count] = Event { reader, kind };
            match run_schedule(alloc, SLOTS, READERS, ROOM, &longer[..count + 1]) {
                Ok(after) => {
                    assert!(rt; fits(alloc, &after)?, "{longer:?}");
                    assert!(rt; step_fits(&before, &after, kind), "{longer:?}");
                    walks.push(longer)?;
                }
                Err(error) => {
                    let index = count as u32;
                    assert_eq!(rt; error, ScheduleError::NotAllowed { index }, "{longer:?}");
                }
            }
        }
    }
    Ok(())
}

#[test]
fn every_schedule_of_six_events(rt: HostRuntime) -> Result<(), Fail> {
    let alloc = rt.alloc();
    let nothing = Event {
        reader: 0,
        kind: Kind::LoadFront,
    };
    let mut walks = vec![in alloc; [nothing; DEPTH]; 1]?;
    for count in 0..DEPTH {
        let mut longer = Vec::new(alloc);
        for walk in &walks {
            walk_on(&rt, alloc, walk, count, &mut longer)?;
        }
        walks = longer;
    }
    assert_eq!(rt; walks.len(), 112_488);
    Ok(())
}
