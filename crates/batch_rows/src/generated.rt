//! Generated scripts of one lane: a list of its own tells each reply and each write beforehand.
use crate::outside::run;
use row_files::{files_of, named_texts};
use std::alloc::{AllocError, Global};
use std::test::Fail;
use tz_words::Status;

/// How many operations a script has.
const OPERATIONS: u32 = 40;

/// A version: its number, the place of its source, and its slot.
#[derive(Clone, Copy, PartialEq)]
struct Row {
    n: usize,
    src: u64,
    slot: u64,
}

/// A version that is held by a name.
#[derive(Clone, Copy)]
struct Held {
    name: u64,
    row: Row,
}

/// The names of the sources: the third has that of the first.
const NAMES: [u64; 3] = [0, 1, 0];

/// The name of the source at a place.
fn name_of(src: u64) -> u64 {
    NAMES[(src % 3) as usize]
}

/// A list of versions, written down as plainly as can be, with what should be printed so far.
#[derive(Drop)]
struct Expected {
    alloc: Global,
    slots: u64,
    listed: Vec<Row>,
    holds: Vec<Held>,
    made: Vec<u64>,
    script: Vec<u8>,
    writes: Vec<String>,
    replies: Vec<u8>,
}

impl Expected {
    /// The version of the first source in the first slot.
    fn new(alloc: Global, slots: u64) -> Result<Self, AllocError> {
        let mut listed = Vec::new(alloc);
        listed.push(Row {
            n: 1,
            src: 0,
            slot: 0,
        })?;
        let mut made = Vec::new(alloc);
        made.push(0)?;
        Ok(Expected {
            alloc,
            slots,
            listed,
            holds: Vec::new(alloc),
            made,
            script: b"lanes 1\nround\n".to_vec(alloc)?,
            writes: Vec::new(alloc),
            replies: Vec::new(alloc),
        })
    }

    /// The version at the front.
    fn front(&self) -> Row {
        match self.listed.first() {
            Some(row) => *row,
            None => Row {
                n: 0,
                src: 0,
                slot: 0,
            },
        }
    }

    /// The least slot that is neither listed nor held.
    fn free_slot(&self) -> Option<u64> {
        for slot in 0..self.slots {
            let is_listed = self.listed.iter().any(|row| row.slot == slot);
            let is_held = self.holds.iter().any(|held| held.row.slot == slot);
            if !is_listed && !is_held {
                return Some(slot);
            }
        }
        None
    }

    /// The version behind one of that number: none where it isn't listed, or where nothing is behind it.
    fn behind(&self, n: usize) -> Option<Row> {
        let mut is_next = false;
        for row in self.listed.iter() {
            if is_next {
                return Some(*row);
            }
            is_next = row.n == n;
        }
        None
    }

    /// Writes down an operation and what is answered to it.
    fn answer(&mut self, line: u32, operation: &str, answer: &str) -> Result<(), AllocError> {
        let w = self.writes.len();
        let asked = format!(in self.alloc; "1 {operation}\n")?;
        self.script.extend_from_slice(asked.as_bytes())?;
        let told = format!(in self.alloc; "{line} @{w} {answer}\n")?;
        self.replies.extend_from_slice(told.as_bytes())
    }

    /// Writes down a write.
    fn write(&mut self, change: String) -> Result<(), AllocError> {
        self.writes.push(change)?;
        Ok(())
    }

    /// A hold by a name.
    fn hold(&mut self, line: u32, name: u64) -> Result<(), AllocError> {
        let row = self.front();
        self.holds.push(Held { name, row })?;
        let operation = format!(in self.alloc; "hold h{name}")?;
        let answer = format!(in self.alloc; "held {} {}", row.n, row.slot)?;
        self.answer(line, operation.as_str(), answer.as_str())
    }

    /// The end of a hold.
    fn let_go(&mut self, line: u32, name: u64, row: Row) -> Result<(), AllocError> {
        self.holds.retain(|held| held.name != name);
        let operation = format!(in self.alloc; "drop h{name}")?;
        let answer = format!(in self.alloc; "dropped {} {}", row.n, row.slot)?;
        self.answer(line, operation.as_str(), answer.as_str())
    }

    /// A reload of the source at a place.
    fn reload(&mut self, line: u32, src: u64) -> Result<(), AllocError> {
        let operation = format!(in self.alloc; "reload {src}")?;
        let front = self.front();
        if name_of(front.src) == name_of(src) {
            let answer = format!(in self.alloc; "same {}", front.n)?;
            return self.answer(line, operation.as_str(), answer.as_str());
        }
        let Some(slot) = self.free_slot() else {
            return self.answer(line, operation.as_str(), "full");
        };
        self.made.push(src)?;
        let n = self.made.len();
        self.listed.insert(0, Row { n, src, slot })?;
        let change = format!(in self.alloc; "push {n} {src} {slot}")?;
        self.write(change)?;
        let answer = format!(in self.alloc; "pushed {n} {slot}")?;
        self.answer(line, operation.as_str(), answer.as_str())
    }

    /// An erasure behind a version that is picked by a word.
    fn erase(&mut self, line: u32, word: &str, row: Row) -> Result<(), AllocError> {
        let operation = format!(in self.alloc; "erase {word}")?;
        let (n, slot) = (row.n, row.slot);
        if !self.listed.iter().any(|other| other.n == n) {
            let answer = format!(in self.alloc; "{n} {slot} notlisted")?;
            return self.answer(line, operation.as_str(), answer.as_str());
        }
        let Some(gone) = self.behind(n) else {
            let answer = format!(in self.alloc; "{n} {slot} nothing")?;
            return self.answer(line, operation.as_str(), answer.as_str());
        };
        self.listed.retain(|other| other.n != gone.n);
        let change = format!(in self.alloc; "erase {n} {}", gone.n)?;
        self.write(change)?;
        let answer = format!(in self.alloc; "{n} {slot} erased {}", gone.n)?;
        self.answer(line, operation.as_str(), answer.as_str())
    }

    /// A listing.
    fn list(&mut self, line: u32) -> Result<(), AllocError> {
        let mut answer = format!(in self.alloc; "list")?;
        for row in self.listed.iter() {
            answer = format!(in self.alloc; "{answer} {}/{}/{}", row.n, row.src, row.slot)?;
        }
        self.answer(line, "list", answer.as_str())
    }

    /// A look at the front.
    fn look(&mut self, line: u32) -> Result<(), AllocError> {
        let front = self.front();
        let answer = format!(in self.alloc; "front {} {}", front.n, front.slot)?;
        self.answer(line, "look", answer.as_str())
    }

    /// An operation that uses the hold of that name, or begins it.
    fn use_hold(&mut self, line: u32, name: u64, drops: bool) -> Result<(), AllocError> {
        let open = self
            .holds
            .iter()
            .find(|held| held.name == name)
            .map(|held| held.row);
        match open {
            None => self.hold(line, name),
            Some(row) if drops => self.let_go(line, name, row),
            Some(row) => {
                let word = format!(in self.alloc; "h{name}")?;
                self.erase(line, word.as_str(), row)
            }
        }
    }

    /// The operation that a number stands for.
    fn take(&mut self, line: u32, number: u64) -> Result<(), AllocError> {
        let operand = number / 16 % 5;
        match number % 16 {
            0..5 => self.reload(line, operand % 3),
            5..8 => {
                let front = self.front();
                self.erase(line, "front", front)
            }
            8..10 => self.use_hold(line, operand, false),
            10..13 => self.use_hold(line, operand, true),
            13 => self.list(line),
            _ => self.look(line),
        }
    }

    /// Ends each hold that is open, the last one first. Answers how many there were.
    fn end(&mut self) -> Result<u32, AllocError> {
        let mut ended = 0;
        for place in 0..5 {
            let open = self.holds.last().map(|held| *held);
            if let Some(held) = open {
                self.let_go(3 + OPERATIONS + place, held.name, held.row)?;
                ended = place + 1;
            }
        }
        Ok(ended)
    }

    /// All that should be printed, where there are so many replies.
    fn printed(&self, replies: u32) -> Result<Vec<u8>, AllocError> {
        let mut out = Vec::new(self.alloc);
        let head = format!(in self.alloc; "journal {}\n", self.writes.len())?;
        out.extend_from_slice(head.as_bytes())?;
        for (place, write) in self.writes.iter().enumerate() {
            let w = place + 1;
            let line = format!(in self.alloc; "{w} 1 {w} {write}\n")?;
            out.extend_from_slice(line.as_bytes())?;
        }
        let head = format!(in self.alloc; "replies {replies}\n")?;
        out.extend_from_slice(head.as_bytes())?;
        out.extend_from_slice(self.replies.as_slice())?;
        out.extend_from_slice(b"end\n")?;
        Ok(out)
    }
}

/// The number after this one.
fn next(number: u64) -> u64 {
    let number = number ^ number << 13;
    let number = number ^ number >> 7;
    number ^ number << 17
}

#[test]
fn generated_scripts_are_answered_as_a_list_tells(rt: HostRuntime) -> Result<(), Fail> {
    let alloc = rt.alloc();
    let mut number = 0x9e37_79b9_7f4a_7c15;
    for place in 0..200 {
        let slots = 2 + place % 4;
        let mut expected = Expected::new(alloc, slots)?;
        for line in 3..3 + OPERATIONS {
            number = next(number);
            expected.take(line, number)?;
        }
        let ended = expected.end()?;
        let printed = expected.printed(OPERATIONS.saturating_add(ended))?;
        let mut list = named_texts(alloc)?;
        list.push((format!(in alloc; "generated")?, expected.script))?;
        let mut files = files_of(alloc, list)?;
        let line = format!(in alloc; "batch generated {slots} - A B Z")?;
        let (status, taken) = run(&rt, alloc, &mut files, line.as_str(), 64, 65_536)?;
        assert_eq!(rt; status, Status::Ok, "{place}");
        assert_eq!(rt; taken.as_slice(), printed.as_slice(), "{place}");
    }
    Ok(())
}
