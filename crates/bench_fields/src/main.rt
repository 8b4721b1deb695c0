//! Cuts the lines of a file into fields, as often as asked: what `bench/fields.sh` takes the time of.
//!
//! The first word names the file, and the second says how often its lines are cut, once if it isn't there.
//! The line that is printed tells what one pass found.
#![tactic(auto)]

use std::rt::{Env, Files};
use std::{env, fs, io};
use tz_text::{Fields, Joined, next_line};

/// The longest line that is cut, in bytes without the newline.
const LONGEST_LINE: usize = 2_048;

/// What passes over a text found.
#[derive(Clone, Copy, Default)]
struct Tally {
    lines: u64,
    fields: u64,
    /// Lines that are too long, or have a quoted piece that isn't closed.
    refused: u64,
}

impl Tally {
    /// Adds a line, which stands here without its newline.
    fn add(&mut self, line: &[u8], joined: &mut Joined) {
        self.lines = self.lines.saturating_add(1);
        if line.len() > LONGEST_LINE {
            self.refused = self.refused.saturating_add(1);
            return;
        }
        match Fields::cut(line, joined) {
            Ok(fields) => self.fields = self.fields.saturating_add(fields.count() as u64),
            Err(_) => self.refused = self.refused.saturating_add(1),
        }
    }
}

/// What one pass over the lines of the text finds.
fn tally_of(text: &[u8], joined: &mut Joined) -> Tally {
    let mut tally = Tally::default();
    let mut rest = text;
    while !rest.is_empty() {
        let (line, after) = next_line(rest);
        tally.add(line, joined);
        rest = after;
    }
    tally
}

/// The name of the file, and how often its lines are cut.
fn words(rt: &(impl Env + AllocGlobal)) -> io::Result<(String, u32)> {
    let mut words = env::args(rt)?.skip(1);
    let Some(name) = words.next() else {
        return Err(io::Error::from(io::ErrorKind::InvalidInput));
    };
    let Some(passes) = words.next() else {
        return Ok((name, 1));
    };
    match passes.parse::<u32>() {
        Ok(passes) => Ok((name, passes)),
        Err(_) => Err(io::Error::from(io::ErrorKind::InvalidInput)),
    }
}

fn main(rt: HostRuntime) -> io::Result<()> {
    let (name, passes) = words(&rt)?;
    let text = fs::read(&rt, name)?;
    let mut joined = Joined::new();
    let mut tally = Tally::default();
    for _ in 0..passes {
        tally = tally_of(&text, &mut joined);
    }
    let Tally {
        lines,
        fields,
        refused,
    } = tally;
    println!(rt; "lines {lines} fields {fields} refused {refused}")
}
