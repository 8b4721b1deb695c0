//! A record that holds a writer in its turn, by its name: the table asks for the name of a version in the turn.
ghost use Rattle.std.specs.Prelude.{◌≡◌, IfOk};
ghost use Rattle.std.specs.Arc.{arc_value};

use pin_book::Payload;
use std::alloc::{AllocError, Global};
use std::sync::Arc;
use std::sync::atomic::{AtomicU64, Ordering};
use std::thread;
use tz_types::VersionText;

/// A gate that a thread waits at once it is shut, until another opens it.
#[derive(Drop)]
pub struct Gate {
    shut: AtomicU64,
    at: AtomicU64,
}

impl Gate {
    /// An open gate.
    pub fn new() -> Gate {
        Gate {
            shut: AtomicU64::new(0),
            at: AtomicU64::new(0),
        }
    }

    /// From now on whoever comes here waits.
    pub fn shut(&self) {
        self.shut.store(1, Ordering::SeqCst);
    }

    /// Lets everybody through.
    pub fn open(&self) {
        self.shut.store(0, Ordering::SeqCst);
    }

    /// Waits until somebody is at the gate.
    pub fn until_reached(&self) {
        for _ in 0..u64::MAX {
            if self.at.load(Ordering::SeqCst) != 0 {
                return;
            }
            thread::yield_now();
        }
    }

    /// Waits while the gate is shut.
    fn pass(&self) {
        if self.shut.load(Ordering::SeqCst) == 0 {
            return;
        }
        self.at.store(1, Ordering::SeqCst);
        for _ in 0..u64::MAX {
            if self.shut.load(Ordering::SeqCst) == 0 {
                return;
            }
            thread::yield_now();
        }
    }
}

/// A record whose name is behind a gate.
#[derive(Drop)]
pub struct Gated {
    src: u32,
    gate: Arc<Gate>,
}

impl Payload for Gated {
    ghost use Rattle.table_rows.specs.Record.{record_name};

    type Home = ();

    ghost home = { λ _. tt };

    ghost source = { λ one. one.src };

    ghost name_of = { λ _ src. record_name src };

    fn src(&self) -> u32 {
        self.src
    }

    fn name(&self) -> VersionText {
        self.gate.pass();
        let letter = [(self.src % 26) as u8 + 97];
        match VersionText::new(&letter) {
            Ok(name) => name,
            Err(_) => unreachable!(),
        }
    }
}

/// The record of this source behind this gate.
pub fn behind(alloc: Global, gate: &Arc<Gate>, src: u32) -> Result<Arc<Gated>, AllocError>
    ensures { IfOk result (λ one. (arc_value one).src ≡ src) }
{
    let gate = Arc::try_clone(gate)?;
    Ok(Arc::new(alloc, Gated { src, gate })?)
}
