//! A sink in memory, for tests and for proofs that speak of what was taken.
ghost use Rattle.std.specs.Prelude.{◌≡◌, ◌≤◌, [], Some, IfOk, vec_len, vec_capacity};

use crate::calls::is_failing;
use crate::{Failed, PutError, Sink};
use std::alloc::Global;
use tz_types::NoMemory;

/// A sink in memory, which tells all that it took.
#[derive(Debug, Drop)]
pub struct MemorySink {
    bytes: Vec<u8>,
    piece: usize,
    room: usize,
    failing: Vec<u32>,
    calls: u64,
    faults: u64,
    stalls: u64,
    ghost within_room: { vec_len bytes ≤ room },
    ghost room_is_there: { room ≤ vec_capacity bytes },
}

impl MemorySink {
    ghost use Rattle.tz_io.specs.MemorySink.{sink_bytes, sink_state, sink_calls, sink_limits};

    /// A sink that takes at most `piece` bytes a write and `room` bytes in all, whose memory it
    /// takes here. A write that finds no room left takes nothing. `failing` has the numbers of the
    /// writes that fail, counted from 1.
    pub fn new(
        alloc: Global,
        piece: usize,
        room: usize,
        failing: Vec<u32>,
    ) -> Result<MemorySink, NoMemory>
        ensures state { IfOk result (λ sink. sink_state sink ≡ record { bytes = Some []; faults = 0; stalls = 0 }) }
        ensures limits { IfOk result (λ sink. sink_limits sink ≡ (piece, room, failing.items)) }
        ensures calls { IfOk result (λ sink. sink_calls sink ≡ 0) }
    {
        Ok(MemorySink {
            bytes: Vec::with_capacity(alloc, room)?,
            piece,
            room,
            failing,
            calls: 0,
            faults: 0,
            stalls: 0,
        })
    }

    /// All bytes taken so far.
    pub fn taken(&self) -> &[u8]
        ensures { result.now ≡ sink_bytes self.now }
    {
        &self.bytes
    }
}

impl Sink for MemorySink {
    ghost use Rattle.std.specs.Prelude.{◌≡◌, ◌≤◌, ◌↔◌, ◌+◌, ◌-◌, ◌^◌, IfOk, OnErr, IsErr, IsTrue, length, min, take};
    ghost use Rattle.tz_io.specs.Calls.{next_call};
    ghost use Rattle.tz_io.specs.Sink.{with_bytes, IsStall, Counts};
    ghost use Rattle.tz_io.specs.MemorySink.{sink_state, sink_calls, sink_limits, write_fails_next, taken_next};

    ghost state = { sink_state };

    fn write(&mut self, piece: &[u8]) -> Result<usize, Failed>
        // What the trait promises.
        ensures within { IfOk result (λ count. count ≤ length piece.now) }
        ensures taken { IfOk result (λ count. ¬ (IsStall count piece.now) →
            sink_state self.new ≡ with_bytes (sink_state self.old) (take count piece.now)) }
        ensures stalled { IfOk result (λ count. IsStall count piece.now →
            Counts PutError.Stalled (sink_state self.old) (sink_state self.new)) }
        ensures failed { OnErr result (Counts PutError.Failed (sink_state self.old) (sink_state self.new)) }

        // Which writes fail and are counted, and how much the others take.
        ensures counted { OnErr result ((sink_state self.new).faults ≡ min ((sink_state self.old).faults + 1) (2 ^ 64 - 1)) }
        ensures fails { IsErr result ↔ IsTrue (write_fails_next self.old) }
        ensures count { IfOk result (λ count. count ≡ taken_next self.old piece.now) }
        ensures calls { sink_calls self.new ≡ next_call (sink_calls self.old) }
        ensures limits { sink_limits self.new ≡ sink_limits self.old }
    {
        self.calls = self.calls.saturating_add(1);
        if is_failing(&self.failing, self.calls) {
            self.faults = self.faults.saturating_add(1);
            return Err(Failed);
        }
        let left = self.room - self.bytes.len();
        let count = piece.len().min(self.piece).min(left);
        if count == 0 && !piece.is_empty() {
            self.stalls = self.stalls.saturating_add(1);
        }
        match self.bytes.extend_from_slice(&piece[..count]) {
            Ok(()) => Ok(count),
            Err(_) => unreachable!(),
        }
    }
}
