//! Text that waits to be written. It goes to its sink in pieces of at most `PIECE` bytes, and no more of it is kept
//! meanwhile than one piece and the last line.
ghost use Rattle.std.specs.Prelude.{◌≡◌, ◌≤◌, ◌++◌, ℕ, List, [], length, IfOk, IfErr, OnOk};
ghost use Rattle.tz_io.specs.Sink.{with_bytes, StopsBy};
ghost use Rattle.tz_cli.specs.Dumping.{IsPut, IsStopped};

use crate::dump::Stop;
use std::alloc::Global;
use tz_io::{PutError, Sink, put_all};
use tz_types::NoMemory;

/// The most bytes that are written at once.
const PIECE: usize = 65_536;

/// Text is written once it has so many bytes: another line may not fit into the piece, which is shorter than 512 bytes.
const ENOUGH: usize = PIECE - 512;

/// A text without bytes, with room for a piece.
pub(crate) fn room_for_a_piece(alloc: Global) -> Result<Vec<u8>, NoMemory>
    ensures { IfOk result (λ waiting. waiting.items ≡ []) }
{
    Ok(Vec::with_capacity(alloc, PIECE)?)
}

/// Writes a piece whole.
fn write_piece<S: Sink>(piece: &[u8], sink: &mut S) -> Result<(), PutError>
    requires { length piece.now ≤ PIECE }
    ensures ok { OnOk result (S.state sink.new ≡ with_bytes (S.state sink.old) piece.now) }
    ensures err { IfErr result (λ error. StopsBy error (S.state sink.old) (S.state sink.new) piece.now) }
{
    put_all(sink, piece)
}

/// Writes a text whole, piece after piece.
pub(crate) fn write_text<S: Sink>(text: &[u8], sink: &mut S) -> Result<(), PutError>
    ensures ok { OnOk result (S.state sink.new ≡ with_bytes (S.state sink.old) text.now) }
    ensures err { IfErr result (λ error. StopsBy error (S.state sink.old) (S.state sink.new) text.now) }
{
    let mut rest = text;
    while !rest.is_empty() {
        let (piece, later) = rest.split_at(rest.len().min(PIECE));
        write_piece(piece, sink)?;
        rest = later;
    }
    Ok(())
}

/// Writes the text that waits once there is enough of it.
pub(crate) fn write_enough<S: Sink>(waiting: &mut Vec<u8>, sink: &mut S) -> Result<(), Stop>
    ensures ok { OnOk result (IsPut (S.state sink.old) (S.state sink.new) waiting.old.items waiting.new.items []) }
    ensures stopped { IfErr result (λ stop. (later : List ℕ) →
        IsStopped stop (S.state sink.old) (S.state sink.new) (waiting.old.items ++ later)) }
    ensures room { OnOk result (length waiting.new.items ≤ ENOUGH) }
{
    if waiting.len() <= ENOUGH {
        return Ok(());
    }
    write_text(waiting.as_slice(), sink)?;
    waiting.clear();
    Ok(())
}
