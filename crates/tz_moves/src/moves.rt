//! The moves of a stretch of time.
ghost use Rattle.std.specs.Prelude.{◌≡◌, List, ◌∷◌, ◌++◌, map, IfOk, OnOk};
ghost use Rattle.tz_types.specs.declared.range.SysInfo.{SysInfo};
ghost use Rattle.tz_expand.specs.Stretch.{IsStretch};
ghost use Rattle.tz_moves.specs.Moves.{moved_after, moved_ranges};
ghost use Rattle.tz_moves.specs.Move.{move_to, moves_between};

use crate::range::runs_alike;
use std::alloc::Global;
use tz_expand::{CompiledZone, expand_uncounted};
use tz_types::{Abbrev, FIRST_INSTANT, NoMemory, SysInfo};

/// A visible change of a zone's clock at the instant `at`. From then on local time is `offset` seconds ahead of
/// universal time, of which `save` are daylight saving, and is called `abbrev`.
#[derive(Debug, PartialEq, Drop)]
pub struct Move {
    pub at: i64,
    pub offset: i64,
    pub save: i64,
    pub abbrev: Abbrev,
}

impl Move {
    /// The move with which a range begins.
    fn to(range: &SysInfo) -> Self
        ensures { result ≡ move_to range.now }
    {
        Move {
            at: range.begin,
            offset: range.offset,
            save: range.save,
            abbrev: range.abbrev.copied(),
        }
    }
}

/// Puts the move between two ranges behind those before it, if the clock doesn't run alike in them.
fn push_move(moves: &mut Vec<Move>, before: &SysInfo, range: &SysInfo) -> Result<(), NoMemory>
    ensures { OnOk result ((later : List SysInfo) → moves.new.items ++ map move_to (moved_after range.now later)
        ≡ moves.old.items ++ map move_to (moved_after before.now (range.now ∷ later))) }
{
    if !runs_alike(before, range) {
        moves.push(Move::to(range))?;
    }
    Ok(())
}

/// The moves between ranges that follow one another.
fn moves_among(alloc: Global, ranges: &[SysInfo]) -> Result<Vec<Move>, NoMemory>
    ensures { IfOk result (λ moves. moves.items ≡ map move_to (moved_ranges ranges.now)) }
{
    let mut moves = Vec::new(alloc);
    for place in 1..ranges.len() {
        push_move(&mut moves, &ranges[place - 1], &ranges[place])?;
    }
    Ok(moves)
}

/// The moves of the zone's clock from an instant up to but excluding another, in seconds from 1970-01-01 00:00:00:
/// all of them, in the order of time, each with what the clock shows from then on.
pub fn moves_between(
    alloc: Global,
    zone: &CompiledZone,
    from: i64,
    to: i64,
) -> Result<Vec<Move>, NoMemory>
    requires { IsStretch from to }
    ensures { IfOk result (λ moves. moves.items ≡ moves_between zone.now from to) }
{
    // A range that begins at `from` is told apart by the range before it.
    let since = FIRST_INSTANT.max(from - 1);
    let ranges = expand_uncounted(alloc, zone, since, to)?;
    moves_among(alloc, ranges.as_slice())
}
