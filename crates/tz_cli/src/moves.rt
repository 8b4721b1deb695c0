//! The moves of a zone's clock in a stretch of time, in seconds from 1970-01-01 00:00:00.
ghost use Rattle.std.specs.Prelude.{◌≡◌, IfOk};
ghost use Rattle.std.specs.List.{flat_map};
ghost use Rattle.tz_expand.specs.Stretch.{IsStretch};
ghost use Rattle.tz_cli.specs.Line.{move_line};
ghost use Rattle.tz_cli.specs.Moves.{AreMovesOf, MovesAnswers};
ghost use Rattle.tz_cli.specs.Refusal.{Gives};
ghost use Rattle.tz_cli.specs.ZoneAnswer.{GivesOfZone};
ghost use Rattle.tz_words.specs.declared.status.Status.TheVariants as statuses;

use crate::line::put_move;
use crate::named_zone::named_zone;
use crate::refusal::Refusal;
use crate::zones::is_stretch;
use std::alloc::Global;
use tz_expand::CompiledZone;
use tz_moves::{Move, moves_between};
use tz_types::{NoMemory, Source};

/// A line for each move.
fn move_lines(alloc: Global, moves: &[Move]) -> Result<Vec<u8>, NoMemory>
    ensures { IfOk result (λ text. text.items ≡ flat_map move_line moves.now) }
{
    let mut text = Vec::new(alloc);
    for change in moves {
        put_move(&mut text, change)?;
    }
    Ok(text)
}

/// The lines of the zone's moves in a stretch.
fn moves_of(alloc: Global, zone: &CompiledZone, from: i64, to: i64) -> Result<Vec<u8>, NoMemory>
    requires { IsStretch from to }
    ensures { IfOk result (λ text. AreMovesOf from to zone.now statuses.Ok text.items) }
{
    let moves = moves_between(alloc, zone, from, to)?;
    move_lines(alloc, moves.as_slice())
}

/// The same, where the stretch lies in time.
fn moves_in(alloc: Global, zone: &CompiledZone, from: i64, to: i64) -> Result<Vec<u8>, Refusal>
    ensures { GivesOfZone (IsStretch from to) (AreMovesOf from to zone.now) result }
{
    if !is_stretch(from, to) {
        return Err(Refusal::Range);
    }
    match moves_of(alloc, zone, from, to) {
        Ok(text) => Ok(text),
        Err(_) => Err(Refusal::Memory),
    }
}

/// What `moves` prints: a line for each move of the zone named in the stretch.
pub fn moves(
    alloc: Global,
    source: &Source,
    name: &[u8],
    from: i64,
    to: i64,
) -> Result<Vec<u8>, Refusal>
    ensures { Gives (MovesAnswers source.now name.now from to) result }
{
    match named_zone(alloc, source, name) {
        Ok(zone) => moves_in(alloc, &zone, from, to),
        Err(refusal) => Err(refusal),
    }
}
