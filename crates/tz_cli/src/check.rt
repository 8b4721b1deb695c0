//! The command `check`: whether a source is read, and how much it has.
ghost use Rattle.tz_cli.specs.Check.{CheckAnswers};
ghost use Rattle.tz_cli.specs.Refusal.{Gives};

use crate::line::check_line;
use crate::refusal::Refusal;
use crate::text::database_of;
use std::alloc::Global;
use tz_types::Source;

/// The line that `check` prints: the version of the source, and how many rules, zones and links it has.
pub fn check(alloc: Global, source: &Source) -> Result<Vec<u8>, Refusal>
    ensures { Gives (CheckAnswers source.now) result }
{
    let db = match database_of(alloc, source) {
        Ok(db) => db,
        Err(refusal) => return Err(refusal),
    };
    match check_line(alloc, &db) {
        Ok(line) => Ok(line),
        Err(_) => Err(Refusal::Memory),
    }
}
