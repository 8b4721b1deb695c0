//! A source read whole.
ghost use Rattle.std.specs.Prelude.{IsTrue, IfOk, IfErr};
ghost use Rattle.tz_specs.specs.Sound.{is_sound};
ghost use Rattle.tz_specs.specs.Reads.{Reads};
ghost use Rattle.tz_lines.specs.Refusal.{MeansFilesFault, MeansFault};

use crate::ReadError;
use crate::error::LineError;
use crate::files::gather;
use crate::places::place_in;
use crate::version::version;
use std::alloc::Global;
use tz_database::build;
use tz_types::{Db, LineFault, Source};

/// The database of a source, or its fault where the lines of all files are counted through.
fn database(alloc: Global, source: &Source) -> Result<Db, LineError>
    ensures ok { IfOk result (λ db. Reads source.now db) }
    ensures sound { IfOk result (λ db. IsTrue (is_sound db)) }
    ensures refused { IfErr result (λ e. MeansFilesFault e source.now.files) }
{
    let gathered = gather(alloc, source.files.as_slice())?;
    Ok(build(alloc, gathered.into_parts(version(source)))?)
}

/// Reads a source whole: one to sixteen files of at most 4,194,304 bytes together.
///
/// The lines of each file are Rule, Zone, continuation and Link records in fields with white space between, as zic(8) describes
/// them; `#` begins a comment. A continuation stands in the file of its zone; rule sets, zones and the targets of links may stand
/// in any file. The version is the one given with the source, or what a first line `# version VERSION` of the first file names.
/// The database that is read is sound: its zones run through all of time, with rule sets that are there, and each link
/// leads to a zone.
///
/// A source is refused at the first line that has one of the causes 1 to 18, with its least: 1 it is longer than 2,048
/// bytes with its newline, 2 it has a NUL byte, 3 it leaves a quote open, 4 it has another keyword, 5 another number of
/// fields, 6 a year isn't of its form, 7 TO is below FROM, 8 the fifth field of a rule isn't `-`, 9 a field names no month,
/// 10 the month has no such day, 11 a time or a standard offset isn't of its form, 12 a save isn't, 13 a name isn't, 14 a
/// format or letters aren't, 15 they are too long, and 18 there are too many lines, records or bytes of a name. Where no
/// line has one of these, it is refused at the least line with one of these, and the least there: 19 the last line of a
/// zone has an UNTIL, 20 a line names a rule set without a rule, 21 an earlier zone or link has the name, 22 the targets of
/// a link reach no zone, 23 a line ends no later than it starts. Limits count over all files, and the lines of an earlier file
/// stand before those of a later one; the fault tells the file, and the line by its number in it.
pub fn read_zones(alloc: Global, source: &Source) -> Result<Db, ReadError>
    ensures ok { IfOk result (λ db. Reads source.now db) }
    ensures sound { IfOk result (λ db. IsTrue (is_sound db)) }
    ensures refused { IfErr result (λ e. MeansFault e source.now) }
{
    match database(alloc, source) {
        Ok(db) => Ok(db),
        Err(LineError::NoMemory) => Err(ReadError::NoMemory),
        Err(LineError::Fault(fault)) => {
            let (file, line) = place_in(source.files.as_slice(), fault.line);
            let in_its_file = LineFault {
                line,
                cause: fault.cause,
            };
            Err(ReadError::Fault(in_its_file.in_file(file)))
        }
    }
}
