//! The database of a whole text, or its least fault.
ghost use Rattle.std.specs.Prelude.{IsTrue, IfOk, IfErr};
ghost use Rattle.tz_types.specs.Reason.{HasReason};
ghost use Rattle.tz_specs.specs.Whole.{whole_faults, IsLeast};
ghost use Rattle.tz_database.specs.Parts.{contents_given};
ghost use Rattle.tz_database.specs.LineOrder.{begin_in_order, link_in_order};
ghost use Rattle.tz_database.specs.Built.{IsBuiltOf, build_fault};

use crate::BuildError;
use crate::parts::Parts;
use crate::places::set_places;
use crate::reach::zones_reached;
use crate::settle::settle;
use crate::whole_fault::whole_fault;
use std::alloc::Global;
use tz_types::{Db, LineFault};

/// The database of what the lines of a text gave, whose zones begin on later and later lines, as the links stand.
///
/// A fault comes exactly where the text as a whole has one, and is the one at the least line, with the least cause there: 19
/// the last line of a zone has an UNTIL, 20 a line names a rule set without a rule, 21 an earlier zone or link has the name,
/// 22 the targets of a link reach no zone, 23 a line ends no later than it starts. The database is sound: its zones run
/// through all of time, with rule sets that are there, and each link leads to a zone.
pub fn build(alloc: Global, parts: Parts) -> Result<Db, BuildError>
    requires zones { IsTrue (begin_in_order (contents_given parts)) }
    requires links { IsTrue (link_in_order (contents_given parts)) }
    ensures ok { IfOk result (λ db. IsBuiltOf (contents_given parts) parts.version db) }
    ensures err { IfErr result (λ e. HasReason (IsLeast (whole_faults parts.sets (contents_given parts))) (build_fault e)) }
{
    let places = set_places(alloc, parts.sets.as_slice(), parts.names.as_slice())?;
    let reached = zones_reached(alloc, parts.zones.as_slice(), parts.links.as_slice())?;
    match whole_fault(alloc, &parts, &places, &reached)? {
        Some(LineFault { line, cause }) => Err(BuildError::Fault { line, cause }),
        None => Ok(settle(alloc, parts, &places, &reached)?),
    }
}
