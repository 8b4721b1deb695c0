//! The zone that was begun last.
ghost use Rattle.std.specs.Prelude.{◌≡◌, ◌∷◌, [], IfOk, OnOk, OnErr};
ghost use Rattle.tz_types.specs.declared.zone.Zone.{Zone as DeclaredZone};
ghost use Rattle.tz_lines.specs.LastZone.{names_of_zones, lines_of_zones, with_last_line, HasRoom};

use std::alloc::Global;
use tz_records::GivenName;
use tz_types::{Items, NoMemory, Zone, ZoneLine};

/// A zone of one line.
pub fn zone_of(alloc: Global, name: GivenName<'_>, line: ZoneLine) -> Result<Zone, NoMemory>
    ensures name { IfOk result (λ (zone : DeclaredZone). zone.name ≡ name.entry.bytes.now) }
    ensures lines { IfOk result (λ (zone : DeclaredZone). zone.lines ≡ line ∷ []) }
{
    let mut lines = Items::new(alloc);
    lines.push(line)?;
    Ok(Zone {
        name: name.label(),
        lines,
    })
}

/// Adds a line to the last zone.
pub fn continue_last(zones: &mut Items<Zone>, line: ZoneLine) -> Result<(), NoMemory>
    requires { HasRoom zones.old }
    ensures names { names_of_zones zones.new ≡ names_of_zones zones.old }
    ensures ok { OnOk result (lines_of_zones zones.new ≡ with_last_line line (lines_of_zones zones.old)) }
    ensures err { OnErr result (lines_of_zones zones.new ≡ lines_of_zones zones.old) }
{
    match zones.last_mut() {
        Some(zone) => zone.lines.push(line),
        None => Ok(()),
    }
}
