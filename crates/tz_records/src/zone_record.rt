//! Lines that begin zones, `Zone NAME STDOFF RULES FORMAT [UNTIL]`, and lines that continue them, which begin at `STDOFF`.
ghost use Rattle.std.specs.Prelude.{◌≡◌, ◌≤◌, false, drop, length};
ghost use Rattle.tz_specs.specs.Value.{field_at, is_bad_name, is_long_name};
ghost use Rattle.tz_specs.specs.Record.{ZoneLine, ContinuationLine, line_causes, record_of};
ghost use Rattle.tz_records.specs.Entry.{written_entry};
ghost use Rattle.tz_records.specs.Tells.{Tells};

use crate::entry::Entry;
use crate::given_name::GivenName;
use crate::values::{is_bad_name, is_long_name};
use crate::zone_line::zone_line;
use tz_text::Fields;
use tz_types::Cause;

/// The line that begins a zone, or the least cause of its fields.
pub fn zone_entry<'a>(fields: &Fields<'a>, number: u32) -> Result<Entry<'a>, Cause>
    requires low { 5 ≤ fields.now.count }
    requires high { fields.now.count ≤ 9 }
    requires whole { length fields.now.first ≡ fields.now.count }
    ensures { Tells written_entry (line_causes (is_bad_name (field_at 1 fields.now.first)) (is_long_name (field_at 1 fields.now.first)) (drop 2 fields.now.first)) (record_of ZoneLine number fields.now.first) result }
{
    let name = fields.get(1);
    match zone_line(fields, 2, number, is_bad_name(name), is_long_name(name)) {
        Ok(line) => Ok(Entry::Zone {
            name: GivenName::of_field(name),
            line,
        }),
        Err(cause) => Err(cause),
    }
}

/// The line that continues a zone, or the least cause of its fields.
pub fn continuation_entry<'a>(fields: &Fields<'a>, number: u32) -> Result<Entry<'a>, Cause>
    requires high { fields.now.count ≤ 7 }
    requires whole { length fields.now.first ≡ fields.now.count }
    ensures { Tells written_entry (line_causes false false fields.now.first) (record_of ContinuationLine number fields.now.first) result }
{
    match zone_line(fields, 0, number, false, false) {
        Ok(line) => Ok(Entry::Continuation(line)),
        Err(cause) => Err(cause),
    }
}
