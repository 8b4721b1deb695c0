//! Link lines: `Link TARGET LINK-NAME`.
ghost use Rattle.std.specs.Prelude.{◌≡◌, false};
ghost use Rattle.tz_specs.specs.Record.{LinkLine, link_causes, record_of};
ghost use Rattle.tz_records.specs.Entry.{written_entry};
ghost use Rattle.tz_records.specs.Tells.{Tells};

use crate::entry::Entry;
use crate::given_name::GivenName;
use crate::values::{is_bad_name, is_long_name};
use tz_text::Fields;
use tz_types::Cause;

/// The link of three fields, or their least cause.
pub fn link_entry<'a>(fields: &Fields<'a>, number: u32) -> Result<Entry<'a>, Cause>
    requires { fields.now.count ≡ 3 }
    ensures { Tells written_entry (link_causes false fields.now.first) (record_of LinkLine number fields.now.first) result }
{
    let target = fields.get(1);
    let name = fields.get(2);
    if is_bad_name(target) || is_bad_name(name) {
        return Err(Cause::BadName);
    }
    if is_long_name(target) || is_long_name(name) {
        return Err(Cause::Limit);
    }
    Ok(Entry::Link {
        target: GivenName::of_field(target),
        name: GivenName::of_field(name),
        line: number,
    })
}
