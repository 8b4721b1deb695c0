//! Lines of zones, which give their rule sets by the places of the sets' names.
ghost use Rattle.std.specs.Prelude.{◌≡◌, ◌+◌, ◌<◌, ◌≤◌, ◌^◌, length, IsTrue, IfOk};
ghost use Rattle.tz_types.specs.Saves.{is_fixed_save};
ghost use Rattle.tz_specs.specs.Written.{written_rules, written_line};
ghost use Rattle.tz_records.specs.Entry.{written_entry_rules, written_entry_line};
ghost use Rattle.tz_records.specs.FixedSave.{is_entry_save};
ghost use Rattle.tz_database.specs.Continued.{is_named_by};
ghost use Rattle.tz_lines.specs.SetNames.{AreBegun};

use crate::set_names::SetNames;
use std::alloc::Global;
use tz_records::{EntryLine, EntryRules};
use tz_types::{LineRules, NoMemory, ZoneLine};

/// What a line follows. The name of a rule set is added where it is new.
fn line_rules(
    alloc: Global,
    names: &mut SetNames,
    rules: EntryRules<'_>,
) -> Result<LineRules, NoMemory>
    requires room { length names.old.labels.items < 2 ^ 32 }
    requires save_in { IsTrue (is_entry_save rules) }
    ensures rules { IfOk result (λ it. written_rules names.new.labels.items it ≡ written_entry_rules rules.entry) }
    ensures save_in { IfOk result (λ it. IsTrue (is_fixed_save it)) }
    ensures named { IfOk result (λ it. IsTrue (is_named_by (length names.new.labels.items) it)) }
    ensures begun { AreBegun names.old.labels.items names.new.labels.items }
    ensures few { length names.new.labels.items ≤ length names.old.labels.items + 1 }
{
    match rules {
        EntryRules::Plain => Ok(LineRules::Plain),
        EntryRules::Fixed { save, daylight } => Ok(LineRules::Fixed { save, daylight }),
        EntryRules::Named(name) => Ok(LineRules::Set(names.place(alloc, name)?)),
    }
}

/// The line that an entry says. The name of its rule set is added where it is new.
pub fn zone_line(
    alloc: Global,
    names: &mut SetNames,
    entry: EntryLine<'_>,
) -> Result<ZoneLine, NoMemory>
    requires { length names.old.labels.items < 2 ^ 32 }
    ensures line { IfOk result (λ it. written_line names.new.labels.items it ≡ written_entry_line entry.entry) }
    ensures named { IfOk result (λ it. IsTrue (is_named_by (length names.new.labels.items) it.rules)) }
    ensures begun { AreBegun names.old.labels.items names.new.labels.items }
    ensures few { length names.new.labels.items ≤ length names.old.labels.items + 1 }
{
    let rules = line_rules(alloc, names, entry.rules)?;
    Ok(ZoneLine {
        stdoff: entry.stdoff,
        rules,
        format: entry.format.format(),
        until: entry.until,
        line: entry.line,
    })
}
