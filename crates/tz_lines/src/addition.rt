//! What the lines of a text have given so far, with one more record.
ghost use Rattle.std.specs.Prelude.{◌≡◌, ◌+◌, ◌<◌, ◌≤◌, ◌^◌, ◌||◌, false, nat_lt, length, option_map, IsTrue, IfSome, IfOk, OnOk};
ghost use Rattle.tz_types.specs.declared.limit.TheConstants.{MOST_TEXT_LINES};
ghost use Rattle.tz_specs.specs.Written.{written_rule, written_line, RuleRecord, ZoneRecord, Continuation, LinkRecord};
ghost use Rattle.tz_specs.specs.Contents.{no_contents, at_end_of_file, with_record, with_said};
ghost use Rattle.tz_records.specs.Entry.{written_entry, written_entry_line};
ghost use Rattle.tz_records.specs.Counts.{exceeds, exceeds_said};
ghost use Rattle.tz_database.specs.Continued.{is_named_by};
ghost use Rattle.tz_lines.specs.Gathered.{contents_gathered};
ghost use Rattle.tz_lines.specs.RecordOrder.{is_in_place};
ghost use Rattle.tz_lines.specs.Excess.{MeansLimit};

use crate::contents::Gathered;
use crate::error::AddError;
use crate::last_zone::{continue_last, zone_of};
use crate::rule_sets::RuleSets;
use crate::set_names::SetNames;
use crate::zone_line::zone_line;
use std::alloc::Global;
use tz_records::{Entry, EntryLine, GivenName};
use tz_types::{Items, Link, MOST_TEXT_LINES, NoMemory, Rule, ZoneLine};

impl Gathered {
    /// Before any line.
    pub fn new(alloc: Global) -> Self
        ensures contents { contents_gathered result ≡ no_contents }
        ensures names { length result.names.labels.items ≡ 0 }
    {
        Gathered {
            sets: RuleSets::new(alloc),
            names: SetNames::new(alloc),
            zones: Items::new(alloc),
            links: Items::new(alloc),
            begun: false,
        }
    }

    fn add_rule(&mut self, alloc: Global, name: GivenName<'_>, rule: Rule) -> Result<(), AddError>
        requires { IsTrue (is_in_place (contents_gathered self.old) (RuleRecord name.bytes.now (written_rule rule))) }
        ensures limit { MeansLimit result (exceeds (contents_gathered self.old) (RuleRecord name.entry.bytes.now (written_rule rule))) }
        ensures contents { OnOk result (contents_gathered self.new ≡ with_record (RuleRecord name.entry.bytes.now (written_rule rule)) (contents_gathered self.old)) }
        ensures names { length self.new.names.labels.items ≡ length self.old.names.labels.items }
    {
        self.sets.add(alloc, name, rule)
    }

    /// The line of a zone that an entry says. The name of its rule set is among the names from then on.
    fn zone_line(&mut self, alloc: Global, entry: EntryLine<'_>) -> Result<ZoneLine, NoMemory>
        requires { length self.old.names.labels.items < 2 ^ 32 }
        ensures contents { contents_gathered self.new ≡ contents_gathered self.old }
        ensures line { IfOk result (λ it. written_line self.new.names.labels.items it ≡ written_entry_line entry.entry) }
        ensures named { IfOk result (λ it. IsTrue (is_named_by (length self.new.names.labels.items) it.rules)) }
        ensures names { length self.new.names.labels.items ≤ length self.old.names.labels.items + 1 }
    {
        zone_line(alloc, &mut self.names, entry)
    }

    fn begin_zone(
        &mut self,
        alloc: Global,
        name: GivenName<'_>,
        entry: EntryLine<'_>,
    ) -> Result<(), AddError>
        requires room { length self.old.names.labels.items < 2 ^ 32 }
        ensures limit { MeansLimit result (exceeds (contents_gathered self.old) (ZoneRecord name.entry.bytes.now (written_entry_line entry.entry))) }
        ensures contents { OnOk result (contents_gathered self.new ≡ with_record (ZoneRecord name.entry.bytes.now (written_entry_line entry.entry)) (contents_gathered self.old)) }
        ensures names { length self.new.names.labels.items ≤ length self.old.names.labels.items + 1 }
    {
        if self.exceeds_zones() {
            return Err(AddError::Limit);
        }
        let line = self.zone_line(alloc, entry)?;
        self.zones.push(zone_of(alloc, name, line)?)?;
        self.begun = true;
        Ok(())
    }

    fn continue_zone(&mut self, alloc: Global, entry: EntryLine<'_>) -> Result<(), AddError>
        requires room { length self.old.names.labels.items < 2 ^ 32 }
        requires waits { IsTrue (is_in_place (contents_gathered self.old) (Continuation (written_entry_line entry))) }
        ensures limit { MeansLimit result (exceeds (contents_gathered self.old) (Continuation (written_entry_line entry.entry))) }
        ensures contents { OnOk result (contents_gathered self.new ≡ with_record (Continuation (written_entry_line entry.entry)) (contents_gathered self.old)) }
        ensures names { length self.new.names.labels.items ≤ length self.old.names.labels.items + 1 }
    {
        if self.exceeds_lines() {
            return Err(AddError::Limit);
        }
        let line = self.zone_line(alloc, entry)?;
        continue_last(&mut self.zones, line)?;
        Ok(())
    }

    /// Adds a link. The place of its zone is 0 until all lines are there.
    fn add_link(
        &mut self,
        target: GivenName<'_>,
        name: GivenName<'_>,
        line: u32,
    ) -> Result<(), AddError>
        ensures limit { MeansLimit result (exceeds (contents_gathered self.old) (LinkRecord (record { target = target.entry.bytes.now; name = name.entry.bytes.now; line = line }))) }
        ensures contents { OnOk result (contents_gathered self.new ≡ with_record (LinkRecord (record { target = target.entry.bytes.now; name = name.entry.bytes.now; line = line })) (contents_gathered self.old)) }
        ensures names { length self.new.names.labels.items ≡ length self.old.names.labels.items }
    {
        if self.exceeds_links() {
            return Err(AddError::Limit);
        }
        self.links.push(Link {
            name: name.label(),
            target: target.label(),
            zone: 0,
            line,
        })?;
        Ok(())
    }

    /// Ends a file: the next one continues no zone of it.
    pub fn end_file(&mut self)
        ensures contents { contents_gathered self.new ≡ at_end_of_file (contents_gathered self.old) }
        ensures ended { self.new.begun ≡ false }
        ensures names { length self.new.names.labels.items ≡ length self.old.names.labels.items }
    {
        self.begun = false;
    }

    /// Adds the record of a line, unless it is one too many.
    fn add_entry(&mut self, alloc: Global, entry: Entry<'_>) -> Result<(), AddError>
        requires room { length self.old.names.labels.items < 2 ^ 32 }
        requires in_place { IsTrue (is_in_place (contents_gathered self.old) (written_entry entry)) }
        ensures limit { MeansLimit result (exceeds (contents_gathered self.old) (written_entry entry.entry)) }
        ensures contents { OnOk result (contents_gathered self.new ≡ with_record (written_entry entry.entry) (contents_gathered self.old)) }
        ensures names { length self.new.names.labels.items ≤ length self.old.names.labels.items + 1 }
    {
        match entry {
            Entry::Rule { name, rule } => self.add_rule(alloc, name, rule),
            Entry::Zone { name, line } => self.begin_zone(alloc, name, line),
            Entry::Continuation(line) => self.continue_zone(alloc, line),
            Entry::Link { target, name, line } => self.add_link(target, name, line),
        }
    }

    /// Adds what the line of that number says, unless the line or its record is one too many. After an error the text can't be
    /// read on.
    pub fn add(
        &mut self,
        alloc: Global,
        said: Option<Entry<'_>>,
        number: u32,
    ) -> Result<(), AddError>
        requires room { length self.old.names.labels.items < 2 ^ 32 }
        requires in_place { IfSome said (λ entry. IsTrue (is_in_place (contents_gathered self.old) (written_entry entry))) }
        ensures limit { MeansLimit result (exceeds_said (contents_gathered self.old) (option_map written_entry said.entry) || nat_lt MOST_TEXT_LINES number) }
        ensures contents { OnOk result (contents_gathered self.new ≡ with_said (option_map written_entry said.entry) (contents_gathered self.old)) }
        ensures names { length self.new.names.labels.items ≤ length self.old.names.labels.items + 1 }
    {
        if number > MOST_TEXT_LINES {
            return Err(AddError::Limit);
        }
        match said {
            None => Ok(()),
            Some(entry) => self.add_entry(alloc, entry),
        }
    }
}
