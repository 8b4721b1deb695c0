//! Zones of a database made ready for questions.
ghost use Rattle.std.specs.Prelude.{◌≡◌, ◌<◌, List, ◌∷◌, ◌++◌, length, IsTrue, IfOk, OnOk, slice_get};
ghost use Rattle.std.specs.List.{list_all};
ghost use Rattle.tz_types.specs.Saves.{is_fixed_save};
ghost use Rattle.tz_types.specs.declared.zone.Zone.{Zone};
ghost use Rattle.tz_types.specs.declared.rule_set.RuleSet.{RuleSet};
ghost use Rattle.tz_types.specs.declared.zone_line.ZoneLine.{ZoneLine};
ghost use Rattle.tz_specs.specs.Before.{letters_before};
ghost use Rattle.tz_specs.specs.Expansion.{first_instant, finish_of, following_of, period_from, periods_from};
ghost use Rattle.tz_specs.specs.Sound.{is_known, is_sound};
ghost use Rattle.tz_expand.specs.Followed.{followed_by, is_compiled_save};
ghost use Rattle.tz_expand.specs.Compiled.{period_of, periods};
ghost use Rattle.tz_expand.specs.Zone.{IsCompiled, are_known};

use crate::{CompiledLine, CompiledRules, CompiledZone};
use std::alloc::Global;
use tz_rules::{letters_before, until_instant};
use tz_types::{
    Db, END_OF_TIME, FIRST_INSTANT, Format, Items, Letters, LineRules, NoMemory, RuleSet, Shared,
    ZoneLine,
};

/// The same format again.
fn format_copied(format: &Format) -> Format
    ensures { result ≡ format.now }
{
    match format {
        Format::Text(text) => Format::Text(text.copied()),
        Format::Letters { before, after } => Format::Letters {
            before: before.copied(),
            after: after.copied(),
        },
        Format::Offset { before, after } => Format::Offset {
            before: before.copied(),
            after: after.copied(),
        },
        Format::Pair { standard, daylight } => Format::Pair {
            standard: standard.copied(),
            daylight: daylight.copied(),
        },
    }
}

/// What a line follows, with its rule set shared and not copied.
fn rules_of(sets: &[Shared<RuleSet>], rules: LineRules) -> Result<CompiledRules, NoMemory>
    requires known { IsTrue (is_known sets.now rules) }
    requires save_in { IsTrue (is_fixed_save rules) }
    ensures follows { IfOk result (λ compiled. followed_by compiled ≡ following_of sets.now rules) }
    ensures save_in { IfOk result (λ compiled. IsTrue (is_compiled_save compiled)) }
{
    match rules {
        LineRules::Plain => Ok(CompiledRules::Plain),
        LineRules::Fixed { save, daylight } => Ok(CompiledRules::Fixed { save, daylight }),
        LineRules::Set(place) => Ok(CompiledRules::Set(sets[place as usize].share()?)),
    }
}

/// The letters that hold before any occurrence is in effect.
fn letters_of(rules: &CompiledRules) -> Letters
    ensures { result ≡ letters_before (followed_by rules.now) }
{
    match rules {
        CompiledRules::Plain | CompiledRules::Fixed { .. } => Letters::empty(),
        CompiledRules::Set(set) => letters_before(set.get()),
    }
}

/// When a line ends that follows these rules.
#[tactic(auto, unfolding(tz_specs::specs::Until::until_instant))]
fn finish(line: &ZoneLine, rules: &CompiledRules) -> i64
    requires { IsTrue (is_compiled_save rules.now) }
    ensures { (sets : List RuleSet) → followed_by rules.now ≡ following_of sets line.now.rules → result ≡ finish_of sets line.now }
{
    let until = match &line.until {
        None => return END_OF_TIME,
        Some(until) => until,
    };
    match rules {
        CompiledRules::Plain => until_instant(None, 0, line.stdoff, until),
        CompiledRules::Fixed { save, .. } => until_instant(None, *save, line.stdoff, until),
        CompiledRules::Set(set) => until_instant(Some(set.get()), 0, line.stdoff, until),
    }
}

/// A line with its place in time.
fn line_from(
    sets: &[Shared<RuleSet>],
    line: &ZoneLine,
    start: i64,
) -> Result<CompiledLine, NoMemory>
    requires { IsTrue (is_known sets.now line.now.rules) }
    ensures { IfOk result (λ compiled. period_of compiled ≡ period_from sets.now start line.now) }
{
    let rules = rules_of(sets, line.rules)?;
    let end = finish(line, &rules);
    let letters = letters_of(&rules);
    Ok(CompiledLine {
        start,
        end,
        stdoff: line.stdoff,
        format: format_copied(&line.format),
        rules,
        letters,
    })
}

/// Puts a line behind the lines before it, and answers when it ends.
fn push_line(
    compiled: &mut Items<CompiledLine>,
    sets: &[Shared<RuleSet>],
    line: &ZoneLine,
    start: i64,
) -> Result<i64, NoMemory>
    requires { IsTrue (is_known sets.now line.now.rules) }
    ensures { IfOk result (λ finish. (others : List ZoneLine) →
        periods compiled.new ++ periods_from sets.now finish others ≡ periods compiled.old ++ periods_from sets.now start (line.now ∷ others)) }
{
    let next = line_from(sets, line, start)?;
    let end = next.end;
    compiled.push(next)?;
    Ok(end)
}

/// The lines of a zone with their places in time, the first from the beginning of time.
fn lines_in_time(
    alloc: Global,
    sets: &[Shared<RuleSet>],
    lines: &[ZoneLine],
) -> Result<Items<CompiledLine>, NoMemory>
    requires { IsTrue (are_known sets.now lines.now) }
    ensures { IfOk result (λ compiled. periods compiled ≡ periods_from sets.now first_instant lines.now) }
{
    let mut compiled = Items::new(alloc);
    let mut start = FIRST_INSTANT;
    for line in lines {
        start = push_line(&mut compiled, sets, line, start)?;
    }
    Ok(compiled)
}

/// Makes the zone at a place of a sound database ready for questions. Rule sets are shared with the database.
pub fn compile(alloc: Global, db: &Db, index: u32) -> Result<CompiledZone, NoMemory>
    requires sound { IsTrue (is_sound db.now) }
    requires known { index < length db.now.zones }
    ensures { IfOk result (λ compiled. (zone : Zone) → slice_get db.now.zones index ≡ Some zone → IsCompiled db.now zone compiled) }
{
    let zone = &db.zones.as_slice()[index as usize];
    let lines = lines_in_time(alloc, db.sets.as_slice(), zone.lines.as_slice())?;
    Ok(CompiledZone {
        name: zone.name.copied(),
        lines,
    })
}
