//! Names that an earlier line gives too, to a zone or a link.
ghost use Rattle.std.specs.Prelude.{◌≡◌, ℕ, [], ◌∷◌, List, Some, None, map, filter_map, IfOk, OnOk};
ghost use Rattle.std.specs.Option.{option_to_list};
ghost use Rattle.tz_specs.specs.Written.{written_zone, written_link};
ghost use Rattle.tz_specs.specs.Whole.{zone_name, names_given, repeated_name};
ghost use Rattle.tz_database.specs.NameMap.{known_of};
ghost use Rattle.tz_database.specs.Parts.{contents_given};
ghost use Rattle.tz_database.specs.LeastFault.{told_with};
ghost use Rattle.tz_database.specs.FirstLine.{first_line, lesser_line, later_name};

use crate::least_fault::LeastFault;
use crate::parts::Parts;
use std::alloc::Global;
use std::collections::HashMap;
use tz_types::{Cause, NoMemory};

/// The lesser of the least line so far, if there is one, and another.
fn lesser(least: Option<u32>, line: u32) -> u32
    ensures { Some result ≡ lesser_line least line }
{
    match least {
        Some(least) => line.min(least),
        None => line,
    }
}

/// Keeps the line, where no lesser one has given the name.
fn note<'a>(lines: &mut HashMap<&'a [u8], u32>, name: &'a [u8], line: u32) -> Result<(), NoMemory>
    ensures { OnOk result ((other : List ℕ) →
        known_of lines.new other ≡ first_line other (known_of lines.old other) ((name.now, line) ∷ [])) }
{
    let least = lesser(lines.get(name).copied(), line);
    lines.insert(name, least)?;
    Ok(())
}

fn note_zones<'a>(lines: &mut HashMap<&'a [u8], u32>, parts: &'a Parts) -> Result<(), NoMemory>
    ensures { OnOk result ((other : List ℕ) →
        known_of lines.new other
        ≡ first_line other (known_of lines.old other) (filter_map zone_name (map (written_zone parts.now.names) parts.now.zones))) }
{
    for zone in parts.zones.as_slice() {
        if let Some(first) = zone.lines.as_slice().first() {
            note(lines, zone.name.as_bytes(), first.line)?;
        }
    }
    Ok(())
}

fn note_links<'a>(lines: &mut HashMap<&'a [u8], u32>, parts: &'a Parts) -> Result<(), NoMemory>
    ensures { OnOk result ((other : List ℕ) →
        known_of lines.new other
        ≡ first_line other (known_of lines.old other) (map (λ link. (link.name, link.line)) (map written_link parts.now.links))) }
{
    for link in parts.links.as_slice() {
        note(lines, link.name.as_bytes(), link.line)?;
    }
    Ok(())
}

/// The least line of each name.
fn first_lines<'a>(alloc: Global, parts: &'a Parts) -> Result<HashMap<&'a [u8], u32>, NoMemory>
    ensures { IfOk result (λ lines. (name : List ℕ) →
        known_of lines name ≡ first_line name None (names_given (contents_given parts.now))) }
{
    let mut lines = HashMap::new(alloc);
    note_zones(&mut lines, parts)?;
    note_links(&mut lines, parts)?;
    Ok(lines)
}

/// Tells the line, where a lesser one gives the name.
fn tell_later(told: &mut LeastFault, lines: &HashMap<&[u8], u32>, name: &[u8], line: u32)
    ensures { told.new.least ≡ told_with told.old.least (option_to_list (later_name (known_of lines.now) (name.now, line))) }
{
    if let Some(least) = lines.get(name) {
        told.tell_where(*least < line, line, Cause::DuplicateName);
    }
}

fn tell_later_zones(told: &mut LeastFault, lines: &HashMap<&[u8], u32>, parts: &Parts)
    ensures { told.new.least ≡ told_with told.old.least
        (filter_map (later_name (known_of lines.now)) (filter_map zone_name (map (written_zone parts.now.names) parts.now.zones))) }
{
    for zone in parts.zones.as_slice() {
        if let Some(first) = zone.lines.as_slice().first() {
            tell_later(told, lines, zone.name.as_bytes(), first.line);
        }
    }
}

fn tell_later_links(told: &mut LeastFault, lines: &HashMap<&[u8], u32>, parts: &Parts)
    ensures { told.new.least ≡ told_with told.old.least
        (filter_map (later_name (known_of lines.now)) (map (λ link. (link.name, link.line)) (map written_link parts.now.links))) }
{
    for link in parts.links.as_slice() {
        tell_later(told, lines, link.name.as_bytes(), link.line);
    }
}

/// Tells each line whose name an earlier one gives too, to a zone or a link.
pub fn tell_repeated_names(
    told: &mut LeastFault,
    alloc: Global,
    parts: &Parts,
) -> Result<(), NoMemory>
    ensures { OnOk result (told.new.least ≡ told_with told.old.least
        (filter_map (repeated_name (names_given (contents_given parts.now))) (names_given (contents_given parts.now)))) }
{
    let lines = first_lines(alloc, parts)?;
    tell_later_zones(told, &lines, parts);
    tell_later_links(told, &lines, parts);
    Ok(())
}
