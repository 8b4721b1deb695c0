//! The types of ranges, numbered by their places (RFC 8536, section 3.2).
ghost use Rattle.std.specs.Prelude.{◌≡◌, ◌<◌, [], ◌∷◌, ◌++◌, IfOk, OnOk, if◌then◌else◌};
ghost use Rattle.std.specs.List.{list_any};
ghost use Rattle.tz_tzif.specs.declared.types.TheConstants.{MOST_TYPES};
ghost use Rattle.tz_tzif.specs.Types.{type_of, same_type, are_alike, merged, transitions_after, AreFew, types_of, number_in};

use crate::LocalType;
use std::alloc::Global;
use tz_types::{NoMemory, SysInfo};

/// The most types whose numbers are octets.
pub const MOST_TYPES: usize = 256;

/// Whether two ranges are of the same type.
fn are_alike(one: &SysInfo, other: &SysInfo) -> bool
    ensures { result ≡ are_alike one.now other.now }
{
    one.offset == other.offset && (one.save != 0) == (other.save != 0) && one.abbrev == other.abbrev
}

/// Makes neighbours of equal type one, which begins where the first of them does. It keeps that one's end, which no file
/// has.
pub fn merge(ranges: &mut Vec<SysInfo>)
    ensures { ranges.new.items ≡ merged ranges.old.items }
{
    ranges.dedup_by(|range, before| are_alike(range, before));
}

/// Keeps the ranges that begin after `a`: the transitions.
pub fn keep_after(ranges: &mut Vec<SysInfo>, a: i64)
    ensures { ranges.new.items ≡ transitions_after a ranges.old.items }
{
    ranges.retain(|range| a < range.begin);
}

/// Puts a type behind the others, unless it is among them.
fn add(types: &mut Vec<LocalType>, local_type: LocalType) -> Result<(), NoMemory>
    ensures { OnOk result (types.new.items ≡ (if list_any (same_type local_type) types.old.items then types.old.items else types.old.items ++ local_type ∷ [])) }
{
    if !types.contains(&local_type) {
        types.push(local_type)?;
    }
    Ok(())
}

/// The different types of ranges, in the order in which they first appear.
pub fn types_of(alloc: Global, ranges: &[SysInfo]) -> Result<Vec<LocalType>, NoMemory>
    ensures { IfOk result (λ types. types.items ≡ types_of ranges.now) }
{
    let mut types = Vec::new(alloc);
    for range in ranges {
        add(&mut types, LocalType::of(range))?;
    }
    Ok(types)
}

/// The number of a type.
pub fn number_in(types: &[LocalType], local_type: &LocalType) -> usize
    ensures value { result ≡ number_in types.now local_type.now }
    ensures bound { AreFew types.now → result < MOST_TYPES }
{
    types
        .iter()
        .position(|other| local_type == other)
        .unwrap_or(0)
}
