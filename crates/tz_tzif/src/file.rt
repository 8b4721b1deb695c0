//! Files (RFC 8536, section 3) of the ranges of a stretch of time.
ghost use Rattle.std.specs.Prelude.{◌≡◌, ◌↔◌, ◌<◌, ◌^◌, ◌++◌, ℤ, ◌≤ℤ◌, ◌<ℤ◌, length, None, Some, IfOk, IfErr, OnOk};
ghost use Rattle.std.specs.List.{All};
ghost use Rattle.tz_types.specs.declared.limit.TheConstants.{LONGEST_ABBREVIATION};
ghost use Rattle.tz_types.specs.declared.range.SysInfo.{SysInfo};
ghost use Rattle.tz_types.specs.Text.{IsText};
ghost use Rattle.tz_types.specs.Reason.{HasReason};
ghost use Rattle.tz_specs.specs.Expansion.{range_at};
ghost use Rattle.tz_expand.specs.Zone.{expansion_of};
ghost use Rattle.tz_expand.specs.Stretch.{IsStretch, ranges_between};
ghost use Rattle.tz_tzif.specs.declared.local_type.LocalType.{LocalType};
ghost use Rattle.tz_tzif.specs.Types.{type_of, HasNearOffset, merged, AreFew, types_of, transitions_after};
ghost use Rattle.tz_tzif.specs.Designations.{designations_of, designation_octets, indices_in};
ghost use Rattle.tz_tzif.specs.File.{data_octets, file_of, spelling};
ghost use Rattle.tz_tzif.specs.Refusal.{first_far, file_refusal, TellsFar};
ghost use Rattle.tz_tzif.specs.Answer.{Answers};
ghost use Rattle.tz_tzif.specs.Meaning.{IsMeaning};

use crate::designations::{designations_of, octets_of};
use crate::octets::{put_first_block, put_header, put_numbers, put_times, put_types};
use crate::types::{MOST_TYPES, keep_after, merge, types_of};
use crate::{LocalType, TzifError};
use std::alloc::Global;
use tz_expand::{CompiledZone, expand_uncounted};
use tz_types::{Abbrev, NoMemory, SysInfo};

/// The footer, with no rule between its newlines.
const FOOTER: &[u8] = b"\n\n";

/// A length as a count of four octets. A list that is longer has no room in a file: it counts as want of memory.
fn count_of(len: usize) -> Result<u32, NoMemory>
    ensures { IfOk result (λ count. count ≡ len) }
{
    u32::try_from(len).map_err(|_| NoMemory)
}

/// The data of the block of version 2.
fn put_data(
    file: &mut Vec<u8>,
    transitions: &[SysInfo],
    types: &[LocalType],
    designations: &[Abbrev],
    octets: &[u8],
) -> Result<(), TzifError>
    requires few_types { AreFew types.now }
    requires few { AreFew designations.now }
    requires near { All HasNearOffset types.now }
    requires octets { octets.now ≡ designation_octets designations.now }
    ensures put { OnOk result (file.new.items ≡ file.old.items ++ data_octets transitions.now types.now designations.now) }
    ensures held { OnOk result (first_far (indices_in designations.now types.now) ≡ None) }
    ensures refused { IfErr result (λ error. HasReason (TellsFar (first_far (indices_in designations.now types.now))) (file_refusal error)) }
{
    put_times(file, transitions)?;
    put_numbers(file, transitions, types)?;
    put_types(file, types, designations)?;
    put_octets(file, octets)?;
    Ok(())
}

/// Octets as they are.
fn put_octets(file: &mut Vec<u8>, octets: &[u8]) -> Result<(), NoMemory>
    ensures { OnOk result (file.new.items ≡ file.old.items ++ octets.now) }
{
    file.extend_from_slice(octets)?;
    Ok(())
}

/// The file of these transitions, types and designations.
fn file_of(
    alloc: Global,
    transitions: &[SysInfo],
    types: &[LocalType],
    designations: &[Abbrev],
) -> Result<Vec<u8>, TzifError>
    requires few_types { AreFew types.now }
    requires few { AreFew designations.now }
    requires near { All HasNearOffset types.now }
    ensures file { IfOk result (λ file. file.items ≡ file_of transitions.now types.now designations.now) }
    ensures counted { OnOk result (length transitions.now < 2 ^ 32) }
    ensures texts { OnOk result (All (IsText 0 LONGEST_ABBREVIATION) designations.now) }
    ensures held { OnOk result (first_far (indices_in designations.now types.now) ≡ None) }
    ensures refused { IfErr result (λ error. HasReason (TellsFar (first_far (indices_in designations.now types.now))) (file_refusal error)) }
{
    let octets = octets_of(alloc, designations)?;
    let transition_count = count_of(transitions.len())?;
    let type_count = count_of(types.len())?;
    let octet_count = count_of(octets.len())?;
    let mut file = Vec::new(alloc);
    put_first_block(&mut file)?;
    put_header(
        &mut file,
        [0, 0, 0, transition_count, type_count, octet_count],
    )?;
    put_data(
        &mut file,
        transitions,
        types,
        designations,
        octets.as_slice(),
    )?;
    put_octets(&mut file, FOOTER)?;
    Ok(file)
}

/// The file of the ranges that meet a stretch that begins at `a`.
fn spelling(alloc: Global, mut ranges: Vec<SysInfo>, a: i64) -> Result<Vec<u8>, TzifError>
    requires { All (λ range. HasNearOffset (type_of range)) ranges.items }
    ensures answers { Answers a ranges.items result }
    ensures counted { OnOk result (length (transitions_after a (merged ranges.items)) < 2 ^ 32) }
    ensures texts { OnOk result (All (IsText 0 LONGEST_ABBREVIATION) (designations_of (types_of (merged ranges.items)))) }
{
    merge(&mut ranges);
    let types = types_of(alloc, ranges.as_slice())?;
    if types.len() > MOST_TYPES {
        return Err(TzifError::Types {
            count: count_of(types.len())?,
        });
    }
    let designations = designations_of(alloc, types.as_slice())?;
    keep_after(&mut ranges, a);
    file_of(
        alloc,
        ranges.as_slice(),
        types.as_slice(),
        designations.as_slice(),
    )
}

/// The zone as a file of version 2 (RFC 8536), for the stretch from `a` up to but excluding `b`, in seconds from
/// 1970-01-01 00:00:00. There is one such file, and its one meaning at an instant of the stretch is the offset, the
/// abbreviation and whether time is saved there; its type 0 is the one in force at `a`. `Types` comes exactly where there
/// are more than 256 types, and tells how many. `Designations` comes exactly where there are no more, but an index of a
/// designation is above 255, and tells the first such. Where there are 2^32 transitions or more, it counts as want of
/// memory.
pub fn tzif(alloc: Global, zone: &CompiledZone, a: i64, b: i64) -> Result<Vec<u8>, TzifError>
    requires { IsStretch a b }
    ensures answers { Answers a (ranges_between zone.now a b) result }
    ensures means { IfOk result (λ file. (t : ℤ) (range : SysInfo) → a ≤ℤ t → t <ℤ b → range_at (expansion_of zone.now) t ≡ Some range → (local_type : LocalType) → IsMeaning file.items t local_type ↔ (local_type ≡ type_of range)) }
{
    let ranges = expand_uncounted(alloc, zone, a, b)?;
    spelling(alloc, ranges, a)
}
