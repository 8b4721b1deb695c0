//! The parts of a file as octets (RFC 8536, sections 3.1 and 3.2), each put behind those before it. Numbers have their
//! highest octet first, signed ones in two's complement.
ghost use Rattle.std.specs.Prelude.{◌≡◌, [], ◌∷◌, ◌++◌, map, None, IfErr, OnOk, if◌then◌else◌};
ghost use Rattle.std.specs.List.{All, flat_map};
ghost use Rattle.tz_types.specs.Reason.{HasReason};
ghost use Rattle.tz_tzif.specs.Types.{type_of, HasNearOffset, AreFew, number_in};
ghost use Rattle.tz_tzif.specs.Designations.{index_in, indices_in};
ghost use Rattle.tz_tzif.specs.File.{header, first_block, time_octets, offset_octets, type_octets};
ghost use Rattle.tz_tzif.specs.Refusal.{first_far, file_refusal, TellsFar};

use crate::designations::index_in;
use crate::types::number_in;
use crate::{LocalType, TzifError};
use tz_types::{Abbrev, NoMemory, SysInfo};

/// What a file and each of its headers begin with, and the version.
const MAGIC: &[u8] = b"TZif2";

/// The octets of a header between the version and the counts.
const RESERVED: [u8; 15] = [0; 15];

/// The data of a block of version 1 with one type, and a designation without letters.
const NO_DATA: [u8; 7] = [0; 7];

/// A header with six counts: of the indicators of both kinds, of leap seconds, of transitions, of types, and of the
/// octets of designations.
pub fn put_header(file: &mut Vec<u8>, counts: [u32; 6]) -> Result<(), NoMemory>
    ensures { OnOk result (file.new.items ≡ file.old.items ++ header counts) }
{
    file.extend_from_slice(MAGIC)?;
    file.extend_from_slice(RESERVED.as_slice())?;
    for count in counts {
        file.extend_from_slice(count.to_be_bytes().as_slice())?;
    }
    Ok(())
}

/// The block of version 1, which readers of version 2 skip.
pub fn put_first_block(file: &mut Vec<u8>) -> Result<(), NoMemory>
    ensures { OnOk result (file.new.items ≡ file.old.items ++ first_block) }
{
    put_header(file, [0, 0, 0, 0, 1, 1])?;
    file.extend_from_slice(NO_DATA.as_slice())?;
    Ok(())
}

/// The times of transitions.
pub fn put_times(file: &mut Vec<u8>, transitions: &[SysInfo]) -> Result<(), NoMemory>
    ensures { OnOk result (file.new.items ≡ file.old.items ++ flat_map time_octets transitions.now) }
{
    for range in transitions {
        file.extend_from_slice(range.begin.to_be_bytes().as_slice())?;
    }
    Ok(())
}

/// The numbers of the types of transitions.
pub fn put_numbers(
    file: &mut Vec<u8>,
    transitions: &[SysInfo],
    types: &[LocalType],
) -> Result<(), NoMemory>
    requires { AreFew types.now }
    ensures { OnOk result (file.new.items ≡ file.old.items ++ map (λ range. number_in types.now (type_of range)) transitions.now) }
{
    for range in transitions {
        file.push(number_in(types, &LocalType::of(range)) as u8)?;
    }
    Ok(())
}

/// A type, unless no octet holds the index of its designation.
fn put_type(
    file: &mut Vec<u8>,
    local_type: &LocalType,
    designations: &[Abbrev],
) -> Result<(), TzifError>
    requires few { AreFew designations.now }
    requires near { HasNearOffset local_type.now }
    ensures put { OnOk result (file.new.items ≡ file.old.items ++ type_octets designations.now local_type.now) }
    ensures held { OnOk result (first_far (index_in designations.now local_type.now.designation ∷ []) ≡ None) }
    ensures refused { IfErr result (λ error. HasReason (TellsFar (first_far (index_in designations.now local_type.now.designation ∷ []))) (file_refusal error)) }
{
    let index = index_in(designations, &local_type.designation);
    let Ok(octet) = u8::try_from(index) else {
        return Err(TzifError::Designations { at: index as u32 });
    };
    put_fields(file, local_type, octet)?;
    Ok(())
}

/// The fields of a type whose designation has this index.
fn put_fields(file: &mut Vec<u8>, local_type: &LocalType, index: u8) -> Result<(), NoMemory>
    requires { HasNearOffset local_type.now }
    ensures { OnOk result (file.new.items ≡ file.old.items ++ (offset_octets local_type.now.offset ++ (if local_type.now.is_daylight then 1 else 0) ∷ index ∷ [])) }
{
    let offset = local_type.offset as i32;
    file.extend_from_slice(offset.to_be_bytes().as_slice())?;
    file.push(u8::from(local_type.is_daylight))?;
    file.push(index)?;
    Ok(())
}

/// The types, unless no octet holds one of the indices of their designations.
pub fn put_types(
    file: &mut Vec<u8>,
    types: &[LocalType],
    designations: &[Abbrev],
) -> Result<(), TzifError>
    requires few { AreFew designations.now }
    requires near { All HasNearOffset types.now }
    ensures put { OnOk result (file.new.items ≡ file.old.items ++ flat_map (type_octets designations.now) types.now) }
    ensures held { OnOk result (first_far (indices_in designations.now types.now) ≡ None) }
    ensures refused { IfErr result (λ error. HasReason (TellsFar (first_far (indices_in designations.now types.now))) (file_refusal error)) }
{
    for local_type in types {
        put_type(file, local_type, designations)?;
    }
    Ok(())
}
