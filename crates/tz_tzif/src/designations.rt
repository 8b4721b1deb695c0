//! The designations of types (RFC 8536, section 3.2): abbreviations, each followed by a zero octet.
ghost use Rattle.std.specs.Prelude.{◌≡◌, ◌≤◌, ◌*◌, [], ◌∷◌, ◌++◌, length, IfOk, OnOk, if◌then◌else◌};
ghost use Rattle.std.specs.List.{All, list_any};
ghost use Rattle.std.specs.Str.{bytes_eq};
ghost use Rattle.tz_types.specs.declared.limit.TheConstants.{LONGEST_ABBREVIATION};
ghost use Rattle.tz_types.specs.Text.{IsText};
ghost use Rattle.tz_tzif.specs.Types.{AreFew};
ghost use Rattle.tz_tzif.specs.Designations.{designations_of, designation_octets, index_in};

use crate::LocalType;
use std::alloc::Global;
use tz_types::{Abbrev, NoMemory};

/// Puts a designation behind the others, unless it is among them.
fn add(designations: &mut Vec<Abbrev>, designation: &Abbrev) -> Result<(), NoMemory>
    ensures { OnOk result (designations.new.items ≡ (if list_any (bytes_eq designation.now) designations.old.items then designations.old.items else designations.old.items ++ designation.now ∷ [])) }
{
    if !designations.contains(designation) {
        designations.push(designation.copied())?;
    }
    Ok(())
}

/// The different designations of types, in the order of the types.
pub fn designations_of(alloc: Global, types: &[LocalType]) -> Result<Vec<Abbrev>, NoMemory>
    ensures { IfOk result (λ designations. designations.items ≡ designations_of types.now) }
{
    let mut designations = Vec::new(alloc);
    for local_type in types {
        add(&mut designations, &local_type.designation)?;
    }
    Ok(designations)
}

/// The number of octets before a designation.
pub fn index_in(designations: &[Abbrev], designation: &Abbrev) -> usize
    requires { AreFew designations.now }
    ensures value { result ≡ index_in designations.now designation.now }
    ensures bound { result ≤ 33 * length designations.now }
{
    let mut index = 0;
    for other in designations {
        if other == designation {
            return index;
        }
        index += other.as_bytes().len() + 1;
    }
    index
}

/// The designations as octets, one after another.
pub fn octets_of(alloc: Global, designations: &[Abbrev]) -> Result<Vec<u8>, NoMemory>
    ensures octets { IfOk result (λ octets. octets.items ≡ designation_octets designations.now) }
    ensures texts { OnOk result (All (IsText 0 LONGEST_ABBREVIATION) designations.now) }
{
    let mut octets = Vec::new(alloc);
    for designation in designations {
        octets.extend_from_slice(designation.as_bytes())?;
        octets.push(0)?;
    }
    Ok(octets)
}
