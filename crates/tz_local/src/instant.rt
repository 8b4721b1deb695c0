//! The instant that a local time stands for, by a choice where it stands for none or for several.
ghost use Rattle.std.specs.Prelude.{◌≡◌, ◌↔◌, None, IfOk};
ghost use Rattle.tz_types.specs.declared.range.LocalInfo.{LocalInfo};
ghost use Rattle.tz_specs.specs.Expansion.{IsInstant};
ghost use Rattle.tz_specs.specs.Local.{chosen_instant};
ghost use Rattle.tz_local.specs.LocalTime.{IsLocalTime};
ghost use Rattle.tz_local.specs.Choice.{HasNearOffsets, IsInstantOf, NeedsChoice};

use crate::local_info;
use std::error::Error;
use std::fmt;
use tz_expand::CompiledZone;
use tz_types::{Choose, LocalInfo};

/// Why a local time gives no instant.
#[derive(Debug, PartialEq, Drop)]
pub enum ToSysError {
    /// It lies too near to an end of time.
    OutOfRange,
    /// No range shows it, or several do, and there is no choice.
    Undecided(LocalInfo),
}

impl fmt::Display for ToSysError {
    fn fmt<W: fmt::Write>(&self, f: &mut fmt::Formatter<W>) -> fmt::Result {
        match self {
            ToSysError::OutOfRange => f.write_str("the local time is out of range"),
            ToSysError::Undecided(LocalInfo::Nonexistent { .. }) => {
                f.write_str("the local time does not exist")
            }
            ToSysError::Undecided(_) => {
                f.write_str("the local time stands for more than one instant")
            }
        }
    }
}

impl Error for ToSysError {}

/// The instant of a local time of which this is the local info. None comes exactly where it takes a choice and there is none.
#[tactic(auto, unfolding(tz_specs::specs::Local::chosen_instant))]
fn instant_of(info: &LocalInfo, l: i64, choose: Option<Choose>) -> Option<i64>
    requires inside { IsLocalTime l }
    requires near { HasNearOffsets info.now }
    ensures { result ≡ chosen_instant info.now l choose }
{
    match (info, choose) {
        (LocalInfo::Unique(range), _) => Some(l - range.offset),
        (LocalInfo::Ambiguous { first, .. }, Some(Choose::Earliest)) => Some(l - first.offset),
        (LocalInfo::Ambiguous { second, .. }, Some(Choose::Latest)) => Some(l - second.offset),
        (LocalInfo::Nonexistent { first, .. }, Some(_)) => Some(first.end),
        (_, None) => None,
    }
}

/// The instant, in seconds from 1970-01-01 00:00:00, at which the zone's clock shows the local time `l`. Of several instants
/// the choice takes the first or the last; where `l` lies in a gap, both choices take the instant at which the gap begins.
/// `OutOfRange` comes exactly where `local_info` has it, and `Undecided` with the local info exactly where there is no choice
/// and `l` is shown by no range or by several. It takes no memory.
pub fn to_sys(zone: &CompiledZone, l: i64, choose: Option<Choose>) -> Result<i64, ToSysError>
    ensures out_of_range { (result ≡ Err ToSysError.OutOfRange) ↔ ¬ (IsLocalTime l) }
    ensures undecided { (info : LocalInfo) → (result ≡ Err (ToSysError.Undecided info)) ↔ ((choose ≡ None) × NeedsChoice zone.now l info) }
    ensures instant { IfOk result (λ t. IsInstantOf zone.now l choose t) }
    ensures in_time { IfOk result IsInstant }
{
    let Ok(info) = local_info(zone, l) else {
        return Err(ToSysError::OutOfRange);
    };
    match instant_of(&info, l, choose) {
        Some(t) => Ok(t),
        None => Err(ToSysError::Undecided(info)),
    }
}
