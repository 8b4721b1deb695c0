//! What a script asks for: one operation of one lane.
//!
//! Instants and local times are in seconds from 1970-01-01 00:00:00 of their clock.
ghost use Rattle.std.specs.Prelude.{◌≡◌, option_map};
ghost use Rattle.tz_script.specs.Operation.{hold_begun, hold_needed, hold_picked, is_change, source_asked};

use crate::hold_name::HoldName;
use tz_lookup::Conversion;
use tz_types::{Choose, Label};

/// The version that an operation looks into: the one at the front of the list, or one that is held.
#[derive(Debug, PartialEq, Drop)]
pub enum Pick {
    Front,
    Held(HoldName),
}

/// An operation.
#[derive(Debug, PartialEq, Drop)]
pub enum Op {
    /// Looks which version is at the front.
    Look,
    /// Holds the version at the front by a name.
    Hold(HoldName),
    /// Lets a hold go.
    Drop(HoldName),
    /// The range of a zone that holds the instant `t`.
    Info {
        v: Pick,
        zone: Label,
        t: i64,
    },
    /// What there is to know of the local time `l`.
    Local {
        v: Pick,
        zone: Label,
        l: i64,
    },
    /// The instant of the local time `l`; without a choice only where one range shows it.
    Sys {
        v: Pick,
        zone: Label,
        l: i64,
        choose: Option<Choose>,
    },
    /// The ranges of `count` instants, the first at `from` and each `step` seconds after the one before.
    Scan {
        v: Pick,
        zone: Label,
        from: i64,
        step: u32,
        count: u32,
    },
    /// The count `x` of one clock by that of another.
    Clock {
        v: Pick,
        conv: Conversion,
        x: i64,
    },
    /// Puts the version of a text at the front of the list; the texts are numbered from 0.
    Reload {
        src: u32,
    },
    /// Erases the version after this one.
    Erase {
        v: Pick,
    },
    /// Lists the versions.
    List,
}

/// An operation of a script, by the line where it stands, and by its round and its lane. All three are numbered from 1.
#[derive(Debug, PartialEq, Drop)]
pub struct Operation {
    pub line: u32,
    pub round: u32,
    pub lane: u32,
    pub op: Op,
}

impl Pick {
    /// The name of the hold, where it is one.
    fn hold(&self) -> Option<&HoldName>
        ensures { option_map (λ name. name.now) result ≡ hold_picked self.now }
    {
        match self {
            Pick::Front => None,
            Pick::Held(name) => Some(name),
        }
    }
}

impl Op {
    /// The name of the hold that it begins.
    pub fn hold_begun(&self) -> Option<&HoldName>
        ensures { option_map (λ name. name.now) result ≡ hold_begun self.now }
    {
        match self {
            Op::Hold(name) => Some(name),
            _ => None,
        }
    }

    /// The name of the hold that has to be open.
    pub fn hold_needed(&self) -> Option<&HoldName>
        ensures { option_map (λ name. name.now) result ≡ hold_needed self.now }
    {
        match self {
            Op::Drop(name) => Some(name),
            Op::Info { v, .. }
            | Op::Local { v, .. }
            | Op::Sys { v, .. }
            | Op::Scan { v, .. }
            | Op::Clock { v, .. }
            | Op::Erase { v } => v.hold(),
            Op::Look | Op::Hold(_) | Op::Reload { .. } | Op::List => None,
        }
    }

    /// The number of the text that it asks for.
    pub fn source(&self) -> Option<u32>
        ensures { result ≡ source_asked self.now }
    {
        match self {
            Op::Reload { src } => Some(*src),
            _ => None,
        }
    }

    /// Whether it changes the list of versions.
    pub fn is_change(&self) -> bool
        ensures { result ≡ is_change self.now }
    {
        match self {
            Op::Reload { .. } | Op::Erase { .. } => true,
            _ => false,
        }
    }
}
