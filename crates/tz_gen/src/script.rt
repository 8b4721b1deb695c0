//! Generated scripts: in each round one lane reloads, another holds and erases, and all look.
ghost use Rattle.std.specs.Prelude.{◌≡◌, ◌≤◌, ◌<◌, ◌++◌, codes, IfOk, OnOk};
ghost use Rattle.std.specs.List.{flat_map, range_with_len};
ghost use Rattle.tz_gen.specs.Generated.{lookup_words, lane_lines, round_lines, script_lines, bytes_of_lines};
ghost use Rattle.tz_gen.specs.declared.sizes.TheConstants.{MOST_GENERATED, GENERATED_ROUNDS, GENERATED_LANES, GENERATED_TEXTS};

use crate::line::{put_line, put_natural, put_numbered};
use crate::{GENERATED_LANES, GENERATED_ROUNDS, GENERATED_TEXTS};
use std::alloc::Global;
use tz_types::{NoMemory, Text};

/// Puts the line of one lookup at the end of a text: the one of this index in its round and lane.
#[tactic(auto, unfolding(crate::specs::Generated::lookup_words))]
fn put_lookup(out: &mut Vec<u8>, n: u32, round: u32, lane: u32, index: u32) -> Result<(), NoMemory>
    requires few { n ≤ MOST_GENERATED }
    requires round { round ≤ GENERATED_ROUNDS }
    requires lane { lane ≤ GENERATED_LANES }
    requires index { index < n }
    ensures { OnOk result (out.new.items ≡ out.old.items ++ (lookup_words n round lane index ++ codes "\n")) }
{
    put_natural(out, lane)?;
    out.extend_from_slice(b" info front Gen/")?;
    put_natural(out, (7 * lane + index) % n)?;
    out.extend_from_slice(b" ")?;
    put_natural(out, 86_400 * (30 * index + 7 * round + lane))?;
    out.extend_from_slice(b"\n")?;
    Ok(())
}

/// Puts the lines of one lane's lookups in a round at the end of a text.
#[tactic(auto, unfolding(crate::specs::Generated::lane_lines))]
fn put_lane(out: &mut Vec<u8>, n: u32, round: u32, lane: u32) -> Result<(), NoMemory>
    requires few { n ≤ MOST_GENERATED }
    requires round { round ≤ GENERATED_ROUNDS }
    requires lane { lane ≤ GENERATED_LANES }
    ensures { OnOk result (out.new.items ≡ out.old.items ++ bytes_of_lines (lane_lines n round lane)) }
{
    for index in 0..n {
        put_lookup(out, n, round, lane, index)?;
    }
    Ok(())
}

/// Puts the lines of all lookups in a round at the end of a text.
fn put_lanes(out: &mut Vec<u8>, n: u32, round: u32) -> Result<(), NoMemory>
    requires few { n ≤ MOST_GENERATED }
    requires round { round ≤ GENERATED_ROUNDS }
    ensures { OnOk result (out.new.items ≡ out.old.items ++ bytes_of_lines (flat_map (lane_lines n round) (range_with_len 1 GENERATED_LANES))) }
{
    for before in 0..GENERATED_LANES {
        put_lane(out, n, round, before + 1)?;
    }
    Ok(())
}

/// Puts the lines of a round at the end of a text.
#[tactic(auto, unfolding(crate::specs::Generated::round_lines))]
fn put_round(out: &mut Vec<u8>, n: u32, round: u32) -> Result<(), NoMemory>
    requires few { n ≤ MOST_GENERATED }
    requires round { round ≤ GENERATED_ROUNDS }
    ensures { OnOk result (out.new.items ≡ out.old.items ++ bytes_of_lines (round_lines n round)) }
{
    put_line(out, b"round")?;
    put_numbered(out, b"1 reload ", round % GENERATED_TEXTS)?;
    put_line(out, b"2 hold a")?;
    put_line(out, b"2 erase a")?;
    put_line(out, b"2 drop a")?;
    put_lanes(out, n, round)?;
    Ok(())
}

/// Puts the lines of all rounds at the end of a text.
fn put_rounds(out: &mut Vec<u8>, n: u32) -> Result<(), NoMemory>
    requires few { n ≤ MOST_GENERATED }
    ensures { OnOk result (out.new.items ≡ out.old.items ++ bytes_of_lines (flat_map (round_lines n) (range_with_len 1 GENERATED_ROUNDS))) }
{
    for before in 0..GENERATED_ROUNDS {
        put_round(out, n, before + 1)?;
    }
    Ok(())
}

/// The script over texts of so many zones.
#[tactic(auto, unfolding(crate::specs::Generated::script_lines))]
pub fn generated_script(alloc: Global, n: u32) -> Result<Text, NoMemory>
    requires { n ≤ MOST_GENERATED }
    ensures { IfOk result (λ script. script ≡ bytes_of_lines (script_lines n)) }
{
    let mut out = Vec::new(alloc);
    put_numbered(&mut out, b"lanes ", GENERATED_LANES)?;
    put_rounds(&mut out, n)?;
    Ok(Text::from_vec(out))
}
