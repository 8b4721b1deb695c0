//! The program `tzlist` once more, whose stored run ends with a status other than 0: a local time that the clock leaves out
//! has no instant.
#![tactic(auto)]

use std::process::ExitCode;
use tz_main::run_program;

fn main(rt: HostRuntime) -> ExitCode {
    run_program(&rt)
}
