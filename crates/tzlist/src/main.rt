//! The program `tzlist`.
#![tactic(auto)]

use std::process::ExitCode;
use tz_main::run_program;

fn main(rt: HostRuntime) -> ExitCode {
    run_program(&rt)
}
