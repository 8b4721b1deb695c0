//! The program `tzlist`: its words are handed to `run`, over the real files and standard output.
//!
//! A program has one stored run. So two programs call what stands here: `tzlist`, whose run is a batch and ends with 0, and
//! `tzlist_refused`, whose run ends with the status of a refusal.
//!
//! The whole of a program:
//!
//! ```rust
//! use std::process::ExitCode;
//! use tz_main::run_program;
//!
//! fn main(rt: HostRuntime) -> ExitCode {
//!     run_program(&rt)
//! }
//! ```
#![tactic(auto)]

mod program;

pub use program::run_program;
