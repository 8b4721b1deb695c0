//! The words of the command line, the command, and the status that the program ends with.
ghost use Rattle.std.specs.Prelude.{◌≡◌};
ghost use Rattle.std.specs.Process.{exit_status};
ghost use Rattle.tz_words.specs.Status.{exit_code};
ghost use Rattle.tz_words.specs.declared.status.Status.{Status as DeclaredStatus};

use std::process::ExitCode;
use std::rt::{Env, Files};
use std::sync::Wait;
use std::thread::Threads;
use std::{env, io};
use tz_io::{RealFiles, RealSink};
use tz_lane::OpenGate;
use tz_top::run;
use tz_words::Status;

/// The words of the command line, without the program's name.
fn words_of(rt: &(impl Env + AllocGlobal)) -> io::Result<Vec<String>> {
    let mut words = Vec::new(rt.alloc());
    for word in env::args(rt)?.skip(1) {
        words.push(word)?;
    }
    Ok(words)
}

/// Does the command that the program was called with, and answers the exit status of that command's status. A word that
/// isn't UTF-8 is no word of any command, so the line is refused as one without words is. Where no memory is found for the
/// words, nothing is printed.
pub fn run_program<R: Env + Files + Print + Threads + Wait + AllocGlobal + Sync>(rt: &R) -> ExitCode
    ensures { (status : DeclaredStatus) × exit_status result ≡ exit_code status }
{
    let words = match words_of(rt) {
        Ok(words) => words,
        Err(error) if error.kind() == io::ErrorKind::InvalidData => Vec::new(rt.alloc()),
        Err(_) => return ExitCode::from(Status::Memory.code()),
    };
    let mut files = RealFiles::new(rt);
    let mut sink = RealSink::new(rt);
    let status = run(
        rt,
        rt.alloc(),
        words.as_slice(),
        &mut files,
        &mut sink,
        &OpenGate,
    );
    ExitCode::from(status.code())
}
