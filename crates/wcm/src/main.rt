//! Runs components.
//!
//! - `top`: the call that reads the words and the files, and writes the answer
//! - `asked`: the answer to what words ask for; `answer`: that of a command, over the files that `files` reads; `piped`: that of
//!   a pipe; `running`: that of a run, whose trace goes out as it goes; `status`: how a call ends
//! - `adapters`: the files of the system and the standard streams
//! - `laws`: what holds of the definitions alone
#![tactic(auto)]

mod adapters;
mod answer;
mod asked;
mod files;
mod laws;
mod piped;
mod running;
mod status;
mod top;
#[cfg(test)]
mod top_tests;
#[cfg(test)]
mod top_tests_cases;
#[cfg(test)]
mod top_tests_long;
#[cfg(test)]
mod top_tests_pipes;

use adapters::{Stream, SystemFiles};
use status::{Status, exit_code};
use std::env;
use std::io::ErrorKind;
use std::process::ExitCode;

/// The words of the command line. A word that is no text is a wrong word.
fn command_words(rt: &HostRuntime) -> Result<Vec<String>, Status> {
    match env::args(rt) {
        Ok(words) => words.collect(rt.alloc()).map_err(|_| Status::Memory),
        Err(e) if e.kind() == ErrorKind::OutOfMemory => Err(Status::Memory),
        Err(_) => Err(Status::Usage),
    }
}

/// Runs the command over the system's files and the standard streams.
fn run_command(rt: &HostRuntime) -> Status {
    let words = match command_words(rt) {
        Ok(words) => words,
        Err(status) => return status,
    };
    let mut files = SystemFiles::new(rt);
    let mut out = Stream::output(rt.stdout());
    let mut err = Stream::error(rt.stderr());
    top::run_words(rt.alloc(), words.as_slice(), &mut files, &mut out, &mut err)
}

fn main(rt: HostRuntime) -> ExitCode {
    exit_code(run_command(&rt))
}
