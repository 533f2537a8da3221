//! Mail that is the same on every machine of a person: the repository, its clients, and their replay.
#![tactic(auto)]

mod command;
mod standard;
mod status;

pub use command::run;
pub use standard::{StdSink, StdSource};
pub use status::{RunError, Status};
use std::io::ErrorKind;
use std::process::ExitCode;
use std::{env, io};

#[cfg(test)]
mod tests;

fn main(rt: HostRuntime) -> ExitCode {
    let status = run_here(&rt);
    if let Some(error) = status.error() {
        let _ = rt.eprintln(error);
    }
    ExitCode::from(status.code())
}

/// Runs the command that the program's words name, over the standard streams. Words that are no
/// text are no command.
fn run_here(rt: &HostRuntime) -> Status {
    let words = match words(rt) {
        Ok(words) => words,
        Err(error) if error.kind() == ErrorKind::OutOfMemory => return Status::Memory,
        Err(_) => return Status::Usage,
    };
    let mut input = StdSource::new(rt.reader());
    let mut output = StdSink::new(io::writer(rt));
    run(rt.alloc(), &words, &mut input, &mut output)
}

/// The words behind the program's name.
fn words(rt: &HostRuntime) -> io::Result<Vec<String>> {
    Ok(env::args(rt)?.skip(1).collect(rt.alloc())?)
}
