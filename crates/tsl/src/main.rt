//! The program: it makes the real source and sinks, calls `tsl` and ends with its status.
#![tactic(auto)]

use std::process::ExitCode;
use std::rt::Env;
use std::{env, io};
use tsl_io::{StdSink, StdSource};
use tsl_tool::{Status, tsl};

/// The words after the program's name.
fn words(rt: &(impl Env + AllocGlobal)) -> io::Result<Vec<String>> {
    Ok(env::args(rt)?.skip(1).collect(rt.alloc())?)
}

fn main(rt: HostRuntime) -> ExitCode {
    let words = match words(&rt) {
        Ok(words) => words,
        Err(error) if error.kind() == io::ErrorKind::OutOfMemory => {
            return ExitCode::from(Status::Memory.number());
        }
        // Words that are not UTF-8 are no command.
        Err(_) => Vec::new(rt.alloc()),
    };
    let mut source = StdSource::new(rt.reader());
    let mut out = StdSink::new(rt.stdout());
    let mut err = StdSink::new(rt.stderr());
    let status = tsl(rt.alloc(), &words, &mut source, &mut out, &mut err);
    ExitCode::from(status.number())
}
