//! The program: it makes the real source and sinks, calls `solve` and ends with its status.
#![tactic(auto)]

use solve_tool::{Status, exit_number, solve};
use std::process::ExitCode;
use std::rt::Env;
use std::{env, io};
use tsl_io::{StdSink, StdSource};

/// The words after the program's name. In place of words that are not UTF-8 there is an empty one, which asks for
/// nothing. `None` where memory runs out.
fn words(rt: &(impl Env + AllocGlobal)) -> Option<Vec<String>> {
    match all_words(rt) {
        Ok(words) => Some(words),
        Err(error) if error.kind() == io::ErrorKind::OutOfMemory => None,
        Err(_) => Vec::from_array(rt.alloc(), [String::new(rt.alloc())]).ok(),
    }
}

/// The words after the program's name, where they are UTF-8.
fn all_words(rt: &(impl Env + AllocGlobal)) -> io::Result<Vec<String>> {
    Ok(env::args(rt)?.skip(1).collect(rt.alloc())?)
}

fn main(rt: HostRuntime) -> ExitCode {
    let Some(words) = words(&rt) else {
        return ExitCode::from(exit_number(Status::Memory));
    };
    let mut source = StdSource::new(rt.reader());
    let mut out = StdSink::new(rt.stdout());
    let mut err = StdSink::new(rt.stderr());
    let status = solve(rt.alloc(), &words, &mut source, &mut out, &mut err);
    ExitCode::from(exit_number(status))
}
