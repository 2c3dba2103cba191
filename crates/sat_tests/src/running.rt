//! Runs of the solver as a program, over memory whose calls fail.

use solve_tool::{Status, solve};
use std::alloc::{AllocError, Global};
use std::test::Fail;
use tsl_io::{MemorySink, MemorySource};

/// What a run did.
#[derive(Drop)]
struct Ran {
    status: Status,
    out: Vec<u8>,
    err: Vec<u8>,
}

/// A source of these bytes, one a call where a call fails, and the ordinal of the call that fails.
fn source(alloc: Global, bytes: &[u8], fails_at: u64) -> Result<MemorySource, AllocError> {
    let piece = if fails_at == 0 { 4096 } else { 1 };
    let fails = Vec::from_slice(alloc, &[fails_at])?;
    Ok(MemorySource::new(Vec::from_slice(alloc, bytes)?, piece, fails))
}

/// A sink with room, and the ordinal of the call that fails.
fn sink(alloc: Global, fails_at: u64) -> Result<MemorySink, AllocError> {
    let piece = if fails_at == 0 { 4096 } else { 1 };
    MemorySink::new(alloc, 4096, piece, Vec::from_slice(alloc, &[fails_at])?)
}

/// Runs the program without words, where these calls of the source and the first sink fail.
fn run(alloc: Global, text: &[u8], read_fails: u64, write_fails: u64) -> Result<Ran, AllocError> {
    let mut from = source(alloc, text, read_fails)?;
    let mut out = sink(alloc, write_fails)?;
    let mut err = sink(alloc, 0)?;
    let status = solve(alloc, &[], &mut from, &mut out, &mut err);
    Ok(Ran {
        status,
        out: Vec::from_slice(alloc, out.bytes())?,
        err: Vec::from_slice(alloc, err.bytes())?,
    })
}

#[test]
fn a_source_or_a_sink_that_fails_at_any_call_is_told(rt: HostRuntime) -> Result<(), Fail> {
    let text = b"p cnf 1 1\n-1 0\n";
    let answer = b"s SATISFIABLE\nv -1\nv 0\n";
    // One byte a call: the text takes the calls 1 to 15 of the source, and the end the last.
    for fails_at in 1..=16u64 {
        let ran = run(rt.alloc(), text, fails_at, 0)?;
        assert_eq!(rt; ran.status, Status::ReadFault);
        assert_eq!(rt; ran.out.is_empty(), true);
        assert_eq!(rt; ran.err.as_slice(), b"fault read\n".as_slice());
    }
    // The answer takes the calls 1 to 23 of the sink, and the flush the last.
    for fails_at in 1..=24u64 {
        let ran = run(rt.alloc(), text, 0, fails_at)?;
        assert_eq!(rt; ran.status, Status::WriteFault);
        assert_eq!(rt; ran.out.len() as u64, fails_at - 1);
        assert_eq!(rt; answer.starts_with(&ran.out), true);
        assert_eq!(rt; ran.err.is_empty(), true);
    }
    Ok(())
}
