//! Runs of the top call over memory, and what they say.

use std::alloc::{AllocError, Global};
use std::process::Abort;
use tsl_io::{MemorySink, MemorySource};
use tsl_tool::{Status, tsl};

/// What a run left.
#[derive(Drop)]
pub(crate) struct Ran {
    pub(crate) status: Status,
    pub(crate) out: Vec<u8>,
    pub(crate) err: Vec<u8>,
    /// Whether a flush handed on all that was written.
    pub(crate) is_handed_on: bool,
}

/// How a device behaves: the most bytes of a call, at least 1, the ordinal of the call that fails, and
/// for a sink how many bytes it has room for.
#[derive(Clone, Copy)]
pub(crate) struct Device {
    pub(crate) piece: usize,
    pub(crate) fails_at: u64,
    pub(crate) room: usize,
}

/// A text, and what a run says of it.
pub(crate) type Case = (&'static [u8], &'static [u8]);

/// A start, a piece, how often it comes behind it, an end, and what a run says of that text.
pub(crate) type Repeated = (
    &'static [u8],
    &'static [u8],
    u32,
    &'static [u8],
    &'static [u8],
);

/// Takes or gives all bytes at once, and never fails.
pub(crate) const PLAIN: Device = Device {
    piece: 4_000_000,
    fails_at: 0,
    room: 100_000,
};

/// An output copies an input.
pub(crate) const COPY: &[u8] = b"always guarantee { [y <- x]; }";

/// The program of one state for it.
pub(crate) const COPIED: &[u8] =
    b"tslprogram 1\ninput x\noutput y\nnode 0 set [y <- x] go 0\nstate 0 at 0\nend\n";

fn sink(alloc: Global, device: Device) -> Result<MemorySink, AllocError> {
    let fails = Vec::from_slice(alloc, &[device.fails_at])?;
    MemorySink::new(alloc, device.room, device.piece.max(1), fails)
}

pub(crate) fn run(
    alloc: Global,
    words: &[&str],
    text: &[u8],
    from: Device,
    to: Device,
    errors_to: Device,
) -> Result<Ran, AllocError> {
    let mut given = Vec::new(alloc);
    for word in words {
        given.push(String::from_str(alloc, word)?)?;
    }
    let bytes = Vec::from_slice(alloc, text)?;
    let fails = Vec::from_slice(alloc, &[from.fails_at])?;
    let mut source = MemorySource::new(bytes, from.piece.max(1), fails);
    let mut out = sink(alloc, to)?;
    let mut err = sink(alloc, errors_to)?;
    let status = tsl(alloc, &given, &mut source, &mut out, &mut err);
    Ok(Ran {
        status,
        out: Vec::from_slice(alloc, out.bytes())?,
        err: Vec::from_slice(alloc, err.bytes())?,
        is_handed_on: out.flushed() == out.bytes().len() && err.flushed() == err.bytes().len(),
    })
}

/// Asserts that a run ended with this status and this text in its sink, handed on, and with nothing
/// in the other.
pub(crate) fn assert_says(rt: &impl Abort, ran: &Ran, status: Status, text: &[u8]) {
    let (out, err): (&[u8], &[u8]) = match status {
        Status::Done | Status::No | Status::Spent => (text, b""),
        _ => (b"", text),
    };
    assert_eq!(rt; ran.status, status);
    assert_eq!(rt; ran.out.as_slice(), out);
    assert_eq!(rt; ran.err.as_slice(), err);
    assert_eq!(rt; ran.is_handed_on, true);
}

/// The status of a run that says this.
fn status_of(says: &[u8]) -> Status {
    match says {
        [b't' | b'v' | b'a' | b'H', ..] => Status::Done,
        [b'r' | b'n', ..] => Status::No,
        [b'u', ..] => Status::Usage,
        [b'l', ..] => Status::Large,
        _ => Status::Reading,
    }
}

/// Asserts what a run says of a text.
pub(crate) fn assert_run(
    rt: &impl Abort,
    alloc: Global,
    words: &[&str],
    text: &[u8],
    says: &[u8],
) -> Result<(), AllocError> {
    let ran = run(alloc, words, text, PLAIN, PLAIN, PLAIN)?;
    assert_says(rt, &ran, status_of(says), says);
    Ok(())
}

/// Asserts what runs say of each text after a front.
pub(crate) fn assert_each(
    rt: &impl Abort,
    alloc: Global,
    words: &[&str],
    front: &[u8],
    cases: &[Case],
) -> Result<(), AllocError> {
    for (text, says) in cases {
        let mut whole = Vec::from_slice(alloc, front)?;
        whole.extend_from_slice(text)?;
        assert_run(rt, alloc, words, &whole, says)?;
    }
    Ok(())
}

/// A text with a piece so many times between its start and its end.
pub(crate) fn repeated(
    alloc: Global,
    start: &[u8],
    piece: &[u8],
    count: u32,
    end: &[u8],
) -> Result<Vec<u8>, AllocError> {
    let mut text = Vec::from_slice(alloc, start)?;
    for _ in 0..count {
        text.extend_from_slice(piece)?;
    }
    text.extend_from_slice(end)?;
    Ok(text)
}

/// Asserts what runs say of each text with a repeated piece.
pub(crate) fn assert_repeated(
    rt: &impl Abort,
    alloc: Global,
    words: &[&str],
    cases: &[Repeated],
) -> Result<(), AllocError> {
    for (start, piece, count, end, says) in cases {
        let text = repeated(alloc, *start, *piece, *count, *end)?;
        assert_run(rt, alloc, words, &text, *says)?;
    }
    Ok(())
}
