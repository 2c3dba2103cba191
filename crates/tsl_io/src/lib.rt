//! Where a program's bytes come from and where they go.
//!
//! A `Source` gives bytes, and a `Sink` takes them. What a contract says of one goes by two
//! meanings, which have no code: the bytes that are left or that were written, where the source or
//! the sink tells them, and a count of faults. The count never falls, and rises only in a call that
//! answers `Failed`; a `Failed` without a rise comes only at the last value of a `u64`, where the
//! count cannot rise. So no call can blame the outside for what it did itself.
//!
//! `read_all` reads a source to its end, `read_into` hands its bytes on piece by piece to what takes
//! a text (`TakePieces`), and `write_all_of` writes bytes and flushes. A crate above
//! may rely on this: what `read_all` answers is exactly what the source held, and none is left;
//! `TooLong` comes exactly where the source has more bytes than the limit; `write_all_of` adds
//! exactly the bytes, and after its failure some first bytes of them; a fault is answered only where
//! the count shows it, and with any other answer the count is as before; for no bytes at all the
//! sink is not touched.
//!
//! `MemorySource` and `MemorySink` tell their bytes, and fail at the calls that a caller names.
//! `StdSource` and `StdSink` stand around any reader and writer of the standard library, as around
//! standard input, output and error. They tell nothing of their bytes: what the system gave and what
//! became of what it took is not known. That they hand on what the reader or the writer did is
//! proved; that a flush is handed on is tested alone.
#![tactic(auto)]

mod memory;
mod sink;
mod source;
mod standard;
mod taker;

ghost use Rattle.std.specs.Prelude.{◌≡◌};
ghost use Rattle.tsl_io.specs.Faults.{next_count, Faulted};

pub use memory::{MemorySink, MemorySource};
pub use sink::{Sink, write_all_of};
pub use source::{ReadError, Source, read_all, read_into};
pub use standard::{StdSink, StdSource};
pub use taker::TakePieces;
use thiserror::Error;

/// A read, a write or a flush failed. The source or the sink counted it.
#[derive(Clone, Copy, Debug, PartialEq, Eq, Error)]
#[error("a read, a write or a flush failed")]
pub struct Failed;

/// Counts a fault. The count stops at the last value of a `u64`.
pub(crate) fn count_fault(faults: &mut u64) -> Failed
    ensures next { faults.new ≡ next_count faults.old }
    ensures cause { Faulted faults.old faults.new }
{
    *faults = faults.saturating_add(1);
    Failed
}
