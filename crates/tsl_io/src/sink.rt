//! Where bytes go.
ghost use Rattle.std.specs.Prelude.{◌≡◌, ◌≢◌, ℕ, ◌+◌, ◌<◌, ◌≤◌, [], List, length, take, Option, Some, IfOk, IsOk, OnOk, OnErr};
ghost use Rattle.tsl_io.specs.Told.{with_added, AddsPrefix};
ghost use Rattle.tsl_io.specs.Faults.{Faulted};

use crate::Failed;

/// Where bytes go.
pub trait Sink {
    /// The bytes that were written, where the sink tells them.
    ghost written: { Self → Option (List ℕ) };

    /// What was written was handed on. A sink that says nothing of it has a fact that always holds;
    /// code for any sink has it from a flush alone.
    ghost flushed: { Self → Type 0 };

    /// How many writes and flushes failed so far, up to the last value of a `u64`.
    ghost faults: { Self → ℕ };

    /// Adds the first bytes of the piece, and answers how many: at least one, where there is one. A
    /// write that fails adds nothing.
    fn write(&mut self, piece: &[u8]) -> Result<usize, Failed>
        ensures fits { IfOk result (λ count. count ≤ length piece.now) }
        ensures progress { IfOk result (λ count. 0 < length piece.now → 0 < count) }
        ensures added { IfOk result (λ count.
            written self.new ≡ with_added (take count piece.now) (written self.old)) }
        ensures ok_count { OnOk result (faults self.new ≡ faults self.old) }
        ensures err { OnErr result (written self.new ≡ written self.old) }
        ensures cause { OnErr result (Faulted (faults self.old) (faults self.new)) };

    /// Hands on what was written. It adds nothing.
    fn flush(&mut self) -> Result<(), Failed>
        ensures ok { OnOk result (flushed self.new) }
        ensures same { written self.new ≡ written self.old }
        ensures ok_count { OnOk result (faults self.new ≡ faults self.old) }
        ensures cause { OnErr result (Faulted (faults self.old) (faults self.new)) };
}

/// Writes all bytes in order, and then flushes. For no bytes it calls nothing.
///
/// `Failed` comes only where a write or the flush failed. Some first bytes were added then, and
/// nothing is tried again. It takes no memory.
#[tactic(auto, using(crate::proofs::Told::added_more))]
pub fn write_all_of<K: Sink>(sink: &mut K, bytes: &[u8]) -> Result<(), Failed>
    ensures ok { OnOk result (K.written sink.new ≡ with_added bytes.now (K.written sink.old)) }
    ensures flushed { OnOk result (bytes.now ≢ [] → K.flushed sink.new) }
    ensures ok_count { OnOk result (K.faults sink.new ≡ K.faults sink.old) }
    ensures err { OnErr result (AddsPrefix bytes.now (K.written sink.old) (K.written sink.new)) }
    ensures cause { OnErr result (Faulted (K.faults sink.old) (K.faults sink.new)) }
    ensures nothing { bytes.now ≡ [] → IsOk result × (sink.new ≡ sink.old) }
{
    if bytes.is_empty() {
        return Ok(());
    }
    let mut done = 0;
    while done < bytes.len() {
        done += sink.write(&bytes[done..])?;
    }
    sink.flush()
}
