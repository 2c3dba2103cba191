//! Where bytes come from.
ghost use Rattle.std.specs.Prelude.{◌≡◌, ℕ, ◌+◌, ◌<◌, ◌≤◌, List, length, take, Option, Some, IfOk, OnOk, OnErr, IsErrOf, ◌↔◌, []};
ghost use Rattle.tsl_io.specs.Told.{before, WhereTold, TakesPrefix, TakesFirst};
ghost use Rattle.tsl_io.specs.Handed.{HandsOn, HandsOnAtMost};
ghost use Rattle.tsl_io.specs.Faults.{Faulted};

use crate::{Failed, TakePieces};
use std::alloc::{AllocError, Global};
use thiserror::Error;

/// Where bytes come from.
pub trait Source {
    /// The bytes that are left, where the source tells them.
    ghost left: { Self → Option (List ℕ) };

    /// How many reads failed so far, up to the last value of a `u64`.
    ghost faults: { Self → ℕ };

    /// Puts the first bytes that are left into the front of the buffer, takes them off, and answers
    /// how many. The answer 0 for a buffer that is not empty says that the source is at its end, and
    /// comes nowhere else. A read that fails takes nothing.
    fn read(&mut self, buf: &mut [u8]) -> Result<usize, Failed>
        ensures fits { IfOk result (λ count. count ≤ length buf.old) }
        ensures taken { IfOk result (λ count.
            left self.old ≡ before (take count buf.new) (left self.new)) }
        ensures end { IfOk result (λ count. 0 < length buf.old →
            WhereTold (left self.old) (λ bytes. (count ≡ 0) ↔ (bytes ≡ []))) }
        ensures ok_count { OnOk result (faults self.new ≡ faults self.old) }
        ensures err { OnErr result (left self.new ≡ left self.old) }
        ensures cause { OnErr result (Faulted (faults self.old) (faults self.new)) };
}

/// Why `read_all` did not give a source's bytes.
#[derive(Clone, Copy, Debug, PartialEq, Eq, Error)]
pub enum ReadError {
    /// A read failed.
    #[error("a read failed")]
    Fault,
    /// There are more bytes than the limit.
    #[error("there are more bytes than the limit")]
    TooLong,
    /// Memory ran out.
    #[error("out of memory")]
    NoMemory,
}

impl From<Failed> for ReadError {
    ghost use Rattle.std.specs.Prelude.{◌≡◌};
    ghost use Rattle.tsl_io.specs.declared.source.ReadError.TheVariants.{Fault};

    ghost from_gives = { λ _ e. e ≡ Fault };

    fn from(_error: Failed) -> ReadError {
        ReadError::Fault
    }
}

impl From<AllocError> for ReadError {
    ghost use Rattle.std.specs.Prelude.{◌≡◌};
    ghost use Rattle.tsl_io.specs.declared.source.ReadError.TheVariants.{NoMemory};

    ghost from_gives = { λ _ e. e ≡ NoMemory };

    fn from(_error: AllocError) -> ReadError {
        ReadError::NoMemory
    }
}

/// How many bytes are asked for at once, at most.
const PIECE: usize = 65_536;

/// All bytes of a source, to its end, where they are at most `limit`.
///
/// `Fault` comes only where a read failed, and `TooLong` exactly where the source gave `limit + 1`
/// bytes before its end. After each answer some first bytes of the source were taken, and each turn
/// of the loop takes at least one or is the last. The text and one buffer are all that is kept.
pub fn read_all<S: Source>(alloc: Global, source: &mut S, limit: u32) -> Result<Vec<u8>, ReadError>
    // What is answered is all that the source held, at most `limit` bytes, and none is left.
    ensures text { IfOk result (λ text.
        WhereTold (S.left source.old) (λ bytes. text.items ≡ bytes)) }
    ensures none_left { OnOk result
        (WhereTold (S.left source.old) (λ bytes. S.left source.new ≡ Some [])) }
    ensures within { IfOk result (λ text. length text.items ≤ limit) }

    // A fault is counted, and any other answer leaves the count.
    ensures fault { IsErrOf result ReadError.Fault →
        Faulted (S.faults source.old) (S.faults source.new) }
    ensures ok_count { OnOk result (S.faults source.new ≡ S.faults source.old) }
    ensures too_long_count { IsErrOf result ReadError.TooLong →
        S.faults source.new ≡ S.faults source.old }
    ensures no_memory_count { IsErrOf result ReadError.NoMemory →
        S.faults source.new ≡ S.faults source.old }

    // More than `limit` bytes were left, and `limit + 1` of them were taken.
    ensures too_long { IsErrOf result ReadError.TooLong →
        WhereTold (S.left source.old) (λ bytes. limit < length bytes) }
    ensures too_long_taken { IsErrOf result ReadError.TooLong →
        TakesFirst (limit + 1) (S.left source.old) (S.left source.new) }

    ensures prefix { TakesPrefix (S.left source.old) (S.left source.new) }
{
    let mut text = Vec::new(alloc);
    read_into(alloc, source, limit, &mut text)?;
    Ok(text)
}

/// Hands on all bytes of a source, to its end, where they are at most `limit`, piece by piece.
///
/// The answers are those of `read_all`. One buffer is all that is kept here.
pub fn read_into<S: Source, T: TakePieces>(
    alloc: Global,
    source: &mut S,
    limit: u32,
    taker: &mut T,
) -> Result<(), ReadError>
    // At most `limit` bytes were handed on, and none is left.
    ensures ok { OnOk result (HandsOnAtMost limit (S.left source.old) (S.left source.new) (T.has_taken taker.old) (T.has_taken taker.new)) }
    ensures none_left { OnOk result
        (WhereTold (S.left source.old) (λ bytes. S.left source.new ≡ Some [])) }

    // A fault is counted, and any other answer leaves the count.
    ensures fault { IsErrOf result ReadError.Fault →
        Faulted (S.faults source.old) (S.faults source.new) }
    ensures no_fault { (IsErrOf result ReadError.Fault → ⊥) → S.faults source.new ≡ S.faults source.old }

    // More than `limit` bytes were left, and `limit + 1` of them were taken.
    ensures too_long { IsErrOf result ReadError.TooLong →
        TakesFirst (limit + 1) (S.left source.old) (S.left source.new) }

    ensures prefix { TakesPrefix (S.left source.old) (S.left source.new) }
{
    let most = limit as usize + 1;
    let mut buffer = vec![in alloc; 0; PIECE.min(most)]?;
    let mut taken = 0;
    while taken < most {
        let room = buffer.len().min(most - taken);
        let count = read_piece(source, &mut buffer[..room], taker)?;
        if count == 0 {
            return Ok(());
        }
        taken += count;
    }
    Err(ReadError::TooLong)
}

/// Reads once into the piece, hands on what came, and answers how many bytes came.
fn read_piece<S: Source, T: TakePieces>(
    source: &mut S,
    piece: &mut [u8],
    taker: &mut T,
) -> Result<usize, ReadError>
    ensures fits { IfOk result (λ count. count ≤ length piece.old) }
    ensures ok { IfOk result (λ count.
        HandsOn count (S.left source.old) (S.left source.new) (T.has_taken taker.old) (T.has_taken taker.new)) }
    ensures end { IfOk result (λ count. count ≡ 0 → 0 < length piece.old →
        WhereTold (S.left source.new) (λ bytes. bytes ≡ [])) }
    ensures fault { IsErrOf result ReadError.Fault →
        Faulted (S.faults source.old) (S.faults source.new) }
    ensures no_fault { (IsErrOf result ReadError.Fault → ⊥) → S.faults source.new ≡ S.faults source.old }
    ensures not_too_long { IsErrOf result ReadError.TooLong → ⊥ }
    ensures prefix { TakesPrefix (S.left source.old) (S.left source.new) }
{
    let count = source.read(piece)?;
    taker.take_piece(&piece[..count])?;
    Ok(count)
}
