//! Parts of a line that stand one after another.

ghost use Rattle.std.specs.Prelude.{◌≡◌, List, ℕ, Bool, map, IfOk, IfErr};
ghost use Rattle.program_listing.specs.internal.LineReading.{LineReader, Shrinks, IsReadAs, IsUnread, repeat};

use crate::rest::{Reading, Rest};
use std::alloc::Global;

/// A part of a line that may stand there several times.
pub trait Part: Drop {
    /// What it is as a pure value.
    ghost Tree: { Type 0 };

    /// The pure value of a part.
    ghost tree: { Self → Self.Tree };

    /// Whether one more stands next.
    ghost stands: { List ℕ → Bool };

    /// How one is read.
    ghost reader: { LineReader Self.Tree };

    /// Whether one more stands next.
    fn stands(bytes: &[u8]) -> bool
        ensures { result ≡ stands bytes.now };

    /// Reads one.
    fn read(alloc: Global, left: Rest<'_>) -> Reading<'_, Self>
        ensures ok { IfOk result (IsReadAs tree reader left.entry) }
        ensures wrong { IfErr result (IsUnread reader left.entry) };
}

/// The parts that stand one after another, which may be none. Each takes a byte at least.
pub fn repeated<T: Part>(alloc: Global, left: Rest<'_>) -> Reading<'_, Vec<T>>
    requires { Shrinks T.reader }
    ensures ok { IfOk result
        (IsReadAs (λ parts. map T.tree parts.items) (repeat T.stands T.reader) left.entry) }
    ensures wrong { IfErr result (IsUnread (repeat T.stands T.reader) left.entry) }
{
    let mut found = Vec::new(alloc);
    let mut rest = left;
    while T::stands(rest.bytes) {
        let (part, later) = T::read(alloc, rest)?;
        found.push(part)?;
        rest = later;
    }
    Ok((found, rest))
}
