//! What is left of a line, and what reading it gives.

ghost use Rattle.std.specs.Prelude.{◌+◌, ◌<◌, ◌^◌, length};

use base_library::NoMemory;
use std::alloc::AllocFailed;

/// What is left of a line.
#[derive(Clone, Copy)]
pub struct Rest<'a> {
    /// The offset of its first byte in the text.
    pub at: u32,
    /// Its bytes.
    pub bytes: &'a [u8],
    pub ghost countable: { at + length bytes.now < 2 ^ 32 },
}

/// Why nothing is read.
#[derive(Drop)]
pub enum LineError {
    /// What is to be read does not stand at the front.
    Form,
    /// Memory ran out.
    NoMemory,
}

impl From<NoMemory> for LineError {
    ghost use Rattle.std.specs.Prelude.{◌≡◌};
    ghost use Rattle.program_listing.specs.declared.rest.LineError.TheVariants.{NoMemory as Exhausted};

    ghost from_gives = { λ _ e. e ≡ Exhausted };

    fn from(_error: NoMemory) -> LineError {
        LineError::NoMemory
    }
}

impl<T: Drop> From<AllocFailed<T>> for LineError {
    ghost use Rattle.std.specs.Prelude.{◌≡◌};
    ghost use Rattle.program_listing.specs.declared.rest.LineError.TheVariants.{NoMemory as Exhausted};

    ghost from_gives = { λ _ e. e ≡ Exhausted };

    fn from(_error: AllocFailed<T>) -> LineError {
        LineError::NoMemory
    }
}

/// What was read, and what is left after it.
pub type Reading<'a, V> = Result<(V, Rest<'a>), LineError>;
