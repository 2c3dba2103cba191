//! Why a question has no answer.

use base_library::NoMemory;
use std::alloc::AllocFailed;
use thiserror::Error;

/// Why a question has no answer.
#[derive(Clone, Copy, Debug, PartialEq, Eq, Error)]
pub enum EncodeError {
    /// It has more than 2,000,000 clauses.
    #[error("there are more than 2000000 clauses")]
    Clauses,
    /// Memory ran out.
    #[error("out of memory")]
    NoMemory,
}

impl From<NoMemory> for EncodeError {
    ghost from_gives = { λ _ e. e ≡ EncodeError.NoMemory };

    ghost use Rattle.std.specs.Prelude.{◌≡◌};
    ghost use Rattle.bounded_encoding.specs.declared.errors.EncodeError.{EncodeError};

    fn from(_: NoMemory) -> EncodeError {
        EncodeError::NoMemory
    }
}

impl<T: Drop> From<AllocFailed<T>> for EncodeError {
    ghost from_gives = { λ _ e. e ≡ EncodeError.NoMemory };

    ghost use Rattle.std.specs.Prelude.{◌≡◌};
    ghost use Rattle.bounded_encoding.specs.declared.errors.EncodeError.{EncodeError};

    fn from(_: AllocFailed<T>) -> EncodeError {
        EncodeError::NoMemory
    }
}
