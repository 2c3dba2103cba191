//! Why a specification has no space.

use base_library::NoMemory;
use std::alloc::AllocFailed;
use thiserror::Error;

/// Why a specification has no space.
#[derive(Clone, Copy, Debug, PartialEq, Eq, Error)]
pub enum SpaceError {
    /// It has more than 10 predicate terms.
    #[error("there are more than 10 predicate terms")]
    Predicates,
    /// Its predicate terms and the choices of its signals are more than 64 together.
    #[error("there are more than 64 bits")]
    Bits,
    /// Memory ran out.
    #[error("out of memory")]
    NoMemory,
}

impl From<NoMemory> for SpaceError {
    ghost from_gives = { λ _ e. e ≡ SpaceError.NoMemory };

    ghost use Rattle.std.specs.Prelude.{◌≡◌};
    ghost use Rattle.letter_space.specs.declared.space_error.SpaceError.{SpaceError};

    fn from(_: NoMemory) -> SpaceError {
        SpaceError::NoMemory
    }
}

impl<T: Drop> From<AllocFailed<T>> for SpaceError {
    ghost from_gives = { λ _ e. e ≡ SpaceError.NoMemory };

    ghost use Rattle.std.specs.Prelude.{◌≡◌};
    ghost use Rattle.letter_space.specs.declared.space_error.SpaceError.{SpaceError};

    fn from(_: AllocFailed<T>) -> SpaceError {
        SpaceError::NoMemory
    }
}
