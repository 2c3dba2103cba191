//! Why a question for an environment has no answer.

use base_library::NoMemory;
use std::alloc::AllocFailed;
use thiserror::Error;

/// Why a question for an environment has no answer.
#[derive(Clone, Copy, Debug, PartialEq, Eq, Error)]
pub enum DualError {
    /// The space has more than 1,024 vectors.
    #[error("there are more than 1024 vectors")]
    Vectors,
    /// It has more than 2,000,000 clauses.
    #[error("there are more than 2000000 clauses")]
    Clauses,
    /// Memory ran out.
    #[error("out of memory")]
    NoMemory,
}

impl From<NoMemory> for DualError {
    ghost from_gives = { λ _ e. e ≡ DualError.NoMemory };

    ghost use Rattle.std.specs.Prelude.{◌≡◌};
    ghost use Rattle.counterstrategy.specs.declared.dual_error.DualError.{DualError};

    fn from(_: NoMemory) -> DualError {
        DualError::NoMemory
    }
}

impl<T: Drop> From<AllocFailed<T>> for DualError {
    ghost from_gives = { λ _ e. e ≡ DualError.NoMemory };

    ghost use Rattle.std.specs.Prelude.{◌≡◌};
    ghost use Rattle.counterstrategy.specs.declared.dual_error.DualError.{DualError};

    fn from(_: AllocFailed<T>) -> DualError {
        DualError::NoMemory
    }
}
