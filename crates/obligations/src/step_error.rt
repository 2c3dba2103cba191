//! Why a set has no choices.

use base_library::NoMemory;
use std::alloc::AllocFailed;
use thiserror::Error;

/// How many choices a list may have.
pub const MOST_CHOICES: usize = 65_536;

/// Why a set has no choices.
#[derive(Clone, Copy, Debug, PartialEq, Eq, Error)]
pub enum StepError {
    /// A list that is formed on the way has more than 65,536 members before it is reduced.
    #[error("there are more than 65536 choices")]
    Choices,
    /// Memory ran out.
    #[error("out of memory")]
    NoMemory,
}

impl From<NoMemory> for StepError {
    ghost from_gives = { λ _ e. e ≡ StepError.NoMemory };

    ghost use Rattle.std.specs.Prelude.{◌≡◌};
    ghost use Rattle.obligations.specs.declared.step_error.StepError.{StepError};

    fn from(_: NoMemory) -> StepError {
        StepError::NoMemory
    }
}

impl<T: Drop> From<AllocFailed<T>> for StepError {
    ghost from_gives = { λ _ e. e ≡ StepError.NoMemory };

    ghost use Rattle.std.specs.Prelude.{◌≡◌};
    ghost use Rattle.obligations.specs.declared.step_error.StepError.{StepError};

    fn from(_: AllocFailed<T>) -> StepError {
        StepError::NoMemory
    }
}
