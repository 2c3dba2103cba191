//! Why there is no closed run.

use base_library::NoMemory;
use std::alloc::AllocFailed;
use thiserror::Error;

/// Why there is no closed run.
#[derive(Debug, Drop, Error)]
pub enum RunError {
    /// No two of the configurations that the limit allows are the same.
    #[error("the run does not close within the limit")]
    NoLoop,
    /// Memory ran out.
    #[error("out of memory")]
    NoMemory,
}

impl From<NoMemory> for RunError {
    ghost use Rattle.std.specs.Prelude.{◌≡◌};
    ghost use Rattle.table_runner.specs.declared.errors.RunError.TheVariants.{NoMemory as Exhausted};

    ghost from_gives = { λ _ e. e ≡ Exhausted };

    fn from(_error: NoMemory) -> RunError {
        RunError::NoMemory
    }
}

impl<T: Drop> From<AllocFailed<T>> for RunError {
    ghost use Rattle.std.specs.Prelude.{◌≡◌};
    ghost use Rattle.table_runner.specs.declared.errors.RunError.TheVariants.{NoMemory as Exhausted};

    ghost from_gives = { λ _ e. e ≡ Exhausted };

    fn from(_error: AllocFailed<T>) -> RunError {
        RunError::NoMemory
    }
}
