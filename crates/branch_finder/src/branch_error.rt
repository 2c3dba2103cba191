//! Why there is no answer.

use base_library::NoMemory;
use std::alloc::AllocFailed;
use thiserror::Error;

/// Why no window is looked for, or the search ended.
#[derive(Clone, Copy, Debug, PartialEq, Eq, Error)]
pub enum BranchError {
    /// There are more than 10,000,000 pairs of predicate terms on the paths of the depth.
    #[error("there are more than 10000000 branches")]
    Branches,
    /// Memory ran out.
    #[error("out of memory")]
    NoMemory,
}

impl From<NoMemory> for BranchError {
    ghost from_gives = { λ _ e. e ≡ BranchError.NoMemory };

    ghost use Rattle.std.specs.Prelude.{◌≡◌};
    ghost use Rattle.branch_finder.specs.declared.branch_error.BranchError.{BranchError};

    fn from(_: NoMemory) -> BranchError {
        BranchError::NoMemory
    }
}

impl<T: Drop> From<AllocFailed<T>> for BranchError {
    ghost from_gives = { λ _ e. e ≡ BranchError.NoMemory };

    ghost use Rattle.std.specs.Prelude.{◌≡◌};
    ghost use Rattle.branch_finder.specs.declared.branch_error.BranchError.{BranchError};

    fn from(_: AllocFailed<T>) -> BranchError {
        BranchError::NoMemory
    }
}
