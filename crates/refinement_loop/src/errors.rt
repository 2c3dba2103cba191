//! Why nothing is answered to a specification, and the refusals of what is asked for it.

ghost use Rattle.std.specs.Prelude.{◌≡◌};
ghost use Rattle.refinement_loop.specs.Refusals.{refused_encoding, refused_dual, refused_branches};

use base_library::{NoMemory, Sequence};
use bounded_encoding::EncodeError;
use branch_finder::BranchError;
use counterstrategy::DualError;
use machines::Round;
use program_check::{CheckError, Limit};
use std::alloc::AllocFailed;
use thiserror::Error;

/// Why nothing is answered to a specification.
#[derive(Debug, Drop, Error)]
pub enum RefineError {
    /// A limit is passed, after these rounds were made.
    #[error("a limit is passed: {0:?}")]
    Large(Limit, Sequence<Round>),
    /// Memory ran out.
    #[error("out of memory")]
    NoMemory,
}

impl From<NoMemory> for RefineError {
    ghost from_gives = { λ _ e. e ≡ RefineError.NoMemory };

    ghost use Rattle.std.specs.Prelude.{◌≡◌};
    ghost use Rattle.refinement_loop.specs.declared.errors.RefineError.{RefineError};

    fn from(_: NoMemory) -> RefineError {
        RefineError::NoMemory
    }
}

impl<T: Drop> From<AllocFailed<T>> for RefineError {
    ghost from_gives = { λ _ e. e ≡ RefineError.NoMemory };

    ghost use Rattle.std.specs.Prelude.{◌≡◌};
    ghost use Rattle.refinement_loop.specs.declared.errors.RefineError.{RefineError};

    fn from(_: AllocFailed<T>) -> RefineError {
        RefineError::NoMemory
    }
}

/// A refusal of an encoding.
pub(crate) fn refused_encoding(cause: EncodeError) -> CheckError
    ensures { result ≡ refused_encoding cause }
{
    match cause {
        EncodeError::Clauses => CheckError::Large(Limit::Clauses),
        EncodeError::NoMemory => CheckError::NoMemory,
    }
}

/// A refusal of the question for an environment.
pub(crate) fn refused_dual(cause: DualError) -> CheckError
    ensures { result ≡ refused_dual cause }
{
    match cause {
        DualError::Vectors => CheckError::Large(Limit::Vectors),
        DualError::Clauses => CheckError::Large(Limit::Clauses),
        DualError::NoMemory => CheckError::NoMemory,
    }
}

/// A refusal of a search for a window.
pub(crate) fn refused_branches(cause: BranchError) -> CheckError
    ensures { result ≡ refused_branches cause }
{
    match cause {
        BranchError::Branches => CheckError::Large(Limit::Branches),
        BranchError::NoMemory => CheckError::NoMemory,
    }
}
