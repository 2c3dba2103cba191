//! Why a formula has no automaton within the limits.

use base_library::NoMemory;
use obligations::StepError;
use std::alloc::AllocFailed;
use thiserror::Error;

/// How many states an automaton may have.
pub const MOST_AUTOMATON_STATES: usize = 4_096;

/// How many edges an automaton may have.
pub const MOST_AUTOMATON_EDGES: usize = 200_000;

/// Why a formula has no automaton within the limits.
#[derive(Clone, Copy, Debug, PartialEq, Eq, Error)]
pub enum BuildError {
    /// A reached set has a list of more than 65,536 choices before it is reduced.
    #[error("there are more than 65536 choices")]
    Choices,
    /// More than 4,096 states are reached.
    #[error("there are more than 4096 states")]
    States,
    /// There are more than 200,000 edges.
    #[error("there are more than 200000 edges")]
    Edges,
    /// Memory ran out.
    #[error("out of memory")]
    NoMemory,
}

impl From<NoMemory> for BuildError {
    ghost from_gives = { λ _ e. e ≡ BuildError.NoMemory };

    ghost use Rattle.std.specs.Prelude.{◌≡◌};
    ghost use Rattle.cobuchi_automata.specs.declared.build_error.BuildError.{BuildError};

    fn from(_: NoMemory) -> BuildError {
        BuildError::NoMemory
    }
}

impl<T: Drop> From<AllocFailed<T>> for BuildError {
    ghost from_gives = { λ _ e. e ≡ BuildError.NoMemory };

    ghost use Rattle.std.specs.Prelude.{◌≡◌};
    ghost use Rattle.cobuchi_automata.specs.declared.build_error.BuildError.{BuildError};

    fn from(_: AllocFailed<T>) -> BuildError {
        BuildError::NoMemory
    }
}

impl From<StepError> for BuildError {
    ghost from_gives = { λ cause e. e ≡ build_error cause };

    ghost use Rattle.std.specs.Prelude.{◌≡◌};
    ghost use Rattle.cobuchi_automata.specs.declared.build_error.BuildError.{BuildError};
    ghost use Rattle.cobuchi_automata.specs.Refusals.{build_error};

    fn from(cause: StepError) -> BuildError {
        match cause {
            StepError::Choices => BuildError::Choices,
            StepError::NoMemory => BuildError::NoMemory,
        }
    }
}
