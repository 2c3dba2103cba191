//! What is said of a program, and why nothing is.

use base_library::NoMemory;
use cobuchi_automata::BuildError;
use letter_space::SpaceError;
use std::alloc::AllocFailed;
use thiserror::Error;

/// What is said of a program.
#[derive(Clone, Copy, Debug, PartialEq, Eq)]
pub enum Verdict {
    /// Its inputs, cells or outputs are not those of the specification.
    Signals,
    /// The test of this node is no predicate term of the specification, and no node before it is refused.
    Test(u32),
    /// This node assigns a term that is no choice of its signal, and no node before it is refused.
    Choice(u32),
    /// This window has a predicate term or an update that the specification lacks.
    Foreign(u32),
    /// This window is not congruent.
    Unsound(u32),
    /// No annotation within the bound exists.
    NoAnnotation,
    /// Every run of it meets the specification.
    Yes,
}

/// A limit that is passed.
#[derive(Clone, Copy, Debug, PartialEq, Eq)]
pub enum Limit {
    /// The specification has more than 10 predicate terms.
    Predicates,
    /// Its predicate terms and the choices of its signals are more than 64 together.
    Bits,
    /// A set of formulas has more than 65,536 choices before they are reduced.
    Choices,
    /// The automaton has more than 4,096 states.
    States,
    /// The automaton has more than 200,000 edges.
    Edges,
    /// The cells and outputs have more than 1,024 vectors of choices. No program is refused for it.
    Vectors,
    /// The encoding of a question has more than 2,000,000 clauses. No program is refused for it.
    Clauses,
    /// A search for a window looks at more than 10,000,000 cases. No program is refused for it.
    Branches,
}

/// Why nothing is said of a program, or why a question has no answer.
#[derive(Clone, Copy, Debug, PartialEq, Eq, Error)]
pub enum CheckError {
    /// A limit is passed.
    #[error("a limit is passed: {0:?}")]
    Large(Limit),
    /// Memory ran out.
    #[error("out of memory")]
    NoMemory,
}

impl From<NoMemory> for CheckError {
    ghost from_gives = { λ _ e. e ≡ CheckError.NoMemory };

    ghost use Rattle.std.specs.Prelude.{◌≡◌};
    ghost use Rattle.program_check.specs.declared.verdict.CheckError.{CheckError};

    fn from(_: NoMemory) -> CheckError {
        CheckError::NoMemory
    }
}

impl<T: Drop> From<AllocFailed<T>> for CheckError {
    ghost from_gives = { λ _ e. e ≡ CheckError.NoMemory };

    ghost use Rattle.std.specs.Prelude.{◌≡◌};
    ghost use Rattle.program_check.specs.declared.verdict.CheckError.{CheckError};

    fn from(_: AllocFailed<T>) -> CheckError {
        CheckError::NoMemory
    }
}

impl From<SpaceError> for CheckError {
    ghost from_gives = { λ cause e. e ≡ space_refusal cause };

    ghost use Rattle.std.specs.Prelude.{◌≡◌};
    ghost use Rattle.program_check.specs.declared.verdict.CheckError.{CheckError};
    ghost use Rattle.program_check.specs.Refusals.{space_refusal};

    fn from(cause: SpaceError) -> CheckError {
        match cause {
            SpaceError::Predicates => CheckError::Large(Limit::Predicates),
            SpaceError::Bits => CheckError::Large(Limit::Bits),
            SpaceError::NoMemory => CheckError::NoMemory,
        }
    }
}

impl From<BuildError> for CheckError {
    ghost from_gives = { λ cause e. e ≡ build_refusal cause };

    ghost use Rattle.std.specs.Prelude.{◌≡◌};
    ghost use Rattle.program_check.specs.declared.verdict.CheckError.{CheckError};
    ghost use Rattle.program_check.specs.Refusals.{build_refusal};

    fn from(cause: BuildError) -> CheckError {
        match cause {
            BuildError::Choices => CheckError::Large(Limit::Choices),
            BuildError::States => CheckError::Large(Limit::States),
            BuildError::Edges => CheckError::Large(Limit::Edges),
            BuildError::NoMemory => CheckError::NoMemory,
        }
    }
}
