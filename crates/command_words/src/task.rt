//! What words ask for.

ghost use Rattle.std.specs.Prelude.{◌≡◌};
ghost use Rattle.command_words.specs.declared.task.WordsError.TheVariants.{NoMemory};

use crate::synth_bound::SynthBound;
use base_library::NoMemory;

/// Why words ask for nothing.
#[derive(Clone, Copy, Debug, PartialEq, Eq)]
pub enum WordsError {
    /// The words are refused.
    Usage,
    /// There was no memory.
    NoMemory,
}

impl From<NoMemory> for WordsError {
    ghost from_gives = { λ _ e. e ≡ NoMemory };

    fn from(_error: NoMemory) -> WordsError {
        WordsError::NoMemory
    }
}

/// The numbers of `synth`.
#[derive(Clone, Copy, Debug, PartialEq, Eq)]
pub struct SynthSizes {
    /// The states of a controller, from 1 to 8.
    pub states: u32,
    /// The bound of its annotation.
    pub bound: SynthBound,
    /// The states of an environment, from 1 to 8.
    pub env_states: u32,
    /// The bound of the environment's annotation, from 0 to 15.
    pub env_bound: u32,
    /// The greatest length of a window, from 1 to 3.
    pub depth: u32,
    /// The most windows that are added, from 0 to 64.
    pub rounds: u32,
    /// How many clauses are learnt at most for one question, from 1 to 1,000,000.
    pub budget: u64,
}

/// The numbers of `prove`.
#[derive(Clone, Copy, Debug, PartialEq, Eq)]
pub struct ProveSizes {
    /// The states of a controller, from 1 to 8.
    pub states: u32,
    /// The bound of its annotation, from 0 to 15.
    pub bound: u32,
    /// How many clauses are learnt at most, from 1 to 1,000,000.
    pub budget: u64,
}

/// A command with its numbers.
#[derive(Clone, Copy, Debug, PartialEq, Eq)]
pub enum Task {
    /// A program for a specification.
    Synth(SynthSizes),
    /// A verdict on a program under a specification, by annotations within a bound, from 0 to 15.
    Check(u32),
    /// The run of a program over tables and inputs, and the verdicts on it.
    Run,
    /// A proof that no controller of some size has an annotation within a bound, for a specification.
    Prove(ProveSizes),
    /// A verdict on a formula and a log that is to refute it.
    Recheck,
    /// A generated specification of this number, from 1 to 5, and whether there is a program for it.
    Gen(u32),
    /// A circuit of a program that is accepted under a specification, by annotations within a bound, from 0 to 15.
    Circuit(u32),
    /// An automaton of the negation of a specification.
    Automaton,
    /// Whether an automaton accepts a loop of letters.
    Accepts,
}
