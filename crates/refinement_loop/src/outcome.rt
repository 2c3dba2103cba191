//! What is asked for a specification, and what is answered.

ghost use Rattle.std.specs.Prelude.{◌≡◌, ◌≤◌};
ghost use Rattle.refinement_loop.specs.Questions.{bound_under};
ghost use Rattle.refinement_loop.specs.Outcomes.{search_with};

use base_library::Sequence;
use bounded_encoding::Found;
use clause_core::Clause;
use cobuchi_automata::Automaton;
use letter_space::Space;
use machines::{Environment, Round, Side};
use program_tree::Program;

/// The largest number that the annotation of a controller may have.
#[derive(Clone, Copy, Debug, PartialEq, Eq)]
pub enum Bound {
    /// This number.
    Fixed(u32),
    /// The full bound: the states of the controller times those of the automaton. Where a controller has an
    /// annotation at all, it has one within it.
    Full,
}

impl Bound {
    /// The number, for controllers with so many states and an automaton with so many.
    pub(crate) fn under(self, states: u32, automaton_states: u32) -> u32
        requires few_states { states ≤ 8 }
        requires few_automaton_states { automaton_states ≤ 4096 }
        ensures { result ≡ bound_under self states automaton_states }
    {
        match self {
            Bound::Fixed(number) => number,
            Bound::Full => states * automaton_states,
        }
    }
}

/// How far the search for a program goes.
#[derive(Clone, Copy, Debug, PartialEq, Eq)]
pub struct Sizes {
    /// How many states the controller has: 1 to 8.
    pub states: u32,
    /// The largest number of its annotation: 0 to 15.
    pub bound: u32,
    /// How many states an environment has: 1 to 8.
    pub env_states: u32,
    /// The largest number of its annotation: 0 to 15.
    pub env_bound: u32,
    /// The length of the longest window: 1 to 3.
    pub depth: u32,
    /// How many rounds may be made: 0 to 64.
    pub rounds: u32,
    /// How many clauses may be learnt for a question: 1 to 1,000,000.
    pub budget: u64,
}

impl Sizes {
    /// The same with another bound for the annotation of a controller.
    pub fn with_bound(&self, bound: Bound) -> Search
        ensures { result ≡ search_with self.now bound }
    {
        Search {
            states: self.states,
            bound,
            env_states: self.env_states,
            env_bound: self.env_bound,
            depth: self.depth,
            rounds: self.rounds,
            budget: self.budget,
        }
    }
}

/// How far the search for a program goes, by a bound that may be the full one. Each size has its range as in
/// `Sizes`, and a fixed bound may be any number.
#[derive(Clone, Copy, Debug, PartialEq, Eq)]
pub struct Search {
    /// How many states the controller has.
    pub states: u32,
    /// The largest number of its annotation.
    pub bound: Bound,
    /// How many states an environment has.
    pub env_states: u32,
    /// The largest number of its annotation.
    pub env_bound: u32,
    /// The length of the longest window.
    pub depth: u32,
    /// How many rounds may be made.
    pub rounds: u32,
    /// How many clauses may be learnt for a question.
    pub budget: u64,
}

/// The question for a controller without windows, and the answer to it.
#[derive(Drop)]
pub struct Asked {
    /// The bits of the specification.
    pub space: Space,
    /// The automaton of the negation of the whole formula.
    pub automaton: Automaton,
    /// The answer.
    pub found: Found,
}

/// Why no further round is made, where there is no controller.
#[derive(Drop)]
pub enum Reason {
    /// As many rounds were made as may be.
    Rounds,
    /// No environment with so many states has an annotation within its bound.
    NoCounter,
    /// This environment has one, and no congruent window up to the depth is spurious in it.
    Genuine(Environment),
}

/// What is answered to a specification. The rounds are those that were made, in order.
#[derive(Drop)]
pub enum Outcome {
    /// A program that realizes it.
    Written {
        /// The rounds, whose windows are the program's.
        rounds: Sequence<Round>,
        /// The program.
        program: Program,
    },
    /// No controller with so many states has an annotation within the bound, under the windows of the rounds.
    None {
        /// The rounds.
        rounds: Sequence<Round>,
        /// Why no further round is made.
        reason: Reason,
    },
    /// As many clauses as allowed were learnt.
    Spent {
        /// The rounds.
        rounds: Sequence<Round>,
        /// Whose question it was.
        side: Side,
        /// The automaton of that question.
        automaton: Automaton,
        /// The clauses that were learnt, in order: a trace.
        clauses: Sequence<Clause>,
    },
}

/// What a search leads to.
#[derive(Drop)]
pub struct Searched {
    /// What is answered.
    pub outcome: Outcome,
    /// The bound of the last question for a controller.
    pub bound: u32,
}
