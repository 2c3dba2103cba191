//! Questions for environments as they are asked, with their counts and the indices of their variables.

ghost use Rattle.std.specs.Prelude.{◌≡◌, ◌<◌, ◌≤◌, ◌+◌, ◌*◌, ◌^◌};
ghost use Rattle.letter_space.specs.declared.limits.TheConstants.{MOST_VECTORS};
ghost use Rattle.letter_space.specs.Vectors.{vector_count};
ghost use Rattle.letter_space.specs.SpaceView.{space_tree};
ghost use Rattle.cobuchi_automata.specs.declared.build_error.TheConstants.{MOST_AUTOMATON_STATES};
ghost use Rattle.refutation_check.specs.declared.limits.TheConstants.{MOST_CLAUSES};
ghost use Rattle.bounded_encoding.specs.QuestionView.{question_of};
ghost use Rattle.counterstrategy.specs.DualVariables.{tests_in_all};
ghost use Rattle.counterstrategy.specs.internal.DualAsking.{dual_tree, vector_letters, IsDualCounted};

use cobuchi_automata::Automaton;
use letter_space::Space;

/// A question for an environment.
#[derive(Clone, Copy)]
pub(crate) struct DualQuestion<'a> {
    /// The automaton.
    pub(crate) automaton: &'a Automaton,
    /// The bits of its letters.
    pub(crate) space: &'a Space,
    /// The letter of what each vector picks.
    pub(crate) letters: &'a [u64],
    /// How many states the environment is to have.
    pub(crate) states: u32,
    /// The bound of the annotation.
    pub(crate) bound: u32,
    /// How many predicate terms there are.
    pub(crate) tests: u32,
    /// How many vectors there are.
    pub(crate) vectors: u32,
}

/// The question that is asked of an automaton and a space with so many vectors.
pub(crate) fn dual_question_asked<'a>(
    automaton: &'a Automaton,
    space: &'a Space,
    letters: &'a [u64],
    vectors: u32,
    states: u32,
    bound: u32,
) -> DualQuestion<'a>
    requires vectors { vectors ≡ vector_count (space_tree space.now).controlled }
    requires few_vectors { vectors ≤ MOST_VECTORS }
    requires letters { letters.now ≡ vector_letters (space_tree space.now) vectors }
    requires has_state { 1 ≤ states }
    requires few_states { states ≤ 8 }
    requires few_automaton_states { automaton.now.states ≤ MOST_AUTOMATON_STATES }
    requires few_numbers { states * automaton.now.states * bound ≤ MOST_CLAUSES }
    ensures asked { IsDualCounted result }
    ensures tree { dual_tree result ≡ question_of automaton.now space.now states bound }
{
    DualQuestion {
        automaton,
        space,
        letters,
        states,
        bound,
        tests: space.predicates.len() as u32,
        vectors,
    }
}

/// The index of the first predicate term in a state.
pub(crate) fn test_base(question: &DualQuestion, s: u32) -> u32
    requires asked { IsDualCounted question.now }
    requires state { s < question.now.states }
    ensures value { result ≡ s * tests_in_all (dual_tree question.now) }
    ensures room { result + tests_in_all (dual_tree question.now) < 2 ^ 31 }
{
    s * question.tests
}
