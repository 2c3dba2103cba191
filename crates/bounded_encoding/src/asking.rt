//! Questions as they are asked, with their counts and the indices of their variables.

ghost use Rattle.std.specs.Prelude.{◌≡◌, ◌<◌, ◌≤◌, ◌+◌, ◌*◌, ◌^◌};
ghost use Rattle.cobuchi_automata.specs.declared.build_error.TheConstants.{MOST_AUTOMATON_STATES};
ghost use Rattle.refutation_check.specs.declared.limits.TheConstants.{MOST_CLAUSES};
ghost use Rattle.bounded_encoding.specs.QuestionView.{question_of};
ghost use Rattle.bounded_encoding.specs.Variables.{valuations_of, choices_in_all};
ghost use Rattle.bounded_encoding.specs.internal.Asking.{tree_of, IsCounted};

use crate::reading::choices_in_all;
use cobuchi_automata::Automaton;
use letter_space::Space;

/// A question for a controller.
#[derive(Clone, Copy)]
pub(crate) struct Question<'a> {
    /// The automaton.
    pub(crate) automaton: &'a Automaton,
    /// The bits of its letters.
    pub(crate) space: &'a Space,
    /// How many states the controller is to have.
    pub(crate) states: u32,
    /// The bound of the annotation.
    pub(crate) bound: u32,
    /// How many predicate terms there are.
    pub(crate) predicates: u32,
    /// How many valuations there are.
    pub(crate) valuations: u32,
    /// How many choices all signals have together.
    pub(crate) choices: u32,
}

/// The question that is asked of an automaton and a space.
pub(crate) fn question_asked<'a>(
    automaton: &'a Automaton,
    space: &'a Space,
    states: u32,
    bound: u32,
) -> Question<'a>
    requires has_state { 1 ≤ states }
    requires few_states { states ≤ 8 }
    requires few_automaton_states { automaton.now.states ≤ MOST_AUTOMATON_STATES }
    requires few_numbers { states * automaton.now.states * bound ≤ MOST_CLAUSES }
    ensures asked { IsCounted result }
    ensures tree { tree_of result ≡ question_of automaton.now space.now states bound }
{
    Question {
        automaton,
        space,
        states,
        bound,
        predicates: space.predicates.len() as u32,
        valuations: space.valuations(),
        choices: choices_in_all(space) as u32,
    }
}

/// The index of the first choice in a state under a valuation.
pub(crate) fn choice_base(question: &Question, s: u32, v: u32) -> u32
    requires asked { IsCounted question.now }
    requires state { s < question.now.states }
    requires valuation { v < question.now.valuations }
    ensures value { result ≡ (s * valuations_of (tree_of question.now) + v) * choices_in_all (tree_of question.now) }
    ensures room { result + choices_in_all (tree_of question.now) < 2 ^ 31 }
{
    (s * question.valuations + v) * question.choices
}
