//! The search for an environment.

ghost use Rattle.std.specs.Prelude.{◌≡◌, ◌<◌, ◌≤◌, ◌^◌, ℕ, length, IfOk, IfErr};
ghost use Rattle.letter_space.specs.declared.limits.TheConstants.{MOST_VECTORS};
ghost use Rattle.letter_space.specs.SpaceView.{space_tree};
ghost use Rattle.letter_space.specs.Vectors.{vector_count};
ghost use Rattle.cobuchi_automata.specs.declared.build_error.TheConstants.{MOST_AUTOMATON_STATES};
ghost use Rattle.sat_core.specs.Answers.{AreSatisfying};
ghost use Rattle.bounded_encoding.specs.QuestionView.{question_of};
ghost use Rattle.counterstrategy.specs.DualVariables.{dual_variable_count};
ghost use Rattle.counterstrategy.specs.DualEncoding.{dual_encoding};
ghost use Rattle.counterstrategy.specs.DualAnswers.{IsFoundDual, IsRightDual, HasDualCause};

use crate::dual_answers::FoundDual;
use crate::dual_encoding::encode_dual;
use crate::dual_error::DualError;
use crate::environment_reading::environment_read;
use base_library::NoMemory;
use bounded_encoding::annotation_read;
use cobuchi_automata::Automaton;
use letter_space::Space;
use sat_core::{Answer, solve};
use std::alloc::Global;

/// Looks for an environment with so many states and an annotation within a bound, where so many
/// clauses may be learnt. `Vectors` comes exactly where the space has more than 1,024 vectors, and
/// otherwise `Clauses` exactly where the question has more than 2,000,000 clauses.
pub fn find_environment(
    alloc: Global,
    automaton: &Automaton,
    space: &Space,
    states: u32,
    bound: u32,
    budget: u64,
) -> Result<FoundDual, DualError>
    requires has_state { 1 ≤ states }
    requires few_states { states ≤ 8 }
    requires few_automaton_states { automaton.now.states ≤ MOST_AUTOMATON_STATES }
    requires positive { 1 ≤ budget }
    requires few_learnt { budget ≤ 1000000 }
    ensures found { IfOk result (IsFoundDual (question_of automaton.now space.now states bound) budget) }
    ensures cause { IfErr result (HasDualCause (question_of automaton.now space.now states bound)) }
{
    let Some(vectors) = space.vectors() else {
        return Err(DualError::Vectors);
    };
    let cnf = encode_dual(alloc, automaton, space, states, bound)?;
    match solve(alloc, &cnf, budget)? {
        Answer::Sat(assignment) => {
            let truths = assignment.truths.as_slice();
            Ok(answer_read(alloc, automaton, space, vectors, states, bound, truths)?)
        }
        Answer::Unsat(log) => Ok(FoundDual::None(log)),
        Answer::Spent(clauses) => Ok(FoundDual::Spent(clauses)),
    }
}

/// The environment, with its annotation, that the truths of an assignment say, where that meets all clauses and
/// there are so many vectors.
fn answer_read(
    alloc: Global,
    automaton: &Automaton,
    space: &Space,
    vectors: u32,
    states: u32,
    bound: u32,
    truths: &[bool],
) -> Result<FoundDual, NoMemory>
    requires vectors { vectors ≡ vector_count (space_tree space.now).controlled }
    requires few_vectors { vectors ≤ MOST_VECTORS }
    requires has_state { 1 ≤ states }
    requires few_states { states ≤ 8 }
    requires few { length truths.now < 2 ^ 31 }
    requires satisfying { let q = question_of automaton.now space.now states bound in
        AreSatisfying (dual_variable_count q) (dual_encoding q) truths.now }
    ensures { IfOk result (λ found. (budget : ℕ) → IsRightDual (question_of automaton.now space.now states bound) budget found) }
{
    let environment = environment_read(alloc, truths, space, vectors, states)?;
    let annotation = annotation_read(alloc, truths, automaton, states, bound)?;
    Ok(FoundDual::Environment(environment, annotation))
}
