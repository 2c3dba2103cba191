//! The search for a controller.

ghost use Rattle.std.specs.Prelude.{◌≡◌, ◌<◌, ◌≤◌, ◌^◌, ℕ, length, IfOk, IfErr};
ghost use Rattle.cobuchi_automata.specs.declared.build_error.TheConstants.{MOST_AUTOMATON_STATES};
ghost use Rattle.refutation_check.specs.declared.limits.TheConstants.{MOST_CLAUSES};
ghost use Rattle.bounded_encoding.specs.QuestionView.{question_of};
ghost use Rattle.sat_core.specs.Answers.{AreSatisfying};
ghost use Rattle.bounded_encoding.specs.Variables.{variable_count};
ghost use Rattle.bounded_encoding.specs.Encoding.{encoding};
ghost use Rattle.bounded_encoding.specs.Answers.{IsFound, IsRightFound};
ghost use Rattle.bounded_encoding.specs.declared.errors.EncodeError.TheVariants.{Clauses};

use crate::answers::Found;
use crate::encoding::encode;
use crate::errors::EncodeError;
use crate::reading::{annotation_read, controller_read};
use base_library::NoMemory;
use cobuchi_automata::Automaton;
use letter_space::Space;
use sat_core::{Answer, solve};
use std::alloc::Global;

/// Looks for a controller with so many states and an annotation within a bound, where so many clauses may be
/// learnt. `Clauses` comes exactly where the question has more than 2,000,000 clauses.
pub fn find_controller(
    alloc: Global,
    automaton: &Automaton,
    space: &Space,
    states: u32,
    bound: u32,
    budget: u64,
) -> Result<Found, EncodeError>
    requires has_state { 1 ≤ states }
    requires few_states { states ≤ 8 }
    requires few_automaton_states { automaton.now.states ≤ MOST_AUTOMATON_STATES }
    requires positive { 1 ≤ budget }
    requires few_learnt { budget ≤ 1000000 }
    ensures found { IfOk result (IsFound (question_of automaton.now space.now states bound) budget) }
    ensures refused { IfErr result (λ e. e ≡ Clauses →
        MOST_CLAUSES < length (encoding (question_of automaton.now space.now states bound))) }
{
    let cnf = encode(alloc, automaton, space, states, bound)?;
    match solve(alloc, &cnf, budget)? {
        Answer::Sat(assignment) => {
            let truths = assignment.truths.as_slice();
            Ok(solution_read(alloc, automaton, space, states, bound, truths)?)
        }
        Answer::Unsat(log) => Ok(Found::None(cnf, log)),
        Answer::Spent(clauses) => Ok(Found::Spent(clauses)),
    }
}

/// The controller, with its annotation, that the truths of an assignment say, where that meets all clauses.
fn solution_read(
    alloc: Global,
    automaton: &Automaton,
    space: &Space,
    states: u32,
    bound: u32,
    truths: &[bool],
) -> Result<Found, NoMemory>
    requires has_state { 1 ≤ states }
    requires few_states { states ≤ 8 }
    requires few { length truths.now < 2 ^ 31 }
    requires satisfying { let q = question_of automaton.now space.now states bound in
        AreSatisfying (variable_count q) (encoding q) truths.now }
    ensures { IfOk result (λ found. (budget : ℕ) → IsRightFound (question_of automaton.now space.now states bound) budget found) }
{
    let controller = controller_read(alloc, truths, space, states)?;
    let annotation = annotation_read(alloc, truths, automaton, states, bound)?;
    Ok(Found::Controller(controller, annotation))
}
