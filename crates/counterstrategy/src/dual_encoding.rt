//! The question for an environment as clauses.

ghost use Rattle.std.specs.Prelude.{◌≡◌, ◌<◌, ◌≤◌, ◌*◌, length, IfOk, IfErr};
ghost use Rattle.letter_space.specs.declared.limits.TheConstants.{MOST_VECTORS};
ghost use Rattle.letter_space.specs.Vectors.{vector_count};
ghost use Rattle.letter_space.specs.SpaceView.{space_tree};
ghost use Rattle.cobuchi_automata.specs.declared.build_error.TheConstants.{MOST_AUTOMATON_STATES};
ghost use Rattle.refutation_check.specs.declared.limits.TheConstants.{MOST_CLAUSES};
ghost use Rattle.bounded_encoding.specs.QuestionView.{question_of};
ghost use Rattle.bounded_encoding.specs.declared.errors.EncodeError.TheVariants.{Clauses};
ghost use Rattle.counterstrategy.specs.DualVariables.{dual_variable_count};
ghost use Rattle.counterstrategy.specs.DualEncoding.{dual_encoding};
ghost use Rattle.counterstrategy.specs.DualAnswers.{IsAskable, HasDualCause};

use crate::dual_asking::dual_question_asked;
use crate::dual_error::DualError;
use crate::environment_side::{add_dual_demands, dual_variable_count};
use crate::vector_letters::letters_of_vectors;
use bounded_encoding::{Builder, EncodeError, falling_count};
use clause_core::Cnf;
use cobuchi_automata::Automaton;
use letter_space::Space;
use refutation_check::MOST_CLAUSES;
use std::alloc::Global;

/// The clauses of the question for an environment with so many states and an annotation within a
/// bound. `Vectors` comes exactly where the space has more than 1,024 vectors, and otherwise
/// `Clauses` exactly where the clauses are more than 2,000,000.
pub fn encode_dual(
    alloc: Global,
    automaton: &Automaton,
    space: &Space,
    states: u32,
    bound: u32,
) -> Result<Cnf, DualError>
    requires has_state { 1 ≤ states }
    requires few_states { states ≤ 8 }
    requires few_automaton_states { automaton.now.states ≤ MOST_AUTOMATON_STATES }
    ensures variables { IfOk result (λ cnf. cnf.variables ≡ dual_variable_count (question_of automaton.now space.now states bound)) }
    ensures clauses { IfOk result (λ cnf. cnf.clauses ≡ dual_encoding (question_of automaton.now space.now states bound)) }
    ensures limits { IfOk result (λ cnf. IsAskable (question_of automaton.now space.now states bound)) }
    ensures cause { IfErr result (HasDualCause (question_of automaton.now space.now states bound)) }
{
    let Some(vectors) = space.vectors() else {
        return Err(DualError::Vectors);
    };
    match encode_with(alloc, automaton, space, vectors, states, bound) {
        Ok(cnf) => Ok(cnf),
        Err(EncodeError::Clauses) => Err(DualError::Clauses),
        Err(EncodeError::NoMemory) => Err(DualError::NoMemory),
    }
}

/// The clauses of the question, where there are so many vectors.
fn encode_with(
    alloc: Global,
    automaton: &Automaton,
    space: &Space,
    vectors: u32,
    states: u32,
    bound: u32,
) -> Result<Cnf, EncodeError>
    requires vectors { vectors ≡ vector_count (space_tree space.now).controlled }
    requires few_vectors { vectors ≤ MOST_VECTORS }
    requires has_state { 1 ≤ states }
    requires few_states { states ≤ 8 }
    requires few_automaton_states { automaton.now.states ≤ MOST_AUTOMATON_STATES }
    ensures variables { IfOk result (λ cnf. cnf.variables ≡ dual_variable_count (question_of automaton.now space.now states bound)) }
    ensures clauses { IfOk result (λ cnf. cnf.clauses ≡ dual_encoding (question_of automaton.now space.now states bound)) }
    ensures few { IfOk result (λ cnf. length cnf.clauses ≤ MOST_CLAUSES) }
    ensures refused { IfErr result (λ e. e ≡ Clauses →
        MOST_CLAUSES < length (dual_encoding (question_of automaton.now space.now states bound))) }
{
    if falling_count(states, automaton.states, bound) > MOST_CLAUSES {
        return Err(EncodeError::Clauses);
    }
    let letters = letters_of_vectors(alloc, space, vectors)?;
    let question = dual_question_asked(
        automaton,
        space,
        letters.as_slice(),
        vectors,
        states,
        bound,
    );
    let mut out = Builder::new(alloc, MOST_CLAUSES);
    add_dual_demands(alloc, &mut out, &question)?;
    let variables = dual_variable_count(&question);
    Ok(Cnf {
        variables,
        clauses: out.into_list(),
    })
}
