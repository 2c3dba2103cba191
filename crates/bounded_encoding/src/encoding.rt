//! The question for a controller as clauses.

ghost use Rattle.std.specs.Prelude.{◌≡◌, ◌<◌, ◌≤◌, ◌*◌, length, IfOk, IfErr, OnOk};
ghost use Rattle.cobuchi_automata.specs.declared.build_error.TheConstants.{MOST_AUTOMATON_STATES};
ghost use Rattle.refutation_check.specs.declared.limits.TheConstants.{MOST_CLAUSES};
ghost use Rattle.bounded_encoding.specs.QuestionView.{question_of};
ghost use Rattle.bounded_encoding.specs.Variables.{variable_count};
ghost use Rattle.bounded_encoding.specs.Encoding.{demands, encoding};
ghost use Rattle.bounded_encoding.specs.declared.errors.EncodeError.TheVariants.{Clauses};
ghost use Rattle.bounded_encoding.specs.Made.{with_clauses};
ghost use Rattle.bounded_encoding.specs.Refusing.{Refuses};
ghost use Rattle.bounded_encoding.specs.internal.Asking.{tree_of, IsCounted};

use crate::asking::{Question, question_asked};
use crate::builder::Builder;
use crate::choice_clauses::add_choices;
use crate::controller_side::{add_controller_side, variable_count};
use crate::errors::EncodeError;
use clause_core::Cnf;
use cobuchi_automata::Automaton;
use letter_space::Space;
use refutation_check::MOST_CLAUSES;
use std::alloc::Global;

/// The clauses of the question for a controller with so many states and an annotation within a bound.
/// `Clauses` comes exactly where they are more than 2,000,000.
pub fn encode(
    alloc: Global,
    automaton: &Automaton,
    space: &Space,
    states: u32,
    bound: u32,
) -> Result<Cnf, EncodeError>
    requires has_state { 1 ≤ states }
    requires few_states { states ≤ 8 }
    requires few_automaton_states { automaton.now.states ≤ MOST_AUTOMATON_STATES }
    ensures variables { IfOk result (λ cnf. cnf.variables ≡ variable_count (question_of automaton.now space.now states bound)) }
    ensures clauses { IfOk result (λ cnf. cnf.clauses ≡ encoding (question_of automaton.now space.now states bound)) }
    ensures few { IfOk result (λ cnf. length cnf.clauses ≤ MOST_CLAUSES) }
    ensures refused { IfErr result (λ e. e ≡ Clauses →
        MOST_CLAUSES < length (encoding (question_of automaton.now space.now states bound))) }
{
    encode_within(alloc, automaton, space, states, bound, MOST_CLAUSES)
}

/// The clauses of the question, where so many are allowed.
pub(crate) fn encode_within(
    alloc: Global,
    automaton: &Automaton,
    space: &Space,
    states: u32,
    bound: u32,
    limit: u64,
) -> Result<Cnf, EncodeError>
    requires has_state { 1 ≤ states }
    requires few_states { states ≤ 8 }
    requires few_automaton_states { automaton.now.states ≤ MOST_AUTOMATON_STATES }
    requires low_limit { limit ≤ MOST_CLAUSES }
    ensures variables { IfOk result (λ cnf. cnf.variables ≡ variable_count (question_of automaton.now space.now states bound)) }
    ensures clauses { IfOk result (λ cnf. cnf.clauses ≡ encoding (question_of automaton.now space.now states bound)) }
    ensures few { IfOk result (λ cnf. length cnf.clauses ≤ limit) }
    ensures refused { IfErr result (λ e. e ≡ Clauses →
        limit < length (encoding (question_of automaton.now space.now states bound))) }
{
    if falling_count(states, automaton.states, bound) > limit {
        return Err(EncodeError::Clauses);
    }
    let question = question_asked(automaton, space, states, bound);
    let mut out = Builder::new(alloc, limit);
    add_demands(alloc, &mut out, &question)?;
    let variables = variable_count(&question);
    Ok(Cnf {
        variables,
        clauses: out.into_list(),
    })
}

/// How many clauses say that the numbers of pairs fall.
pub fn falling_count(states: u32, automaton_states: u32, bound: u32) -> u64
    requires few_states { states ≤ 8 }
    requires few_automaton_states { automaton_states ≤ MOST_AUTOMATON_STATES }
    ensures { result ≡ states * automaton_states * bound }
{
    u64::from(states) * u64::from(automaton_states) * u64::from(bound)
}

/// Adds all clauses of a question.
#[tactic(auto, using(crate::proofs::Adding::adding))]
fn add_demands(alloc: Global, out: &mut Builder, question: &Question) -> Result<(), EncodeError>
    requires asked { IsCounted question.now }
    ensures added { OnOk result (out.new ≡ with_clauses out.old (demands (tree_of question.now))) }
    ensures refused { Refuses result (with_clauses out.old (demands (tree_of question.now))) }
{
    add_choices(alloc, out, question)?;
    add_controller_side(alloc, out, question)
}
