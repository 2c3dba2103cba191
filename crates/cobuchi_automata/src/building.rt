//! The automaton of a formula.

ghost use Rattle.std.specs.Prelude.{◌≡◌, ◌<◌, ◌≤◌, ◌^◌, List, map, length, IfOk, IfErr};
ghost use Rattle.ltl_formula.specs.LtlTree.{LtlTree, ltl_tree};
ghost use Rattle.obligations.specs.Numbers.{lent_trees, formula_number};
ghost use Rattle.obligations.specs.Obligations.{closure_of};
ghost use Rattle.cobuchi_automata.specs.Automata.{StateTree, untils_of, IsAutomaton};
ghost use Rattle.cobuchi_automata.specs.Edges.{edge_trees};
ghost use Rattle.cobuchi_automata.specs.Refusals.{most_automaton_states, most_automaton_edges, HasBuildCause};
ghost use Rattle.cobuchi_automata.specs.internal.Exploring.{state_keys, IsPlanInMemory, IsFoundSoFar};

use crate::automaton::Automaton;
use crate::build_error::BuildError;
use crate::exploring::{Found, Plan, explore, start_of};
use crate::known::none_known;
use crate::untils::until_numbers;
use base_library::{NoMemory, Sequence};
use ltl_formula::Ltl;
use obligations::{names_of_formula, no_expansions};
use std::alloc::Global;

/// The automaton of the states and edges that are found, where each state is expanded.
fn automaton_of(alloc: Global, plan: &Plan, found: &Found) -> Result<Automaton, NoMemory>
    requires plan { IsPlanInMemory plan.now }
    requires found { IsFoundSoFar plan.now (length found.now.states.keys) found.now }
    ensures automaton { IfOk result (λ made. (states : List StateTree) × (length states ≡ made.states)
        × IsAutomaton (ltl_tree plan.now.formula.now) states (edge_trees made.edges)) }
    ensures few_states { IfOk result (λ made. made.states ≤ most_automaton_states) }
    ensures few_edges { IfOk result (λ made. length made.edges ≤ most_automaton_edges) }
{
    let states = found.states.len() as u32;
    let edges = found.edges.as_slice().to_vec(alloc)?;
    Ok(Automaton {
        states,
        edges: Sequence::from_vec(edges),
    })
}

/// The automaton by a plan of its formula.
fn build_by(alloc: Global, plan: &Plan) -> Result<Automaton, BuildError>
    requires plan { IsPlanInMemory plan.now }
    requires few { length plan.now.names.items < 2 ^ 32 }
    ensures automaton { IfOk result (λ made. (states : List StateTree) × (length states ≡ made.states)
        × IsAutomaton (ltl_tree plan.now.formula.now) states (edge_trees made.edges)) }
    ensures few_states { IfOk result (λ made. made.states ≤ most_automaton_states) }
    ensures few_edges { IfOk result (λ made. length made.edges ≤ most_automaton_edges) }
    ensures refused { IfErr result (HasBuildCause (ltl_tree plan.now.formula.now)) }
{
    let mut expansions = no_expansions(alloc, &plan.names)?;
    let mut known = none_known(alloc);
    let mut found = start_of(alloc, plan)?;
    explore(
        alloc,
        plan,
        expansions.as_mut_slice(),
        &mut known,
        &mut found,
    )?;
    Ok(automaton_of(alloc, plan, &found)?)
}

/// The automaton of a formula, whole: no state is left out, and no two are merged. A refusal says that a limit is
/// passed: `Choices` that of the choices of a reached set, `States` that of the states, and `Edges` that of the
/// edges.
pub fn build(alloc: Global, formula: &Ltl) -> Result<Automaton, BuildError>
    ensures automaton { IfOk result (λ made. (states : List StateTree) × (length states ≡ made.states)
        × IsAutomaton (ltl_tree formula.now) states (edge_trees made.edges)) }
    ensures few_states { IfOk result (λ made. made.states ≤ most_automaton_states) }
    ensures few_edges { IfOk result (λ made. length made.edges ≤ most_automaton_edges) }
    ensures refused { IfErr result (HasBuildCause (ltl_tree formula.now)) }
{
    let names = names_of_formula(alloc, formula)?;
    if names.len() > u32::MAX as usize {
        return Err(BuildError::NoMemory);
    }
    let untils = until_numbers(alloc, &names, formula)?;
    let plan = Plan {
        formula,
        names,
        untils,
    };
    build_by(alloc, &plan)
}
