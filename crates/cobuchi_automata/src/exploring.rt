//! The states that choices lead to, one after the other.

ghost use Rattle.std.specs.Prelude.{◌≡◌, ◌+◌, ◌<◌, ◌≤◌, ◌^◌, [], ◌∷◌, Some, IfOk, IfErr, OnOk, map, length, slice_get};
ghost use Rattle.std.specs.List.{AllByRecursion};
ghost use Rattle.ltl_formula.specs.LtlTree.{ltl_tree};
ghost use Rattle.ltl_formula.specs.Cubes.{IsWithin};
ghost use Rattle.obligations.specs.Expansion.{choices};
ghost use Rattle.obligations.specs.Expansions.{AreExpansions};
ghost use Rattle.obligations.specs.Named.{formula_named, choice_named, IsWell};
ghost use Rattle.obligations.specs.Numbers.{choice_key, choice_keys, lent_trees};
ghost use Rattle.cobuchi_automata.specs.Edges.{edge_tree, edge_trees};
ghost use Rattle.cobuchi_automata.specs.Refusals.{most_automaton_states, most_automaton_edges, HasBuildCause};
ghost use Rattle.cobuchi_automata.specs.internal.Exploring.{state_key, state_keys, Takes, IsChoiceRefusal, IsPlanInMemory, IsFoundSoFar};
ghost use Rattle.cobuchi_automata.specs.internal.Known.{AreKnown};

use crate::automaton::Edge;
use crate::build_error::BuildError;
use crate::counters::advanced;
use crate::known::{KnownChoices, list_at, place_of_choices};
use crate::states::{State, add_edge, add_state};
use crate::untils::until_numbers;
use base_library::NoMemory;
use indexmap::IndexSet;
use ltl_formula::{Cube, Ltl};
use obligations::{NumberedChoice, names_of_formula, number_of};
use std::alloc::Global;

/// A formula, the formulas that its steps may leave, whose places are their numbers, and the numbers of
/// its untils.
#[derive(Drop)]
pub(crate) struct Plan<'a> {
    /// The formula.
    pub(crate) formula: &'a Ltl,
    /// What its steps may leave.
    pub(crate) names: Vec<&'a Ltl>,
    /// The numbers of its untils.
    pub(crate) untils: Vec<u32>,
}

/// The states and edges that are found.
#[derive(Drop)]
pub(crate) struct Found {
    /// The states, by their numbers.
    pub(crate) states: IndexSet<State>,
    /// The edges.
    pub(crate) edges: IndexSet<Edge>,
}

/// Adds the state that a choice leads to and the edge to it.
fn add_choice(
    alloc: Global,
    untils: &[u32],
    found: &mut Found,
    from: u32,
    counter: usize,
    choice: &NumberedChoice,
) -> Result<(), BuildError>
    requires counts { counter ≤ length untils.now }
    requires within { IsWithin choice.now.care choice.now.want }
    requires few_states { length found.old.states.keys ≤ most_automaton_states }
    requires few_edges { length found.old.edges.keys ≤ most_automaton_edges }
    ensures takes { OnOk result (Takes untils.now from counter (choice_key choice.now)
        (state_keys found.old.states.keys) (edge_trees found.old.edges.keys)
        (state_keys found.new.states.keys) (edge_trees found.new.edges.keys)) }
    ensures few_states { OnOk result (length found.new.states.keys ≤ most_automaton_states) }
    ensures few_edges { OnOk result (length found.new.edges.keys ≤ most_automaton_edges) }
    ensures refused { IfErr result (IsChoiceRefusal untils.now from counter (choice_key choice.now)
        (state_keys found.old.states.keys) (edge_trees found.old.edges.keys)
        (state_keys found.new.states.keys) (edge_trees found.new.edges.keys)) }
{
    let (next_counter, rejecting) = advanced(untils, &choice.postponed, counter);
    let cube = Cube {
        care: choice.care,
        want: choice.want,
    };
    let state = State {
        members: choice.next.to_vec(alloc)?,
        counter: next_counter,
    };
    let to = add_state(&mut found.states, state)?;
    add_edge(
        &mut found.edges,
        Edge {
            from,
            cube,
            to,
            rejecting,
        },
    )
}

/// Adds the states that the choices of a state lead to, and the edges to them.
fn add_choices(
    alloc: Global,
    plan: &Plan,
    found: &mut Found,
    from: u32,
    state: &State,
    list: &[NumberedChoice],
) -> Result<(), BuildError>
    requires plan { IsPlanInMemory plan.now }
    requires found { IsFoundSoFar plan.now from found.old }
    requires here { slice_get (state_keys found.old.states.keys) from ≡ Some (state_key state.now) }
    requires choices { choices (map (formula_named (lent_trees plan.now.names.items)) state.now.members.items)
        ≡ Some (map (choice_named (lent_trees plan.now.names.items)) (choice_keys list.now)) }
    requires well { AllByRecursion (IsWell (lent_trees plan.now.names.items)) (choice_keys list.now) }
    ensures found { OnOk result (IsFoundSoFar plan.now (from + 1) found.new) }
    ensures refused { IfErr result (HasBuildCause (ltl_tree plan.now.formula.now)) }
{
    for choice in list {
        add_choice(alloc, &plan.untils, found, from, state.counter, choice)?;
    }
    Ok(())
}

/// A copy of the state at a place.
fn copied_state(alloc: Global, states: &IndexSet<State>, place: usize) -> Result<State, NoMemory>
    requires { place < length states.now.keys }
    ensures { IfOk result (λ copy. slice_get (state_keys states.now.keys) place ≡ Some (state_key copy)) }
{
    let state = &states.as_slice()[place];
    Ok(State {
        members: state.members.to_vec(alloc)?,
        counter: state.counter,
    })
}

/// Expands the state with a number: adds the states that its choices lead to, and the edges to them.
fn expand_state(
    alloc: Global,
    plan: &Plan,
    expansions: &mut [Option<Vec<NumberedChoice>>],
    known: &mut KnownChoices,
    found: &mut Found,
    from: u32,
) -> Result<(), BuildError>
    requires plan { IsPlanInMemory plan.now }
    requires few { length plan.now.names.items < 2 ^ 32 }
    requires expansions { AreExpansions (lent_trees plan.now.names.items) expansions.old }
    requires known { AreKnown (lent_trees plan.now.names.items) known.old }
    requires found { IsFoundSoFar plan.now from found.old }
    requires there { from < length found.old.states.keys }
    ensures expansions { AreExpansions (lent_trees plan.now.names.items) expansions.new }
    ensures known { OnOk result (AreKnown (lent_trees plan.now.names.items) known.new) }
    ensures found { OnOk result (IsFoundSoFar plan.now (from + 1) found.new) }
    ensures refused { IfErr result (HasBuildCause (ltl_tree plan.now.formula.now)) }
{
    let state = copied_state(alloc, &found.states, from as usize)?;
    let place = place_of_choices(alloc, plan, expansions, known, &state.members)?;
    add_choices(
        alloc,
        plan,
        found,
        from,
        &state,
        list_at(&known.lists, place),
    )
}

/// Expands each state that is found, until none is left.
pub(crate) fn explore(
    alloc: Global,
    plan: &Plan,
    expansions: &mut [Option<Vec<NumberedChoice>>],
    known: &mut KnownChoices,
    found: &mut Found,
) -> Result<(), BuildError>
    requires plan { IsPlanInMemory plan.now }
    requires few { length plan.now.names.items < 2 ^ 32 }
    requires expansions { AreExpansions (lent_trees plan.now.names.items) expansions.old }
    requires known { AreKnown (lent_trees plan.now.names.items) known.old }
    requires found { IsFoundSoFar plan.now 0 found.old }
    ensures found { OnOk result (IsFoundSoFar plan.now (length found.new.states.keys) found.new) }
    ensures refused { IfErr result (HasBuildCause (ltl_tree plan.now.formula.now)) }
{
    let mut expanded = 0;
    while (expanded as usize) < found.states.len() {
        expand_state(alloc, plan, expansions, known, found, expanded)?;
        expanded += 1;
    }
    Ok(())
}

/// The start alone: the set of the formula with a number, which waits for the first until.
fn start_states(alloc: Global, number: u32) -> Result<IndexSet<State>, NoMemory>
    ensures { IfOk result (λ states. state_keys states.keys ≡ record { members = number ∷ []; counter = 0 } ∷ []) }
{
    let mut members = Vec::with_capacity(alloc, 1)?;
    members.push(number)?;
    let mut states = IndexSet::new(alloc);
    states.insert(State {
        members,
        counter: 0,
    })?;
    Ok(states)
}

/// The start alone is found, and no edge.
pub(crate) fn start_of(alloc: Global, plan: &Plan) -> Result<Found, NoMemory>
    requires plan { IsPlanInMemory plan.now }
    requires few { length plan.now.names.items < 2 ^ 32 }
    ensures { IfOk result (IsFoundSoFar plan.now 0) }
{
    let states = start_states(alloc, number_of(&plan.names, plan.formula))?;
    let edges = IndexSet::new(alloc);
    Ok(Found { states, edges })
}
