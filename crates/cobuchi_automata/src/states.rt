//! States over the numbers of formulas, and states and edges that are found.

ghost use Rattle.std.specs.Prelude.{◌≡◌, ◌++◌, ◌≤◌, Some, IfOk, IfErr, OnOk, length, slice_get};
ghost use Rattle.std.specs.Hash as fed;
ghost use Rattle.std.specs.Cmp.Rules.{hashing};
ghost use Rattle.std.proofs.Common.{rules};
ghost use Rattle.obligations.specs.Codes.{numbers_code};
ghost use Rattle.cobuchi_automata.specs.Edges.{edge_tree, edge_trees};
ghost use Rattle.cobuchi_automata.specs.Refusals.{most_automaton_states, most_automaton_edges};
ghost use Rattle.cobuchi_automata.specs.internal.Exploring.{state_key, state_keys, Grows, IsStateRefusal, IsEdgeRefusal};

use crate::automaton::Edge;
use crate::build_error::{BuildError, MOST_AUTOMATON_EDGES, MOST_AUTOMATON_STATES};
use base_library::NoMemory;
use indexmap::IndexSet;
use obligations::code_of;
use std::hash::{Hash, Hasher};

/// A set of formulas by their numbers, and the number of the until that is waited for.
#[derive(PartialEq, Eq, Drop)]
pub(crate) struct State {
    /// The numbers of the formulas, in order.
    pub(crate) members: Vec<u32>,
    /// The number of the until that is waited for.
    pub(crate) counter: usize,
}

impl Hash for State {
    ghost hash_input = { λ s. fed.u64 (numbers_code s.members.items) ++ fed.usize s.counter };

    ghost respects_eq = { Prim.search (hashing, rules) };

    fn hash<H: Hasher>(&self, state: &mut H) {
        state.write_u64(code_of(&self.members));
        state.write_usize(self.counter);
    }
}

/// The number of a state among others; it is added at their end where it is not there.
pub(crate) fn number_of_state(states: &mut IndexSet<State>, state: State) -> Result<usize, NoMemory>
    ensures grows { OnOk result (Grows (state_keys states.old.keys) (state_key state) (state_keys states.new.keys)) }
    ensures there { IfOk result (λ number. slice_get (state_keys states.new.keys) number ≡ Some (state_key state)) }
{
    let (number, _) = states.insert_full(state)?;
    Ok(number)
}

/// The number of a state among others; it is added at their end where it is not there, unless there are
/// as many as there may be.
pub(crate) fn add_state(states: &mut IndexSet<State>, state: State) -> Result<u32, BuildError>
    requires { length states.old.keys ≤ most_automaton_states }
    ensures grows { OnOk result (Grows (state_keys states.old.keys) (state_key state) (state_keys states.new.keys)) }
    ensures there { IfOk result (λ number. slice_get (state_keys states.new.keys) number ≡ Some (state_key state)) }
    ensures few { OnOk result (length states.new.keys ≤ most_automaton_states) }
    ensures refused { IfErr result (IsStateRefusal (state_keys states.old.keys) (state_key state) (state_keys states.new.keys)) }
{
    let number = number_of_state(states, state)?;
    if states.len() > MOST_AUTOMATON_STATES {
        return Err(BuildError::States);
    }
    Ok(number as u32)
}

/// Adds an edge at the end of others where it is not there.
fn insert_edge(edges: &mut IndexSet<Edge>, edge: Edge) -> Result<(), NoMemory>
    ensures { OnOk result (Grows (edge_trees edges.old.keys) (edge_tree edge) (edge_trees edges.new.keys)) }
{
    edges.insert_full(edge)?;
    Ok(())
}

/// Adds an edge at the end of others where it is not there, unless there are as many as there may be.
pub(crate) fn add_edge(edges: &mut IndexSet<Edge>, edge: Edge) -> Result<(), BuildError>
    requires { length edges.old.keys ≤ most_automaton_edges }
    ensures grows { OnOk result (Grows (edge_trees edges.old.keys) (edge_tree edge) (edge_trees edges.new.keys)) }
    ensures few { OnOk result (length edges.new.keys ≤ most_automaton_edges) }
    ensures refused { IfErr result (IsEdgeRefusal (edge_trees edges.old.keys) (edge_tree edge) (edge_trees edges.new.keys)) }
{
    insert_edge(edges, edge)?;
    if edges.len() > MOST_AUTOMATON_EDGES {
        return Err(BuildError::Edges);
    }
    Ok(())
}
