//! The edges of an automaton by the states that they leave.

ghost use Rattle.std.specs.Prelude.{◌≡◌, ◌<◌, ◌++◌, ◌∷◌, ℕ, true, [], length, IfOk, OnOk, slice_set, slice_index_or};
ghost use Rattle.std.specs.List.{AllByRecursion, list_all};
ghost use Rattle.loop_acceptance.specs.internal.Product.{row_lists, is_short, AreEdgeRows};

use base_library::NoMemory;
use cobuchi_automata::{Automaton, Edge};
use std::alloc::Global;

/// The edges from each state of an automaton.
fn edges_by_state(alloc: Global, automaton: &Automaton) -> Result<Vec<Vec<Edge>>, NoMemory>
    ensures states { IfOk result (λ rows. length rows.items ≡ automaton.now.states) }
    ensures edges { IfOk result (λ rows. AreEdgeRows (row_lists rows.items) automaton.now.edges) }
{
    let mut rows = empty_rows(alloc, automaton.states)?;
    for edge in automaton.edges.as_slice() {
        add_edge(&mut rows, *edge)?;
    }
    Ok(rows)
}

/// An empty list for each of so many states.
fn empty_rows(alloc: Global, states: u32) -> Result<Vec<Vec<Edge>>, NoMemory>
    ensures states { IfOk result (λ rows. length rows.items ≡ states) }
    ensures none { IfOk result (λ rows. AllByRecursion (λ row. row ≡ []) (row_lists rows.items)) }
{
    let mut rows = Vec::new(alloc);
    for _state in 0..states {
        rows.push(Vec::new(alloc))?;
    }
    Ok(rows)
}

/// Adds an edge to the list of the state that it leaves.
fn add_edge(rows: &mut Vec<Vec<Edge>>, edge: Edge) -> Result<(), NoMemory>
    requires { edge.from < length rows.old.items }
    ensures { OnOk result (row_lists rows.new.items
        ≡ slice_set (row_lists rows.old.items) edge.from (slice_index_or (row_lists rows.old.items) edge.from [] ++ edge ∷ [])) }
{
    rows[edge.from as usize].push(edge)?;
    Ok(())
}

/// How many edges a state may have for the search: memory ends before.
const MOST_EDGES: usize = 1 << 32;

/// Whether a list has fewer edges than that.
fn is_short(row: &[Edge]) -> bool
    ensures { result ≡ is_short row.now }
{
    row.len() < MOST_EDGES
}

/// Whether each list has.
fn are_short(rows: &[Vec<Edge>]) -> bool
    ensures { result ≡ list_all is_short (row_lists rows.now) }
{
    for row in rows {
        if !is_short(row) {
            return false;
        }
    }
    true
}

/// The edges from each state of an automaton, if 32 bits count those of each.
pub(crate) fn few_edges_by_state(
    alloc: Global,
    automaton: &Automaton,
) -> Result<Vec<Vec<Edge>>, NoMemory>
    ensures states { IfOk result (λ rows. length rows.items ≡ automaton.now.states) }
    ensures edges { IfOk result (λ rows. AreEdgeRows (row_lists rows.items) automaton.now.edges) }
    ensures short { IfOk result (λ rows. list_all is_short (row_lists rows.items) ≡ true) }
{
    let rows = edges_by_state(alloc, automaton)?;
    if !are_short(&rows) {
        return Err(NoMemory);
    }
    Ok(rows)
}
