//! The steps between pairs of a controller's state and an automaton's state.

ghost use Rattle.std.specs.Prelude.{◌≡◌, ◌<◌, ◌≤◌, ◌+◌, ◌*◌, ◌++◌, ℕ, [], map, length, Contains, IfOk, OnOk};
ghost use Rattle.cobuchi_automata.specs.Edges.{edge_tree, edge_trees, IsBetween};
ghost use Rattle.cobuchi_automata.specs.Refusals.{most_automaton_states};
ghost use Rattle.letter_space.specs.SpaceView.{space_tree};
ghost use Rattle.machines.specs.MachineView.{controller_tree, move_tree};
ghost use Rattle.machines.specs.Moves.{MoveTree, FitsSpace, controller_moves};
ghost use Rattle.full_bound.specs.internal.Pairs.{edge_steps, pair_steps};
ghost use Rattle.full_bound.specs.internal.PairTable.{listed_step, steps_of_state, most_controller_states};
ghost use Rattle.full_bound.specs.internal.Search.{steps_from};

use crate::search::Step;
use base_library::NoMemory;
use cobuchi_automata::{Automaton, Edge};
use letter_space::Space;
use machines::{Controller, Move};
use std::alloc::Global;

/// How many states a controller may have whose pairs are searched.
pub const MOST_CONTROLLER_STATES: u32 = 64;

/// The steps from each pair of a controller's state and an automaton's state.
pub(crate) fn steps_of_pairs(
    alloc: Global,
    automaton: &Automaton,
    space: &Space,
    controller: &Controller,
) -> Result<Vec<Vec<Step>>, NoMemory>
    requires few_states { automaton.now.states ≤ most_automaton_states }
    requires few_controller_states { controller.now.states ≤ most_controller_states }
    requires fits { FitsSpace (space_tree space.now) (controller_tree controller.now) }
    ensures pairs { IfOk result (λ table. length table.items ≡ controller.now.states * automaton.now.states) }
    ensures steps { IfOk result (λ table. (p : ℕ) → steps_from table.items p ≡ map (listed_step automaton.now.states)
        (pair_steps automaton.now.states (controller_moves (space_tree space.now) (controller_tree controller.now))
        (edge_trees automaton.now.edges) p)) }
{
    let mut table = no_steps(alloc, controller.states * automaton.states)?;
    for state in 0..controller.states {
        let moves = controller.moves(alloc, space, state)?;
        add_steps(&mut table, automaton, state, &moves)?;
    }
    Ok(table)
}

/// No step from each of so many pairs.
fn no_steps(alloc: Global, pairs: u32) -> Result<Vec<Vec<Step>>, NoMemory>
    ensures pairs { IfOk result (λ table. length table.items ≡ pairs) }
    ensures steps { IfOk result (λ table. (p : ℕ) → steps_from table.items p ≡ []) }
{
    let mut table = Vec::new(alloc);
    for _pair in 0..pairs {
        table.push(Vec::new(alloc))?;
    }
    Ok(table)
}

/// Adds the steps from the pairs of a controller's state, whose moves these are.
fn add_steps(
    table: &mut Vec<Vec<Step>>,
    automaton: &Automaton,
    state: u32,
    moves: &[Move],
) -> Result<(), NoMemory>
    requires few_states { automaton.now.states ≤ most_automaton_states }
    requires few_controller_states { state < most_controller_states }
    requires pairs { (state + 1) * automaton.now.states ≤ length table.old.items }
    requires stay { (m : MoveTree) → Contains (map move_tree moves.now) m → m.next < most_controller_states }
    ensures pairs { OnOk result (length table.new.items ≡ length table.old.items) }
    ensures steps { OnOk result ((p : ℕ) → steps_from table.new.items p ≡ steps_from table.old.items p
        ++ steps_of_state automaton.now.states state (map move_tree moves.now) (edge_trees automaton.now.edges) p) }
{
    for edge in automaton.edges.as_slice() {
        let pair = state * automaton.states + edge.from;
        add_steps_along(&mut table[pair as usize], *edge, moves, automaton.states)?;
    }
    Ok(())
}

/// Adds the steps along an edge by some moves.
fn add_steps_along(
    steps: &mut Vec<Step>,
    edge: Edge,
    moves: &[Move],
    states: u32,
) -> Result<(), NoMemory>
    requires few_states { states ≤ most_automaton_states }
    requires between { IsBetween states edge }
    requires stay { (m : MoveTree) → Contains (map move_tree moves.now) m → m.next < most_controller_states }
    ensures { OnOk result (steps.new.items ≡ steps.old.items
        ++ map (listed_step states) (edge_steps (edge_tree edge) (map move_tree moves.now))) }
{
    for step in moves {
        if edge.cube.matches(step.letter) {
            steps.push(Step {
                letter: step.letter,
                to: step.next * states + edge.to,
                rejecting: edge.rejecting,
            })?;
        }
    }
    Ok(())
}
