//! Moves and edges by the states that they leave.

ghost use Rattle.std.specs.Prelude.{◌≡◌, ◌<◌, ◌++◌, ◌∷◌, ℕ, [], map, length, vec_len, Contains, IfOk, OnOk};
ghost use Rattle.base_library.specs.Numbers.{numbers_from};
ghost use Rattle.cobuchi_automata.specs.Edges.{edge_tree, edge_trees};
ghost use Rattle.letter_space.specs.SpaceView.{space_tree};
ghost use Rattle.machines.specs.MachineView.{controller_tree, environment_tree};
ghost use Rattle.machines.specs.Moves.{MoveTree, FitsSpace, controller_moves, EnvironmentFits, environment_moves};
ghost use Rattle.annotation_check.specs.Annotations.{edges_from};
ghost use Rattle.annotation_check.specs.EdgeLists.{edge_lists};
ghost use Rattle.annotation_check.specs.internal.Pairs.{move_lists, moves_in, with_edge, pairs_between};
ghost use Rattle.annotation_check.specs.internal.PairsView.{pairs_tree};

use crate::growing::Pairs;
use base_library::NoMemory;
use cobuchi_automata::{Automaton, Edge};
use letter_space::Space;
use machines::{Controller, Environment, Move};
use std::alloc::Global;

/// The pairs of a controller's and an automaton's states, with a bound on their numbers.
pub(crate) fn controller_pairs(
    alloc: Global,
    automaton: &Automaton,
    space: &Space,
    controller: &Controller,
    bound: u32,
) -> Result<Pairs, NoMemory>
    requires fits { FitsSpace (space_tree space.now) (controller_tree controller.now) }
    ensures { IfOk result (λ pairs. pairs_tree pairs
        ≡ pairs_between (controller_moves (space_tree space.now) (controller_tree controller.now)) (edge_trees automaton.now.edges)
        controller.now.states automaton.now.states bound) }
{
    let moves = controller_moves(alloc, space, controller)?;
    machine_pairs(alloc, automaton, moves, controller.states, bound)
}

/// The pairs of an environment's and an automaton's states, with a bound on their numbers.
pub(crate) fn environment_pairs(
    alloc: Global,
    automaton: &Automaton,
    space: &Space,
    environment: &Environment,
    bound: u32,
) -> Result<Pairs, NoMemory>
    requires fits { EnvironmentFits (space_tree space.now) (environment_tree environment.now) }
    ensures { IfOk result (λ pairs. pairs_tree pairs
        ≡ pairs_between (environment_moves (space_tree space.now) (environment_tree environment.now)) (edge_trees automaton.now.edges)
        environment.now.states automaton.now.states bound) }
{
    let moves = environment_moves(alloc, space, environment)?;
    machine_pairs(alloc, automaton, moves, environment.states, bound)
}

/// The pairs of a machine's and an automaton's states, by the moves in each state of the machine.
fn machine_pairs(
    alloc: Global,
    automaton: &Automaton,
    moves: Vec<Vec<Move>>,
    states: u32,
    bound: u32,
) -> Result<Pairs, NoMemory>
    requires starts { 0 < states }
    requires listed { vec_len moves ≡ states }
    requires stay { (s : ℕ) (m : MoveTree) → Contains (moves_in moves.items s) m → m.next < states }
    ensures { IfOk result (λ pairs. pairs_tree pairs
        ≡ pairs_between (moves_in moves.items) (edge_trees automaton.now.edges) states automaton.now.states bound) }
{
    let edges = edges_by_state(alloc, automaton)?;
    Ok(Pairs {
        moves,
        edges,
        machine_states: states,
        automaton_states: automaton.states,
        bound,
    })
}

/// The moves in each state of a controller.
fn controller_moves(
    alloc: Global,
    space: &Space,
    controller: &Controller,
) -> Result<Vec<Vec<Move>>, NoMemory>
    requires fits { FitsSpace (space_tree space.now) (controller_tree controller.now) }
    ensures { IfOk result (λ table. move_lists table.items
        ≡ map (controller_moves (space_tree space.now) (controller_tree controller.now)) (numbers_from 0 controller.now.states)) }
{
    let mut table = Vec::new(alloc);
    for state in 0..controller.states {
        table.push(controller.moves(alloc, space, state)?)?;
    }
    Ok(table)
}

/// The moves in each state of an environment.
fn environment_moves(
    alloc: Global,
    space: &Space,
    environment: &Environment,
) -> Result<Vec<Vec<Move>>, NoMemory>
    requires fits { EnvironmentFits (space_tree space.now) (environment_tree environment.now) }
    ensures { IfOk result (λ table. move_lists table.items
        ≡ map (environment_moves (space_tree space.now) (environment_tree environment.now)) (numbers_from 0 environment.now.states)) }
{
    let mut table = Vec::new(alloc);
    for state in 0..environment.states {
        table.push(environment.moves(alloc, space, state)?)?;
    }
    Ok(table)
}

/// The edges from each state of an automaton, in their order.
pub fn edges_by_state(alloc: Global, automaton: &Automaton) -> Result<Vec<Vec<Edge>>, NoMemory>
    ensures { IfOk result (λ table. edge_lists table.items
        ≡ map (edges_from (edge_trees automaton.now.edges)) (numbers_from 0 automaton.now.states)) }
{
    let mut table = empty_lists(alloc, automaton.states)?;
    for edge in automaton.edges.as_slice() {
        add_edge(&mut table, *edge)?;
    }
    Ok(table)
}

/// An empty list for each of so many states.
fn empty_lists(alloc: Global, states: u32) -> Result<Vec<Vec<Edge>>, NoMemory>
    ensures { IfOk result (λ table. edge_lists table.items ≡ map (edges_from []) (numbers_from 0 states)) }
{
    let mut table = Vec::new(alloc);
    for _state in 0..states {
        table.push(Vec::new(alloc))?;
    }
    Ok(table)
}

/// Adds an edge to the list of the state that it leaves.
fn add_edge(table: &mut Vec<Vec<Edge>>, edge: Edge) -> Result<(), NoMemory>
    requires { edge.from < length table.old.items }
    ensures { OnOk result (edge_lists table.new.items ≡ with_edge (edge_lists table.old.items) (edge_tree edge)) }
{
    table[edge.from as usize].push(edge)?;
    Ok(())
}
