//! Automata as they are built.

ghost use Rattle.std.specs.Prelude.{◌≤◌, All};
ghost use Rattle.cobuchi_automata.specs.Edges.{IsBetween};

use base_library::Sequence;
use ltl_formula::Cube;

/// An edge: the states that it joins, what it asks of the letter, and whether it is rejecting.
#[derive(Debug, Clone, Copy, PartialEq, Eq, Hash)]
pub struct Edge {
    /// The number of the state that it starts from.
    pub from: u32,
    /// What it asks of the letter.
    pub cube: Cube,
    /// The number of the state that it leads to.
    pub to: u32,
    /// Whether it is rejecting.
    pub rejecting: bool,
}

/// A universal co-Büchi automaton with rejecting marks on edges. Its states have the numbers from 0,
/// which is the start.
#[derive(Drop)]
pub struct Automaton {
    /// How many states there are.
    pub states: u32,
    /// The edges, in order.
    pub edges: Sequence<Edge>,
    pub ghost starts: { 1 ≤ states },
    pub ghost between: { All (IsBetween states) edges },
}
