//! Nodes of a program.

use base_library::Sequence;
use tsl_terms::{Probe, Term};

/// A node of a program. Tests lead from a state's first node to the node that says what is done.
#[derive(Drop)]
pub enum Node {
    /// Goes on at one of two nodes with smaller numbers.
    If {
        /// What is tested.
        test: Probe,
        /// The node to go to where it holds.
        then_node: u32,
        /// The node to go to where it does not.
        else_node: u32,
    },
    /// Assigns a term to each cell and then to each output, and goes to a state.
    Set {
        /// The terms, in the order of the cells and then of the outputs.
        updates: Sequence<Term>,
        /// The next state.
        go: u32,
    },
}
