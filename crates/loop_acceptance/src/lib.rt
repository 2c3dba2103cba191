//! Whether an automaton accepts a letter loop.
//!
//! An automaton of a formula accepts the loops on which the formula holds: those over which it has a path
//! from its start that turns through a rejecting edge (`specs/Accepts`). `judge_loop` tells whether there
//! is one, in time linear in the positions of the loop times the states and edges; a law says that on the
//! automaton of a formula its answer is what the formula means on the loop.
//!
//! It searches the pairs of a position and a state. An outer search takes each step of a node before it
//! leaves the node. When it leaves one, an inner search goes on from where the node's rejecting steps
//! lead, over nodes that no inner search has met yet. If it meets a node that the outer search has not
//! left, then there is a turn; otherwise what it met leads to no such node, so no later inner search has
//! to go there again.
//!
//! There may be tens of millions of pairs, and the search goes into all of them. Each step leads from one
//! position to the next one, so what it keeps of the pairs of neighbouring positions lies together
//! (`marks`), and which pair a node is takes no division (`pairs`).
#![tactic(auto)]

mod judging;
mod laws;
mod marks;
mod pairs;
mod product;
mod rows;
mod search;

pub use judging::judge_loop;
pub use laws::automata_accept_where_their_formulas_hold;
