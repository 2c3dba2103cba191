//! The circuit of a controller over the bits of a space.
//!
//! - `circuit_of` makes it (`specs/OfController`): its inputs are the predicate terms, its outputs the updates, and its
//!   latches the binary digits of the state. A table has a place for each state and valuation, which are the truths of
//!   latches and inputs as a number. Testing one variable after the other, least first, halves the table each time: what
//!   is left is a reduced ordered decision diagram (Bryant: Graph-Based Algorithms for Boolean Function Manipulation,
//!   1986), whose equal gates are made once (`Gates`).
//! - The law `circuits_choose_as_controllers`: from the start the outputs are the updates of the controller
//!   (`specs/Runs`).
#![tactic(auto)]

mod gates;
mod halving;
mod laws;
mod making;
mod tables;

pub use laws::circuits_choose_as_controllers;
pub use making::circuit_of;
