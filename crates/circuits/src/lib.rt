//! Circuits of gates and latches.
#![tactic(auto)]

mod circuit;
mod gate;

pub use circuit::Circuit;
pub use gate::Gate;
