//! Machines: controllers and environments as tables over letters.
//!
//! Both begin in state 0. A `Controller` has, for each state and each valuation of the tests, an `Entry`:
//! one choice for each controlled signal, and the state to go to. An `Environment` has for each state
//! the valuation that holds there, and for each vector of choices the state to go to. Their types keep
//! that there is a state, that each list has its length, and that every successor names a state;
//! `specs/MachineTree` says the same of pure tables. Each gives the moves in a state: the letters that it
//! allows there, each with the state to go to (`specs/Moves`). A `Round` is an environment with the
//! window that is assumed after it, and a `Side` says whose machine is looked for.
#![tactic(auto)]

mod controller;
mod environment;
mod moves;
mod rounds;
mod side;

pub use controller::{Controller, Entry};
pub use environment::Environment;
pub use moves::Move;
pub use rounds::Round;
pub use side::Side;
