//! Programs and controllers: a program over the bits of a space as a controller over letters.
//!
//! - `controller_of` gives the controller of a program whose tests are predicate terms and whose updates
//!   are choices of a space: the entry of each state and valuation is what the program's walk gives
//!   there (`specs/ControllerOf`).
//! - The law `one_controller`: there is one such controller at most.
//! - `flow_of` gives the program of a controller over the bits of a space (`specs/Flow`): its states are the
//!   reachable ones, and each has a reduced decision tree over the predicate terms (`specs/DecisionTree`),
//!   whose equal parts are one node.
//! - Laws of such a program: its walks give the controller's entries (`flows_walk_as_controllers`), it tests
//!   predicate terms and assigns choices alone (`flows_have_bits`), and it is small (`flows_are_small`). No
//!   node of it stands twice (`flows_repeat_nothing`), and there is one such program at most (`one_flow`).
//! - The law `closed_runs_have_letter_loops`: each closed run of the program has a letter loop of that
//!   controller (`specs/RunLetters`). Its letters have the truths of the predicate terms and the assigned
//!   terms, so each atom that has a bit holds in the run exactly where the letter has its bit.
#![tactic(auto)]

mod controlling;
mod flowing;
mod laws;
mod noding;
mod parting;
mod reaching;
mod sharing;

pub use controlling::controller_of;
pub use flowing::flow_of;
pub use laws::{
    closed_runs_have_letter_loops, flows_are_small, flows_have_bits, flows_repeat_nothing,
    flows_walk_as_controllers, one_controller, one_flow,
};
