//! Programs: finite machines over terms, apart from their text.
//!
//! A `Program` keeps what its definition asks: tests name smaller nodes, an assignment has one term
//! for each cell and then each output, states name nodes, no signal stands twice, terms and tests
//! read inputs and cells alone, and windows are short and in order (`specs/Fits.antt`). `ProgramTree`
//! is a program as a pure value, and `Walk` says what it does at a step. Its text stands in the crate
//! `flow_program`.
#![tactic(auto)]

mod limits;
mod node;
mod program;

pub use limits::{LONGEST_WINDOW, MOST_NODES, MOST_STATES, MOST_WINDOWS};
pub use node::Node;
pub use program::Program;
