//! Circuits as texts, in the ASCII form of AIGER, with neither symbols nor comments.
//!
//! `specs/CircuitText.antt` says how a circuit is written, and which line of a text is the first
//! wrong one.
#![tactic(auto)]

mod counts;
mod laws;
mod parts;
mod reader;
mod writer;

pub use laws::written_circuits_are_read;
pub use line_formats::TextError as CircuitError;
pub use reader::read_circuit;
pub use writer::write_circuit;
