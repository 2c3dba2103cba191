//! The reader of formulas in the DIMACS form.
//!
//! `read_dimacs` gives exactly the formula that a text tells, or the line of its first wrong word, or the
//! limit that it passes (`specs/CnfText.antt`). A `CnfReader` gives the same of a text that comes in pieces,
//! of any lengths, and keeps of them no more than the formula and the beginning of a word. Both read in one
//! pass, and give up where memory runs out alone.
#![tactic(auto)]

mod dimacs;
mod places;
mod reader;
mod stages;
mod told;
mod walk;

pub use dimacs::{CnfError, read_dimacs};
pub use reader::CnfReader;
