//! Formulas of the same meaning with smaller automata.
//!
//! `simplified` gives a formula that holds at the same positions of every letter loop (`specs/SameMeaning`). Its
//! contract says no more, so rules are added without a word of it. There are two, at each level: the members of a
//! conjunction that hold always become one (`always_is_merged`), and the members of a disjunction that hold sometime
//! (`sometime_is_merged`).
#![tactic(auto)]

mod laws;
mod parting;
mod simplifying;

pub use laws::{always_is_merged, sometime_is_merged};
pub use simplifying::simplified;
