//! The texts of reports.
//!
//! `fault_text` gives the line that says why a text or the words were refused: at Ok exactly the bytes that the
//! definition of the same name gives for the fault, which is a table of its cases.
//!
//! The other texts are those of the crates below, each with its definition: formulas
//! (`formula_text`), environments, windows and rounds (`environment_text`), what a search says that
//! writes no program (`search_text`), and runs with their verdicts (`trace_text`).
#![tactic(auto)]

mod fault;

pub use environment_text::{environment_text, rounds_text, window_text};
pub use fault::{DataPart, Fault, Head, LimitName, ProgramRule, TokenPart, fault_text};
pub use formula_text::{formula_text, whole_formulas_can_be_written};
pub use search_text::{ReasonText, none_text, spent_text};
pub use trace_text::trace_text;
