//! Machines that may be controllers of an automaton, by a search that promises nothing.
//!
//! `propose` promises of a machine only that it can be judged: it fits the space, and has no more states than a program
//! may have. Whether it is a controller is judged by who asks, so the search is free, and no clause speaks of it.
//!
//! The search is a game on labels. A label gives each state of the automaton a counter, or says that it is not reached.
//! A set of labels is closed where from each, under each valuation, some vector leads to a label that lies below one of
//! the set; a closed set with a label of the start is a controller that has an annotation. `playing` finds one label
//! after the other, from that of the start on; `joining` makes the set smaller; `making` makes the machine.
#![tactic(auto)]

mod arena;
mod joining;
mod labels;
mod making;
mod playing;
mod proposing;
mod work;

pub use proposing::{Effort, propose};
