//! Machines that fail, and the bound within which every other one has an annotation.
//!
//! A machine fails on a letter loop that it runs along if a formula holds there that is to hold on none
//! (`specs/Failing`). Laws are the contracts of functions that do nothing: where an automaton is that of
//! the formula, a machine fails, or it has an annotation within its states times those of the automaton,
//! and never both. `failing_loop` gives a loop on which a controller fails, or none where it has such an
//! annotation.
//!
//! It lists the steps between pairs of a controller's state and an automaton's state, each by a move and
//! an edge that the move's letter matches, and looks for a turn through a rejecting step. From each node
//! that is reached, and for each rejecting step of it, a search goes on until no step leads to a new node.
//! `proofs/AnnotatedOrFailing` shows that the letters of a turn are a loop on which the machine fails, and
//! that where nothing turns, a pair's number may be how many pairs it does not lead to.
#![tactic(auto)]

mod failing;
mod laws;
mod letter_loop;
mod pair_steps;
mod refining;
mod search;
mod turning;

pub use failing::failing_loop;
pub use laws::{
    controllers_fail_or_have_annotations, machines_fail_or_have_annotations,
    no_answer_means_that_all_fail,
};
pub use letter_loop::LetterLoop;
pub use pair_steps::MOST_CONTROLLER_STATES;
pub use refining::{Full, refine_full};
