//! Whether a program meets a specification, by the underapproximation in linear temporal logic.
//!
//! `accept` gives the first verdict that applies, or says why there is none (`specs/Verdicts`). At `Yes` the
//! program realizes the specification: each of its windows is congruent, and every run of it, under every
//! finite interpretation and every input loop, meets the formula of each window and the whole formula. The
//! other verdicts do not say that a run fails: at `NoAnnotation` the program may still meet the formula, by
//! what terms mean or within a larger bound.
//!
//! `automaton_for` gives the automaton that is asked for under windows: for controllers that of the negation
//! of the whole formula, for environments that of the formula itself.
//!
//! A program has at most one verdict (`one_verdict`), and within the limits of bits none where a limit is
//! passed (`limits_leave_no_verdict`).
#![tactic(auto)]

mod accepting;
mod bits;
mod laws;
mod verdict;
mod windows;

pub use accepting::{accept, automaton_for};
pub use laws::{annotated_programs_meet, limits_leave_no_verdict, one_verdict};
pub use verdict::{CheckError, Limit, Verdict};
