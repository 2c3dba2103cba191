//! What specifications and programs mean.
//!
//! The definitions in `specs/` say what a program does under an interpretation and an input loop, when
//! its run closes, and which formulas a closed run meets. A `LoopRun` is a run that is written down, over
//! values of any type; clauses speak of its pure tree, `run_tree`, over what an algebra says is seen of
//! its values.
//!
//! - `judge` says whether a formula holds at the first position of such a run. It goes through the
//!   formula from the inside out, with one plane of truths for each part (`position_planes`), of which an
//!   operator takes 64 positions at a step. Calls go as deep as the formula nests.
//! - Laws stand on functions that do nothing: each run of a program over names goes on and closes, a run
//!   that is written down means what the program's closed run means, and its first repetition is the
//!   least pair that it closes with.
#![tactic(auto)]

mod atom_truths;
mod columns;
mod joining;
mod judging;
mod laws;
mod leaves;
mod marks;
mod run;
mod shared_atoms;

pub use judging::judge;
pub use laws::{
    atoms_are_decided, first_repetitions_are_least, formulas_are_judged, large_limits_are_enough,
    meanings_are_by_number, programs_close, programs_go_on, promised_formulas_speak_of_the_program,
    runs_mean_what_programs_do, writable_programs_are_over_names,
};
pub use run::{InputLoop, LoopRun, Position};
