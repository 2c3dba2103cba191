//! Runs of programs, over any judge.
//!
//! A `Runner` goes along the run of a program, step by step: it shows the place among the input rows, the state and
//! the cells' values of a step, and goes to the next one. `run_closed` gives the whole run with its loop: it closes at
//! the first configuration that equals an earlier one, so at the least start plus length that a closed run can have.
//! It answers `NoLoop` exactly where the limit allows no such run.
//!
//! The loop is found by R. Brent's algorithm, so the comparisons of configurations are linear in the positions, and
//! one configuration is kept at a time. Nothing is asked of values but that `same` tells which are equal.
//!
//! Both calls require that the program can run (`CanRun`): each row has one value for each input, there are fewer than
//! 2^32 rows, and each step is there. That is so for every program over names, under every interpretation of them and
//! every input loop (`programs_go_on` of `tsl_meaning`); there a run closes within as many steps as the program has
//! configurations, so no larger limit is ever wanted (`large_limits_are_enough`).
#![tactic(auto)]

mod acting;
mod closing;
mod errors;
mod recording;
mod rows;
mod runner;
mod standing;

pub use closing::run_closed;
pub use errors::RunError;
pub use runner::Runner;
