//! Names, a window and specifications that the tests of several crates build.
//!
//! - Names: `names_of_copies`, and `names_told`, which says of each its kind and how many arguments it takes.
//! - `copying_window`, a window over these names, and `spec_of`, the specification of a text.
//!
//! A clause says of each value what tests need where they hand it on. An `Err` is a test's failure: memory ran out, or
//! what was asked for is no such value.
#![tactic(auto)]

mod names;
mod specifications;
mod windows;

pub use names::{names_of_copies, names_told};
pub use specifications::spec_of;
pub use windows::copying_window;
