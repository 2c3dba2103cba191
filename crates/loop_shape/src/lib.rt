//! The shape of a loop, and truth along it: words for runs that close and for loops of letters.
//!
//! The crate has definitions and laws alone. Its laws stand on functions that do nothing.
#![tactic(auto)]

mod laws;

pub use laws::{positions_stay, untils_come, words_are_dual, words_are_fixpoints, words_unroll};
