//! Planes of bits, of which each step of the processor takes several words.
//!
//! A plane is a list of bits in words of 64, the least bit first. What a call does is said bit by
//! bit (`specs/Planes.antt`), for planes of every length; no call takes memory.
//!
//! - `and_into`, `or_into`, `equal_into` and `not_into` put planes together, in the place of the
//!   first. The last two also set bits of the last word that the caller may have no use for.
//! - `matching` tells which letters have, of the bits that are cared for, those that are wanted, a
//!   bit for each letter. Past the letters no bit is set.
//! - `any_bit` and `first_bit` look for a bit that is set.
//!
//! The lemmas from words to bits, in `proofs/BitLemmas`, serve the crates above.
#![tactic(auto)]

mod combining;
mod lanes;
mod searching;

pub use combining::{and_into, equal_into, not_into, or_into};
pub use searching::{any_bit, first_bit, matching};
