//! Planes of truths at the positions of a loop, and what temporal operators make of them.
//!
//! A plane holds the positions from the last one on: the last position stands at bit 0
//! (`specs/Positions.antt`). So what a position takes from the position after it comes from the bit
//! below, as a carry does in a sum, and the bits that are spare stand past the first position.
//!
//! - `plane_of` gives the plane of a list of truths, `everywhere` and `nowhere` the planes of a
//!   constant, and `holds_at` reads a position.
//! - Each operator takes its left operand's plane for its own, and changes it. Its clause says, for
//!   all truths, that of the planes of these it makes the plane of the operator's truths along the
//!   loop (`loop_shape`). Finally and globally take a plane's memory while they work.
#![tactic(auto)]

mod carrying;
mod operators;
mod positions;

pub use operators::{
    both, either, finally, globally, implied, negated, next, release, same, until, weak_until,
};
pub use positions::{everywhere, holds_at, nowhere, plane_of};
