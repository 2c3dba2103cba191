//! The bits of letters: which predicate term or choice of a specification each bit stands for.
//!
//! A letter says what happens at a step: for each predicate term whether it is true, and for each
//! cell and output which of its choices it takes. Its bits are those of the predicate terms, in
//! their order, and then those of the choices, signal by signal. `space_of` gives the bits of a
//! specification exactly as `specs/SpecSpace` defines them. It is refused exactly where there are
//! more than 10 predicate terms, and otherwise exactly where there are more than 64 bits. A `Space`
//! keeps that it is within both limits, that its bits follow each other, that each signal has a
//! choice, and that no predicate term, no signal and no choice of one signal stands twice.
//!
//! - `test_bit` and `update_bit` give the bit of a probe and of an update, where it has one.
//! - `valuations` and `vectors` count the ways in which the predicate terms may be true, and in
//!   which each signal may take a choice; there may be too many vectors to count.
//! - `picks` gives the choices that the vector with a number picks, whatever the number of vectors.
//! - `letter` gives the letter of a valuation and a choice of each signal.
//!
//! Laws: each atom of a specification's whole formula has a bit, and a letter has the bit of an
//! atom exactly where the atom holds of its valuation and choices.
//!
//! Beside the two refusals the only error is out of memory. `space_of` compares each term with
//! those before.
#![tactic(auto)]

mod controlled;
mod laws;
mod limits;
mod picking;
mod space;
mod space_error;
mod spacing;

pub use controlled::Controlled;
pub use laws::{letters_show_what_holds, specifications_have_bits};
pub use limits::{MOST_BITS, MOST_PREDICATES, MOST_VECTORS};
pub use space::Space;
pub use space_error::SpaceError;
pub use spacing::space_of;
