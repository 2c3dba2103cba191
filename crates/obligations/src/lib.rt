//! What one step asks of the letter for a set of formulas to hold, and what it leaves for the next one.
//!
//! A choice is a cube, a set of formulas that have to hold at the next position, and the untils among
//! them that are put off. `step` gives the choices of a set, exactly as `specs/Expansion` defines them:
//! joins whose cubes contradict each other are dropped, and after each product and each joining of two
//! lists equal choices are dropped, and those that a different one lies within. It is refused exactly
//! where a list that is formed on the way has more than 65,536 members.
//!
//! The work is done over numbers: `names_of` lists the formulas that steps may leave, in their order, and
//! a formula's number is its place there. `expand` gives the choices of one formula over numbers. The
//! order, equality and sets of numbers are those of the formulas with these numbers, so what is made of
//! numbers is what would be made of formulas; `proofs/NamedChoices` shows it.
#![tactic(auto)]

mod apart;
mod expanding;
mod expansions;
mod joining;
mod laws;
mod naming;
mod numbered;
mod products;
mod reducing;
mod rounds;
mod searching;
mod set;
mod sets;
mod step_error;
mod stepping;

pub use expanding::{LETTER_BITS, expand, number_of};
pub use expansions::{choices_of_numbers, no_expansions};
pub use laws::{choices_contain_those_of_members, sets_hold_by_a_choice};
pub use naming::{names_of, names_of_formula};
pub use numbered::{NumberedChoice, code_of};
pub use set::Set;
pub use step_error::{MOST_CHOICES, StepError};
pub use stepping::{Choice, step};
