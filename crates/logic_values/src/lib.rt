//! Formulas over bits, spaces, environments and clauses that the tests of several crates build.
//!
//! - Formulas over bits: `next`, `always`, `finally`, `either`.
//! - Spaces: `no_bits`, and `space_of_spec`, that of a specification.
//! - Environments: `still_environment`.
//! - Literals, clauses and formulas in conjunctive normal form: `literal`, `clause`, `formula`, `formula_of`.
//!
//! A clause says of each value what tests need where they hand it on. An `Err` is a test's failure: memory ran out, or
//! what was asked for is no such value.
#![tactic(auto)]

mod clauses;
mod environments;
mod letters;
mod spaces;

pub use clauses::{clause, formula, formula_of, literal};
pub use environments::still_environment;
pub use letters::{always, either, finally, next};
pub use spaces::{no_bits, space_of_spec};
