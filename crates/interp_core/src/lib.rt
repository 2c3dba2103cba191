//! Algebras: what the symbols of terms mean over values of any type, and the evaluation of terms.
//!
//! An `Algebra` gives the value of a function on its arguments and the value that a cell has at first, and a
//! `Judge` gives the truth of a predicate too. Values may own memory, so a contract never compares values
//! themselves: each algebra says what is seen of a value (`seen`), and its `meanings` are over what is seen.
//!
//! `evaluate` gives the value of a term, and `test_term` the truth of a probe, where `Leaves` gives the values of
//! signals. Both answer exactly what `value` and `truth` of `tsl_terms` say for the algebra's meanings. `push_value` and
//! `push_values` put values at the end of a list, where many are wanted. `Wheel` is such an algebra.
//!
//! `TermAlgebra` is the algebra of free terms, in which a function is its own application, and `image` gives the
//! value that a free term has in another algebra, where rows give the values of signals at steps. That the image of
//! a term's free term is the term's value is the law `images_are_values`.
#![tactic(auto)]

mod algebra;
mod evaluation;
mod free_terms;
mod images;
mod laws;
mod leaves;
mod term_algebra;
mod wheel;

pub use algebra::{Algebra, Judge};
pub use evaluation::{evaluate, push_value, push_values, test_term};
pub use free_terms::{FreeList, FreeTerm};
pub use images::image;
pub use laws::images_are_values;
pub use leaves::Leaves;
pub use term_algebra::TermAlgebra;
pub use wheel::Wheel;
