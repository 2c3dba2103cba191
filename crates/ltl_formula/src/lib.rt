//! Formulas of linear temporal logic in negation normal form, and what they mean on letter loops.
//!
//! A letter is a number whose bits are truths, and a letter loop is a list of letters that come once
//! and a list of letters that come again and again. A contract sees a formula as a tree without
//! addresses (`specs/LtlTree`). `specs/LetterLoop` says at which positions of a loop a formula holds,
//! with the words of `loop_shape` along the loop. `negate` gives the formula that holds exactly where
//! another one fails, `copy_ltl` an equal formula, and `compare` the order of formulas, which is total
//! and by which formulas are sorted. A `Cube` asks of some bits that they are set and of others that
//! they are not; `matches` says whether a letter has them so.
#![tactic(auto)]

mod copy;
mod cube;
mod dual;
mod formula;
mod laws;

pub use copy::copy_ltl;
pub use cube::Cube;
pub use dual::negate;
pub use formula::{Ltl, LtlList, compare};
pub use laws::formulas_are_ordered;
