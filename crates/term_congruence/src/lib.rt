//! Windows whose two sides are equal whatever the symbols mean, but for the predicate that is equality.
//!
//! A term unfolds at a step to a free term (`Unfolding` in `tsl_terms`): its leaves are signals at steps, and a cell whose
//! update is listed at the step before is what the update's term unfolds to there. `classes_along` gives
//! labels of terms at steps, which are equal exactly where listed equalities put what the terms unfold to into one class
//! (`OneClass` there), so without equalities where they unfold to one free term; `congruent` says whether the two sides of
//! a window are one by what it lists, or, without a left probe, whether its right one is an equality that holds by it
//! (`Congruence` there).
//!
//! Neither call makes a free term. A label is the place of a shape in a set without repeats, and a shape names
//! its parts by their labels, so the cost is that of the terms times the steps, however large they unfold. Equalities
//! join labels, and then labels of shapes whose parts were joined, until there are none; this costs at most the square
//! of the number of labels.
//!
//! The law `congruent_windows_hold` says what this is for: the formula of a window that is congruent for the names'
//! equality holds in every closed run.
#![tactic(auto)]

mod classes;
mod closing;
mod congruence;
mod labelling;
mod laws;
mod shapes;

pub use classes::{ClassTable, classes_along};
pub use congruence::congruent;
pub use laws::congruent_windows_hold;
