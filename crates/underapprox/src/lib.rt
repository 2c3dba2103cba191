//! Formulas over tests and updates as formulas of linear temporal logic over the bits of letters.
//!
//! `to_letters` gives the letter form of a formula exactly as `specs/LetterForm` defines it:
//! negations stand at bits alone, each test and each update is its bit in a space, and an atom that
//! has no bit holds nowhere. On each loop of letters the form holds exactly where the formula does,
//! each atom read from its bit. A negated equivalence has a form of its own, and so the negation of
//! a formula is taken before its letter form.
//!
//! Laws: where the letters of a loop say what holds in a run, a formula whose atoms have bits holds
//! in the run where its letter form holds of the letters; and so it is where each signal takes one
//! of its choices at each position.
//!
//! The only error is out of memory. Both sides of an equivalence and the right side of a weak until
//! are written twice, so a form may have as many nodes as a formula's count of nodes says.
#![tactic(auto)]

mod laws;
mod letter_form;
mod making;

pub use laws::{letters_say_what_holds, whole_updates_are_read};
pub use letter_form::to_letters;
