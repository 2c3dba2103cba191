//! Bounded synthesis for specifications, with refinement.
//!
//! `ask` asks whether a controller over the bits of a specification, with so many states, has an annotation
//! within a bound for an automaton of the negation of the whole formula. `refine` writes the program of a
//! controller that is found: `accept` says yes to it with the same bound, and it realizes the specification.
//! Where there is no such controller, it looks for an environment with an annotation for the formula itself, and
//! for a window that is congruent, so that it holds in every run, and spurious, so that it does not in that
//! environment. This is a round, and the questions are asked again under the windows of the rounds so far, each
//! with `specs/Questions`. The answers come with their rounds, which are a chain (`specs/Chains`): a program, that
//! there is no controller and why no further round is made, or the trace on which a budget of learnt clauses was
//! spent (`specs/Outcomes`).
//! `refine_by` is the same loop for a `Bound`, which may be the full one: the states of the controller times those of
//! the automaton of each question.
//!
//! Laws: no program is written where there is no such controller, and no round is made where there is one without
//! windows (`written_or_none`); nothing is answered where a limit of the first question is passed
//! (`limits_leave_no_outcome`).
#![tactic(auto)]

mod asking;
mod errors;
mod laws;
mod outcome;
mod refining;
mod turning;

pub use asking::ask;
pub use errors::RefineError;
pub use laws::{limits_leave_no_outcome, written_or_none};
pub use outcome::{Asked, Bound, Outcome, Reason, Search, Searched, Sizes};
pub use refining::{refine, refine_by};
