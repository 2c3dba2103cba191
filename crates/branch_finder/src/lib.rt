//! Spurious windows: assumptions on cells that an environment does not keep.
//!
//! An environment tells which predicate terms are true, and knows nothing of values: it may say of one value
//! that a predicate holds of it, and then that it does not; or that two values are equal, and then that a predicate
//! holds of one alone. A window is *congruent* where what it says of its probes follows from the updates and
//! equalities that it lists, whatever the symbols mean (`tsl_terms`, `specs/Congruence`): both probes have one
//! predicate, of arguments that are one, or, without a left probe, the right one is an equality of two arguments that
//! are one. It is *spurious* where a path of the environment with what is listed tells the probes apart, or makes the
//! right one false (`specs/Spurious`). `find_window` looks for a congruent spurious window within a depth: it answers
//! one of the least length that lists no update and no equality too many, or that there is none (`specs/Finding`).
//!
//! Beside the limit on branches the only error is out of memory. What follows along a path depends on the updates of
//! cells alone and on which equalities are true in its states: the *print* of a state is what of these is true there.
//! So the search lists the sets of such updates that vectors have (`sets`) and the prints (`prints`), goes over the
//! paths of sets, by length, and on each over the prints by which it leads somewhere. It labels the arguments of the
//! predicate terms once on each (`arguments`), where all updates and equalities along it are listed, and looks at the
//! pairs, and at the equalities alone, whose labels are equal: with fewer listed none becomes congruent. What is not
//! needed is left out at the end (`thinning`). Where no predicate term is an equality, values of the predicate terms
//! under one reading of all functions tell before which pairs may be congruent: a path that tells none of these apart
//! is not labelled (`values`). The vectors with all updates of a set are matched by their masks, and give the states
//! that each state goes to (`linking`); where an environment may be after some steps is a plane of states (`moving`).
//! Where visited states differ in nothing that a congruent window speaks of, no path is looked at (`differing`).
//! Only the cells that predicate terms depend on count (`relevance`): without the updates of the others a window is as
//! congruent and as spurious.
#![tactic(auto)]

mod arguments;
mod branch_error;
mod counting;
mod differing;
mod finding;
mod limits;
mod linking;
mod listing;
mod looking;
mod moving;
mod planes;
mod prints;
mod relevance;
mod sets;
mod thinning;
mod values;
mod visiting;
mod windows;

pub use branch_error::BranchError;
pub use finding::find_window;
pub use limits::MOST_BRANCHES;
