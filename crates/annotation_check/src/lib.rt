//! Annotations of machines: numbers of pairs of a machine's state and an automaton's state, which bound
//! how many rejecting edges a path of the automaton passes along letters of the machine.
//!
//! `specs/Annotations` says what a numbering is, when it is an annotation within a bound, and what the
//! least numbers are. `annotate` gives the least annotation of a controller, `annotate_environment` that of
//! an environment, and none exactly where no annotation is within the bound. Both let numbers grow from the
//! pair of both starts by a list of the pairs whose number rose: a pair is looked at again only when its
//! number rose again. The letters of each machine state are listed once. When a pair is looked at for the
//! first time, they are matched with its edges, many letters at once, and the distinct steps to pairs behind
//! it are kept. A law says what annotations are for: along each letter loop of the machine a path passes at
//! most as many rejecting edges as the bound, so no formula whose automaton it is holds there.
#![tactic(auto)]

mod annotating;
mod growing;
mod laws;
mod listing;
mod pairing;
mod stepping;

pub use annotating::{Annotation, annotate, annotate_environment};
pub use laws::annotations_bound_paths;
pub use pairing::edges_by_state;
