//! The automaton of a formula of linear temporal logic: a universal co-Büchi automaton with rejecting
//! marks on edges.
//!
//! `specs/Automata` says which numbered states and which edges are the automaton of a formula: states
//! are sets of formulas with a counter, and each choice of a set is an edge. `build` gives it, or says
//! which limit is passed, and `specs/Refusals` says what that means. `specs/Paths` says what its
//! paths over a letter loop are. Laws are the contracts of functions that do nothing: where a formula
//! holds on a letter loop, its automaton has a path over the loop that passes rejecting edges again and
//! again; where one turns through a rejecting edge, the formula holds; a formula has one automaton, up to
//! the numbers of its states; and one within the limits is never refused.
//!
//! The work is done over numbers: the formulas that steps may leave have numbers (`obligations`), and a
//! state is a rising list of them with its counter. The choices of a set are made once: the states that
//! differ in their counter alone share them. `proofs/ExploredLemmas` shows that each choice that
//! is taken keeps what is explored a part of the automaton, and that it is whole when each state is
//! expanded.
#![tactic(auto)]

mod automaton;
mod build_error;
mod building;
mod counters;
mod exploring;
mod known;
mod laws;
mod states;
mod untils;

pub use automaton::{Automaton, Edge};
pub use build_error::{BuildError, MOST_AUTOMATON_EDGES, MOST_AUTOMATON_STATES};
pub use building::build;
pub use laws::{
    a_formula_that_holds_has_rejecting_paths, automata_are_the_same_up_to_numbers,
    automata_within_limits_are_built, rejecting_turns_make_a_formula_hold,
};
