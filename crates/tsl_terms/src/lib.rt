//! Terms, formulas and specifications of Temporal Stream Logic.
//!
//! A term is a signal or a function applied to terms, a probe is a predicate applied to terms, and a
//! formula is built from probes, updates and the connectives. Their numbers are those of a list of
//! names, which a specification has. Each type has a pure tree in `specs/`, where the definitions
//! stand, and a function that gives the tree of a value: `term_tree`, `probe_tree`, `formula_tree`,
//! `spec_tree`, `window_tree`. Contracts speak of these trees, since values may lie anywhere in memory.
//!
//! - `Names` keeps names by first appearance: each call gives its part of the list of names. `equality_of` gives the
//!   number of the predicate `eq` with two arguments.
//! - `copy_term`, `copy_probe`, `copy_formula` and `copy_window` give a value of the same tree, and
//!   `same_term` and `same_probe` say whether two trees are equal; that the test of trees is equality is
//!   a law.
//! - `first_uses` gives the names of uses in their order, and `first_clash` the first use that is not like
//!   the first use of its name.
//! - `Formula::parts` gives a formula by its outermost operator, in the five cases of its tree.
//! - `atoms` gives what a formula tests and updates, from the left, and `atoms_of_spec` that of a whole
//!   formula. What a formula reads, updates and is made of are folds of this list.
//! - `whole` gives the formula that a specification stands for, `signals` its inputs, cells and outputs,
//!   `choices` the terms that a signal may take, and `predicates` the probes, each exactly as defined. `term_reads` and
//!   `some_term_reads` say whether terms read a signal.
//! - `window_formula` gives the formula that holds in a run exactly where a window does, and `under` a
//!   formula under the assumption of windows.
//! - `node_count` counts nodes, and stops at the largest number; `whole_node_count` counts those of the
//!   whole formula and makes no formula.
//!
//! `laws` has what follows of these definitions alone.
//!
//! The only error is out of memory. Lists of members are walked, built, copied and dropped by loops, so
//! they may be long; how deep formulas and terms nest is up to what makes them, and calls go as deep.
//! A crate above may rely on the fields of a `Spec`: each of its formulas fits its names.
#![tactic(auto)]

mod atom;
mod choosing;
mod clash;
mod copy;
mod counting;
mod equality;
mod formula;
mod gathering;
mod joining;
mod laws;
mod marks;
mod names;
mod operator;
mod parts;
mod same;
mod signal_lists;
mod spec;
mod term;
mod window;
mod window_formulas;

pub use atom::{AtomRef, atoms, atoms_of_spec};
pub use choosing::{choices, some_term_reads, term_reads};
pub use clash::{NameUse, Quality, first_clash, first_uses};
pub use copy::{copy_formula, copy_probe, copy_term, copy_window};
pub use counting::{node_count, whole_node_count};
pub use equality::{equality_of, is_equality};
pub use formula::{Formula, FormulaList};
pub use gathering::predicates;
pub use joining::whole;
pub use laws::{
    classes_without_pairs_are_single, more_keep_windows_congruent, plain_windows_are_congruent,
    same_tree_is_equality, signals_are_told_apart, whole_formula_has_the_atoms,
    windowed_formulas_have_the_atoms,
};
pub use names::{NameKind, Names, same_kind};
pub use operator::{BinaryOperator, ManyOperator, UnaryOperator};
pub use parts::FormulaParts;
pub use same::{same_probe, same_term};
pub use signal_lists::{SignalLists, signals};
pub use spec::Spec;
pub use term::{DEEPEST_BRACKETS, Probe, Term, TermList};
pub use window::{Equated, Listed, Window};
pub use window_formulas::{under, window_formula};
