//! Literals, clauses and formulas in conjunctive normal form, and what it means that a clause follows
//! by unit propagation.
//!
//! A contract sees a literal as the index of its variable and whether it is positive, and a clause as
//! the list of its literals, which rise strictly by their numbers. `clause_of` makes the clause of any
//! literals, and `ClauseList` keeps many clauses in one block of memory; `contains`, `is_tautology`, `have_pair`
//! and `meets` give what their names say, for all inputs.
//!
//! The crates above speak of the same definitions: in `specs/Clauses` the clauses, the assignments that
//! meet them and what follows from them; in `specs/Propagation` when a clause is false, unit or
//! satisfied under the literals that are true, what unit propagation reaches, and what a trace of
//! learnt clauses is. The laws of these definitions are the contracts of functions that do nothing.
#![tactic(auto)]

mod clause_list;
mod clauses;
mod formulas;
mod laws;
mod literals;

pub use clause_list::ClauseList;
pub use clauses::{Clause, clause_of, contains, have_pair, is_tautology};
pub use formulas::{Assignment, Cnf, meets};
pub use laws::{
    literals_are_their_numbers, order_is_the_set_of_a_list, propagation_is_least,
    propagation_keeps_truth, reverse_propagation_shows_consequence, traces_show_consequences,
};
pub use literals::Literal;
