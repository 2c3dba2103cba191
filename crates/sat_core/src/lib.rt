//! A solver for formulas in conjunctive normal form, which learns clauses from conflicts.
//!
//! `solve` is the one call. Its answer is an assignment that meets all clauses, or a log that refutes
//! them, or, where a budget of learnt clauses is spent, the clauses that were learnt: a trace, which
//! shows that each of them told something that unit propagation had not found.
//!
//! The search is that of N. Eén and N. Sörensson, An Extensible SAT-solver, 2003. It propagates, decides
//! the next of the variables that are not set, and learns from each conflict. At the counts of `Restarts`
//! it begins anew at level 0, with what it has learnt. Which variable is next, what a conflict teaches and
//! how that is logged is the work of the crate `clause_learning`.
//!
//! What is true at level 0 gets a clause of one literal, with a step of its own, which is no learnt clause and
//! does not count in the budget. The hints of later steps name that one, and need not show it again.
//!
//! Clauses that were not used of late are left out of the trail, at the counts of `Reductions`: the trail is made
//! anew without them, and the same decisions are taken again. What is learnt then is a refutation, but no trace,
//! since a clause may be learnt twice.
//!
//! Where the level that a conflict teaches is far below, the search goes back by one level: the decisions between
//! need not be taken again. The clause then forces its literal at a higher level than that of its other literals, so
//! propagation is no longer complete at each lower level, as a trace wants it.
//!
//! So a search whose budget is spent is followed by one that keeps all, adds no clauses of one literal and always
//! goes back to the level that was taught.
#![tactic(auto)]

mod answers;
mod search;
mod solver;

pub use answers::Answer;
pub use solver::solve;
