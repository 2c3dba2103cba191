//! The trail of a solver for formulas in conjunctive normal form: the literals that are set, in the
//! order in which they were set, with their levels and reasons, and unit propagation.
//!
//! A contract sees a trail as a `TrailState`: how many variables there are, the clauses, the entries
//! in the order of setting, the present level, and whether memory ran out in a call. `IsSound` says
//! what holds of every trail: no variable is set twice, levels never fall along the places, each level
//! from 1 begins with its one decided literal, and the reason of each other literal is a clause that
//! has it and whose other literals are false by entries at smaller places. Each call is one statement
//! on these. No contract says how propagation finds its clauses: each clause watches two of its
//! literals, and is looked at where one of them becomes false.
#![tactic(auto)]

mod entries;
mod errors;
mod stack;
mod trail;
mod trail_clauses;
mod watches;

pub use errors::TrailError;
pub use trail::Trail;
