//! What a search for an assignment decides, learns from its conflicts, and writes in its log.
//!
//! `Decisions` say which variable is decided next: of those that are not set the most active one, which
//! `VariableQueue` has first, to the value that it had last. A variable is active as far as conflicts were
//! found by it, the later ones the more.
//!
//! `learn` analyses a conflict from the end of the trail back to the first unique implication point, as N. Eén and
//! N. Sörensson, An Extensible SAT-solver, 2003, do it, goes back to the level at which the learnt clause is unit,
//! and adds it to the trail and to the `ProofLog`. `refute` ends the log where the conflict is at level 0. The
//! hints of a step are the reasons of the entries that its clause was found by, in the order in which they were
//! set. `Units` are the clauses of one literal for what is true at level 0.
//!
//! The `ClauseDatabase` has of each learnt clause on the trail its number in the log, and when it was last used.
//! `Reductions` say at which counts of learnt clauses those that were not used of late are left out, `Restarts` at
//! which the search begins anew.
#![tactic(auto)]

mod analysis;
mod choices;
mod clause_database;
mod learning;
mod numbers;
mod proof_log;
mod queue;
mod reductions;
mod restarts;
mod seen;
mod tournament;
mod units;

pub use analysis::Analysis;
pub use choices::{Decisions, assignment_of};
pub use clause_database::{ClauseDatabase, ClauseUse, Kept};
pub use learning::{learn, refute};
pub use proof_log::ProofLog;
pub use queue::VariableQueue;
pub use reductions::Reductions;
pub use restarts::Restarts;
pub use seen::Seen;
pub use units::Units;
