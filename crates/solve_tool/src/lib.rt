//! The solver as a program: the words, the source and the sinks of one run.
//!
//! `solve` reads a formula in the DIMACS form, up to 268,435,456 bytes, and answers as solvers of
//! the field do. Its contract is the promise of the whole program. Its words, in the order to read
//! them:
//!
//! 1. `Status` (`tool_io`): nine ways to end. `Done` says that an assignment meets all clauses, `No` that none
//!    does, and `Spent` that the budget is spent; the text of these goes to the first sink. `exit_number` gives
//!    them the numbers 10, 20 and 0 (`specs/Numbers.antt`, which calls them `Satisfiable`, `Unsatisfiable` and
//!    `Unknown`).
//! 2. `Request` (`src/request.rt`): how many clauses may be learnt, and whether a log is wanted.
//!    `request_of` gives that of the words (`specs/Requests.antt`).
//! 3. `IsRightReply` (`specs/Outcome.antt`): that a status and a text are right for a formula. Where it
//!    is satisfiable, the text is that of an assignment that meets all clauses (`specs/Values.antt`), which
//!    tells the true literal of each variable (`assignments_are_told`);
//!    where it is not, no assignment meets all clauses, and where a log was asked for, the text spells
//!    a refutation, which `recheck` of `tsl` verifies where it has at most 268,435,456 bytes; where
//!    nothing is known, the budget was spent on clauses that are a trace.
//! 4. `SolverOutcome` (`specs/Outcome.antt`): what the words and the bytes of the source may lead to,
//!    refusals and failures included.
//! 5. `SolverEnds` (`specs/Ends.antt`): the three ways in which a run ends, which are `EndsIn` of `tool_io`.
//!
//! A clause with a literal and its negation is met by each assignment. Such clauses are left out
//! before solving, so the formula that is written before a log is the one without them.
#![tactic(auto)]

mod laws;
mod refusal;
mod request;
mod solver;
mod status;
mod top;
mod values;

pub use laws::assignments_are_told;
pub use status::exit_number;
pub use tool_io::Status;
pub use top::solve;
