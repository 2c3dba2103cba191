//! The replies of the commands that judge: `check`, `run` and `recheck`.
//!
//! `check` replies to the bytes of a specification and a program with the verdict on the program
//! (`CheckOutcome`, `specs/Check.antt`); `accepted_program` gives both where the program is accepted
//! (`specs/Judged.antt`). `run` replies to those of a program with tables or
//! machine words, with inputs, and of a specification or none, with the closed run and the verdicts on it (`RunOutcome`,
//! `specs/Run.antt`). Both find the parts of their input by lines alone (`specs/RunParts.antt`), and
//! tell a refusal of a part other than a specification by its line, its place or its name
//! (`specs/RunFaults.antt`). `recheck` replies to the bytes of a formula and a log with the verdict on
//! the log (`RecheckOutcome`, `specs/Recheck.antt`).
#![tactic(auto)]

mod checking;
mod meaning;
mod parting;
mod rechecking;
mod run_faults;
mod running;
mod verdicts;

pub use checking::{Judged, accepted_program, check};
pub use parting::Style;
pub use rechecking::recheck;
pub use running::{MOST_CONFIGURATIONS, run};
