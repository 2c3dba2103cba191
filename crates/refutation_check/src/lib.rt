//! Refutations of formulas in conjunctive normal form: the reader of logs, and the check.
//!
//! - `read_lrat` gives exactly the steps of a log in the LRAT form, or its first wrong line
//!   (`specs/LogText.antt`). It reads in one or two passes, and gives up where memory runs out alone.
//!   `is_comment` and `literal_of` serve readers of formulas too, whose limits are `MOST_VARIABLES` and
//!   `MOST_CLAUSES`.
//! - `check` says exactly whether a log is refused, and where (`specs/Checking.antt`). Where it is not, no
//!   assignment meets all clauses of the formula: each step's clause follows from those before it by unit
//!   propagation in the order of its hints, and one of them is empty. Its time is that of the clauses that the
//!   hints name. `accepted_logs_refute` is the same as a law of the definitions.
#![tactic(auto)]

mod checker;
mod laws;
mod limits;
mod lines;
mod lrat;
mod marks;
mod numbers;
mod steps;

pub use checker::{LogError, check};
pub use laws::accepted_logs_refute;
pub use limits::{MOST_CLAUSES, MOST_VARIABLES};
pub use lines::is_comment;
pub use lrat::{LogTextError, read_lrat};
pub use numbers::literal_of;
pub use steps::{Log, Step};
