//! Formulas in conjunctive normal form, logs and whole refutations as text.
//!
//! `put_cnf`, `put_log` and `put_refutation` append exactly the text that `specs/Written.antt` says: a header and
//! a line for each clause; a line for each step; and both with the line `lrat` between them, as `recheck` reads
//! them. The one failure is that memory runs out.
//!
//! Four laws say what a reader makes of such a text: `written_formulas_are_read` and `written_logs_are_read` that
//! what is written is read back, `written_refutations_are_spelled` that the text of a refutation that is not
//! refused spells one (`specs/Parted.antt`): the line between the formula and its log is the first line `lrat`, and
//! `commented_refutations_are_spelled` that it does so behind a comment too.
#![tactic(auto)]

mod laws;
mod output;

pub use laws::{
    commented_refutations_are_spelled, written_formulas_are_read, written_logs_are_read,
    written_refutations_are_spelled,
};
pub use output::{put_clause, put_cnf, put_literal, put_log, put_refutation};
