//! What the replies of the commands share.
//!
//! `fault_reply` is the reply at a fault (`specs/Replies.antt`): its line, with the status of its kind.
//! `fault_of` gives each refusal of a specification its fault, with the line and the column of its place,
//! and `fault_of_limit` each limit of the work on it (`specs/Refusals.antt`); `specs/RefusalPlaces.antt`
//! says that a refusal's offsets lie in its text. `cut_before` parts an input before the first line that
//! equals another (`specs/HeadLines.antt`).
#![tactic(auto)]

mod head_lines;
mod refusal;
mod reply;

pub use head_lines::{PROGRAM_LINE, cut_before};
pub use refusal::{fault_of, fault_of_limit, name_between, place_in};
pub use reply::fault_reply;
