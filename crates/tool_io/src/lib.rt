//! How a run of a tool ends: what its reply is, and how that is told.
//!
//! A tool takes words, a source and two sinks, makes one reply before it writes anything, tells it, and ends
//! with a status. This crate holds what all tools have of that. A tool says which replies its words and the
//! bytes of the source may have, as a relation of bytes and a reply. The words of this crate, in the order to
//! read them:
//!
//! 1. `Status` (`specs/Statuses.antt`): nine ways to end. `Done`, `No` and `Spent` are answers, whose text goes
//!    to the first sink; the text of every other one goes to the second (`is_answer`).
//! 2. `Reply`: a status and one text.
//! 3. `IsReplyOf` (`specs/Ends.antt`): the reply is one that the bytes of the source may have, and the source
//!    failed where the reply says so, and nowhere else.
//! 4. `EndsIn` (`specs/Ends.antt`): the three ways in which a run ends. The text of a reply was written whole, or
//!    it was cut off, or memory ran out.
//!
//! `tell` writes a reply to its sink and gives the status of the run. A crate above may rely on this: a reply
//! that was made is told whole with its own status, or it is cut off at `WriteFault`; where none was made, the
//! status is `Memory` and nothing is written; the other sink is not touched, and what was written was handed on
//! (`HandedOn`). What follows of an end alone stands in `proofs/Ending`, and how a reply comes of its source in
//! `proofs/Replying`.
#![tactic(auto)]

mod reply;
mod status;
mod telling;

pub use reply::Reply;
pub use status::Status;
pub use telling::tell;
