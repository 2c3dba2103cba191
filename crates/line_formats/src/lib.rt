//! Formats of lines as data, and texts that are read line by line.
//!
//! - `specs/Format.antt`: a format is fixed bytes, leaves, repeated parts and choices; its values,
//!   how they are written and how lines are read follow from it. `specs/Leaves.antt` has the leaves.
//!   Proved once for all formats (`proofs/FormatLaws.antt`): what is written is read back, nothing
//!   else is read, and no line feed is written. What they ask of a format is computed.
//! - `specs/Machine.antt`: a text is read line by line, by a state and a step. For every step it is
//!   proved (`proofs/MachineLaws.antt`) that exactly the texts are read, and that a fault is the
//!   first wrong line.
//! - `read_text` goes along the lines for a `LineReader`; `past` and `first_number` read the parts
//!   of a line.
#![tactic(auto)]

mod lines;
mod parts;

pub use lines::{LastLine, LineReader, TextError, read_text};
pub use parts::{first_number, past};
