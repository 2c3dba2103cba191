//! Programs: finite machines over terms, and their text.
//!
//! A `Program` keeps what its definition asks: tests name smaller nodes, an assignment has one term
//! for each cell and then each output, states name nodes, no signal stands twice, terms and tests
//! read inputs and cells alone, and windows are short and in order. `Walk` says what a program does
//! at a step, and `ProgramText` which text spells it.
//!
//! - `write_program` gives that text of every program that can be written over its names.
//! - `read_program` reads a text after given names. `specs/Listing.antt` says what the lines of a
//!   text are, and which line is the first at fault; `specs/Rules.antt` the rules of its lines,
//!   each as the first line that breaks it; `specs/Uses.antt` which names the text has, in the
//!   order of their first uses; and `specs/Reading.antt` what reading gives: the program and its
//!   names, or the one cause why there is none.
//! - Laws: a text spells at most one program, and has at most one reading after given names; what
//!   is written is read back, with the same names; a text has at most one cause of refusal, and
//!   where it has one it spells no program over names that go on from the given ones.
#![tactic(auto)]

mod equalities;
mod laws;
mod naming;
mod numbering;
mod reading;
mod rules;
mod uses;
mod writing;

pub use laws::{
    congruence_does_not_depend_on_numbers, one_program, one_program_cause, one_reading,
    spelled_programs_are_read,
};
pub use program_listing::{Name, one_listing};
pub use program_tree::{LONGEST_WINDOW, MOST_NODES, MOST_STATES, MOST_WINDOWS, Node, Program};
pub use reading::{ProgramError, read_program};
pub use writing::{put_updates, write_program};
