//! Automata as texts that other tools take: the Hanoi Omega-Automata format, version 1. A text has a
//! header of seven lines, with how many states there are and what each bit of a letter is called;
//! then for each state its line and a line for each edge from it, with the literals that the edge
//! asks for, the state that it leads to, and a mark where it is rejecting; and a last line.
//!
//! `specs/HoaText.antt` has the text of an automaton, `specs/BitNames.antt` what the bits are called,
//! and `specs/HoaLines.antt` the formats of the lines and which line may come next.
//! `specs/HoaRefusals.antt` says why a text is refused: for its first wrong line, and otherwise for
//! the first limit that is passed.
#![tactic(auto)]

mod header;
mod hoa_error;
mod labels;
mod laws;
mod lines;
mod literals;
mod reader;
mod text_laws;
mod writer;

pub use hoa_error::HoaError;
pub use laws::{texts_tell_one_automaton, written_automata_are_read};
pub use reader::{Hoa, read_automaton, read_hoa};
pub use text_laws::{
    no_automaton_goes_on_with_a_first_wrong_line, steps_take_the_texts_of_automata,
};
pub use writer::write_automaton;
