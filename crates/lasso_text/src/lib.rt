//! Loops of letters as texts. A letter says which of so many propositions are true, and after the
//! last letter the loop goes on at an earlier one. A text has a line `letter` for each letter,
//! followed by the numbers of its true propositions, rising, and at last a line `back` with the
//! number of the letter that comes after the last one.
//!
//! `specs/LetterText.antt` has the formats of the lines and says which line may come next, and
//! `specs/FirstWrongLine.antt` which line is the first with which no text of a loop goes on.
#![tactic(auto)]

mod laws;
mod letter_loop;
mod lines;
mod reader;
mod text_laws;

pub use laws::written_loops_are_read;
pub use letter_loop::{Letter, LetterLoop, write_letters};
pub use reader::read_letters;
pub use text_laws::{no_loop_goes_on_with_a_first_wrong_line, steps_take_the_texts_of_loops};
