//! The forms of the texts of tables, of words and of inputs.
//!
//! A text of tables has a domain and entries, each with a name and numbers; a text of words has a number of
//! bits and entries, each with a name and an operation, a test or a number; a text of inputs has the names
//! of its columns and rows of numbers (`specs/Syntax.antt`). The grammars (`specs/Grammar.antt`)
//! are relations on whole lists of terminals, which are tokens with their places and bytes. Here every
//! word may be a name, also those that are reserved in specifications. Which names there are, and what the
//! numbers and operations mean, is left to the crates above.
//!
//! - `tables_of`, `words_of` and `inputs_of` answer `Ok` with what the text derives from, and `Err` with its first
//!   fault: a byte or a comment that is in no token, or the first token, or the end, at which the text
//!   stops to be one of the grammar (`specs/Forms.antt`).
//! - Laws: a text derives from one thing at most, has at most one fault, and where it has one derives
//!   from nothing.
#![tactic(auto)]

mod forms;
mod laws;
mod reading;
mod text_tokens;
mod word_reading;
mod words;

pub use forms::{TextFault, inputs_of, tables_of, words_of};
pub use laws::{one_fault, one_form};
pub use reading::{Entry, InputsText, TablesText};
pub use text_tokens::TextToken;
pub use words::{Given, Operation, Test, WordEntry, WordsText};
