//! The texts of environments, and of the windows and rounds of a search.
//!
//! `environment_text` gives the text of an environment, `window_text` the line of a window, and `rounds_text` the
//! text of rounds: at Ok exactly the bytes that the definitions of the same names give. The conditions are that the
//! names hold each number of the terms, and that environments fit the space. `put_count`, `put_environment` and
//! `put_rounds` append such a text to another one.
#![tactic(auto)]

mod environment;
mod rounds;

pub use environment::{bit_text, environment_text, put_count, put_environment};
pub use rounds::{put_rounds, rounds_text, window_text};
