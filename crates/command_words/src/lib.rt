//! The words of the command line, read by `clap`.
//!
//! The first word names a command, and `clap` reads the others as the words of one simple command: an argument for
//! each row of a table, with one whole number within a range for its value, and nothing else. The bound of `synth` alone
//! is a word of seventeen, `0` to `15` and `full`. `task_of` gives what the words ask for.
//!
//! Its contract speaks in the words of `clap`'s own definitions. `command` is the command that `clap` is handed for a
//! command word (`specs/Commands`, from the rows of `specs/Arguments`), `are_taken` says that no step of its parse
//! fails and that a bound of `synth` is one of these words, and `ParsesTo` names each number as what `clap` gives that
//! argument. So a refusal that is not for want of memory comes exactly where `clap` refuses the words or that bound is
//! no such word, and a taken option has its number, or its default, within the range of its row. Words ask for at most
//! one thing, by the law `words_ask_for_one_thing`.
#![tactic(auto)]

mod argument;
mod command_word;
mod laws;
mod reading;
mod synth_bound;
mod task;

pub use command_word::CommandWord;
pub use laws::words_ask_for_one_thing;
pub use reading::task_of;
pub use synth_bound::SynthBound;
pub use task::{ProveSizes, SynthSizes, Task, WordsError};
