//! What words ask for, by the matches of their parse.

ghost use Rattle.std.specs.Prelude.{◌≡◌, ◌≢◌, ◌<◌, ◌^◌, ℕ, List, Some, None, IfOk, IfErr, IfSome, true, false, map, string_bytes};
ghost use Rattle.std.specs.Prelude.{codes, option_and_then};
ghost use Rattle.command_words.specs.Arguments.{given_word, takes_words};
ghost use Rattle.command_words.specs.Bounds.{bound_named};
ghost use Rattle.command_words.specs.Commands.{ParsesTo, AreItsNumbers, are_taken, command, has_bound, task_word};
ghost use Rattle.command_words.specs.internal.Matches.{ParsedBy, matched_number, matched_word};

use crate::argument::command_of;
use crate::command_word::CommandWord;
use crate::synth_bound::SynthBound;
use crate::task::{ProveSizes, SynthSizes, Task, WordsError};
use clap::ArgMatches;
use clap::error::ErrorKind;
use std::alloc::Global;

/// What `clap` makes of the words, of which the first names the command.
fn parsed<'a>(
    alloc: Global,
    word: CommandWord,
    words: &'a [String],
) -> Result<ArgMatches<'a>, WordsError>
    ensures taken { IfOk result (λ matches. takes_words (command word) (map string_bytes words.now) ≡ true) }
    ensures given { IfOk result (λ matches. (id : List ℕ) →
        matched_word matches id ≡ given_word (command word) (map string_bytes words.now) id) }
    ensures from { IfOk result (ParsedBy (command word)) }
    ensures refused { IfErr result (λ e. e ≡ WordsError.Usage →
        takes_words (command word) (map string_bytes words.now) ≡ false) }
{
    let command = command_of(alloc, word.text(), word.arguments())?;
    match command.try_get_matches_from(words) {
        Ok(matches) => Ok(matches),
        Err(error) => Err(refusal(error.kind())),
    }
}

/// What an error of `clap` is for the caller.
fn refusal(kind: ErrorKind) -> WordsError
    ensures { result ≡ WordsError.Usage → kind ≢ ErrorKind.OutOfMemory }
{
    match kind {
        ErrorKind::OutOfMemory => WordsError::NoMemory,
        _ => WordsError::Usage,
    }
}

/// The number of an argument.
fn number(matches: &ArgMatches<'_>, name: &str) -> u32
    ensures { (n : ℕ) → matched_number matches.now name.now ≡ Some n → n < 2 ^ 32 → result ≡ n }
{
    matches.get_one::<u32>(name).unwrap_or(0)
}

/// The bound of `synth`, where a word for one is given.
fn named_bound(matches: &ArgMatches<'_>) -> Option<SynthBound>
    ensures { result ≡ option_and_then bound_named (matched_word matches.now (codes "bound")) }
{
    matches.get_one::<SynthBound>("bound")
}

/// What a command asks for by the matches of its words, where a word for its bound names one.
fn task_by(word: CommandWord, matches: &ArgMatches<'_>) -> Option<Task>
    requires { ParsedBy (command word) matches.now }
    ensures command { IfSome result (λ task. task_word task ≡ word) }
    ensures numbers { IfSome result (AreItsNumbers (matched_word matches.now)) }
    ensures unnamed { result ≡ None → has_bound word (matched_word matches.now) ≡ false }
{
    match word {
        CommandWord::Synth => {
            let bound = named_bound(matches)?;
            Some(Task::Synth(SynthSizes {
                states: number(matches, "states"),
                bound,
                env_states: number(matches, "env-states"),
                env_bound: number(matches, "env-bound"),
                depth: number(matches, "depth"),
                rounds: number(matches, "rounds"),
                budget: u64::from(number(matches, "budget")),
            }))
        }
        CommandWord::Check => Some(Task::Check(number(matches, "bound"))),
        CommandWord::Run => Some(Task::Run),
        CommandWord::Prove => Some(Task::Prove(ProveSizes {
            states: number(matches, "states"),
            bound: number(matches, "bound"),
            budget: u64::from(number(matches, "budget")),
        })),
        CommandWord::Recheck => Some(Task::Recheck),
        CommandWord::Gen => Some(Task::Gen(number(matches, "n"))),
        CommandWord::Circuit => Some(Task::Circuit(number(matches, "bound"))),
        CommandWord::Automaton => Some(Task::Automaton),
        CommandWord::Accepts => Some(Task::Accepts),
    }
}

/// What the words after the program's name ask for: the first is a command word, and the others are read by `clap` as
/// the words of that command.
///
/// # Errors
///
/// `Usage` where there is no first word, where it is no command, where `clap` refuses the others, or where the bound
/// of `synth` is no word for one. `NoMemory`.
pub fn task_of(alloc: Global, words: &[String]) -> Result<Task, WordsError>
    ensures taken { IfOk result (λ task. are_taken (map string_bytes words.now) ≡ true) }
    ensures asks { IfOk result (ParsesTo (map string_bytes words.now)) }
    ensures refused { IfErr result (λ e. e ≡ WordsError.Usage → are_taken (map string_bytes words.now) ≡ false) }
{
    let [first, ..] = words else {
        return Err(WordsError::Usage);
    };
    let Some(word) = CommandWord::of_word(first) else {
        return Err(WordsError::Usage);
    };
    let matches = parsed(alloc, word, words)?;
    match task_by(word, &matches) {
        Some(task) => Ok(task),
        None => Err(WordsError::Usage),
    }
}
