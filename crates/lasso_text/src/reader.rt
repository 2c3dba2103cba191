//! Loops of letters are read line by line.

ghost use Rattle.std.specs.Prelude.{◌≡◌, ℕ, ◌+◌, ◌<◌, ◌^◌, true, false, length, Result, Ok, Err, Some, None, IfOk};
ghost use Rattle.std.specs.Prelude.{option_and_then};
ghost use Rattle.line_formats.specs.Machine.{IsFirstWrong, with_last_feed};
ghost use Rattle.lasso_text.specs.LetterText.{State, step, whole, fresh, letter_step, numbers, line_value, IsLoop, loop_text};
ghost use Rattle.lasso_text.specs.LoopView.{loop_tree, reader_state};

use crate::letter_loop::{Letter, LetterLoop};
use crate::lines::{back_number, rise, spaced_numbers};
use base_library::{NoMemory, Sequence};
use line_formats::{LastLine, LineReader, TextError, past, read_text};
use std::alloc::Global;

/// What was read so far.
#[derive(Drop)]
pub struct LettersReader {
    /// Where memory is taken.
    pub alloc: Global,
    /// How many propositions there are.
    pub bits: u32,
    /// The letters.
    pub letters: Vec<Letter>,
    /// Whether the last line was read.
    pub ended: bool,
    /// The number in the last line.
    pub back: u64,
}

impl LettersReader {
    /// Reads what follows the word of a letter.
    fn read_letter(&mut self, rest: &[u8]) -> Result<bool, NoMemory>
        ensures read { result ≡ Ok true →
            option_and_then (letter_step (reader_state self.old)) (line_value numbers rest.now)
            ≡ Some (reader_state self.new) }
        ensures wrong { result ≡ Ok false →
            option_and_then (letter_step (reader_state self.old)) (line_value numbers rest.now)
            ≡ None }
    {
        let Some(numbers) = spaced_numbers(self.alloc, rest)? else {
            return Ok(false);
        };
        if !rise(self.bits, &numbers) {
            return Ok(false);
        }
        self.letters.push(Letter {
            propositions: Sequence::from_vec(numbers),
        })?;
        Ok(true)
    }
}

impl LineReader for LettersReader {
    ghost State = { State };

    ghost step = { step };

    ghost whole = { whole };

    ghost state = { reader_state };

    #[tactic(auto, using(crate::proofs::LetterLines::step_letter, crate::proofs::LetterLines::step_back, crate::proofs::LetterLines::step_ended,))]
    fn read_line(&mut self, line: &[u8]) -> Result<bool, NoMemory> {
        if self.ended {
            return Ok(false);
        }
        if let Some(rest) = past(line, b"letter") {
            return self.read_letter(rest);
        }
        let Some(back) = back_number(line) else {
            return Ok(false);
        };
        if back >= self.letters.len() as u64 {
            return Ok(false);
        }
        self.ended = true;
        self.back = back;
        Ok(true)
    }

    fn is_whole(&self) -> bool {
        self.ended
    }
}

/// The loop of letters over so many propositions that a text tells, the last line with its line feed or without. An
/// `Err` tells the first line with which no such text goes on.
#[tactic(auto, using(crate::proofs::LoopLaws::first_wrong_line))]
pub fn read_letters(alloc: Global, text: &[u8], bits: u32) -> Result<LetterLoop, TextError>
    requires { length text.now + 1 < 2 ^ 32 }
    ensures is_loop { IfOk result (λ found. IsLoop bits (loop_tree found)) }
    ensures ok { IfOk result (λ found. with_last_feed text.now ≡ loop_text (loop_tree found)) }
    ensures form { (line : ℕ) → result ≡ Err (TextError.Form line) →
        IsFirstWrong step whole (fresh bits) (with_last_feed text.now) line }
{
    let mut reader = LettersReader {
        alloc,
        bits,
        letters: Vec::new(alloc),
        ended: false,
        back: 0,
    };
    read_text(&mut reader, text, LastLine::MayLackFeed)?;
    Ok(LetterLoop {
        letters: Sequence::from_vec(reader.letters),
        back: reader.back,
    })
}
