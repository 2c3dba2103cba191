//! Loops of letters, and how they are written.

ghost use Rattle.std.specs.Prelude.{◌≡◌, ◌++◌, ◌∷◌, [], OnOk};
ghost use Rattle.lasso_text.specs.LetterText.{letter_text, back_text, loop_text};
ghost use Rattle.lasso_text.specs.LoopView.{letter_view, loop_tree};

use base_library::{NoMemory, Sequence};
use tsl_text::{put_bytes, put_number};

/// A letter.
#[derive(Drop)]
pub struct Letter {
    /// The numbers of the propositions that are true in it, rising.
    pub propositions: Sequence<u64>,
}

/// Letters one after another, the last of which goes on to one of them.
#[derive(Drop)]
pub struct LetterLoop {
    /// The letters.
    pub letters: Sequence<Letter>,
    /// The number, from 0, of the letter that comes after the last one.
    pub back: u64,
}

/// Appends the text of a loop.
pub fn write_letters(out: &mut Vec<u8>, letters: &LetterLoop) -> Result<(), NoMemory>
    ensures { OnOk result (out.new.items ≡ out.old.items ++ loop_text (loop_tree letters.now)) }
{
    for letter in letters.letters.as_slice() {
        put_letter(out, letter)?;
    }
    put_back(out, letters.back)
}

/// Appends the line of a letter.
fn put_letter(out: &mut Vec<u8>, letter: &Letter) -> Result<(), NoMemory>
    ensures { OnOk result (out.new.items
        ≡ out.old.items ++ (letter_text (letter_view letter.now) ++ 10 ∷ [])) }
{
    put_bytes(out, b"letter")?;
    for number in letter.propositions.as_slice() {
        put_bytes(out, b" ")?;
        put_number(out, *number)?;
    }
    put_bytes(out, b"\n")
}

/// Appends the last line.
fn put_back(out: &mut Vec<u8>, back: u64) -> Result<(), NoMemory>
    ensures { OnOk result (out.new.items ≡ out.old.items ++ (back_text back ++ 10 ∷ [])) }
{
    put_bytes(out, b"back ")?;
    put_number(out, back)?;
    put_bytes(out, b"\n")
}
