//! The bound of `synth`, as it is named.

ghost use Rattle.std.specs.Prelude.{◌≡◌, position};
ghost use Rattle.std.specs.Str.{bytes_eq};

use crate::task::WordsError;
use std::str::FromStr;

/// The bound of the annotation of a controller that `synth` looks for.
#[derive(Clone, Copy, Debug, PartialEq, Eq)]
pub enum SynthBound {
    /// A number, from 0 to 15.
    Number(u32),
    /// The full bound.
    Full,
}

/// The words of the numbers, each at the place that it counts.
static NUMBER_WORDS: [&str; 16] = [
    "0", "1", "2", "3", "4", "5", "6", "7", "8", "9", "10", "11", "12", "13", "14", "15",
];

/// The bound that a word names: a number of `0` to `15`, written so, or `full`.
impl FromStr for SynthBound {
    type Err = WordsError;

    ghost use Rattle.command_words.specs.Bounds.{bound_named, IsNamed};

    ghost from_str_gives = { λ word r. IsNamed (bound_named word) r };

    fn from_str(word: &str) -> Result<SynthBound, WordsError> {
        if word == "full" {
            return Ok(SynthBound::Full);
        }
        match place_of(NUMBER_WORDS.as_slice(), word) {
            Some(number) => Ok(SynthBound::Number(number as u32)),
            None => Err(WordsError::Usage),
        }
    }
}

/// The place of the first name that a word is.
fn place_of(names: &[&str], word: &str) -> Option<usize>
    ensures { result ≡ position (λ name. bytes_eq name.now word.now) names.now }
{
    names.iter().position(|name| *name == word)
}
