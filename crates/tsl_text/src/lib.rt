//! What every text format of this repository begins with: tokens, places, lines, and the bytes of
//! numbers.
//!
//! Blanks are space, tab, carriage return and line feed. `//` begins a comment that ends before the
//! next line feed or at the end, `/*` one that ends at its `*/`; inside it `/*` and `*/` nest, `//`
//! means nothing, and any byte may stand. A name begins with an ASCII letter or `_` and goes on with
//! ASCII letters, digits, `_` and `'`; a number is a run of digits; the symbols are
//! `{ } ( ) [ ] ; ! && || -> <-> <- ? =`. The longest token is taken.
//!
//! - `tokens` gives the tokens of the one division of a text into blanks, comments and longest
//!   tokens (`specs/Division.antt`), or its first fault, and gives up where memory runs out alone.
//!   Each token lies within the text, after the one before it, and has bytes of its kind
//!   (`specs/Lexeme.antt`), so that a reader may cut the text at it. `one_division` is the law that
//!   a text has exactly one answer; it also gives the tokens as lexemes, without places, of which a
//!   grammar is a relation.
//! - `place_of` and `line_at` take no memory (`specs/Places.antt`).
//! - `put_number` and `put_bytes` append exactly the decimal digits and the bytes, or nothing.
//! - Texts that are read line by line have one vocabulary (`specs/Lines.antt`, `specs/Numbers.antt`): `first_line`
//!   goes along the lines with their numbers and says whether each has its line feed, `first_word` along the words
//!   of a line between any blanks, `first_field` along its fields between single spaces; `number_in` and its kin
//!   say which number a word means. `written_lines_are_read` and `one_decimal` are the laws that what is written so
//!   is read back (`specs/Written.antt`), and `specs/LineReading.antt` says what the first line at fault is.
//! - The letters of names, the reserved words and usable names stand in `specs/Names.antt`.
#![tactic(auto)]

ghost use Rattle.std.specs.Prelude.{◌≡◌, ℕ, ◌<◌, ◌≤◌, ◌^◌, [], List, Result, length, map, All, IfOk, IfErr};
ghost use Rattle.std.specs.List.{AllPairs};
ghost use Rattle.tsl_text.specs.Division.{Part, Divides, tokens_from, lexemes_of, AreTokens, IsTokenOf, StandsBefore, HasFault, IsAnswer};
ghost use Rattle.tsl_text.specs.Lexeme.{lexeme_of};
ghost use Rattle.tsl_text.specs.declared.TextError.{TextError};
ghost use Rattle.tsl_text.specs.declared.Token.{Token};

use std::alloc::{AllocError as NoMemory, AllocFailed, Global};
use thiserror::Error;

mod front;
mod laws;
mod lines;
mod numbers;
mod output;
mod places;

use front::{Piece, first_piece};
pub use laws::{one_decimal, written_lines_are_read};
pub use lines::{Line, Lines, first_field, first_line, first_word, line_count, lines_of};
pub use numbers::{MOST_DIGITS, number_in, plain_number_in, signed_number_in};
pub use output::{put_bytes, put_number};
pub use places::{Place, line_at, place_of};

/// What kind of token it is.
#[derive(Clone, Copy, Debug, PartialEq, Eq)]
pub enum TokenKind {
    /// An ASCII letter or `_`, then ASCII letters, digits, `_` and `'`.
    Name,
    /// One ASCII digit or more.
    Number,
    /// `{`
    OpenBrace,
    /// `}`
    CloseBrace,
    /// `(`
    OpenRound,
    /// `)`
    CloseRound,
    /// `[`
    OpenSquare,
    /// `]`
    CloseSquare,
    /// `;`
    Semicolon,
    /// `!`
    Not,
    /// `&&`
    And,
    /// `||`
    Or,
    /// `->`
    Arrow,
    /// `<->`
    BothArrow,
    /// `<-`
    LeftArrow,
    /// `?`
    Question,
    /// `=`
    Equals,
}

/// A token of a text: its kind, the offset of its first byte, and the offset after its last byte.
#[derive(Clone, Copy, Debug, PartialEq, Eq)]
pub struct Token {
    /// What kind of token it is.
    pub kind: TokenKind,
    /// The offset of its first byte.
    pub start: u32,
    /// The offset after its last byte.
    pub end: u32,
}

/// Why a text has no tokens.
#[derive(Debug, Drop, Error)]
pub enum TextError {
    /// The byte at this offset begins no blank, comment or token.
    #[error("byte {0} begins no token")]
    Byte(u32),
    /// The comment that begins at this offset is not closed.
    #[error("the comment at byte {0} is not closed")]
    OpenComment(u32),
    /// Memory ran out.
    #[error("out of memory")]
    NoMemory,
}

impl From<NoMemory> for TextError {
    ghost use Rattle.tsl_text.specs.declared.TextError.TheVariants.{NoMemory};

    ghost from_gives = { λ _ e. e ≡ NoMemory };

    fn from(_error: NoMemory) -> TextError {
        TextError::NoMemory
    }
}

impl<T: Drop> From<AllocFailed<T>> for TextError {
    ghost use Rattle.tsl_text.specs.declared.TextError.TheVariants.{NoMemory};

    ghost from_gives = { λ _ e. e ≡ NoMemory };

    fn from(_error: AllocFailed<T>) -> TextError {
        TextError::NoMemory
    }
}

/// The tokens of a text, in order. A text divides into blanks, comments and tokens, each token the
/// longest at its place; comments between `/*` and `*/` nest.
///
/// An `Err` has the text's first fault: `Byte` the first byte outside comments that begins no blank, comment or
/// token, `OpenComment` the outermost `/*` that is not closed, whichever of the two stands first.
pub fn tokens(alloc: Global, text: &[u8]) -> Result<Vec<Token>, TextError>
    requires { length text.now < 2 ^ 32 }
    ensures ok { IfOk result (λ tokens. AreTokens text.now tokens.items) }
    ensures fault { IfErr result (HasFault text.now) }

    // What the tokens' places are good for.
    ensures each { IfOk result (λ tokens. All (IsTokenOf text.now) tokens.items) }
    ensures in_order { IfOk result (λ tokens. AllPairs StandsBefore tokens.items) }
{
    let mut tokens = Vec::new(alloc);
    let mut start = 0;
    while start < text.len() {
        match first_piece(&text[start..]) {
            Piece::Gap(len) => start += len,
            Piece::Longest(kind, len) => {
                let end = start + len;
                tokens.push(Token {
                    kind,
                    start: start as u32,
                    end: end as u32,
                })?;
                start = end;
            }
            Piece::OpenComment => return Err(TextError::OpenComment(start as u32)),
            Piece::Nothing => return Err(TextError::Byte(start as u32)),
        }
    }
    Ok(tokens)
}

/// A law: a text has at most one division into parts, and exactly one answer, which is its tokens
/// or its first fault. The tokens without their places are those of the division.
pub fn one_division()
    ensures parts { (text : List ℕ) (a b : List Part) → Divides text a [] → Divides text b []
        → a ≡ b }
    ensures some_answer { (text : List ℕ) → (a : Result (List Token) TextError) × IsAnswer text a }
    ensures one_answer { (text : List ℕ) (a b : Result (List Token) TextError) → IsAnswer text a
        → IsAnswer text b → a ≡ b }
    ensures lexemes { (text : List ℕ) (parts : List Part) → Divides text parts []
        → map (lexeme_of text) (tokens_from 0 parts) ≡ lexemes_of parts }
{}
