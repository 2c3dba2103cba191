//! What the grammar tells apart.

ghost use Rattle.std.specs.Prelude.{◌≡◌, ◌≤◌, length, IfOk, All};
ghost use Rattle.tsl_text.specs.Division.{IsTokenOf};
ghost use Rattle.spec_syntax.specs.Syntax.{word_of, free_unless};
ghost use Rattle.spec_syntax.specs.Texts.{terminals, terminal_at};
ghost use Rattle.spec_syntax.specs.SyntaxView.{terminal_view, terminals_view};
ghost use Rattle.spec_syntax.specs.internal.InnerView.{letter_operator};

use crate::syntax::Word;
use base_library::NoMemory;
use std::alloc::Global;
use tsl_text::{Token, TokenKind};

/// A terminal of the grammar.
#[derive(Clone, Copy)]
pub enum Terminal<'a> {
    /// A name that is no reserved word.
    Free(&'a [u8]),
    /// A reserved word.
    Word(Word),
    /// A symbol, or a number.
    Mark(TokenKind),
}

/// The terminals that a loop has left.
#[derive(Clone, Copy)]
pub(crate) struct Rest<'a, 'b> {
    pub(crate) terminals: &'b [Terminal<'a>],
}

/// The reserved word with these bytes.
fn word_of(text: &[u8]) -> Option<Word>
    ensures { result ≡ word_of text.now }
{
    if text == b"assume".as_slice() {
        Some(Word::Assume)
    } else if text == b"guarantee".as_slice() {
        Some(Word::Guarantee)
    } else if text == b"always".as_slice() {
        Some(Word::Always)
    } else if text == b"initially".as_slice() {
        Some(Word::Initially)
    } else if text == b"true".as_slice() {
        Some(Word::True)
    } else if text == b"false".as_slice() {
        Some(Word::False)
    } else {
        letter_operator(text)
    }
}

/// The reserved word with these bytes among those of one letter.
fn letter_operator(text: &[u8]) -> Option<Word>
    ensures { result ≡ letter_operator text.now }
{
    if text == b"X".as_slice() {
        Some(Word::X)
    } else if text == b"F".as_slice() {
        Some(Word::F)
    } else if text == b"G".as_slice() {
        Some(Word::G)
    } else if text == b"U".as_slice() {
        Some(Word::U)
    } else if text == b"W".as_slice() {
        Some(Word::W)
    } else if text == b"R".as_slice() {
        Some(Word::R)
    } else if text == b"A".as_slice() {
        Some(Word::A)
    } else {
        None
    }
}

/// The terminal that a token is.
pub fn terminal_at<'a>(text: &'a [u8], token: &Token) -> Terminal<'a>
    requires within { (token.now.start ≤ token.now.end) × (token.now.end ≤ length text.now) }
    ensures { terminal_view result ≡ terminal_at text.now token.now }
{
    match token.kind {
        TokenKind::Name => name_terminal(&text[token.start as usize..token.end as usize]),
        kind => Terminal::Mark(kind),
    }
}

/// The terminal that a name is.
fn name_terminal<'a>(name: &'a [u8]) -> Terminal<'a>
    ensures { terminal_view result ≡ free_unless name.now (word_of name.now) }
{
    match word_of(name) {
        None => Terminal::Free(name),
        Some(word) => Terminal::Word(word),
    }
}

/// The terminals of a text's tokens.
pub fn terminals<'a>(
    alloc: Global,
    text: &'a [u8],
    tokens: &[Token],
) -> Result<Vec<Terminal<'a>>, NoMemory>
    requires { All (IsTokenOf text.now) tokens.now }
    ensures { IfOk result (λ all. terminals_view all.items ≡ terminals text.now tokens.now) }
{
    let mut all = Vec::new(alloc);
    for token in tokens {
        all.push(terminal_at(text, token))?;
    }
    Ok(all)
}
