//! What the grammars tell apart.

ghost use Rattle.std.specs.Prelude.{◌≡◌, ◌≤◌, ◌<◌, ◌^◌, length, IfOk, IfSome, All};
ghost use Rattle.tsl_text.specs.Division.{IsTokenOf};
ghost use Rattle.table_syntax.specs.Syntax.{text_token_at, text_tokens, is_name_token, is_symbol, is_word, is_numeral, number_at};
ghost use Rattle.table_syntax.specs.View.{text_token_view, text_tokens_view};

use base_library::NoMemory;
use std::alloc::Global;
use tsl_text::{Token, TokenKind, number_in};

/// A token with its bytes.
#[derive(Clone, Copy)]
pub struct TextToken<'a> {
    /// The token.
    pub token: Token,
    /// Its bytes.
    pub text: &'a [u8],
}

/// The terminals that a loop has left.
#[derive(Clone, Copy)]
pub(crate) struct Rest<'a, 'b> {
    pub(crate) terminals: &'b [TextToken<'a>],
}

/// Whether it is a name.
pub(crate) fn is_name_token(x: TextToken) -> bool
    ensures { result ≡ is_name_token (text_token_view x.entry) }
{
    matches!(x.token.kind, TokenKind::Name)
}

/// Whether it is a name or `?`.
pub(crate) fn is_symbol(x: TextToken) -> bool
    ensures { result ≡ is_symbol (text_token_view x.entry) }
{
    matches!(x.token.kind, TokenKind::Name | TokenKind::Question)
}

/// Whether it is the name with these bytes.
pub(crate) fn is_word(word: &[u8], x: TextToken) -> bool
    ensures { result ≡ is_word word.now (text_token_view x.entry) }
{
    is_name_token(x) && x.text == word
}

/// Whether it is the number with these digits.
pub(crate) fn is_numeral(digits: &[u8], x: TextToken) -> bool
    ensures { result ≡ is_numeral digits.now (text_token_view x.entry) }
{
    matches!(x.token.kind, TokenKind::Number) && x.text == digits
}

/// What it means where it is a number of at most 18 digits.
pub(crate) fn number_at(x: TextToken) -> Option<u64>
    ensures { result ≡ number_at (text_token_view x.entry) }
{
    if matches!(x.token.kind, TokenKind::Number) {
        number_in(x.text)
    } else {
        None
    }
}

/// The terminal that a token is.
fn text_token_at<'a>(text: &'a [u8], token: &Token) -> TextToken<'a>
    requires within { (token.now.start ≤ token.now.end) × (token.now.end ≤ length text.now) }
    ensures { text_token_view result ≡ text_token_at text.now token.now }
{
    TextToken {
        token: *token,
        text: &text[token.start as usize..token.end as usize],
    }
}

/// The terminals of a text's tokens.
pub(crate) fn text_tokens<'a>(
    alloc: Global,
    text: &'a [u8],
    tokens: &[Token],
) -> Result<Vec<TextToken<'a>>, NoMemory>
    requires { All (IsTokenOf text.now) tokens.now }
    ensures { IfOk result (λ all. text_tokens_view all.items ≡ text_tokens text.now tokens.now) }
{
    let mut all = Vec::new(alloc);
    for token in tokens {
        all.push(text_token_at(text, token))?;
    }
    Ok(all)
}
