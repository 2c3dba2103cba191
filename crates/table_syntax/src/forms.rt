//! What the tokens of a text derive from, or where it stops to be of a grammar.

ghost use Rattle.std.specs.Prelude.{◌≡◌, ◌-◌, ◌≤◌, ◌<◌, ◌^◌, length, slice_get, All, IfOk, IfErr, MatchOption};
ghost use Rattle.tsl_text.specs.Division.{AreTokens, IsTokenOf};
ghost use Rattle.table_syntax.specs.Grammar.{IsTables, IsWords, IsInputs};
ghost use Rattle.table_syntax.specs.Forms.{IsRead, HasTextFault};
ghost use Rattle.table_syntax.specs.View.{tables_view, words_view, inputs_view};

use crate::reading::{InputsText, ReadFault, TablesText, inputs_text, tables_text};
use crate::text_tokens::text_tokens;
use crate::word_reading::words_text;
use crate::words::WordsText;
use base_library::NoMemory;
use std::alloc::Global;
use tsl_text::{TextError, Token, tokens};

/// Why a text is not of the form of a grammar, or out of memory.
#[derive(Drop)]
pub enum TextFault {
    /// The byte at this offset begins no blank, comment or token.
    Byte(u32),
    /// The comment that begins at this offset is not closed.
    OpenComment(u32),
    /// The first token such that no text of the grammar begins with the tokens up to and with it; or the
    /// end of the text, where one begins with all its tokens and it is none.
    Form(u32),
    /// Memory ran out.
    NoMemory,
}

impl From<NoMemory> for TextFault {
    ghost use Rattle.table_syntax.specs.declared.forms.TextFault.TheVariants.{NoMemory};

    ghost from_gives = { λ _ e. e ≡ NoMemory };

    fn from(_error: NoMemory) -> TextFault {
        TextFault::NoMemory
    }
}

/// Where the token begins from which on so many are left; at the end the text's length.
fn start_of(text: &[u8], tokens: &[Token], left: usize) -> u32
    requires text { length text.now < 2 ^ 32 - 1 }
    ensures { MatchOption (slice_get tokens.now (length tokens.now - left)) (result ≡ length text.now) (λ token. result ≡ token.start) }
{
    match tokens.get(tokens.len().saturating_sub(left)) {
        Some(token) => token.start,
        None => text.len() as u32,
    }
}

/// What a text of tables derives from.
///
/// An `Err` has the first fault of the text.
pub fn tables_of<'a>(alloc: Global, text: &'a [u8]) -> Result<TablesText<'a>, TextFault>
    requires { length text.now < 2 ^ 32 - 1 }
    ensures read { IfOk result (λ given. IsRead IsTables text.now (tables_view given)) }
    ensures fault { IfErr result (HasTextFault IsTables text.now) }
{
    let tokens = match tokens(alloc, text) {
        Ok(tokens) => tokens,
        Err(TextError::Byte(at)) => return Err(TextFault::Byte(at)),
        Err(TextError::OpenComment(at)) => return Err(TextFault::OpenComment(at)),
        Err(TextError::NoMemory) => return Err(TextFault::NoMemory),
    };
    tables_in(alloc, text, &tokens)
}

/// What the tokens of a text of tables derive from.
fn tables_in<'a>(
    alloc: Global,
    text: &'a [u8],
    tokens: &[Token],
) -> Result<TablesText<'a>, TextFault>
    requires text { length text.now < 2 ^ 32 - 1 }
    requires tokens { AreTokens text.now tokens.now }
    requires each { All (IsTokenOf text.now) tokens.now }
    ensures read { IfOk result (λ given. IsRead IsTables text.now (tables_view given)) }
    ensures fault { IfErr result (HasTextFault IsTables text.now) }
{
    let text_tokens = text_tokens(alloc, text, tokens)?;
    match tables_text(alloc, &text_tokens) {
        Ok((given, _)) => Ok(given),
        Err(ReadFault::Form(left)) => Err(TextFault::Form(start_of(text, tokens, left))),
        Err(ReadFault::NoMemory) => Err(TextFault::NoMemory),
    }
}

/// What a text of words derives from.
///
/// An `Err` has the first fault of the text.
pub fn words_of<'a>(alloc: Global, text: &'a [u8]) -> Result<WordsText<'a>, TextFault>
    requires { length text.now < 2 ^ 32 - 1 }
    ensures read { IfOk result (λ given. IsRead IsWords text.now (words_view given)) }
    ensures fault { IfErr result (HasTextFault IsWords text.now) }
{
    let tokens = match tokens(alloc, text) {
        Ok(tokens) => tokens,
        Err(TextError::Byte(at)) => return Err(TextFault::Byte(at)),
        Err(TextError::OpenComment(at)) => return Err(TextFault::OpenComment(at)),
        Err(TextError::NoMemory) => return Err(TextFault::NoMemory),
    };
    words_in(alloc, text, &tokens)
}

/// What the tokens of a text of words derive from.
fn words_in<'a>(alloc: Global, text: &'a [u8], tokens: &[Token]) -> Result<WordsText<'a>, TextFault>
    requires text { length text.now < 2 ^ 32 - 1 }
    requires tokens { AreTokens text.now tokens.now }
    requires each { All (IsTokenOf text.now) tokens.now }
    ensures read { IfOk result (λ given. IsRead IsWords text.now (words_view given)) }
    ensures fault { IfErr result (HasTextFault IsWords text.now) }
{
    let text_tokens = text_tokens(alloc, text, tokens)?;
    match words_text(alloc, &text_tokens) {
        Ok((given, _)) => Ok(given),
        Err(ReadFault::Form(left)) => Err(TextFault::Form(start_of(text, tokens, left))),
        Err(ReadFault::NoMemory) => Err(TextFault::NoMemory),
    }
}

/// What a text of inputs derives from.
///
/// An `Err` has the first fault of the text.
pub fn inputs_of<'a>(alloc: Global, text: &'a [u8]) -> Result<InputsText<'a>, TextFault>
    requires { length text.now < 2 ^ 32 - 1 }
    ensures read { IfOk result (λ given. IsRead IsInputs text.now (inputs_view given)) }
    ensures fault { IfErr result (HasTextFault IsInputs text.now) }
{
    let tokens = match tokens(alloc, text) {
        Ok(tokens) => tokens,
        Err(TextError::Byte(at)) => return Err(TextFault::Byte(at)),
        Err(TextError::OpenComment(at)) => return Err(TextFault::OpenComment(at)),
        Err(TextError::NoMemory) => return Err(TextFault::NoMemory),
    };
    inputs_in(alloc, text, &tokens)
}

/// What the tokens of a text of inputs derive from.
fn inputs_in<'a>(
    alloc: Global,
    text: &'a [u8],
    tokens: &[Token],
) -> Result<InputsText<'a>, TextFault>
    requires text { length text.now < 2 ^ 32 - 1 }
    requires tokens { AreTokens text.now tokens.now }
    requires each { All (IsTokenOf text.now) tokens.now }
    ensures read { IfOk result (λ given. IsRead IsInputs text.now (inputs_view given)) }
    ensures fault { IfErr result (HasTextFault IsInputs text.now) }
{
    let text_tokens = text_tokens(alloc, text, tokens)?;
    match inputs_text(alloc, &text_tokens) {
        Ok((given, _)) => Ok(given),
        Err(ReadFault::Form(left)) => Err(TextFault::Form(start_of(text, tokens, left))),
        Err(ReadFault::NoMemory) => Err(TextFault::NoMemory),
    }
}
