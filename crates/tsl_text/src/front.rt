//! What stands at the front of a text.

ghost use Rattle.std.specs.Prelude.{◌≡◌, ◌≤◌, length, drop, IfSome, IfNone};
ghost use Rattle.std.specs.Char.{is_ascii_digit};
ghost use Rattle.std.specs.List.{prefix_len};
ghost use Rattle.tsl_text.specs.internal.Front.{symbol_of, begins_comment, ends_comment, after_comment, piece_of};
ghost use Rattle.tsl_text.specs.Names.{is_name_start, is_name_byte};
ghost use Rattle.tsl_text.specs.Lines.{is_line_byte};

use crate::TokenKind;

/// What stands at the front of a text.
#[derive(Clone, Copy, Debug, PartialEq, Eq)]
pub enum Piece {
    /// A blank or a comment of so many bytes.
    Gap(usize),
    /// The longest token, of so many bytes.
    Longest(TokenKind, usize),
    /// A comment that is not closed.
    OpenComment,
    /// None of these.
    Nothing,
}

/// What stands at the front of a text.
pub fn first_piece(text: &[u8]) -> Piece
    ensures { result ≡ piece_of text.now }
{
    match text {
        [b' ' | b'\t' | b'\r' | b'\n', ..] => Piece::Gap(1),
        [b'/', b'/', rest @ ..] => Piece::Gap(2 + line_len(rest)),
        [b'/', b'*', rest @ ..] => match closing_len(rest) {
            Some(len) => Piece::Gap(2 + len),
            None => Piece::OpenComment,
        },
        [first, rest @ ..] => {
            if is_name_start(*first) {
                Piece::Longest(TokenKind::Name, 1 + name_len(rest))
            } else if first.is_ascii_digit() {
                Piece::Longest(TokenKind::Number, 1 + number_len(rest))
            } else {
                symbol(text)
            }
        }
        [] => Piece::Nothing,
    }
}

/// The longest symbol at the front, if one stands there.
fn symbol(text: &[u8]) -> Piece
    ensures { result ≡ symbol_of text.now }
{
    match text {
        [b'{', ..] => Piece::Longest(TokenKind::OpenBrace, 1),
        [b'}', ..] => Piece::Longest(TokenKind::CloseBrace, 1),
        [b'(', ..] => Piece::Longest(TokenKind::OpenRound, 1),
        [b')', ..] => Piece::Longest(TokenKind::CloseRound, 1),
        [b'[', ..] => Piece::Longest(TokenKind::OpenSquare, 1),
        [b']', ..] => Piece::Longest(TokenKind::CloseSquare, 1),
        [b';', ..] => Piece::Longest(TokenKind::Semicolon, 1),
        [b'!', ..] => Piece::Longest(TokenKind::Not, 1),
        [b'?', ..] => Piece::Longest(TokenKind::Question, 1),
        [b'=', ..] => Piece::Longest(TokenKind::Equals, 1),
        [b'&', b'&', ..] => Piece::Longest(TokenKind::And, 2),
        [b'|', b'|', ..] => Piece::Longest(TokenKind::Or, 2),
        [b'-', b'>', ..] => Piece::Longest(TokenKind::Arrow, 2),
        [b'<', b'-', b'>', ..] => Piece::Longest(TokenKind::BothArrow, 3),
        [b'<', b'-', ..] => Piece::Longest(TokenKind::LeftArrow, 2),
        _ => Piece::Nothing,
    }
}

/// Whether a name may begin with the byte: an ASCII letter or `_`.
fn is_name_start(byte: u8) -> bool
    ensures { result ≡ is_name_start byte }
{
    byte.is_ascii_alphabetic() || byte == b'_'
}

/// Whether a name may go on with the byte: an ASCII letter, a digit, `_` or `'`.
fn is_name_byte(byte: u8) -> bool
    ensures { result ≡ is_name_byte byte }
{
    byte.is_ascii_alphanumeric() || byte == b'_' || byte == b'\''
}

/// How many bytes at the front a name may go on with.
fn name_len(text: &[u8]) -> usize
    ensures value { result ≡ prefix_len is_name_byte text.now }
    ensures bound { result ≤ length text.now }
{
    text.iter().take_while(|byte| is_name_byte(**byte)).count()
}

/// How many bytes at the front are digits.
fn number_len(text: &[u8]) -> usize
    ensures value { result ≡ prefix_len is_ascii_digit text.now }
    ensures bound { result ≤ length text.now }
{
    text.iter().take_while(|byte| byte.is_ascii_digit()).count()
}

/// How many bytes stand before the first line feed, or in all where there is none.
pub fn line_len(text: &[u8]) -> usize
    ensures value { result ≡ prefix_len is_line_byte text.now }
    ensures bound { result ≤ length text.now }
{
    text.iter().take_while(|byte| **byte != b'\n').count()
}

/// How many bytes there are up to and with the `*/` that closes a comment, whose text behind its
/// `/*` is this. `None` where it is not closed.
#[tactic(auto, using(crate::proofs::Comments::scan_step, crate::proofs::Comments::short_scan))]
fn closing_len(text: &[u8]) -> Option<usize>
    ensures none { IfNone result (after_comment 0 text.now ≡ None) }
    ensures some { IfSome result (λ len. after_comment 0 text.now ≡ Some (drop len text.now)) }
    ensures bound { IfSome result (λ len. len ≤ length text.now) }
{
    let mut depth = 0usize;
    let mut at = 0;
    while at + 1 < text.len() {
        let first = text[at];
        let second = text[at + 1];
        if ends_comment(first, second) {
            if depth == 0 {
                return Some(at + 2);
            }
            depth -= 1;
            at += 2;
        } else if begins_comment(first, second) {
            depth += 1;
            at += 2;
        } else {
            at += 1;
        }
    }
    None
}

/// Whether the bytes are `/*`.
fn begins_comment(first: u8, second: u8) -> bool
    ensures { result ≡ begins_comment first second }
{
    first == b'/' && second == b'*'
}

/// Whether the bytes are `*/`.
fn ends_comment(first: u8, second: u8) -> bool
    ensures { result ≡ ends_comment first second }
{
    first == b'*' && second == b'/'
}
