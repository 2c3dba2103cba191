//! Reading terminals by the grammar of words.

ghost use Rattle.std.specs.Prelude.{◌≡◌, ◌<◌, length, Some, Ok, IfOk, IfErr};
ghost use Rattle.tsl_terms.specs.declared.names.NameKind.TheVariants.{Signal, Function, Predicate};
ghost use Rattle.reader_combinators.specs.Readers.{taking};
ghost use Rattle.table_syntax.specs.Syntax.{operation_at, test_at};
ghost use Rattle.table_syntax.specs.View.{text_token_view, text_tokens_view, word_entry_view, word_entries_view, words_view};
ghost use Rattle.table_syntax.specs.internal.Reading.{operation_word_at, operation, word_entry_of_kind, word_entries, words_text};
ghost use Rattle.table_syntax.specs.internal.ReadFaults.{IsReadFaultOf};

use crate::reading::{
    Answer, ReadFault, at_end, first_kind, name, number, numeral, positive, symbol, word,
};
use crate::text_tokens::{Rest, TextToken, is_word};
use crate::words::{Given, Operation, Test, WordEntry, WordsText};
use std::alloc::Global;
use tsl_terms::NameKind;

/// The operation that a word stands for.
fn operation_at(x: TextToken) -> Option<Operation>
    ensures { result ≡ operation_at (text_token_view x.entry) }
{
    if is_word(b"add", x) {
        Some(Operation::Add)
    } else if is_word(b"sub", x) {
        Some(Operation::Sub)
    } else if is_word(b"mul", x) {
        Some(Operation::Mul)
    } else if is_word(b"and", x) {
        Some(Operation::And)
    } else if is_word(b"or", x) {
        Some(Operation::Or)
    } else if is_word(b"xor", x) {
        Some(Operation::Xor)
    } else if is_word(b"not", x) {
        Some(Operation::Not)
    } else if is_word(b"inc", x) {
        Some(Operation::Inc)
    } else if is_word(b"dec", x) {
        Some(Operation::Dec)
    } else if is_word(b"shl", x) {
        Some(Operation::Shl)
    } else if is_word(b"shr", x) {
        Some(Operation::Shr)
    } else {
        None
    }
}

/// The test that a word stands for.
fn test_at(x: TextToken) -> Option<Test>
    ensures { result ≡ test_at (text_token_view x.entry) }
{
    if is_word(b"less", x) {
        Some(Test::Less)
    } else if is_word(b"atmost", x) {
        Some(Test::AtMost)
    } else if is_word(b"zero", x) {
        Some(Test::Zero)
    } else if is_word(b"odd", x) {
        Some(Test::Odd)
    } else if is_word(b"nonzero", x) {
        Some(Test::Nonzero)
    } else {
        None
    }
}

/// What stands for an operation: its word; or, for none, the word before a number.
fn operation_word_at(x: TextToken) -> Option<Option<Operation>>
    ensures { result ≡ operation_word_at (text_token_view x.entry) }
{
    if is_word(b"const", x) {
        Some(None)
    } else {
        match operation_at(x) {
            Some(operation) => Some(Some(operation)),
            None => None,
        }
    }
}

/// What stands for an operation, at the front.
#[tactic(auto, unfolding(reader_combinators::specs::Readers::taking))]
fn operation_word<'a, 'b>(xs: &'b [TextToken<'a>]) -> Answer<'a, 'b, Option<Operation>>
    ensures ok { IfOk result (λ read. taking operation_word_at (text_tokens_view xs.now) ≡ Ok (read.0, text_tokens_view read.1.now)) }
    ensures fault { IfErr result (IsReadFaultOf (taking operation_word_at (text_tokens_view xs.now))) }
    ensures shorter { IfOk result (λ read. length read.1.now < length xs.now) }
{
    match xs {
        [x, rest @ ..] => match operation_word_at(*x) {
            Some(word) => Ok((word, rest)),
            None => Err(ReadFault::Form(xs.len())),
        },
        [] => Err(ReadFault::Form(0)),
    }
}

/// An operation.
#[tactic(auto, unfolding(crate::specs::internal::Reading::operation))]
fn operation<'a, 'b>(xs: &'b [TextToken<'a>]) -> Answer<'a, 'b, Operation>
    ensures ok { IfOk result (λ read. operation (text_tokens_view xs.now) ≡ Ok (read.0, text_tokens_view read.1.now)) }
    ensures fault { IfErr result (IsReadFaultOf (operation (text_tokens_view xs.now))) }
    ensures shorter { IfOk result (λ read. length read.1.now < length xs.now) }
{
    let (word, xs) = operation_word(xs)?;
    match word {
        Some(operation) => Ok((operation, xs)),
        None => {
            let (value, xs) = number(xs)?;
            Ok((Operation::Const(value), xs))
        }
    }
}

/// A test.
#[tactic(auto, unfolding(reader_combinators::specs::Readers::taking))]
fn test<'a, 'b>(xs: &'b [TextToken<'a>]) -> Answer<'a, 'b, Test>
    ensures ok { IfOk result (λ read. taking test_at (text_tokens_view xs.now) ≡ Ok (read.0, text_tokens_view read.1.now)) }
    ensures fault { IfErr result (IsReadFaultOf (taking test_at (text_tokens_view xs.now))) }
    ensures shorter { IfOk result (λ read. length read.1.now < length xs.now) }
{
    match xs {
        [x, rest @ ..] => match test_at(*x) {
            Some(test) => Ok((test, rest)),
            None => Err(ReadFault::Form(xs.len())),
        },
        [] => Err(ReadFault::Form(0)),
    }
}

/// The entry of a function after its first word.
#[tactic(auto, unfolding(crate::specs::internal::Reading::word_entry_of_kind))]
fn function<'a, 'b>(xs: &'b [TextToken<'a>]) -> Answer<'a, 'b, WordEntry<'a>>
    ensures ok { IfOk result (λ read. word_entry_of_kind Function (text_tokens_view xs.now)
        ≡ Ok (word_entry_view read.0, text_tokens_view read.1.now)) }
    ensures fault { IfErr result (IsReadFaultOf (word_entry_of_kind Function (text_tokens_view xs.now))) }
    ensures shorter { IfOk result (λ read. length read.1.now < length xs.now) }
{
    let (name, xs) = name(xs)?;
    let (operation, xs) = operation(xs)?;
    let entry = WordEntry {
        name,
        given: Given::Operation(operation),
    };
    Ok((entry, xs))
}

/// The entry of a predicate after its first word.
#[tactic(auto, unfolding(crate::specs::internal::Reading::word_entry_of_kind))]
fn predicate<'a, 'b>(xs: &'b [TextToken<'a>]) -> Answer<'a, 'b, WordEntry<'a>>
    ensures ok { IfOk result (λ read. word_entry_of_kind Predicate (text_tokens_view xs.now)
        ≡ Ok (word_entry_view read.0, text_tokens_view read.1.now)) }
    ensures fault { IfErr result (IsReadFaultOf (word_entry_of_kind Predicate (text_tokens_view xs.now))) }
    ensures shorter { IfOk result (λ read. length read.1.now < length xs.now) }
{
    let (name, xs) = symbol(xs)?;
    let (test, xs) = test(xs)?;
    let entry = WordEntry {
        name,
        given: Given::Test(test),
    };
    Ok((entry, xs))
}

/// The entry of a cell after its first word.
#[tactic(auto, unfolding(crate::specs::internal::Reading::word_entry_of_kind))]
fn cell<'a, 'b>(xs: &'b [TextToken<'a>]) -> Answer<'a, 'b, WordEntry<'a>>
    ensures ok { IfOk result (λ read. word_entry_of_kind Signal (text_tokens_view xs.now)
        ≡ Ok (word_entry_view read.0, text_tokens_view read.1.now)) }
    ensures fault { IfErr result (IsReadFaultOf (word_entry_of_kind Signal (text_tokens_view xs.now))) }
    ensures shorter { IfOk result (λ read. length read.1.now < length xs.now) }
{
    let (name, xs) = name(xs)?;
    let (value, xs) = number(xs)?;
    let entry = WordEntry {
        name,
        given: Given::Value(value),
    };
    Ok((entry, xs))
}

/// An entry after its first word.
fn word_entry_of_kind<'a, 'b>(
    kind: NameKind,
    xs: &'b [TextToken<'a>],
) -> Answer<'a, 'b, WordEntry<'a>>
    ensures ok { IfOk result (λ read. word_entry_of_kind kind (text_tokens_view xs.now)
        ≡ Ok (word_entry_view read.0, text_tokens_view read.1.now)) }
    ensures fault { IfErr result (IsReadFaultOf (word_entry_of_kind kind (text_tokens_view xs.now))) }
    ensures shorter { IfOk result (λ read. length read.1.now < length xs.now) }
{
    match kind {
        NameKind::Function => function(xs),
        NameKind::Predicate => predicate(xs),
        NameKind::Signal => cell(xs),
    }
}

/// The entries at the front.
#[tactic(auto, unfolding(crate::specs::internal::Reading::word_entries))]
fn word_entries<'a, 'b>(
    alloc: Global,
    xs: &'b [TextToken<'a>],
) -> Answer<'a, 'b, Vec<WordEntry<'a>>>
    ensures ok { IfOk result (λ read. word_entries (text_tokens_view xs.now)
        ≡ Ok (word_entries_view read.0.items, text_tokens_view read.1.now)) }
    ensures fault { IfErr result (IsReadFaultOf (word_entries (text_tokens_view xs.now))) }
{
    let mut entries = Vec::new(alloc);
    let mut left = Rest { terminals: xs };
    while let Some((kind, rest)) = first_kind(left.terminals) {
        let (entry, rest) = word_entry_of_kind(kind, rest)?;
        entries.push(entry)?;
        left = Rest { terminals: rest };
    }
    Ok((entries, left.terminals))
}

/// A text of words. It answers an `Ok` only where nothing else is left.
#[tactic(auto, unfolding(crate::specs::internal::Reading::words_text))]
pub(crate) fn words_text<'a, 'b>(
    alloc: Global,
    xs: &'b [TextToken<'a>],
) -> Answer<'a, 'b, WordsText<'a>>
    ensures ok { IfOk result (λ read. words_text (text_tokens_view xs.now) ≡ Ok (words_view read.0, text_tokens_view read.1.now)) }
    ensures fault { IfErr result (IsReadFaultOf (words_text (text_tokens_view xs.now))) }
{
    let (_, xs) = word(b"tslwords", xs)?;
    let (_, xs) = numeral(b"1", xs)?;
    let (_, xs) = word(b"bits", xs)?;
    let (bits, xs) = positive(xs)?;
    let (entries, xs) = word_entries(alloc, xs)?;
    let (_, xs) = at_end(xs)?;
    Ok((WordsText { bits, entries }, xs))
}
