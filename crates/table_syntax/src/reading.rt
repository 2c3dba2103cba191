//! Reading terminals by the grammars.

ghost use Rattle.std.specs.Prelude.{◌≡◌, ◌≤◌, ◌<◌, length, map, Some, Ok, IsTrue, IfOk, IfErr, IfSome, IfNone};
ghost use Rattle.reader_combinators.specs.Readers.{taking, at_end};
ghost use Rattle.table_syntax.specs.internal.Reading.{
  word_at,
  numeral_at,
  name_at,
  symbol_at,
  positive_at,
  kind_at,
  first_kind,
  number_member,
  numbers,
  entry_of_kind,
  entries,
  tables_text,
  after_word,
  columns,
  rows,
  row,
  some_rows,
  inputs_text,
};
ghost use Rattle.tsl_terms.specs.declared.names.NameKind.TheVariants.{Signal};
ghost use Rattle.table_syntax.specs.Syntax.{number_at, has_table};
ghost use Rattle.table_syntax.specs.View.{
  text_token_view,
  text_tokens_view,
  entry_view,
  entries_view,
  numbers_view,
  tables_view,
  inputs_view,
};
ghost use Rattle.table_syntax.specs.internal.ReadFaults.{IsReadFaultOf};

use crate::text_tokens::{
    Rest, TextToken, is_name_token, is_numeral, is_symbol, is_word, number_at,
};
use base_library::NoMemory;
use std::alloc::{AllocFailed, Global};
use tsl_terms::NameKind;

/// The first fault, by how many terminals are left from the faulty one on, or out of memory.
#[derive(Drop)]
pub(crate) enum ReadFault {
    /// The grammar has no text that goes on with that terminal.
    Form(usize),
    /// Memory ran out.
    NoMemory,
}

impl From<NoMemory> for ReadFault {
    ghost use Rattle.table_syntax.specs.declared.reading.ReadFault.TheVariants.{NoMemory};

    ghost from_gives = { λ _ e. e ≡ NoMemory };

    fn from(_error: NoMemory) -> ReadFault {
        ReadFault::NoMemory
    }
}

impl<T: Drop> From<AllocFailed<T>> for ReadFault {
    ghost use Rattle.table_syntax.specs.declared.reading.ReadFault.TheVariants.{NoMemory};

    ghost from_gives = { λ _ e. e ≡ NoMemory };

    fn from(_error: AllocFailed<T>) -> ReadFault {
        ReadFault::NoMemory
    }
}

/// What was read and the terminals after it, or the first fault.
pub(crate) type Answer<'a, 'b, V> = Result<(V, &'b [TextToken<'a>]), ReadFault>;

/// An entry: what it is for (a signal is a cell), the name, and the numbers after it.
#[derive(Drop)]
pub struct Entry<'a> {
    /// What it is for.
    pub kind: NameKind,
    /// The name after its first word.
    pub name: TextToken<'a>,
    /// The numbers after that.
    pub numbers: Vec<u64>,
}

/// A text of tables.
#[derive(Drop)]
pub struct TablesText<'a> {
    /// How many values the domain has.
    pub domain: u64,
    /// The entries in their order.
    pub entries: Vec<Entry<'a>>,
}

/// A text of inputs: the names of the columns, and the rows of the stem and of the cycle.
#[derive(Drop)]
pub struct InputsText<'a> {
    /// The names of the columns.
    pub names: Vec<TextToken<'a>>,
    /// The rows of the stem.
    pub stem: Vec<Vec<u64>>,
    /// The rows of the cycle.
    pub cycle: Vec<Vec<u64>>,
}

/// The terminals after a name with these bytes.
#[tactic(auto, unfolding(reader_combinators::specs::Readers::taking))]
pub(crate) fn word<'a, 'b>(word: &[u8], xs: &'b [TextToken<'a>]) -> Answer<'a, 'b, ()>
    ensures ok { IfOk result (λ read. taking (word_at word.now) (text_tokens_view xs.now) ≡ Ok (tt, text_tokens_view read.1.now)) }
    ensures fault { IfErr result (IsReadFaultOf (taking (word_at word.now) (text_tokens_view xs.now))) }
    ensures shorter { IfOk result (λ read. length read.1.now < length xs.now) }
{
    match xs {
        [x, rest @ ..] => {
            if is_word(word, *x) {
                Ok(((), rest))
            } else {
                Err(ReadFault::Form(xs.len()))
            }
        }
        [] => Err(ReadFault::Form(0)),
    }
}

/// The terminals after a number with these digits.
#[tactic(auto, unfolding(reader_combinators::specs::Readers::taking))]
pub(crate) fn numeral<'a, 'b>(digits: &[u8], xs: &'b [TextToken<'a>]) -> Answer<'a, 'b, ()>
    ensures ok { IfOk result (λ read. taking (numeral_at digits.now) (text_tokens_view xs.now) ≡ Ok (tt, text_tokens_view read.1.now)) }
    ensures fault { IfErr result (IsReadFaultOf (taking (numeral_at digits.now) (text_tokens_view xs.now))) }
{
    match xs {
        [x, rest @ ..] => {
            if is_numeral(digits, *x) {
                Ok(((), rest))
            } else {
                Err(ReadFault::Form(xs.len()))
            }
        }
        [] => Err(ReadFault::Form(0)),
    }
}

/// A name.
#[tactic(auto, unfolding(reader_combinators::specs::Readers::taking))]
pub(crate) fn name<'a, 'b>(xs: &'b [TextToken<'a>]) -> Answer<'a, 'b, TextToken<'a>>
    ensures ok { IfOk result (λ read. taking name_at (text_tokens_view xs.now) ≡ Ok (text_token_view read.0, text_tokens_view read.1.now)) }
    ensures fault { IfErr result (IsReadFaultOf (taking name_at (text_tokens_view xs.now))) }
    ensures shorter { IfOk result (λ read. length read.1.now < length xs.now) }
{
    match xs {
        [x, rest @ ..] => {
            if is_name_token(*x) {
                Ok((*x, rest))
            } else {
                Err(ReadFault::Form(xs.len()))
            }
        }
        [] => Err(ReadFault::Form(0)),
    }
}

/// A name or `?`.
#[tactic(auto, unfolding(reader_combinators::specs::Readers::taking))]
pub(crate) fn symbol<'a, 'b>(xs: &'b [TextToken<'a>]) -> Answer<'a, 'b, TextToken<'a>>
    ensures ok { IfOk result (λ read. taking symbol_at (text_tokens_view xs.now)
        ≡ Ok (text_token_view read.0, text_tokens_view read.1.now)) }
    ensures fault { IfErr result (IsReadFaultOf (taking symbol_at (text_tokens_view xs.now))) }
    ensures shorter { IfOk result (λ read. length read.1.now < length xs.now) }
{
    match xs {
        [x, rest @ ..] => {
            if is_symbol(*x) {
                Ok((*x, rest))
            } else {
                Err(ReadFault::Form(xs.len()))
            }
        }
        [] => Err(ReadFault::Form(0)),
    }
}

/// A number of at most 18 digits.
#[tactic(auto, unfolding(reader_combinators::specs::Readers::taking))]
pub(crate) fn number<'a, 'b>(xs: &'b [TextToken<'a>]) -> Answer<'a, 'b, u64>
    ensures ok { IfOk result (λ read. taking number_at (text_tokens_view xs.now) ≡ Ok (read.0, text_tokens_view read.1.now)) }
    ensures fault { IfErr result (IsReadFaultOf (taking number_at (text_tokens_view xs.now))) }
    ensures shorter { IfOk result (λ read. length read.1.now < length xs.now) }
{
    match xs {
        [x, rest @ ..] => match number_at(*x) {
            Some(value) => Ok((value, rest)),
            None => Err(ReadFault::Form(xs.len())),
        },
        [] => Err(ReadFault::Form(0)),
    }
}

/// What a number means, where it is not 0.
fn positive_at(x: TextToken) -> Option<u64>
    ensures { result ≡ positive_at (text_token_view x.entry) }
{
    match number_at(x) {
        Some(0) => None,
        value => value,
    }
}

/// A number of at most 18 digits from 1 on.
#[tactic(auto, unfolding(reader_combinators::specs::Readers::taking))]
pub(crate) fn positive<'a, 'b>(xs: &'b [TextToken<'a>]) -> Answer<'a, 'b, u64>
    ensures ok { IfOk result (λ read. taking positive_at (text_tokens_view xs.now) ≡ Ok (read.0, text_tokens_view read.1.now)) }
    ensures fault { IfErr result (IsReadFaultOf (taking positive_at (text_tokens_view xs.now))) }
{
    match xs {
        [x, rest @ ..] => match positive_at(*x) {
            Some(value) => Ok((value, rest)),
            None => Err(ReadFault::Form(xs.len())),
        },
        [] => Err(ReadFault::Form(0)),
    }
}

/// What an entry with this first word is for.
fn kind_at(x: TextToken) -> Option<NameKind>
    ensures { result ≡ kind_at (text_token_view x.entry) }
{
    if is_word(b"func", x) {
        Some(NameKind::Function)
    } else if is_word(b"pred", x) {
        Some(NameKind::Predicate)
    } else if is_word(b"cell", x) {
        Some(NameKind::Signal)
    } else {
        None
    }
}

/// What the entry at the front is for and the terminals after its first word, where one begins.
pub(crate) fn first_kind<'a, 'b>(xs: &'b [TextToken<'a>]) -> Option<(NameKind, &'b [TextToken<'a>])>
    ensures some { IfSome result (λ read. first_kind (text_tokens_view xs.now) ≡ Some (read.0, text_tokens_view read.1.now)) }
    ensures none { IfNone result (first_kind (text_tokens_view xs.now) ≡ None) }
    ensures shorter { IfSome result (λ read. length read.1.now < length xs.now) }
{
    match xs {
        [x, rest @ ..] => match kind_at(*x) {
            Some(kind) => Some((kind, rest)),
            None => None,
        },
        [] => None,
    }
}

/// The number at the front, where one is.
fn first_number<'a, 'b>(xs: &'b [TextToken<'a>]) -> Option<(u64, &'b [TextToken<'a>])>
    ensures some { IfSome result (λ read. number_member (text_tokens_view xs.now) ≡ Some (Ok (read.0, text_tokens_view read.1.now))) }
    ensures none { IfNone result (number_member (text_tokens_view xs.now) ≡ None) }
    ensures shorter { IfSome result (λ read. length read.1.now < length xs.now) }
{
    match xs {
        [x, rest @ ..] => match number_at(*x) {
            Some(value) => Some((value, rest)),
            None => None,
        },
        [] => None,
    }
}

/// The numbers at the front.
#[tactic(auto, unfolding(crate::specs::internal::Reading::numbers))]
fn numbers<'a, 'b>(
    alloc: Global,
    xs: &'b [TextToken<'a>],
) -> Result<(Vec<u64>, &'b [TextToken<'a>]), NoMemory>
    ensures ok { IfOk result (λ read. numbers (text_tokens_view xs.now) ≡ Ok (read.0.items, text_tokens_view read.1.now)) }
    ensures shorter { IfOk result (λ read. length read.1.now ≤ length xs.now) }
{
    let mut numbers = Vec::new(alloc);
    let mut left = Rest { terminals: xs };
    while let Some((number, rest)) = first_number(left.terminals) {
        numbers.push(number)?;
        left = Rest { terminals: rest };
    }
    Ok((numbers, left.terminals))
}

/// The entry of a cell after its first word.
#[tactic(auto, unfolding(crate::specs::internal::Reading::entry_of_kind))]
fn cell<'a, 'b>(alloc: Global, xs: &'b [TextToken<'a>]) -> Answer<'a, 'b, Entry<'a>>
    ensures ok { IfOk result (λ read. entry_of_kind Signal (text_tokens_view xs.now)
        ≡ Ok (entry_view read.0, text_tokens_view read.1.now)) }
    ensures fault { IfErr result (IsReadFaultOf (entry_of_kind Signal (text_tokens_view xs.now))) }
    ensures shorter { IfOk result (λ read. length read.1.now < length xs.now) }
{
    let (name, xs) = name(xs)?;
    let (value, xs) = number(xs)?;
    let entry = Entry {
        kind: NameKind::Signal,
        name,
        numbers: vec![in alloc; value]?,
    };
    Ok((entry, xs))
}

/// The entry of a function or a predicate after its first word.
#[tactic(auto, unfolding(crate::specs::internal::Reading::entry_of_kind))]
fn table<'a, 'b>(
    alloc: Global,
    kind: NameKind,
    xs: &'b [TextToken<'a>],
) -> Answer<'a, 'b, Entry<'a>>
    requires { IsTrue (has_table kind) }
    ensures ok { IfOk result (λ read. entry_of_kind kind (text_tokens_view xs.now)
        ≡ Ok (entry_view read.0, text_tokens_view read.1.now)) }
    ensures fault { IfErr result (IsReadFaultOf (entry_of_kind kind (text_tokens_view xs.now))) }
    ensures shorter { IfOk result (λ read. length read.1.now < length xs.now) }
{
    let (name, xs) = symbol(xs)?;
    let (numbers, xs) = numbers(alloc, xs)?;
    let entry = Entry {
        kind,
        name,
        numbers,
    };
    Ok((entry, xs))
}

/// An entry after its first word.
fn entry_of_kind<'a, 'b>(
    alloc: Global,
    kind: NameKind,
    xs: &'b [TextToken<'a>],
) -> Answer<'a, 'b, Entry<'a>>
    ensures ok { IfOk result (λ read. entry_of_kind kind (text_tokens_view xs.now)
        ≡ Ok (entry_view read.0, text_tokens_view read.1.now)) }
    ensures fault { IfErr result (IsReadFaultOf (entry_of_kind kind (text_tokens_view xs.now))) }
    ensures shorter { IfOk result (λ read. length read.1.now < length xs.now) }
{
    match kind {
        NameKind::Signal => cell(alloc, xs),
        NameKind::Function | NameKind::Predicate => table(alloc, kind, xs),
    }
}

/// The entries at the front.
#[tactic(auto, unfolding(crate::specs::internal::Reading::entries))]
fn entries<'a, 'b>(alloc: Global, xs: &'b [TextToken<'a>]) -> Answer<'a, 'b, Vec<Entry<'a>>>
    ensures ok { IfOk result (λ read. entries (text_tokens_view xs.now) ≡ Ok (entries_view read.0.items, text_tokens_view read.1.now)) }
    ensures fault { IfErr result (IsReadFaultOf (entries (text_tokens_view xs.now))) }
{
    let mut entries = Vec::new(alloc);
    let mut left = Rest { terminals: xs };
    while let Some((kind, rest)) = first_kind(left.terminals) {
        let (entry, rest) = entry_of_kind(alloc, kind, rest)?;
        entries.push(entry)?;
        left = Rest { terminals: rest };
    }
    Ok((entries, left.terminals))
}

/// Nothing more.
#[tactic(auto, unfolding(reader_combinators::specs::Readers::at_end))]
pub(crate) fn at_end<'a, 'b>(xs: &'b [TextToken<'a>]) -> Answer<'a, 'b, ()>
    ensures ok { IfOk result (λ read. at_end (text_tokens_view xs.now) ≡ Ok (tt, text_tokens_view read.1.now)) }
    ensures fault { IfErr result (IsReadFaultOf (at_end (text_tokens_view xs.now))) }
{
    match xs {
        [] => Ok(((), xs)),
        [_, ..] => Err(ReadFault::Form(xs.len())),
    }
}

/// A text of tables. It answers an `Ok` only where nothing else is left.
#[tactic(auto, unfolding(crate::specs::internal::Reading::tables_text))]
pub(crate) fn tables_text<'a, 'b>(
    alloc: Global,
    xs: &'b [TextToken<'a>],
) -> Answer<'a, 'b, TablesText<'a>>
    ensures ok { IfOk result (λ read. tables_text (text_tokens_view xs.now) ≡ Ok (tables_view read.0, text_tokens_view read.1.now)) }
    ensures fault { IfErr result (IsReadFaultOf (tables_text (text_tokens_view xs.now))) }
{
    let (_, xs) = word(b"tsltables", xs)?;
    let (_, xs) = numeral(b"1", xs)?;
    let (_, xs) = word(b"domain", xs)?;
    let (domain, xs) = positive(xs)?;
    let (entries, xs) = entries(alloc, xs)?;
    let (_, xs) = at_end(xs)?;
    Ok((TablesText { domain, entries }, xs))
}

/// The terminals after a name with these bytes at the front, where it is there.
fn after_word<'a, 'b>(word: &[u8], xs: &'b [TextToken<'a>]) -> Option<&'b [TextToken<'a>]>
    ensures some { IfSome result (λ rest. after_word word.now (text_tokens_view xs.now) ≡ Some (text_tokens_view rest.now)) }
    ensures none { IfNone result (after_word word.now (text_tokens_view xs.now) ≡ None) }
    ensures shorter { IfSome result (λ rest. length rest.now < length xs.now) }
{
    match xs {
        [x, rest @ ..] => { if is_word(word, *x) { Some(rest) } else { None } }
        [] => None,
    }
}

/// The columns at the front.
#[tactic(auto, unfolding(crate::specs::internal::Reading::columns))]
fn columns<'a, 'b>(alloc: Global, xs: &'b [TextToken<'a>]) -> Answer<'a, 'b, Vec<TextToken<'a>>>
    ensures ok { IfOk result (λ read. columns (text_tokens_view xs.now) ≡ Ok (text_tokens_view read.0.items, text_tokens_view read.1.now)) }
    ensures fault { IfErr result (IsReadFaultOf (columns (text_tokens_view xs.now))) }
{
    let mut columns = Vec::new(alloc);
    let mut left = Rest { terminals: xs };
    while let Some(rest) = after_word(b"input", left.terminals) {
        let (column, rest) = name(rest)?;
        columns.push(column)?;
        left = Rest { terminals: rest };
    }
    Ok((columns, left.terminals))
}

/// The rows at the front.
#[tactic(auto, unfolding(crate::specs::internal::Reading::rows))]
fn rows<'a, 'b>(
    alloc: Global,
    xs: &'b [TextToken<'a>],
) -> Result<(Vec<Vec<u64>>, &'b [TextToken<'a>]), NoMemory>
    ensures { IfOk result (λ read. rows (text_tokens_view xs.now) ≡ Ok (numbers_view read.0.items, text_tokens_view read.1.now)) }
{
    let mut rows = Vec::new(alloc);
    let mut left = Rest { terminals: xs };
    while let Some(rest) = after_word(b"row", left.terminals) {
        let (row, rest) = numbers(alloc, rest)?;
        rows.push(row)?;
        left = Rest { terminals: rest };
    }
    Ok((rows, left.terminals))
}

/// A row.
#[tactic(auto, unfolding(crate::specs::internal::Reading::row))]
fn row<'a, 'b>(alloc: Global, xs: &'b [TextToken<'a>]) -> Answer<'a, 'b, Vec<u64>>
    ensures ok { IfOk result (λ read. row (text_tokens_view xs.now) ≡ Ok (read.0.items, text_tokens_view read.1.now)) }
    ensures fault { IfErr result (IsReadFaultOf (row (text_tokens_view xs.now))) }
    ensures shorter { IfOk result (λ read. length read.1.now < length xs.now) }
{
    let (_, xs) = word(b"row", xs)?;
    let (row, xs) = numbers(alloc, xs)?;
    Ok((row, xs))
}

/// A row and further rows.
#[tactic(auto, unfolding(crate::specs::internal::Reading::some_rows))]
fn some_rows<'a, 'b>(alloc: Global, xs: &'b [TextToken<'a>]) -> Answer<'a, 'b, Vec<Vec<u64>>>
    ensures ok { IfOk result (λ read. some_rows (text_tokens_view xs.now)
        ≡ Ok (numbers_view read.0.items, text_tokens_view read.1.now)) }
    ensures fault { IfErr result (IsReadFaultOf (some_rows (text_tokens_view xs.now))) }
{
    let (first, xs) = row(alloc, xs)?;
    let (mut rows, xs) = rows(alloc, xs)?;
    rows.insert(0, first)?;
    Ok((rows, xs))
}

/// A text of inputs. It answers an `Ok` only where nothing else is left.
#[tactic(auto, unfolding(crate::specs::internal::Reading::inputs_text))]
pub(crate) fn inputs_text<'a, 'b>(
    alloc: Global,
    xs: &'b [TextToken<'a>],
) -> Answer<'a, 'b, InputsText<'a>>
    ensures ok { IfOk result (λ read. inputs_text (text_tokens_view xs.now) ≡ Ok (inputs_view read.0, text_tokens_view read.1.now)) }
    ensures fault { IfErr result (IsReadFaultOf (inputs_text (text_tokens_view xs.now))) }
{
    let (_, xs) = word(b"tslinputs", xs)?;
    let (_, xs) = numeral(b"1", xs)?;
    let (names, xs) = columns(alloc, xs)?;
    let (_, xs) = word(b"stem", xs)?;
    let (stem, xs) = rows(alloc, xs)?;
    let (_, xs) = word(b"cycle", xs)?;
    let (cycle, xs) = some_rows(alloc, xs)?;
    let (_, xs) = at_end(xs)?;
    Ok((InputsText { names, stem, cycle }, xs))
}
