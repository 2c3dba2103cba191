//! Words beside tables with the same entries.

ghost use Rattle.std.specs.Prelude.{◌≡◌, ◌∷◌, [], IfOk};
ghost use Rattle.tsl_terms.specs.Name.{is_name};
ghost use Rattle.tsl_meaning.specs.Interpretation.{IsInterpretation, IsEqualityOf};

use crate::tables::{few_names, is_signal, tables_read};
use interp_core::{Algebra, Judge};
use std::alloc::Global;
use std::process::Abort;
use std::test::Fail;
use table_interp::Tables;
use tsl_terms::{NameKind, Names};
use word_interp::{WordError, Words, read_words};

/// Operations and tests, and how many arguments they take.
const SYMBOLS: &[(NameKind, &str, u32)] = &[
    (NameKind::Function, "add", 2),
    (NameKind::Function, "sub", 2),
    (NameKind::Function, "mul", 2),
    (NameKind::Function, "and", 2),
    (NameKind::Function, "or", 2),
    (NameKind::Function, "xor", 2),
    (NameKind::Function, "not", 1),
    (NameKind::Function, "inc", 1),
    (NameKind::Function, "dec", 1),
    (NameKind::Function, "shl", 1),
    (NameKind::Function, "shr", 1),
    (NameKind::Function, "const 0", 0),
    (NameKind::Function, "const 1", 0),
    (NameKind::Predicate, "less", 2),
    (NameKind::Predicate, "atmost", 2),
    (NameKind::Predicate, "zero", 1),
    (NameKind::Predicate, "odd", 1),
    (NameKind::Predicate, "nonzero", 1),
];

/// Numbers of bits, and how many words have so many.
const WIDTHS: &[(u32, u32)] = &[(1, 2), (2, 4), (3, 8), (4, 16)];

/// What an operation gives on numbers of 32 bits, or 1 where a test holds of them.
fn wide_value(word: &str, x: u32, y: u32) -> u32 {
    match word {
        "add" => x.wrapping_add(y),
        "sub" => x.wrapping_sub(y),
        "mul" => x.wrapping_mul(y),
        "and" => x & y,
        "or" => x | y,
        "xor" => x ^ y,
        "not" => !x,
        "inc" => x.wrapping_add(1),
        "dec" => x.wrapping_sub(1),
        "shl" => x.wrapping_add(x),
        "shr" => x / 2,
        "const 1" => 1,
        "less" => u32::from(x < y),
        "atmost" => u32::from(x <= y),
        "zero" => u32::from(x == 0),
        "odd" => x % 2,
        "nonzero" => u32::from(x != 0),
        _ => 0,
    }
}

/// Adds the entries for a first argument, and for so many second ones.
fn push_entries(
    alloc: Global,
    text: &mut String,
    word: &str,
    domain: u32,
    x: u32,
    seconds: u32,
) -> Result<(), Fail> {
    for y in 0..seconds {
        let value = wide_value(word, x, y).checked_rem(domain).unwrap_or(0);
        let entry = format!(in alloc; " {value}")?;
        text.push_str(entry.as_str())?;
    }
    Ok(())
}

/// How an entry for a name of this kind begins.
fn entry_word(kind: NameKind) -> &'static str {
    match kind {
        NameKind::Predicate => "pred",
        NameKind::Function | NameKind::Signal => "func",
    }
}

/// The text of tables with the entries that an operation or a test has over so many words.
fn text_of_tables(
    alloc: Global,
    kind: NameKind,
    word: &str,
    arity: u32,
    domain: u32,
) -> Result<String, Fail> {
    let entry = entry_word(kind);
    let mut text = format!(in alloc; "tsltables 1 domain {domain} cell x 0 cell y 1 {entry} f")?;
    let firsts = if arity > 0 { domain } else { 1 };
    let seconds = if arity > 1 { domain } else { 1 };
    for x in 0..firsts {
        push_entries(alloc, &mut text, word, domain, x, seconds)?;
    }
    Ok(text)
}

/// The words of a text, or the refusal.
fn words_read(
    rt: &impl Abort,
    alloc: Global,
    names: &Names,
    text: &[u8],
) -> Result<Words, WordError>
    ensures cells { IfOk result (λ words. words.cells ≡ 1 ∷ 0 ∷ []) }
    ensures meaning { IfOk result (λ words. IsInterpretation names.now (1 ∷ 0 ∷ []) words.interpretation) }
    ensures equality { IfOk result (λ words. IsEqualityOf names.now words.equality) }
{
    assert!(rt; text.len() < 3_000_000);
    assert!(rt; is_signal(names, 1));
    assert!(rt; is_signal(names, 0));
    read_words(alloc, text, names, &[1, 0])
}

/// Whether the name with number 2 is of a kind and takes so many arguments.
fn is_symbol(names: &Names, kind: NameKind, arity: usize) -> bool
    ensures { result ≡ is_name names.now 2 kind arity }
{
    names.count() > 2 && names.kind(2) == kind && names.arity(2) as usize == arity
}

/// The value of the name with number 2 over words, or its truth as 0 or 1.
#[tactic(auto, using(crate::proofs::WordValues::value_there, crate::proofs::WordValues::truth_there))]
fn word_value(alloc: Global, names: &Names, words: &Words, arguments: &[u32]) -> Result<u32, Fail>
    requires meaning { IsInterpretation names.now (1 ∷ 0 ∷ []) words.now.interpretation }
    requires equality { IsEqualityOf names.now words.now.equality }
{
    if is_symbol(names, NameKind::Function, arguments.len()) {
        return Ok(words.apply(alloc, 2, arguments)?);
    }
    if words.equality().is_none() && is_symbol(names, NameKind::Predicate, arguments.len()) {
        return Ok(u32::from(words.test(2, arguments)));
    }
    Err("no name takes so many arguments".into())
}

/// The value of the name with number 2 over tables, or its truth as 0 or 1.
#[tactic(auto, using(crate::proofs::WordValues::value_there, crate::proofs::WordValues::truth_there))]
fn table_value(
    alloc: Global,
    names: &Names,
    tables: &Tables,
    arguments: &[u32],
) -> Result<u32, Fail>
    requires meaning { IsInterpretation names.now (1 ∷ 0 ∷ []) tables.now.interpretation }
    requires equality { IsEqualityOf names.now tables.now.equality }
{
    if is_symbol(names, NameKind::Function, arguments.len()) {
        return Ok(tables.apply(alloc, 2, arguments)?);
    }
    if tables.equality().is_none() && is_symbol(names, NameKind::Predicate, arguments.len()) {
        return Ok(u32::from(tables.test(2, arguments)));
    }
    Err("no name takes so many arguments".into())
}

/// Whether the name with number 2 has the same values over both, at a first argument and all second ones.
fn are_same_at(
    alloc: Global,
    names: &Names,
    words: &Words,
    tables: &Tables,
    x: u32,
    arity: usize,
) -> Result<bool, Fail>
    requires words { IsInterpretation names.now (1 ∷ 0 ∷ []) words.now.interpretation }
    requires word_equality { IsEqualityOf names.now words.now.equality }
    requires tables { IsInterpretation names.now (1 ∷ 0 ∷ []) tables.now.interpretation }
    requires table_equality { IsEqualityOf names.now tables.now.equality }
{
    for y in 0..words.domain() {
        let arguments = [x, y];
        let arguments = &arguments[..arity.min(2)];
        let value = word_value(alloc, names, words, arguments)?;
        if value != table_value(alloc, names, tables, arguments)? {
            return Ok(false);
        }
    }
    Ok(true)
}

/// Whether it has the same values over both, at all arguments.
fn are_same(
    alloc: Global,
    names: &Names,
    words: &Words,
    tables: &Tables,
    arity: usize,
) -> Result<bool, Fail>
    requires words { IsInterpretation names.now (1 ∷ 0 ∷ []) words.now.interpretation }
    requires word_equality { IsEqualityOf names.now words.now.equality }
    requires tables { IsInterpretation names.now (1 ∷ 0 ∷ []) tables.now.interpretation }
    requires table_equality { IsEqualityOf names.now tables.now.equality }
{
    for x in 0..words.domain() {
        if !are_same_at(alloc, names, words, tables, x, arity)? {
            return Ok(false);
        }
    }
    Ok(true)
}

/// Whether an operation or a test has the same values over words of so many bits as over the tables of its entries.
fn agrees(
    rt: &impl Abort,
    alloc: Global,
    kind: NameKind,
    word: &str,
    arity: u32,
    bits: u32,
    domain: u32,
) -> Result<bool, Fail> {
    let names = few_names(alloc, b"f", kind, arity)?;
    let entry = entry_word(kind);
    let text = format!(in alloc; "tslwords 1 bits {bits} cell x 0 cell y 1 {entry} f {word}")?;
    let words = words_read(rt, alloc, &names, text.as_bytes()).expect(rt, "the words are read");
    let text = text_of_tables(alloc, kind, word, arity, domain)?;
    let tables = tables_read(rt, alloc, &names, text.as_bytes()).expect(rt, "the tables are read");
    if words.domain() != domain {
        return Ok(false);
    }
    are_same(alloc, &names, &words, &tables, arity as usize)
}

#[test]
fn words_have_the_values_of_tables_with_their_entries(rt: HostRuntime) -> Result<(), Fail> {
    for &(bits, domain) in WIDTHS {
        for &(kind, word, arity) in SYMBOLS {
            assert!(rt; agrees(&rt, rt.alloc(), kind, word, arity, bits, domain)?);
        }
    }
    Ok(())
}
