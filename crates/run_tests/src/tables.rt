//! Texts and what they are read as.

ghost use Rattle.std.specs.Prelude.{◌≡◌, ◌∷◌, [], IfOk};
ghost use Rattle.tsl_terms.specs.declared.names.NameKind.TheVariants.{Signal};
ghost use Rattle.tsl_terms.specs.Name.{is_name};
ghost use Rattle.tsl_meaning.specs.Interpretation.{IsInterpretation, IsEqualityOf};

use base_library::Sequence;
use interp_core::Judge;
use std::alloc::Global;
use std::process::Abort;
use std::test::Fail;
use table_interp::{InputError, TableError, Tables, read_inputs, read_tables};
use tsl_meaning::InputLoop;
use tsl_terms::{NameKind, Names};

/// Texts of tables for the names x, y, f of two arguments, p and `?` of one, and the constant X, with the
/// cells y and x, and what they are read as.
const TABLES: &[(&[u8], &str)] = &[
    // the first argument is the most significant digit, and the order of the entries is free
    (
        b"tsltables 1 domain 2 func f 0 0 1 0 pred p 0 1 pred ? 1 0 func X 1 cell y 1 cell x 0",
        "Tables { domain: 2, tables: Sequence { items: [Sequence { items: [] }, Sequence { items: [] }, Sequence { items: [0, 0, 1, 0] }, \
            Sequence { items: [0, 1] }, Sequence { items: [1, 0] }, Sequence { items: [1] }] }, initial: {1: 1, 0: 0}, equality: None }",
    ),
    (
        b"tsltables 1\ndomain 0003 // three\ncell x 2 pred ? 1 0 1 pred p 0 0 0 /* a /* b */ */ cell y 01\nfunc X 2 func f 0 1 2 0 1 2 0 \
            1 2\n",
        "Tables { domain: 3, tables: Sequence { items: [Sequence { items: [] }, Sequence { items: [] }, \
            Sequence { items: [0, 1, 2, 0, 1, 2, 0, 1, 2] }, Sequence { items: [0, 0, 0] }, Sequence { items: [1, 0, 1] }, \
            Sequence { items: [2] }] }, initial: {1: 1, 0: 2}, equality: None }",
    ),
    (
        b"tsltables 1 domain 1 func f 0 pred p 1 pred ? 0 func X 0 cell y 0 cell x 0",
        "Tables { domain: 1, tables: Sequence { items: [Sequence { items: [] }, Sequence { items: [] }, Sequence { items: [0] }, \
            Sequence { items: [1] }, Sequence { items: [0] }, Sequence { items: [0] }] }, initial: {1: 0, 0: 0}, equality: None }",
    ),
    // bytes and comments
    (b"tsltables 1 domain 2 # func f", "Byte(21)"),
    (b"tsltables 1 domain 2 /* func # f", "OpenComment(21)"),
    (b"tsltables 1 # domain /* 2", "Byte(12)"),
    // the form
    (b"", "Form(0)"),
    (b"tslinputs 1 domain 2", "Form(0)"),
    (b"tsltables 01 domain 2", "Form(10)"),
    (b"tsltables 1 func", "Form(12)"),
    (b"tsltables 1 domain", "Form(18)"),
    (b"tsltables 1 domain 0 func f 0", "Form(19)"),
    (b"tsltables 1 domain 1234567890123456789", "Form(19)"),
    (b"tsltables 1 domain 2 3", "Form(21)"),
    (b"tsltables 1 domain = 2", "Form(19)"),
    (b"tsltables 1 domain 2 func f 0 1 cell ? 1", "Form(37)"),
    (b"tsltables 1 domain 2 func f 0 1 cell x x", "Form(39)"),
    (b"tsltables 1 domain 2 cell x 1 1 func f 0", "Form(30)"),
    (
        b"tsltables 1 domain 2 func f 0 1234567890123456789 1",
        "Form(30)",
    ),
    (b"tsltables 1 domain 2 func f 0 1 row 1", "Form(32)"),
    (b"tsltables 1 domain 2 func f 0 1 pred", "Form(36)"),
    // the domain comes before the names
    (b"tsltables 1 domain 257 func g 0", "Domain"),
    (b"tsltables 1 domain 999999999999999999", "Domain"),
    // an unknown name, or one of another kind, comes before an entry that stands twice
    (
        b"tsltables 1 domain 256 func f 0 func f 1 pred g 0 1 func h",
        "Unknown(46, 47)",
    ),
    (b"tsltables 1 domain 2 pred f 0", "Unknown(26, 27)"),
    (b"tsltables 1 domain 2 func x 0", "Unknown(26, 27)"),
    (b"tsltables 1 domain 2 func ? 0", "Unknown(26, 27)"),
    (b"tsltables 1 domain 2 cell X 0", "Unknown(26, 27)"),
    (b"tsltables 1 domain 2 func F 0", "Unknown(26, 27)"),
    (b"tsltables 1 domain 2 cell func 0", "Unknown(26, 30)"),
    (
        b"tsltables 1 domain 2 cell x 0 pred ? 1 func X 0 pred ? 0 cell x 1",
        "Twice(53, 54)",
    ),
    // what is missing goes by the order of the needed names
    (b"tsltables 1 domain 2 cell x 0 pred p 1", "Missing(2)"),
    (
        b"tsltables 1 domain 2 func f 0 pred ? 0 func X 9",
        "Missing(3)",
    ),
    (
        b"tsltables 1 domain 2 func f 0 pred p 0 pred ? 0 func X 9",
        "Missing(1)",
    ),
    (
        b"tsltables 1 domain 2 func f 0 pred p 0 pred ? 0 func X 9 cell y 9",
        "Missing(0)",
    ),
    // as many numbers as arguments ask for
    (
        b"tsltables 1 domain 2 cell y 9 cell x 9 func X pred ? 1 pred p 0 func f 0 0 1",
        "Count(2)",
    ),
    (
        b"tsltables 1 domain 2 cell y 9 cell x 9 func X pred ? 1 pred p 0 func f 0 0 1 9",
        "Count(3)",
    ),
    (
        b"tsltables 1 domain 2 cell y 9 cell x 9 func X pred ? 1 2 3 pred p 0 7 func f 0 0 1 9",
        "Count(4)",
    ),
    (
        b"tsltables 1 domain 2 cell y 9 cell x 9 func X pred ? 1 2 pred p 0 7 func f 0 0 1 9",
        "Count(5)",
    ),
    // values lie below the domain, and truths below 2
    (
        b"tsltables 1 domain 3 cell y 3 cell x 9 func X 3 pred ? 1 2 2 pred p 2 1 0 func f 0 1 2 0 3 4 0 1 2",
        "Range(2, 3)",
    ),
    (
        b"tsltables 1 domain 3 cell y 3 cell x 9 func X 3 pred ? 1 2 2 pred p 2 1 0 func f 0 1 2 0 1 2 0 1 2",
        "Range(3, 2)",
    ),
    (
        b"tsltables 1 domain 3 cell y 3 cell x 9 func X 3 pred ? 1 1 0 pred p 0 1 0 func f 0 1 2 0 1 2 0 1 2",
        "Range(5, 3)",
    ),
    (
        b"tsltables 1 domain 3 cell y 3 cell x 9 func X 2 pred ? 1 1 0 pred p 0 1 0 func f 0 1 2 0 1 2 0 1 2",
        "Range(1, 3)",
    ),
    (
        b"tsltables 1 domain 3 cell y 2 cell x 999999999999999999 func X 2 pred ? 1 1 0 pred p 0 1 0 func f 0 1 2 0 1 2 0 1 2",
        "Range(0, 999999999999999999)",
    ),
];

/// Texts of inputs for the inputs y and x over a domain of 3, and what they are read as.
const INPUTS: &[(&[u8], &str)] = &[
    (
        b"tslinputs 1 input x input y stem row 0 1 row 2 0 cycle row 1 2",
        "[1, 0] [0, 2] | [2, 1]",
    ),
    (
        b"tslinputs 1\ninput y // first\ninput x\nstem\ncycle\nrow 00 2\nrow 1 1\n",
        "| [0, 2] [1, 1]",
    ),
    (b"tslinputs 1 input x $ input y", "Byte(20)"),
    (b"tslinputs 1 input x /* input y $", "OpenComment(20)"),
    (b"tslinputs", "Form(9)"),
    (b"tslinputs 1 input x = y", "Form(20)"),
    (b"tsltables 1 stem cycle row", "Form(0)"),
    (b"tslinputs 2 stem cycle row", "Form(10)"),
    (b"tslinputs 1 input ? stem cycle row", "Form(18)"),
    (b"tslinputs 1 input x row 1 stem cycle row", "Form(20)"),
    (b"tslinputs 1 input x stem row 1 cycle", "Form(36)"),
    (b"tslinputs 1 input x stem row 1 cycle 1", "Form(37)"),
    (
        b"tslinputs 1 input x stem row 1 row 2 cell cycle row 2",
        "Form(37)",
    ),
    (b"tslinputs 1 input x stem cycle row 1 stem", "Form(37)"),
    (
        b"tslinputs 1 input x stem cycle row 1 1234567890123456789",
        "Form(37)",
    ),
    (
        b"tslinputs 1 input x input x input f input z stem cycle row",
        "Unknown(34, 35)",
    ),
    (b"tslinputs 1 input row stem cycle row", "Unknown(18, 21)"),
    (
        b"tslinputs 1 input x input y input y input x stem cycle row",
        "Twice(34, 35)",
    ),
    (b"tslinputs 1 input x stem cycle row", "Missing(1)"),
    (b"tslinputs 1 input y stem cycle row", "Missing(0)"),
    (
        b"tslinputs 1 input y input x stem row 0 1 row 9 cycle row row 1 2 3",
        "Count(1)",
    ),
    (
        b"tslinputs 1 input y input x stem row 0 1 row 9 9 cycle row 1 2 row 1 2 3",
        "Count(3)",
    ),
    (
        b"tslinputs 1 input y input x stem row 0 1 row 2 2 cycle row 1 2 row 3 4",
        "Range(3, 3)",
    ),
    (
        b"tslinputs 1 input x input y stem row 0 1 row 2 3 cycle row 9 9",
        "Range(1, 3)",
    ),
];

/// Whether the number is that of a signal.
pub(crate) fn is_signal(names: &Names, id: u32) -> bool
    ensures { result ≡ is_name names.now id Signal 0 }
{
    if id >= names.count() {
        return false;
    }
    match names.kind(id) {
        NameKind::Signal => names.arity(id) == 0,
        NameKind::Function | NameKind::Predicate => false,
    }
}

/// Adds a name where there is none of its text.
fn add(names: &mut Names, text: &[u8], kind: NameKind, arity: u32) -> Result<(), Fail> {
    if names.find(text).is_none() && names.count() < 1000 {
        names.add(text, kind, arity)?;
    }
    Ok(())
}

/// The signals x and y, f of two arguments, p and `?` of one, and the constant X.
fn some_names(alloc: Global) -> Result<Names, Fail> {
    let mut names = Names::new(alloc);
    add(&mut names, b"x", NameKind::Signal, 0)?;
    add(&mut names, b"y", NameKind::Signal, 0)?;
    add(&mut names, b"f", NameKind::Function, 2)?;
    add(&mut names, b"p", NameKind::Predicate, 1)?;
    add(&mut names, b"?", NameKind::Predicate, 1)?;
    add(&mut names, b"X", NameKind::Function, 0)?;
    Ok(names)
}

/// The tables of a text, or the refusal.
pub(crate) fn tables_read(
    rt: &impl Abort,
    alloc: Global,
    names: &Names,
    text: &[u8],
) -> Result<Tables, TableError>
    ensures cells { IfOk result (λ tables. tables.cells ≡ 1 ∷ 0 ∷ []) }
    ensures meaning { IfOk result (λ tables. IsInterpretation names.now (1 ∷ 0 ∷ []) tables.interpretation) }
    ensures equality { IfOk result (λ tables. IsEqualityOf names.now tables.equality) }
{
    assert!(rt; text.len() < 3_000_000);
    assert!(rt; is_signal(names, 1));
    assert!(rt; is_signal(names, 0));
    read_tables(alloc, text, names, &[1, 0])
}

/// The rows of a text, or the refusal.
fn inputs_read(
    rt: &impl Abort,
    alloc: Global,
    names: &Names,
    text: &[u8],
) -> Result<InputLoop<u32>, InputError> {
    assert!(rt; text.len() < 3_000_000);
    assert!(rt; is_signal(names, 1));
    assert!(rt; is_signal(names, 0));
    read_inputs(alloc, text, names, &[1, 0], 3)
}

/// The rows, each in brackets.
fn rows_told(alloc: Global, rows: &[Sequence<u32>]) -> Result<String, Fail> {
    let mut told = String::new(alloc);
    for row in rows {
        let row = row.as_slice();
        let text = format!(in alloc; "{row:?} ")?;
        told.push_str(text.as_str())?;
    }
    Ok(told)
}

/// The domain, the tables and the values at first of a text, or the refusal.
fn tables_told(rt: &impl Abort, alloc: Global, text: &[u8]) -> Result<String, Fail> {
    let names = some_names(alloc)?;
    match tables_read(rt, alloc, &names, text) {
        Ok(tables) => Ok(format!(in alloc; "{tables:?}")?),
        Err(error) => Ok(format!(in alloc; "{error:?}")?),
    }
}

/// The rows of a text, or the refusal.
fn inputs_told(rt: &impl Abort, alloc: Global, text: &[u8]) -> Result<String, Fail> {
    let names = some_names(alloc)?;
    match inputs_read(rt, alloc, &names, text) {
        Ok(rows) => {
            let stem = rows_told(alloc, rows.stem.as_slice())?;
            let cycle = rows_told(alloc, rows.cycle.as_slice())?;
            let told = format!(in alloc; "{stem}| {cycle}")?;
            Ok(String::from_str(alloc, told.trim())?)
        }
        Err(error) => Ok(format!(in alloc; "{error:?}")?),
    }
}

#[test]
fn tables_are_read_or_refused(rt: HostRuntime) -> Result<(), Fail> {
    for &(text, expected) in TABLES {
        assert_eq!(rt; tables_told(&rt, rt.alloc(), text)?.as_str(), expected);
    }
    Ok(())
}

#[test]
fn inputs_are_read_or_refused(rt: HostRuntime) -> Result<(), Fail> {
    for &(text, expected) in INPUTS {
        assert_eq!(rt; inputs_told(&rt, rt.alloc(), text)?.as_str(), expected);
    }
    Ok(())
}

/// The signals x and y, and a symbol of some arguments.
pub(crate) fn few_names(
    alloc: Global,
    symbol: &[u8],
    kind: NameKind,
    arity: u32,
) -> Result<Names, Fail> {
    let mut names = Names::new(alloc);
    add(&mut names, b"x", NameKind::Signal, 0)?;
    add(&mut names, b"y", NameKind::Signal, 0)?;
    add(&mut names, symbol, kind, arity)?;
    Ok(names)
}
