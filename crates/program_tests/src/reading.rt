//! Program texts that are read, and those that are refused.

ghost use Rattle.std.specs.Prelude.{IsTrue, IfOk};
ghost use Rattle.std.specs.List.{list_all};
ghost use Rattle.tsl_terms.specs.WellFormed.{name_fits};
ghost use Rattle.program_tree.specs.ProgramView.{program_tree};
ghost use Rattle.program_tree.specs.Writable.{IsWritable};

use flow_program::{Program, ProgramError, read_program, write_program};
use spec_values::names_told;
use std::alloc::Global;
use std::process::Abort;
use std::test::Fail;
use tsl_terms::Names;

/// The lines of a program.
const LINES: &[&[u8]] = &[
    b"tslprogram 1",
    b"input x",
    b"cell c",
    b"cell d",
    b"output y",
    b"window p x at 0 is p c at 1 when [c <- x] at 0",
    b"node 0 set [c <- x] [d <- c] [y <- f x] go 1",
    b"node 1 if p c then 0 else 0",
    b"node 2 set [c <- c] [d <- d] [y <- x] go 0",
    b"node 3 if x then 2 else 1",
    b"state 0 at 3",
    b"state 1 at 1",
    b"end",
];

/// Two lines by their numbers, what stands in their place, and the refusal, or `read`.
const CHANGED: &[((usize, &[u8]), (usize, &[u8]), &str)] = &[
    // a test goes on at nodes with smaller numbers
    ((8, b"node 1 if p c then 1 else 0"), (0, b""), "Order(8)"),
    ((8, b"node 1 if p c then 0 else 1"), (0, b""), "Order(8)"),
    ((10, b"node 3 if x then 4 else 3"), (0, b""), "Order(10)"),
    (
        (8, b"node 1 if p c then 7 else 0"),
        (10, b"node 3 if x then 3 else 3"),
        "Order(8)",
    ),
    // an assignment goes to a state, and a state begins at a node
    (
        (7, b"node 0 set [c <- x] [d <- c] [y <- f x] go 2"),
        (0, b""),
        "Target(7)",
    ),
    (
        (9, b"node 2 set [c <- c] [d <- d] [y <- x] go 99"),
        (0, b""),
        "Target(9)",
    ),
    ((11, b"state 0 at 4"), (0, b""), "Target(11)"),
    ((12, b"state 1 at 18"), (0, b""), "Target(12)"),
    (
        (11, b"state 0 at 4"),
        (9, b"node 2 set [c <- c] [d <- d] [y <- x] go 2"),
        "Target(9)",
    ),
    // an assignment updates the cells and then the outputs, in order
    (
        (9, b"node 2 set [d <- d] [c <- c] [y <- x] go 0"),
        (0, b""),
        "Updates(9)",
    ),
    (
        (9, b"node 2 set [c <- c] [d <- d] go 0"),
        (0, b""),
        "Updates(9)",
    ),
    (
        (9, b"node 2 set [c <- c] [d <- d] [y <- x] [y <- x] go 0"),
        (0, b""),
        "Updates(9)",
    ),
    (
        (9, b"node 2 set [c <- c] [d <- d] [x <- x] go 0"),
        (0, b""),
        "Updates(9)",
    ),
    ((7, b"node 0 set go 1"), (0, b""), "Updates(7)"),
    // a window is no longer than 3, and its left test stands within it
    (
        (6, b"window p x at 0 is p c at 3 when [c <- x] at 0"),
        (0, b""),
        "read",
    ),
    (
        (6, b"window p x at 0 is p c at 4 when [c <- x] at 0"),
        (0, b""),
        "Window(6)",
    ),
    (
        (6, b"window p x at 1 is p c at 1 when [c <- x] at 0"),
        (0, b""),
        "read",
    ),
    (
        (6, b"window p x at 2 is p c at 1 when [c <- x] at 0"),
        (0, b""),
        "Window(6)",
    ),
    ((6, b"window p x at 0 is p c at 0"), (0, b""), "read"),
    // its updates are of cells, at steps before the last
    (
        (6, b"window p x at 0 is p c at 1 when [c <- x] at 1"),
        (0, b""),
        "Window(6)",
    ),
    (
        (6, b"window p x at 0 is p c at 1 when [x <- x] at 0"),
        (0, b""),
        "Window(6)",
    ),
    (
        (6, b"window p x at 0 is p c at 1 when [y <- x] at 0"),
        (0, b""),
        "Window(6)",
    ),
    // they rise by their step, and then by their cell
    (
        (
            6,
            b"window p x at 3 is p c at 3 when [c <- x] at 0 when [d <- x] at 0 when [c <- c] at 2",
        ),
        (0, b""),
        "read",
    ),
    (
        (
            6,
            b"window p x at 0 is p c at 3 when [c <- x] at 1 when [d <- x] at 0",
        ),
        (0, b""),
        "Window(6)",
    ),
    (
        (
            6,
            b"window p x at 0 is p c at 3 when [d <- x] at 0 when [c <- x] at 0",
        ),
        (0, b""),
        "Window(6)",
    ),
    (
        (
            6,
            b"window p x at 0 is p c at 3 when [c <- x] at 0 when [c <- c] at 0",
        ),
        (0, b""),
        "Window(6)",
    ),
    // its equalities are of two arguments, at steps up to the last
    (
        (6, b"window p x at 0 is p c at 0 when eq x c at 0"),
        (0, b""),
        "read",
    ),
    (
        (6, b"window p x at 0 is p c at 0 when p x at 0"),
        (0, b""),
        "Window(6)",
    ),
    (
        (6, b"window p x at 0 is p c at 0 when eq x at 0"),
        (0, b""),
        "Window(6)",
    ),
    (
        (6, b"window p x at 0 is p c at 0 when eq x c c at 0"),
        (0, b""),
        "Window(6)",
    ),
    (
        (6, b"window p x at 0 is p c at 0 when eq() at 0"),
        (0, b""),
        "Window(6)",
    ),
    (
        (6, b"window p x at 0 is p c at 0 when x at 0"),
        (0, b""),
        "Window(6)",
    ),
    (
        (
            6,
            b"window p x at 0 is p c at 1 when [c <- f x] at 0 when eq x (f c) at 1",
        ),
        (0, b""),
        "read",
    ),
    (
        (6, b"window p x at 0 is p c at 0 when eq x c at 1"),
        (0, b""),
        "Window(6)",
    ),
    // and so is what stands after `true`
    ((6, b"window true is eq x c at 3"), (0, b""), "read"),
    (
        (
            6,
            b"window true is eq x c at 1 when [c <- x] at 0 when eq x c at 0",
        ),
        (0, b""),
        "read",
    ),
    ((6, b"window true is eq x c at 4"), (0, b""), "Window(6)"),
    ((6, b"window true is p x at 0"), (0, b""), "Window(6)"),
    ((6, b"window true is eq x at 0"), (0, b""), "Window(6)"),
    ((6, b"window true is x at 0"), (0, b""), "Window(6)"),
    // their steps do not fall, and none stands twice at one step
    (
        (
            6,
            b"window true is eq x c at 1 when eq d c at 0 when eq c d at 0 when eq d c at 1",
        ),
        (0, b""),
        "read",
    ),
    (
        (
            6,
            b"window true is eq x c at 1 when eq d c at 1 when eq c d at 0",
        ),
        (0, b""),
        "Window(6)",
    ),
    (
        (
            6,
            b"window true is eq x c at 1 when eq d c at 0 when eq d c at 0",
        ),
        (0, b""),
        "Window(6)",
    ),
    (
        (
            6,
            b"window true is eq x c at 1 when eq d c at 0 when eq c d at 0 when eq d c at 0",
        ),
        (0, b""),
        "Window(6)",
    ),
    // they stand after the updates
    (
        (
            6,
            b"window true is eq x c at 1 when eq d c at 0 when [c <- x] at 0",
        ),
        (0, b""),
        "Form(6)",
    ),
    ((6, b"window true at 0 is eq x c at 1"), (0, b""), "Form(6)"),
    // a term and a test read inputs and cells
    (
        (9, b"node 2 set [c <- y] [d <- d] [y <- x] go 0"),
        (0, b""),
        "Unknown(9, Name { start: 181, end: 182 })",
    ),
    (
        (9, b"node 2 set [c <- c] [d <- d] [y <- f (f z)] go 0"),
        (0, b""),
        "Unknown(9, Name { start: 204, end: 205 })",
    ),
    (
        (8, b"node 1 if z then 0 else 0"),
        (0, b""),
        "Unknown(8, Name { start: 146, end: 147 })",
    ),
    (
        (6, b"window z at 0 is p c at 1 when [c <- x] at 0"),
        (0, b""),
        "Unknown(6, Name { start: 51, end: 52 })",
    ),
    (
        (6, b"window p x at 0 is p c at 1 when [c <- y] at 0"),
        (0, b""),
        "Unknown(6, Name { start: 83, end: 84 })",
    ),
    // a function alone is read as a signal
    (
        (6, b"window true is eq x c at 0 when eq x y at 0"),
        (0, b""),
        "Unknown(6, Name { start: 81, end: 82 })",
    ),
    (
        (9, b"node 2 set [c <- f] [d <- d] [y <- x] go 0"),
        (0, b""),
        "Unknown(9, Name { start: 181, end: 182 })",
    ),
    // a name is used in one kind
    (
        (8, b"node 1 if f c then 0 else 0"),
        (0, b""),
        "Kind(8, Name { start: 146, end: 147 })",
    ),
    (
        (9, b"node 2 set [c <- c x] [d <- d] [y <- x] go 0"),
        (0, b""),
        "Kind(9, Name { start: 181, end: 182 })",
    ),
    (
        (9, b"node 2 set [c <- p x] [d <- d] [y <- x] go 0"),
        (0, b""),
        "Kind(9, Name { start: 181, end: 182 })",
    ),
    // and with one number of arguments
    (
        (8, b"node 1 if p c c then 0 else 0"),
        (0, b""),
        "Arity(8, Name { start: 146, end: 147 })",
    ),
    (
        (9, b"node 2 set [c <- f x c] [d <- d] [y <- f x] go 0"),
        (0, b""),
        "Arity(9, Name { start: 181, end: 182 })",
    ),
    (
        (9, b"node 2 set [c <- f ()] [d <- d] [y <- f x] go 0"),
        (0, b""),
        "Form(9)",
    ),
    (
        (9, b"node 2 set [c <- f()] [d <- d] [y <- f x] go 0"),
        (0, b""),
        "Arity(9, Name { start: 181, end: 182 })",
    ),
    // each rule goes over the whole text before the next
    (
        (8, b"node 1 if p c then 1 else 0"),
        (7, b"node 0 set [c <- x] [d <- c] [y <- f x] go 2"),
        "Order(8)",
    ),
    ((12, b"state 1 at 9"), (7, b"node 0 set go 1"), "Target(12)"),
    (
        (9, b"node 2 set [c <- c] [d <- d] go 0"),
        (6, b"window p x at 0 is p c at 4"),
        "Updates(9)",
    ),
    (
        (6, b"window p x at 0 is p c at 4"),
        (9, b"node 2 set [c <- z] [d <- d] [y <- x] go 0"),
        "Window(6)",
    ),
    (
        (8, b"node 1 if f c then 0 else 0"),
        (9, b"node 2 set [c <- z] [d <- d] [y <- x] go 0"),
        "Unknown(9, Name { start: 181, end: 182 })",
    ),
    (
        (8, b"node 1 if p c c then 0 else 0"),
        (9, b"node 2 set [c <- p x] [d <- d] [y <- x] go 0"),
        "Kind(9, Name { start: 183, end: 184 })",
    ),
    // the first lines at fault of the form
    ((3, b"cell x"), (0, b""), "Form(3)"),
    (
        (9, b"node 3 set [c <- c] [d <- d] [y <- x] go 0"),
        (0, b""),
        "Form(9)",
    ),
    ((1, b"tslprogram 2"), (0, b""), "Form(1)"),
];

/// The lines of the program with two of them changed.
fn changed(alloc: Global, first: (usize, &[u8]), second: (usize, &[u8])) -> Result<Vec<u8>, Fail> {
    let mut text = Vec::new(alloc);
    for (index, line) in LINES.iter().enumerate() {
        let line = if index + 1 == first.0 {
            first.1
        } else if index + 1 == second.0 {
            second.1
        } else {
            line
        };
        text.extend_from_slice(line)?;
        text.push(b'\n')?;
    }
    Ok(text)
}

/// A text that is read after these names.
fn reading(
    rt: &impl Abort,
    alloc: Global,
    text: &[u8],
    names: Names,
) -> Result<(Program, Names), ProgramError>
    requires { IsTrue (list_all name_fits names) }
    ensures names { IfOk result (λ read. IsTrue (list_all name_fits read.1)) }
    ensures written { IfOk result (λ read. IsWritable read.1 (program_tree read.0)) }
{
    let count = names.count() as usize;
    assert!(rt; text.len() < 100_000_000 && count < 1_000_000);
    read_program(alloc, text, names)
}

/// `read`, or the refusal.
fn outcome(rt: &impl Abort, alloc: Global, text: &[u8]) -> Result<String, Fail> {
    match reading(rt, alloc, text, Names::new(alloc)) {
        Ok(_) => Ok(format!(in alloc; "read")?),
        Err(error) => Ok(format!(in alloc; "{error:?}")?),
    }
}

/// What a refusal says.
fn refusal(alloc: Global, error: ProgramError) -> Result<Vec<u8>, Fail> {
    let error = format!(in alloc; "{error:?}")?;
    Ok(Vec::from_slice(alloc, error.as_bytes())?)
}

/// The names of a text that is read after these, and that is written again as it was.
fn written_names(rt: &impl Abort, alloc: Global, text: &[u8], names: Names) -> Result<Vec<u8>, Fail>
    requires { IsTrue (list_all name_fits names) }
{
    match reading(rt, alloc, text, names) {
        Ok((program, names)) => {
            let written = write_program(alloc, &program, &names)?;
            assert_eq!(rt; written.as_slice(), text);
            names_told(alloc, &names)
        }
        Err(error) => refusal(alloc, error),
    }
}

/// The names of a text that is read after those of another.
fn names_after(
    rt: &impl Abort,
    alloc: Global,
    first: &[u8],
    second: &[u8],
) -> Result<Vec<u8>, Fail> {
    match reading(rt, alloc, first, Names::new(alloc)) {
        Ok((_program, names)) => written_names(rt, alloc, second, names),
        Err(error) => refusal(alloc, error),
    }
}

#[test]
fn each_refusal_names_its_first_line(rt: HostRuntime) -> Result<(), Fail> {
    for &(first, second, expected) in CHANGED {
        let text = changed(rt.alloc(), first, second)?;
        assert_eq!(rt; outcome(&rt, rt.alloc(), &text)?.as_str(), expected);
    }
    Ok(())
}

#[test]
fn a_text_is_written_again_as_it_was(rt: HostRuntime) -> Result<(), Fail> {
    let alloc = rt.alloc();
    let text = changed(alloc, (0, b""), (0, b""))?;
    let names = names_after(&rt, alloc, &text, &text)?;
    let expected = "x:Signal0 c:Signal0 d:Signal0 y:Signal0 p:Predicate1 f:Function1 ?:Predicate1 ";
    assert_eq!(rt; names.as_slice(), expected.as_bytes());
    Ok(())
}
