//! Tests of searches: environments as tables, and the windows that are found in them.

ghost use Rattle.std.specs.Prelude.{◌≡◌, ◌<◌, ◌↔◌, map, IsTrue, IfOk};
ghost use Rattle.std.specs.List.{AllByRecursion};
ghost use Rattle.letter_space.specs.SpaceView.{space_tree};
ghost use Rattle.letter_space.specs.Vectors.{vector_count};
ghost use Rattle.machines.specs.MachineView.{environment_tree};
ghost use Rattle.machines.specs.Moves.{EnvironmentFits};

use base_library::{NoMemory, Sequence};
use branch_finder::{BranchError, find_window};
use letter_space::Space;
use logic_values::space_of_spec;
use machines::Environment;
use spec_values::spec_of;
use std::alloc::Global;
use std::fmt::Write;
use std::process::Abort;
use std::test::Fail;
use tsl_terms::{Window, equality_of};

/// Tests of an input and of a cell, with the bits 0 and 1, and a cell that keeps itself, with bit 2, or copies
/// the input, with bit 3.
const COPIES: &[u8] = b"always guarantee { [y <- y] || [y <- x]; } guarantee { F p x -> F p y; }";

/// A cell that takes the input, with bit 2, and one that takes that cell, with bit 4. Each may keep itself.
const DELAYS: &[u8] = b"always guarantee { [y <- x]; [z <- y]; } guarantee { F p x -> F p z; }";

/// A cell that takes a function of the input, with bit 2, or of itself, with bit 3, or keeps itself, with bit 4.
const FUNCTIONS: &[u8] =
    b"always guarantee { [y <- f x] || [y <- f y]; } guarantee { F p (f x) -> F p y; }";

/// Two cells that take the other one, with the bits 2 and 4, or keep themselves, with the bits 3 and 5.
const EXCHANGED: &[u8] =
    b"always guarantee { [y <- z] || [y <- y]; [z <- y] || [z <- z]; } guarantee { F p y -> F q z; }";

/// Two cells that take the input, with the bits 2 and 4, or keep themselves, with the bits 3 and 5.
const TWINS: &[u8] = b"always guarantee { [y <- x]; [z <- x]; } guarantee { F p y -> F p z; }";

/// No predicate term.
const UPDATES: &[u8] = b"always guarantee { [y <- x] || [y <- y]; }";

/// Tests of no cell.
const INPUTS: &[u8] = b"always guarantee { [y <- x] || [y <- y]; } guarantee { F p x -> F q x; }";

/// An equality of an input and a cell, with bit 0, a test of either, with the bits 1 and 2, and the equality of what
/// a function gives for them, with bit 3. The cell keeps itself, with bit 4, or copies the input, with bit 5.
const EQUAL: &[u8] =
    b"always guarantee { [y <- y] || [y <- x]; } guarantee { eq x y -> p x -> p y; eq x y -> eq (f x) (f y); }";

/// A specification, what is true in each state of an environment, the state that it goes to from each state under
/// each vector, a depth, and the window that is found: the bits of its probes with their steps, and of its updates and
/// equalities with their offsets.
const SEARCHES: &[(&[u8], &[u32], &[u32], u32, &str)] = &[
    // the test holds of the input at all times, and never of the cell
    (COPIES, &[1], &[0, 0], 0, "none"),
    (COPIES, &[1], &[0, 0], 1, "0 at 0 is 1 at 1 when 3 at 0"),
    (COPIES, &[1], &[0, 0], 2, "0 at 0 is 1 at 1 when 3 at 0"),
    (COPIES, &[1], &[0, 0], 3, "0 at 0 is 1 at 1 when 3 at 0"),
    // what is true stays, and of both
    (COPIES, &[3], &[0, 0], 2, "none"),
    // a cell that keeps itself changes
    (
        COPIES,
        &[0, 2],
        &[1, 0, 1, 0],
        1,
        "1 at 0 is 1 at 1 when 2 at 0",
    ),
    // what the cell copies is not true before
    (
        COPIES,
        &[0, 3],
        &[0, 1, 1, 1],
        1,
        "0 at 0 is 1 at 1 when 3 at 0",
    ),
    // a state that is not visited
    (COPIES, &[0, 2], &[0, 0, 0, 0], 2, "none"),
    // two steps, each with one update that is needed
    (DELAYS, &[1], &[0, 0, 0, 0], 1, "none"),
    (
        DELAYS,
        &[1],
        &[0, 0, 0, 0],
        2,
        "0 at 0 is 1 at 2 when 2 at 0 when 4 at 1",
    ),
    (
        DELAYS,
        &[1],
        &[0, 0, 0, 0],
        3,
        "0 at 0 is 1 at 2 when 2 at 0 when 4 at 1",
    ),
    (DELAYS, &[3], &[0, 0, 0, 0], 3, "none"),
    // terms with functions
    (
        FUNCTIONS,
        &[1],
        &[0, 0, 0],
        1,
        "0 at 0 is 1 at 1 when 2 at 0",
    ),
    (
        FUNCTIONS,
        &[2],
        &[0, 0, 0],
        1,
        "0 at 0 is 1 at 1 when 2 at 0",
    ),
    (FUNCTIONS, &[3], &[0, 0, 0], 1, "none"),
    // different predicates
    (EXCHANGED, &[1], &[0, 0, 0, 0], 2, "none"),
    (
        EXCHANGED,
        &[0, 1],
        &[1, 1, 1, 1, 0, 0, 0, 0],
        1,
        "0 at 0 is 0 at 1 when 3 at 0",
    ),
    // cells that are exchanged twice, by one update of each
    (
        EXCHANGED,
        &[0, 0, 1],
        &[1, 0, 0, 0, 2, 1, 1, 1, 2, 2, 2, 2],
        1,
        "none",
    ),
    (
        EXCHANGED,
        &[0, 0, 1],
        &[1, 0, 0, 0, 2, 1, 1, 1, 2, 2, 2, 2],
        2,
        "0 at 0 is 0 at 2 when 4 at 0 when 2 at 1",
    ),
    // cells that take the same term at once
    (
        TWINS,
        &[1],
        &[0, 0, 0, 0],
        1,
        "0 at 1 is 1 at 1 when 2 at 0 when 4 at 0",
    ),
    (TWINS, &[1, 3], &[1, 0, 0, 0, 1, 1, 1, 1], 1, "none"),
    // of two equal values the test holds of one alone
    (EQUAL, &[11], &[0, 0], 0, "1 at 0 is 2 at 0 when 0 at 0"),
    // a function gives two values for two equal ones
    (EQUAL, &[7], &[0, 0], 0, "true is 3 at 0 when 0 at 0"),
    // nothing is equal at first, and all is as it may be once it is
    (EQUAL, &[2, 15], &[0, 1, 1, 1], 1, "none"),
    // a cell that keeps itself is equal, one step later, to what was equal to it
    (
        EQUAL,
        &[11, 8],
        &[1, 1, 1, 1],
        1,
        "1 at 0 is 2 at 0 when 0 at 0",
    ),
    (
        EQUAL,
        &[15, 8],
        &[1, 1, 1, 1],
        1,
        "1 at 0 is 2 at 1 when 4 at 0 when 0 at 0",
    ),
    (UPDATES, &[0], &[0, 0], 3, "none"),
    (INPUTS, &[1, 2], &[0, 1, 1, 0], 2, "none"),
];

/// How many vectors a space has.
fn vectors_in(space: &Space) -> Result<u32, Fail>
    ensures { IfOk result (λ vectors. vectors ≡ vector_count (space_tree space.now).controlled) }
{
    match space.vectors() {
        Some(vectors) => Ok(vectors),
        None => Err("there are too many vectors".into()),
    }
}

/// Whether numbers are below a limit.
fn are_below(numbers: &[u32], limit: u32) -> bool
    ensures { IsTrue result ↔ AllByRecursion (λ n. n < limit) numbers.now }
{
    numbers.iter().all(|n| *n < limit)
}

/// The environment with these truths and next states over a space.
fn environment_of(
    alloc: Global,
    space: &Space,
    truths: &[u32],
    next: &[u32],
) -> Result<Environment, Fail>
    ensures { IfOk result (λ e. EnvironmentFits (space_tree space.now) (environment_tree e)) }
{
    let vectors = vectors_in(space)?;
    if truths.is_empty() || truths.len() > 8 {
        return Err("an environment has a state".into());
    }
    let states = truths.len() as u32;
    if !are_below(truths, space.valuations()) {
        return Err("a valuation is one of the space".into());
    }
    if !are_below(next, states) || next.len() != truths.len() * vectors as usize {
        return Err("a state goes to a state under each vector".into());
    }
    Ok(Environment {
        states,
        vectors,
        truths: Sequence::from_vec(Vec::from_slice(alloc, truths)?),
        next: Sequence::from_vec(Vec::from_slice(alloc, next)?),
    })
}

/// The signals of a space.
fn signals_of(alloc: Global, space: &Space) -> Result<Vec<u32>, NoMemory>
    ensures { IfOk result (λ signals. signals.items ≡ map (λ c. c.signal) (space_tree space.now).controlled) }
{
    let mut signals = Vec::new(alloc);
    for controlled in space.controlled.as_slice() {
        signals.push(controlled.signal)?;
    }
    Ok(signals)
}

/// A bit that is there.
fn bit(bit: Option<u32>) -> Result<u32, Fail> {
    match bit {
        Some(bit) => Ok(bit),
        None => Err("there is no such bit".into()),
    }
}

/// The bits of a window.
fn window_said(alloc: Global, space: &Space, window: &Window) -> Result<String, Fail> {
    let right = bit(space.test_bit(&window.right))?;
    let mut text = match &window.left {
        Some(left) => {
            let left = bit(space.test_bit(left))?;
            format!(in alloc; "{left} at {}", window.left_at)?
        }
        None => String::from_str(alloc, "true")?,
    };
    write!(text, " is {right} at {}", window.length)?;
    for update in window.updates.as_slice() {
        let taken = bit(space.update_bit(update.signal, &update.term))?;
        write!(text, " when {taken} at {}", update.offset)?;
    }
    for equality in window.equalities.as_slice() {
        let equal = bit(space.test_bit(&equality.probe))?;
        write!(text, " when {equal} at {}", equality.offset)?;
    }
    Ok(text)
}

/// What is found in an environment, where each signal of the space is a cell.
fn search_said(
    rt: &impl Abort,
    alloc: Global,
    text: &[u8],
    truths: &[u32],
    next: &[u32],
    depth: u32,
) -> Result<String, Fail> {
    let spec = spec_of(alloc, text)?;
    let space = space_of_spec(alloc, &spec)?;
    let environment = environment_of(alloc, &space, truths, next)?;
    let cells = signals_of(alloc, &space)?;
    let equality = equality_of(&spec.names);
    assert!(rt; depth <= 3);
    match find_window(alloc, &environment, &space, &cells, depth, equality) {
        Ok(Some(window)) => window_said(alloc, &space, &window),
        Ok(None) => Ok(String::from_str(alloc, "none")?),
        Err(BranchError::Branches) => Ok(String::from_str(alloc, "branches")?),
        Err(BranchError::NoMemory) => Err("out of memory".into()),
    }
}

#[test]
fn windows_are_found(rt: HostRuntime) -> Result<(), Fail> {
    for &(text, truths, next, depth, expected) in SEARCHES {
        assert_eq!(rt;
            search_said(&rt, rt.alloc(), text, truths, next, depth)?.as_str(),
            expected
        );
    }
    Ok(())
}
