//! Machines, proposed.

ghost use Rattle.std.specs.Prelude.{◌≡◌, ◌≤◌, IfOk, IfSome};
ghost use Rattle.program_tree.specs.declared.limits.TheConstants.{MOST_STATES};
ghost use Rattle.letter_space.specs.SpaceView.{space_tree};
ghost use Rattle.letter_space.specs.Vectors.{vector_count};
ghost use Rattle.machines.specs.MachineView.{controller_tree};
ghost use Rattle.machines.specs.Moves.{FitsSpace};

use crate::arena::{Arena, arena_of};
use crate::joining::{Answer, answers, joined};
use crate::labels::{number_of, value_at};
use crate::making::machine_of;
use crate::playing::play;
use crate::work::Work;
use base_library::NoMemory;
use cobuchi_automata::Automaton;
use letter_space::Space;
use machines::Controller;
use std::alloc::Global;

/// How many labels a game may have, one after the other.
const SIZES: [usize; 3] = [150, 600, 2_000];

/// The bounds of counters that are tried, one after the other.
const BOUNDS: [u32; 8] = [1, 2, 3, 5, 8, 12, 18, 27];

/// How much may be tried.
#[derive(Clone, Copy)]
pub struct Effort {
    /// The most states of a machine.
    pub states: u32,
    /// The most steps of a search: a step looks at one vector, and at eight edges or four labels.
    pub steps: u64,
}

/// A machine over the bits of a space that may be a controller for an automaton, if one is found.
///
/// A game on labels is played with a bound that grows, so that what is found first waits least, and again with more
/// labels where none was found. The labels of a game that is won are joined, so that the machine is small.
pub fn propose(
    alloc: Global,
    automaton: &Automaton,
    space: &Space,
    effort: Effort,
) -> Result<Option<Controller>, NoMemory>
    ensures fits { IfOk result (λ found. IfSome found (λ c. FitsSpace (space_tree space.now) (controller_tree c))) }
    ensures few_states { IfOk result (λ found. IfSome found (λ c. c.states ≤ MOST_STATES)) }
{
    let Some(vectors) = space.vectors() else {
        return Ok(None);
    };
    let letters = letters_of(alloc, space, vectors)?;
    let arena = arena_of(alloc, automaton, space, letters)?;
    let Some(table) = table_of(alloc, &arena, effort)? else {
        return Ok(None);
    };
    machine_of(alloc, space, vectors, table.states, &table.answers)
}

/// The letters of so many vectors, under the valuation in which nothing is true.
fn letters_of(alloc: Global, space: &Space, vectors: u32) -> Result<Vec<u64>, NoMemory>
    requires { vectors ≡ vector_count (space_tree space.now).controlled }
{
    let mut letters = Vec::new(alloc);
    for vector in 0..vectors {
        let picks = space.picks(alloc, vector)?;
        letters.push(space.letter(0, picks.as_slice()))?;
    }
    Ok(letters)
}

/// How many states a machine has, and its answers, state by state.
#[derive(Drop)]
struct Table {
    states: u32,
    answers: Vec<Answer>,
}

/// The table of a machine that is found with such an effort.
fn table_of(alloc: Global, arena: &Arena, effort: Effort) -> Result<Option<Table>, NoMemory> {
    let mut work = Work::new(effort.steps);
    for most in SIZES {
        for bound in BOUNDS {
            if work.is_spent() {
                return Ok(None);
            }
            if let Some(table) = table_within(alloc, arena, effort, bound, most, &mut work)? {
                return Ok(Some(table));
            }
        }
    }
    Ok(None)
}

/// The table of a machine that is found within a bound, with so many labels.
fn table_within(
    alloc: Global,
    arena: &Arena,
    effort: Effort,
    bound: u32,
    most: usize,
    work: &mut Work,
) -> Result<Option<Table>, NoMemory> {
    let Some(labels) = play(alloc, arena, bound, most, work)? else {
        return Ok(None);
    };
    let labels = joined(alloc, arena, bound, labels, work)?;
    if labels.len() > effort.states as usize {
        return Ok(None);
    }
    let mut own = Work::new(effort.steps);
    let mut rows = Vec::new(alloc);
    for number in 0..labels.len() {
        let Some(row) = answers(alloc, arena, bound, &labels, number_of(number), &mut own)? else {
            return Ok(None);
        };
        rows.push(row)?;
    }
    Ok(Some(in_order(alloc, &rows, start_of(&labels))?))
}

/// The number of the first label that reaches the start.
fn start_of(labels: &[Vec<u32>]) -> u32 {
    let mut number: u32 = 0;
    for label in labels {
        if value_at(label, 0) > 0 {
            return number;
        }
        number = number.saturating_add(1);
    }
    0
}

/// The table of what is reached from a state, which comes first.
fn in_order(alloc: Global, rows: &[Vec<Answer>], start: u32) -> Result<Table, NoMemory> {
    let mut order: Vec<u32> = Vec::new(alloc);
    order.push(start)?;
    for at in 0..rows.len() {
        let Some(number) = order.get(at) else {
            break;
        };
        let number = *number;
        if let Some(row) = rows.get(number as usize) {
            add_targets(&mut order, row)?;
        }
    }
    let mut all = Vec::new(alloc);
    for number in order.as_slice() {
        if let Some(row) = rows.get(*number as usize) {
            add_answers(&order, row, &mut all)?;
        }
    }
    Ok(Table {
        states: number_of(order.len()),
        answers: all,
    })
}

/// Adds the targets of answers that are not there.
fn add_targets(order: &mut Vec<u32>, row: &[Answer]) -> Result<(), NoMemory> {
    for answer in row {
        if !order.iter().any(|earlier| *earlier == answer.target) {
            order.push(answer.target)?;
        }
    }
    Ok(())
}

/// Adds answers, whose targets are named by their places.
fn add_answers(order: &[u32], row: &[Answer], all: &mut Vec<Answer>) -> Result<(), NoMemory> {
    for answer in row {
        let target = match order.iter().position(|number| *number == answer.target) {
            Some(place) => number_of(place),
            None => u32::MAX,
        };
        all.push(Answer {
            vector: answer.vector,
            target,
        })?;
    }
    Ok(())
}
