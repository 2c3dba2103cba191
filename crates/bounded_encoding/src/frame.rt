//! What a question counts, as a machine of either side sees it, and the clauses of next states and numbers.

ghost use Rattle.std.specs.Prelude.{◌≡◌, ◌<◌, ◌+◌, ◌*◌, ◌^◌, OnOk};
ghost use Rattle.bounded_encoding.specs.Frames.{before_pairs_of, variables_of, next_grid, number_grid};
ghost use Rattle.bounded_encoding.specs.FrameView.{frame_tree, IsFramed};
ghost use Rattle.bounded_encoding.specs.Sides.{clauses_of_nexts, clauses_of_start, clauses_of_numbers};
ghost use Rattle.bounded_encoding.specs.Grids.{IsGrid};
ghost use Rattle.bounded_encoding.specs.Made.{with_clauses};
ghost use Rattle.bounded_encoding.specs.Refusing.{Refuses};

use crate::builder::Builder;
use crate::errors::EncodeError;
use crate::grid::{Grid, add_falling_in_each, add_one_in_each};
use crate::simple_clauses::add_true;
use cobuchi_automata::Automaton;
use std::alloc::Global;

/// What a question counts, as a machine of either side sees it. The variables of what it does itself come first,
/// then those of next states, then those of numbers.
#[derive(Clone, Copy)]
pub struct Frame<'a> {
    /// The automaton.
    pub automaton: &'a Automaton,
    /// How many states the machine is to have.
    pub states: u32,
    /// How many rows it has in each state: one for each thing that it may be told.
    pub rows: u32,
    /// The bound of the annotation.
    pub bound: u32,
    /// How many variables there are of what it does itself.
    pub own: u32,
    /// The first bit of a letter that it decides.
    pub first_bit: u32,
    /// How many bits it decides.
    pub bits: u32,
}

/// The index of the first next state from a state in a row.
pub(crate) fn next_base(frame: &Frame, s: u32, r: u32) -> u32
    requires framed { IsFramed (frame_tree frame.now) }
    requires state { s < frame.now.states }
    requires row { r < frame.now.rows }
    ensures value { result ≡ frame.now.own + (s * frame.now.rows + r) * frame.now.states }
    ensures room { result + frame.now.states < 2 ^ 31 }
{
    frame.own + (s * frame.rows + r) * frame.states
}

/// The index of the first number of a pair of states.
pub(crate) fn number_base(frame: &Frame, s: u32, p: u32) -> u32
    requires framed { IsFramed (frame_tree frame.now) }
    requires state { s < frame.now.states }
    requires automaton_state { p < frame.now.automaton.now.states }
    ensures value { result ≡ before_pairs_of (frame_tree frame.now) + (s * frame.now.automaton.now.states + p) * (frame.now.bound + 1) }
    ensures room { result + frame.now.bound + 1 < 2 ^ 31 }
{
    frame.own
        + frame.states * frame.rows * frame.states
        + (s * frame.automaton.states + p) * (frame.bound + 1)
}

/// How many variables there are.
pub fn variables_in_all(frame: &Frame) -> u32
    requires { IsFramed (frame_tree frame.now) }
    ensures { result ≡ variables_of (frame_tree frame.now) }
{
    frame.own
        + frame.states * frame.rows * frame.states
        + frame.states * frame.automaton.states * (frame.bound + 1)
}

/// The variables of next states, by state and row.
fn next_grid(frame: &Frame) -> Grid
    requires { IsFramed (frame_tree frame.now) }
    ensures grid { IsGrid result }
    ensures is { result ≡ next_grid (frame_tree frame.now) }
{
    Grid {
        base: frame.own,
        rows: frame.states,
        columns: frame.rows,
        width: frame.states,
    }
}

/// Adds that each state has one next state in each row.
pub(crate) fn add_nexts(alloc: Global, out: &mut Builder, frame: &Frame) -> Result<(), EncodeError>
    requires { IsFramed (frame_tree frame.now) }
    ensures added { OnOk result (out.new ≡ with_clauses out.old (clauses_of_nexts (frame_tree frame.now))) }
    ensures refused { Refuses result (with_clauses out.old (clauses_of_nexts (frame_tree frame.now))) }
{
    add_one_in_each(alloc, out, next_grid(frame))
}

/// Adds that the pair of both starts is numbered.
pub(crate) fn add_start(alloc: Global, out: &mut Builder, frame: &Frame) -> Result<(), EncodeError>
    requires { IsFramed (frame_tree frame.now) }
    ensures added { OnOk result (out.new ≡ with_clauses out.old (clauses_of_start (frame_tree frame.now))) }
    ensures refused { Refuses result (with_clauses out.old (clauses_of_start (frame_tree frame.now))) }
{
    let base = number_base(frame, 0, 0);
    add_true(alloc, out, base)
}

/// The variables of numbers, by state and state of the automaton.
fn number_grid(frame: &Frame) -> Grid
    requires { IsFramed (frame_tree frame.now) }
    ensures grid { IsGrid result }
    ensures is { result ≡ number_grid (frame_tree frame.now) }
{
    Grid {
        base: frame.own + frame.states * frame.rows * frame.states,
        rows: frame.states,
        columns: frame.automaton.states,
        width: frame.bound + 1,
    }
}

/// Adds that the numbers of each pair fall.
pub(crate) fn add_numbers(
    alloc: Global,
    out: &mut Builder,
    frame: &Frame,
) -> Result<(), EncodeError>
    requires { IsFramed (frame_tree frame.now) }
    ensures added { OnOk result (out.new ≡ with_clauses out.old (clauses_of_numbers (frame_tree frame.now))) }
    ensures refused { Refuses result (with_clauses out.old (clauses_of_numbers (frame_tree frame.now))) }
{
    add_falling_in_each(alloc, out, number_grid(frame), frame.bound)
}
