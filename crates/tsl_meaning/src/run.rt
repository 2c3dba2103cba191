//! Input loops, and runs that close.

ghost use Rattle.std.specs.Prelude.{◌≡◌, ◌+◌, ◌<◌, ◌++◌, length as count_of};
ghost use Rattle.base_library.specs.Numbers.{IsDistinct};
ghost use Rattle.tsl_meaning.specs.LoopFits.{PositionsFit};

use base_library::Sequence;
use tsl_terms::Term;

/// An eventually periodic input: rows of values, those of the stem once and then those of the cycle
/// again and again. There is a cycle row.
#[derive(Drop)]
pub struct InputLoop<V> {
    /// The rows that come once, at first.
    pub stem: Sequence<Sequence<V>>,
    /// The rows that come again and again.
    pub cycle: Sequence<Sequence<V>>,
    pub ghost repeats: { 0 < count_of cycle },
}

/// What stands at one position of a run.
#[derive(Drop)]
pub struct Position<V> {
    /// The place among the input rows, those of the stem first.
    pub place: u32,
    /// The program's state.
    pub state: u32,
    /// The value of each input.
    pub row: Sequence<V>,
    /// The value of each cell, before the step.
    pub cells: Sequence<V>,
    /// The term that each cell and then each output takes.
    pub updates: Sequence<Term>,
}

/// A run that closes: its last position goes on to position `start`.
///
/// No signal stands twice in its three lists. There are `start + length` positions, `length` is at
/// least 1, and each position has one value for each input and each cell, and one term for each cell
/// and then each output.
#[derive(Drop)]
pub struct LoopRun<V> {
    /// The program's inputs.
    pub inputs: Sequence<u32>,
    /// The program's cells.
    pub cells: Sequence<u32>,
    /// The program's outputs.
    pub outputs: Sequence<u32>,
    /// The position that the last one goes on to.
    pub start: u32,
    /// How many positions the loop has.
    pub length: u32,
    /// The positions, in order.
    pub positions: Sequence<Position<V>>,
    pub ghost signals_distinct: { IsDistinct ((inputs ++ cells) ++ outputs) },
    pub ghost goes_on: { 0 < length },
    pub ghost closes: { count_of positions ≡ start + length },
    pub ghost positions_fit: { PositionsFit (count_of inputs) (count_of cells) (count_of cells + count_of outputs) positions },
}
