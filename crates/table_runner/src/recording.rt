//! The positions of a run, one by one.

ghost use Rattle.std.specs.Prelude.{◌≡◌, ◌+◌, ℕ, Some, length, slice_get, IfOk, map, take, drop};
ghost use Rattle.tsl_terms.specs.TermTree.{term_tree};
ghost use Rattle.program_tree.specs.ProgramView.{program_tree};
ghost use Rattle.tsl_meaning.specs.LoopFits.{PositionsFit};
ghost use Rattle.tsl_meaning.specs.RunTree.{PositionTree, position_tree};
ghost use Rattle.tsl_meaning.specs.RunOf.{IsStepOf};
ghost use Rattle.tsl_meaning.specs.Run.{action_in as action_of};
ghost use Rattle.table_runner.specs.Running.{rows_seen, CanRun};
ghost use Rattle.table_runner.specs.Standings.{shown, StandsAt};

use crate::acting::{action_in, copies};
use crate::standing::{Standing, act, cells_of, first_standing, row_of};
use base_library::{NoMemory, Sequence};
use interp_core::Judge;
use program_tree::Program;
use std::alloc::Global;
use tsl_meaning::{InputLoop, Position};
use tsl_terms::{Term, copy_term};

/// So many first positions of a run.
pub(crate) fn first_positions<J: Judge>(
    alloc: Global,
    judge: &J,
    program: &Program,
    inputs: &InputLoop<J::Value>,
    count: u32,
) -> Result<Sequence<Position<J::Value>>, NoMemory>
    requires can { CanRun (J.meanings judge.now) (program_tree program.now) (rows_seen J.seen inputs.now) }
    ensures count { IfOk result (λ positions. length positions ≡ count) }
    ensures fit { IfOk result (PositionsFit (length program.now.inputs) (length program.now.cells)
        (length program.now.cells + length program.now.outputs)) }
    ensures steps { IfOk result (λ positions. (t : ℕ) (p : PositionTree J.Seen) → slice_get (map (position_tree J.seen) positions) t
        ≡ Some p
        → IsStepOf (J.meanings judge.now) (program_tree program.now) (rows_seen J.seen inputs.now) t p) }
{
    let mut standing = first_standing(alloc, judge, program, inputs)?;
    let mut positions = Sequence::new(alloc);
    for _ in 0..count {
        let action = action_in(alloc, judge, program, standing.state, &standing.leaves)?;
        positions.push(position_of(alloc, judge, program, &standing, action.updates)?)?;
        act(alloc, judge, program, inputs, &mut standing, action)?;
    }
    Ok(positions)
}

/// The position where a run stands, with the terms that are assigned there.
fn position_of<J: Judge>(
    alloc: Global,
    judge: &J,
    program: &Program,
    standing: &Standing<J::Value>,
    updates: &[Term],
) -> Result<Position<J::Value>, NoMemory>
    ensures { IfOk result (λ p. position_tree J.seen p ≡ (record {
      place = standing.now.place;
      state = standing.now.state;
      row = take (length program.now.inputs) (map J.seen standing.now.leaves.values);
      cells = drop (length program.now.inputs) (map J.seen standing.now.leaves.values);
      updates = map term_tree updates.now;
    })) }
{
    let row = copies(alloc, judge, row_of(program, standing))?;
    let cells = copies(alloc, judge, cells_of(program, standing))?;
    let updates = copied_terms(alloc, updates)?;
    Ok(Position {
        place: standing.place,
        state: standing.state,
        row: Sequence::from_vec(row),
        cells: Sequence::from_vec(cells),
        updates,
    })
}

/// The same terms once more.
fn copied_terms(alloc: Global, terms: &[Term]) -> Result<Sequence<Term>, NoMemory>
    ensures { IfOk result (λ copies. map term_tree copies ≡ map term_tree terms.now) }
{
    let mut copies = Vec::new(alloc);
    for term in terms {
        copies.push(copy_term(alloc, term)?)?;
    }
    Ok(Sequence::from_vec(copies))
}
