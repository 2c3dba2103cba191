//! The values of the signals at the positions of a run, for the truths of probes.

ghost use Rattle.std.specs.Prelude.{◌≡◌, ◌++◌, length, map, IfOk, OnOk};
ghost use Rattle.interp_core.specs.LeafValue.{leaf_value};
ghost use Rattle.tsl_meaning.specs.RunTree.{position_tree, run_tree};
ghost use Rattle.tsl_meaning.specs.RunLasso.{value_at};

use crate::run::{LoopRun, Position};
use base_library::{NoMemory, Sequence};
use interp_core::{Judge, Leaves};
use std::alloc::Global;

/// The values of the inputs and cells at each position.
pub(crate) fn leaves_of<J: Judge>(
    alloc: Global,
    judge: &J,
    run: &LoopRun<J::Value>,
) -> Result<Vec<Leaves<J::Value>>, NoMemory>
    ensures { IfOk result (λ leaves. map (leaf_value J.seen) leaves.items
        ≡ map (value_at (run_tree J.seen run.now)) (run_tree J.seen run.now).positions) }
{
    let mut leaves = Vec::new(alloc);
    for position in run.positions.as_slice() {
        leaves.push(leaves_at(alloc, judge, run, position)?)?;
    }
    Ok(leaves)
}

/// The values of the inputs and cells at a position.
fn leaves_at<J: Judge>(
    alloc: Global,
    judge: &J,
    run: &LoopRun<J::Value>,
    position: &Position<J::Value>,
) -> Result<Leaves<J::Value>, NoMemory>
    requires row { length position.now.row ≡ length run.now.inputs }
    requires cells { length position.now.cells ≡ length run.now.cells }
    ensures { IfOk result (λ leaves. leaf_value J.seen leaves
        ≡ value_at (run_tree J.seen run.now) (position_tree J.seen position.now)) }
{
    let mut signals = Vec::from_slice(alloc, run.inputs.as_slice())?;
    signals.extend_from_slice(run.cells.as_slice())?;
    let mut values = Vec::new(alloc);
    add_copies(alloc, judge, &mut values, position.row.as_slice())?;
    add_copies(alloc, judge, &mut values, position.cells.as_slice())?;
    Ok(Leaves {
        signals: Sequence::from_vec(signals),
        values: Sequence::from_vec(values),
    })
}

/// Adds copies of values, in order.
fn add_copies<J: Judge>(
    alloc: Global,
    judge: &J,
    values: &mut Vec<J::Value>,
    from: &[J::Value],
) -> Result<(), NoMemory>
    ensures { OnOk result
        (map J.seen values.new.items ≡ map J.seen values.old.items ++ map J.seen from.now) }
{
    for value in from {
        values.push(judge.copy(alloc, value)?)?;
    }
    Ok(())
}
