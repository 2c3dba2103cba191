//! The values of the signals of a run by signal, for the truths of probes at all positions at once.

ghost use Rattle.std.specs.Prelude.{◌≡◌, [], ◌∷◌, Some, map, IfOk, OnOk, IfSome};
ghost use Rattle.tsl_terms.specs.TermTree.{term_trees};
ghost use Rattle.tsl_terms.specs.Value.{values};
ghost use Rattle.interp_core.specs.LeafValue.{leaf_value};
ghost use Rattle.tsl_meaning.specs.RunTree.{run_tree};
ghost use Rattle.tsl_meaning.specs.RunLasso.{value_at};
ghost use Rattle.tsl_meaning.specs.internal.Columns.{AreOf, HaveColumns, HaveValues};

use crate::leaves::leaves_of;
use crate::run::LoopRun;
use base_library::NoMemory;
use interp_core::{Judge, Leaves};
use std::alloc::Global;
use tsl_terms::{Term, TermList};

/// The values of a signal at the positions of a run, in order.
#[derive(Drop)]
pub(crate) struct Column<V> {
    signal: u32,
    values: Vec<V>,
}

/// The values of the signals at each position of a run, and columns of them by signal.
#[derive(Drop)]
pub(crate) struct RunValues<V> {
    pub(crate) leaves: Vec<Leaves<V>>,
    columns: Vec<Column<V>>,
}

/// The values of the inputs and cells of a run, by position and by signal.
pub(crate) fn values_of<J: Judge>(
    alloc: Global,
    judge: &J,
    run: &LoopRun<J::Value>,
) -> Result<RunValues<J::Value>, NoMemory>
    ensures { IfOk result (HaveValues J.seen (map (value_at (run_tree J.seen run.now)) (run_tree J.seen run.now).positions)) }
{
    let leaves = leaves_of(alloc, judge, run)?;
    let mut columns = Vec::new(alloc);
    add_columns(alloc, judge, &leaves, run.inputs.as_slice(), &mut columns)?;
    add_columns(alloc, judge, &leaves, run.cells.as_slice(), &mut columns)?;
    Ok(RunValues { leaves, columns })
}

/// Adds a column for each of these signals that each of the leaves has.
fn add_columns<J: Judge>(
    alloc: Global,
    judge: &J,
    leaves: &[Leaves<J::Value>],
    signals: &[u32],
    columns: &mut Vec<Column<J::Value>>,
) -> Result<(), NoMemory>
    requires { HaveColumns J.seen leaves.now columns.old.items }
    ensures { OnOk result (HaveColumns J.seen leaves.now columns.new.items) }
{
    for signal in signals {
        if let Some(values) = column_of(alloc, judge, leaves, *signal)? {
            columns.push(Column {
                signal: *signal,
                values,
            })?;
        }
    }
    Ok(())
}

/// The values of a signal, if each of the leaves has one.
fn column_of<J: Judge>(
    alloc: Global,
    judge: &J,
    leaves: &[Leaves<J::Value>],
    signal: u32,
) -> Result<Option<Vec<J::Value>>, NoMemory>
    ensures { IfOk result (λ found. IfSome found (λ values. AreOf J.seen leaves.now signal values.items)) }
{
    let mut values = Vec::with_capacity(alloc, leaves.len())?;
    for row in leaves {
        match row.value_of(signal) {
            Some(value) => values.push(judge.copy(alloc, value)?)?,
            None => return Ok(None),
        }
    }
    Ok(Some(values))
}

/// The column of a signal, if there is one.
fn column_at<'a, J: Judge>(
    _judge: &J,
    of: &'a RunValues<J::Value>,
    signal: u32,
) -> Option<&'a [J::Value]>
    requires columns { HaveColumns J.seen of.now.leaves.items of.now.columns.items }
    ensures { IfSome result (λ column. AreOf J.seen of.now.leaves.items signal column.now) }
{
    for column in &of.columns {
        if column.signal == signal {
            return Some(column.values.as_slice());
        }
    }
    None
}

/// The column of the one signal that a list of terms consists of, if it does.
pub(crate) fn only_column<'a, J: Judge>(
    judge: &J,
    of: &'a RunValues<J::Value>,
    terms: &TermList,
) -> Option<&'a [J::Value]>
    requires columns { HaveColumns J.seen of.now.leaves.items of.now.columns.items }
    ensures { IfSome result (λ column.
        map (λ l. values (J.meanings judge.now) (leaf_value J.seen l) (term_trees terms.now)) of.now.leaves.items
        ≡ map (λ v. Some (J.seen v ∷ [])) column.now) }
{
    let TermList::More(term, rest) = terms else {
        return None;
    };
    let (Term::Signal(signal), TermList::Empty) = (&**term, &**rest) else {
        return None;
    };
    column_at(judge, of, *signal)
}
