//! Where atoms hold in a run.

ghost use Rattle.std.specs.Prelude.{◌≡◌, ◌+◌, ◌++◌, ◌==◌, [], ◌∷◌, false, map, position, slice_get, option_and_then, Some, IsSome, IfOk, OnOk};
ghost use Rattle.std.specs.Option.{option_map_or};
ghost use Rattle.std.specs.List.{AllByRecursion};
ghost use Rattle.tsl_terms.specs.TermTree.{term_tree, term_trees, probe_tree};
ghost use Rattle.tsl_terms.specs.SameTree.{same_tree};
ghost use Rattle.tsl_terms.specs.Value.{values, truth, beside};
ghost use Rattle.tsl_terms.specs.AtomView.{atom_tree};
ghost use Rattle.interp_core.specs.LeafValue.{leaf_value};
ghost use Rattle.position_planes.specs.Positions.{IsPlaneOf};
ghost use Rattle.tsl_meaning.specs.RunTree.{run_tree};
ghost use Rattle.tsl_meaning.specs.RunLasso.{value_at, run_lasso, HasTruths};
ghost use Rattle.tsl_meaning.specs.internal.Columns.{HaveColumns, HaveValues};

use crate::columns::{RunValues, only_column};
use crate::run::{LoopRun, Position};
use base_library::NoMemory;
use interp_core::{Algebra, Judge, Leaves, push_values};
use position_planes::plane_of;
use std::alloc::Global;
use tsl_terms::{AtomRef, Probe, Term, TermList, same_term};

/// Where an atom holds, as a plane.
pub(crate) fn atom_plane<J: Judge>(
    alloc: Global,
    judge: &J,
    run: &LoopRun<J::Value>,
    values: &RunValues<J::Value>,
    atom: AtomRef,
) -> Result<Vec<u64>, NoMemory>
    requires had { HasTruths (J.meanings judge.now) (run_tree J.seen run.now) (atom_tree atom) }
    requires values { HaveValues J.seen (map (value_at (run_tree J.seen run.now)) (run_tree J.seen run.now).positions) values.now }
    ensures { IfOk result (λ plane. IsPlaneOf (run.now.start + run.now.length)
        (λ i. (run_lasso (J.meanings judge.now) (run_tree J.seen run.now)).holds i (atom_tree atom.entry)) plane.items) }
{
    match atom {
        AtomRef::Test(probe) => {
            let truths = test_truths(alloc, judge, values, probe)?;
            plane_of(alloc, &truths)
        }
        AtomRef::Update(signal, term) => {
            let truths = update_truths(alloc, run, signal, term)?;
            plane_of(alloc, &truths)
        }
    }
}

/// Where a probe holds, by the values of the signals at each position.
fn test_truths<J: Judge>(
    alloc: Global,
    judge: &J,
    values: &RunValues<J::Value>,
    probe: &Probe,
) -> Result<Vec<bool>, NoMemory>
    requires had { AllByRecursion
        (λ l. IsSome (truth (J.meanings judge.now) (leaf_value J.seen l) (probe_tree probe.now))) values.now.leaves.items }
    requires columns { HaveColumns J.seen values.now.leaves.items values.now.columns.items }
    ensures { IfOk result (λ truths. truths.items
        ≡ map (λ l. option_map_or (λ holds. holds) (truth (J.meanings judge.now) (leaf_value J.seen l) (probe_tree probe.now)) false)
        values.now.leaves.items) }
{
    match only_column(judge, values, &probe.arguments) {
        Some(column) => column_truths(alloc, judge, probe.predicate, column),
        None => row_truths(alloc, judge, &values.leaves, probe),
    }
}

/// Where a predicate holds of each of these values alone.
fn column_truths<J: Judge>(
    alloc: Global,
    judge: &J,
    predicate: u32,
    column: &[J::Value],
) -> Result<Vec<bool>, NoMemory>
    requires had { AllByRecursion (λ v. IsSome ((J.meanings judge.now).predicate predicate (J.seen v ∷ []))) column.now }
    ensures { IfOk result (λ truths. truths.items
        ≡ map (λ v. option_map_or (λ holds. holds) ((J.meanings judge.now).predicate predicate (J.seen v ∷ [])) false) column.now) }
{
    let mut truths: Vec<bool> = vec![in alloc; false; column.len()]?;
    for i in 0..column.len() {
        truths[i] = judge.test(predicate, &column[i..i + 1]);
    }
    Ok(truths)
}

/// Where a probe holds, position by position.
fn row_truths<J: Judge>(
    alloc: Global,
    judge: &J,
    leaves: &[Leaves<J::Value>],
    probe: &Probe,
) -> Result<Vec<bool>, NoMemory>
    requires had { AllByRecursion
        (λ l. IsSome (truth (J.meanings judge.now) (leaf_value J.seen l) (probe_tree probe.now))) leaves.now }
    ensures { IfOk result (λ truths. truths.items
        ≡ map (λ l. option_map_or (λ holds. holds) (truth (J.meanings judge.now) (leaf_value J.seen l) (probe_tree probe.now)) false)
        leaves.now) }
{
    let mut truths = Vec::new(alloc);
    let mut arguments = Vec::new(alloc);
    for values in leaves {
        truths.push(test_at(alloc, judge, values, probe, &mut arguments)?)?;
    }
    Ok(truths)
}

/// Whether a predicate holds of the values of its arguments. They are put in a list that serves again
/// at the next position, so that no memory is taken for it.
fn test_at<J: Judge>(
    alloc: Global,
    judge: &J,
    leaves: &Leaves<J::Value>,
    probe: &Probe,
    arguments: &mut Vec<J::Value>,
) -> Result<bool, NoMemory>
    requires had { IsSome (truth (J.meanings judge.now) (leaf_value J.seen leaves.now) (probe_tree probe.now)) }
    ensures { IfOk result (λ holds. truth (J.meanings judge.now) (leaf_value J.seen leaves.now) (probe_tree probe.now) ≡ Some holds) }
{
    fill(alloc, judge, leaves, arguments, &probe.arguments)?;
    Ok(judge.test(probe.predicate, arguments.as_slice()))
}

/// Puts the values of terms, in their order, in the place of what stood in a list.
fn fill<A: Algebra>(
    alloc: Global,
    algebra: &A,
    leaves: &Leaves<A::Value>,
    found: &mut Vec<A::Value>,
    terms: &TermList,
) -> Result<(), NoMemory>
    requires had { IsSome (values (A.meanings algebra.now) (leaf_value A.seen leaves.now) (term_trees terms.now)) }
    ensures { OnOk result (values (A.meanings algebra.now) (leaf_value A.seen leaves.now) (term_trees terms.now)
        ≡ Some (map A.seen found.new.items)) }
{
    found.clear();
    push_values(alloc, algebra, leaves, terms, found)
}

/// Where a signal is assigned a term.
fn update_truths<V>(
    alloc: Global,
    run: &LoopRun<V>,
    signal: u32,
    term: &Term,
) -> Result<Vec<bool>, NoMemory>
    ensures { IfOk result (λ truths. truths.items
        ≡ map (λ p. option_map_or (λ assigned. same_tree assigned (term_tree term.now))
        (beside signal (run.now.cells ++ run.now.outputs) (map term_tree p.updates)) false) run.now.positions) }
{
    let mut controlled = Vec::from_slice(alloc, run.cells.as_slice())?;
    controlled.extend_from_slice(run.outputs.as_slice())?;
    assigned_truths(
        alloc,
        run.positions.as_slice(),
        place_of(&controlled, signal),
        term,
    )
}

/// The first place of a signal.
fn place_of(signals: &[u32], signal: u32) -> Option<usize>
    ensures { result ≡ position (λ s. s == signal) signals.now }
{
    signals.iter().position(|s| *s == signal)
}

/// Where the term at a place of the updates is this one.
fn assigned_truths<V>(
    alloc: Global,
    positions: &[Position<V>],
    place: Option<usize>,
    term: &Term,
) -> Result<Vec<bool>, NoMemory>
    ensures { IfOk result (λ truths. truths.items
        ≡ map (λ p. option_map_or (λ assigned. same_tree assigned (term_tree term.now))
        (option_and_then (slice_get (map term_tree p.updates)) place) false) positions.now) }
{
    positions
        .iter()
        .map(|position| is_assigned(position, place, term))
        .collect(alloc)
}

/// Whether the term at a place of a position's updates is this one.
fn is_assigned<V>(position: &Position<V>, place: Option<usize>, term: &Term) -> bool
    ensures { result ≡ option_map_or (λ assigned. same_tree assigned (term_tree term.now))
        (option_and_then (slice_get (map term_tree position.now.updates)) place) false }
{
    let Some(place) = place else {
        return false;
    };
    match position.updates.as_slice().get(place) {
        Some(assigned) => same_term(assigned, term),
        None => false,
    }
}
