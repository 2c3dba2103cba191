//! Whether a formula holds in a run: a plane of truths for each subformula, from the inside out.

ghost use Rattle.std.specs.Prelude.{◌≡◌, ◌+◌, map, IfOk};
ghost use Rattle.std.specs.List.{AllByRecursion};
ghost use Rattle.tsl_terms.specs.FormulaTree.{many, formula_tree, formula_trees};
ghost use Rattle.tsl_terms.specs.Atoms.{atoms_of_members};
ghost use Rattle.tsl_meaning.specs.Lasso.{meets};
ghost use Rattle.tsl_meaning.specs.RunTree.{run_tree};
ghost use Rattle.position_planes.specs.Positions.{IsPlaneOf};
ghost use Rattle.tsl_meaning.specs.RunLasso.{value_at, run_lasso, HasTruths, IsJudged};
ghost use Rattle.tsl_meaning.specs.internal.SharedAtoms.{HavePlanes};
ghost use Rattle.tsl_meaning.specs.internal.Columns.{HaveValues};

use crate::columns::{RunValues, values_of};
use crate::joining::{binary_plane, constant_plane, joined_plane, of_none, unary_plane};
use crate::run::LoopRun;
use crate::shared_atoms::{SharedAtoms, plane_of_atom, shared_atoms};
use base_library::NoMemory;
use interp_core::Judge;
use position_planes::holds_at;
use std::alloc::Global;
use tsl_terms::{Formula, FormulaList, FormulaParts, ManyOperator};

/// Whether a formula holds at the first position of a run. Each probe has a truth at each position. An update holds
/// where its signal is assigned that very term, and not merely one of equal value. It takes as many steps as the
/// formula has atoms, times the positions, and for each operator as many as there are words of 64 positions.
pub fn judge<J: Judge>(
    alloc: Global,
    judge: &J,
    run: &LoopRun<J::Value>,
    formula: &Formula,
) -> Result<bool, NoMemory>
    requires had { IsJudged (J.meanings judge.now) (run_tree J.seen run.now) (formula_tree formula.now) }
    ensures { IfOk result
        (λ holds. holds ≡ meets (run_lasso (J.meanings judge.now) (run_tree J.seen run.now)) (formula_tree formula.now) 0) }
{
    let values = values_of(alloc, judge, run)?;
    let shared = shared_atoms(alloc, judge, run, &values, formula)?;
    let plane = formula_plane(alloc, judge, run, &values, &shared, formula)?;
    let positions = run.start as usize + run.length as usize;
    Ok(holds_at(&plane, positions, 0))
}

/// Where a formula holds.
#[cycle(formula_plane)]
fn formula_plane<J: Judge>(
    alloc: Global,
    judge: &J,
    run: &LoopRun<J::Value>,
    values: &RunValues<J::Value>,
    shared: &SharedAtoms,
    formula: &Formula,
) -> Result<Vec<u64>, NoMemory>
    requires had { IsJudged (J.meanings judge.now) (run_tree J.seen run.now) (formula_tree formula.now) }
    requires values { HaveValues J.seen (map (value_at (run_tree J.seen run.now)) (run_tree J.seen run.now).positions) values.now }
    requires shared { HavePlanes (run.now.start + run.now.length)
        (run_lasso (J.meanings judge.now) (run_tree J.seen run.now)).holds shared.now.atoms.items }
    ensures { IfOk result (λ plane. IsPlaneOf (run.now.start + run.now.length)
        (meets (run_lasso (J.meanings judge.now) (run_tree J.seen run.now)) (formula_tree formula.now)) plane.items) }
{
    match formula.parts() {
        FormulaParts::Constant(holds) => constant_plane(alloc, run, holds),
        FormulaParts::Atom(atom) => plane_of_atom(alloc, judge, run, values, shared, atom),
        FormulaParts::Unary(operator, part) => {
            let plane = formula_plane(alloc, judge, run, values, shared, part)?;
            unary_plane(alloc, run, operator, plane)
        }
        FormulaParts::Binary(operator, left, right) => {
            let left = formula_plane(alloc, judge, run, values, shared, left)?;
            let right = formula_plane(alloc, judge, run, values, shared, right)?;
            Ok(binary_plane(run, operator, left, right))
        }
        FormulaParts::Many(operator, members) => {
            member_plane(alloc, judge, run, values, shared, operator, members)
        }
    }
}

/// Where a conjunction or disjunction of the members of a list holds.
#[cycle(formula_plane)]
fn member_plane<J: Judge>(
    alloc: Global,
    judge: &J,
    run: &LoopRun<J::Value>,
    values: &RunValues<J::Value>,
    shared: &SharedAtoms,
    operator: ManyOperator,
    members: &FormulaList,
) -> Result<Vec<u64>, NoMemory>
    requires had { AllByRecursion (HasTruths (J.meanings judge.now) (run_tree J.seen run.now))
        (atoms_of_members (formula_trees members.now)) }
    requires values { HaveValues J.seen (map (value_at (run_tree J.seen run.now)) (run_tree J.seen run.now).positions) values.now }
    requires shared { HavePlanes (run.now.start + run.now.length)
        (run_lasso (J.meanings judge.now) (run_tree J.seen run.now)).holds shared.now.atoms.items }
    ensures { IfOk result (λ plane. IsPlaneOf (run.now.start + run.now.length)
        (meets (run_lasso (J.meanings judge.now) (run_tree J.seen run.now)) (many operator (formula_trees members.now))) plane.items) }
{
    let mut plane = constant_plane(alloc, run, of_none(operator))?;
    let mut rest = members;
    while let FormulaList::More(member, next) = rest {
        let more = formula_plane(alloc, judge, run, values, shared, member)?;
        plane = joined_plane(operator, plane, &more);
        rest = next;
    }
    Ok(plane)
}
