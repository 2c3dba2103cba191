//! The formula of a window, and a formula under windows.

ghost use Rattle.std.specs.Prelude.{◌≡◌, ◌++◌, map, IfOk};
ghost use Rattle.tsl_terms.specs.TermTree.{probe_tree};
ghost use Rattle.tsl_terms.specs.FormulaTree.{test, atom, formula_tree};
ghost use Rattle.tsl_terms.specs.WindowTree.{window_tree, listed_tree, listed_formula, equated_formula, side_formula, later};
ghost use Rattle.tsl_terms.specs.WindowTree.{window_formula_of, under_windows};

use crate::copy::{copy_probe, copy_term};
use crate::formula::Formula;
use crate::joining::{conjunction, under_assumptions};
use crate::term::Probe;
use crate::window::{Listed, Window};
use base_library::NoMemory;
use std::alloc::Global;

/// The formula of a window: always, if each listed update and each listed equality holds at its offset, the left
/// probe at its step is as the right one at the last, or, without a left probe, the right one holds at the last. It
/// nests one level for each step.
pub fn window_formula(alloc: Global, window: &Window) -> Result<Formula, NoMemory>
    ensures { IfOk result
        (λ formula. formula_tree formula ≡ window_formula_of (window_tree window.now)) }
{
    let listed = conjunction(alloc, formulas_listed(alloc, window)?)?;
    let sides = formula_of_sides(alloc, window)?;
    let holds = Formula::Implies(Box::new(alloc, listed)?, Box::new(alloc, sides)?);
    Ok(Formula::Globally(Box::new(alloc, holds)?))
}

/// What a window says of its sides.
fn formula_of_sides(alloc: Global, window: &Window) -> Result<Formula, NoMemory>
    ensures { IfOk result (λ formula. formula_tree formula ≡ side_formula (window_tree window.now).left
        window.now.left_at (probe_tree window.now.right) window.now.length) }
{
    let right = probe_formula(alloc, &window.right, window.length)?;
    match &window.left {
        None => Ok(right),
        Some(probe) => {
            let left = probe_formula(alloc, probe, window.left_at)?;
            Ok(Formula::Iff(Box::new(alloc, left)?, Box::new(alloc, right)?))
        }
    }
}

/// A formula under the assumption of windows: their formulas in order are the premise, where there are some, and it
/// is itself where there are none.
pub fn under(alloc: Global, windows: &[Window], formula: Formula) -> Result<Formula, NoMemory>
    ensures { IfOk result
        (λ f. formula_tree f ≡ under_windows (map window_tree windows.now) (formula_tree formula)) }
{
    let assumed = formulas_of_windows(alloc, windows)?;
    under_assumptions(alloc, assumed, formula)
}

/// The formulas of windows, in order.
fn formulas_of_windows(alloc: Global, windows: &[Window]) -> Result<Vec<Formula>, NoMemory>
    ensures { IfOk result (λ formulas.
        map formula_tree formulas.items ≡ map window_formula_of (map window_tree windows.now)) }
{
    let mut formulas = Vec::new(alloc);
    for window in windows {
        formulas.push(window_formula(alloc, window)?)?;
    }
    Ok(formulas)
}

/// The formulas of what a window lists: its updates in order, and then its equalities.
fn formulas_listed(alloc: Global, window: &Window) -> Result<Vec<Formula>, NoMemory>
    ensures { IfOk result (λ formulas. map formula_tree formulas.items
        ≡ map listed_formula (window_tree window.now).updates ++ map equated_formula (window_tree window.now).equalities) }
{
    let mut formulas = listed_formulas(alloc, window.updates.as_slice())?;
    for equality in window.equalities.as_slice() {
        formulas.push(probe_formula(alloc, &equality.probe, equality.offset)?)?;
    }
    Ok(formulas)
}

/// The formulas of the updates that a window lists, in order.
fn listed_formulas(alloc: Global, updates: &[Listed]) -> Result<Vec<Formula>, NoMemory>
    ensures { IfOk result (λ formulas.
        map formula_tree formulas.items ≡ map listed_formula (map listed_tree updates.now)) }
{
    let mut formulas = Vec::new(alloc);
    for update in updates {
        formulas.push(listed_formula(alloc, update)?)?;
    }
    Ok(formulas)
}

/// A probe, so many steps later.
fn probe_formula(alloc: Global, probe: &Probe, steps: u32) -> Result<Formula, NoMemory>
    ensures { IfOk result
        (λ formula. formula_tree formula ≡ later steps (atom (test (probe_tree probe.now)))) }
{
    later(alloc, steps, Formula::Test(copy_probe(alloc, probe)?))
}

/// An update, as many steps later as its offset.
fn listed_formula(alloc: Global, update: &Listed) -> Result<Formula, NoMemory>
    ensures { IfOk result
        (λ formula. formula_tree formula ≡ listed_formula (listed_tree update.now)) }
{
    let now = Formula::Update(update.signal, copy_term(alloc, &update.term)?);
    later(alloc, update.offset, now)
}

/// A formula so many steps later.
fn later(alloc: Global, steps: u32, formula: Formula) -> Result<Formula, NoMemory>
    ensures { IfOk result
        (λ postponed. formula_tree postponed ≡ later steps (formula_tree formula)) }
{
    let mut postponed = formula;
    for _ in 0..steps {
        postponed = Formula::Next(Box::new(alloc, postponed)?);
    }
    Ok(postponed)
}
