//! Specifications.

ghost use Rattle.std.specs.Prelude.{IsTrue};
ghost use Rattle.tsl_terms.specs.FormulaTree.{formula_trees};
ghost use Rattle.tsl_terms.specs.WellFormed.{formulas_fit};

use crate::formula::FormulaList;
use crate::names::Names;

/// A specification: its names, and what is assumed and guaranteed at first and always.
///
/// Each number of a formula names what it is used as, with as many arguments as it takes. The names
/// that are used may be written, a test of a Boolean signal has that signal as its argument, each
/// `All` and `Any` has at least two members, and terms nest in brackets at most 200 deep.
#[derive(Drop)]
pub struct Spec {
    /// The names, by first appearance.
    pub names: Names,
    /// What is assumed at first.
    pub assume_first: FormulaList,
    /// What is assumed at every position.
    pub assume_always: FormulaList,
    /// What is guaranteed at first.
    pub guarantee_first: FormulaList,
    /// What is guaranteed at every position.
    pub guarantee_always: FormulaList,
    pub ghost assume_first_fits: { IsTrue (formulas_fit names (formula_trees assume_first)) },
    pub ghost assume_always_fits: { IsTrue (formulas_fit names (formula_trees assume_always)) },
    pub ghost guarantee_first_fits: { IsTrue (formulas_fit names (formula_trees guarantee_first)) },
    pub ghost guarantee_always_fits: { IsTrue (formulas_fit names (formula_trees guarantee_always)) },
}
