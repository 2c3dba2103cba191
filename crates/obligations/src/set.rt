//! Sets of formulas, and choices of them.

ghost use Rattle.std.specs.Prelude.{◌≡◌, ◌∷◌, [], map, IfOk};
ghost use Rattle.ltl_formula.specs.LtlTree.{ltl_tree};
ghost use Rattle.ltl_formula.specs.LtlOrder.{tree_cmp};
ghost use Rattle.ltl_formula.specs.Increasing.{IsIncreasing};
ghost use Rattle.obligations.specs.Numbers.{lent_trees};
ghost use Rattle.obligations.specs.Named.{formula_named};

use base_library::NoMemory;
use ltl_formula::{Ltl, copy_ltl};
use std::alloc::Global;
use std::marker::Model;

/// A set of formulas. They rise strictly in the order of formulas.
#[derive(Drop)]
pub struct Set {
    formulas: Vec<Ltl>,
}

impl Model for Set {
    ghost use Rattle.std.specs.Prelude.{List, map};
    ghost use Rattle.ltl_formula.specs.declared.formula.Ltl.{Ltl};
    ghost use Rattle.ltl_formula.specs.LtlTree.{ltl_tree};
    ghost use Rattle.ltl_formula.specs.LtlOrder.{tree_cmp};
    ghost use Rattle.ltl_formula.specs.Increasing.{IsIncreasing};
    ghost use Rattle.ltl_formula.specs.contracts.formula.Ltl as ltl;
    ghost use Rattle.std.specs.Coded.{codes};

    ghost Value = { List Ltl };

    ghost coded = { Prim.hlevel (codes, ltl.the_row.coded) };

    ghost view = { λ set. set.formulas.items };

    ghost invariant = { λ set. IsIncreasing tree_cmp (map ltl_tree set.formulas.items) };
}

impl Set {
    /// The set of this formula alone.
    pub fn one(alloc: Global, formula: &Ltl) -> Result<Set, NoMemory>
        ensures { IfOk result (λ set. map ltl_tree set ≡ ltl_tree formula.now ∷ []) }
    {
        let mut formulas = Vec::new(alloc);
        formulas.push(copy_ltl(alloc, formula)?)?;
        Ok(Set { formulas })
    }

    /// The formulas, in order. It takes no memory.
    pub fn members(&self) -> &[Ltl]
        ensures value { result.now ≡ self.now }
        ensures increasing { IsIncreasing tree_cmp (map ltl_tree self.now) }
    {
        self.formulas.as_slice()
    }
}

/// A copy of the formula with a number.
fn copy_named(alloc: Global, names: &[&Ltl], number: u32) -> Result<Ltl, NoMemory>
    ensures { IfOk result (λ formula. ltl_tree formula ≡ formula_named (lent_trees names.now) number) }
{
    match names.get(number as usize) {
        Some(formula) => copy_ltl(alloc, formula),
        None => Ok(Ltl::True),
    }
}

/// The set of the formulas with these numbers.
pub(crate) fn set_named(alloc: Global, names: &[&Ltl], numbers: &[u32]) -> Result<Set, NoMemory>
    requires { IsIncreasing tree_cmp (map (formula_named (lent_trees names.now)) numbers.now) }
    ensures { IfOk result (λ set. map ltl_tree set ≡ map (formula_named (lent_trees names.now)) numbers.now) }
{
    let mut formulas = Vec::new(alloc);
    for number in numbers {
        formulas.push(copy_named(alloc, names, *number)?)?;
    }
    Ok(Set { formulas })
}
