//! Laws of the definitions: each function does nothing, and its contract is the law.

ghost use Rattle.std.specs.Prelude.{◌≡◌};
ghost use Rattle.std.specs.Cmp.{IsTotalOrder};
ghost use Rattle.std.specs.declared.cmp.Ordering.TheVariants.{Equal};
ghost use Rattle.ltl_formula.specs.LtlTree.{LtlTree};
ghost use Rattle.ltl_formula.specs.LtlOrder.{tree_cmp};

/// The order of formulas is total, and formulas are equal in it only where they are the same.
pub fn formulas_are_ordered()
    ensures total { IsTotalOrder tree_cmp }
    ensures equal { (f g : LtlTree) → tree_cmp f g ≡ Equal → f ≡ g }
{}
