//! Searches among rising formulas.

ghost use Rattle.std.specs.Prelude.{◌≡◌, ◌<◌, ◌≤◌, ◌∷◌, ◌++◌, take, drop, length, true, false, IfOk, IfErr};
ghost use Rattle.std.specs.List.Sorted.{IsPartitionPoint};
ghost use Rattle.std.specs.Ordering.{is_lt};
ghost use Rattle.ltl_formula.specs.LtlTree.{ltl_tree};
ghost use Rattle.ltl_formula.specs.LtlOrder.{tree_cmp};
ghost use Rattle.ltl_formula.specs.Increasing.{IsIncreasing, with_member};
ghost use Rattle.obligations.specs.Numbers.{lent_trees, formula_number};
ghost use Rattle.obligations.specs.internal.Searching.{IsAt, IsNotAt};

use ltl_formula::{Ltl, compare};

/// How many of rising formulas are below a formula: they are the first ones.
fn count_below(names: &[&Ltl], formula: &Ltl) -> usize
    requires { IsIncreasing tree_cmp (lent_trees names.now) }
    ensures parts { IsPartitionPoint (λ g. is_lt (tree_cmp (ltl_tree g.now) (ltl_tree formula.now)) ≡ true)
        (λ g. is_lt (tree_cmp (ltl_tree g.now) (ltl_tree formula.now)) ≡ false) names.now result }
    ensures within { result ≤ length names.now }
{
    names.partition_point(|name| compare(name, formula).is_lt())
}

/// Whether a formula stands at a place.
fn is_at(names: &[&Ltl], place: usize, formula: &Ltl) -> bool
    ensures yes { result ≡ true → IsAt names.now (ltl_tree formula.now) place }
    ensures no { result ≡ false → IsNotAt names.now (ltl_tree formula.now) place }
{
    place < names.len() && compare(names[place], formula).is_eq()
}

/// The place of a formula among rising ones; an `Err` tells the place that it would take.
#[tactic(auto, using(crate::proofs::SearchedNames::takes_place))]
pub(crate) fn find(names: &[&Ltl], formula: &Ltl) -> Result<usize, usize>
    requires { IsIncreasing tree_cmp (lent_trees names.now) }
    ensures number { IfOk result (λ place. place ≡ formula_number (lent_trees names.now) (ltl_tree formula.now)) }
    ensures within { IfOk result (λ place. place < length names.now) }
    ensures there { IfOk result (λ place. with_member tree_cmp (ltl_tree formula.now) (lent_trees names.now) ≡ lent_trees names.now) }
    ensures gap { IfErr result (λ place. with_member tree_cmp (ltl_tree formula.now) (lent_trees names.now)
        ≡ lent_trees (take place names.now) ++ ltl_tree formula.now ∷ lent_trees (drop place names.now)) }
    ensures in_range { IfErr result (λ place. place ≤ length names.now) }
    ensures new { IfErr result (λ place. formula_number (lent_trees names.now) (ltl_tree formula.now) ≡ length names.now) }
{
    let place = count_below(names, formula);
    if is_at(names, place, formula) {
        Ok(place)
    } else {
        Err(place)
    }
}
