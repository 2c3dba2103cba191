//! Terms over algebras, and free terms.

ghost use Rattle.std.specs.Prelude.{◌≡◌, ◌∷◌, [], IsTrue, IfOk, length};
ghost use Rattle.std.specs.List.{AllByRecursion};
ghost use Rattle.tsl_terms.specs.TermTree.{term_tree, term_trees};
ghost use Rattle.tsl_terms.specs.declared.term.Term.TheVariants.{Signal};
ghost use Rattle.tsl_terms.specs.OnlyThese.{reads_only, read_only};
ghost use Rattle.tsl_terms.specs.FreeTree.{leaf_at};
ghost use Rattle.interp_core.specs.FreeView.{free_tree};
ghost use Rattle.interp_core.specs.internal.LeavesWithin.{leaves_within};

use base_library::{NoMemory, Sequence};
use interp_core::{Algebra, FreeTerm, Leaves, TermAlgebra, Wheel, evaluate, image};
use std::alloc::Global;
use std::test::Fail;
use tsl_terms::{Term, TermList};

/// The signals 3 and 5.
fn signals_in_order(alloc: Global, first: u32, second: u32) -> Result<TermList, NoMemory>
    requires first { IsTrue (reads_only (3 ∷ 5 ∷ []) (term_tree (Signal first))) }
    requires second { IsTrue (reads_only (3 ∷ 5 ∷ []) (term_tree (Signal second))) }
    ensures { IfOk result (λ ts. IsTrue (read_only (3 ∷ 5 ∷ []) (term_trees ts))) }
{
    let terms = vec![in alloc; Term::Signal(first), Term::Signal(second)]?;
    TermList::from_vec(alloc, terms)
}

/// Signal 3 has the value 1, and signal 5 has 2.
fn two_leaves(alloc: Global) -> Result<Leaves<u32>, NoMemory>
    ensures { IfOk result (λ leaves. leaves.signals ≡ 3 ∷ 5 ∷ []) }
{
    Ok(Leaves {
        signals: Sequence::from_vec(vec![in alloc; 3, 5]?),
        values: Sequence::from_vec(vec![in alloc; 1, 2]?),
    })
}

/// The value of a term where signal 3 has the value 1 and signal 5 has 2.
fn value_of(alloc: Global, term: &Term) -> Result<u32, NoMemory>
    requires { IsTrue (reads_only (3 ∷ 5 ∷ []) (term_tree term.now)) }
{
    let wheel = Wheel { size: 1000 };
    let leaves = two_leaves(alloc)?;
    evaluate(alloc, &wheel, &leaves, term)
}

#[test]
fn arguments_are_evaluated_in_their_order(rt: HostRuntime) -> Result<(), Fail> {
    let alloc = rt.alloc();
    let term = Term::Apply(7, signals_in_order(alloc, 3, 5)?);
    assert_eq!(rt; value_of(alloc, &term)?, 12);
    let turned = Term::Apply(7, signals_in_order(alloc, 5, 3)?);
    assert_eq!(rt; value_of(alloc, &turned)?, 14);
    Ok(())
}

/// Values of the signals 3 and 5.
fn row(alloc: Global, first: u32, second: u32) -> Result<Leaves<u32>, NoMemory>
    ensures { IfOk result (λ leaves. leaves.signals ≡ 3 ∷ 5 ∷ []) }
{
    Ok(Leaves {
        signals: Sequence::from_vec(vec![in alloc; 3, 5]?),
        values: Sequence::from_vec(vec![in alloc; first, second]?),
    })
}

/// The image of a free term over two values, where signal 3 has one value at step 0 and another one at step 1.
fn image_over_two(alloc: Global, before: u32, now: u32, free: &FreeTerm) -> Result<u32, NoMemory>
    requires { IsTrue (leaves_within (3 ∷ 5 ∷ []) 2 (free_tree free.now)) }
{
    let wheel = Wheel { size: 2 };
    let rows = two_rows(alloc, before, now)?;
    image(alloc, &wheel, rows.as_slice(), free)
}

/// Rows for the steps 0 and 1.
fn two_rows(alloc: Global, before: u32, now: u32) -> Result<Vec<Leaves<u32>>, NoMemory>
    ensures many { IfOk result (λ rows. length rows.items ≡ 2) }
    ensures signals { IfOk result (λ rows. AllByRecursion (λ leaves. leaves.signals ≡ 3 ∷ 5 ∷ []) rows.items) }
{
    let first = row(alloc, before, 0)?;
    let second = row(alloc, now, 1)?;
    Ok(vec![in alloc; first, second]?)
}

/// A function on signal 3 at a step.
fn on_leaf(alloc: Global, function: u32, step: u32) -> Result<FreeTerm, NoMemory>
    requires { IsTrue (leaves_within (3 ∷ 5 ∷ []) 2 (leaf_at 3 step)) }
    ensures { IfOk result (λ free. IsTrue (leaves_within (3 ∷ 5 ∷ []) 2 (free_tree free))) }
{
    let algebra = TermAlgebra::new(Vec::new(alloc));
    algebra.apply(alloc, function, &[FreeTerm::Leaf(3, step)])
}

/// In the window `p y at 1 is p z at 1 when [y <- f x] at 0 when [z <- f x] at 0` both sides are `f` of `x` at step 0.
#[test]
fn both_sides_of_a_congruent_window_have_one_image(rt: HostRuntime) -> Result<(), Fail> {
    let alloc = rt.alloc();
    let left = on_leaf(alloc, 1, 0)?;
    let right = on_leaf(alloc, 1, 0)?;
    let later = on_leaf(alloc, 1, 1)?;
    let other = on_leaf(alloc, 2, 0)?;
    for before in 0..2u32 {
        for now in 0..2u32 {
            let value = image_over_two(alloc, before, now, &left)?;
            assert_eq!(rt; image_over_two(alloc, before, now, &right)?, value);
            assert_eq!(rt;
                image_over_two(alloc, before, now, &later)? == value,
                before == now
            );
            assert!(rt; image_over_two(alloc, before, now, &other)? != value);
        }
    }
    Ok(())
}
