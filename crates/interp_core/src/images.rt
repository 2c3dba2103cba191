//! The images of free terms in an algebra.

ghost use Rattle.std.specs.Prelude.{◌≡◌, Some, IsSome, IfOk, map, slice_get, option_and_then};
ghost use Rattle.std.specs.Option.{option_copied};
ghost use Rattle.tsl_terms.specs.Value.{beside};
ghost use Rattle.interp_core.specs.FreeView.{free_tree, free_trees};
ghost use Rattle.interp_core.specs.Image.{image_of, images_of, row_value};

use crate::algebra::Algebra;
use crate::free_terms::{FreeList, FreeTerm};
use crate::leaves::Leaves;
use base_library::NoMemory;
use std::alloc::Global;

/// The image of a free term: its value where a row for each step from 0 on gives the values of signals.
#[cycle(images)]
pub fn image<A: Algebra>(
    alloc: Global,
    algebra: &A,
    rows: &[Leaves<A::Value>],
    free: &FreeTerm,
) -> Result<A::Value, NoMemory>
    requires had { IsSome (image_of (A.meanings algebra.now) (row_value A.seen rows.now) (free_tree free.now)) }
    ensures { IfOk result (λ v. image_of (A.meanings algebra.now) (row_value A.seen rows.now) (free_tree free.now) ≡ Some (A.seen v)) }
{
    match free {
        FreeTerm::Leaf(signal, step) => algebra.copy(
            alloc,
            value_in(rows, *signal, *step).unwrap(),
        ),
        FreeTerm::Apply(function, arguments) => {
            let values = images(alloc, algebra, rows, arguments)?;
            algebra.apply(alloc, *function, values.as_slice())
        }
    }
}

/// The images of a list of free terms, in its order.
#[cycle(images)]
fn images<A: Algebra>(
    alloc: Global,
    algebra: &A,
    rows: &[Leaves<A::Value>],
    frees: &FreeList,
) -> Result<Vec<A::Value>, NoMemory>
    requires had { IsSome (images_of (A.meanings algebra.now) (row_value A.seen rows.now) (free_trees frees.now)) }
    ensures { IfOk result
        (λ vs. images_of (A.meanings algebra.now) (row_value A.seen rows.now) (free_trees frees.now) ≡ Some (map A.seen vs.items)) }
{
    let mut found = Vec::new(alloc);
    let mut rest = frees;
    while let FreeList::More(free, next) = rest {
        found.push(image(alloc, algebra, rows, free)?)?;
        rest = next;
    }
    Ok(found)
}

/// The value of a signal in the row of a step, if it is there.
fn value_in<V>(rows: &[Leaves<V>], signal: u32, step: u32) -> Option<&V>
    ensures { option_copied result ≡ option_and_then (λ leaves. beside signal leaves.signals leaves.values) (slice_get rows.now step) }
{
    let leaves = rows.get(step as usize)?;
    leaves.value_of(signal)
}
