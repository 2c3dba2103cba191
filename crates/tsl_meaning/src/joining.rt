//! What constants and operators make of planes of truths along a run.

ghost use Rattle.std.specs.Prelude.{◌≡◌, ℕ, ◌+◌, Bool, length as count_of, IfOk};
ghost use Rattle.position_planes.specs.Positions.{IsPlaneOf, words_of, loop_of};
ghost use Rattle.tsl_meaning.specs.Lasso.{unary_at, binary_at};
ghost use Rattle.tsl_meaning.specs.internal.Members.{joined, of_none};

use crate::run::LoopRun;
use base_library::NoMemory;
use position_planes::{
    both, either, everywhere, finally, globally, implied, negated, next, nowhere, release, same,
    until, weak_until,
};
use std::alloc::Global;
use tsl_terms::{BinaryOperator, ManyOperator, UnaryOperator};

/// The same truth at each position.
pub(crate) fn constant_plane<V>(
    alloc: Global,
    run: &LoopRun<V>,
    holds: bool,
) -> Result<Vec<u64>, NoMemory>
    ensures { IfOk result (λ plane. IsPlaneOf (run.now.start + run.now.length) (λ _. holds) plane.items) }
{
    let positions = run.start as usize + run.length as usize;
    if holds {
        everywhere(alloc, positions)
    } else {
        nowhere(alloc, positions)
    }
}

/// What an operator makes of the truths of the formula after it.
pub(crate) fn unary_plane<V>(
    alloc: Global,
    run: &LoopRun<V>,
    operator: UnaryOperator,
    plane: Vec<u64>,
) -> Result<Vec<u64>, NoMemory>
    requires { count_of plane.items ≡ words_of (run.now.start + run.now.length) }
    ensures { IfOk result (λ made. (a : ℕ → Bool) → IsPlaneOf (run.now.start + run.now.length) a plane.items →
        IsPlaneOf (run.now.start + run.now.length) (unary_at (loop_of run.now.start run.now.length) operator a) made.items) }
{
    let start = run.start as usize;
    let round = run.length as usize;
    match operator {
        UnaryOperator::Negation => Ok(negated(plane)),
        UnaryOperator::Next => Ok(next(plane, start, round)),
        UnaryOperator::Finally => finally(alloc, plane, start, round),
        UnaryOperator::Globally => globally(alloc, plane, start, round),
    }
}

/// What an operator makes of the truths of the formulas to its left and its right.
pub(crate) fn binary_plane<V>(
    run: &LoopRun<V>,
    operator: BinaryOperator,
    left: Vec<u64>,
    right: Vec<u64>,
) -> Vec<u64>
    requires left { count_of left.items ≡ words_of (run.now.start + run.now.length) }
    requires right { count_of right.items ≡ words_of (run.now.start + run.now.length) }
    ensures { (a b : ℕ → Bool) → IsPlaneOf (run.now.start + run.now.length) a left.items →
        IsPlaneOf (run.now.start + run.now.length) b right.items →
        IsPlaneOf (run.now.start + run.now.length) (binary_at (loop_of run.now.start run.now.length) operator a b) result.items }
{
    let start = run.start as usize;
    let round = run.length as usize;
    match operator {
        BinaryOperator::Implication => implied(left, &right),
        BinaryOperator::Equivalence => same(left, &right),
        BinaryOperator::Until => until(left, &right, start, round),
        BinaryOperator::WeakUntil => weak_until(left, right, start, round),
        BinaryOperator::Release => release(left, right, start, round),
    }
}

/// What an operator makes of the truths of members so far and of one more.
pub(crate) fn joined_plane(operator: ManyOperator, left: Vec<u64>, right: &[u64]) -> Vec<u64>
    requires { count_of left.items ≡ count_of right.now }
    ensures { (n : ℕ) (a b : ℕ → Bool) → IsPlaneOf n a left.items → IsPlaneOf n b right.now →
        IsPlaneOf n (λ i. joined operator (a i) (b i)) result.items }
{
    match operator {
        ManyOperator::Conjunction => both(left, right),
        ManyOperator::Disjunction => either(left, right),
    }
}

/// Whether a conjunction or disjunction of no members holds.
pub(crate) fn of_none(operator: ManyOperator) -> bool
    ensures { result ≡ of_none operator }
{
    match operator {
        ManyOperator::Conjunction => true,
        ManyOperator::Disjunction => false,
    }
}
