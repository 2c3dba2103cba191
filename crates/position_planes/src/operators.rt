//! What operators make of the truths along a loop of `start + round` positions, whose last position
//! goes on to position `start`.

ghost use Rattle.std.specs.Prelude.{◌≡◌, ℕ, ◌+◌, ◌≤◌, ◌<◌, ◌^◌, Bool, not, ◌&&◌, ◌||◌, length, IfOk};
ghost use Rattle.lane_planes.specs.Planes.{same_bit};
ghost use Rattle.loop_shape.specs.AlongLoop.{next_at, finally_at, globally_at, until_at, release_at, weak_until_at};
ghost use Rattle.position_planes.specs.Positions.{IsPlaneOf, loop_of, words_of};

use crate::carrying::{carried_to, carry_into, shift_into};
use crate::positions::{everywhere, is_set};
use base_library::NoMemory;
use lane_planes::{and_into, equal_into, not_into, or_into};
use std::alloc::Global;

/// Where it does not hold.
pub fn negated(plane: Vec<u64>) -> Vec<u64>
    ensures size { length result.items ≡ length plane.items }
    ensures truths { (n : ℕ) (a : ℕ → Bool) → IsPlaneOf n a plane.items → IsPlaneOf n (λ i. not (a i)) result.items }
{
    let mut truths = plane;
    not_into(&mut truths);
    truths
}

/// Where both hold.
pub fn both(left: Vec<u64>, right: &[u64]) -> Vec<u64>
    requires { length left.items ≡ length right.now }
    ensures size { length result.items ≡ length left.items }
    ensures truths { (n : ℕ) (a b : ℕ → Bool) → IsPlaneOf n a left.items → IsPlaneOf n b right.now →
        IsPlaneOf n (λ i. a i && b i) result.items }
{
    let mut truths = left;
    and_into(&mut truths, right);
    truths
}

/// Where one of both holds.
pub fn either(left: Vec<u64>, right: &[u64]) -> Vec<u64>
    requires { length left.items ≡ length right.now }
    ensures size { length result.items ≡ length left.items }
    ensures truths { (n : ℕ) (a b : ℕ → Bool) → IsPlaneOf n a left.items → IsPlaneOf n b right.now →
        IsPlaneOf n (λ i. a i || b i) result.items }
{
    let mut truths = left;
    or_into(&mut truths, right);
    truths
}

/// Where the left one does not hold, or the right one does.
pub fn implied(left: Vec<u64>, right: &[u64]) -> Vec<u64>
    requires { length left.items ≡ length right.now }
    ensures size { length result.items ≡ length left.items }
    ensures truths { (n : ℕ) (a b : ℕ → Bool) → IsPlaneOf n a left.items → IsPlaneOf n b right.now →
        IsPlaneOf n (λ i. not (a i) || b i) result.items }
{
    either(negated(left), right)
}

/// Where both hold or none does.
pub fn same(left: Vec<u64>, right: &[u64]) -> Vec<u64>
    requires { length left.items ≡ length right.now }
    ensures size { length result.items ≡ length left.items }
    ensures truths { (n : ℕ) (a b : ℕ → Bool) → IsPlaneOf n a left.items → IsPlaneOf n b right.now →
        IsPlaneOf n (λ i. same_bit (a i) (b i)) result.items }
{
    let mut truths = left;
    equal_into(&mut truths, right);
    truths
}

/// Where it holds at the position after.
pub fn next(plane: Vec<u64>, start: usize, round: usize) -> Vec<u64>
    requires goes_on { 1 ≤ round }
    requires size { length plane.items ≡ words_of (start + round) }
    ensures { (a : ℕ → Bool) → IsPlaneOf (start + round) a plane.items →
        IsPlaneOf (start + round) (next_at (loop_of start round) a) result.items }
{
    let mut truths = plane;
    next_into(&mut truths, start, round);
    truths
}

/// Where it holds at some position from there on.
pub fn finally(
    alloc: Global,
    plane: Vec<u64>,
    start: usize,
    round: usize,
) -> Result<Vec<u64>, NoMemory>
    requires goes_on { 1 ≤ round }
    requires small { start + round < 2 ^ 64 }
    requires size { length plane.items ≡ words_of (start + round) }
    ensures { IfOk result (λ made. (a : ℕ → Bool) → IsPlaneOf (start + round) a plane.items →
        IsPlaneOf (start + round) (finally_at (loop_of start round) a) made.items) }
{
    Ok(until(everywhere(alloc, start + round)?, &plane, start, round))
}

/// Where it holds at every position from there on.
pub fn globally(
    alloc: Global,
    plane: Vec<u64>,
    start: usize,
    round: usize,
) -> Result<Vec<u64>, NoMemory>
    requires goes_on { 1 ≤ round }
    requires small { start + round < 2 ^ 64 }
    requires size { length plane.items ≡ words_of (start + round) }
    ensures { IfOk result (λ made. (a : ℕ → Bool) → IsPlaneOf (start + round) a plane.items →
        IsPlaneOf (start + round) (globally_at (loop_of start round) a) made.items) }
{
    let fails = finally(alloc, negated(plane), start, round)?;
    Ok(negated(fails))
}

/// Where the left one holds until the right one, which comes.
pub fn until(left: Vec<u64>, right: &[u64], start: usize, round: usize) -> Vec<u64>
    requires goes_on { 1 ≤ round }
    requires left { length left.items ≡ words_of (start + round) }
    requires right { length right.now ≡ words_of (start + round) }
    ensures size { length result.items ≡ words_of (start + round) }
    ensures truths { (a b : ℕ → Bool) → IsPlaneOf (start + round) a left.items → IsPlaneOf (start + round) b right.now →
        IsPlaneOf (start + round) (until_at (loop_of start round) a b) result.items }
{
    let mut truths = left;
    until_into(&mut truths, right, start, round);
    truths
}

/// Where the right one holds until and with the left one, which may never come.
pub fn release(left: Vec<u64>, right: Vec<u64>, start: usize, round: usize) -> Vec<u64>
    requires goes_on { 1 ≤ round }
    requires left { length left.items ≡ words_of (start + round) }
    requires right { length right.items ≡ words_of (start + round) }
    ensures { (a b : ℕ → Bool) → IsPlaneOf (start + round) a left.items → IsPlaneOf (start + round) b right.items →
        IsPlaneOf (start + round) (release_at (loop_of start round) a b) result.items }
{
    let fails = negated(right);
    negated(until(negated(left), &fails, start, round))
}

/// Where the left one holds until the right one, which may never come.
pub fn weak_until(left: Vec<u64>, right: Vec<u64>, start: usize, round: usize) -> Vec<u64>
    requires goes_on { 1 ≤ round }
    requires left { length left.items ≡ words_of (start + round) }
    requires right { length right.items ≡ words_of (start + round) }
    ensures { (a b : ℕ → Bool) → IsPlaneOf (start + round) a left.items → IsPlaneOf (start + round) b right.items →
        IsPlaneOf (start + round) (weak_until_at (loop_of start round) a b) result.items }
{
    let kept = either(left, &right);
    release(right, kept, start, round)
}

/// Puts at each position what holds at the position after it.
fn next_into(plane: &mut [u64], start: usize, round: usize)
    requires goes_on { 1 ≤ round }
    requires size { length plane.old ≡ words_of (start + round) }
    ensures { (a : ℕ → Bool) → IsPlaneOf (start + round) a plane.old →
        IsPlaneOf (start + round) (next_at (loop_of start round) a) plane.new }
{
    let at_start = is_set(plane, round - 1);
    shift_into(plane, at_start);
}

/// Puts at each position whether the right one holds at one that is reached, and the left one at
/// those before it. The first pass finds what holds at the position `start`, to which the last one
/// goes on.
fn until_into(left: &mut [u64], right: &[u64], start: usize, round: usize)
    requires paired { length left.old ≡ length right.now }
    requires goes_on { 1 ≤ round }
    requires size { length left.old ≡ words_of (start + round) }
    ensures { (a b : ℕ → Bool) → IsPlaneOf (start + round) a left.old → IsPlaneOf (start + round) b right.now →
        IsPlaneOf (start + round) (until_at (loop_of start round) a b) left.new }
{
    let at_start = carried_to(left, right, round - 1);
    carry_into(left, right, at_start);
}
