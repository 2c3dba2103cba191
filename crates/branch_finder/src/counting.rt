//! How many branches there are.

ghost use Rattle.std.specs.Prelude.{◌≡◌, ◌*◌, ◌^◌, ◌<◌, ◌≤◌, ◌↔◌, IsTrue, IfOk};
ghost use Rattle.branch_finder.specs.declared.limits.TheConstants.{MOST_BRANCHES};
ghost use Rattle.branch_finder.specs.internal.Paths.{path_of};

use crate::limits::MOST_BRANCHES;
use base_library::NoMemory;
use std::alloc::Global;

/// Whether there are too many branches. Each step multiplies by the vectors, of which there is one at least, so
/// it stops where the count is over the limit.
pub(crate) fn are_too_many(predicates: u64, vectors: u32, depth: u32) -> bool
    requires few { predicates ≤ 10 }
    requires some { 1 ≤ vectors }
    ensures { IsTrue result ↔ (MOST_BRANCHES < predicates ^ 2 * vectors ^ depth) }
{
    let mut count = predicates * predicates;
    for _ in 0..depth {
        if count > MOST_BRANCHES {
            return true;
        }
        count *= u64::from(vectors);
    }
    count > MOST_BRANCHES
}

/// How many paths of so many steps there are.
pub(crate) fn count_paths(vectors: u32, steps: u32) -> u32
    requires some { 1 ≤ vectors }
    requires few { vectors ^ steps ≤ MOST_BRANCHES }
    ensures { result ≡ vectors ^ steps }
{
    let mut count = 1;
    for _ in 0..steps {
        count *= vectors;
    }
    count
}

/// The path of so many steps with a number.
pub(crate) fn path_with(
    alloc: Global,
    vectors: u32,
    steps: u32,
    number: u32,
) -> Result<Vec<u32>, NoMemory>
    requires some { 1 ≤ vectors }
    ensures { IfOk result (λ path. path.items ≡ path_of vectors steps number) }
{
    let mut path = Vec::with_capacity(alloc, steps as usize)?;
    let mut rest = number;
    let mut left = steps;
    while left > 0 {
        path.push(rest % vectors)?;
        rest /= vectors;
        left -= 1;
    }
    Ok(path)
}
