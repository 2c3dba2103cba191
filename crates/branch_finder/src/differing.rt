//! Whether the states that an environment visits differ in anything that a congruent window speaks of. Where they do
//! not, no window is spurious, however long it is, and no path has to be looked at.

ghost use Rattle.std.specs.Prelude.{◌≡◌, ◌<◌, ◌≤◌, ◌↔◌, ℕ, Bool, false, not, length, IsTrue};
ghost use Rattle.tsl_terms.specs.Congruence.{IsCongruent};
ghost use Rattle.tsl_terms.specs.WindowTree.{WindowTree};
ghost use Rattle.letter_space.specs.SpaceView.{space_tree};
ghost use Rattle.machines.specs.MachineView.{environment_tree};
ghost use Rattle.branch_finder.specs.Spurious.{IsSpurious};
ghost use Rattle.branch_finder.specs.internal.Differing.{IsEver, DifferSomewhere, IsFalseSomewhere};
ghost use Rattle.branch_finder.specs.internal.Looking.{IsSearch};

use crate::looking::{Search, have_one_predicate};
use crate::moving::is_some_with;
use crate::prints::{bit_wanted, is_set};

/// Whether a bit is as wanted in some state that is visited.
fn is_ever(search: &Search, bit: u32, wanted: bool) -> bool
    requires search { IsSearch search.now }
    requires bit { bit < length search.now.space.now.predicates }
    ensures { IsTrue result ↔ IsEver (environment_tree search.now.environment.now) bit wanted }
{
    is_some_with(search.environment, search.visited, bit_wanted(bit, wanted))
}

/// Whether the left bit is as wanted in some state that is visited, and the right one is not in some such state.
fn may_differ_as(search: &Search, left: u32, right: u32, wanted: bool) -> bool
    requires search { IsSearch search.now }
    requires left { left < length search.now.space.now.predicates }
    requires right { right < length search.now.space.now.predicates }
    ensures { result ≡ false → IsEver (environment_tree search.now.environment.now) left wanted
        → IsEver (environment_tree search.now.environment.now) right (not wanted) → ⊥ }
{
    is_ever(search, left, wanted) && is_ever(search, right, !wanted)
}

/// Whether two bits differ in some two states that are visited.
pub(crate) fn may_differ(search: &Search, left: u32, right: u32) -> bool
    requires search { IsSearch search.now }
    requires left { left < length search.now.space.now.predicates }
    requires right { right < length search.now.space.now.predicates }
    ensures { result ≡ false → (wanted : Bool) → IsEver (environment_tree search.now.environment.now) left wanted
        → IsEver (environment_tree search.now.environment.now) right (not wanted) → ⊥ }
{
    may_differ_as(search, left, right, true) || may_differ_as(search, left, right, false)
}

/// Whether two bits have one predicate and differ somewhere.
fn differ_somewhere(search: &Search, left: u32, right: u32) -> bool
    requires search { IsSearch search.now }
    requires left { left < length search.now.space.now.predicates }
    requires right { right < length search.now.space.now.predicates }
    ensures { result ≡ false
        → DifferSomewhere (space_tree search.now.space.now) (environment_tree search.now.environment.now) left right → ⊥ }
{
    have_one_predicate(search.space, left, right) && may_differ(search, left, right)
}

/// Whether a bit differs somewhere from some bit with its predicate.
fn differs_from_some(search: &Search, left: u32) -> bool
    requires search { IsSearch search.now }
    requires left { left < length search.now.space.now.predicates }
    ensures { result ≡ false → (right : ℕ) → right < length search.now.space.now.predicates
        → DifferSomewhere (space_tree search.now.space.now) (environment_tree search.now.environment.now) left right → ⊥ }
{
    for right in 0..search.space.predicates.len() as u32 {
        if differ_somewhere(search, left, right) {
            return true;
        }
    }
    false
}

/// Whether some bits with one predicate differ somewhere.
fn some_differ(search: &Search) -> bool
    requires search { IsSearch search.now }
    ensures { result ≡ false → (left right : ℕ) → left < length search.now.space.now.predicates
        → right < length search.now.space.now.predicates
        → DifferSomewhere (space_tree search.now.space.now) (environment_tree search.now.environment.now) left right → ⊥ }
{
    for left in 0..search.space.predicates.len() as u32 {
        if differs_from_some(search, left) {
            return true;
        }
    }
    false
}

/// Whether some equality is false somewhere.
fn some_is_false(search: &Search) -> bool
    requires search { IsSearch search.now }
    ensures { result ≡ false → (right : ℕ) → right < length search.now.space.now.predicates
        → IsFalseSomewhere (environment_tree search.now.environment.now) search.now.mask right → ⊥ }
{
    for right in 0..search.space.predicates.len() as u32 {
        if is_set(search.mask, right) && is_ever(search, right, false) {
            return true;
        }
    }
    false
}

/// Whether a congruent window may be spurious: not where visited states differ in nothing that one speaks of.
pub(crate) fn may_be_spurious(search: &Search) -> bool
    requires search { IsSearch search.now }
    ensures { result ≡ false → (w : WindowTree) → w.left_at ≤ w.length → IsCongruent search.now.cells.now search.now.equality w
        → IsSpurious (space_tree search.now.space.now) (environment_tree search.now.environment.now) w → ⊥ }
{
    some_differ(search) || some_is_false(search)
}
