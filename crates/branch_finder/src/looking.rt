//! Which pairs of predicate terms a path tells apart although the windows of their probes are congruent, and which
//! equalities it makes false although they are congruent without a left probe.

ghost use Rattle.std.specs.Prelude.{◌≡◌, ◌<◌, ◌≤◌, ◌↔◌, ◌-◌, ℕ, Bool, false, not, map, length, take, drop, get_or, Some, None, slice_get};
ghost use Rattle.std.specs.Prelude.{IsTrue, IfOk, IfSome, IfNone};
ghost use Rattle.tsl_terms.specs.TermTree.{ProbeTree};
ghost use Rattle.tsl_terms.specs.Congruence.{IsCongruent};
ghost use Rattle.letter_space.specs.SpaceView.{space_tree};
ghost use Rattle.machines.specs.MachineView.{environment_tree};
ghost use Rattle.branch_finder.specs.internal.Arguments.{ArePlaceLabels};
ghost use Rattle.branch_finder.specs.internal.Paths.{TellsApart, IsToldApart, IsToldFalse, path_window, IsSeen, IsSeenAlone};
ghost use Rattle.branch_finder.specs.internal.Sets.{set_of};
ghost use Rattle.branch_finder.specs.internal.Planes.{words_of};
ghost use Rattle.branch_finder.specs.internal.Looking.{pair_tree, IsSearch, IsWalk, IsLook, IsPairWithin};

use crate::differing::may_differ;
use crate::moving::{is_some_with, states_after, states_with};
use crate::prints::{bit_wanted, is_set};
use base_library::{NoMemory, Sequence};
use lane_planes::any_bit;
use letter_space::Space;
use machines::Environment;
use std::alloc::Global;
use tsl_terms::Term;

/// What a search is over.
#[derive(Clone, Copy)]
pub(crate) struct Search<'a> {
    /// The environment.
    pub(crate) environment: &'a Environment,
    /// The bits of its truths, and what its vectors pick.
    pub(crate) space: &'a Space,
    /// The cells whose updates are listed.
    pub(crate) cells: &'a [u32],
    /// The states that the environment visits, as a plane.
    pub(crate) visited: &'a [u64],
    /// The predicate that is equality, if there is one.
    pub(crate) equality: Option<u32>,
    /// The bits of the predicate terms that are equalities.
    pub(crate) mask: u32,
    /// The prints of the states: those of these bits that are true in them.
    pub(crate) prints: &'a [u32],
    /// The arguments of the predicate terms, one after the other.
    pub(crate) terms: &'a [Term],
    /// For each predicate term where its arguments begin, and then where the last one's end.
    pub(crate) starts: &'a [usize],
    /// For each set of updates of cells that a vector has, the first one that has it.
    pub(crate) firsts: &'a [u32],
    /// For each of these sets and each state, the states to go to under vectors with all its updates, as planes.
    pub(crate) links: &'a [Sequence<Sequence<u64>>],
}

/// A path of sets of updates of cells and of prints.
#[derive(Clone, Copy)]
pub(crate) struct Walk<'a> {
    /// What the search is over.
    pub(crate) search: Search<'a>,
    /// The numbers of the sets.
    pub(crate) numbers: &'a [u32],
    /// The first vectors that have them.
    pub(crate) path: &'a [u32],
    /// The prints of the states along the path, one more than sets.
    pub(crate) prints: &'a [u32],
}

/// Such a path and labels along it.
#[derive(Clone, Copy)]
pub(crate) struct Look<'a> {
    /// The path.
    pub(crate) walk: Walk<'a>,
    /// For each step the labels of the predicate terms' arguments, where all updates and equalities of the path are
    /// listed.
    pub(crate) rows: &'a [Sequence<u32>],
}

/// Two predicate terms by their bits, of which the left one stands at a step and the right one at the last step.
#[derive(Clone, Copy)]
pub(crate) struct Pair {
    /// The step.
    pub(crate) left_at: u32,
    /// The left bit.
    pub(crate) left: u32,
    /// The right bit.
    pub(crate) right: u32,
}

/// Whether a path tells a pair apart from one of these states at the pair's step, where the left bit is as
/// wanted there.
fn tells_apart(
    alloc: Global,
    walk: &Walk,
    pair: Pair,
    plane: &[u64],
    wanted: bool,
) -> Result<bool, NoMemory>
    requires walk { IsWalk walk.now }
    requires pair { IsPairWithin walk.now pair }
    requires size { length plane.now ≡ words_of walk.now.search.environment.now.states }
    ensures { IfOk result (λ is. IsTrue is ↔ TellsApart (space_tree walk.now.search.space.now)
        (environment_tree walk.now.search.environment.now) walk.now.search.mask
        (map (set_of (space_tree walk.now.search.space.now) walk.now.search.cells.now) walk.now.path.now) walk.now.prints.now
        (pair_tree pair) wanted plane.now) }
{
    let search = &walk.search;
    let at = pair.left_at as usize;
    let from = states_with(
        alloc,
        search.environment,
        plane,
        bit_wanted(pair.left, wanted),
    )?;
    let from = from.as_slice();
    if !any_bit(from) {
        return Ok(false);
    }
    let last = states_after(alloc, search, from, &walk.numbers[at..], &walk.prints[at..])?;
    Ok(is_some_with(
        search.environment,
        last.as_slice(),
        bit_wanted(pair.right, !wanted),
    ))
}

/// Whether a pair's sides are one predicate term at the last step.
fn is_one_side(walk: &Walk, pair: Pair) -> bool
    ensures { IsTrue result ↔ ((pair.left ≡ pair.right) × (pair.left_at ≡ length walk.now.path.now)) }
{
    pair.left == pair.right && pair.left_at as usize == walk.path.len()
}

/// Whether a path tells a pair apart, from some state that is visited. Two quick tests come first: one side is never told
/// apart from itself, nor are bits that do not differ in any two states that are visited.
pub(crate) fn is_told_apart(alloc: Global, walk: &Walk, pair: Pair) -> Result<bool, NoMemory>
    requires walk { IsWalk walk.now }
    requires pair { IsPairWithin walk.now pair }
    ensures { IfOk result (λ is. IsTrue is ↔ IsToldApart (space_tree walk.now.search.space.now)
        (environment_tree walk.now.search.environment.now) walk.now.search.mask
        (map (set_of (space_tree walk.now.search.space.now) walk.now.search.cells.now) walk.now.path.now) walk.now.prints.now
        (pair_tree pair)) }
{
    let search = &walk.search;
    if is_one_side(walk, pair) {
        return Ok(false);
    }
    if !may_differ(search, pair.left, pair.right) {
        return Ok(false);
    }
    let at = pair.left_at as usize;
    let plane = states_after(
        alloc,
        search,
        search.visited,
        &walk.numbers[..at],
        &walk.prints[..at + 1],
    )?;
    if tells_apart(alloc, walk, pair, plane.as_slice(), true)? {
        return Ok(true);
    }
    Ok(tells_apart(alloc, walk, pair, plane.as_slice(), false)?)
}

/// Whether a path leads from some state that is visited to one in which a bit is false.
fn is_told_false(alloc: Global, walk: &Walk, right: u32) -> Result<bool, NoMemory>
    requires walk { IsWalk walk.now }
    requires right { right < length walk.now.search.space.now.predicates }
    ensures { IfOk result (λ is. IsTrue is ↔ IsToldFalse (space_tree walk.now.search.space.now)
        (environment_tree walk.now.search.environment.now) walk.now.search.mask
        (map (set_of (space_tree walk.now.search.space.now) walk.now.search.cells.now) walk.now.path.now) walk.now.prints.now right) }
{
    let search = &walk.search;
    let last = states_after(alloc, search, search.visited, walk.numbers, walk.prints)?;
    Ok(is_some_with(
        search.environment,
        last.as_slice(),
        bit_wanted(right, false),
    ))
}

/// The part of a row from one place to before another one.
fn part(row: &[u32], from: usize, to: usize) -> &[u32]
    requires order { from ≤ to }
    requires within { to ≤ length row.now }
    ensures { result.now ≡ take (to - from) (drop from row.now) }
{
    &row[from..to]
}

/// The labels of a predicate term's arguments at a step.
fn labels<'a>(look: &Look<'a>, step: u32, bit: u32) -> &'a [u32]
    requires look { IsLook look.now }
    requires step { step ≤ length look.now.walk.path.now }
    requires bit { bit < length look.now.walk.search.space.now.predicates }
    ensures { ArePlaceLabels (space_tree look.now.walk.search.space.now).predicates look.now.rows.now step bit result.now }
{
    let starts = look.walk.search.starts;
    let from = starts[bit as usize];
    let to = starts[bit as usize + 1];
    part(look.rows[step as usize].as_slice(), from, to)
}

/// Whether two labels are the same.
fn are_both_same(both: &[u32]) -> bool
    requires { length both.now ≡ 2 }
    ensures { IsTrue result ↔ (get_or both.now 0 0 ≡ get_or both.now 1 0) }
{
    both[0] == both[1]
}

/// Whether labels are the same.
fn are_same(left: &[u32], right: &[u32]) -> bool
    ensures { IsTrue result ↔ (left.now ≡ right.now) }
{
    left == right
}

/// Whether two predicate terms have the same predicate.
pub(crate) fn have_one_predicate(space: &Space, left: u32, right: u32) -> bool
    requires left { left < length space.now.predicates }
    requires right { right < length space.now.predicates }
    ensures { (p q : ProbeTree) → slice_get (space_tree space.now).predicates left ≡ Some p
        → slice_get (space_tree space.now).predicates right ≡ Some q → IsTrue result ↔ (p.predicate ≡ q.predicate) }
{
    let predicates = space.predicates.as_slice();
    predicates[left as usize].predicate == predicates[right as usize].predicate
}

/// Whether the window of a pair's probes is congruent, where all updates and equalities of the path are listed.
fn is_congruent(look: &Look, pair: Pair) -> bool
    requires look { IsLook look.now }
    requires pair { IsPairWithin look.now.walk pair }
    ensures { (left right : ProbeTree) → slice_get (space_tree look.now.walk.search.space.now).predicates pair.left ≡ Some left
        → slice_get (space_tree look.now.walk.search.space.now).predicates pair.right ≡ Some right
        → IsTrue result ↔ IsCongruent look.now.walk.search.cells.now look.now.walk.search.equality
        (path_window (space_tree look.now.walk.search.space.now) look.now.walk.search.cells.now look.now.walk.path.now
        look.now.walk.prints.now (Some left) pair.left_at right) }
{
    let last = look.walk.path.len() as u32;
    have_one_predicate(look.walk.search.space, pair.left, pair.right)
        && are_same(
            labels(look, pair.left_at, pair.left),
            labels(look, last, pair.right),
        )
}

/// Whether the window of a probe alone is congruent, where all updates and equalities of the path are listed.
fn is_one(look: &Look, right: u32) -> bool
    requires look { IsLook look.now }
    requires right { right < length look.now.walk.search.space.now.predicates }
    ensures { (probe : ProbeTree) → slice_get (space_tree look.now.walk.search.space.now).predicates right ≡ Some probe
        → IsTrue result ↔ IsCongruent look.now.walk.search.cells.now look.now.walk.search.equality
        (path_window (space_tree look.now.walk.search.space.now) look.now.walk.search.cells.now look.now.walk.path.now
        look.now.walk.prints.now None 0 probe) }
{
    if !is_set(look.walk.search.mask, right) {
        return false;
    }
    let last = look.walk.path.len() as u32;
    are_both_same(labels(look, last, right))
}

/// Whether a pair is congruent and told apart.
fn is_seen(alloc: Global, look: &Look, pair: Pair) -> Result<bool, NoMemory>
    requires look { IsLook look.now }
    requires pair { IsPairWithin look.now.walk pair }
    ensures { IfOk result (λ is. IsTrue is ↔ IsSeen (space_tree look.now.walk.search.space.now)
        (environment_tree look.now.walk.search.environment.now) look.now.walk.search.cells.now look.now.walk.search.equality
        look.now.walk.search.mask look.now.walk.path.now look.now.walk.prints.now (pair_tree pair)) }
{
    if !is_congruent(look, pair) {
        return Ok(false);
    }
    Ok(is_told_apart(alloc, &look.walk, pair)?)
}

/// A pair that is congruent and told apart, with this left bit at this step.
fn seen_with_left(
    alloc: Global,
    look: &Look,
    left_at: u32,
    left: u32,
) -> Result<Option<Pair>, NoMemory>
    requires look { IsLook look.now }
    requires step { left_at ≤ length look.now.walk.path.now }
    requires left { left < length look.now.walk.search.space.now.predicates }
    ensures some { IfOk result (λ seen. IfSome seen (λ pair. IsSeen (space_tree look.now.walk.search.space.now)
        (environment_tree look.now.walk.search.environment.now) look.now.walk.search.cells.now look.now.walk.search.equality
        look.now.walk.search.mask look.now.walk.path.now look.now.walk.prints.now (pair_tree pair))) }
    ensures none { IfOk result (λ seen. IfNone seen ((right : ℕ) → IsSeen (space_tree look.now.walk.search.space.now)
        (environment_tree look.now.walk.search.environment.now) look.now.walk.search.cells.now look.now.walk.search.equality
        look.now.walk.search.mask
        look.now.walk.path.now look.now.walk.prints.now (record { left_at = left_at; left = left; right = right }) → ⊥)) }
{
    for right in 0..look.walk.search.space.predicates.len() as u32 {
        let pair = Pair {
            left_at,
            left,
            right,
        };
        if is_seen(alloc, look, pair)? {
            return Ok(Some(pair));
        }
    }
    Ok(None)
}

/// A pair that is congruent and told apart, with the left bit at this step.
fn seen_at(alloc: Global, look: &Look, left_at: u32) -> Result<Option<Pair>, NoMemory>
    requires look { IsLook look.now }
    requires step { left_at ≤ length look.now.walk.path.now }
    ensures some { IfOk result (λ seen. IfSome seen (λ pair. IsSeen (space_tree look.now.walk.search.space.now)
        (environment_tree look.now.walk.search.environment.now) look.now.walk.search.cells.now look.now.walk.search.equality
        look.now.walk.search.mask look.now.walk.path.now look.now.walk.prints.now (pair_tree pair))) }
    ensures none { IfOk result (λ seen. IfNone seen ((left right : ℕ) → IsSeen (space_tree look.now.walk.search.space.now)
        (environment_tree look.now.walk.search.environment.now) look.now.walk.search.cells.now look.now.walk.search.equality
        look.now.walk.search.mask
        look.now.walk.path.now look.now.walk.prints.now (record { left_at = left_at; left = left; right = right }) → ⊥)) }
{
    for left in 0..look.walk.search.space.predicates.len() as u32 {
        if let Some(pair) = seen_with_left(alloc, look, left_at, left)? {
            return Ok(Some(pair));
        }
    }
    Ok(None)
}

/// A pair that is congruent and told apart.
pub(crate) fn seen_pair(alloc: Global, look: &Look) -> Result<Option<Pair>, NoMemory>
    requires look { IsLook look.now }
    ensures some { IfOk result (λ seen. IfSome seen (λ pair. IsSeen (space_tree look.now.walk.search.space.now)
        (environment_tree look.now.walk.search.environment.now) look.now.walk.search.cells.now look.now.walk.search.equality
        look.now.walk.search.mask look.now.walk.path.now look.now.walk.prints.now (pair_tree pair))) }
    ensures none { IfOk result (λ seen. IfNone seen ((left_at left right : ℕ) → IsSeen (space_tree look.now.walk.search.space.now)
        (environment_tree look.now.walk.search.environment.now) look.now.walk.search.cells.now look.now.walk.search.equality
        look.now.walk.search.mask
        look.now.walk.path.now look.now.walk.prints.now (record { left_at = left_at; left = left; right = right }) → ⊥)) }
{
    for left_at in 0..look.walk.path.len() as u32 + 1 {
        if let Some(pair) = seen_at(alloc, look, left_at)? {
            return Ok(Some(pair));
        }
    }
    Ok(None)
}

/// Whether an equality is congruent without a left probe and told false.
fn is_seen_alone(alloc: Global, look: &Look, right: u32) -> Result<bool, NoMemory>
    requires look { IsLook look.now }
    requires right { right < length look.now.walk.search.space.now.predicates }
    ensures { IfOk result (λ is. IsTrue is ↔ IsSeenAlone (space_tree look.now.walk.search.space.now)
        (environment_tree look.now.walk.search.environment.now) look.now.walk.search.cells.now look.now.walk.search.equality
        look.now.walk.search.mask look.now.walk.path.now look.now.walk.prints.now right) }
{
    if !is_one(look, right) {
        return Ok(false);
    }
    Ok(is_told_false(alloc, &look.walk, right)?)
}

/// An equality that is congruent without a left probe and told false.
pub(crate) fn seen_alone(alloc: Global, look: &Look) -> Result<Option<u32>, NoMemory>
    requires look { IsLook look.now }
    ensures some { IfOk result (λ seen. IfSome seen (λ right. IsSeenAlone (space_tree look.now.walk.search.space.now)
        (environment_tree look.now.walk.search.environment.now) look.now.walk.search.cells.now look.now.walk.search.equality
        look.now.walk.search.mask look.now.walk.path.now look.now.walk.prints.now right)) }
    ensures none { IfOk result (λ seen. IfNone seen ((right : ℕ) → IsSeenAlone (space_tree look.now.walk.search.space.now)
        (environment_tree look.now.walk.search.environment.now) look.now.walk.search.cells.now look.now.walk.search.equality
        look.now.walk.search.mask look.now.walk.path.now look.now.walk.prints.now right → ⊥)) }
{
    for right in 0..look.walk.search.space.predicates.len() as u32 {
        if is_seen_alone(alloc, look, right)? {
            return Ok(Some(right));
        }
    }
    Ok(None)
}
