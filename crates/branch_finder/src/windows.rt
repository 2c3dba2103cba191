//! The windows of what is seen on a path, with all its updates and equalities.

ghost use Rattle.std.specs.Prelude.{◌≡◌, ◌<◌, ◌≤◌, ◌^◌, map, length, option_map, Some, slice_get, IfOk, IfSome, IfNone};
ghost use Rattle.tsl_terms.specs.TermTree.{ProbeTree, probe_tree};
ghost use Rattle.tsl_terms.specs.WindowTree.{listed_tree, equated_tree, window_tree};
ghost use Rattle.letter_space.specs.SpaceView.{space_tree};
ghost use Rattle.machines.specs.MachineView.{environment_tree};
ghost use Rattle.branch_finder.specs.internal.Paths.{updates_along, equalities_along, path_window, IsSeen, IsSeenAlone};
ghost use Rattle.branch_finder.specs.internal.Looking.{pair_tree, IsLook};
ghost use Rattle.branch_finder.specs.internal.Thinning.{IsCandidate};
ghost use Rattle.branch_finder.specs.internal.Finding.{HasNoneBy};

use crate::looking::{Look, Pair, seen_alone, seen_pair};
use base_library::{NoMemory, Sequence};
use std::alloc::Global;
use tsl_terms::{Equated, Listed, Probe, Window, copy_probe};

/// The window of a right probe, with a left one or without, and with these updates and equalities.
fn window_of(
    alloc: Global,
    look: &Look,
    left: Option<Probe>,
    left_at: u32,
    right: u32,
    updates: Vec<Listed>,
    equalities: Vec<Equated>,
) -> Result<Window, NoMemory>
    requires short { length look.now.walk.path.now ≤ 3 }
    requires right { right < length look.now.walk.search.space.now.predicates }
    requires updates { map listed_tree updates.items
        ≡ updates_along (space_tree look.now.walk.search.space.now).controlled look.now.walk.search.cells.now 0 look.now.walk.path.now }
    requires equalities { map equated_tree equalities.items
        ≡ equalities_along (space_tree look.now.walk.search.space.now).predicates 0 look.now.walk.prints.now }
    ensures { IfOk result (λ w. (probe : ProbeTree) → slice_get (space_tree look.now.walk.search.space.now).predicates right ≡ Some probe
        → window_tree w ≡ path_window (space_tree look.now.walk.search.space.now) look.now.walk.search.cells.now look.now.walk.path.now
        look.now.walk.prints.now (option_map probe_tree left) left_at probe) }
{
    let predicates = look.walk.search.space.predicates.as_slice();
    Ok(Window {
        left,
        left_at,
        right: copy_probe(alloc, &predicates[right as usize])?,
        length: look.walk.path.len() as u32,
        updates: Sequence::from_vec(updates),
        equalities: Sequence::from_vec(equalities),
    })
}

/// The window of a pair that is seen, with these updates and equalities.
fn window_of_pair(
    alloc: Global,
    look: &Look,
    pair: Pair,
    updates: Vec<Listed>,
    equalities: Vec<Equated>,
) -> Result<Window, NoMemory>
    requires look { IsLook look.now }
    requires updates { map listed_tree updates.items
        ≡ updates_along (space_tree look.now.walk.search.space.now).controlled look.now.walk.search.cells.now 0 look.now.walk.path.now }
    requires equalities { map equated_tree equalities.items
        ≡ equalities_along (space_tree look.now.walk.search.space.now).predicates 0 look.now.walk.prints.now }
    requires seen { IsSeen (space_tree look.now.walk.search.space.now) (environment_tree look.now.walk.search.environment.now)
        look.now.walk.search.cells.now look.now.walk.search.equality look.now.walk.search.mask look.now.walk.path.now
        look.now.walk.prints.now (pair_tree pair) }
    ensures { IfOk result (λ w. IsCandidate (space_tree look.now.walk.search.space.now) (environment_tree
        look.now.walk.search.environment.now)
        look.now.walk.search.cells.now look.now.walk.search.equality (length look.now.walk.path.now) (window_tree w)) }
{
    let predicates = look.walk.search.space.predicates.as_slice();
    let left = copy_probe(alloc, &predicates[pair.left as usize])?;
    Ok(window_of(
        alloc,
        look,
        Some(left),
        pair.left_at,
        pair.right,
        updates,
        equalities,
    )?)
}

/// The window of an equality that is seen alone, with these updates and equalities.
fn window_of_right(
    alloc: Global,
    look: &Look,
    right: u32,
    updates: Vec<Listed>,
    equalities: Vec<Equated>,
) -> Result<Window, NoMemory>
    requires look { IsLook look.now }
    requires updates { map listed_tree updates.items
        ≡ updates_along (space_tree look.now.walk.search.space.now).controlled look.now.walk.search.cells.now 0 look.now.walk.path.now }
    requires equalities { map equated_tree equalities.items
        ≡ equalities_along (space_tree look.now.walk.search.space.now).predicates 0 look.now.walk.prints.now }
    requires seen { IsSeenAlone (space_tree look.now.walk.search.space.now) (environment_tree look.now.walk.search.environment.now)
        look.now.walk.search.cells.now look.now.walk.search.equality look.now.walk.search.mask look.now.walk.path.now
        look.now.walk.prints.now right }
    ensures { IfOk result (λ w. IsCandidate (space_tree look.now.walk.search.space.now) (environment_tree
        look.now.walk.search.environment.now)
        look.now.walk.search.cells.now look.now.walk.search.equality (length look.now.walk.path.now) (window_tree w)) }
{
    Ok(window_of(alloc, look, None, 0, right, updates, equalities)?)
}

/// The window of a pair that is seen or of an equality that is seen alone, with all updates and equalities of the
/// path, if there is one.
pub(crate) fn window_seen(
    alloc: Global,
    look: &Look,
    updates: Vec<Listed>,
    equalities: Vec<Equated>,
) -> Result<Option<Window>, NoMemory>
    requires look { IsLook look.now }
    requires updates { map listed_tree updates.items
        ≡ updates_along (space_tree look.now.walk.search.space.now).controlled look.now.walk.search.cells.now 0 look.now.walk.path.now }
    requires equalities { map equated_tree equalities.items
        ≡ equalities_along (space_tree look.now.walk.search.space.now).predicates 0 look.now.walk.prints.now }
    ensures some { IfOk result (λ seen. IfSome seen (λ w. IsCandidate (space_tree look.now.walk.search.space.now)
        (environment_tree look.now.walk.search.environment.now) look.now.walk.search.cells.now look.now.walk.search.equality
        (length look.now.walk.path.now) (window_tree w))) }
    ensures none { IfOk result (λ seen. IfNone seen (HasNoneBy (space_tree look.now.walk.search.space.now)
        (environment_tree look.now.walk.search.environment.now) look.now.walk.search.cells.now look.now.walk.search.equality
        look.now.walk.search.mask look.now.walk.path.now look.now.walk.prints.now)) }
{
    if let Some(pair) = seen_pair(alloc, look)? {
        return Ok(Some(window_of_pair(alloc, look, pair, updates, equalities)?));
    }
    if let Some(right) = seen_alone(alloc, look)? {
        return Ok(Some(window_of_right(alloc, look, right, updates, equalities)?));
    }
    Ok(None)
}
