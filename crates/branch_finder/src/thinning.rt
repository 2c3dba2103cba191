//! Windows without the updates and equalities that they do not need.

ghost use Rattle.std.specs.Prelude.{◌≡◌, ◌++◌, ◌+◌, ◌<◌, ◌≤◌, length, map, IfOk, OnOk};
ghost use Rattle.tsl_terms.specs.WindowTree.{listed_tree, equated_tree, window_tree};
ghost use Rattle.letter_space.specs.SpaceView.{space_tree};
ghost use Rattle.machines.specs.MachineView.{environment_tree};
ghost use Rattle.branch_finder.specs.Finding.{without_update, without_equality};
ghost use Rattle.branch_finder.specs.internal.Thinning.{IsCandidate, AreNeededFrom, AreEqualitiesNeededFrom};

use crate::looking::Search;
use base_library::{NoMemory, Sequence};
use std::alloc::Global;
use term_congruence::congruent;
use tsl_terms::{Equated, Listed, Window, copy_probe, copy_term, copy_window};

/// Adds equal updates at the end of others.
fn add_copies(alloc: Global, copies: &mut Vec<Listed>, updates: &[Listed]) -> Result<(), NoMemory>
    ensures { OnOk result (map listed_tree copies.new.items ≡ map listed_tree copies.old.items ++ map listed_tree updates.now) }
{
    for update in updates {
        copies.push(Listed {
            signal: update.signal,
            term: copy_term(alloc, &update.term)?,
            offset: update.offset,
        })?;
    }
    Ok(())
}

/// The window without the update at a place.
fn without_update(alloc: Global, window: &Window, place: usize) -> Result<Window, NoMemory>
    requires { place < length window.now.updates }
    ensures { IfOk result (λ w. window_tree w ≡ without_update place (window_tree window.now)) }
{
    let updates = window.updates.as_slice();
    let mut rest = Vec::new(alloc);
    add_copies(alloc, &mut rest, &updates[..place])?;
    add_copies(alloc, &mut rest, &updates[place + 1..])?;
    let Window {
        left,
        left_at,
        right,
        length,
        equalities,
        ..
    } = copy_window(alloc, window)?;
    Ok(Window {
        left,
        left_at,
        right,
        length,
        updates: Sequence::from_vec(rest),
        equalities,
    })
}

/// Adds equal equalities at the end of others.
fn add_equal_copies(
    alloc: Global,
    copies: &mut Vec<Equated>,
    equalities: &[Equated],
) -> Result<(), NoMemory>
    ensures { OnOk result (map equated_tree copies.new.items ≡ map equated_tree copies.old.items ++ map equated_tree equalities.now) }
{
    for equality in equalities {
        copies.push(Equated {
            probe: copy_probe(alloc, &equality.probe)?,
            offset: equality.offset,
        })?;
    }
    Ok(())
}

/// The window without the equality at a place.
fn without_equality(alloc: Global, window: &Window, place: usize) -> Result<Window, NoMemory>
    requires { place < length window.now.equalities }
    ensures { IfOk result (λ w. window_tree w ≡ without_equality place (window_tree window.now)) }
{
    let equalities = window.equalities.as_slice();
    let mut rest = Vec::new(alloc);
    add_equal_copies(alloc, &mut rest, &equalities[..place])?;
    add_equal_copies(alloc, &mut rest, &equalities[place + 1..])?;
    let Window {
        left,
        left_at,
        right,
        length,
        updates,
        ..
    } = copy_window(alloc, window)?;
    Ok(Window {
        left,
        left_at,
        right,
        length,
        updates,
        equalities: Sequence::from_vec(rest),
    })
}

/// The window without the update at a place, where it stays congruent, and otherwise as it is.
fn thinned_at(
    alloc: Global,
    search: &Search,
    window: Window,
    place: usize,
) -> Result<Window, NoMemory>
    requires candidate { IsCandidate (space_tree search.now.space.now) (environment_tree search.now.environment.now)
        search.now.cells.now search.now.equality window.length (window_tree window) }
    requires place { place < length window.updates }
    requires needed { AreNeededFrom search.now.cells.now search.now.equality (place + 1) (window_tree window) }
    ensures candidate { IfOk result (λ w. IsCandidate (space_tree search.now.space.now) (environment_tree search.now.environment.now)
        search.now.cells.now search.now.equality window.length (window_tree w)) }
    ensures place { IfOk result (λ w. place ≤ length w.updates) }
    ensures needed { IfOk result (λ w. AreNeededFrom search.now.cells.now search.now.equality place (window_tree w)) }
{
    let thinner = without_update(alloc, &window, place)?;
    if congruent(alloc, &thinner, search.cells, search.equality)? {
        return Ok(thinner);
    }
    Ok(window)
}

/// The window without the updates that it does not need.
fn with_needed_updates(alloc: Global, search: &Search, found: Window) -> Result<Window, NoMemory>
    requires { IsCandidate (space_tree search.now.space.now) (environment_tree search.now.environment.now)
        search.now.cells.now search.now.equality found.length (window_tree found) }
    ensures candidate { IfOk result (λ w. IsCandidate (space_tree search.now.space.now) (environment_tree search.now.environment.now)
        search.now.cells.now search.now.equality found.length (window_tree w)) }
    ensures needed { IfOk result (λ w. AreNeededFrom search.now.cells.now search.now.equality 0 (window_tree w)) }
{
    let mut window = found;
    let mut place = window.updates.len();
    while place > 0 {
        place -= 1;
        window = thinned_at(alloc, search, window, place)?;
    }
    Ok(window)
}

/// The window without the equality at a place, where it stays congruent, and otherwise as it is.
fn unequal_at(
    alloc: Global,
    search: &Search,
    window: Window,
    place: usize,
) -> Result<Window, NoMemory>
    requires candidate { IsCandidate (space_tree search.now.space.now) (environment_tree search.now.environment.now)
        search.now.cells.now search.now.equality window.length (window_tree window) }
    requires place { place < length window.equalities }
    requires updates { AreNeededFrom search.now.cells.now search.now.equality 0 (window_tree window) }
    requires needed { AreEqualitiesNeededFrom search.now.cells.now search.now.equality (place + 1) (window_tree window) }
    ensures candidate { IfOk result (λ w. IsCandidate (space_tree search.now.space.now) (environment_tree search.now.environment.now)
        search.now.cells.now search.now.equality window.length (window_tree w)) }
    ensures place { IfOk result (λ w. place ≤ length w.equalities) }
    ensures updates { IfOk result (λ w. AreNeededFrom search.now.cells.now search.now.equality 0 (window_tree w)) }
    ensures needed { IfOk result (λ w. AreEqualitiesNeededFrom search.now.cells.now search.now.equality place (window_tree w)) }
{
    let thinner = without_equality(alloc, &window, place)?;
    if congruent(alloc, &thinner, search.cells, search.equality)? {
        return Ok(thinner);
    }
    Ok(window)
}

/// The window without the equalities that it does not need.
fn with_needed_equalities(alloc: Global, search: &Search, found: Window) -> Result<Window, NoMemory>
    requires candidate { IsCandidate (space_tree search.now.space.now) (environment_tree search.now.environment.now)
        search.now.cells.now search.now.equality found.length (window_tree found) }
    requires updates { AreNeededFrom search.now.cells.now search.now.equality 0 (window_tree found) }
    ensures candidate { IfOk result (λ w. IsCandidate (space_tree search.now.space.now) (environment_tree search.now.environment.now)
        search.now.cells.now search.now.equality found.length (window_tree w)) }
    ensures updates { IfOk result (λ w. AreNeededFrom search.now.cells.now search.now.equality 0 (window_tree w)) }
    ensures needed { IfOk result (λ w. AreEqualitiesNeededFrom search.now.cells.now search.now.equality 0 (window_tree w)) }
{
    let mut window = found;
    let mut place = window.equalities.len();
    while place > 0 {
        place -= 1;
        window = unequal_at(alloc, search, window, place)?;
    }
    Ok(window)
}

/// The window with those of its updates and equalities that it needs: without any one of them it is not congruent.
pub(crate) fn needed_window(
    alloc: Global,
    search: &Search,
    window: Window,
) -> Result<Window, NoMemory>
    requires { IsCandidate (space_tree search.now.space.now) (environment_tree search.now.environment.now)
        search.now.cells.now search.now.equality window.length (window_tree window) }
    ensures candidate { IfOk result (λ w. IsCandidate (space_tree search.now.space.now) (environment_tree search.now.environment.now)
        search.now.cells.now search.now.equality window.length (window_tree w)) }
    ensures updates { IfOk result (λ w. AreNeededFrom search.now.cells.now search.now.equality 0 (window_tree w)) }
    ensures equalities { IfOk result (λ w. AreEqualitiesNeededFrom search.now.cells.now search.now.equality 0 (window_tree w)) }
{
    let thinned = with_needed_updates(alloc, search, window)?;
    Ok(with_needed_equalities(alloc, search, thinned)?)
}
