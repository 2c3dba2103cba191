//! The updates of cells and the equalities along a path of vectors and prints.

ghost use Rattle.std.specs.Prelude.{◌≡◌, ◌++◌, ◌<◌, ◌≤◌, length, map, Some, None, IfOk, OnOk, IfSome, IfNone};
ghost use Rattle.std.specs.List.{AllByRecursion};
ghost use Rattle.tsl_terms.specs.TermTree.{term_tree, probe_tree};
ghost use Rattle.tsl_terms.specs.WindowTree.{listed_tree, equated_tree};
ghost use Rattle.letter_space.specs.ControlledView.{controlled_tree};
ghost use Rattle.letter_space.specs.SpaceView.{space_tree};
ghost use Rattle.letter_space.specs.Letters.{term_taken};
ghost use Rattle.letter_space.specs.Vectors.{vector_count};
ghost use Rattle.branch_finder.specs.internal.Paths.{update_to, updates_picked, updates_along};
ghost use Rattle.branch_finder.specs.internal.Paths.{equality_if, equalities_in, equalities_along};

use crate::prints::is_set;
use base_library::NoMemory;
use letter_space::{Controlled, Space};
use std::alloc::Global;
use tsl_terms::{Equated, Listed, Probe, Term, copy_probe, copy_term};

/// The term that a signal takes where so much is picked, if it takes one.
pub(crate) fn term_taken<'a>(
    controlled: &'a [Controlled],
    picks: &[u32],
    signal: u32,
) -> Option<&'a Term>
    requires picks { length picks.now ≡ length controlled.now }
    ensures some { IfSome result (λ term. term_taken (map controlled_tree controlled.now) picks.now signal ≡ Some (term_tree term.now)) }
    ensures none { IfNone result (term_taken (map controlled_tree controlled.now) picks.now signal ≡ None) }
{
    for (place, candidate) in controlled.iter().enumerate() {
        if candidate.signal == signal {
            return candidate.choices.as_slice().get(picks[place] as usize);
        }
    }
    None
}

/// Adds the update of a signal to the term that it takes at an offset where so much is picked, if it takes one.
fn add_update(
    alloc: Global,
    updates: &mut Vec<Listed>,
    controlled: &[Controlled],
    picks: &[u32],
    offset: u32,
    signal: u32,
) -> Result<(), NoMemory>
    requires picks { length picks.now ≡ length controlled.now }
    ensures { OnOk result (map listed_tree updates.new.items ≡ map listed_tree updates.old.items
        ++ update_to offset signal (term_taken (map controlled_tree controlled.now) picks.now signal)) }
{
    let Some(term) = term_taken(controlled, picks, signal) else {
        return Ok(());
    };
    updates.push(Listed {
        signal,
        term: copy_term(alloc, term)?,
        offset,
    })?;
    Ok(())
}

/// Adds the updates of cells at an offset, where so much is picked.
fn add_updates(
    alloc: Global,
    updates: &mut Vec<Listed>,
    controlled: &[Controlled],
    picks: &[u32],
    offset: u32,
    cells: &[u32],
) -> Result<(), NoMemory>
    requires picks { length picks.now ≡ length controlled.now }
    ensures { OnOk result (map listed_tree updates.new.items
        ≡ map listed_tree updates.old.items ++ updates_picked (map controlled_tree controlled.now) picks.now offset cells.now) }
{
    for cell in cells {
        add_update(alloc, updates, controlled, picks, offset, *cell)?;
    }
    Ok(())
}

/// The updates of cells along a path of vectors, by offset and then by the cell's place.
pub(crate) fn updates_along(
    alloc: Global,
    space: &Space,
    cells: &[u32],
    path: &[u32],
) -> Result<Vec<Listed>, NoMemory>
    requires vectors { AllByRecursion (λ v. v < vector_count (space_tree space.now).controlled) path.now }
    requires short { length path.now ≤ 3 }
    ensures { IfOk result (λ updates. map listed_tree updates.items
        ≡ updates_along (space_tree space.now).controlled cells.now 0 path.now) }
{
    let mut updates = Vec::new(alloc);
    for (offset, vector) in path.iter().enumerate() {
        let picks = space.picks(alloc, *vector)?;
        add_updates(
            alloc,
            &mut updates,
            space.controlled.as_slice(),
            &picks,
            offset as u32,
            cells,
        )?;
    }
    Ok(updates)
}

/// Adds the equality of a probe at an offset where it belongs there.
fn add_equality(
    alloc: Global,
    equalities: &mut Vec<Equated>,
    offset: u32,
    probe: &Probe,
    belongs: bool,
) -> Result<(), NoMemory>
    ensures { OnOk result (map equated_tree equalities.new.items
        ≡ map equated_tree equalities.old.items ++ equality_if belongs offset (probe_tree probe.now)) }
{
    if belongs {
        equalities.push(Equated {
            probe: copy_probe(alloc, probe)?,
            offset,
        })?;
    }
    Ok(())
}

/// Adds the equalities of a print at an offset.
fn add_equalities(
    alloc: Global,
    equalities: &mut Vec<Equated>,
    predicates: &[Probe],
    offset: u32,
    print: u32,
) -> Result<(), NoMemory>
    requires few { length predicates.now ≤ 10 }
    ensures { OnOk result (map equated_tree equalities.new.items
        ≡ map equated_tree equalities.old.items ++ equalities_in print 0 offset (map probe_tree predicates.now)) }
{
    for (bit, probe) in predicates.iter().enumerate() {
        add_equality(alloc, equalities, offset, probe, is_set(print, bit as u32))?;
    }
    Ok(())
}

/// The equalities of the prints along a path, by offset and then by bit.
pub(crate) fn equalities_along(
    alloc: Global,
    space: &Space,
    prints: &[u32],
) -> Result<Vec<Equated>, NoMemory>
    requires short { length prints.now ≤ 4 }
    ensures { IfOk result (λ equalities. map equated_tree equalities.items
        ≡ equalities_along (space_tree space.now).predicates 0 prints.now) }
{
    let mut equalities = Vec::new(alloc);
    for (offset, print) in prints.iter().enumerate() {
        add_equalities(
            alloc,
            &mut equalities,
            space.predicates.as_slice(),
            offset as u32,
            *print,
        )?;
    }
    Ok(equalities)
}
