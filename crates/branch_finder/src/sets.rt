//! The updates of cells that vectors have, as sets of bits.

ghost use Rattle.std.specs.Prelude.{◌≡◌, ◌<◌, ◌≤◌, ◌^◌, map, length, ◌+◌, IfOk, OnOk};
ghost use Rattle.base_library.specs.Numbers.{is_among, numbers_from};
ghost use Rattle.letter_space.specs.SpaceView.{space_tree};
ghost use Rattle.letter_space.specs.Letters.{ArePicks};
ghost use Rattle.letter_space.specs.Vectors.{vector_count};
ghost use Rattle.branch_finder.specs.internal.Sets.{mask_of, bit_taken, with_updates, set_of, AreSets};

use crate::listing::term_taken;
use base_library::NoMemory;
use letter_space::Space;
use std::alloc::Global;

/// The masks of so many vectors: the bits of the updates that each one picks.
pub(crate) fn vector_masks(alloc: Global, space: &Space, vectors: u32) -> Result<Vec<u64>, NoMemory>
    requires vectors { vectors ≤ vector_count (space_tree space.now).controlled }
    ensures { IfOk result (λ masks. masks.items ≡ map (mask_of (space_tree space.now)) (numbers_from 0 vectors)) }
{
    let mut masks = Vec::new(alloc);
    for vector in 0..vectors {
        let picks = space.picks(alloc, vector)?;
        masks.push(space.letter(0, picks.as_slice()))?;
    }
    Ok(masks)
}

/// The bit of the update that a cell takes where so much is picked, as a set: none where it takes no term.
fn bit_taken(space: &Space, picks: &[u32], cell: u32) -> u64
    requires picks { ArePicks (space_tree space.now).controlled picks.now }
    ensures { result ≡ bit_taken (space_tree space.now) picks.now cell }
{
    let Some(term) = term_taken(space.controlled.as_slice(), picks, cell) else {
        return 0;
    };
    match space.update_bit(cell, term) {
        Some(bit) => 1 << bit,
        None => 0,
    }
}

/// The updates of cells where so much is picked, as a set.
fn set_picked(space: &Space, picks: &[u32], cells: &[u32]) -> u64
    requires picks { ArePicks (space_tree space.now).controlled picks.now }
    ensures { result ≡ with_updates (space_tree space.now) picks.now 0 cells.now }
{
    let mut set = 0;
    for cell in cells {
        set |= bit_taken(space, picks, *cell);
    }
    set
}

/// The sets of updates of cells that vectors have.
#[derive(Drop)]
pub(crate) struct Sets {
    /// The sets, each once.
    pub(crate) sets: Vec<u64>,
    /// For each set the first vector that has these updates of cells and no others.
    pub(crate) firsts: Vec<u32>,
}

/// Whether a set is there.
fn is_there(sets: &[u64], set: u64) -> bool
    ensures { result ≡ is_among sets.now set }
{
    sets.iter().any(|other| *other == set)
}

/// Adds a set that a vector has where it is not there.
fn add_set(
    sets: &mut Sets,
    _space: &Space,
    _cells: &[u32],
    set: u64,
    vector: u32,
) -> Result<(), NoMemory>
    requires sets { AreSets (space_tree _space.now) _cells.now vector sets.old.sets.items sets.old.firsts.items }
    requires set { set ≡ set_of (space_tree _space.now) _cells.now vector }
    ensures { OnOk result (AreSets (space_tree _space.now) _cells.now (vector + 1) sets.new.sets.items sets.new.firsts.items) }
{
    if !is_there(sets.sets.as_slice(), set) {
        sets.sets.push(set)?;
        sets.firsts.push(vector)?;
    }
    Ok(())
}

/// The sets of updates of cells that so many vectors have.
pub(crate) fn sets_of(
    alloc: Global,
    space: &Space,
    cells: &[u32],
    vectors: u32,
) -> Result<Sets, NoMemory>
    requires vectors { vectors ≤ vector_count (space_tree space.now).controlled }
    ensures sets { IfOk result (λ sets. AreSets (space_tree space.now) cells.now vectors sets.sets.items sets.firsts.items) }
    ensures small { IfOk result (λ sets. length sets.firsts.items < 2 ^ 32) }
{
    let mut sets = Sets {
        sets: Vec::new(alloc),
        firsts: Vec::new(alloc),
    };
    for vector in 0..vectors {
        let picks = space.picks(alloc, vector)?;
        let set = set_picked(space, picks.as_slice(), cells);
        add_set(&mut sets, space, cells, set, vector)?;
    }
    Ok(sets)
}
