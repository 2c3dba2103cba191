//! Which states each state goes to under the vectors that have all updates of a set.

ghost use Rattle.std.specs.Prelude.{◌≡◌, ◌++◌, ◌∷◌, ◌<◌, [], ℕ, false, filter, length, cond, Some, slice_get, IfOk, OnOk};
ghost use Rattle.std.specs.Option.{option_map_or};
ghost use Rattle.std.specs.List.{AllByRecursion};
ghost use Rattle.base_library.specs.Numbers.{numbers_from};
ghost use Rattle.lane_planes.specs.Planes.{is_match};
ghost use Rattle.letter_space.specs.SpaceView.{space_tree};
ghost use Rattle.machines.specs.MachineView.{environment_tree};
ghost use Rattle.branch_finder.specs.internal.Sets.{AreMasks};
ghost use Rattle.branch_finder.specs.internal.Planes.{IsPlaneOf, GoesUnder, AreLinks, AreLinksOf};

use crate::planes::{has_bit, no_bits, set_bit};
use base_library::{NoMemory, Sequence};
use lane_planes::matching;
use letter_space::Space;
use machines::Environment;
use std::alloc::Global;

/// Adds a vector at the end of others where it belongs there.
fn push_if(vectors: &mut Vec<u32>, vector: u32, belongs: bool) -> Result<(), NoMemory>
    ensures { OnOk result (vectors.new.items ≡ vectors.old.items ++ cond belongs (vector ∷ []) []) }
{
    if belongs {
        vectors.push(vector)?;
    }
    Ok(())
}

/// The vectors, of so many, whose masks have all bits of a set.
fn vectors_with(alloc: Global, masks: &[u64], count: u32, set: u64) -> Result<Vec<u32>, NoMemory>
    requires masks { length masks.now ≡ count }
    ensures { IfOk result (λ vectors. vectors.items
        ≡ filter (λ v. option_map_or (is_match set set) (slice_get masks.now v) false) (numbers_from 0 count)) }
{
    let mut plane = no_bits(alloc, masks.len())?;
    matching(masks, set, set, &mut plane);
    let mut vectors = Vec::new(alloc);
    for vector in 0..count {
        push_if(&mut vectors, vector, has_bit(&plane, vector as usize))?;
    }
    Ok(vectors)
}

/// The states that a state goes to under these vectors, as a plane.
fn link_row(
    alloc: Global,
    environment: &Environment,
    vectors: &[u32],
    state: u32,
) -> Result<Vec<u64>, NoMemory>
    requires vectors { AllByRecursion (λ v. v < environment.now.vectors) vectors.now }
    requires state { state < environment.now.states }
    ensures { IfOk result (λ row. IsPlaneOf environment.now.states
        (GoesUnder (environment_tree environment.now) vectors.now state (length vectors.now)) row.items) }
{
    let mut row = no_bits(alloc, environment.states as usize)?;
    for vector in vectors {
        set_bit(&mut row, environment.successor(state, *vector) as usize);
    }
    Ok(row)
}

/// For each state the states that it goes to under vectors with all updates of a set, as planes.
fn set_links(
    alloc: Global,
    environment: &Environment,
    _space: &Space,
    masks: &[u64],
    set: u64,
) -> Result<Sequence<Sequence<u64>>, NoMemory>
    requires masks { AreMasks (space_tree _space.now) environment.now.vectors masks.now }
    ensures { IfOk result (λ rows. AreLinks (space_tree _space.now) (environment_tree environment.now) set rows) }
{
    let vectors = vectors_with(alloc, masks, environment.vectors, set)?;
    let mut rows = Sequence::new(alloc);
    for state in 0..environment.states {
        let row = link_row(alloc, environment, vectors.as_slice(), state)?;
        rows.push(Sequence::from_vec(row))?;
    }
    Ok(rows)
}

/// For each set and each state the states that the state goes to under vectors with all updates of the set.
pub(crate) fn links_of(
    alloc: Global,
    environment: &Environment,
    space: &Space,
    masks: &[u64],
    sets: &[u64],
) -> Result<Sequence<Sequence<Sequence<u64>>>, NoMemory>
    requires masks { AreMasks (space_tree space.now) environment.now.vectors masks.now }
    ensures { IfOk result (λ links. AreLinksOf (space_tree space.now) (environment_tree environment.now) sets.now links) }
{
    let mut links = Sequence::new(alloc);
    for set in sets {
        links.push(set_links(alloc, environment, space, masks, *set)?)?;
    }
    Ok(links)
}
