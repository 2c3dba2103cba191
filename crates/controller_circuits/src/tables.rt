//! What a controller does, by place: states stand above valuations, and states that do not exist, up to a power of two, do as state 0.

ghost use Rattle.std.specs.Prelude.{◌≡◌, ℕ, ◌+◌, ◌*◌, ◌%◌, ◌<◌, ◌≤◌, ◌^◌, Some, length, slice_get, IfOk};
ghost use Rattle.letter_space.specs.SpaceTree.{choice_count};
ghost use Rattle.letter_space.specs.SpaceView.{space_tree};
ghost use Rattle.letter_space.specs.Letters.{letter_of};
ghost use Rattle.machines.specs.MachineTree.{EntryTree};
ghost use Rattle.machines.specs.MachineView.{entry_tree, controller_tree};
ghost use Rattle.machines.specs.Moves.{FitsSpace};
ghost use Rattle.controller_circuits.specs.OfController.{AreDigitsFor};
ghost use Rattle.controller_circuits.specs.internal.Tables.{padded_entry};

use base_library::NoMemory;
use letter_space::Space;
use machines::{Controller, Entry};
use std::alloc::Global;

/// How many binary digits tell so many states apart.
pub(crate) fn digits_for(states: u32) -> u32
    requires few { states ≤ 64 }
    ensures digits { AreDigitsFor states result }
    ensures few { result ≤ 6 }
{
    let mut count = 0;
    while 1 << count < states {
        count += 1;
    }
    count
}

/// How many updates there are.
pub(crate) fn update_count(space: &Space) -> u32
    ensures { result ≡ choice_count (space_tree space.now).controlled }
{
    let mut count = 0;
    for controlled in space.controlled.as_slice() {
        count += controlled.choices.len() as u32;
    }
    count
}

/// The entry of a place.
fn entry_at(controller: &Controller, place: u32) -> &Entry
    requires { 1 ≤ controller.now.valuations }
    ensures { Some (entry_tree result.now) ≡ padded_entry (controller_tree controller.now) place }
{
    let state = place / controller.valuations;
    let state = if state < controller.states { state } else { 0 };
    controller.entry(state, place % controller.valuations)
}

/// The letter of each place.
pub(crate) fn letters_of(
    alloc: Global,
    controller: &Controller,
    space: &Space,
    places: u32,
) -> Result<Vec<u64>, NoMemory>
    requires fits { FitsSpace (space_tree space.now) (controller_tree controller.now) }
    requires some { 1 ≤ controller.now.valuations }
    ensures count { IfOk result (λ letters. length letters.items ≡ places) }
    ensures letters { IfOk result (λ letters. (i : ℕ) (e : EntryTree) → i < places →
        padded_entry (controller_tree controller.now) i ≡ Some e →
        slice_get letters.items i ≡ Some (letter_of (space_tree space.now) (i % controller.now.valuations) e.choices)) }
{
    let mut letters = Vec::new(alloc);
    for place in 0..places {
        let entry = entry_at(controller, place);
        letters.push(space.letter(place % controller.valuations, entry.choices.as_slice()))?;
    }
    Ok(letters)
}

/// The next state of each place.
pub(crate) fn next_states(
    alloc: Global,
    controller: &Controller,
    places: u32,
) -> Result<Vec<u64>, NoMemory>
    requires some { 1 ≤ controller.now.valuations }
    ensures count { IfOk result (λ next. length next.items ≡ places) }
    ensures next { IfOk result (λ next. (i : ℕ) (e : EntryTree) → i < places →
        padded_entry (controller_tree controller.now) i ≡ Some e → slice_get next.items i ≡ Some e.next) }
{
    let mut next = Vec::new(alloc);
    for place in 0..places {
        next.push(u64::from(entry_at(controller, place).next))?;
    }
    Ok(next)
}
