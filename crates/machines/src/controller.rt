//! Controllers.

ghost use Rattle.std.specs.Prelude.{◌≡◌, ◌*◌, ◌<◌, ◌≤◌, map, length, Some};
ghost use Rattle.machines.specs.MachineTree.{NameStates};

use crate::moves::Move;
use base_library::{NoMemory, Sequence};
use letter_space::Space;
use std::alloc::Global;

/// What a controller does in a state under a valuation.
#[derive(Drop)]
pub struct Entry {
    /// One choice for each controlled signal, by its number among that signal's choices.
    pub choices: Sequence<u32>,
    /// The state to go to.
    pub next: u32,
}

/// A table that gives for each state and each valuation what is chosen, and the state to go to. It
/// begins in state 0, and may leave states unreached.
#[derive(Drop)]
pub struct Controller {
    /// How many states there are.
    pub states: u32,
    /// How many valuations there are.
    pub valuations: u32,
    /// The entry of state s and valuation v at s * valuations + v.
    pub entries: Sequence<Entry>,
    pub ghost has_state: { 1 ≤ states },
    pub ghost has_entries: { length entries ≡ states * valuations },
    pub ghost stays: { NameStates states (map (λ e. e.next) entries) },
}

impl Controller {
    ghost use Rattle.std.specs.Prelude.{IfOk};
    ghost use Rattle.letter_space.specs.SpaceView.{space_tree};
    ghost use Rattle.machines.specs.MachineTree.{controller_entry};
    ghost use Rattle.machines.specs.MachineView.{entry_tree, controller_tree, move_tree};
    ghost use Rattle.machines.specs.Moves.{FitsSpace, controller_moves};

    /// The entry of a state and a valuation.
    pub fn entry(&self, state: u32, valuation: u32) -> &Entry
        requires state { state < self.now.states }
        requires valuation { valuation < self.now.valuations }
        ensures { Some (entry_tree result.now) ≡ controller_entry (controller_tree self.now) state valuation }
    {
        &self.entries.as_slice()[state as usize * self.valuations as usize + valuation as usize]
    }
    /// The moves in a state: for each valuation the letter of its truths and of what is chosen, and the state
    /// to go to.
    pub fn moves(&self, alloc: Global, space: &Space, state: u32) -> Result<Vec<Move>, NoMemory>
        requires state { state < self.now.states }
        requires fits { FitsSpace (space_tree space.now) (controller_tree self.now) }
        ensures { IfOk result (λ moves. map move_tree moves.items
            ≡ controller_moves (space_tree space.now) (controller_tree self.now) state) }
    {
        let mut moves = Vec::new(alloc);
        for valuation in 0..self.valuations {
            let entry = self.entry(state, valuation);
            moves.push(Move {
                letter: space.letter(valuation, entry.choices.as_slice()),
                next: entry.next,
            })?;
        }
        Ok(moves)
    }
}
