//! Environments.

ghost use Rattle.std.specs.Prelude.{◌≡◌, ◌*◌, ◌<◌, ◌≤◌, length, Some};
ghost use Rattle.machines.specs.MachineTree.{NameStates};

use crate::moves::Move;
use base_library::{NoMemory, Sequence};
use letter_space::Space;
use std::alloc::Global;

/// A table that gives for each state what is true there, and for each vector of choices the state to go
/// to. It begins in state 0, and may leave states unreached.
#[derive(Debug, Drop)]
pub struct Environment {
    /// How many states there are.
    pub states: u32,
    /// How many vectors of choices there are.
    pub vectors: u32,
    /// The valuation of each state.
    pub truths: Sequence<u32>,
    /// The state to go to from state s under vector u at s * vectors + u.
    pub next: Sequence<u32>,
    pub ghost has_state: { 1 ≤ states },
    pub ghost has_truths: { length truths ≡ states },
    pub ghost has_next: { length next ≡ states * vectors },
    pub ghost stays: { NameStates states next },
}

impl Environment {
    ghost use Rattle.std.specs.Prelude.{map, IfOk};
    ghost use Rattle.letter_space.specs.SpaceView.{space_tree};
    ghost use Rattle.machines.specs.MachineTree.{successor_at};
    ghost use Rattle.machines.specs.MachineView.{environment_tree, move_tree};
    ghost use Rattle.machines.specs.Moves.{EnvironmentFits, environment_moves};

    /// The state to go to from a state under a vector.
    pub fn successor(&self, state: u32, vector: u32) -> u32
        requires state { state < self.now.states }
        requires vector { vector < self.now.vectors }
        ensures { Some result ≡ successor_at (environment_tree self.now) state vector }
    {
        self.next.as_slice()[state as usize * self.vectors as usize + vector as usize]
    }

    /// The moves in a state: for each vector the letter of what is true there and of what the vector picks,
    /// and the state to go to.
    pub fn moves(&self, alloc: Global, space: &Space, state: u32) -> Result<Vec<Move>, NoMemory>
        requires state { state < self.now.states }
        requires fits { EnvironmentFits (space_tree space.now) (environment_tree self.now) }
        ensures { IfOk result (λ moves. map move_tree moves.items
            ≡ environment_moves (space_tree space.now) (environment_tree self.now) state) }
    {
        let truths = self.truths.as_slice()[state as usize];
        let mut moves = Vec::new(alloc);
        for vector in 0..self.vectors {
            let picks = space.picks(alloc, vector)?;
            moves.push(Move {
                letter: space.letter(truths, picks.as_slice()),
                next: self.successor(state, vector),
            })?;
        }
        Ok(moves)
    }
}
