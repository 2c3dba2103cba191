//! The circuit of a controller.

ghost use Rattle.std.specs.Prelude.{◌≤◌, IfOk};
ghost use Rattle.letter_space.specs.SpaceView.{space_tree};
ghost use Rattle.machines.specs.MachineView.{controller_tree};
ghost use Rattle.machines.specs.Moves.{FitsSpace};
ghost use Rattle.circuits.specs.CircuitView.{circuit_tree};
ghost use Rattle.controller_circuits.specs.OfController.{IsCircuitOf};

use crate::gates::Gates;
use crate::halving::literals_of_words;
use crate::tables::{digits_for, letters_of, next_states, update_count};
use base_library::{NoMemory, Sequence};
use circuits::Circuit;
use letter_space::Space;
use machines::Controller;
use std::alloc::Global;

/// The circuit of a controller: in each state and under each valuation its outputs are the updates that the
/// controller chooses, in the order of their bits, and its latches go on to the binary digits of the next state,
/// least first. What is the same at all entries is a constant.
pub fn circuit_of(
    alloc: Global,
    controller: &Controller,
    space: &Space,
) -> Result<Circuit, NoMemory>
    requires fits { FitsSpace (space_tree space.now) (controller_tree controller.now) }
    requires few { controller.now.states ≤ 64 }
    ensures { IfOk result (λ made.
        IsCircuitOf (space_tree space.now) (controller_tree controller.now) (circuit_tree made)) }
{
    let inputs = space.predicates.len() as u32;
    let digits = digits_for(controller.states);
    let places = 1 << (inputs + digits);
    let letters = letters_of(alloc, controller, space, places)?;
    let next = next_states(alloc, controller, places)?;
    let mut gates = Gates::new(alloc, inputs + digits);
    let outputs = literals_of_words(alloc, &mut gates, &letters, inputs, update_count(space))?;
    let latches = literals_of_words(alloc, &mut gates, &next, 0, digits)?;
    Ok(Circuit {
        inputs,
        latches: Sequence::from_vec(latches),
        outputs: Sequence::from_vec(outputs),
        gates: Sequence::from_vec(gates.made.as_slice().to_vec(alloc)?),
    })
}
