//! The decision trees of states, whose equal parts are one.

ghost use Rattle.std.specs.Prelude.{ℕ, ◌≡◌, ◌<◌, Some, slice_get, IfOk};
ghost use Rattle.letter_space.specs.SpaceView.{space_tree};
ghost use Rattle.machines.specs.MachineView.{controller_tree};
ghost use Rattle.machines.specs.Moves.{FitsSpace};
ghost use Rattle.control_flow_model.specs.internal.Parts.{part_keys, AreShared};

use crate::parting::{Part, number_of_tree};
use base_library::NoMemory;
use indexmap::IndexSet;
use letter_space::Space;
use machines::Controller;
use std::alloc::Global;

/// The parts of the trees of states, and the number of each state's tree.
#[derive(Drop)]
pub(crate) struct Shared {
    /// The parts.
    pub(crate) parts: IndexSet<Part>,
    /// The number of each state's tree.
    pub(crate) roots: Vec<usize>,
}

/// The decision trees of states, in their order.
pub(crate) fn shared_trees(
    alloc: Global,
    controller: &Controller,
    space: &Space,
    kept: &[u32],
) -> Result<Shared, NoMemory>
    requires fits { FitsSpace (space_tree space.now) (controller_tree controller.now) }
    requires states { (i s : ℕ) → slice_get kept.now i ≡ Some s → s < controller.now.states }
    ensures { IfOk result (λ shared. AreShared (space_tree space.now) (controller_tree controller.now) kept.now
        (part_keys shared.parts.keys) shared.roots.items) }
{
    let bits = space.predicates.len() as u32;
    let mut parts = IndexSet::new(alloc);
    let mut roots = Vec::new(alloc);
    for state in kept {
        roots.push(number_of_tree(alloc, &mut parts, controller, *state, bits, 0, 0)?)?;
    }
    Ok(Shared { parts, roots })
}
