//! Environments.

ghost use Rattle.std.specs.Prelude.{◌≡◌, ◌∷◌, [], IfOk};
ghost use Rattle.machines.specs.MachineView.{environment_tree};

use base_library::{NoMemory, Sequence};
use machines::Environment;
use std::alloc::Global;

/// The one environment of one state over no bits.
pub fn still_environment(alloc: Global) -> Result<Environment, NoMemory>
    ensures { IfOk result (λ e. environment_tree e
        ≡ record { states = 1; vectors = 1; truths = 0 ∷ []; next = 0 ∷ [] }) }
{
    Ok(Environment {
        states: 1,
        vectors: 1,
        truths: Sequence::from_vec(vec![in alloc; 0]?),
        next: Sequence::from_vec(vec![in alloc; 0]?),
    })
}
