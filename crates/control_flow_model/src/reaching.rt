//! The states that a controller reaches.

ghost use Rattle.std.specs.Prelude.{◌≡◌, ◌∷◌, ◌++◌, ◌<◌, [], length, filter, nat_eq, if◌then◌else◌, IfOk, OnOk};
ghost use Rattle.base_library.specs.Kept.{with_new};
ghost use Rattle.base_library.specs.Numbers.{is_among};
ghost use Rattle.machines.specs.MachineView.{controller_tree};
ghost use Rattle.control_flow_model.specs.Flow.{AreKept};
ghost use Rattle.control_flow_model.specs.internal.Reaching.{AddsNext, AreFound};

use base_library::NoMemory;
use machines::Controller;
use std::alloc::Global;

/// Adds a state at the end of others where it is not there.
fn add_state(found: &mut Vec<u32>, state: u32) -> Result<(), NoMemory>
    ensures { OnOk result (found.new.items ≡ with_new nat_eq found.old.items (state ∷ [])) }
{
    if !found.contains(&state) {
        found.push(state)?;
    }
    Ok(())
}

/// Adds the states that a state goes to.
fn add_next(controller: &Controller, state: u32, found: &mut Vec<u32>) -> Result<(), NoMemory>
    requires { state < controller.now.states }
    ensures { OnOk result (AddsNext (controller_tree controller.now) state found.old.items found.new.items) }
{
    for valuation in 0..controller.valuations {
        add_state(found, controller.entry(state, valuation).next)?;
    }
    Ok(())
}

/// The states that a controller reaches from state 0, in the order in which they are found.
fn found_states(alloc: Global, controller: &Controller) -> Result<Vec<u32>, NoMemory>
    ensures { IfOk result (λ found. AreFound (controller_tree controller.now) (length found.items) found.items) }
{
    let mut found = Vec::new(alloc);
    found.push(0)?;
    let mut expanded = 0;
    while expanded < found.len() {
        let state = found[expanded];
        add_next(controller, state, &mut found)?;
        expanded += 1;
    }
    Ok(found)
}

/// Adds a state at the end of a list where it belongs there.
fn push_if(list: &mut Vec<u32>, state: u32, belongs: bool) -> Result<(), NoMemory>
    ensures { OnOk result (list.new.items ≡ list.old.items ++ (if belongs then state ∷ [] else [])) }
{
    if belongs {
        list.push(state)?;
    }
    Ok(())
}

/// Whether a state is among others.
fn is_among(states: &[u32], state: u32) -> bool
    ensures { result ≡ is_among states.now state }
{
    states.iter().any(|other| *other == state)
}

/// The states that a controller reaches from state 0, by rising number.
pub(crate) fn reachable_states(alloc: Global, controller: &Controller) -> Result<Vec<u32>, NoMemory>
    ensures { IfOk result (λ kept. AreKept (controller_tree controller.now) kept.items) }
{
    let found = found_states(alloc, controller)?;
    let mut kept = Vec::new(alloc);
    for state in 0..controller.states {
        push_if(&mut kept, state, is_among(&found, state))?;
    }
    Ok(kept)
}
