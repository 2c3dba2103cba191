//! The program of a controller.

ghost use Rattle.std.specs.Prelude.{◌≡◌, ◌++◌, ◌≤◌, map, IfOk, IsTrue};
ghost use Rattle.std.specs.List.{list_all};
ghost use Rattle.base_library.specs.Numbers.{IsDistinct};
ghost use Rattle.tsl_terms.specs.WindowTree.{window_tree};
ghost use Rattle.program_tree.specs.declared.limits.TheConstants.{MOST_STATES};
ghost use Rattle.program_tree.specs.Fits.{window_fits};
ghost use Rattle.program_tree.specs.NodeTree.{node_tree};
ghost use Rattle.program_tree.specs.ProgramView.{program_tree};
ghost use Rattle.letter_space.specs.SpaceView.{space_tree};
ghost use Rattle.machines.specs.MachineView.{controller_tree};
ghost use Rattle.machines.specs.Moves.{FitsSpace};
ghost use Rattle.control_flow_model.specs.Flow.{SpaceReadsOnly, IsFlowOf};
ghost use Rattle.control_flow_model.specs.internal.PartNodes.{AreNodesOf};

use crate::noding::{nodes_of, words_of};
use crate::reaching::reachable_states;
use crate::sharing::shared_trees;
use base_library::{NoMemory, Sequence};
use letter_space::Space;
use machines::Controller;
use program_tree::{Node, Program};
use std::alloc::Global;
use tsl_terms::{SignalLists, Window};

/// The nodes of a program, and the first node of each state.
#[derive(Drop)]
struct Flow {
    nodes: Vec<Node>,
    states: Vec<u32>,
}

/// The nodes of the program of a controller, and the first node of each state.
fn nodes_and_states(alloc: Global, controller: &Controller, space: &Space) -> Result<Flow, NoMemory>
    requires fits { FitsSpace (space_tree space.now) (controller_tree controller.now) }
    requires few_states { controller.now.states ≤ MOST_STATES }
    ensures { IfOk result (λ flow. AreNodesOf (controller_tree controller.now) (space_tree space.now)
        (map node_tree flow.nodes.items) flow.states.items) }
{
    let kept = reachable_states(alloc, controller)?;
    let shared = shared_trees(alloc, controller, space, &kept)?;
    let nodes = nodes_of(alloc, space, &kept, shared.parts.as_slice())?;
    let states = words_of(alloc, &shared.roots)?;
    Ok(Flow { nodes, states })
}

/// The same numbers.
fn copied(alloc: Global, numbers: &Sequence<u32>) -> Result<Sequence<u32>, NoMemory>
    ensures { IfOk result (λ copy. copy ≡ numbers.now) }
{
    Ok(Sequence::from_vec(numbers.as_slice().to_vec(alloc)?))
}

/// The program of a controller over the bits of a space, for these signals and windows. It has a state for each state
/// that the controller reaches from state 0, and walks from there by the predicate terms in their order to what the
/// controller does; equal nodes are one.
pub fn flow_of(
    alloc: Global,
    controller: &Controller,
    space: &Space,
    signals: &SignalLists,
    windows: Vec<Window>,
) -> Result<Program, NoMemory>
    requires fits { FitsSpace (space_tree space.now) (controller_tree controller.now) }
    requires few_states { controller.now.states ≤ MOST_STATES }
    requires signals_distinct { IsDistinct
        ((signals.now.inputs ++ signals.now.cells) ++ signals.now.outputs) }
    requires controlled { map (λ c. c.signal) (space_tree space.now).controlled
        ≡ signals.now.cells ++ signals.now.outputs }
    requires reads { SpaceReadsOnly (signals.now.inputs ++ signals.now.cells) (space_tree space.now) }
    requires windows_fit { IsTrue (list_all
        (window_fits (signals.now.inputs ++ signals.now.cells) signals.now.cells) (map window_tree windows.items)) }
    ensures program { IfOk result (λ program. IsFlowOf (controller_tree controller.now) (space_tree space.now)
        signals.now.inputs signals.now.cells signals.now.outputs (map window_tree windows.items) (program_tree program)) }
{
    let flow = nodes_and_states(alloc, controller, space)?;
    Ok(Program {
        inputs: copied(alloc, &signals.inputs)?,
        cells: copied(alloc, &signals.cells)?,
        outputs: copied(alloc, &signals.outputs)?,
        windows: Sequence::from_vec(windows),
        nodes: Sequence::from_vec(flow.nodes),
        states: Sequence::from_vec(flow.states),
    })
}
