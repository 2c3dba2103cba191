//! The controller of a program.

ghost use Rattle.std.specs.Prelude.{◌≡◌, ◌+◌, ◌<◌, ◌^◌, if◌then◌else◌, Some, length, map, is_some, slice_get, IfOk, IsSome, IsTrue};
ghost use Rattle.tsl_terms.specs.TermTree.{term_tree, probe_tree};
ghost use Rattle.program_tree.specs.ProgramView.{program_tree};
ghost use Rattle.program_tree.specs.Walk.{walk};
ghost use Rattle.letter_space.specs.ControlledView.{controlled_tree};
ghost use Rattle.letter_space.specs.SpaceView.{space_tree};
ghost use Rattle.letter_space.specs.Bits.{bit_of_probe, bit_of_choice};
ghost use Rattle.ltl_formula.specs.Cubes.{has_bit};
ghost use Rattle.machines.specs.MachineView.{entry_tree, controller_tree};
ghost use Rattle.control_flow_model.specs.ProgramBits.{are_terms_chosen, ProgramHasBits};
ghost use Rattle.control_flow_model.specs.ControllerOf.{truth_under, terms_picked, IsEntryOf, IsControllerOf};

use base_library::{NoMemory, Sequence};
use letter_space::{Controlled, Space};
use machines::{Controller, Entry};
use program_tree::{Node, Program};
use std::alloc::Global;
use tsl_terms::{Probe, Term};

/// The controller of a program over the bits of a space: in each state and under each valuation it chooses the terms
/// that the program assigns there, and goes to the same state. It walks through the program once for each state and
/// valuation.
pub fn controller_of(
    alloc: Global,
    program: &Program,
    space: &Space,
) -> Result<Controller, NoMemory>
    requires bits { ProgramHasBits (space_tree space.now) (program_tree program.now) }
    requires few_states { length program.now.states < 2 ^ 32 }
    ensures { IfOk result (λ c.
        IsControllerOf (space_tree space.now) (program_tree program.now) (controller_tree c)) }
{
    let states = program.states.len();
    let valuations = space.valuations();
    let mut entries = Sequence::new(alloc);
    for number in 0..states * valuations as usize {
        let state = number / valuations as usize;
        let valuation = number % valuations as usize;
        entries.push(entry_of(alloc, program, space, state, valuation as u32)?)?;
    }
    Ok(Controller {
        states: states as u32,
        valuations,
        entries,
    })
}

/// The entry of a state and a valuation.
fn entry_of(
    alloc: Global,
    program: &Program,
    space: &Space,
    state: usize,
    valuation: u32,
) -> Result<Entry, NoMemory>
    requires bits { ProgramHasBits (space_tree space.now) (program_tree program.now) }
    requires state { state < length program.now.states }
    ensures entry { IfOk result (λ e. IsEntryOf (space_tree space.now) (program_tree program.now) state valuation (entry_tree e)) }
    ensures stays { IfOk result (λ e. e.next < length program.now.states) }
{
    let action = action_under(program, space, state, valuation);
    let choices = Sequence::from_vec(picks_of(alloc, space, action.updates)?);
    Ok(Entry {
        choices,
        next: action.go,
    })
}

/// What is done at a step: the term of each cell and then of each output, and the state to go to.
#[derive(Clone, Copy)]
struct Action<'a> {
    updates: &'a [Term],
    go: u32,
}

/// What a program does in a state under a valuation.
fn action_under<'a>(program: &'a Program, space: &Space, state: usize, valuation: u32) -> Action<'a>
    requires bits { ProgramHasBits (space_tree space.now) (program_tree program.now) }
    requires state { state < length program.now.states }
    requires acts { IsSome (walk (program_tree program.now) (truth_under (space_tree space.now) valuation) state) }
    ensures walks { walk (program_tree program.now) (truth_under (space_tree space.now) valuation) state
        ≡ Some (record { updates = map term_tree result.updates.now; go = result.go }) }
    ensures chosen { IsTrue (are_terms_chosen (space_tree space.now).controlled (map term_tree result.updates.now)) }
    ensures stays { result.go < length program.now.states }
{
    let mut node = program.states.as_slice()[state];
    loop {
        match &program.nodes.as_slice()[node as usize] {
            Node::If {
                test,
                then_node,
                else_node,
            } => {
                let holds = holds_under(space, test, valuation);
                node = chosen(holds, *then_node, *else_node);
            }
            Node::Set { updates, go } => {
                return Action {
                    updates: updates.as_slice(),
                    go: *go,
                };
            }
        }
    }
}

/// The node to go to.
fn chosen(holds: bool, then_node: u32, else_node: u32) -> u32
    ensures { result ≡ if holds then then_node else else_node }
{
    if holds { then_node } else { else_node }
}

/// Whether a predicate term holds under a valuation.
fn holds_under(space: &Space, test: &Probe, valuation: u32) -> bool
    requires { IsTrue (is_some (bit_of_probe (space_tree space.now) (probe_tree test.now))) }
    ensures { truth_under (space_tree space.now) valuation (probe_tree test.now) ≡ Some result }
{
    match space.test_bit(test) {
        Some(bit) => has_bit(valuation, bit),
        None => false,
    }
}

/// Whether a valuation has a bit.
fn has_bit(valuation: u32, bit: u32) -> bool
    requires { bit < 32 }
    ensures { result ≡ has_bit bit valuation }
{
    valuation >> bit & 1 == 1
}

/// The place of each of these terms among the choices of its signal.
fn picks_of(alloc: Global, space: &Space, terms: &[Term]) -> Result<Vec<u32>, NoMemory>
    requires { IsTrue (are_terms_chosen (space_tree space.now).controlled (map term_tree terms.now)) }
    ensures { IfOk result (λ picks.
        terms_picked (space_tree space.now).controlled picks.items ≡ Some (map term_tree terms.now)) }
{
    let mut picks = Vec::new(alloc);
    for (place, controlled) in space.controlled.as_slice().iter().enumerate() {
        picks.push(pick_of(controlled, &terms[place]))?;
    }
    Ok(picks)
}

/// The place of a term among the choices of a signal.
fn pick_of(controlled: &Controlled, term: &Term) -> u32
    requires few { controlled.now.first + length controlled.now.choices < 2 ^ 32 }
    requires chosen { IsTrue (is_some (bit_of_choice (controlled_tree controlled.now) (term_tree term.now))) }
    ensures { slice_get (controlled_tree controlled.now).choices result ≡ Some (term_tree term.now) }
{
    match controlled.bit_of(term) {
        Some(bit) => bit - controlled.first,
        None => 0,
    }
}
