//! The programs of machines, judged.

ghost use Rattle.std.specs.Prelude.{◌≡◌, ◌≤◌, [], length, IsTrue, IfOk, IfSome};
ghost use Rattle.tsl_terms.specs.SpecView.{spec_tree};
ghost use Rattle.tsl_terms.specs.WellFormed.{SpecFits};
ghost use Rattle.program_tree.specs.declared.limits.TheConstants.{MOST_NODES, MOST_STATES};
ghost use Rattle.program_tree.specs.ProgramView.{program_tree};
ghost use Rattle.program_tree.specs.Writable.{IsWritable};
ghost use Rattle.tsl_terms.specs.Signals.{inputs_of, cells_of, outputs_of};
ghost use Rattle.tsl_meaning.specs.Promise.{Realizes};
ghost use Rattle.letter_space.specs.SpaceView.{space_tree};
ghost use Rattle.letter_space.specs.SpecSpace.{spec_space};
ghost use Rattle.cobuchi_automata.specs.Edges.{edge_trees};
ghost use Rattle.machines.specs.MachineView.{controller_tree};
ghost use Rattle.machines.specs.Moves.{FitsSpace};
ghost use Rattle.control_flow_model.specs.Flow.{IsFlowOf};
ghost use Rattle.program_check.specs.Verdicts.{HasFewBits};
ghost use Rattle.judged_controllers.specs.Rewritten.{IsAutomatonFor};

use annotation_check::annotate;
use base_library::NoMemory;
use cobuchi_automata::Automaton;
use control_flow_model::{controller_of, flow_of};
use letter_space::Space;
use machines::Controller;
use program_tree::{MOST_NODES, Program};
use std::alloc::Global;
use tsl_terms::{Spec, signals};

/// The program of a machine, if its controller has an annotation within the bound for such an automaton and it can be
/// written. Then every run of it meets the specification. None says nothing.
pub fn judged_program(
    alloc: Global,
    spec: &Spec,
    space: &Space,
    automaton: &Automaton,
    machine: &Controller,
    bound: u32,
) -> Result<Option<Program>, NoMemory>
    requires space { space_tree space.now ≡ spec_space (spec_tree spec.now) }
    requires few_bits { HasFewBits (spec_tree spec.now) }
    requires automaton { IsAutomatonFor (spec_tree spec.now) [] (edge_trees automaton.now.edges) }
    requires fits { FitsSpace (space_tree space.now) (controller_tree machine.now) }
    requires few_states { machine.now.states ≤ MOST_STATES }
    ensures realizes { IfOk result (λ found. IfSome found (λ p. Realizes (spec_tree spec.now) (program_tree p))) }
    ensures few_states { IfOk result (λ found. IfSome found (λ p. length p.states ≤ machine.now.states)) }
    ensures writable { SpecFits (spec_tree spec.now) → IfOk result (λ found. IfSome found (λ p. IsWritable spec.now.names (program_tree p))) }
{
    let program = program_of(alloc, spec, space, machine)?;
    if !is_small(&program) {
        return Ok(None);
    }
    let table = controller_of(alloc, &program, space)?;
    let annotation = annotate(alloc, automaton, space, &table, bound)?;
    match annotation {
        Some(_) => Ok(Some(program)),
        None => Ok(None),
    }
}

/// The program of a machine, with the signals of the specification and no windows.
fn program_of(
    alloc: Global,
    spec: &Spec,
    space: &Space,
    machine: &Controller,
) -> Result<Program, NoMemory>
    requires space { space_tree space.now ≡ spec_space (spec_tree spec.now) }
    requires fits { FitsSpace (space_tree space.now) (controller_tree machine.now) }
    requires few_states { machine.now.states ≤ MOST_STATES }
    ensures { IfOk result (λ p. IsFlowOf (controller_tree machine.now) (spec_space (spec_tree spec.now))
        (inputs_of (spec_tree spec.now)) (cells_of (spec_tree spec.now)) (outputs_of (spec_tree spec.now)) [] (program_tree p)) }
{
    let lists = signals(alloc, spec)?;
    flow_of(alloc, machine, space, &lists, Vec::new(alloc))
}

/// Whether a program has no more nodes than its text may have.
fn is_small(program: &Program) -> bool
    ensures { IsTrue result → length program.now.nodes ≤ MOST_NODES }
{
    program.nodes.len() <= MOST_NODES
}
