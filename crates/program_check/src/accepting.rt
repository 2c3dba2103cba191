//! Whether a program is accepted.

ghost use Rattle.std.specs.Prelude.{◌≡◌, ◌<◌, ◌≤◌, ◌↔◌, ◌^◌, List, length, map, IfOk, IfErr, IsTrue};
ghost use Rattle.tsl_terms.specs.FormulaTree.{formula_tree};
ghost use Rattle.tsl_terms.specs.SpecView.{spec_tree};
ghost use Rattle.tsl_terms.specs.WindowTree.{window_tree};
ghost use Rattle.program_tree.specs.ProgramView.{program_tree};
ghost use Rattle.tsl_meaning.specs.Promise.{Realizes};
ghost use Rattle.letter_space.specs.SpecSpace.{spec_space};
ghost use Rattle.letter_space.specs.SpaceView.{space_tree};
ghost use Rattle.cobuchi_automata.specs.Automata.{StateTree, IsAutomaton};
ghost use Rattle.cobuchi_automata.specs.Edges.{edge_trees};
ghost use Rattle.cobuchi_automata.specs.Refusals.{most_automaton_states, most_automaton_edges};
ghost use Rattle.cobuchi_automata.specs.Refusals.{HasTooManyChoices, HasTooManyStates, HasTooManyEdges};
ghost use Rattle.program_check.specs.Verdicts.{HasFewBits, IsOverBits, formula_for, form_for, IsVerdict, HasCheckCause};

use crate::bits::refused_node;
use crate::verdict::{CheckError, Limit, Verdict};
use crate::windows::{foreign_window, unsound_window};
use annotation_check::annotate;
use base_library::NoMemory;
use cobuchi_automata::{Automaton, BuildError, build};
use control_flow_model::controller_of;
use letter_space::{Space, space_of};
use machines::Side;
use program_tree::Program;
use std::alloc::Global;
use tsl_terms::{Formula, SignalLists, Spec, Window, signals, under, whole};
use underapprox::to_letters;

/// The first verdict on a program that applies, for annotations within a bound. At `Yes` the program realizes the
/// specification. The limits of predicate terms and of bits come before every verdict, and those of the automaton
/// before `NoAnnotation`.
pub fn accept(
    alloc: Global,
    spec: &Spec,
    program: &Program,
    bound: u32,
) -> Result<Verdict, CheckError>
    requires few_nodes { length program.now.nodes < 2 ^ 32 }
    requires few_states { length program.now.states < 2 ^ 32 }
    requires few_windows { length program.now.windows < 2 ^ 32 }
    ensures few_bits { IfOk result (λ _. HasFewBits (spec_tree spec.now)) }
    ensures verdict { IfOk result (IsVerdict (spec_tree spec.now) (program_tree program.now) bound) }
    ensures realized { IfOk result (λ v. v ≡ Verdict.Yes → Realizes (spec_tree spec.now) (program_tree program.now)) }
    ensures cause { IfErr result (HasCheckCause (spec_tree spec.now) (program_tree program.now)) }
{
    let space = space_of(alloc, spec)?;
    let lists = signals(alloc, spec)?;
    if !has_signals(program, &lists) {
        return Ok(Verdict::Signals);
    }
    if let Some(verdict) = refused_node(program, &space) {
        return Ok(verdict);
    }
    if let Some(window) = foreign_window(program, &space) {
        return Ok(Verdict::Foreign(window));
    }
    if let Some(window) = unsound_window(alloc, spec, program)? {
        return Ok(Verdict::Unsound(window));
    }
    verdict_on_runs(alloc, spec, program, &space, bound)
}

/// Whether the program has exactly these inputs, cells and outputs.
fn has_signals(program: &Program, lists: &SignalLists) -> bool
    ensures { IsTrue result ↔ ((program.now.inputs ≡ lists.now.inputs) × (program.now.cells ≡ lists.now.cells)
        × (program.now.outputs ≡ lists.now.outputs)) }
{
    program.inputs.as_slice() == lists.inputs.as_slice()
        && program.cells.as_slice() == lists.cells.as_slice()
        && program.outputs.as_slice() == lists.outputs.as_slice()
}

/// The verdict on a program over the bits of the specification: whether it has an annotation.
fn verdict_on_runs(
    alloc: Global,
    spec: &Spec,
    program: &Program,
    space: &Space,
    bound: u32,
) -> Result<Verdict, CheckError>
    requires few_states { length program.now.states < 2 ^ 32 }
    requires few_bits { HasFewBits (spec_tree spec.now) }
    requires space { space_tree space.now ≡ spec_space (spec_tree spec.now) }
    requires over { IsOverBits (spec_tree spec.now) (program_tree program.now) }
    ensures verdict { IfOk result (IsVerdict (spec_tree spec.now) (program_tree program.now) bound) }
    ensures realized { IfOk result (λ v. v ≡ Verdict.Yes → Realizes (spec_tree spec.now) (program_tree program.now)) }
    ensures cause { IfErr result (HasCheckCause (spec_tree spec.now) (program_tree program.now)) }
{
    let controller = controller_of(alloc, program, space)?;
    let windows = program.windows.as_slice();
    let automaton = automaton_for(alloc, Side::Controller, spec, windows, space)?;
    let annotation = annotate(alloc, &automaton, space, &controller, bound)?;
    match annotation {
        Some(_) => Ok(Verdict::Yes),
        None => Ok(Verdict::NoAnnotation),
    }
}

/// The automaton that is asked for under windows: for controllers that of the negation of the whole formula, for
/// environments that of the formula itself. An `Err` says which of its limits is passed.
pub fn automaton_for(
    alloc: Global,
    side: Side,
    spec: &Spec,
    windows: &[Window],
    space: &Space,
) -> Result<Automaton, BuildError>
    requires space { space_tree space.now ≡ spec_space (spec_tree spec.now) }
    ensures automaton { IfOk result (λ made. (states : List StateTree) × (length states ≡ made.states)
        × IsAutomaton (form_for side (spec_tree spec.now) (map window_tree windows.now)) states (edge_trees made.edges)) }
    ensures few_states { IfOk result (λ made. made.states ≤ most_automaton_states) }
    ensures few_edges { IfOk result (λ made. length made.edges ≤ most_automaton_edges) }
    ensures choices { IfErr result (λ e. e ≡ BuildError.Choices
        → HasTooManyChoices (form_for side (spec_tree spec.now) (map window_tree windows.now))) }
    ensures states { IfErr result (λ e. e ≡ BuildError.States
        → HasTooManyStates (form_for side (spec_tree spec.now) (map window_tree windows.now))) }
    ensures edges { IfErr result (λ e. e ≡ BuildError.Edges
        → HasTooManyEdges (form_for side (spec_tree spec.now) (map window_tree windows.now))) }
{
    let formula = asked_formula(alloc, side, spec, windows)?;
    let form = to_letters(alloc, &formula, space)?;
    build(alloc, &form)
}

/// The formula that an automaton is asked for.
fn asked_formula(
    alloc: Global,
    side: Side,
    spec: &Spec,
    windows: &[Window],
) -> Result<Formula, NoMemory>
    ensures { IfOk result (λ formula. formula_tree formula ≡ formula_for side (spec_tree spec.now) (map window_tree windows.now)) }
{
    let formula = under(alloc, windows, whole(alloc, spec)?)?;
    match side {
        Side::Controller => Ok(Formula::Not(Box::new(alloc, formula)?)),
        Side::Environment => Ok(formula),
    }
}
