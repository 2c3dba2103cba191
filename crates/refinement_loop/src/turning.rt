//! One turn of the loop: what is found under the windows of the rounds that were made.

ghost use Rattle.std.specs.Prelude.{◌≡◌, ◌≤◌, ◌++◌, map, length, IfOk, IfErr, IsTrue};
ghost use Rattle.std.specs.List.{list_all};
ghost use Rattle.tsl_terms.specs.Signals.{inputs_of, cells_of, outputs_of};
ghost use Rattle.tsl_terms.specs.SpecView.{spec_tree};
ghost use Rattle.tsl_terms.specs.WindowTree.{window_tree};
ghost use Rattle.program_tree.specs.Fits.{window_fits};
ghost use Rattle.program_tree.specs.ProgramView.{program_tree};
ghost use Rattle.letter_space.specs.SpaceView.{space_tree};
ghost use Rattle.letter_space.specs.SpecSpace.{spec_space};
ghost use Rattle.machines.specs.MachineView.{controller_tree, environment_tree, round_tree};
ghost use Rattle.machines.specs.Moves.{FitsSpace};
ghost use Rattle.machines.specs.Rounds.{windows_of};
ghost use Rattle.control_flow_model.specs.Flow.{IsFlowOf};
ghost use Rattle.refinement_loop.specs.declared.outcome.Bound.{Bound};
ghost use Rattle.refinement_loop.specs.Questions.{IsCounterstrategy, IsItsBound};
ghost use Rattle.refinement_loop.specs.Chains.{IsChain};
ghost use Rattle.refinement_loop.specs.Outcomes.{IsInRange, GoesOn};
ghost use Rattle.refinement_loop.specs.internal.Turns.{IsTurn, HasTurnCause};

use crate::asking::{ControllerAnswer, EnvironmentAnswer, controller_answer, environment_answer};
use crate::errors::refused_branches;
use crate::outcome::{Reason, Search};
use base_library::{NoMemory, Sequence};
use bounded_encoding::Found;
use branch_finder::find_window;
use clause_core::Clause;
use cobuchi_automata::Automaton;
use control_flow_model::flow_of;
use counterstrategy::FoundDual;
use letter_space::Space;
use machines::{Controller, Environment, Round, Side};
use program_check::CheckError;
use program_tree::Program;
use std::alloc::Global;
use tsl_terms::{Spec, Window, copy_window, equality_of, signals};

/// What a turn of the loop leads to.
#[derive(Drop)]
pub(crate) enum Turn {
    /// The program of a controller.
    Written(Program),
    /// That there is no controller, and why no further round is made.
    None(Reason),
    /// A trace on which the budget of this side's question was spent.
    Spent {
        side: Side,
        automaton: Automaton,
        clauses: Sequence<Clause>,
    },
    /// A further round.
    Further(Round),
}

/// A turn, and the bound of its question for a controller.
#[derive(Drop)]
pub(crate) struct Turned {
    pub(crate) turn: Turn,
    pub(crate) bound: u32,
}

/// What is found under the windows of the rounds that were made: the answer to the question for a controller,
/// and where there is none, whether a further round can be made.
pub(crate) fn next_turn(
    alloc: Global,
    spec: &Spec,
    space: &Space,
    search: &Search,
    rounds: &[Round],
) -> Result<Turned, CheckError>
    requires space { space_tree space.now ≡ spec_space (spec_tree spec.now) }
    requires in_range { IsInRange search.now }
    requires chain { IsChain (spec_tree spec.now) search.now (map round_tree rounds.now) }
    requires few_rounds { length rounds.now ≤ search.now.rounds }
    ensures turn { IfOk result (λ t. IsTurn (spec_tree spec.now) search.now (windows_of (map round_tree rounds.now)) t.turn) }
    ensures bound { IfOk result (λ t. IsItsBound (spec_tree spec.now) (windows_of (map round_tree rounds.now))
        search.now.states search.now.bound t.bound) }
    ensures cause { IfErr result (HasTurnCause (spec_tree spec.now) search.now (windows_of (map round_tree rounds.now))) }
{
    let windows = windows_in(alloc, rounds)?;
    let ControllerAnswer {
        automaton,
        bound,
        found,
    } = controller_answer(
        alloc,
        spec,
        space,
        windows.as_slice(),
        search.states,
        search.bound,
        search.budget,
    )?;
    match found {
        Found::Controller(controller, _) => {
            let program = program_of(alloc, spec, space, &controller, windows)?;
            let turn = Turn::Written(program);
            Ok(Turned { turn, bound })
        }
        Found::None(_, _) => {
            if rounds.len() < search.rounds as usize {
                let turn = environment_turn(alloc, spec, space, search, windows.as_slice())?;
                Ok(Turned { turn, bound })
            } else {
                let turn = Turn::None(Reason::Rounds);
                Ok(Turned { turn, bound })
            }
        }
        Found::Spent(clauses) => {
            let turn = Turn::Spent {
                side: Side::Controller,
                automaton,
                clauses,
            };
            Ok(Turned { turn, bound })
        }
    }
}

/// What is found where there is no controller and a further round may be made: the answer to the question for
/// an environment, and where there is one, whether a window is spurious in it.
fn environment_turn(
    alloc: Global,
    spec: &Spec,
    space: &Space,
    search: &Search,
    windows: &[Window],
) -> Result<Turn, CheckError>
    requires space { space_tree space.now ≡ spec_space (spec_tree spec.now) }
    requires in_range { IsInRange search.now }
    requires goes_on { GoesOn (spec_tree spec.now) search.now (map window_tree windows.now) }
    ensures turn { IfOk result (IsTurn (spec_tree spec.now) search.now (map window_tree windows.now)) }
    ensures cause { IfErr result (HasTurnCause (spec_tree spec.now) search.now (map window_tree windows.now)) }
{
    let EnvironmentAnswer { automaton, found } = environment_answer(
        alloc, spec, space, windows, search,
    )?;
    match found {
        FoundDual::Environment(environment, _) => {
            window_turn(alloc, spec, space, search, windows, environment)
        }
        FoundDual::None(_) => Ok(Turn::None(Reason::NoCounter)),
        FoundDual::Spent(clauses) => Ok(Turn::Spent {
            side: Side::Environment,
            automaton,
            clauses,
        }),
    }
}

/// What is found where there is an environment: a round with a window that is spurious in it, or that there is
/// no such window.
fn window_turn(
    alloc: Global,
    spec: &Spec,
    space: &Space,
    search: &Search,
    windows: &[Window],
    environment: Environment,
) -> Result<Turn, CheckError>
    requires space { space_tree space.now ≡ spec_space (spec_tree spec.now) }
    requires in_range { IsInRange search.now }
    requires goes_on { GoesOn (spec_tree spec.now) search.now (map window_tree windows.now) }
    requires counterstrategy { IsCounterstrategy (spec_tree spec.now) (map window_tree windows.now)
        search.now.env_states (Bound.Fixed search.now.env_bound) (environment_tree environment) }
    ensures turn { IfOk result (IsTurn (spec_tree spec.now) search.now (map window_tree windows.now)) }
    ensures cause { IfErr result (HasTurnCause (spec_tree spec.now) search.now (map window_tree windows.now)) }
{
    let lists = signals(alloc, spec)?;
    let cells = lists.cells.as_slice();
    let equality = equality_of(&spec.names);
    match find_window(alloc, &environment, space, cells, search.depth, equality) {
        Ok(Some(window)) => Ok(Turn::Further(Round {
            environment,
            window,
        })),
        Ok(None) => Ok(Turn::None(Reason::Genuine(environment))),
        Err(cause) => Err(refused_branches(cause)),
    }
}

/// The windows of rounds.
fn windows_in(alloc: Global, rounds: &[Round]) -> Result<Vec<Window>, NoMemory>
    ensures { IfOk result (λ windows. map window_tree windows.items ≡ windows_of (map round_tree rounds.now)) }
{
    let mut windows = Vec::new(alloc);
    for round in rounds {
        windows.push(copy_window(alloc, &round.window)?)?;
    }
    Ok(windows)
}

/// The program of a controller over the bits of a specification, with its signals and these windows.
fn program_of(
    alloc: Global,
    spec: &Spec,
    space: &Space,
    controller: &Controller,
    windows: Vec<Window>,
) -> Result<Program, NoMemory>
    requires space { space_tree space.now ≡ spec_space (spec_tree spec.now) }
    requires fits { FitsSpace (space_tree space.now) (controller_tree controller.now) }
    requires few_states { controller.now.states ≤ 64 }
    requires windows_fit { IsTrue (list_all (window_fits (inputs_of (spec_tree spec.now) ++ cells_of (spec_tree spec.now))
        (cells_of (spec_tree spec.now))) (map window_tree windows.items)) }
    ensures { IfOk result (λ p. IsFlowOf (controller_tree controller.now) (spec_space (spec_tree spec.now))
        (inputs_of (spec_tree spec.now)) (cells_of (spec_tree spec.now)) (outputs_of (spec_tree spec.now))
        (map window_tree windows.items) (program_tree p)) }
{
    let lists = signals(alloc, spec)?;
    flow_of(alloc, controller, space, &lists, windows)
}
