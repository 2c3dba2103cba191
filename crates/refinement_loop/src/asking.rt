//! The questions of both sides for a specification.

ghost use Rattle.std.specs.Prelude.{◌≡◌, ◌≤◌, [], map, IfOk, IfErr};
ghost use Rattle.tsl_terms.specs.SpecView.{spec_tree};
ghost use Rattle.tsl_terms.specs.WindowTree.{window_tree};
ghost use Rattle.letter_space.specs.SpaceView.{space_tree};
ghost use Rattle.letter_space.specs.SpecSpace.{spec_space};
ghost use Rattle.bounded_encoding.specs.QuestionView.{question_of};
ghost use Rattle.bounded_encoding.specs.Answers.{IsFound};
ghost use Rattle.counterstrategy.specs.DualAnswers.{IsFoundDual};
ghost use Rattle.program_check.specs.Verdicts.{HasFewBits};
ghost use Rattle.refinement_loop.specs.Questions.{IsAsked, bound_under};
ghost use Rattle.refinement_loop.specs.Outcomes.{IsInRange, HasAskCause};
ghost use Rattle.refinement_loop.specs.internal.Turns.{HasFurtherCause};

use crate::errors::{refused_dual, refused_encoding};
use crate::outcome::{Asked, Bound, Search};
use bounded_encoding::{Found, find_controller};
use cobuchi_automata::Automaton;
use counterstrategy::{FoundDual, find_environment};
use letter_space::{Space, space_of};
use machines::Side;
use program_check::{CheckError, automaton_for};
use std::alloc::Global;
use tsl_terms::{Spec, Window};

/// Asks whether a controller over the bits of a specification with so many states has an annotation within a
/// bound, where so many clauses may be learnt. `Large` comes exactly where a limit is passed: predicate terms
/// before bits, both before those of the automaton, and these before that of clauses.
pub fn ask(
    alloc: Global,
    spec: &Spec,
    states: u32,
    bound: u32,
    budget: u64,
) -> Result<Asked, CheckError>
    requires has_state { 1 ≤ states }
    requires few_states { states ≤ 8 }
    requires has_budget { 1 ≤ budget }
    requires small_budget { budget ≤ 1000000 }
    ensures asked { IfOk result (λ a. IsAsked Side.Controller (spec_tree spec.now) [] states (Bound.Fixed bound)
        (question_of a.automaton a.space states bound)) }
    ensures found { IfOk result (λ a. IsFound (question_of a.automaton a.space states bound) budget a.found) }
    ensures cause { IfErr result (HasAskCause (spec_tree spec.now) [] states (Bound.Fixed bound)) }
{
    let space = space_of(alloc, spec)?;
    let ControllerAnswer {
        automaton,
        found,
        ..
    } = controller_answer(
        alloc,
        spec,
        &space,
        &[],
        states,
        Bound::Fixed(bound),
        budget,
    )?;
    Ok(Asked {
        space,
        automaton,
        found,
    })
}

/// The automaton and the bound of the question for a controller, and the answer to it.
#[derive(Drop)]
pub(crate) struct ControllerAnswer {
    pub(crate) automaton: Automaton,
    pub(crate) bound: u32,
    pub(crate) found: Found,
}

/// Asks whether there is a controller under windows.
pub(crate) fn controller_answer(
    alloc: Global,
    spec: &Spec,
    space: &Space,
    windows: &[Window],
    states: u32,
    bound: Bound,
    budget: u64,
) -> Result<ControllerAnswer, CheckError>
    requires space { space_tree space.now ≡ spec_space (spec_tree spec.now) }
    requires has_state { 1 ≤ states }
    requires few_states { states ≤ 8 }
    requires has_budget { 1 ≤ budget }
    requires small_budget { budget ≤ 1000000 }
    ensures bound { IfOk result (λ a. a.bound ≡ bound_under bound states a.automaton.states) }
    ensures asked { IfOk result (λ a. IsAsked Side.Controller (spec_tree spec.now) (map window_tree windows.now) states bound
        (question_of a.automaton space.now states (bound_under bound states a.automaton.states))) }
    ensures found { IfOk result (λ a. IsFound (question_of a.automaton space.now states (bound_under bound states a.automaton.states))
        budget a.found) }
    ensures cause { IfErr result (HasAskCause (spec_tree spec.now) (map window_tree windows.now) states bound) }
{
    let automaton = automaton_for(alloc, Side::Controller, spec, windows, space)?;
    let number = bound.under(states, automaton.states);
    match find_controller(alloc, &automaton, space, states, number, budget) {
        Ok(found) => Ok(ControllerAnswer {
            automaton,
            bound: number,
            found,
        }),
        Err(cause) => Err(refused_encoding(cause)),
    }
}

/// The automaton of the question for an environment, and the answer to it.
#[derive(Drop)]
pub(crate) struct EnvironmentAnswer {
    pub(crate) automaton: Automaton,
    pub(crate) found: FoundDual,
}

/// Asks whether there is an environment under windows.
pub(crate) fn environment_answer(
    alloc: Global,
    spec: &Spec,
    space: &Space,
    windows: &[Window],
    search: &Search,
) -> Result<EnvironmentAnswer, CheckError>
    requires space { space_tree space.now ≡ spec_space (spec_tree spec.now) }
    requires in_range { IsInRange search.now }
    ensures asked { IfOk result (λ a. IsAsked Side.Environment (spec_tree spec.now) (map window_tree windows.now)
        search.now.env_states (Bound.Fixed search.now.env_bound) (question_of a.automaton space.now search.now.env_states search.now.env_bound)) }
    ensures found { IfOk result (λ a. IsFoundDual (question_of a.automaton space.now search.now.env_states search.now.env_bound)
        search.now.budget a.found) }
    ensures cause { IfErr result (HasFurtherCause (spec_tree spec.now) search.now (map window_tree windows.now)) }
{
    let automaton = automaton_for(alloc, Side::Environment, spec, windows, space)?;
    match find_environment(
        alloc,
        &automaton,
        space,
        search.env_states,
        search.env_bound,
        search.budget,
    ) {
        Ok(found) => Ok(EnvironmentAnswer { automaton, found }),
        Err(cause) => Err(refused_dual(cause)),
    }
}
