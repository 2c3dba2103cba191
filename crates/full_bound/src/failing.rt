//! Letter loops on which a controller fails.

ghost use Rattle.std.specs.Prelude.{◌≡◌, ◌*◌, ◌^◌, ◌<◌, ◌≤◌, ◌++◌, ℕ, List, Some, length, IfOk, IfSome, IfNone};
ghost use Rattle.ltl_formula.specs.LtlTree.{ltl_tree};
ghost use Rattle.cobuchi_automata.specs.Automata.{StateTree, IsAutomaton};
ghost use Rattle.cobuchi_automata.specs.Edges.{edge_trees};
ghost use Rattle.cobuchi_automata.specs.Refusals.{most_automaton_states};
ghost use Rattle.letter_space.specs.SpaceView.{space_tree};
ghost use Rattle.machines.specs.MachineView.{controller_tree};
ghost use Rattle.machines.specs.Moves.{FitsSpace, controller_moves};
ghost use Rattle.full_bound.specs.Failing.{IsFailing, HasAnnotationWithin};
ghost use Rattle.full_bound.specs.LoopView.{letter_loop};
ghost use Rattle.full_bound.specs.internal.PairTable.{most_controller_states};

use crate::letter_loop::LetterLoop;
use crate::pair_steps::steps_of_pairs;
use crate::turning::{TurnFound, turn_in};
use base_library::{NoMemory, Sequence};
use cobuchi_automata::Automaton;
use letter_space::Space;
use ltl_formula::Ltl;
use machines::Controller;
use std::alloc::Global;

/// A letter loop of the controller on which the formula holds, whose automaton this is. There is none
/// exactly where the controller has an annotation within its states times those of the automaton.
pub fn failing_loop(
    alloc: Global,
    formula: &Ltl,
    automaton: &Automaton,
    space: &Space,
    controller: &Controller,
) -> Result<Option<LetterLoop>, NoMemory>
    requires automaton { (states : List StateTree) × (length states ≡ automaton.now.states)
        × IsAutomaton (ltl_tree formula.now) states (edge_trees automaton.now.edges) }
    requires few_states { automaton.now.states ≤ most_automaton_states }
    requires few_controller_states { controller.now.states ≤ most_controller_states }
    requires fits { FitsSpace (space_tree space.now) (controller_tree controller.now) }
    ensures failing { IfOk result (λ found. IfSome found (λ l. IsFailing (ltl_tree formula.now)
        (controller_moves (space_tree space.now) (controller_tree controller.now)) (letter_loop l))) }
    ensures annotated { IfOk result (λ found. IfNone found (HasAnnotationWithin (edge_trees automaton.now.edges)
        (controller_moves (space_tree space.now) (controller_tree controller.now)) (controller.now.states * automaton.now.states))) }
    ensures not_annotated { IfOk result (λ found. IfSome found (λ _. HasAnnotationWithin (edge_trees automaton.now.edges)
        (controller_moves (space_tree space.now) (controller_tree controller.now)) (controller.now.states * automaton.now.states) → ⊥)) }
{
    let table = steps_of_pairs(alloc, automaton, space, controller)?;
    let Some(turn) = turn_in(alloc, &table)? else {
        return Ok(None);
    };
    Ok(Some(loop_of(turn)?))
}

/// The letter loop of a turn.
fn loop_of(found: TurnFound) -> Result<LetterLoop, NoMemory>
    requires few { length found.stem.items < 2 ^ 32 }
    requires turns { 1 ≤ length found.turn.items }
    ensures back { IfOk result (λ l. l.back ≡ length found.stem.items) }
    ensures letters { IfOk result (λ l. l.letters ≡ found.stem.items ++ found.turn.items) }
{
    let TurnFound { stem, turn } = found;
    let back = stem.len() as u32;
    let mut letters = stem;
    letters.extend_from_slice(&turn)?;
    Ok(LetterLoop {
        letters: Sequence::from_vec(letters),
        back,
    })
}
