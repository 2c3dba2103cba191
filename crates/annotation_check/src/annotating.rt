//! Annotations of machines.

ghost use Rattle.std.specs.Prelude.{◌≡◌, ℕ, ◌*◌, length, Option, IfOk, IfSome, IfNone};
ghost use Rattle.cobuchi_automata.specs.Edges.{edge_trees};
ghost use Rattle.letter_space.specs.SpaceView.{space_tree};
ghost use Rattle.machines.specs.MachineView.{controller_tree, environment_tree};
ghost use Rattle.machines.specs.Moves.{FitsSpace, controller_moves, EnvironmentFits, environment_moves};
ghost use Rattle.annotation_check.specs.Annotations.{edges_from, IsAnnotation, IsLeast, number_of_pair};
ghost use Rattle.annotation_check.specs.internal.PairsView.{pairs_tree};
ghost use Rattle.annotation_check.specs.internal.Growth.{HasNone, HasAnnotation, HasLeast, HasShape};

use crate::growing::Pairs;
use crate::pairing::{controller_pairs, environment_pairs};
use base_library::{NoMemory, Sequence};
use cobuchi_automata::Automaton;
use letter_space::Space;
use machines::{Controller, Environment};
use std::alloc::Global;

/// Numbers of pairs of a machine's state and an automaton's state.
#[derive(Drop)]
pub struct Annotation {
    /// The bound that no number passes.
    pub bound: u32,
    /// The number of machine state s and automaton state q at s * states + q, where there is one.
    pub numbers: Sequence<Option<u32>>,
}

/// The least annotation of a controller for an automaton, if one is within the bound.
pub fn annotate(
    alloc: Global,
    automaton: &Automaton,
    space: &Space,
    controller: &Controller,
    bound: u32,
) -> Result<Option<Annotation>, NoMemory>
    requires fits { FitsSpace (space_tree space.now) (controller_tree controller.now) }
    ensures annotation { IfOk result (λ found. IfSome found (λ a. IsAnnotation (edges_from (edge_trees automaton.now.edges))
        (controller_moves (space_tree space.now) (controller_tree controller.now)) bound
        (number_of_pair automaton.now.states a.numbers))) }
    ensures least { IfOk result (λ found. IfSome found (λ a. IsLeast (edges_from (edge_trees automaton.now.edges))
        (controller_moves (space_tree space.now) (controller_tree controller.now))
        (number_of_pair automaton.now.states a.numbers))) }
    ensures shape { IfOk result (λ found. IfSome found (λ a. (a.bound ≡ bound)
        × (length a.numbers ≡ controller.now.states * automaton.now.states))) }
    ensures none { IfOk result (λ found. IfNone found ((number : ℕ → ℕ → Option ℕ) →
        IsAnnotation (edges_from (edge_trees automaton.now.edges))
        (controller_moves (space_tree space.now) (controller_tree controller.now)) bound number → ⊥)) }
{
    let pairs = controller_pairs(alloc, automaton, space, controller, bound)?;
    least_annotation(alloc, &pairs)
}

/// The least annotation of an environment for an automaton, if one is within the bound.
pub fn annotate_environment(
    alloc: Global,
    automaton: &Automaton,
    space: &Space,
    environment: &Environment,
    bound: u32,
) -> Result<Option<Annotation>, NoMemory>
    requires fits { EnvironmentFits (space_tree space.now) (environment_tree environment.now) }
    ensures annotation { IfOk result (λ found. IfSome found (λ a. IsAnnotation (edges_from (edge_trees automaton.now.edges))
        (environment_moves (space_tree space.now) (environment_tree environment.now)) bound
        (number_of_pair automaton.now.states a.numbers))) }
    ensures least { IfOk result (λ found. IfSome found (λ a. IsLeast (edges_from (edge_trees automaton.now.edges))
        (environment_moves (space_tree space.now) (environment_tree environment.now))
        (number_of_pair automaton.now.states a.numbers))) }
    ensures shape { IfOk result (λ found. IfSome found (λ a. (a.bound ≡ bound)
        × (length a.numbers ≡ environment.now.states * automaton.now.states))) }
    ensures none { IfOk result (λ found. IfNone found ((number : ℕ → ℕ → Option ℕ) →
        IsAnnotation (edges_from (edge_trees automaton.now.edges))
        (environment_moves (space_tree space.now) (environment_tree environment.now)) bound number → ⊥)) }
{
    let pairs = environment_pairs(alloc, automaton, space, environment, bound)?;
    least_annotation(alloc, &pairs)
}

/// The least annotation of a machine for an automaton by their pairs, if one is within the bound.
fn least_annotation(alloc: Global, pairs: &Pairs) -> Result<Option<Annotation>, NoMemory>
    ensures annotation { IfOk result (λ found. IfSome found (λ a. HasAnnotation (pairs_tree pairs.now) a.numbers)) }
    ensures least { IfOk result (λ found. IfSome found (λ a. HasLeast (pairs_tree pairs.now) a.numbers)) }
    ensures shape { IfOk result (λ found. IfSome found (λ a. HasShape (pairs_tree pairs.now) a.bound a.numbers)) }
    ensures none { IfOk result (λ found. IfNone found (HasNone (pairs_tree pairs.now))) }
{
    let Some(numbers) = pairs.least_numbers(alloc)? else {
        return Ok(None);
    };
    Ok(Some(Annotation {
        bound: pairs.bound,
        numbers: Sequence::from_vec(numbers),
    }))
}
