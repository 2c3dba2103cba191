//! The choices of sets of formulas, made once for each set: states that differ in their counter alone
//! share them.

ghost use Rattle.std.specs.Prelude.{◌≡◌, ◌<◌, ◌^◌, List, ℕ, Some, None, IfOk, IfErr, OnOk, length, map};
ghost use Rattle.std.specs.List.{AllByRecursion};
ghost use Rattle.ltl_formula.specs.LtlTree.{LtlTree};
ghost use Rattle.obligations.specs.Expansion.{choices};
ghost use Rattle.obligations.specs.Expansions.{AreExpansions};
ghost use Rattle.obligations.specs.Named.{formula_named};
ghost use Rattle.obligations.specs.Numbers.{choice_keys, lent_trees};
ghost use Rattle.cobuchi_automata.specs.internal.Exploring.{IsPlanInMemory};
ghost use Rattle.cobuchi_automata.specs.internal.Known.{AreKnown, HasChoices, IsListAt};

use crate::exploring::Plan;
use crate::states::{State, number_of_state};
use indexmap::IndexSet;
use obligations::{NumberedChoice, StepError, choices_of_numbers};
use std::alloc::Global;

/// The sets whose choices are made, as states that wait for the first until, and their choices, at the
/// same places.
#[derive(Drop)]
pub(crate) struct KnownChoices {
    /// The sets.
    pub(crate) sets: IndexSet<State>,
    /// The choices of each.
    pub(crate) lists: Vec<Vec<NumberedChoice>>,
}

/// No choices are made yet.
pub(crate) fn none_known(alloc: Global) -> KnownChoices
    ensures { (names : List LtlTree) → AreKnown names result }
{
    KnownChoices {
        sets: IndexSet::new(alloc),
        lists: Vec::new(alloc),
    }
}

/// The place of the choices of a set, which are made where they are not known.
pub(crate) fn place_of_choices(
    alloc: Global,
    plan: &Plan,
    expansions: &mut [Option<Vec<NumberedChoice>>],
    known: &mut KnownChoices,
    members: &[u32],
) -> Result<usize, StepError>
    requires plan { IsPlanInMemory plan.now }
    requires few { length plan.now.names.items < 2 ^ 32 }
    requires members { AllByRecursion (λ n. n < length (lent_trees plan.now.names.items)) members.now }
    requires expansions { AreExpansions (lent_trees plan.now.names.items) expansions.old }
    requires known { AreKnown (lent_trees plan.now.names.items) known.old }
    ensures expansions { AreExpansions (lent_trees plan.now.names.items) expansions.new }
    ensures known { OnOk result (AreKnown (lent_trees plan.now.names.items) known.new) }
    ensures there { IfOk result (IsListAt (lent_trees plan.now.names.items) members.now known.new.lists.items) }
    ensures many { IfErr result (λ e. e ≡ StepError.Choices
        → choices (map (formula_named (lent_trees plan.now.names.items)) members.now) ≡ None) }
{
    let set = State {
        members: members.to_vec(alloc)?,
        counter: 0,
    };
    let place = number_of_state(&mut known.sets, set)?;
    if place < known.lists.len() {
        return Ok(place);
    }
    let list = choices_of_numbers(alloc, &plan.names, expansions, members)?;
    known.lists.push(list)?;
    Ok(place)
}

/// The list at a place; the empty one where there is none.
pub(crate) fn list_at(lists: &[Vec<NumberedChoice>], place: usize) -> &[NumberedChoice]
    ensures { (names : List LtlTree) (members : List ℕ) → IsListAt names members lists.now place
        → HasChoices names members (choice_keys result.now) }
{
    match lists.get(place) {
        Some(list) => list,
        None => &[],
    }
}
