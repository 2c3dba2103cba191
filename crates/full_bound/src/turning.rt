//! Turns through a rejecting step.

ghost use Rattle.std.specs.Prelude.{◌≡◌, ◌*◌, ◌<◌, ◌≤◌, ℕ, List, Bool, length, Contains, IfOk, IfSome, IfNone, Some, slice_get, true};
ghost use Rattle.std.specs.List.{AllByRecursion};
ghost use Rattle.full_bound.specs.internal.Search.{steps_from, IsSearch, IsSearched};
ghost use Rattle.full_bound.specs.internal.Turning.{IsFirst, IsReturn, IsSpelled, IsTurn, Turn, NeverBack};

use crate::search::{Arrival, Search, Step, found_from, steps_at};
use base_library::NoMemory;
use std::alloc::Global;

/// The letters up to a turn, and those of the turn.
#[derive(Drop)]
pub(crate) struct TurnFound {
    /// Those up to it.
    pub stem: Vec<u64>,
    /// Those that come again and again.
    pub turn: Vec<u64>,
}

/// A rejecting step, and what is found from where it leads.
#[derive(Drop)]
struct Return {
    /// The step.
    step: Step,
    /// What is found.
    back: Search,
}

/// The place of the first arrival at a node.
fn place_of(arrivals: &[Arrival], node: u32) -> Option<usize>
    ensures some { IfSome result (λ i. (a : Arrival) × (slice_get arrivals.now i ≡ Some a) × (a.node ≡ node)) }
    ensures none { IfNone result ((i : ℕ) (a : Arrival) → slice_get arrivals.now i ≡ Some a → a.node ≡ node → ⊥) }
{
    for (place, arrival) in arrivals.iter().enumerate() {
        if arrival.node == node {
            return Some(place);
        }
    }
    None
}

/// What is found from where a step of a node leads, if it is rejecting and leads back to the node.
fn leads_back(
    alloc: Global,
    table: &[Vec<Step>],
    node: u32,
    step: Step,
) -> Result<Option<Search>, NoMemory>
    requires stay { (p : ℕ) (s : Step) → Contains (steps_from table.now p) s → s.to < length table.now }
    requires within { node < length table.now }
    requires stands { Contains (steps_from table.now node) step }
    ensures some { IfOk result (λ found. IfSome found (λ back.
        IsReturn (steps_from table.now) (length table.now) node step back.flags.items back.arrivals.items)) }
    ensures none { IfOk result (λ found. IfNone found (NeverBack (steps_from table.now) node step)) }
{
    if !step.rejecting {
        return Ok(None);
    }
    let back = found_from(alloc, table, step.to)?;
    if !back.flags[node as usize] {
        return Ok(None);
    }
    Ok(Some(back))
}

/// A rejecting step of a node that leads back to it.
fn return_to(alloc: Global, table: &[Vec<Step>], node: u32) -> Result<Option<Return>, NoMemory>
    requires stay { (p : ℕ) (s : Step) → Contains (steps_from table.now p) s → s.to < length table.now }
    requires within { node < length table.now }
    ensures some { IfOk result (λ found. IfSome found (λ r.
        IsReturn (steps_from table.now) (length table.now) node r.step r.back.flags.items r.back.arrivals.items)) }
    ensures none { IfOk result (λ found. IfNone found (AllByRecursion (NeverBack (steps_from table.now) node)
        (steps_from table.now node))) }
{
    let steps = steps_at(table, node);
    for step in steps {
        if let Some(back) = leads_back(alloc, table, node, *step)? {
            return Ok(Some(Return { step: *step, back }));
        }
    }
    Ok(None)
}

/// The letters of the way to an arrival.
fn way_to(alloc: Global, arrivals: &[Arrival], place: usize) -> Result<Vec<u64>, NoMemory>
    requires within { place < length arrivals.now }
    requires back { (i : ℕ) (a : Arrival) → slice_get arrivals.now i ≡ Some a → 0 < i → a.previous < i }
    ensures few { IfOk result (λ letters. length letters.items ≤ place) }
    ensures spelled { IfOk result (λ letters. (steps : ℕ → List Step) (nodes : ℕ) (flags : List Bool) →
        IsSearch steps nodes flags arrivals.now →
        (a b : Arrival) → slice_get arrivals.now 0 ≡ Some a → slice_get arrivals.now place ≡ Some b →
        IsSpelled steps a.node b.node letters.items) }
{
    let mut letters = Vec::new(alloc);
    let mut at = place;
    while at != 0 {
        let arrival = arrivals[at];
        letters.push(arrival.letter)?;
        at = arrival.previous;
    }
    letters.reverse();
    Ok(letters)
}

/// The letters of the way to a node that is found.
fn way_to_node(alloc: Global, search: &Search, node: u32) -> Result<Vec<u64>, NoMemory>
    requires back { (i : ℕ) (a : Arrival) → slice_get search.now.arrivals.items i ≡ Some a → 0 < i → a.previous < i }
    ensures { IfOk result (λ letters. (steps : ℕ → List Step) (nodes p : ℕ) → IsSearch steps nodes search.now.flags.items
        search.now.arrivals.items →
        IsFirst search.now.arrivals.items p → slice_get search.now.flags.items node ≡ Some true → IsSpelled steps p node letters.items) }
{
    let Some(place) = place_of(&search.arrivals, node) else {
        return Ok(Vec::new(alloc));
    };
    let letters = way_to(alloc, &search.arrivals, place)?;
    Ok(letters)
}

/// A turn through a rejecting step that is walked to from node 0.
pub(crate) fn turn_in(alloc: Global, table: &[Vec<Step>]) -> Result<Option<TurnFound>, NoMemory>
    requires stay { (p : ℕ) (s : Step) → Contains (steps_from table.now p) s → s.to < length table.now }
    requires some_node { 0 < length table.now }
    ensures some { IfOk result (λ found. IfSome found (λ t. IsTurn (steps_from table.now) t.stem.items t.turn.items)) }
    ensures few { IfOk result (λ found. IfSome found (λ t. length t.stem.items ≤ 2 * length table.now)) }
    ensures none { IfOk result (λ found. IfNone found (Turn (steps_from table.now) → ⊥)) }
{
    let first = found_from(alloc, table, 0)?;
    for place in 0..first.arrivals.len() {
        let node = first.arrivals[place].node;
        if let Some(found) = return_to(alloc, table, node)? {
            let stem = way_to(alloc, &first.arrivals, place)?;
            let mut turn = way_to_node(alloc, &found.back, node)?;
            turn.insert(0, found.step.letter)?;
            return Ok(Some(TurnFound { stem, turn }));
        }
    }
    Ok(None)
}
