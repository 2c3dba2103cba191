//! Steps from pairs of states, found by the letters that match.

ghost use Rattle.std.specs.Prelude.{◌≡◌, ◌⊎◌, ◌↔◌, ◌*◌, ◌≤◌, ◌<◌, ◌+◌, ◌/◌, ◌^◌, ℕ, true, false, [], ◌∷◌, List};
ghost use Rattle.std.specs.Prelude.{length, vec_len, slice_set, replicate, Some, None, Contains, IsTrue, IfOk, OnOk, IfSome, IfNone};
ghost use Rattle.lane_planes.specs.Planes.{has_bit};
ghost use Rattle.cobuchi_automata.specs.Edges.{edge_tree, edge_trees};
ghost use Rattle.machines.specs.Moves.{MoveTree};
ghost use Rattle.annotation_check.specs.internal.Listings.{IsMoveListing};
ghost use Rattle.annotation_check.specs.internal.Steps.{IsStepOf, AreSteps};

use crate::listing::Listing;
use base_library::NoMemory;
use cobuchi_automata::Edge;
use lane_planes::{first_bit, matching};
use std::alloc::Global;

/// A pair of states after another one, and whether the edge to it is rejecting.
#[derive(Clone, Copy)]
pub(crate) struct Step {
    /// The machine's state.
    pub(crate) machine_state: u32,
    /// The automaton's state.
    pub(crate) automaton_state: u32,
    /// Whether the edge is rejecting.
    pub(crate) rejecting: bool,
}

/// The steps of moves and edges.
pub(crate) fn steps_of(
    alloc: Global,
    moves: &Listing,
    edges: &[Edge],
) -> Result<Vec<Step>, NoMemory>
    ensures { IfOk result (λ steps. (listed : List MoveTree) → IsMoveListing listed moves.now.letters.items moves.now.next.items
        → AreSteps listed (edge_trees edges.now) steps.items) }
{
    let mut matches = vec![in alloc; 0; (moves.letters.len() + 63) / 64]?;
    let mut steps = Vec::new(alloc);
    for edge in edges {
        add_steps(&mut steps, moves, edge, &mut matches)?;
    }
    Ok(steps)
}

/// Adds the steps of moves and an edge, with a plane for the letters that match. Of moves to one state side
/// by side the first that matches will do.
fn add_steps(
    steps: &mut Vec<Step>,
    moves: &Listing,
    edge: &Edge,
    matches: &mut [u64],
) -> Result<(), NoMemory>
    requires { length matches.old ≡ (vec_len moves.now.letters + 63) / 64 }
    ensures { OnOk result ((listed : List MoveTree) → IsMoveListing listed moves.now.letters.items moves.now.next.items
        → (t : Step) → Contains steps.new.items t ↔ (Contains steps.old.items t ⊎ IsStepOf listed (edge_tree edge.now ∷ []) t)) }
{
    matching(&moves.letters, edge.cube.care, edge.cube.want, matches);
    let mut from = 0;
    while let Some(bit) = next_bit(matches, from) {
        let step = Step {
            machine_state: moves.next[bit],
            automaton_state: edge.to,
            rejecting: edge.rejecting,
        };
        add_step(steps, step)?;
        from = moves.ends[bit];
    }
    Ok(())
}

/// The first bit that is set from one on.
fn next_bit(plane: &[u64], from: usize) -> Option<usize>
    requires { length plane.now ≤ 2 ^ 57 }
    ensures some { IfSome result (λ bit. (from ≤ bit) × (has_bit plane.now bit ≡ true)) }
    ensures first { IfSome result (λ bit. (i : ℕ) → from ≤ i → i < bit → has_bit plane.now i ≡ false) }
    ensures none { IfNone result ((i : ℕ) → from ≤ i → has_bit plane.now i ≡ false) }
{
    let word = from / 64;
    if word >= plane.len() {
        return None;
    }
    let here = plane[word] >> (from % 64);
    if here != 0 {
        return Some(from + here.trailing_zeros() as usize);
    }
    match first_bit(&plane[word + 1..]) {
        Some(bit) => Some((word + 1) * 64 + bit as usize),
        None => None,
    }
}

/// Adds a step, unless it is the last one.
fn add_step(steps: &mut Vec<Step>, step: Step) -> Result<(), NoMemory>
    ensures { OnOk result ((t : Step) → Contains steps.new.items t ↔ (Contains steps.old.items t ⊎ (t ≡ step))) }
{
    if !is_last(steps, step) {
        steps.push(step)?;
    }
    Ok(())
}

/// Whether a step is the last one.
fn is_last(steps: &[Step], step: Step) -> bool
    ensures { IsTrue result → Contains steps.now step }
{
    match steps.last() {
        None => false,
        Some(last) => is_same(*last, step),
    }
}

/// Whether two steps are the same.
fn is_same(one: Step, other: Step) -> bool
    ensures { IsTrue result → one ≡ other }
{
    one.machine_state == other.machine_state
        && one.automaton_state == other.automaton_state
        && one.rejecting == other.rejecting
}

/// How many steps are kept.
const MOST_KEPT: usize = 1 << 24;

/// The steps from pairs of states, by the places of these, as far as there is room.
#[derive(Drop)]
pub(crate) struct KeptSteps {
    /// The steps from each pair, where they are kept.
    pub(crate) of_pairs: Vec<Option<Vec<Step>>>,
    /// How many more steps there is room for.
    pub(crate) room: usize,
}

impl KeptSteps {
    /// No steps yet, for so many pairs.
    pub(crate) fn new(alloc: Global, pairs: usize) -> Result<KeptSteps, NoMemory>
        ensures { IfOk result (λ kept. kept.of_pairs.items ≡ replicate pairs None) }
    {
        let mut of_pairs = Vec::new(alloc);
        for _pair in 0..pairs {
            of_pairs.push(None)?;
        }
        Ok(KeptSteps {
            of_pairs,
            room: MOST_KEPT,
        })
    }

    /// Keeps the steps of a pair, if there is room.
    pub(crate) fn keep(&mut self, place: usize, steps: Vec<Step>)
        requires { place < length self.old.of_pairs.items }
        ensures { (self.new.of_pairs.items ≡ slice_set self.old.of_pairs.items place (Some steps))
            ⊎ (self.new.of_pairs.items ≡ self.old.of_pairs.items) }
    {
        if steps.len() <= self.room {
            self.room -= steps.len();
            self.of_pairs[place] = Some(steps);
        }
    }
}
