//! The nodes that steps lead to from a node, and how each is arrived at.

ghost use Rattle.std.specs.Prelude.{◌≡◌, ◌*◌, ◌<◌, ◌≤◌, ℕ, length, Contains, IfOk, OnOk, Some, slice_get, true};
ghost use Rattle.std.specs.List.{AllByRecursion};

use base_library::NoMemory;
use std::alloc::Global;

/// A step to a node.
#[derive(Clone, Copy)]
pub(crate) struct Step {
    /// The letter.
    pub letter: u64,
    /// The node that it leads to.
    pub to: u32,
    /// Whether it is rejecting.
    pub rejecting: bool,
}

/// How a node is first arrived at.
#[derive(Clone, Copy)]
pub(crate) struct Arrival {
    /// The node.
    pub node: u32,
    /// The place of the arrival at the node before it.
    pub previous: usize,
    /// The letter of the step from there.
    pub letter: u64,
}

/// What a search has found.
#[derive(Drop)]
pub(crate) struct Search {
    /// Whether each node was arrived at.
    pub flags: Vec<bool>,
    /// The arrivals, in order.
    pub arrivals: Vec<Arrival>,
}

impl Search {
    ghost use Rattle.full_bound.specs.internal.Search.{flags_with, arrivals_with};

    /// Arrives at a node, if that is for the first time.
    fn arrive(&mut self, arrival: Arrival) -> Result<(), NoMemory>
        requires { arrival.node < length self.old.flags.items }
        ensures flags { OnOk result (self.new.flags.items ≡ flags_with self.old.flags.items arrival.node) }
        ensures arrivals { OnOk result (self.new.arrivals.items ≡ arrivals_with self.old.flags.items self.old.arrivals.items arrival) }
    {
        let place = arrival.node as usize;
        if !self.flags[place] {
            self.arrivals.push(arrival)?;
            self.flags[place] = true;
        }
        Ok(())
    }
}

ghost use Rattle.full_bound.specs.internal.Search.{steps_from, IsSearch, IsSearched, IsVisited, GoesOn};

/// The steps from a node.
#[tactic(auto, using(crate::proofs::SearchGoesOn::steps_at))]
pub(crate) fn steps_at(table: &[Vec<Step>], node: u32) -> &[Step]
    requires { node < length table.now }
    ensures { result.now ≡ steps_from table.now node }
{
    table[node as usize].as_slice()
}

/// Takes each step from an arrival at a node.
fn visit(search: &mut Search, table: &[Vec<Step>], node: u32, place: usize) -> Result<(), NoMemory>
    requires search { IsSearch (steps_from table.now) (length table.now) search.old.flags.items search.old.arrivals.items }
    requires stay { (p : ℕ) (s : Step) → Contains (steps_from table.now p) s → s.to < length table.now }
    requires within { node < length table.now }
    requires here { (a : Arrival) × (slice_get search.old.arrivals.items place ≡ Some a) × (a.node ≡ node) }
    ensures on { OnOk result (GoesOn (steps_from table.now) (length table.now) search.old.flags.items search.old.arrivals.items
        search.new.flags.items search.new.arrivals.items) }
    ensures flagged { OnOk result (AllByRecursion (λ s. slice_get search.new.flags.items s.to ≡ Some true) (steps_from table.now node)) }
{
    let steps = steps_at(table, node);
    for step in steps {
        search.arrive(Arrival {
            node: step.to,
            previous: place,
            letter: step.letter,
        })?;
    }
    Ok(())
}

/// The nodes that steps lead to from a node, and how each is arrived at.
pub(crate) fn found_from(alloc: Global, table: &[Vec<Step>], from: u32) -> Result<Search, NoMemory>
    requires stay { (p : ℕ) (s : Step) → Contains (steps_from table.now p) s → s.to < length table.now }
    requires within { from < length table.now }
    ensures searched { IfOk result (λ search. IsSearched (steps_from table.now) (length table.now) search.flags.items
        search.arrivals.items) }
    ensures few { IfOk result (λ search. length search.arrivals.items ≤ 2 * length table.now) }
    ensures first { IfOk result (λ search. (a : Arrival) × (slice_get search.arrivals.items 0 ≡ Some a) × (a.node ≡ from)) }
{
    let mut search = Search {
        flags: vec![in alloc; false; table.len()]?,
        arrivals: Vec::new(alloc),
    };
    search.arrive(Arrival {
        node: from,
        previous: 0,
        letter: 0,
    })?;
    let mut place = 0;
    while place < search.arrivals.len() {
        let node = search.arrivals[place].node;
        visit(&mut search, table, node, place)?;
        place += 1;
    }
    Ok(search)
}
