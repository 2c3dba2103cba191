//! The walk through all numbers of a graph, which ranks them and tells which of them reach themselves.
//!
//! It looks at each step of the graph at most twice. A number that was met is held as long as it may
//! reach one that the walk is still at. Those that are held stand in the order in which they were met, and
//! each reaches the last one of the path. So a number that has been gone through reaches itself exactly
//! where it reaches one that is held and stands no later than itself; and where it reaches none before
//! itself, it is let go, with all that is held after it. Where no number reaches itself, the order in which
//! the numbers are left has each after all that it goes to.

ghost use Rattle.std.specs.Prelude.{◌≡◌, ◌∷◌, ◌<◌, ◌≤◌, ◌^◌, ◌⊎◌, ℕ, suc, List, [], length, reverse, Some, None, slice_get, IfOk, OnOk, MatchOption};
ghost use Rattle.depth_first_search.specs.Graphs.{graph_of, IsGraph, HasCycle, IsOrder, ReachesFrom, IsFirstOnCycle};
ghost use Rattle.depth_first_search.specs.internal.Searches.{IsSearch, IsSearchOf, IsWhole, GoesOn, IsMet, IsTold, LeadsTo, lowered, use_at, uses_count};

use base_library::NoMemory;
use std::alloc::Global;

/// A number that is being gone through.
#[derive(Clone, Copy)]
pub(crate) struct Step {
    /// The number.
    pub number: u32,
    /// Its place among those that are held.
    pub place: usize,
    /// How many of its uses are left to look at.
    pub left: usize,
    /// The first place among those that are held that it is known to reach; above its own where it is known to reach none up to
    /// itself.
    pub low: usize,
}

/// A walk along uses, on which nothing is given up before all that it reaches was met.
#[derive(Drop)]
pub(crate) struct Search {
    /// For each number that was met, the place among those held that it was given.
    pub places: Vec<Option<usize>>,
    /// The numbers that are held, in the order in which they were met.
    pub held: Vec<u32>,
    /// The numbers that are gone through, each reached from the one before it.
    pub path: Vec<Step>,
    /// The numbers that were left, in that order.
    pub ranked: Vec<u32>,
    /// The first of the numbers that were left that reach themselves.
    pub least: Option<u32>,
}

impl Search {
    /// The place that a number was given.
    fn place_of(&self, number: u32) -> Option<usize>
        requires { number < length self.now.places.items }
        ensures { slice_get self.now.places.items number ≡ Some result }
    {
        self.places[number as usize]
    }

    /// Goes on to a number that was not met.
    fn enter(&mut self, graph: &[Vec<u32>], number: u32) -> Result<(), NoMemory>
        requires search { IsSearchOf (graph_of graph.now) self.old }
        requires fresh { slice_get self.old.places.items number ≡ Some None }
        requires leads { LeadsTo (graph_of graph.now) (reverse self.old.path.items) number }
        ensures on { OnOk result (GoesOn (graph_of graph.now) self.old.places.items (reverse self.old.path.items) self.new) }
        ensures met { OnOk result (IsMet self.new.places.items number) }
    {
        let place = self.held.len();
        self.held.push(number)?;
        self.path.push(Step {
            number,
            place,
            left: count_uses(graph, number),
            low: self.held.len(),
        })?;
        self.places[number as usize] = Some(place);
        Ok(())
    }

    /// Goes on with a number of which one more use, which was met, is looked at.
    fn look(&mut self, last: Step, used: u32, place: usize) -> Result<(), NoMemory>
        requires left { 0 < last.left }
        requires place { slice_get self.old.places.items used ≡ Some (Some place) }
        ensures { OnOk result ((graph : List (List ℕ)) (left : ℕ) → IsSearch graph self.old (last ∷ reverse self.old.path.items) →
            suc left ≡ last.left → use_at graph last.number left ≡ Some used →
            GoesOn graph self.old.places.items (last ∷ reverse self.old.path.items) self.new) }
    {
        let low = self.lower_place(last.low, used, place);
        self.path.push(Step {
            number: last.number,
            place: last.place,
            left: last.left - 1,
            low,
        })?;
        Ok(())
    }

    /// The lesser of two places, where the number is held at the second one.
    fn lower_place(&self, low: usize, used: u32, place: usize) -> usize
        ensures low { result ≤ low }
        ensures held { slice_get self.now.held.items place ≡ Some used → result ≤ place }
        ensures one { (result ≡ low) ⊎ ((result ≡ place) × (slice_get self.now.held.items place ≡ Some used)) }
    {
        if place < low && place < self.held.len() && self.held[place] == used {
            return place;
        }
        low
    }

    /// Lets the last number of the path reach what another that it reaches does.
    fn lower(&mut self, low: usize) -> Result<(), NoMemory>
        ensures path { OnOk result (reverse self.new.path.items ≡ lowered low (reverse self.old.path.items)) }
        ensures is { self.new ≡ record self.old { path = self.new.path } }
    {
        if let Some(last) = self.path.pop() {
            let low = if low < last.low { low } else { last.low };
            self.path.push(Step { low, ..last })?;
        }
        Ok(())
    }

    /// Leaves a number whose uses were all looked at.
    fn leave(&mut self, last: Step) -> Result<(), NoMemory>
        requires { last.left ≡ 0 }
        ensures { OnOk result ((graph : List (List ℕ)) → IsSearch graph self.old (last ∷ reverse self.old.path.items) →
            GoesOn graph self.old.places.items (last ∷ reverse self.old.path.items) self.new) }
    {
        self.ranked.push(last.number)?;
        self.least = told(self.least, last);
        if last.low < last.place {
            self.lower(last.low)?;
        } else {
            self.held.truncate(last.place);
        }
        Ok(())
    }

    /// Looks at the next use of the last number of the path, which was taken from it, or leaves it.
    fn step(&mut self, graph: &[Vec<u32>], last: Step) -> Result<(), NoMemory>
        requires graph { IsGraph (graph_of graph.now) }
        requires search { IsSearch (graph_of graph.now) self.old (last ∷ reverse self.old.path.items) }
        ensures { OnOk result (GoesOn (graph_of graph.now) self.old.places.items (last ∷ reverse self.old.path.items) self.new) }
    {
        if last.left == 0 {
            self.leave(last)?;
            return Ok(());
        }
        let used = nth_use(graph, last.number, last.left - 1);
        match self.place_of(used) {
            Some(place) => {
                self.look(last, used, place)?;
                Ok(())
            }
            None => {
                self.path.push(last)?;
                self.enter(graph, used)
            }
        }
    }

    /// Walks from a number, if it was not met, until all that it reaches is gone through.
    fn walk_from(&mut self, graph: &[Vec<u32>], start: u32) -> Result<(), NoMemory>
        requires graph { IsGraph (graph_of graph.now) }
        requires search { IsSearchOf (graph_of graph.now) self.old }
        requires path { self.old.path.items ≡ [] }
        requires start { start < length graph.now }
        ensures search { OnOk result (IsSearchOf (graph_of graph.now) self.new) }
        ensures path { OnOk result (self.new.path.items ≡ []) }
        ensures met { OnOk result ((i : ℕ) → IsMet self.old.places.items i → IsMet self.new.places.items i) }
        ensures start { OnOk result (IsMet self.new.places.items start) }
    {
        if self.place_of(start).is_some() {
            return Ok(());
        }
        self.enter(graph, start)?;
        while let Some(last) = self.path.pop() {
            self.step(graph, last)?;
        }
        Ok(())
    }
}

/// How many uses a number has.
fn count_uses(graph: &[Vec<u32>], number: u32) -> usize
    requires { number < length graph.now }
    ensures { result ≡ uses_count (graph_of graph.now) number }
{
    graph[number as usize].len()
}

/// The use of a number at a place among its uses.
fn nth_use(graph: &[Vec<u32>], number: u32, index: usize) -> u32
    requires { index < uses_count (graph_of graph.now) number }
    ensures { use_at (graph_of graph.now) number index ≡ Some result }
{
    graph[number as usize][index]
}

/// The first number that was left that reaches itself, when one more is left.
fn told(least: Option<u32>, last: Step) -> Option<u32>
    ensures { IsTold last least result }
{
    if last.low > last.place {
        return least;
    }
    match least {
        Some(least) if least < last.number => Some(least),
        _ => Some(last.number),
    }
}

/// The walk that went through all numbers of a graph.
fn searched(alloc: Global, graph: &[Vec<u32>]) -> Result<Search, NoMemory>
    requires graph { IsGraph (graph_of graph.now) }
    requires count { length graph.now < 2 ^ 32 }
    ensures { IfOk result (IsWhole (graph_of graph.now)) }
{
    let mut search = Search {
        places: vec![in alloc; None; graph.len()]?,
        held: Vec::new(alloc),
        path: Vec::new(alloc),
        ranked: Vec::new(alloc),
        least: None,
    };
    for start in 0..graph.len() as u32 {
        search.walk_from(graph, start)?;
    }
    Ok(search)
}

/// The numbers of a graph, each once, in an order in which each goes only to earlier ones; `None` where some number
/// reaches itself. Each step of the graph is looked at twice at most.
pub fn order(alloc: Global, graph: &[Vec<u32>]) -> Result<Option<Vec<u32>>, NoMemory>
    requires graph { IsGraph (graph_of graph.now) }
    requires count { length graph.now < 2 ^ 32 }
    ensures { IfOk result (λ found. MatchOption found (HasCycle (graph_of graph.now))
        (λ order. IsOrder (graph_of graph.now) order.items)) }
{
    let search = searched(alloc, graph)?;
    match search.least {
        Some(_) => Ok(None),
        None => {
            let Search { ranked, .. } = search;
            Ok(Some(ranked))
        }
    }
}

/// The first number of a graph that reaches itself; `None` where none does. Each number and each step of the graph is looked at
/// a few times at most.
pub fn first_on_cycle(alloc: Global, graph: &[Vec<u32>]) -> Result<Option<u32>, NoMemory>
    requires graph { IsGraph (graph_of graph.now) }
    requires count { length graph.now < 2 ^ 32 }
    ensures { IfOk result (λ found. MatchOption found
        ((i : ℕ) → i < length graph.now → ReachesFrom (graph_of graph.now) i i → ⊥)
        (IsFirstOnCycle (graph_of graph.now))) }
{
    Ok(searched(alloc, graph)?.least)
}
