//! What is played on: the edges of an automaton, the valuations, and the letters of vectors.

use crate::labels::value_at;
use crate::work::Work;
use base_library::NoMemory;
use cobuchi_automata::{Automaton, Edge};
use letter_space::Space;
use std::alloc::Global;

/// The most pairs of a state and an edge for which components are looked for.
const MOST_PAIRS: u64 = 50_000_000;

/// An edge, with what it does to counters.
#[derive(Drop)]
pub(crate) struct Way {
    /// The state that it starts from.
    pub(crate) from: u32,
    /// The bits that it asks for.
    pub(crate) care: u64,
    /// Those of them that are to be set.
    pub(crate) want: u64,
    /// The state that it leads to.
    pub(crate) to: u32,
    /// Whether counters go along it, since both ends lie on one cycle.
    pub(crate) counts: bool,
    /// Whether it is rejecting.
    pub(crate) rejecting: bool,
    /// Whether it leads where every letter rejects for ever.
    pub(crate) is_lost: bool,
}

impl Way {
    /// What the state that it leads to has to be given where it starts from a state with a value.
    pub(crate) fn after(&self, value: u32) -> u32 {
        if !self.counts {
            1
        } else if self.rejecting {
            value.saturating_add(1)
        } else {
            value
        }
    }
}

/// What is played on.
#[derive(Drop)]
pub(crate) struct Arena {
    /// How many states the automaton has.
    pub(crate) states: u32,
    /// Its edges.
    pub(crate) ways: Vec<Way>,
    /// How many valuations there are.
    pub(crate) valuations: u32,
    /// The letters of the vectors, under the valuation in which nothing is true.
    pub(crate) letters: Vec<u64>,
}

impl Arena {
    /// The bits of tests.
    pub(crate) fn tests(&self) -> u64 {
        u64::from(self.valuations).saturating_sub(1)
    }

    /// The numbers of the edges that start from a state which a label reaches.
    pub(crate) fn live(&self, alloc: Global, label: &[u32]) -> Result<Vec<u32>, NoMemory> {
        let mut live = Vec::new(alloc);
        let mut number: u32 = 0;
        for way in self.ways.as_slice() {
            if value_at(label, way.from) > 0 {
                live.push(number)?;
            }
            number = number.saturating_add(1);
        }
        Ok(live)
    }

    /// Those of some edges that a valuation allows.
    pub(crate) fn under(
        &self,
        alloc: Global,
        live: &[u32],
        valuation: u32,
        work: &mut Work,
    ) -> Result<Vec<u32>, NoMemory> {
        work.take(live.len() as u64 / 8 + 1);
        let tests = self.tests();
        let mut under = Vec::new(alloc);
        for number in live {
            if let Some(way) = self.ways.get(*number as usize) {
                if (u64::from(valuation) ^ way.want) & way.care & tests == 0 {
                    under.push(*number)?;
                }
            }
        }
        Ok(under)
    }
}

/// What is played on for an automaton over the bits of a space with so many vectors.
pub(crate) fn arena_of(
    alloc: Global,
    automaton: &Automaton,
    space: &Space,
    letters: Vec<u64>,
) -> Result<Arena, NoMemory> {
    let edges = automaton.edges.as_slice();
    let reached = reached_states(alloc, automaton)?;
    let traps = traps(alloc, automaton.states, edges)?;
    let mut ways = Vec::new(alloc);
    for edge in edges {
        ways.push(Way {
            from: edge.from,
            care: edge.cube.care,
            want: edge.cube.want,
            to: edge.to,
            counts: leads_to(&reached, edge.to, edge.from),
            rejecting: edge.rejecting,
            is_lost: is_set(&traps, edge.to),
        })?;
    }
    Ok(Arena {
        states: automaton.states,
        ways,
        valuations: space.valuations(),
        letters,
    })
}

/// For each of so many states whether every letter rejects in it for ever.
fn traps(alloc: Global, states: u32, edges: &[Edge]) -> Result<Vec<bool>, NoMemory> {
    let mut traps = all_false(alloc, states)?;
    for edge in edges {
        if edge.from == edge.to && edge.rejecting && edge.cube.care == 0 {
            set(&mut traps, edge.to);
        }
    }
    Ok(traps)
}

/// So many false ones.
fn all_false(alloc: Global, count: u32) -> Result<Vec<bool>, NoMemory> {
    let mut flags = Vec::new(alloc);
    for _ in 0..count {
        flags.push(false)?;
    }
    Ok(flags)
}

/// Sets a flag.
fn set(flags: &mut Vec<bool>, number: u32) {
    if let Some(flag) = flags.get_mut(number as usize) {
        *flag = true;
    }
}

/// Whether a flag is set.
fn is_set(flags: &[bool], number: u32) -> bool {
    match flags.get(number as usize) {
        Some(flag) => *flag,
        None => false,
    }
}

/// Whether a state leads to another one, by what was found to be reached from each; where nothing was looked for it may.
fn leads_to(reached: &[Vec<bool>], from: u32, to: u32) -> bool {
    match reached.get(from as usize) {
        Some(row) => match row.get(to as usize) {
            Some(there) => *there,
            None => true,
        },
        None => true,
    }
}

/// For each state whether each state is reached from it; nothing where that takes too long.
fn reached_states(alloc: Global, automaton: &Automaton) -> Result<Vec<Vec<bool>>, NoMemory> {
    let edges = automaton.edges.as_slice();
    let mut rows = Vec::new(alloc);
    let pairs = u64::from(automaton.states).saturating_mul(edges.len() as u64);
    if pairs > MOST_PAIRS {
        return Ok(rows);
    }
    let next = next_states(alloc, automaton.states, edges)?;
    for state in 0..automaton.states {
        rows.push(reached_from(alloc, &next, automaton.states, state)?)?;
    }
    Ok(rows)
}

/// For each of so many states where its edges lead.
fn next_states(alloc: Global, states: u32, edges: &[Edge]) -> Result<Vec<Vec<u32>>, NoMemory> {
    let mut next = Vec::new(alloc);
    for _ in 0..states {
        next.push(Vec::new(alloc))?;
    }
    for edge in edges {
        add_next(&mut next, edge)?;
    }
    Ok(next)
}

/// Adds where an edge leads.
fn add_next(next: &mut Vec<Vec<u32>>, edge: &Edge) -> Result<(), NoMemory> {
    if let Some(row) = next.get_mut(edge.from as usize) {
        row.push(edge.to)?;
    }
    Ok(())
}

/// For each of so many states whether it is reached from one.
fn reached_from(
    alloc: Global,
    next: &[Vec<u32>],
    states: u32,
    start: u32,
) -> Result<Vec<bool>, NoMemory> {
    let mut reached = all_false(alloc, states)?;
    let mut open = Vec::new(alloc);
    open.push(start)?;
    // each state is opened once, and the first one once more
    for _ in 0..u64::from(states) + 1 {
        let Some(state) = open.pop() else {
            return Ok(reached);
        };
        if let Some(row) = next.get(state as usize) {
            open_all(row, &mut reached, &mut open)?;
        }
    }
    Ok(reached)
}

/// Opens those of some states that were not reached before.
fn open_all(row: &[u32], reached: &mut Vec<bool>, open: &mut Vec<u32>) -> Result<(), NoMemory> {
    for state in row {
        if let Some(there) = reached.get_mut(*state as usize) {
            if !*there {
                *there = true;
                open.push(*state)?;
            }
        }
    }
    Ok(())
}
