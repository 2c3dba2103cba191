//! The controller and the numbers that the truths of an assignment say.

ghost use Rattle.std.specs.Prelude.{◌≡◌, ◌+◌, ◌-◌, ◌*◌, ◌<◌, ◌≤◌, ◌^◌, length, map, IfOk};
ghost use Rattle.std.specs.List.{prefix_len};
ghost use Rattle.clause_core.specs.Clauses.{assignment_of};
ghost use Rattle.letter_space.specs.SpaceTree.{choice_count};
ghost use Rattle.letter_space.specs.Letters.{valuation_count};
ghost use Rattle.letter_space.specs.ControlledView.{controlled_tree};
ghost use Rattle.letter_space.specs.SpaceView.{space_tree};
ghost use Rattle.machines.specs.MachineView.{entry_tree, controller_tree};
ghost use Rattle.bounded_encoding.specs.ClauseLists.{below};
ghost use Rattle.bounded_encoding.specs.internal.Reading.{choice_from, entry_numbered};
ghost use Rattle.bounded_encoding.specs.Reading.{next_from, number_from, numbers_from_index};

use annotation_check::Annotation;
use base_library::{NoMemory, Sequence};
use cobuchi_automata::Automaton;
use letter_space::{Controlled, Space};
use machines::{Controller, Entry};
use std::alloc::Global;

/// The controller with so many states that truths say. Those of the variables of choices stand first, and
/// then those of next states.
pub(crate) fn controller_read(
    alloc: Global,
    truths: &[bool],
    space: &Space,
    states: u32,
) -> Result<Controller, NoMemory>
    requires has_state { 1 ≤ states }
    requires few_states { states ≤ 8 }
    requires within { let rows = states * valuation_count (space_tree space.now) in
        rows * choice_count (space_tree space.now).controlled + rows * states ≤ length truths.now }
    requires few { length truths.now < 2 ^ 31 }
    ensures { let rows = states * valuation_count (space_tree space.now) in
        IfOk result (λ c. controller_tree c ≡ record {
          states = states;
          valuations = valuation_count (space_tree space.now);
          entries = map (entry_numbered (assignment_of truths.now) (space_tree space.now) states
              (rows * choice_count (space_tree space.now).controlled)) (below rows);
        }) }
{
    let valuations = space.valuations();
    let count = states as usize * valuations as usize;
    let entries = entries_read(alloc, truths, space, states, count)?;
    Ok(Controller {
        states,
        valuations,
        entries,
    })
}

/// So many entries.
fn entries_read(
    alloc: Global,
    truths: &[bool],
    space: &Space,
    states: u32,
    count: usize,
) -> Result<Sequence<Entry>, NoMemory>
    requires within { count * choice_count (space_tree space.now).controlled + count * states ≤ length truths.now }
    requires few { length truths.now < 2 ^ 31 }
    ensures { IfOk result (λ entries. map entry_tree entries
        ≡ map (entry_numbered (assignment_of truths.now) (space_tree space.now) states
        (count * choice_count (space_tree space.now).controlled)) (below count)) }
{
    let choices = choices_in_all(space);
    let mut entries = Sequence::new(alloc);
    for number in 0..count {
        let choice_base = number * choices;
        let next_base = count * choices + number * states as usize;
        entries.push(entry_read(alloc, truths, space, choice_base, next_base, states)?)?;
    }
    Ok(entries)
}

/// How many choices the signals have together.
pub(crate) fn choices_in_all(space: &Space) -> usize
    ensures value { result ≡ choice_count (space_tree space.now).controlled }
    ensures few { result ≤ 64 }
{
    let mut count = 0;
    for controlled in space.controlled.as_slice() {
        count += controlled.choices.len();
    }
    count
}

/// The entry whose variables of choices and of next states begin at two indices.
fn entry_read(
    alloc: Global,
    truths: &[bool],
    space: &Space,
    choice_base: usize,
    next_base: usize,
    states: u32,
) -> Result<Entry, NoMemory>
    requires choices { choice_base + choice_count (space_tree space.now).controlled ≤ length truths.now }
    requires nexts { next_base + states ≤ length truths.now }
    requires few { length truths.now < 2 ^ 31 }
    ensures { let tree = space_tree space.now in IfOk result (λ e. entry_tree e ≡ record {
      choices = map (choice_from (assignment_of truths.now) choice_base (length tree.predicates)) tree.controlled;
      next = next_from (assignment_of truths.now) next_base states;
    }) }
{
    let choices = Sequence::from_vec(choices_read(alloc, truths, space, choice_base)?);
    Ok(Entry {
        choices,
        next: first_true(truths, next_base, states),
    })
}

/// The choice of each signal, where their variables begin at an index.
fn choices_read(
    alloc: Global,
    truths: &[bool],
    space: &Space,
    base: usize,
) -> Result<Vec<u32>, NoMemory>
    requires choices { base + choice_count (space_tree space.now).controlled ≤ length truths.now }
    requires few { length truths.now < 2 ^ 31 }
    ensures { let tree = space_tree space.now in IfOk result (λ choices. choices.items
        ≡ map (choice_from (assignment_of truths.now) base (length tree.predicates)) tree.controlled) }
{
    let predicates = space.predicates.len() as u32;
    let mut choices = Vec::new(alloc);
    for controlled in space.controlled.as_slice() {
        choices.push(choice_read(truths, base, predicates, controlled))?;
    }
    Ok(choices)
}

/// The choice of a signal, where the variables of all choices begin at an index.
fn choice_read(truths: &[bool], base: usize, predicates: u32, controlled: &Controlled) -> u32
    requires first { predicates ≤ controlled.now.first }
    requires choices { controlled.now.first + length controlled.now.choices < 2 ^ 32 }
    requires within { base + (controlled.now.first - predicates) + length controlled.now.choices ≤ length truths.now }
    requires few { length truths.now < 2 ^ 31 }
    ensures { result ≡ choice_from (assignment_of truths.now) base predicates (controlled_tree controlled.now) }
{
    let from = base + (controlled.first - predicates) as usize;
    first_true(truths, from, controlled.choices.len() as u32)
}

/// The first of so many variables from an index on that is true; 0 where none is.
pub fn first_true(truths: &[bool], from: usize, count: u32) -> u32
    requires { from + count ≤ length truths.now }
    ensures { result ≡ next_from (assignment_of truths.now) from count }
{
    for place in 0..count {
        if truths[from + place as usize] {
            return place;
        }
    }
    0
}

/// The annotation that truths say. The variables of numbers are the last ones.
pub fn annotation_read(
    alloc: Global,
    truths: &[bool],
    automaton: &Automaton,
    states: u32,
    bound: u32,
) -> Result<Annotation, NoMemory>
    requires has_state { 1 ≤ states }
    requires few_states { states ≤ 8 }
    requires within { states * automaton.now.states * (bound + 1) ≤ length truths.now }
    requires few { length truths.now < 2 ^ 31 }
    ensures bound { IfOk result (λ a. a.bound ≡ bound) }
    ensures numbers { let pairs = states * automaton.now.states in
        IfOk result (λ a. a.numbers
        ≡ numbers_from_index (assignment_of truths.now) (length truths.now - pairs * (bound + 1)) (bound + 1) pairs) }
{
    let width = bound + 1;
    let pairs = states as usize * automaton.states as usize;
    let base = truths.len() - pairs * width as usize;
    let numbers = Sequence::from_vec(numbers_read(alloc, truths, base, width, pairs)?);
    Ok(Annotation { bound, numbers })
}

/// The numbers of so many pairs, where their variables begin at an index and each has so many.
fn numbers_read(
    alloc: Global,
    truths: &[bool],
    base: usize,
    count: u32,
    pairs: usize,
) -> Result<Vec<Option<u32>>, NoMemory>
    requires within { base + pairs * count ≤ length truths.now }
    requires few { length truths.now < 2 ^ 31 }
    ensures { IfOk result (λ numbers. numbers.items ≡ numbers_from_index (assignment_of truths.now) base count pairs) }
{
    let mut numbers = Vec::new(alloc);
    for pair in 0..pairs {
        numbers.push(number_read(truths, base + pair * count as usize, count))?;
    }
    Ok(numbers)
}

/// The number of a pair, where its variables begin at an index: the last for which these are true in a row.
fn number_read(truths: &[bool], from: usize, count: u32) -> Option<u32>
    requires { from + count ≤ length truths.now }
    ensures { result ≡ number_from (assignment_of truths.now) from count }
{
    true_run(truths, from, count).checked_sub(1)
}

/// How many of so many variables from an index on are true in a row.
fn true_run(truths: &[bool], from: usize, count: u32) -> u32
    requires { from + count ≤ length truths.now }
    ensures { result ≡ prefix_len (λ i. assignment_of truths.now (from + i)) (below count) }
{
    for number in 0..count {
        if !truths[from + number as usize] {
            return number;
        }
    }
    count
}
