//! The environment and the numbers that the truths of an assignment say.

ghost use Rattle.std.specs.Prelude.{◌≡◌, ◌+◌, ◌*◌, ◌<◌, ◌≤◌, ◌^◌, cond, length, map, IfOk};
ghost use Rattle.clause_core.specs.Clauses.{assignment_of};
ghost use Rattle.letter_space.specs.declared.limits.TheConstants.{MOST_VECTORS};
ghost use Rattle.letter_space.specs.Letters.{with_bit};
ghost use Rattle.letter_space.specs.SpaceView.{space_tree};
ghost use Rattle.machines.specs.MachineView.{environment_tree};
ghost use Rattle.bounded_encoding.specs.ClauseLists.{below};
ghost use Rattle.counterstrategy.specs.DualDecoding.{bits_passing};
ghost use Rattle.counterstrategy.specs.internal.DualReading.{truths_from, successors_from};

use base_library::{NoMemory, Sequence};
use bounded_encoding::first_true;
use letter_space::Space;
use machines::Environment;
use std::alloc::Global;

/// A number with one more bit where a test says so.
fn with_bit_if(number: u32, bit: u32, test: bool) -> u32
    requires { bit < 32 }
    ensures { result ≡ cond test (with_bit number bit) number }
{
    if test { number | 1 << bit } else { number }
}

/// The bits of those of so many variables from an index on that are true.
fn true_bits(truths: &[bool], from: usize, count: u32) -> u32
    requires within { from + count ≤ length truths.now }
    requires few { count ≤ 32 }
    ensures { result ≡ bits_passing (λ b. assignment_of truths.now (from + b)) count }
{
    let mut bits = 0;
    for place in 0..count {
        bits = with_bit_if(bits, place, truths[from + place as usize]);
    }
    bits
}

/// What is true in each state.
fn truths_of_states(
    alloc: Global,
    truths: &[bool],
    states: u32,
    tests: u32,
) -> Result<Vec<u32>, NoMemory>
    requires within { states * tests ≤ length truths.now }
    requires few { tests ≤ 32 }
    requires short { length truths.now < 2 ^ 31 }
    ensures { IfOk result (λ valuations. valuations.items ≡ truths_from (assignment_of truths.now) tests states) }
{
    let mut valuations = Vec::new(alloc);
    for state in 0..states {
        valuations.push(true_bits(truths, state as usize * tests as usize, tests))?;
    }
    Ok(valuations)
}

/// So many successors, where their variables begin at an index.
fn successors_of_states(
    alloc: Global,
    truths: &[bool],
    base: usize,
    count: usize,
    states: u32,
) -> Result<Vec<u32>, NoMemory>
    requires within { base + count * states ≤ length truths.now }
    requires short { length truths.now < 2 ^ 31 }
    ensures { IfOk result (λ next. next.items ≡ successors_from (assignment_of truths.now) base states count) }
{
    let mut next = Vec::new(alloc);
    for number in 0..count {
        next.push(first_true(truths, base + number * states as usize, states))?;
    }
    Ok(next)
}

/// How many predicate terms a space has.
fn tests_in_all(space: &Space) -> u32
    ensures value { result ≡ length (space_tree space.now).predicates }
    ensures few { result ≤ 10 }
{
    space.predicates.len() as u32
}

/// The environment with so many states that truths say. The variables of predicate terms stand first, and then
/// those of successors.
pub(crate) fn environment_read(
    alloc: Global,
    truths: &[bool],
    space: &Space,
    vectors: u32,
    states: u32,
) -> Result<Environment, NoMemory>
    requires few_vectors { vectors ≤ MOST_VECTORS }
    requires has_state { 1 ≤ states }
    requires few_states { states ≤ 8 }
    requires within { states * length (space_tree space.now).predicates + states * vectors * states ≤ length truths.now }
    requires short { length truths.now < 2 ^ 31 }
    ensures { let tests = length (space_tree space.now).predicates in
        IfOk result (λ e. environment_tree e ≡ record {
          states = states;
          vectors = vectors;
          truths = truths_from (assignment_of truths.now) tests states;
          next = successors_from (assignment_of truths.now) (states * tests) states (states * vectors);
        }) }
{
    let tests = tests_in_all(space);
    let valuations = truths_of_states(alloc, truths, states, tests)?;
    let base = states as usize * tests as usize;
    let count = states as usize * vectors as usize;
    let next = successors_of_states(alloc, truths, base, count, states)?;
    Ok(Environment {
        states,
        vectors,
        truths: Sequence::from_vec(valuations),
        next: Sequence::from_vec(next),
    })
}
