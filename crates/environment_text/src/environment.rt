//! The text of an environment.

ghost use Rattle.std.specs.Prelude.{◌≡◌, ◌<◌, ◌++◌, ◌∷◌, [], length, map, flat_map, slice_get, codes, decimal, IsTrue, IfOk, OnOk};
ghost use Rattle.std.specs.List.{list_all, range_with_len};
ghost use Rattle.std.specs.Option.{option_map_or};
ghost use Rattle.tsl_terms.specs.TermTree.{probe_tree};
ghost use Rattle.term_text.specs.TermText.{probe_is_held};
ghost use Rattle.ltl_formula.specs.Cubes.{has_bit};
ghost use Rattle.letter_space.specs.ControlledView.{controlled_tree};
ghost use Rattle.letter_space.specs.SpaceView.{space_tree};
ghost use Rattle.letter_space.specs.Letters.{ArePicks};
ghost use Rattle.letter_space.specs.Vectors.{vector_count};
ghost use Rattle.machines.specs.MachineView.{environment_tree};
ghost use Rattle.machines.specs.Moves.{EnvironmentFits};
ghost use Rattle.environment_text.specs.EnvironmentText.{count_line, bit_text, test_line, tests_text, picked_text, picks_text, vector_line};
ghost use Rattle.environment_text.specs.EnvironmentText.{truths_text, successor_text, state_line, environment_text};
ghost use Rattle.environment_text.specs.EnvironmentText.{controlled_is_held, space_is_held};

use base_library::NoMemory;
use letter_space::{Controlled, Space};
use machines::Environment;
use std::alloc::Global;
use term_text::{put_probe, put_update};
use tsl_terms::{Names, Probe};
use tsl_text::{put_bytes, put_number};

/// The text of an environment: how many states it has, the predicate terms and the vectors of the space by their
/// numbers, and for each state what is true there and where each vector leads.
///
/// The names hold each number of the space's terms, and the environment fits the space.
pub fn environment_text(
    alloc: Global,
    names: &Names,
    space: &Space,
    environment: &Environment,
) -> Result<Vec<u8>, NoMemory>
    requires held { IsTrue (space_is_held names.now (space_tree space.now)) }
    requires fits { EnvironmentFits (space_tree space.now) (environment_tree environment.now) }
    ensures { IfOk result (λ text. text.items
        ≡ environment_text names.now (space_tree space.now) (environment_tree environment.now)) }
{
    let mut out = Vec::new(alloc);
    put_environment(&mut out, names, space, environment)?;
    Ok(out)
}

/// Appends the text of an environment.
pub fn put_environment(
    out: &mut Vec<u8>,
    names: &Names,
    space: &Space,
    environment: &Environment,
) -> Result<(), NoMemory>
    requires held { IsTrue (space_is_held names.now (space_tree space.now)) }
    requires fits { EnvironmentFits (space_tree space.now) (environment_tree environment.now) }
    ensures { OnOk result (out.new.items ≡ out.old.items
        ++ environment_text names.now (space_tree space.now) (environment_tree environment.now)) }
{
    put_count(out, b"environment", u64::from(environment.states))?;
    put_tests(out, names, space.predicates.as_slice())?;
    put_vectors(out, names, space, environment.vectors)?;
    put_states(out, test_count(space), environment)
}

/// How many predicate terms there are.
fn test_count(space: &Space) -> u32
    ensures count { result ≡ length (space_tree space.now).predicates }
    ensures few { result < 32 }
{
    space.predicates.len() as u32
}

/// Appends a line of a word and a number.
pub fn put_count(out: &mut Vec<u8>, word: &[u8], count: u64) -> Result<(), NoMemory>
    ensures { OnOk result (out.new.items ≡ out.old.items ++ count_line word.now count) }
{
    put_bytes(out, word)?;
    put_bytes(out, b" ")?;
    put_number(out, count)?;
    put_bytes(out, b"\n")
}

/// A bit as a digit.
pub fn bit_text(holds: bool) -> &'static [u8]
    ensures { result.now ≡ bit_text holds }
{
    if holds { b"1" } else { b"0" }
}

/// Whether a valuation has a bit.
fn holds_in(truths: u32, bit: u32) -> bool
    requires { bit < 32 }
    ensures { result ≡ has_bit bit truths }
{
    truths >> bit & 1 == 1
}

/// Appends a line for each predicate term.
fn put_tests(out: &mut Vec<u8>, names: &Names, probes: &[Probe]) -> Result<(), NoMemory>
    requires { IsTrue (list_all (probe_is_held names.now) (map probe_tree probes.now)) }
    ensures { OnOk result (out.new.items ≡ out.old.items ++ tests_text names.now 0 (map probe_tree probes.now)) }
{
    for (number, probe) in probes.iter().enumerate() {
        put_test(out, names, number, probe)?;
    }
    Ok(())
}

/// Appends the line of a predicate term.
fn put_test(out: &mut Vec<u8>, names: &Names, number: usize, probe: &Probe) -> Result<(), NoMemory>
    requires { IsTrue (probe_is_held names.now (probe_tree probe.now)) }
    ensures { OnOk result (out.new.items ≡ out.old.items ++ test_line names.now number (probe_tree probe.now)) }
{
    put_bytes(out, b"test ")?;
    put_number(out, number as u64)?;
    put_bytes(out, b" ")?;
    put_probe(out, names, probe)?;
    put_bytes(out, b"\n")
}

/// Appends a line for each vector.
fn put_vectors(
    out: &mut Vec<u8>,
    names: &Names,
    space: &Space,
    vectors: u32,
) -> Result<(), NoMemory>
    requires held { IsTrue (space_is_held names.now (space_tree space.now)) }
    requires counted { vectors ≡ vector_count (space_tree space.now).controlled }
    ensures { OnOk result (out.new.items ≡ out.old.items
        ++ flat_map (vector_line names.now (space_tree space.now).controlled) (range_with_len 0 vectors)) }
{
    for vector in 0..vectors {
        put_vector(out, names, space, vector)?;
    }
    Ok(())
}

/// Appends the line of a vector.
fn put_vector(out: &mut Vec<u8>, names: &Names, space: &Space, vector: u32) -> Result<(), NoMemory>
    requires held { IsTrue (space_is_held names.now (space_tree space.now)) }
    requires below { vector < vector_count (space_tree space.now).controlled }
    ensures { OnOk result (out.new.items ≡ out.old.items
        ++ vector_line names.now (space_tree space.now).controlled vector) }
{
    let picks = space.picks(*out.allocator(), vector)?;
    put_bytes(out, b"vector ")?;
    put_number(out, u64::from(vector))?;
    put_picks(out, names, space.controlled.as_slice(), &picks)?;
    put_bytes(out, b"\n")
}

/// Appends a choice of each signal, as updates.
fn put_picks(
    out: &mut Vec<u8>,
    names: &Names,
    controlled: &[Controlled],
    picks: &[u32],
) -> Result<(), NoMemory>
    requires held { IsTrue (list_all (controlled_is_held names.now) (map controlled_tree controlled.now)) }
    requires picks { ArePicks (map controlled_tree controlled.now) picks.now }
    requires counted { length picks.now ≡ length controlled.now }
    ensures { OnOk result (out.new.items ≡ out.old.items
        ++ picks_text names.now (map controlled_tree controlled.now) picks.now) }
{
    for (place, pick) in picks.iter().enumerate() {
        put_picked(out, names, &controlled[place], *pick)?;
    }
    Ok(())
}

/// Appends a choice of a signal, as an update.
fn put_picked(
    out: &mut Vec<u8>,
    names: &Names,
    controlled: &Controlled,
    pick: u32,
) -> Result<(), NoMemory>
    requires held { IsTrue (controlled_is_held names.now (controlled_tree controlled.now)) }
    requires below { pick < length controlled.now.choices }
    ensures { OnOk result (out.new.items ≡ out.old.items
        ++ picked_text names.now (controlled_tree controlled.now) pick) }
{
    put_bytes(out, b" ")?;
    let term = &controlled.choices.as_slice()[pick as usize];
    put_update(out, names, controlled.signal, term)
}

/// Appends a line for each state.
fn put_states(out: &mut Vec<u8>, tests: u32, environment: &Environment) -> Result<(), NoMemory>
    requires { tests < 32 }
    ensures { OnOk result (out.new.items ≡ out.old.items
        ++ flat_map (state_line tests (environment_tree environment.now)) (range_with_len 0 environment.now.states)) }
{
    for state in 0..environment.states {
        put_state(out, tests, environment, state)?;
    }
    Ok(())
}

/// Appends the line of a state: what is true there, and where each vector leads.
fn put_state(
    out: &mut Vec<u8>,
    tests: u32,
    environment: &Environment,
    state: u32,
) -> Result<(), NoMemory>
    requires tests { tests < 32 }
    requires state { state < environment.now.states }
    ensures { OnOk result (out.new.items ≡ out.old.items
        ++ state_line tests (environment_tree environment.now) state) }
{
    put_bytes(out, b"state ")?;
    put_number(out, u64::from(state))?;
    put_state_truths(out, tests, environment, state)?;
    put_bytes(out, b" to")?;
    put_successors(out, environment, state)?;
    put_bytes(out, b"\n")
}

/// Appends what is true in a state.
fn put_state_truths(
    out: &mut Vec<u8>,
    tests: u32,
    environment: &Environment,
    state: u32,
) -> Result<(), NoMemory>
    requires tests { tests < 32 }
    requires state { state < environment.now.states }
    ensures { OnOk result (out.new.items ≡ out.old.items
        ++ (codes " truths" ++ option_map_or (truths_text tests) (slice_get environment.now.truths state) [])) }
{
    put_bytes(out, b" truths")?;
    put_truths(out, tests, environment.truths.as_slice()[state as usize])
}

/// Appends the truth of each predicate term.
fn put_truths(out: &mut Vec<u8>, tests: u32, truths: u32) -> Result<(), NoMemory>
    requires { tests < 32 }
    ensures { OnOk result (out.new.items ≡ out.old.items ++ truths_text tests truths) }
{
    for bit in 0..tests {
        put_truth(out, holds_in(truths, bit))?;
    }
    Ok(())
}

/// Appends a truth, with a space before it.
fn put_truth(out: &mut Vec<u8>, holds: bool) -> Result<(), NoMemory>
    ensures { OnOk result (out.new.items ≡ out.old.items ++ (codes " " ++ bit_text holds)) }
{
    put_bytes(out, b" ")?;
    put_bytes(out, bit_text(holds))
}

/// Appends the state to go to under each vector.
fn put_successors(out: &mut Vec<u8>, environment: &Environment, state: u32) -> Result<(), NoMemory>
    requires { state < environment.now.states }
    ensures { OnOk result (out.new.items ≡ out.old.items
        ++ flat_map (successor_text (environment_tree environment.now) state) (range_with_len 0 environment.now.vectors)) }
{
    for vector in 0..environment.vectors {
        put_successor(out, environment.successor(state, vector))?;
    }
    Ok(())
}

/// Appends a state to go to, with a space before it.
fn put_successor(out: &mut Vec<u8>, state: u32) -> Result<(), NoMemory>
    ensures { OnOk result (out.new.items ≡ out.old.items ++ (codes " " ++ decimal state)) }
{
    put_bytes(out, b" ")?;
    put_number(out, u64::from(state))
}
