//! How automata are written.

ghost use Rattle.std.specs.Prelude.{◌≡◌, ◌≤◌, ◌++◌, ◌∷◌, [], length, map, flat_map, decimal, codes, IsTrue, IfOk, OnOk};
ghost use Rattle.std.specs.List.{list_all};
ghost use Rattle.base_library.specs.Numbers.{numbers_from};
ghost use Rattle.tsl_text.specs.Written.{text_of_lines};
ghost use Rattle.tsl_terms.specs.TermTree.{term_tree, probe_tree};
ghost use Rattle.term_text.specs.TermText.{probe_text, update_text, is_held, term_is_held, probe_is_held};
ghost use Rattle.letter_space.specs.ControlledView.{controlled_tree};
ghost use Rattle.letter_space.specs.SpaceView.{space_tree};
ghost use Rattle.letter_space.specs.SpaceTree.{bit_count, choice_count};
ghost use Rattle.cobuchi_automata.specs.Edges.{edge_tree, edge_trees};
ghost use Rattle.annotation_check.specs.EdgeLists.{edge_lists};
ghost use Rattle.environment_text.specs.EnvironmentText.{controlled_is_held, space_is_held};
ghost use Rattle.automaton_text.specs.BitNames.{bit_names, choice_names};
ghost use Rattle.automaton_text.specs.HoaText.{hoa_text, header_lines, bits_text, quoted_text, edge_text, state_text, mark_text};
ghost use Rattle.automaton_text.specs.internal.Written.{listed_lines};

use crate::labels::put_label;
use annotation_check::edges_by_state;
use base_library::NoMemory;
use cobuchi_automata::{Automaton, Edge};
use letter_space::{Controlled, Space};
use std::alloc::Global;
use term_text::{put_probe, put_update};
use tsl_terms::{Names, Probe, Term};
use tsl_text::{put_bytes, put_number};

/// The text of an automaton over the bits of a space.
///
/// The names hold each number of the space's terms.
pub fn write_automaton(
    alloc: Global,
    names: &Names,
    space: &Space,
    automaton: &Automaton,
) -> Result<Vec<u8>, NoMemory>
    requires held { IsTrue (space_is_held names.now (space_tree space.now)) }
    ensures { IfOk result (λ text. text.items
        ≡ hoa_text (bit_names names.now (space_tree space.now)) automaton.now.states (edge_trees automaton.now.edges)) }
{
    let table = edges_by_state(alloc, automaton)?;
    let mut out = Vec::new(alloc);
    put_header(&mut out, names, space, automaton.states)?;
    put_states(&mut out, bit_count(space), &table)?;
    put_line(&mut out, b"--END--")?;
    Ok(out)
}

/// How many bits there are.
fn bit_count(space: &Space) -> u32
    ensures count { result ≡ bit_count (space_tree space.now) }
    ensures few { result ≤ 64 }
{
    let mut count = space.predicates.len() as u32;
    for controlled in space.controlled.as_slice() {
        count += controlled.choices.len() as u32;
    }
    count
}

/// Appends the lines before those of states.
fn put_header(out: &mut Vec<u8>, names: &Names, space: &Space, states: u32) -> Result<(), NoMemory>
    requires held { IsTrue (space_is_held names.now (space_tree space.now)) }
    ensures { OnOk result (out.new.items
        ≡ out.old.items ++ text_of_lines (header_lines (bit_names names.now (space_tree space.now)) states)) }
{
    put_line(out, b"HOA: v1")?;
    put_count(out, b"States: ", states)?;
    put_line(out, b"Start: 0")?;
    put_bits(out, names, space)?;
    put_line(out, b"acc-name: Buchi")?;
    put_line(out, b"Acceptance: 1 Inf(0)")?;
    put_line(out, b"--BODY--")
}

/// Appends a line.
fn put_line(out: &mut Vec<u8>, line: &[u8]) -> Result<(), NoMemory>
    ensures { OnOk result (out.new.items ≡ out.old.items ++ (line.now ++ 10 ∷ [])) }
{
    put_bytes(out, line)?;
    put_bytes(out, b"\n")
}

/// Appends a line of a word and a number.
fn put_count(out: &mut Vec<u8>, word: &[u8], count: u32) -> Result<(), NoMemory>
    ensures { OnOk result (out.new.items ≡ out.old.items ++ ((word.now ++ decimal count) ++ 10 ∷ [])) }
{
    put_bytes(out, word)?;
    put_number(out, u64::from(count))?;
    put_bytes(out, b"\n")
}

/// Appends the line of the bits.
fn put_bits(out: &mut Vec<u8>, names: &Names, space: &Space) -> Result<(), NoMemory>
    requires held { IsTrue (space_is_held names.now (space_tree space.now)) }
    ensures { OnOk result (out.new.items
        ≡ out.old.items ++ (bits_text (bit_names names.now (space_tree space.now)) ++ 10 ∷ [])) }
{
    put_bytes(out, b"AP: ")?;
    put_number(out, u64::from(bit_count(space)))?;
    put_tests(out, names, space.predicates.as_slice())?;
    put_signals(out, names, space.controlled.as_slice())?;
    put_bytes(out, b"\n")
}

/// Appends tests in quotes.
fn put_tests(out: &mut Vec<u8>, names: &Names, tests: &[Probe]) -> Result<(), NoMemory>
    requires { IsTrue (list_all (probe_is_held names.now) (map probe_tree tests.now)) }
    ensures { OnOk result (out.new.items
        ≡ out.old.items ++ flat_map quoted_text (map (probe_text names.now) (map probe_tree tests.now))) }
{
    for test in tests {
        put_test(out, names, test)?;
    }
    Ok(())
}

/// Appends a test in quotes.
fn put_test(out: &mut Vec<u8>, names: &Names, test: &Probe) -> Result<(), NoMemory>
    requires { IsTrue (probe_is_held names.now (probe_tree test.now)) }
    ensures { OnOk result (out.new.items
        ≡ out.old.items ++ quoted_text (probe_text names.now (probe_tree test.now))) }
{
    put_bytes(out, b" \"")?;
    put_probe(out, names, test)?;
    put_bytes(out, b"\"")
}

/// Appends the choices of signals as updates in quotes.
fn put_signals(out: &mut Vec<u8>, names: &Names, signals: &[Controlled]) -> Result<(), NoMemory>
    requires { IsTrue (list_all (controlled_is_held names.now) (map controlled_tree signals.now)) }
    ensures { OnOk result (out.new.items ≡ out.old.items
        ++ flat_map quoted_text (flat_map (choice_names names.now) (map controlled_tree signals.now))) }
{
    for signal in signals {
        put_choices(out, names, signal.signal, signal.choices.as_slice())?;
    }
    Ok(())
}

/// Appends the updates of a signal in quotes.
fn put_choices(
    out: &mut Vec<u8>,
    names: &Names,
    signal: u32,
    choices: &[Term],
) -> Result<(), NoMemory>
    requires signal { IsTrue (is_held names.now signal) }
    requires choices { IsTrue (list_all (term_is_held names.now) (map term_tree choices.now)) }
    ensures { OnOk result (out.new.items ≡ out.old.items
        ++ flat_map quoted_text (map (update_text names.now signal) (map term_tree choices.now))) }
{
    for choice in choices {
        put_choice(out, names, signal, choice)?;
    }
    Ok(())
}

/// Appends an update in quotes.
fn put_choice(out: &mut Vec<u8>, names: &Names, signal: u32, choice: &Term) -> Result<(), NoMemory>
    requires signal { IsTrue (is_held names.now signal) }
    requires choice { IsTrue (term_is_held names.now (term_tree choice.now)) }
    ensures { OnOk result (out.new.items
        ≡ out.old.items ++ quoted_text (update_text names.now signal (term_tree choice.now))) }
{
    put_bytes(out, b" \"")?;
    put_update(out, names, signal, choice)?;
    put_bytes(out, b"\"")
}

/// Appends the lines of states, whose edges these are.
fn put_states(out: &mut Vec<u8>, bits: u32, table: &[Vec<Edge>]) -> Result<(), NoMemory>
    requires few_bits { bits ≤ 64 }
    ensures { OnOk result (out.new.items
        ≡ out.old.items ++ text_of_lines (listed_lines bits 0 (edge_lists table.now))) }
{
    for (state, edges) in table.iter().enumerate() {
        put_state(out, bits, state, edges)?;
    }
    Ok(())
}

/// Appends the lines of a state.
fn put_state(out: &mut Vec<u8>, bits: u32, state: usize, edges: &[Edge]) -> Result<(), NoMemory>
    requires few_bits { bits ≤ 64 }
    ensures { OnOk result (out.new.items
        ≡ out.old.items ++ text_of_lines (state_text state ∷ map (edge_text bits) (edge_trees edges.now))) }
{
    put_bytes(out, b"State: ")?;
    put_number(out, state as u64)?;
    put_bytes(out, b"\n")?;
    put_edges(out, bits, edges)
}

/// Appends the lines of edges.
fn put_edges(out: &mut Vec<u8>, bits: u32, edges: &[Edge]) -> Result<(), NoMemory>
    requires few_bits { bits ≤ 64 }
    ensures { OnOk result (out.new.items
        ≡ out.old.items ++ text_of_lines (map (edge_text bits) (edge_trees edges.now))) }
{
    for edge in edges {
        put_edge(out, bits, *edge)?;
    }
    Ok(())
}

/// Appends the line of an edge.
fn put_edge(out: &mut Vec<u8>, bits: u32, edge: Edge) -> Result<(), NoMemory>
    requires few_bits { bits ≤ 64 }
    ensures { OnOk result (out.new.items ≡ out.old.items ++ (edge_text bits (edge_tree edge) ++ 10 ∷ [])) }
{
    put_bytes(out, b"[")?;
    put_label(out, bits, edge.cube)?;
    put_bytes(out, b"] ")?;
    put_number(out, u64::from(edge.to))?;
    put_bytes(out, mark_text(edge.rejecting))?;
    put_bytes(out, b"\n")
}

/// What stands after a rejecting edge.
fn mark_text(rejecting: bool) -> &'static [u8]
    ensures { result.now ≡ mark_text rejecting }
{
    if rejecting { b" {0}" } else { b"" }
}
