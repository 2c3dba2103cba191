//! Automata are read line by line.

ghost use Rattle.std.specs.Prelude.{◌≡◌, ◌+◌, ◌<◌, ◌^◌, ◌++◌, ◌∷◌, [], length, slice_get, true, false, Ok, Err, Some, None, IfOk, IfErr, OnOk, IsTrue};
ghost use Rattle.std.specs.Prelude.{option_map, option_and_then};
ghost use Rattle.cobuchi_automata.specs.Edges.{edge_trees};
ghost use Rattle.automaton_text.specs.HoaText.{IsHoaText};
ghost use Rattle.automaton_text.specs.HoaLines.{State, header, says, counts, lists, whole, may_join, edge_with, edge_line, state_line, end_line, line_value, edge_step, state_step, end_step};
ghost use Rattle.automaton_text.specs.HoaRefusals.{IsHoaRefusal, IsSmall, TellsOf};
ghost use Rattle.automaton_text.specs.internal.Limits.{HasAutomaton, PassesLimit};
ghost use Rattle.automaton_text.specs.HoaView.{kept, kept_step, kept_edges, are_few, literal_trees, reader_state};

use crate::header::{Head, head_after};
use crate::hoa_error::HoaError;
use crate::lines::{begins, bits_in, edge_in, says, state_in, states_in};
use crate::literals::{Literal, cube_of, literals_in, rise};
use base_library::{NoMemory, Sequence};
use cobuchi_automata::{Automaton, Edge, MOST_AUTOMATON_EDGES, MOST_AUTOMATON_STATES};
use letter_space::MOST_BITS;
use line_formats::{LastLine, LineReader, TextError, read_text};
use std::alloc::Global;

/// An automaton, and of how many bits its edges ask.
#[derive(Drop)]
pub struct Hoa {
    /// How many bits there are.
    pub bits: u32,
    /// The automaton.
    pub automaton: Automaton,
}

/// What was read so far.
#[derive(Drop)]
pub struct HoaReader {
    /// Where memory is taken.
    pub alloc: Global,
    /// How many lines of the header were read.
    pub passed: u32,
    /// How many states there are, one as long as it is not said.
    pub states: u64,
    /// How many bits there are.
    pub bits: u64,
    /// How many states were begun.
    pub begun: u64,
    /// The edges, where bits and states are within the limits.
    pub edges: Vec<Edge>,
    /// Whether the last line was read.
    pub ended: bool,
}

impl HoaReader {
    /// Passes a line of the header.
    fn pass(&mut self)
        requires { self.old.passed < 7 }
        ensures passed { self.new.passed ≡ self.old.passed + 1 }
        ensures edges { self.new.edges.items ≡ [] }
        ensures kept { (self.new.states ≡ self.old.states) × (self.new.bits ≡ self.old.bits)
            × (self.new.begun ≡ self.old.begun) × (self.new.ended ≡ self.old.ended) }
    {
        self.passed += 1;
        self.edges = Vec::new(self.alloc);
    }

    /// Reads a line of the header that says these words.
    fn read_words(&mut self, line: &[u8], words: &[u8]) -> bool
        requires open { self.old.ended ≡ false }
        requires here { slice_get header self.old.passed ≡ Some (says words.now) }
        ensures read { result ≡ true → kept_step (reader_state self.old) line.now ≡ Some (reader_state self.new) }
        ensures wrong { result ≡ false → kept_step (reader_state self.old) line.now ≡ None }
    {
        if !says(line, words) {
            return false;
        }
        self.pass();
        true
    }

    /// Reads how many states there are.
    fn read_states(&mut self, line: &[u8]) -> bool
        requires open { self.old.ended ≡ false }
        requires here { slice_get header self.old.passed ≡ Some counts }
        ensures read { result ≡ true → kept_step (reader_state self.old) line.now ≡ Some (reader_state self.new) }
        ensures wrong { result ≡ false → kept_step (reader_state self.old) line.now ≡ None }
    {
        let Some(states) = states_in(line) else {
            return false;
        };
        if states == 0 {
            return false;
        }
        self.states = states;
        self.pass();
        true
    }

    /// Reads how many bits there are.
    fn read_bits(&mut self, line: &[u8]) -> bool
        requires open { self.old.ended ≡ false }
        requires here { slice_get header self.old.passed ≡ Some lists }
        ensures read { result ≡ true → kept_step (reader_state self.old) line.now ≡ Some (reader_state self.new) }
        ensures wrong { result ≡ false → kept_step (reader_state self.old) line.now ≡ None }
    {
        let Some((bits, named)) = bits_in(line) else {
            return false;
        };
        if bits != named {
            return false;
        }
        self.bits = bits;
        self.pass();
        true
    }

    /// Whether bits and states are within the limits.
    fn are_few(&self) -> bool
        ensures { result ≡ are_few self.now.bits self.now.states }
    {
        self.bits <= MOST_BITS as u64 && self.states <= MOST_AUTOMATON_STATES as u64
    }

    /// Whether an edge with these literals may lead from the state that was begun last to another.
    fn may_join(&self, literals: &[Literal], to: u64) -> bool
        ensures { result ≡ may_join (reader_state self.now) (literal_trees literals.now) to }
    {
        0 < self.begun && self.begun <= self.states && to < self.states && rise(self.bits, literals)
    }

    /// Keeps an edge from the state that was begun last, where bits and states are within the limits.
    fn keep(&mut self, literals: &[Literal], to: u64, rejecting: bool) -> Result<(), NoMemory>
        requires { IsTrue (may_join (reader_state self.old) (literal_trees literals.now) to) }
        ensures edges { OnOk result (kept_edges self.old.bits self.old.states (edge_trees self.new.edges.items)
            ≡ kept_edges self.old.bits self.old.states (edge_trees self.old.edges.items
            ++ edge_with (reader_state self.old) (literal_trees literals.now) to rejecting ∷ [])) }
        ensures kept { (self.new.passed ≡ self.old.passed) × (self.new.states ≡ self.old.states) × (self.new.bits ≡ self.old.bits)
            × (self.new.begun ≡ self.old.begun) × (self.new.ended ≡ self.old.ended) }
    {
        if !self.are_few() {
            return Ok(());
        }
        self.edges.push(Edge {
            from: (self.begun - 1) as u32,
            cube: cube_of(literals),
            to: to as u32,
            rejecting,
        })?;
        Ok(())
    }

    /// Reads the line of an edge.
    fn read_edge(&mut self, line: &[u8]) -> Result<bool, NoMemory>
        requires open { self.old.ended ≡ false }
        requires past { slice_get header self.old.passed ≡ None }
        ensures read { result ≡ Ok true → option_map kept
            (option_and_then (edge_step (reader_state self.old)) (line_value edge_line line.now)) ≡ Some (reader_state self.new) }
        ensures wrong { result ≡ Ok false → option_map kept
            (option_and_then (edge_step (reader_state self.old)) (line_value edge_line line.now)) ≡ None }
    {
        let Some((label, to, rejecting)) = edge_in(line) else {
            return Ok(false);
        };
        let Some(literals) = literals_in(self.alloc, label)? else {
            return Ok(false);
        };
        if !self.may_join(&literals, to) {
            return Ok(false);
        }
        self.keep(&literals, to, rejecting)?;
        Ok(true)
    }

    /// Reads the line that begins a state.
    fn read_state(&mut self, line: &[u8]) -> bool
        requires open { self.old.ended ≡ false }
        requires past { slice_get header self.old.passed ≡ None }
        ensures read { result ≡ true → option_map kept
            (option_and_then (state_step (reader_state self.old)) (line_value state_line line.now)) ≡ Some (reader_state self.new) }
        ensures wrong { result ≡ false → option_map kept
            (option_and_then (state_step (reader_state self.old)) (line_value state_line line.now)) ≡ None }
    {
        let Some(state) = state_in(line) else {
            return false;
        };
        if state != self.begun || state >= self.states {
            return false;
        }
        self.begun = state + 1;
        true
    }

    /// Reads the last line.
    fn read_end(&mut self, line: &[u8]) -> bool
        requires open { self.old.ended ≡ false }
        requires past { slice_get header self.old.passed ≡ None }
        ensures read { result ≡ true → option_map kept
            (option_and_then (end_step (reader_state self.old)) (line_value end_line line.now)) ≡ Some (reader_state self.new) }
        ensures wrong { result ≡ false → option_map kept
            (option_and_then (end_step (reader_state self.old)) (line_value end_line line.now)) ≡ None }
    {
        if !says(line, b"--END--") || self.begun != self.states {
            return false;
        }
        self.ended = true;
        true
    }

    /// Reads a line after the header.
    #[tactic(auto, using(crate::proofs::BodyLines::step_edge, crate::proofs::BodyLines::step_state, crate::proofs::BodyLines::step_end))]
    fn read_body(&mut self, line: &[u8]) -> Result<bool, NoMemory>
        requires open { self.old.ended ≡ false }
        requires past { slice_get header self.old.passed ≡ None }
        ensures read { result ≡ Ok true → kept_step (reader_state self.old) line.now ≡ Some (reader_state self.new) }
        ensures wrong { result ≡ Ok false → kept_step (reader_state self.old) line.now ≡ None }
    {
        if begins(line, b"[") {
            return self.read_edge(line);
        }
        if begins(line, b"S") {
            return Ok(self.read_state(line));
        }
        Ok(self.read_end(line))
    }
}

impl LineReader for HoaReader {
    ghost State = { State };

    ghost step = { kept_step };

    ghost whole = { whole };

    ghost state = { reader_state };

    #[tactic(auto, using(crate::proofs::BodyLines::step_ended))]
    fn read_line(&mut self, line: &[u8]) -> Result<bool, NoMemory> {
        if self.ended {
            return Ok(false);
        }
        match head_after(self.passed) {
            Some(Head::Says(words)) => Ok(self.read_words(line, words)),
            Some(Head::Counts) => Ok(self.read_states(line)),
            Some(Head::Lists) => Ok(self.read_bits(line)),
            None => self.read_body(line),
        }
    }

    fn is_whole(&self) -> bool {
        self.ended
    }
}

/// The automaton that a text tells, its edges in the order of their first states. An `Err` tells the first line with
/// which no text of an automaton goes on; otherwise the first limit that is passed, bits before states and states
/// before edges.
pub fn read_hoa(alloc: Global, text: &[u8]) -> Result<Hoa, HoaError>
    requires { length text.now + 1 < 2 ^ 32 }
    ensures ok { IfOk result (λ found.
        IsHoaText text.now found.bits found.automaton.states (edge_trees found.automaton.edges)) }
    ensures small { IfOk result (λ found.
        IsSmall found.bits found.automaton.states (edge_trees found.automaton.edges)) }
    ensures refused { (error : HoaError) → result ≡ Err error → IsHoaRefusal error text.now }
{
    let mut reader = HoaReader {
        alloc,
        passed: 0,
        states: 1,
        bits: 0,
        begun: 0,
        edges: Vec::new(alloc),
        ended: false,
    };
    match read_text(&mut reader, text, LastLine::Ended) {
        Ok(()) => found(reader),
        Err(TextError::Form(line)) => Err(HoaError::Form(line)),
        Err(TextError::NoMemory) => Err(HoaError::NoMemory),
    }
}

/// The automaton of what was read, or the first limit that it passes.
fn found(reader: HoaReader) -> Result<Hoa, HoaError>
    requires { HasAutomaton (reader_state reader) }
    ensures bits { IfOk result (λ found. found.bits ≡ reader.bits) }
    ensures states { IfOk result (λ found. found.automaton.states ≡ reader.states) }
    ensures edges { IfOk result (λ found. edge_trees found.automaton.edges ≡ (reader_state reader).edges) }
    ensures small { IfOk result (λ found. IsSmall reader.bits reader.states (reader_state reader).edges) }
    ensures refused { IfErr result (PassesLimit (reader_state reader)) }
{
    if reader.bits > MOST_BITS as u64 {
        return Err(HoaError::Bits);
    }
    if reader.states > MOST_AUTOMATON_STATES as u64 {
        return Err(HoaError::States);
    }
    if reader.edges.len() > MOST_AUTOMATON_EDGES {
        return Err(HoaError::Edges);
    }
    Ok(Hoa {
        bits: reader.bits as u32,
        automaton: Automaton {
            states: reader.states as u32,
            edges: Sequence::from_vec(reader.edges),
        },
    })
}

/// The same without the number of bits.
pub fn read_automaton(alloc: Global, text: &[u8]) -> Result<Automaton, HoaError>
    requires { length text.now + 1 < 2 ^ 32 }
    ensures ok { IfOk result (λ found. TellsOf text.now
        (λ bits states edges. IsSmall bits states edges × (states ≡ found.states) × (edges ≡ edge_trees found.edges))) }
    ensures refused { (error : HoaError) → result ≡ Err error → IsHoaRefusal error text.now }
{
    let Hoa { automaton, .. } = read_hoa(alloc, text)?;
    Ok(automaton)
}
