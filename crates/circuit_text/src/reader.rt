//! Circuits are read line by line.

ghost use Rattle.std.specs.Prelude.{◌≡◌, ◌+◌, ◌<◌, ◌^◌, ℕ, true, false, length, Ok, Err, Some, IfOk, IfSome, IfNone};
ghost use Rattle.std.specs.Prelude.{None, option_and_then};
ghost use Rattle.circuits.specs.Circuits.{CircuitTree};
ghost use Rattle.circuits.specs.CircuitView.{circuit_tree};
ghost use Rattle.circuits.specs.GateView.{gate_tree};
ghost use Rattle.circuit_text.specs.CircuitText.{circuit_text, IsFirstWrongLine};
ghost use Rattle.circuit_text.specs.internal.Lines.{one, two, three, header, line_value, Told, State, going, is_literal, with_input};
ghost use Rattle.circuit_text.specs.internal.Lines.{with_latch, with_output, with_gate, header_step, input_step, latch_step};
ghost use Rattle.circuit_text.specs.internal.Lines.{output_step, gate_step, a_gate, step_of, step, whole};
ghost use Rattle.circuit_text.specs.internal.ReaderView.{told, reader_state, circuit_so_far};

use crate::counts::Counts;
use crate::parts::{header, one_number, three_numbers, two_numbers};
use base_library::{NoMemory, Sequence};
use circuits::{Circuit, Gate};
use line_formats::{LastLine, LineReader, TextError, read_text};
use std::alloc::Global;

/// What was read so far.
#[derive(Drop)]
pub struct CircuitReader {
    /// What the header tells.
    pub counts: Option<Counts>,
    /// How many inputs were read.
    pub inputs: u32,
    /// The next literals of the latches.
    pub latches: Vec<u32>,
    /// The literals of the outputs.
    pub outputs: Vec<u32>,
    /// The gates.
    pub gates: Vec<Gate>,
}

/// The counts that a header tells.
fn counts_in(line: &[u8]) -> Option<Counts>
    ensures some { IfSome result (λ counts. (c : CircuitTree) →
        option_and_then (header_step c) (line_value header line.now)
        ≡ Some (going (told counts) c)) }
    ensures none { IfNone result ((c : CircuitTree) →
        option_and_then (header_step c) (line_value header line.now) ≡ None) }
{
    let found = header(line)?;
    if found.inputs + found.latches + found.gates == found.variables
        && (found.variables < 1 << 31 && found.outputs < 1 << 32)
    {
        Some(Counts {
            inputs: found.inputs as u32,
            latches: found.latches as u32,
            outputs: found.outputs as u32,
            gates: found.gates as u32,
        })
    } else {
        None
    }
}

/// Whether this is a literal of one of the variables up to this one.
fn is_literal(most: u32, literal: u64) -> bool
    requires { most < 2 ^ 31 }
    ensures { result ≡ is_literal most literal }
{
    literal < 2 * (u64::from(most) + 1)
}

/// Whether a line is that of the input after so many.
fn is_input(before: u32, line: &[u8]) -> bool
    requires { before < 2 ^ 31 }
    ensures yes { (t : Told) (c : CircuitTree) → c.inputs ≡ before → result ≡ true →
        option_and_then (input_step t c) (line_value one line.now) ≡ Some (going t (with_input c)) }
    ensures not { (t : Told) (c : CircuitTree) → c.inputs ≡ before → result ≡ false →
        option_and_then (input_step t c) (line_value one line.now) ≡ None }
{
    match one_number(line) {
        Some(number) => number == 2 * (u64::from(before) + 1),
        None => false,
    }
}

/// The next literal of the latch after so many, whose line this is.
fn latch_in(counts: Counts, before: u32, line: &[u8]) -> Option<u32>
    requires { before < counts.latches }
    ensures some { IfSome result (λ next. (c : CircuitTree) → length c.latches ≡ before →
        option_and_then (latch_step (told counts) c) (line_value two line.now)
        ≡ Some (going (told counts) (with_latch c next))) }
    ensures none { IfNone result ((c : CircuitTree) → length c.latches ≡ before →
        option_and_then (latch_step (told counts) c) (line_value two line.now) ≡ None) }
{
    let (own, next) = two_numbers(line)?;
    if own == 2 * (u64::from(counts.inputs + before) + 1)
        && is_literal(counts.inputs + counts.latches + counts.gates, next)
    {
        Some(next as u32)
    } else {
        None
    }
}

/// The literal of the output whose line this is.
fn output_in(counts: Counts, line: &[u8]) -> Option<u32>
    ensures some { IfSome result (λ literal. (c : CircuitTree) →
        option_and_then (output_step (told counts) c) (line_value one line.now)
        ≡ Some (going (told counts) (with_output c literal))) }
    ensures none { IfNone result ((c : CircuitTree) →
        option_and_then (output_step (told counts) c) (line_value one line.now) ≡ None) }
{
    let number = one_number(line)?;
    if is_literal(counts.inputs + counts.latches + counts.gates, number) {
        Some(number as u32)
    } else {
        None
    }
}

/// The gate after so many, whose line this is.
fn gate_in(counts: Counts, before: u32, line: &[u8]) -> Option<Gate>
    requires { before < counts.gates }
    ensures some { IfSome result (λ gate. (c : CircuitTree) → length c.gates ≡ before →
        option_and_then (gate_step (told counts) c) (line_value three line.now)
        ≡ Some (going (told counts) (with_gate c (gate_tree gate)))) }
    ensures none { IfNone result ((c : CircuitTree) → length c.gates ≡ before →
        option_and_then (gate_step (told counts) c) (line_value three line.now) ≡ None) }
{
    let (own, left, right) = three_numbers(line)?;
    if own == 2 * (u64::from(counts.inputs + counts.latches + before) + 1)
        && (left < own && right < own)
    {
        Some(Gate {
            left: left as u32,
            right: right as u32,
        })
    } else {
        None
    }
}

impl CircuitReader {
    /// Reads one more gate.
    fn read_gate(&mut self, counts: Counts, line: &[u8]) -> Result<bool, NoMemory>
        requires { length self.old.gates.items < counts.gates }
        ensures read { result ≡ Ok true →
            step_of a_gate (told counts) (circuit_so_far self.old) line.now
            ≡ Some (going (told counts) (circuit_so_far self.new)) }
        ensures wrong { result ≡ Ok false →
            step_of a_gate (told counts) (circuit_so_far self.old) line.now ≡ None }
        ensures kept { self.new.counts ≡ self.old.counts }
    {
        let Some(gate) = gate_in(counts, self.gates.len() as u32, line) else {
            return Ok(false);
        };
        self.gates.push(gate)?;
        Ok(true)
    }
}

impl LineReader for CircuitReader {
    ghost State = { State };

    ghost step = { step };

    ghost whole = { whole };

    ghost state = { reader_state };

    fn read_line(&mut self, line: &[u8]) -> Result<bool, NoMemory> {
        let Some(counts) = self.counts else {
            let Some(found) = counts_in(line) else {
                return Ok(false);
            };
            self.counts = Some(found);
            return Ok(true);
        };
        if self.inputs < counts.inputs {
            if !is_input(self.inputs, line) {
                return Ok(false);
            }
            self.inputs += 1;
            return Ok(true);
        }
        let latches = self.latches.len() as u64;
        if latches < u64::from(counts.latches) {
            let Some(next) = latch_in(counts, latches as u32, line) else {
                return Ok(false);
            };
            self.latches.push(next)?;
            return Ok(true);
        }
        if (self.outputs.len() as u64) < u64::from(counts.outputs) {
            let Some(output) = output_in(counts, line) else {
                return Ok(false);
            };
            self.outputs.push(output)?;
            return Ok(true);
        }
        if (self.gates.len() as u64) < u64::from(counts.gates) {
            return self.read_gate(counts, line);
        }
        Ok(false)
    }

    fn is_whole(&self) -> bool {
        match self.counts {
            None => false,
            Some(counts) => {
                self.inputs >= counts.inputs
                    && self.latches.len() as u64 >= u64::from(counts.latches)
                    && self.outputs.len() as u64 >= u64::from(counts.outputs)
                    && self.gates.len() as u64 >= u64::from(counts.gates)
            }
        }
    }
}

/// The circuit that a text tells. An `Err` tells the first line with which no text of a circuit goes on, which is the
/// one after the last where a line is missing.
#[tactic(auto, using(crate::proofs::FirstWrongLine::first_wrong))]
pub fn read_circuit(alloc: Global, text: &[u8]) -> Result<Circuit, TextError>
    requires { length text.now + 1 < 2 ^ 32 }
    ensures ok { IfOk result (λ found. text.now ≡ circuit_text (circuit_tree found)) }
    ensures form { (line : ℕ) → result ≡ Err (TextError.Form line) →
        IsFirstWrongLine text.now line }
{
    let mut reader = CircuitReader {
        counts: None,
        inputs: 0,
        latches: Vec::new(alloc),
        outputs: Vec::new(alloc),
        gates: Vec::new(alloc),
    };
    read_text(&mut reader, text, LastLine::Ended)?;
    Ok(Circuit {
        inputs: reader.inputs,
        latches: Sequence::from_vec(reader.latches),
        outputs: Sequence::from_vec(reader.outputs),
        gates: Sequence::from_vec(reader.gates),
    })
}
