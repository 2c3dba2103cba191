//! Circuits are written line by line.

ghost use Rattle.std.specs.Prelude.{◌≡◌, ◌+◌, ◌<◌, ◌^◌, ◌++◌, ◌∷◌, [], length, map, IfOk, OnOk};
ghost use Rattle.base_library.specs.Numbers.{numbers_from};
ghost use Rattle.tsl_text.specs.Written.{text_of_lines};
ghost use Rattle.circuits.specs.CircuitView.{circuit_tree};
ghost use Rattle.circuits.specs.GateView.{gate_tree};
ghost use Rattle.circuit_text.specs.CircuitText.{numbers_line, header_line, input_line, latch_lines, output_line};
ghost use Rattle.circuit_text.specs.CircuitText.{gate_lines, circuit_text};

use base_library::NoMemory;
use circuits::{Circuit, Gate};
use std::alloc::Global;
use tsl_text::{put_bytes, put_number};

/// The text of a circuit.
#[tactic(auto, using(crate::proofs::WrittenCircuits::put_together))]
pub fn write_circuit(alloc: Global, circuit: &Circuit) -> Result<Vec<u8>, NoMemory>
    ensures { IfOk result (λ text. text.items ≡ circuit_text (circuit_tree circuit.now)) }
{
    let mut out = Vec::new(alloc);
    let latches = circuit.latches.as_slice();
    let gates = circuit.gates.as_slice();
    put_header(&mut out, circuit)?;
    put_inputs(&mut out, circuit.inputs)?;
    put_latches(&mut out, circuit.inputs, latches)?;
    put_outputs(&mut out, circuit.outputs.as_slice())?;
    put_gates(&mut out, circuit.inputs + latches.len() as u32, gates)?;
    Ok(out)
}

/// Appends the first line.
fn put_header(out: &mut Vec<u8>, circuit: &Circuit) -> Result<(), NoMemory>
    ensures { OnOk result (out.new.items
        ≡ out.old.items ++ (header_line (circuit_tree circuit.now) ++ 10 ∷ [])) }
{
    let inputs = u64::from(circuit.inputs);
    let latches = circuit.latches.len() as u64;
    let outputs = circuit.outputs.len() as u64;
    let gates = circuit.gates.len() as u64;
    put_bytes(out, b"aag ")?;
    put_line(
        out,
        inputs + latches + gates,
        &[inputs, latches, outputs, gates],
    )
}

/// Appends the lines of the inputs.
#[tactic(auto, using(crate::proofs::WrittenCircuits::one_more_input))]
fn put_inputs(out: &mut Vec<u8>, inputs: u32) -> Result<(), NoMemory>
    ensures { OnOk result (out.new.items
        ≡ out.old.items ++ text_of_lines (map input_line (numbers_from 1 inputs))) }
{
    for before in 0..inputs {
        put_line(out, 2 * (u64::from(before) + 1), &[])?;
    }
    Ok(())
}

/// Appends the lines of the latches, which come after so many variables.
fn put_latches(out: &mut Vec<u8>, before: u32, latches: &[u32]) -> Result<(), NoMemory>
    requires { before + length latches.now < 2 ^ 31 }
    ensures { OnOk result (out.new.items
        ≡ out.old.items ++ text_of_lines (latch_lines before latches.now)) }
{
    let mut own = u64::from(before);
    for next in latches {
        own += 1;
        put_line(out, 2 * own, &[u64::from(*next)])?;
    }
    Ok(())
}

/// Appends the lines of the outputs.
fn put_outputs(out: &mut Vec<u8>, outputs: &[u32]) -> Result<(), NoMemory>
    ensures { OnOk result (out.new.items
        ≡ out.old.items ++ text_of_lines (map output_line outputs.now)) }
{
    for literal in outputs {
        put_line(out, u64::from(*literal), &[])?;
    }
    Ok(())
}

/// Appends the lines of the gates, which come after so many variables.
fn put_gates(out: &mut Vec<u8>, before: u32, gates: &[Gate]) -> Result<(), NoMemory>
    requires { before + length gates.now < 2 ^ 31 }
    ensures { OnOk result (out.new.items
        ≡ out.old.items ++ text_of_lines (gate_lines before (map gate_tree gates.now))) }
{
    let mut own = u64::from(before);
    for gate in gates {
        own += 1;
        put_line(out, 2 * own, &[u64::from(gate.left), u64::from(gate.right)])?;
    }
    Ok(())
}

/// Appends a line of numbers.
fn put_line(out: &mut Vec<u8>, first: u64, others: &[u64]) -> Result<(), NoMemory>
    ensures { OnOk result (out.new.items
        ≡ out.old.items ++ (numbers_line (first ∷ others.now) ++ 10 ∷ [])) }
{
    put_number(out, first)?;
    for number in others {
        put_bytes(out, b" ")?;
        put_number(out, *number)?;
    }
    put_bytes(out, b"\n")
}
