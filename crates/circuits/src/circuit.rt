//! Circuits.

ghost use Rattle.std.specs.Prelude.{map};
ghost use Rattle.circuits.specs.Circuits.{CircuitTree, IsCircuit};
ghost use Rattle.circuits.specs.GateView.{gate_tree};

use crate::gate::Gate;
use base_library::Sequence;

/// A circuit. Its variables are the inputs, the latches and the gates, numbered from 1 in this order.
/// Literal 2v is variable v, 2v + 1 its negation, 0 is false and 1 is true. Latches start false.
#[derive(Drop)]
pub struct Circuit {
    /// How many inputs there are.
    pub inputs: u32,
    /// The literal that each latch takes next.
    pub latches: Sequence<u32>,
    /// The literal of each output.
    pub outputs: Sequence<u32>,
    /// The gates, each of which joins literals of smaller variables.
    pub gates: Sequence<Gate>,
    pub ghost is_circuit: { IsCircuit (record { inputs = inputs; latches = latches; outputs = outputs; gates = map gate_tree gates }) },
}
