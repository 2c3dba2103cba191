//! Laws of the definitions: the function does nothing, and its contract is the law.

ghost use Rattle.std.specs.Prelude.{◌≡◌, ℕ};
ghost use Rattle.circuits.specs.Circuits.{CircuitTree, IsCircuit};
ghost use Rattle.circuit_text.specs.CircuitText.{circuit_text, IsFirstWrongLine};

/// No line of the text of a circuit is wrong, so that it is read, and it is that of this circuit
/// alone.
pub fn written_circuits_are_read()
    ensures read { (c : CircuitTree) (line : ℕ) → IsCircuit c →
        IsFirstWrongLine (circuit_text c) line → ⊥ }
    ensures one { (a b : CircuitTree) → IsCircuit a → IsCircuit b →
        circuit_text a ≡ circuit_text b → a ≡ b }
{}
