//! Gates as they are made, each once.

ghost use Rattle.std.specs.Prelude.{◌≡◌, ◌⊎◌, ◌∷◌, ◌++◌, [], map, Some, slice_get, IfOk};
ghost use Rattle.circuits.specs.GateView.{gate_tree};
ghost use Rattle.controller_circuits.specs.internal.Joining.{AreGates, negated_literal};

use base_library::NoMemory;
use circuits::Gate;
use indexmap::IndexSet;
use std::alloc::Global;

/// Gates over variables that stand before them. No gate stands twice.
#[derive(Drop)]
pub(crate) struct Gates {
    /// How many variables stand before the gates.
    pub(crate) before: u32,
    /// The gates.
    pub(crate) made: IndexSet<Gate>,
    pub(crate) ghost are_gates: { AreGates before (map gate_tree made.keys) },
}

impl Gates {
    ghost use Rattle.std.specs.Prelude.{◌+◌, ◌<◌, ◌^◌, ◌&&◌, ◌||◌, if◌then◌else◌, length};
    ghost use Rattle.circuits.specs.Circuits.{IsLiteral};
    ghost use Rattle.controller_circuits.specs.internal.Gates.{gates_tree, variables_so_far, GivesLiteral};

    /// No gates over so many variables.
    pub(crate) fn new(alloc: Global, before: u32) -> Gates
        ensures { gates_tree result ≡ record { before = before; gates = [] } }
    {
        Gates {
            before,
            made: IndexSet::new(alloc),
        }
    }

    /// A literal that is true where both are. Where one tells, it takes no gate.
    pub(crate) fn both(&mut self, left: u32, right: u32) -> Result<u32, NoMemory>
        requires left { IsLiteral (variables_so_far (gates_tree self.old)) left }
        requires right { IsLiteral (variables_so_far (gates_tree self.old)) right }
        requires few { variables_so_far (gates_tree self.old) + 1 < 2 ^ 31 }
        ensures { IfOk result (λ made. GivesLiteral (gates_tree self.old) (gates_tree self.new) 1 made (λ truth. truth left && truth right)) }
    {
        if left == 0 || right == 0 || left == negated(right) {
            return Ok(0);
        }
        if left == 1 || left == right {
            return Ok(right);
        }
        if right == 1 {
            return Ok(left);
        }
        if left < right {
            self.joined(right, left)
        } else {
            self.joined(left, right)
        }
    }

    /// The literal of the gate that joins two.
    fn joined(&mut self, left: u32, right: u32) -> Result<u32, NoMemory>
        requires left { IsLiteral (variables_so_far (gates_tree self.old)) left }
        requires right { IsLiteral (variables_so_far (gates_tree self.old)) right }
        requires few { variables_so_far (gates_tree self.old) + 1 < 2 ^ 31 }
        ensures { IfOk result (λ made. GivesLiteral (gates_tree self.old) (gates_tree self.new) 1 made (λ truth. truth left && truth right)) }
    {
        let place = place_of_gate(&mut self.made, Gate { left, right })?;
        Ok((self.before + place as u32 + 1) * 2)
    }

    /// A literal that is true where one of both is.
    pub(crate) fn either(&mut self, left: u32, right: u32) -> Result<u32, NoMemory>
        requires left { IsLiteral (variables_so_far (gates_tree self.old)) left }
        requires right { IsLiteral (variables_so_far (gates_tree self.old)) right }
        requires few { variables_so_far (gates_tree self.old) + 1 < 2 ^ 31 }
        ensures { IfOk result (λ made. GivesLiteral (gates_tree self.old) (gates_tree self.new) 1 made (λ truth. truth left || truth right)) }
    {
        let neither = self.both(negated(left), negated(right))?;
        Ok(negated(neither))
    }

    /// A literal with the truth of one where a test is true, and of another where it is false.
    pub(crate) fn chosen(&mut self, test: u32, high: u32, low: u32) -> Result<u32, NoMemory>
        requires test { IsLiteral (variables_so_far (gates_tree self.old)) test }
        requires high { IsLiteral (variables_so_far (gates_tree self.old)) high }
        requires low { IsLiteral (variables_so_far (gates_tree self.old)) low }
        requires few { variables_so_far (gates_tree self.old) + 3 < 2 ^ 31 }
        ensures gives { IfOk result (λ made. GivesLiteral (gates_tree self.old) (gates_tree self.new) 3 made
            (λ truth. if truth test then truth high else truth low)) }
        ensures same { high ≡ low → IfOk result (λ made. made ≡ low) }
    {
        if high == low {
            return Ok(low);
        }
        if high == 1 {
            return self.either(test, low);
        }
        if low == 1 {
            return self.either(negated(test), high);
        }
        let with_high = self.both(test, high)?;
        let with_low = self.both(negated(test), low)?;
        self.either(with_high, with_low)
    }
}

/// The place of a gate among others. It is added at their end where it is not there.
fn place_of_gate(made: &mut IndexSet<Gate>, gate: Gate) -> Result<usize, NoMemory>
    ensures kept { (made.new.keys ≡ made.old.keys) ⊎ (made.new.keys ≡ made.old.keys ++ gate ∷ []) }
    ensures there { IfOk result (λ place. slice_get (map gate_tree made.new.keys) place ≡ Some (gate_tree gate)) }
{
    let (place, _) = made.insert_full(gate)?;
    Ok(place)
}

/// The negation of a literal.
fn negated(literal: u32) -> u32
    ensures { result ≡ negated_literal literal }
{
    if literal % 2 == 0 {
        literal + 1
    } else {
        literal - 1
    }
}
