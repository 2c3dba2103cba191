//! Tables halved by one variable after the other.

ghost use Rattle.std.specs.Prelude.{◌≡◌, ◌+◌, ◌*◌, ◌<◌, ◌≤◌, ◌^◌, ◌/◌, ◌∷◌, [], length, map, IfOk};
ghost use Rattle.std.specs.Int.{bit_at};
ghost use Rattle.circuits.specs.Circuits.{IsLiteral, AreLiterals};
ghost use Rattle.controller_circuits.specs.Bits.{binary_digits};
ghost use Rattle.controller_circuits.specs.internal.Gates.{gates_tree, variables_so_far, value, Becomes, GivesLiteral};
ghost use Rattle.controller_circuits.specs.internal.Tables.{AreAll, AreChosen, AreTested, AreOfWords};

use crate::gates::Gates;
use base_library::NoMemory;
use std::alloc::Global;

/// A literal for each two neighbours: the second where the test is true.
fn halved(
    alloc: Global,
    gates: &mut Gates,
    test: u32,
    literals: &[u32],
) -> Result<Vec<u32>, NoMemory>
    requires test { IsLiteral (variables_so_far (gates_tree gates.old)) test }
    requires literals { AreLiterals (variables_so_far (gates_tree gates.old)) literals.now }
    requires few { variables_so_far (gates_tree gates.old) + 3 * length literals.now < 2 ^ 31 }
    ensures chosen { IfOk result (λ made. AreChosen (gates_tree gates.old) (gates_tree gates.new) test literals.now made.items) }
    ensures count { IfOk result (λ made. length made.items ≡ length literals.now / 2) }
{
    let mut made = Vec::new(alloc);
    for place in 0..literals.len() / 2 {
        let low = literals[2 * place];
        let high = literals[2 * place + 1];
        made.push(gates.chosen(test, high, low)?)?;
    }
    Ok(made)
}

/// The literal of a table of literals, whose places are numbers with the truths of the first variables as digits.
fn literal_of_table(alloc: Global, gates: &mut Gates, table: Vec<u32>) -> Result<u32, NoMemory>
    requires count { length table.items ≡ 2 ^ gates.old.before }
    requires literals { AreLiterals (variables_so_far (gates_tree gates.old)) table.items }
    requires few { variables_so_far (gates_tree gates.old) + 3 * 2 ^ gates.old.before < 2 ^ 31 }
    ensures tested { IfOk result (λ literal.
        AreTested (gates_tree gates.old) (gates_tree gates.new) table.items gates.old.before (literal ∷ [])) }
{
    let mut literals = table;
    for level in 0..gates.before {
        literals = halved(alloc, gates, 2 * (level + 1), &literals)?;
    }
    Ok(literals[0])
}

/// A bit of each word.
fn bits_of(alloc: Global, words: &[u64], bit: u32) -> Result<Vec<u32>, NoMemory>
    requires bit { bit < 64 }
    ensures { IfOk result (λ bits. bits.items ≡ map (λ w. bit_at w bit) words.now) }
{
    let mut bits = Vec::new(alloc);
    for word in words {
        bits.push((*word >> bit & 1) as u32)?;
    }
    Ok(bits)
}

/// The literals of so many bits of words from one on, where a word's place is a number with the truths of the first
/// variables as digits.
pub(crate) fn literals_of_words(
    alloc: Global,
    gates: &mut Gates,
    words: &[u64],
    first: u32,
    count: u32,
) -> Result<Vec<u32>, NoMemory>
    requires places { length words.now ≡ 2 ^ gates.old.before }
    requires bits { first + count ≤ 64 }
    requires few { variables_so_far (gates_tree gates.old) + count * (3 * 2 ^ gates.old.before) < 2 ^ 31 }
    ensures { IfOk result (λ made.
        AreOfWords (gates_tree gates.old) (gates_tree gates.new) words.now first count made.items) }
{
    let mut literals = Vec::new(alloc);
    for bit in first..first + count {
        let table = bits_of(alloc, words, bit)?;
        literals.push(literal_of_table(alloc, gates, table)?)?;
    }
    Ok(literals)
}
