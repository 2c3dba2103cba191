//! The literals of the clauses of edges.

ghost use Rattle.std.specs.Prelude.{◌≡◌, ◌<◌, ◌≤◌, ◌+◌, ◌^◌, ◌++◌, ◌∷◌, [], cond, nat_le, length, take, map, List, All, IfOk, OnOk};
ghost use Rattle.clause_core.specs.Literals.{Lit};
ghost use Rattle.ltl_formula.specs.Cubes.{has_bit};
ghost use Rattle.cobuchi_automata.specs.Edges.{edge_tree};
ghost use Rattle.annotation_check.specs.Annotations.{after_edge};
ghost use Rattle.bounded_encoding.specs.SimpleClauses.{yes_at, no_at};
ghost use Rattle.bounded_encoding.specs.Sides.{differing};
ghost use Rattle.bounded_encoding.specs.internal.Transitions.{moved, IsAround, IsRoom};

use crate::simple_clauses::literal;
use base_library::NoMemory;
use clause_core::Literal;
use cobuchi_automata::Edge;
use std::alloc::Global;

/// A state of the machine, an edge, and a row that meets it, with the index of the first variable of what the machine
/// does in that state and row.
#[derive(Clone, Copy)]
pub(crate) struct Transition {
    /// The state.
    pub(crate) state: u32,
    /// The edge.
    pub(crate) edge: Edge,
    /// The row.
    pub(crate) row: u32,
    /// The index of the first own variable.
    pub(crate) base: u32,
}

/// The indices of the first numbers of the pair that a transition leaves and of the one that it reaches.
#[derive(Clone, Copy)]
pub(crate) struct Pairs {
    /// That of the pair that it leaves.
    pub(crate) left: u32,
    /// That of the pair that it reaches.
    pub(crate) reached: u32,
}

/// Whether a number has a bit.
fn has_bit(number: u64, bit: u32) -> bool
    requires { bit < 64 }
    ensures { result ≡ has_bit bit number }
{
    number >> bit & 1 == 1
}

/// Adds a number to a list where a test says so.
pub fn push_number_if(list: &mut Vec<u32>, number: u32, test: bool) -> Result<(), NoMemory>
    ensures { OnOk result (list.new.items ≡ list.old.items ++ cond test (number ∷ []) []) }
{
    if test {
        list.push(number)?;
    }
    Ok(())
}

/// Adds a literal to a list where a test says so.
fn push_literal_if(list: &mut Vec<Literal>, literal: Literal, test: bool) -> Result<(), NoMemory>
    ensures { OnOk result (list.new.items ≡ list.old.items ++ cond test (literal ∷ []) []) }
{
    if test {
        list.push(literal)?;
    }
    Ok(())
}

/// Puts the literals that are true where bits from a first one on are not as an edge asks in place of what a
/// list holds.
pub(crate) fn put_differing(
    literals: &mut Vec<Literal>,
    base: u32,
    first_bit: u32,
    bits: u32,
    edge: Edge,
) -> Result<(), NoMemory>
    requires room { base + bits < 2 ^ 31 }
    requires few { first_bit + bits ≤ 64 }
    ensures { OnOk result (literals.new.items ≡ differing base first_bit bits (edge_tree edge)) }
{
    literals.clear();
    for b in 0..bits {
        let bit = first_bit + b;
        let unwanted = literal(base + b, !has_bit(edge.cube.want, bit));
        push_literal_if(literals, unwanted, has_bit(edge.cube.care, bit))?;
    }
    Ok(())
}

/// What the pair after an edge has at least.
pub(crate) fn after_edge(number: u32, edge: Edge) -> u32
    requires { number + 1 < 2 ^ 31 }
    ensures { result ≡ after_edge number (edge_tree edge) }
{
    number + u32::from(edge.rejecting)
}

/// The literal of the variable that is so many further on.
fn moved(base: u32, asked: Literal) -> Literal
    requires { base + asked.index + 1 < 2 ^ 31 }
    ensures { result ≡ moved base asked }
{
    Literal::of_variable(base + asked.variable(), asked.is_positive())
}

/// Room for the literals of a clause: as many as are asked for, two before them and one behind.
pub(crate) fn room_for(alloc: Global, asked: &[Literal]) -> Result<Vec<Literal>, NoMemory>
    ensures { IfOk result (λ room. length room.items ≡ length asked.now + 3) }
{
    let any = Literal::default();
    let mut literals = Vec::new(alloc);
    literals.push(any)?;
    literals.push(any)?;
    literals.extend_from_slice(asked)?;
    literals.push(any)?;
    Ok(literals)
}

/// Puts what is asked for in place of what stands between the first two literals and the last one, each literal's
/// variable so many further on.
pub(crate) fn put_moved(literals: &mut [Literal], base: u32, asked: &[Literal])
    requires fits { All (λ l. base + l.index + 1 < 2 ^ 31) asked.now }
    requires room { length literals.old ≡ length asked.now + 3 }
    ensures { IsRoom (map (moved base) asked.now) literals.new }
{
    for place in 0..asked.len() {
        literals[place + 2] = moved(base, asked[place]);
    }
}

/// Puts the literal of a next state behind the first one.
pub(crate) fn put_next(literals: &mut [Literal], next: u32)
    requires room { 2 ≤ length literals.old }
    requires next { next + 1 < 2 ^ 31 }
    ensures { (middle : List Lit) → IsRoom middle literals.old → IsAround (no_at next ∷ middle) literals.new }
{
    literals[1] = literal(next, false);
}

/// Puts the literals of two numbers in place of the first and of the last one, and tells how many are of the clause:
/// where the later number is above the bound, the last one is not.
pub(crate) fn put_numbers(
    literals: &mut [Literal],
    pairs: Pairs,
    number: u32,
    later: u32,
    bound: u32,
) -> usize
    requires ends { 2 ≤ length literals.old }
    requires left { pairs.left + number + 1 < 2 ^ 31 }
    requires reached { pairs.reached + bound + 1 < 2 ^ 31 }
    ensures put { (middle : List Lit) → IsAround middle literals.old →
        take result literals.new ≡ no_at (pairs.left + number) ∷ (middle ++ cond (nat_le later bound) (yes_at (pairs.reached + later) ∷ []) []) }
    ensures around { (middle : List Lit) → IsAround middle literals.old → IsAround middle literals.new }
    ensures inside { result ≤ length literals.new }
{
    let last = literals.len() - 1;
    literals[0] = literal(pairs.left + number, false);
    if later > bound {
        return last;
    }
    literals[last] = literal(pairs.reached + later, true);
    last + 1
}
