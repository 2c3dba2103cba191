//! Clauses over the variables of a range of indices.

ghost use Rattle.std.specs.Prelude.{◌≡◌, ◌<◌, ◌+◌, ◌^◌, ◌∷◌, [], OnOk, OnErr};
ghost use Rattle.bounded_encoding.specs.SimpleClauses.{yes_at, no_at, some_one, no_two_with, no_two, exactly_one, falling};
ghost use Rattle.bounded_encoding.specs.Made.{with_clauses};
ghost use Rattle.bounded_encoding.specs.Begun.{IsBegun};
ghost use Rattle.bounded_encoding.specs.Refusing.{Refuses};

use crate::builder::Builder;
use crate::errors::EncodeError;
use clause_core::Literal;
use std::alloc::Global;

/// The literal of the variable with this index.
pub(crate) fn literal(index: u32, positive: bool) -> Literal
    requires { index + 1 < 2 ^ 31 }
    ensures { result ≡ record { index = index; positive = positive } }
{
    Literal::of_variable(index + 1, positive)
}

/// Adds that some variable of those from `base + from` to below `base + to` is true.
fn add_some(
    alloc: Global,
    out: &mut Builder,
    base: u32,
    from: u32,
    to: u32,
) -> Result<(), EncodeError>
    requires { base + to < 2 ^ 31 }
    ensures added { OnOk result (out.new ≡ with_clauses out.old (some_one (λ x. base + x) from to)) }
    ensures refused { Refuses result (with_clauses out.old (some_one (λ x. base + x) from to)) }
    ensures unchanged { OnErr result (out.new ≡ out.old) }
{
    let mut literals = Vec::new(alloc);
    for x in from..to {
        literals.push(literal(base + x, true))?;
    }
    out.add(alloc, literals.as_slice())
}

/// Adds that the variables with two indices are not both true.
fn add_not_both(alloc: Global, out: &mut Builder, a: u32, b: u32) -> Result<(), EncodeError>
    requires first { a + 1 < 2 ^ 31 }
    requires second { b + 1 < 2 ^ 31 }
    ensures added { OnOk result (out.new ≡ with_clauses out.old ((no_at a ∷ no_at b ∷ []) ∷ [])) }
    ensures refused { Refuses result (with_clauses out.old ((no_at a ∷ no_at b ∷ []) ∷ [])) }
    ensures unchanged { OnErr result (out.new ≡ out.old) }
{
    out.add(alloc, &[literal(a, false), literal(b, false)])
}

/// Adds for each later variable that it and this one are not both true.
fn add_not_with(
    alloc: Global,
    out: &mut Builder,
    base: u32,
    x: u32,
    to: u32,
) -> Result<(), EncodeError>
    requires below { base + to < 2 ^ 31 }
    requires inside { x < to }
    ensures added { OnOk result (out.new ≡ with_clauses out.old (no_two_with (λ x. base + x) x to)) }
    ensures refused { Refuses result (with_clauses out.old (no_two_with (λ x. base + x) x to)) }
    ensures begun { OnErr result (IsBegun out.old (no_two_with (λ x. base + x) x to) out.new) }
{
    for y in x + 1..to {
        add_not_both(alloc, out, base + x, base + y)?;
    }
    Ok(())
}

/// Adds that no two of the variables are true.
fn add_no_two(
    alloc: Global,
    out: &mut Builder,
    base: u32,
    from: u32,
    to: u32,
) -> Result<(), EncodeError>
    requires { base + to < 2 ^ 31 }
    ensures added { OnOk result (out.new ≡ with_clauses out.old (no_two (λ x. base + x) from to)) }
    ensures refused { Refuses result (with_clauses out.old (no_two (λ x. base + x) from to)) }
    ensures begun { OnErr result (IsBegun out.old (no_two (λ x. base + x) from to) out.new) }
{
    for x in from..to {
        add_not_with(alloc, out, base, x, to)?;
    }
    Ok(())
}

/// Adds that exactly one of the variables is true.
#[tactic(auto, using(crate::proofs::Adding::adding))]
pub(crate) fn add_exactly_one(
    alloc: Global,
    out: &mut Builder,
    base: u32,
    from: u32,
    to: u32,
) -> Result<(), EncodeError>
    requires { base + to < 2 ^ 31 }
    ensures added { OnOk result (out.new ≡ with_clauses out.old (exactly_one (λ x. base + x) from to)) }
    ensures refused { Refuses result (with_clauses out.old (exactly_one (λ x. base + x) from to)) }
    ensures begun { OnErr result (IsBegun out.old (exactly_one (λ x. base + x) from to) out.new) }
{
    add_some(alloc, out, base, from, to)?;
    add_no_two(alloc, out, base, from, to)
}

/// Adds that one variable implies another.
fn add_implies(alloc: Global, out: &mut Builder, a: u32, b: u32) -> Result<(), EncodeError>
    requires first { a + 1 < 2 ^ 31 }
    requires second { b + 1 < 2 ^ 31 }
    ensures added { OnOk result (out.new ≡ with_clauses out.old ((no_at a ∷ yes_at b ∷ []) ∷ [])) }
    ensures refused { Refuses result (with_clauses out.old ((no_at a ∷ yes_at b ∷ []) ∷ [])) }
    ensures unchanged { OnErr result (out.new ≡ out.old) }
{
    out.add(alloc, &[literal(a, false), literal(b, true)])
}

/// Adds that the number of a pair is at least each number below one that it is at least.
pub(crate) fn add_falling(
    alloc: Global,
    out: &mut Builder,
    base: u32,
    bound: u32,
) -> Result<(), EncodeError>
    requires { base + bound + 1 < 2 ^ 31 }
    ensures added { OnOk result (out.new ≡ with_clauses out.old (falling (λ i. base + i) bound)) }
    ensures refused { Refuses result (with_clauses out.old (falling (λ i. base + i) bound)) }
    ensures begun { OnErr result (IsBegun out.old (falling (λ i. base + i) bound) out.new) }
{
    for i in 1..bound + 1 {
        add_implies(alloc, out, base + i, base + (i - 1))?;
    }
    Ok(())
}

/// Adds that a variable is true.
pub(crate) fn add_true(alloc: Global, out: &mut Builder, a: u32) -> Result<(), EncodeError>
    requires { a + 1 < 2 ^ 31 }
    ensures added { OnOk result (out.new ≡ with_clauses out.old ((yes_at a ∷ []) ∷ [])) }
    ensures refused { Refuses result (with_clauses out.old ((yes_at a ∷ []) ∷ [])) }
    ensures unchanged { OnErr result (out.new ≡ out.old) }
{
    out.add(alloc, &[literal(a, true)])
}
