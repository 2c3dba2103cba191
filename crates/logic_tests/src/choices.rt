//! How many choices sets of formulas have.

use ltl_formula::{Ltl, LtlList};
use obligations::{Set, StepError, step};
use std::alloc::Global;
use std::test::Fail;

/// The conjunction of so many formulas, each of which has two choices that differ in one bit.
fn either_bits(alloc: Global, count: u32) -> Result<Ltl, Fail> {
    let mut members = Vec::new(alloc);
    for bit in 0..count {
        let mut sides = Vec::new(alloc);
        sides.push(Ltl::Bit(bit))?;
        sides.push(Ltl::NotBit(bit))?;
        members.push(Ltl::Any(LtlList::from_vec(alloc, sides)?))?;
    }
    Ok(Ltl::All(LtlList::from_vec(alloc, members)?))
}

/// How many choices a formula has, or none where a list has too many.
fn count_of(alloc: Global, formula: &Ltl) -> Result<Option<usize>, Fail> {
    let set = Set::one(alloc, formula)?;
    match step(alloc, &set) {
        Ok(choices) => Ok(Some(choices.len())),
        Err(StepError::Choices) => Ok(None),
        Err(StepError::NoMemory) => Err("memory ran out".into()),
    }
}

/// How many bits there are.
const COUNTS: &[u32] = &[0, 1, 2, 15, 16];

#[test]
fn each_bit_doubles_the_choices(rt: HostRuntime) -> Result<(), Fail> {
    for &count in COUNTS {
        let formula = either_bits(rt.alloc(), count)?;
        assert_eq!(rt; count_of(rt.alloc(), &formula)?, Some(1 << count));
    }
    Ok(())
}
