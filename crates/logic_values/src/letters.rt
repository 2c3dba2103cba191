//! Formulas over bits.

use base_library::NoMemory;
use ltl_formula::{Ltl, LtlList};
use std::alloc::Global;

/// The formula holds at the next position.
pub fn next(alloc: Global, formula: Ltl) -> Result<Ltl, NoMemory> {
    Ok(Ltl::Next(Box::new(alloc, formula)?))
}

/// The formula holds at each position.
pub fn always(alloc: Global, formula: Ltl) -> Result<Ltl, NoMemory> {
    let never = Box::new(alloc, Ltl::False)?;
    Ok(Ltl::Release(never, Box::new(alloc, formula)?))
}

/// The formula holds at some position.
pub fn finally(alloc: Global, formula: Ltl) -> Result<Ltl, NoMemory> {
    let before = Box::new(alloc, Ltl::True)?;
    Ok(Ltl::Until(before, Box::new(alloc, formula)?))
}

/// One of two formulas holds.
pub fn either(alloc: Global, left: Ltl, right: Ltl) -> Result<Ltl, NoMemory> {
    Ok(Ltl::Any(two(alloc, left, right)?))
}

/// Two formulas.
fn two(alloc: Global, left: Ltl, right: Ltl) -> Result<LtlList, NoMemory> {
    let last = LtlList::More(Box::new(alloc, right)?, Box::new(alloc, LtlList::Empty)?);
    Ok(LtlList::More(Box::new(alloc, left)?, Box::new(alloc, last)?))
}
