//! The letter form of a formula and that of its negation.

use base_library::NoMemory;
use logic_values::{always, either, finally, space_of_spec};
use ltl_formula::{Ltl, negate};
use spec_values::spec_of;
use std::alloc::Global;
use std::test::Fail;
use tsl_terms::{Formula, whole};
use underapprox::to_letters;

/// Two updates that are wanted again and again, whose bits are 0 and 1.
const TWO_WANTED: &[u8] = b"always guarantee { F [g <- a()]; F [g <- b()]; }";

/// At some position, and from then on at every one, a bit is not set.
fn stays_away(alloc: Global, bit: u32) -> Result<Ltl, NoMemory> {
    finally(alloc, always(alloc, Ltl::NotBit(bit))?)
}

#[test]
fn the_dual_of_the_form_is_the_form_of_the_negation(rt: HostRuntime) -> Result<(), Fail> {
    let alloc = rt.alloc();
    let spec = spec_of(alloc, TWO_WANTED)?;
    let space = space_of_spec(alloc, &spec)?;
    let formula = whole(alloc, &spec)?;
    let dual = negate(alloc, &to_letters(alloc, &formula, &space)?)?;
    let negation = Formula::Not(Box::new(alloc, formula)?);
    let form = to_letters(alloc, &negation, &space)?;
    assert!(rt; dual == form);
    assert!(rt; form == either(alloc, stays_away(alloc, 0)?, stays_away(alloc, 1)?)?);
    Ok(())
}
