//! Long lists of terms and formulas, which take no stack.

use base_library::NoMemory;
use std::alloc::Global;
use std::test::Fail;
use tsl_terms::{
    Formula, FormulaList, Term, TermList, copy_formula, copy_term, node_count, same_term,
};

const MANY: u32 = 500_000;

fn many_signals(alloc: Global) -> Result<TermList, NoMemory> {
    let mut terms = Vec::new(alloc);
    for _ in 0..MANY {
        terms.push(Term::Signal(1))?;
    }
    TermList::from_vec(alloc, terms)
}

fn many_truths(alloc: Global) -> Result<FormulaList, NoMemory> {
    let mut formulas = Vec::new(alloc);
    for _ in 0..MANY {
        formulas.push(Formula::True)?;
    }
    FormulaList::from_vec(alloc, formulas)
}

#[test]
fn half_a_million_terms_are_built_copied_compared_and_dropped(rt: HostRuntime) -> Result<(), Fail> {
    let alloc = rt.alloc();
    let term = Term::Apply(0, many_signals(alloc)?);
    let copy = copy_term(alloc, &term)?;
    assert!(rt; same_term(&term, &copy));
    assert!(rt; !same_term(&term, &Term::Signal(1)));
    let update = Formula::Update(2, copy);
    assert_eq!(rt; node_count(&update), 500_002);
    Ok(())
}

#[test]
fn half_a_million_formulas_are_built_copied_counted_and_dropped(
    rt: HostRuntime,
) -> Result<(), Fail> {
    let alloc = rt.alloc();
    let formula = Formula::All(many_truths(alloc)?);
    let copy = copy_formula(alloc, &formula)?;
    assert_eq!(rt; node_count(&copy), 500_001);
    Ok(())
}
