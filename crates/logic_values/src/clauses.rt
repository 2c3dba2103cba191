//! Literals, clauses and formulas from numbers.

ghost use Rattle.std.specs.Prelude.{◌≡◌, length, IfOk};

use clause_core::{Clause, ClauseList, Cnf, Literal, clause_of};
use std::alloc::Global;
use std::test::Fail;

/// The literal of a number.
pub fn literal(number: i32) -> Result<Literal, Fail> {
    Ok(Literal::new(number).ok_or("no literal")?)
}

/// The clause of these numbers.
pub fn clause(alloc: Global, numbers: &[i32]) -> Result<Clause, Fail> {
    let mut literals = Vec::new(alloc);
    for number in numbers {
        literals.push(literal(*number)?)?;
    }
    Ok(clause_of(alloc, literals.as_slice())?)
}

/// The clauses of these numbers.
fn clauses_of(alloc: Global, lists: &[&[i32]]) -> Result<Vec<Clause>, Fail>
    ensures { IfOk result (λ clauses. length clauses.items ≡ length lists.now) }
{
    let mut clauses = Vec::new(alloc);
    for numbers in lists {
        clauses.push(clause(alloc, numbers)?)?;
    }
    Ok(clauses)
}

/// The formula of these clauses over the variables from 1 to a number.
pub fn formula(alloc: Global, variables: u32, clauses: &[Clause]) -> Result<Cnf, Fail>
    ensures variables { IfOk result (λ cnf. cnf.variables ≡ variables) }
    ensures clauses { IfOk result (λ cnf. length cnf.clauses ≡ length clauses.now) }
{
    if variables > 1000 {
        return Err("too many variables".into());
    }
    let mut list = ClauseList::new(alloc);
    for clause in clauses {
        if !clause.is_over(variables) {
            return Err("too large a variable".into());
        }
        list.push(alloc, clause.literals())?;
    }
    Ok(Cnf {
        variables,
        clauses: list,
    })
}

/// The formula of the clauses of these numbers.
pub fn formula_of(alloc: Global, variables: u32, lists: &[&[i32]]) -> Result<Cnf, Fail>
    ensures variables { IfOk result (λ cnf. cnf.variables ≡ variables) }
    ensures clauses { IfOk result (λ cnf. length cnf.clauses ≡ length lists.now) }
{
    let clauses = clauses_of(alloc, lists)?;
    formula(alloc, variables, clauses.as_slice())
}
