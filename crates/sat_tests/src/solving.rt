//! What the solver answers: assignments and logs.

ghost use Rattle.std.specs.Prelude.{◌↔◌, IfOk, IsTrue};
ghost use Rattle.clause_core.specs.Clauses.{IsOver};
ghost use Rattle.sat_core.specs.Answers.{IsRightAnswer};

use clause_core::{Assignment, Cnf, Literal, clause_of};
use logic_values::{clause, formula, formula_of};
use refutation_check::check;
use sat_core::{Answer, solve};
use std::alloc::Global;
use std::test::Fail;

/// The clauses 1 2, 1 -2, -1 2 and -1 -2.
const SQUARE: &[&[i32]] = &[&[1, 2], &[1, -2], &[-1, 2], &[-1, -2]];

/// The solver's answer, where the formula and the budget are small and no clause is a tautology.
fn answer(alloc: Global, cnf: &Cnf, budget: u64) -> Result<Answer, Fail>
    ensures { IfOk result (IsRightAnswer cnf.now.variables cnf.now.clauses budget) }
{
    if cnf.clauses.len() > 1000 || budget == 0 || budget > 1000 {
        return Err("too large".into());
    }
    if let Some(_) = cnf.clauses.first_tautology() {
        return Err("a tautology".into());
    }
    Ok(solve(alloc, cnf, budget)?)
}

/// Whether the assignment has a truth for each variable and meets each clause.
fn is_met(assignment: &Assignment, cnf: &Cnf) -> bool {
    if assignment.truths.len() as u64 != u64::from(cnf.variables) {
        return false;
    }
    for place in 0..cnf.clauses.len() {
        let literals = cnf.clauses.get(place);
        if !are_over(literals, cnf.variables) || !assignment.meets(literals) {
            return false;
        }
    }
    true
}

/// Whether the variables of these literals are at most this one.
fn are_over(literals: &[Literal], variables: u32) -> bool
    ensures { IsTrue result ↔ IsOver variables literals.now }
{
    literals
        .iter()
        .all(|literal| literal.variable() <= variables)
}

/// The clauses of `SQUARE` whose places are the binary digits 1 of a number.
fn square(alloc: Global, wanted: u32) -> Result<Cnf, Fail> {
    let mut kept = Vec::new(alloc);
    let mut digits = wanted;
    for numbers in SQUARE {
        if digits % 2 == 1 {
            kept.push(clause(alloc, numbers)?)?;
        }
        digits /= 2;
    }
    formula(alloc, 2, kept.as_slice())
}

/// The literal of a variable, if the variable is not too large.
fn literal(variable: u32, is_positive: bool) -> Result<Literal, Fail> {
    if variable == 0 || variable > 1000 {
        return Err("too many variables".into());
    }
    Ok(Literal::of_variable(variable, is_positive))
}

/// The literal that a pigeon is in a hole, or that it is not.
fn place(pigeon: u32, hole: u32, holes: u32, is_in: bool) -> Result<Literal, Fail> {
    let variable = pigeon
        .wrapping_mul(holes)
        .wrapping_add(hole)
        .wrapping_add(1);
    literal(variable, is_in)
}

/// One pigeon more than there are holes: each is in a hole, and no two are in one.
fn pigeons(alloc: Global, holes: u32) -> Result<Cnf, Fail> {
    let mut clauses = Vec::new(alloc);
    for pigeon in 0..=holes {
        let mut places = Vec::new(alloc);
        for hole in 0..holes {
            places.push(place(pigeon, hole, holes, true)?)?;
        }
        clauses.push(clause_of(alloc, places.as_slice())?)?;
    }
    for hole in 0..holes {
        for second in 0..=holes {
            for first in 0..second {
                let pair = [
                    place(first, hole, holes, false)?,
                    place(second, hole, holes, false)?,
                ];
                clauses.push(clause_of(alloc, &pair)?)?;
            }
        }
    }
    let variables = holes.wrapping_mul(holes).wrapping_add(holes);
    formula(alloc, variables, clauses.as_slice())
}

/// Whether the answer is a log that is accepted.
fn has_accepted_log(alloc: Global, cnf: &Cnf) -> Result<bool, Fail> {
    match answer(alloc, cnf, 1000)? {
        Answer::Unsat(log) => Ok(check(alloc, cnf, &log).is_ok()),
        _ => Ok(false),
    }
}

#[test]
fn the_sets_of_four_clauses_but_for_the_whole_are_satisfiable(rt: HostRuntime) -> Result<(), Fail> {
    let alloc = rt.alloc();
    for wanted in 0..16 {
        let cnf = square(alloc, wanted)?;
        match answer(alloc, &cnf, 10)? {
            Answer::Sat(assignment) => {
                assert!(rt; wanted < 15);
                assert!(rt; is_met(&assignment, &cnf));
            }
            Answer::Unsat(_) => assert_eq!(rt; wanted, 15),
            Answer::Spent(_) => assert!(rt; false),
        }
    }
    Ok(())
}

#[test]
fn a_clause_that_refutes_by_propagation_ends_a_budget_of_one(rt: HostRuntime) -> Result<(), Fail> {
    let alloc = rt.alloc();
    let cnf = formula_of(alloc, 2, SQUARE)?;
    assert!(rt; matches!(answer(alloc, &cnf, 1)?, Answer::Unsat(_)));
    Ok(())
}

#[test]
fn the_log_of_a_refutation_is_accepted(rt: HostRuntime) -> Result<(), Fail> {
    let alloc = rt.alloc();
    assert!(rt; has_accepted_log(alloc, &formula_of(alloc, 2, SQUARE)?)?);
    // clauses are left out in the last of these
    for holes in 1..=6 {
        assert!(rt; has_accepted_log(alloc, &pigeons(alloc, holes)?)?);
    }
    Ok(())
}
