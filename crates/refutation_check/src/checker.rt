//! The check of a log against a formula.

ghost use Rattle.std.specs.Prelude.{◌≡◌, ℕ, ◌+◌, ◌<◌, ◌≤◌, ◌^◌, [], Some, None, Ok, Err, IfOk, IfSome, OnOk, length, map, option_copied, nat_le, All, AllPairs, Any};
ghost use Rattle.std.specs.List.{list_any, AllWithin};
ghost use Rattle.clause_core.specs.Literals.{Lit};
ghost use Rattle.clause_core.specs.Clauses.{IsOver, AreUnsatisfiable};
ghost use Rattle.refutation_check.specs.Checking.{log_refusal, step_refusal, is_no_step, refused_hint, clause_named, numbered_from, effect_of_named, is_empty_clause, at_line, at_hint, unfinished, HaveFewHints};
ghost use Rattle.refutation_check.specs.internal.Marks.{effect_of};
ghost use Rattle.refutation_check.specs.internal.Accepted.{numbered, known_after, AreAccepted};

use crate::marks::{Look, Marks};
use crate::steps::{Log, Step};
use base_library::NoMemory;
use clause_core::{Clause, Cnf, Literal, is_tautology};
use std::alloc::Global;
use thiserror::Error;

/// Why a log is refused.
#[derive(Debug, Drop, Error)]
pub enum LogError {
    /// The step of this number may not be tried: the number is not above the number of clauses and all
    /// step numbers before, a variable is above the formula's, or the clause has a literal and its negation.
    #[error("step {0} has a number or a clause that cannot stand")]
    Line(u64),
    /// Of the step of this number, the hint at this position, counted from 1, is the first that is refused: it
    /// names no clause before it, or one that is neither false nor has one unassigned literal and all others
    /// false. Where the hints end without a false clause, the position is one past the last.
    #[error("step {0}: hint {1} shows nothing")]
    Hint(u64, u32),
    /// No step is refused, and none has the empty clause.
    #[error("no step has the empty clause")]
    Unfinished,
    /// Memory ran out.
    #[error("out of memory")]
    NoMemory,
}

impl From<NoMemory> for LogError {
    ghost use Rattle.std.specs.Prelude.{◌≡◌};
    ghost use Rattle.refutation_check.specs.declared.checker.LogError.TheVariants.{NoMemory as Exhausted};

    ghost from_gives = { λ _ e. e ≡ Exhausted };

    fn from(_error: NoMemory) -> LogError {
        LogError::NoMemory
    }
}

/// Whether the log refutes the formula: no step is refused, and one has the empty clause. Then no assignment
/// meets all clauses. The formula's clauses have the numbers from 1 on. Of each step the literals are made
/// false, and the clauses that its hints name are looked at in order, until one is false; one that has a single
/// unassigned literal and all others false makes it true. An `Err` names the first step that is refused.
pub fn check(alloc: Global, cnf: &Cnf, log: &Log) -> Result<(), LogError>
    requires few_hints { HaveFewHints log.now.steps }
    ensures accepted { OnOk result (log_refusal cnf.now.variables cnf.now.clauses log.now.steps ≡ None) }
    ensures unsatisfiable { OnOk result (AreUnsatisfiable cnf.now.clauses) }
    ensures line { (number : ℕ) → result ≡ Err (LogError.Line number) →
        log_refusal cnf.now.variables cnf.now.clauses log.now.steps ≡ Some (at_line number) }
    ensures hint { (number position : ℕ) → result ≡ Err (LogError.Hint number position) →
        log_refusal cnf.now.variables cnf.now.clauses log.now.steps ≡ Some (at_hint number position) }
    ensures unfinished { result ≡ Err LogError.Unfinished →
        log_refusal cnf.now.variables cnf.now.clauses log.now.steps ≡ Some unfinished }
{
    let steps = log.steps.as_slice();
    let mut marks = Marks::new(alloc, cnf.variables)?;
    let mut largest = cnf.clauses.len() as u64;
    for place in 0..steps.len() {
        let step = &steps[place];
        check_step(&mut marks, cnf, &steps[..place], largest, step)?;
        largest = step.number;
    }
    if has_empty_clause(steps) {
        Ok(())
    } else {
        Err(LogError::Unfinished)
    }
}

/// Whether the step may come after the accepted ones, the largest of whose numbers is given.
fn check_step(
    marks: &mut Marks,
    cnf: &Cnf,
    accepted: &[Step],
    largest: u64,
    step: &Step,
) -> Result<(), LogError>
    requires few_hints { length step.now.hints + 1 < 2 ^ 32 }
    requires accepted { AreAccepted cnf.now.variables (length cnf.now.clauses) accepted.now }
    requires unmarked { marks.old ≡ record { variables = cnf.now.variables; literals = [] } }
    ensures unmarked { OnOk result (marks.new ≡ record { variables = cnf.now.variables; literals = [] }) }
    ensures accepted { OnOk result (step_refusal cnf.now.variables largest (known_after cnf.now.clauses accepted.now) step.now ≡ None) }
    ensures line { (number : ℕ) → result ≡ Err (LogError.Line number) →
        step_refusal cnf.now.variables largest (known_after cnf.now.clauses accepted.now) step.now ≡ Some (at_line number) }
    ensures hint { (number position : ℕ) → result ≡ Err (LogError.Hint number position) →
        step_refusal cnf.now.variables largest (known_after cnf.now.clauses accepted.now) step.now ≡ Some (at_hint number position) }
    ensures finished { result ≡ Err LogError.Unfinished → ⊥ }
{
    if is_no_step(cnf.variables, largest, step) {
        return Err(LogError::Line(step.number));
    }
    marks.falsify(&step.clause)?;
    let refused = refused_hint(marks, cnf, accepted, step.hints.as_slice())?;
    marks.clear();
    match refused {
        None => Ok(()),
        Some(position) => Err(LogError::Hint(step.number, position)),
    }
}

/// Whether the step may not be tried.
fn is_no_step(variables: u32, largest: u64, step: &Step) -> bool
    ensures { result ≡ is_no_step variables largest step.now }
{
    step.number <= largest
        || has_large_variable(variables, &step.clause)
        || is_tautology(&step.clause)
}

/// Whether a variable of the clause is above the number of variables.
fn has_large_variable(variables: u32, clause: &Clause) -> bool
    ensures { result ≡ list_any (λ l. nat_le variables l.index) clause.now }
{
    clause
        .literals()
        .iter()
        .any(|literal| is_large(variables, *literal))
}

/// Whether the literal's variable is above the number of variables.
fn is_large(variables: u32, literal: Literal) -> bool
    ensures { result ≡ nat_le variables literal.index }
{
    variables as usize <= literal.index()
}

/// Whether a step has the empty clause.
fn has_empty_clause(steps: &[Step]) -> bool
    ensures { result ≡ list_any (λ step. is_empty_clause step.clause) steps.now }
{
    steps.iter().any(|step| is_empty(&step.clause))
}

/// Whether the clause has no literal.
fn is_empty(clause: &Clause) -> bool
    ensures { result ≡ is_empty_clause clause.now }
{
    clause.literals().is_empty()
}

/// The position, from 1, of the hint that is refused.
fn refused_hint(
    marks: &mut Marks,
    cnf: &Cnf,
    accepted: &[Step],
    hints: &[u64],
) -> Result<Option<u32>, NoMemory>
    requires few { length hints.now + 1 < 2 ^ 32 }
    requires accepted { AreAccepted cnf.now.variables (length cnf.now.clauses) accepted.now }
    requires variables { marks.old.variables ≡ cnf.now.variables }
    ensures ok { IfOk result (λ refused. refused ≡ refused_hint (known_after cnf.now.clauses accepted.now) marks.old.literals 1 hints.now) }
    ensures variables { marks.new.variables ≡ cnf.now.variables }
{
    let mut position = 1;
    for hint in hints {
        match look_at_hint(marks, cnf, accepted, *hint) {
            Look::Ends => return Ok(None),
            Look::Makes(literal) => marks.make(literal)?,
            Look::ShowsNothing => return Ok(Some(position)),
        }
        position += 1;
    }
    Ok(Some(position))
}

/// What the clause does that the hint names.
fn look_at_hint(marks: &Marks, cnf: &Cnf, accepted: &[Step], hint: u64) -> Look
    requires accepted { AreAccepted cnf.now.variables (length cnf.now.clauses) accepted.now }
    requires variables { marks.now.variables ≡ cnf.now.variables }
    ensures value { effect_of result ≡ effect_of_named marks.now.literals (clause_named (known_after cnf.now.clauses accepted.now) hint) }
    ensures over { (l : Lit) → result ≡ Look.Makes l → l.index < marks.now.variables }
{
    match clause_named(cnf, accepted, hint) {
        Some(clause) => marks.look_at(clause),
        None => Look::ShowsNothing,
    }
}

/// The clause of a number.
fn clause_named<'a>(cnf: &'a Cnf, accepted: &'a [Step], number: u64) -> Option<&'a [Literal]>
    requires { AreAccepted cnf.now.variables (length cnf.now.clauses) accepted.now }
    ensures value { option_copied result ≡ clause_named (known_after cnf.now.clauses accepted.now) number }
    ensures over { IfSome result (λ clause. IsOver cnf.now.variables clause.now) }
{
    if number <= cnf.clauses.len() as u64 {
        clause_of_formula(cnf, number)
    } else {
        clause_of_step(accepted, number)
    }
}

/// The clause of the formula that has this number, from 1.
fn clause_of_formula(cnf: &Cnf, number: u64) -> Option<&[Literal]>
    requires { number ≤ length cnf.now.clauses }
    ensures value { option_copied result ≡ clause_named (numbered_from 1 cnf.now.clauses) number }
    ensures over { IfSome result (λ clause. IsOver cnf.now.variables clause.now) }
{
    if number == 0 {
        None
    } else {
        Some(cnf.clauses.get(number as usize - 1))
    }
}

/// The clause of the step that has this number.
fn clause_of_step(accepted: &[Step], number: u64) -> Option<&[Literal]>
    requires { AllPairs (λ earlier later. earlier.number < later.number) accepted.now }
    ensures value { option_copied result ≡ clause_named (map numbered accepted.now) number }
    ensures member { IfSome result (λ clause. Any (λ step. step.clause ≡ clause.now) accepted.now) }
{
    let place = first_from(accepted, number);
    if place < accepted.len() && accepted[place].number == number {
        Some(accepted[place].clause.literals())
    } else {
        None
    }
}

/// The place of the first step whose number is at least this one; how many steps there are, where none is.
fn first_from(accepted: &[Step], number: u64) -> usize
    requires { AllPairs (λ earlier later. earlier.number < later.number) accepted.now }
    ensures bound { result ≤ length accepted.now }
    ensures below { AllWithin (λ step. step.number < number) accepted.now 0 result }
    ensures above { AllWithin (λ step. number ≤ step.number) accepted.now result (length accepted.now) }
{
    let mut low = 0;
    let mut high = accepted.len();
    while low < high {
        let middle = low + (high - low) / 2;
        if accepted[middle].number < number {
            low = middle + 1;
        } else {
            high = middle;
        }
    }
    low
}
