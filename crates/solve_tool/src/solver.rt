//! The solver's answer to a text.

ghost use Rattle.std.specs.Prelude.{◌≡◌, ◌<◌, ◌≤◌, ◌^◌, ◌++◌, ◌∷◌, ℕ, List, length, IfOk, OnOk};
ghost use Rattle.clause_core.specs.Literals.{Lit};
ghost use Rattle.clause_core.specs.Clauses.{IsIncreasing};
ghost use Rattle.cnf_reader.specs.CnfText.{cnf_answer};
ghost use Rattle.cnf_reader.specs.Pieces.{HasRead};
ghost use Rattle.sat_core.specs.Answers.{AreRefuting};
ghost use Rattle.refutation_check.specs.declared.limits.TheConstants.{MOST_VARIABLES, MOST_CLAUSES};
ghost use Rattle.refutation_text.specs.Parted.{SpellsRefutation};
ghost use Rattle.solve_tool.specs.Outcome.{proper_clauses, IsRightReply, IsReplyOn};
ghost use Rattle.solve_tool.specs.internal.Solutions.{IsSatisfiableReply, IsUnsatisfiableReply, IsUnknownReply};

use crate::refusal::Refusal;
use crate::request::Request;
use crate::values::satisfiable_text;
use base_library::NoMemory;
use clause_core::{ClauseList, Cnf, Literal, have_pair};
use cnf_reader::{CnfError, CnfReader};
use refutation_check::{Log, MOST_CLAUSES, MOST_VARIABLES};
use refutation_text::put_refutation;
use sat_core::{Answer, solve};
use std::alloc::Global;
use tool_io::{Reply, Status};

/// What is replied to the text that was read.
pub(crate) fn reply_to_read(
    alloc: Global,
    request: Request,
    reader: CnfReader,
) -> Result<Reply, NoMemory>
    requires read { (text : List ℕ) × HasRead reader text }
    requires some { 1 ≤ request.budget }
    requires few { request.budget ≤ 4000000000 }
    ensures { IfOk result (λ reply. (text : List ℕ) → HasRead reader text → IsReplyOn request (cnf_answer text) reply) }
{
    match reader.finish() {
        Ok(cnf) => reply_to_formula(alloc, request, cnf),
        Err(CnfError::Form(line)) => Refusal::MalformedAt(line).reply(alloc),
        Err(CnfError::Variables) => Refusal::TooManyVariables(MOST_VARIABLES).reply(alloc),
        Err(CnfError::Clauses) => Refusal::TooManyClauses(MOST_CLAUSES).reply(alloc),
        Err(CnfError::NoMemory) => Err(NoMemory),
    }
}

/// What is replied to a formula.
fn reply_to_formula(alloc: Global, request: Request, cnf: Cnf) -> Result<Reply, NoMemory>
    requires few_variables { cnf.variables ≤ MOST_VARIABLES }
    requires few_clauses { length cnf.clauses ≤ MOST_CLAUSES }
    requires some { 1 ≤ request.budget }
    requires few { request.budget ≤ 4000000000 }
    ensures { IfOk result (λ reply. IsRightReply request cnf.variables cnf.clauses reply.status reply.text) }
{
    let cnf = without_tautologies(alloc, cnf)?;
    match solve(alloc, &cnf, request.budget)? {
        Answer::Sat(assignment) => satisfiable(alloc, assignment.truths.as_slice()),
        Answer::Unsat(log) => unsatisfiable(alloc, request.log, &cnf, &log),
        Answer::Spent(_) => unknown(alloc),
    }
}

/// The formula without the clauses that have a literal and its negation.
fn without_tautologies(alloc: Global, cnf: Cnf) -> Result<Cnf, NoMemory>
    ensures variables { IfOk result (λ proper. proper.variables ≡ cnf.variables) }
    ensures clauses { IfOk result (λ proper. proper.clauses ≡ proper_clauses cnf.clauses) }
{
    if cnf.clauses.first_tautology().is_none() {
        return Ok(cnf);
    }
    let clauses = proper_clauses(alloc, &cnf.clauses)?;
    Ok(Cnf {
        variables: cnf.variables,
        clauses,
    })
}

/// The clauses without those that have a literal and its negation.
fn proper_clauses(alloc: Global, clauses: &ClauseList) -> Result<ClauseList, NoMemory>
    ensures { IfOk result (λ proper. proper ≡ proper_clauses clauses.now) }
{
    let mut proper = ClauseList::new(alloc);
    for place in 0..clauses.len() {
        add_if_proper(alloc, &mut proper, clauses.get(place))?;
    }
    Ok(proper)
}

/// Adds the clause of these literals, unless it has a literal and its negation.
fn add_if_proper(
    alloc: Global,
    proper: &mut ClauseList,
    literals: &[Literal],
) -> Result<(), NoMemory>
    requires { IsIncreasing literals.now }
    ensures { OnOk result ((rest : List (List Lit)) →
        proper.new ++ proper_clauses rest ≡ proper.old ++ proper_clauses (literals.now ∷ rest)) }
{
    if have_pair(literals) {
        return Ok(());
    }
    proper.push(alloc, literals)?;
    Ok(())
}

/// That these truths meet all clauses.
fn satisfiable(alloc: Global, truths: &[bool]) -> Result<Reply, NoMemory>
    requires { length truths.now < 2 ^ 31 }
    ensures { IfOk result (IsSatisfiableReply truths.now) }
{
    let text = satisfiable_text(alloc, truths)?;
    Ok(Reply::new(Status::Done, text))
}

/// That no assignment meets all clauses, with the formula and the log where the log is wanted.
fn unsatisfiable(alloc: Global, with_log: bool, cnf: &Cnf, log: &Log) -> Result<Reply, NoMemory>
    requires few_variables { cnf.now.variables ≤ MOST_VARIABLES }
    requires few_clauses { length cnf.now.clauses ≤ MOST_CLAUSES }
    requires refuting { AreRefuting cnf.now.variables cnf.now.clauses log.now.steps }
    ensures { IfOk result (IsUnsatisfiableReply with_log cnf.now.variables cnf.now.clauses) }
{
    let text = if with_log {
        refutation(alloc, cnf, log)?
    } else {
        Vec::from_slice(alloc, b"s UNSATISFIABLE\n")?
    };
    Ok(Reply::new(Status::No, text))
}

/// The text of a formula and of a log that refutes it.
fn refutation(alloc: Global, cnf: &Cnf, log: &Log) -> Result<Vec<u8>, NoMemory>
    requires few_variables { cnf.now.variables ≤ MOST_VARIABLES }
    requires few_clauses { length cnf.now.clauses ≤ MOST_CLAUSES }
    requires refuting { AreRefuting cnf.now.variables cnf.now.clauses log.now.steps }
    ensures { IfOk result (λ text. SpellsRefutation text.items cnf.now.variables cnf.now.clauses) }
{
    let mut text = Vec::with_capacity(alloc, step_count(log))?;
    put_refutation(&mut text, cnf, log)?;
    Ok(text)
}

/// How many steps a log has. Each takes memory, so that there are not too many for their numbers to be read back.
fn step_count(log: &Log) -> usize
    ensures value { result ≡ length log.now.steps }
    ensures few { result < 200000000000000000 }
{
    log.steps.as_slice().len()
}

/// That the budget is spent.
fn unknown(alloc: Global) -> Result<Reply, NoMemory>
    ensures { IfOk result IsUnknownReply }
{
    let text = Vec::from_slice(alloc, b"s UNKNOWN\n")?;
    Ok(Reply::new(Status::Spent, text))
}
