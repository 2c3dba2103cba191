//! What is written.

ghost use Rattle.std.specs.Prelude.{◌≡◌, ◌++◌, OnOk, codes, decimal, All};
ghost use Rattle.clause_core.specs.Clauses.{IsIncreasing};
ghost use Rattle.refutation_text.specs.Written.{literal_word, ended_list, clause_line, step_line, header_line, cnf_text, log_text, IsClauseOver};
ghost use Rattle.refutation_text.specs.Written.{refutation_text};

use base_library::NoMemory;
use clause_core::{Cnf, Literal};
use refutation_check::{Log, Step};
use tsl_text::{put_bytes, put_number};

/// Appends the text of a formula, the line `lrat` and the text of a log.
pub fn put_refutation(out: &mut Vec<u8>, cnf: &Cnf, log: &Log) -> Result<(), NoMemory>
    ensures clauses { OnOk result (All (IsClauseOver cnf.now.variables) cnf.now.clauses) }
    ensures steps { OnOk result (All (λ step. IsIncreasing step.clause) log.now.steps) }
    ensures text { OnOk result (out.new.items ≡ out.old.items ++ refutation_text cnf.now.variables cnf.now.clauses log.now.steps) }
{
    put_cnf(out, cnf)?;
    put_bytes(out, b"lrat\n")?;
    put_log(out, log)
}

/// Appends the text of a formula.
pub fn put_cnf(out: &mut Vec<u8>, cnf: &Cnf) -> Result<(), NoMemory>
    ensures clauses { OnOk result (All (IsClauseOver cnf.now.variables) cnf.now.clauses) }
    ensures text { OnOk result (out.new.items ≡ out.old.items ++ cnf_text cnf.now.variables cnf.now.clauses) }
{
    put_header(out, cnf.variables, cnf.clauses.len())?;
    for place in 0..cnf.clauses.len() {
        put_clause(out, cnf.clauses.get(place))?;
        put_bytes(out, b"\n")?;
    }
    Ok(())
}

/// Appends the text of a log.
pub fn put_log(out: &mut Vec<u8>, log: &Log) -> Result<(), NoMemory>
    ensures steps { OnOk result (All (λ step. IsIncreasing step.clause) log.now.steps) }
    ensures text { OnOk result (out.new.items ≡ out.old.items ++ log_text log.now.steps) }
{
    for step in log.steps.as_slice() {
        put_step(out, step)?;
        put_bytes(out, b"\n")?;
    }
    Ok(())
}

/// Appends the line of the counts.
fn put_header(out: &mut Vec<u8>, variables: u32, count: usize) -> Result<(), NoMemory>
    ensures { OnOk result (out.new.items ≡ out.old.items ++ (header_line variables count ++ codes "\n")) }
{
    put_bytes(out, b"p cnf ")?;
    put_number(out, u64::from(variables))?;
    put_bytes(out, b" ")?;
    put_number(out, count as u64)?;
    put_bytes(out, b"\n")
}

/// Appends the line of a step.
fn put_step(out: &mut Vec<u8>, step: &Step) -> Result<(), NoMemory>
    ensures increasing { OnOk result (IsIncreasing step.now.clause) }
    ensures text { OnOk result (out.new.items ≡ out.old.items ++ step_line step.now) }
{
    put_number(out, step.number)?;
    put_bytes(out, b" ")?;
    put_clause(out, step.clause.literals())?;
    put_bytes(out, b" ")?;
    put_hints(out, step.hints.as_slice())
}

/// Appends the literals of a clause and a 0, with single spaces between them.
pub fn put_clause(out: &mut Vec<u8>, literals: &[Literal]) -> Result<(), NoMemory>
    ensures { OnOk result (out.new.items ≡ out.old.items ++ clause_line literals.now) }
{
    for literal in literals {
        put_literal(out, *literal)?;
        put_bytes(out, b" ")?;
    }
    put_bytes(out, b"0")
}

/// Appends the hints and a 0.
fn put_hints(out: &mut Vec<u8>, hints: &[u64]) -> Result<(), NoMemory>
    ensures { OnOk result (out.new.items ≡ out.old.items ++ ended_list decimal hints.now) }
{
    for hint in hints {
        put_number(out, *hint)?;
        put_bytes(out, b" ")?;
    }
    put_bytes(out, b"0")
}

/// Appends the number of a literal.
pub fn put_literal(out: &mut Vec<u8>, literal: Literal) -> Result<(), NoMemory>
    ensures { OnOk result (out.new.items ≡ out.old.items ++ literal_word literal) }
{
    if !literal.is_positive() {
        put_bytes(out, b"-")?;
    }
    put_number(out, u64::from(literal.variable()))
}
