//! The command `recheck`.

ghost use Rattle.std.specs.Prelude.{◌≡◌, ◌+◌, ◌<◌, ◌≤◌, ◌^◌, length, drop, IfOk, Some, None};
ghost use Rattle.refutation_check.specs.Checking.{HaveFewHints, log_refusal, at_line, at_hint, unfinished};
ghost use Rattle.cnf_reader.specs.CnfText.{cnf_answer};
ghost use Rattle.refutation_check.specs.LogText.{log_answer};
ghost use Rattle.checking_commands.specs.Recheck.{RecheckOutcome, parts_reply, log_reply, verdict};

use base_library::NoMemory;
use clause_core::Cnf;
use cnf_reader::{CnfError, read_dimacs};
use command_faults::fault_reply;
use refutation_check::{
    Log, LogError, LogTextError, MOST_CLAUSES, MOST_VARIABLES, check, read_lrat,
};
use std::alloc::Global;
use tool_io::{Reply, Status};
use tsl_report::{Fault, Head, LimitName};
use tsl_text::{line_at, put_bytes, put_number};

/// The line between a formula and its log.
const HEAD_LINE: &[u8] = b"lrat";

/// What `recheck` replies to these bytes: whether the log after their first line `lrat` refutes the
/// formula before it.
pub fn recheck(alloc: Global, bytes: &[u8]) -> Result<Reply, NoMemory>
    requires { length bytes.now < 2 ^ 31 }
    ensures { IfOk result (RecheckOutcome bytes.now) }
{
    match line_at(bytes, HEAD_LINE) {
        Some(at) => reply_to_parts(alloc, &bytes[..at as usize], after_head(bytes, at)),
        None => fault_reply(alloc, &Fault::Parts(Head::Lrat)),
    }
}

/// What comes after the line `lrat` that begins at this offset.
fn after_head(bytes: &[u8], at: u32) -> &[u8]
    requires { at ≤ length bytes.now }
    ensures { result.now ≡ drop (at + 5) bytes.now }
{
    let start = at as usize + HEAD_LINE.len() + 1;
    &bytes[start.min(bytes.len())..]
}

/// What is replied to the text of a formula and that of a log.
fn reply_to_parts(alloc: Global, cnf_text: &[u8], log_text: &[u8]) -> Result<Reply, NoMemory>
    requires cnf { length cnf_text.now < 2 ^ 31 }
    requires log { length log_text.now < 2 ^ 31 }
    ensures { IfOk result (λ reply.
        reply ≡ parts_reply (cnf_answer cnf_text.now) (log_answer log_text.now)) }
{
    match read_dimacs(alloc, cnf_text) {
        Ok(cnf) => reply_to_log(alloc, &cnf, log_text),
        Err(CnfError::Form(line)) => fault_reply(alloc, &Fault::CnfForm(line)),
        Err(CnfError::Variables) => {
            fault_reply(
                alloc,
                &Fault::Large(LimitName::Variables, MOST_VARIABLES as u32),
            )
        }
        Err(CnfError::Clauses) => {
            fault_reply(
                alloc,
                &Fault::Large(LimitName::Clauses, MOST_CLAUSES as u32),
            )
        }
        Err(CnfError::NoMemory) => Err(NoMemory),
    }
}

/// What is replied to a formula and the text of a log.
fn reply_to_log(alloc: Global, cnf: &Cnf, log_text: &[u8]) -> Result<Reply, NoMemory>
    requires { length log_text.now < 2 ^ 31 }
    ensures { IfOk result (λ reply.
        reply ≡ log_reply cnf.now.variables cnf.now.clauses (log_answer log_text.now)) }
{
    match read_lrat(alloc, log_text) {
        Ok(log) => verdict_on(alloc, cnf, &log),
        Err(LogTextError::Form(line)) => fault_reply(alloc, &Fault::LogForm(line)),
        Err(LogTextError::NoMemory) => Err(NoMemory),
    }
}

/// The verdict on a formula and a log.
fn verdict_on(alloc: Global, cnf: &Cnf, log: &Log) -> Result<Reply, NoMemory>
    requires { HaveFewHints log.now.steps }
    ensures { IfOk result (λ reply.
        reply ≡ verdict (log_refusal cnf.now.variables cnf.now.clauses log.now.steps)) }
{
    match check(alloc, cnf, log) {
        Ok(()) => verified(alloc),
        Err(LogError::Line(number)) => refused_line(alloc, number),
        Err(LogError::Hint(number, position)) => refused_hint(alloc, number, position),
        Err(LogError::Unfinished) => refused_end(alloc),
        Err(LogError::NoMemory) => Err(NoMemory),
    }
}

/// That the log refutes the formula.
fn verified(alloc: Global) -> Result<Reply, NoMemory>
    ensures { IfOk result (λ reply. reply ≡ verdict None) }
{
    let text = Vec::from_slice(alloc, b"verified\n")?;
    Ok(Reply::new(Status::Done, text))
}

/// That no step has the empty clause.
fn refused_end(alloc: Global) -> Result<Reply, NoMemory>
    ensures { IfOk result (λ reply. reply ≡ verdict (Some unfinished)) }
{
    let text = Vec::from_slice(alloc, b"refused unfinished\n")?;
    Ok(Reply::new(Status::No, text))
}

/// That the step of this number is refused.
fn refused_line(alloc: Global, number: u64) -> Result<Reply, NoMemory>
    ensures { IfOk result (λ reply. reply ≡ verdict (Some (at_line number))) }
{
    let mut text = Vec::from_slice(alloc, b"refused line ")?;
    put_number(&mut text, number)?;
    put_bytes(&mut text, b"\n")?;
    Ok(Reply::new(Status::No, text))
}

/// That of the step of this number the hint at this position is refused.
fn refused_hint(alloc: Global, number: u64, position: u32) -> Result<Reply, NoMemory>
    ensures { IfOk result (λ reply. reply ≡ verdict (Some (at_hint number position))) }
{
    let mut text = Vec::from_slice(alloc, b"refused hint ")?;
    put_number(&mut text, number)?;
    put_bytes(&mut text, b" ")?;
    put_number(&mut text, position as u64)?;
    put_bytes(&mut text, b"\n")?;
    Ok(Reply::new(Status::No, text))
}
