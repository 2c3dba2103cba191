//! The command `check`.

ghost use Rattle.std.specs.Prelude.{◌≡◌, ◌↔◌, ◌<◌, ◌≤◌, ◌^◌, ◌++◌, length, decimal, IfOk, IsTrue};
ghost use Rattle.tsl_terms.specs.SpecView.{spec_tree};
ghost use Rattle.tsl_terms.specs.WellFormed.{SpecFits};
ghost use Rattle.tsl_reader.specs.Spells.{Spells};
ghost use Rattle.program_tree.specs.ProgramView.{program_tree};
ghost use Rattle.checking_commands.specs.Check.{CheckOutcome, verdict_reply, refused_reply};
ghost use Rattle.checking_commands.specs.Judged.{IsJudged};
ghost use Rattle.checking_commands.specs.internal.CheckView.{check_parts, AreShortTexts, AreSpelled, AreTextsJudged};

use crate::run_faults::fault_of_program;
use base_library::NoMemory;
use command_faults::{PROGRAM_LINE, cut_before, fault_of, fault_of_limit, fault_reply};
use flow_program::read_program;
use program_check::{CheckError, Verdict, accept};
use program_tree::Program;
use std::alloc::Global;
use tool_io::{Reply, Status};
use tsl_reader::read_spec;
use tsl_report::{Fault, Head};
use tsl_terms::{Names, Spec};
use tsl_text::{put_bytes, put_number};

/// The texts of a specification and of a program.
#[derive(Clone, Copy)]
struct Texts<'a> {
    spec: &'a [u8],
    program: &'a [u8],
}

/// What is known of a program under its specification.
#[derive(Drop)]
pub enum Judged {
    /// The program is accepted under the specification.
    Accepted(Spec, Program),
    /// It is not, or something is refused: what `check` replies.
    Replied(Reply),
}

/// What `check` replies to these bytes: the verdict on their program under their specification, for
/// annotations within a bound, or why there is none.
pub fn check(alloc: Global, bound: u32, bytes: &[u8]) -> Result<Reply, NoMemory>
    requires { length bytes.now ≤ 2 ^ 24 }
    ensures { IfOk result (CheckOutcome bound bytes.now) }
{
    let judged = accepted_program(alloc, bound, bytes)?;
    match judged {
        Judged::Accepted(_, _) => accepted(alloc),
        Judged::Replied(reply) => Ok(reply),
    }
}

/// The specification and the program of these bytes, where `check` accepts the program within the bound; otherwise
/// what `check` replies.
pub fn accepted_program(alloc: Global, bound: u32, bytes: &[u8]) -> Result<Judged, NoMemory>
    requires { length bytes.now ≤ 2 ^ 24 }
    ensures { IfOk result (IsJudged bound bytes.now) }
{
    match cut_before(bytes, PROGRAM_LINE) {
        Some((spec, program)) => texts_judged(alloc, bound, &Texts { spec, program }),
        None => {
            let reply = fault_reply(alloc, &Fault::Parts(Head::Program))?;
            Ok(Judged::Replied(reply))
        }
    }
}

/// What is known of the two texts: first the specification is read.
fn texts_judged(alloc: Global, bound: u32, texts: &Texts<'_>) -> Result<Judged, NoMemory>
    requires short { AreShortTexts (check_parts texts.now) }
    ensures { IfOk result (AreTextsJudged bound (check_parts texts.now)) }
{
    match read_spec(alloc, texts.spec) {
        Ok(spec) => {
            let names = spec.names.copy()?;
            spec_judged(alloc, bound, texts, spec, names)
        }
        Err(error) => {
            let fault = fault_of(alloc, texts.spec, &error)?;
            let reply = fault_reply(alloc, &fault)?;
            Ok(Judged::Replied(reply))
        }
    }
}

/// What is known after the specification: the program is read, with its names.
fn spec_judged(
    alloc: Global,
    bound: u32,
    texts: &Texts<'_>,
    spec: Spec,
    names: Names,
) -> Result<Judged, NoMemory>
    requires short { AreShortTexts (check_parts texts.now) }
    requires spells { Spells (check_parts texts.now).spec (spec_tree spec) }
    requires fits { SpecFits (spec_tree spec) }
    requires names { names ≡ (spec_tree spec).names }
    ensures { IfOk result (AreTextsJudged bound (check_parts texts.now)) }
{
    match read_program(alloc, texts.program, names) {
        Ok((program, _)) => program_judged(alloc, bound, texts, spec, program),
        Err(error) => {
            let fault = fault_of_program(alloc, texts.program, &error)?;
            let reply = fault_reply(alloc, &fault)?;
            Ok(Judged::Replied(reply))
        }
    }
}

/// What is known of a specification and a program, which these texts spell: the verdict.
fn program_judged(
    alloc: Global,
    bound: u32,
    texts: &Texts<'_>,
    spec: Spec,
    program: Program,
) -> Result<Judged, NoMemory>
    requires fits { SpecFits (spec_tree spec) }
    requires few_nodes { length program.nodes < 2 ^ 32 }
    requires few_states { length program.states < 2 ^ 32 }
    requires few_windows { length program.windows < 2 ^ 32 }
    requires spelled { AreSpelled (check_parts texts.now) (spec_tree spec) (program_tree program) }
    ensures { IfOk result (AreTextsJudged bound (check_parts texts.now)) }
{
    match accept(alloc, &spec, &program, bound) {
        Ok(verdict) => {
            if is_yes(verdict) {
                return Ok(Judged::Accepted(spec, program));
            }
            let reply = reply_of(alloc, bound, verdict)?;
            Ok(Judged::Replied(reply))
        }
        Err(CheckError::Large(limit)) => {
            let reply = fault_reply(alloc, &fault_of_limit(limit))?;
            Ok(Judged::Replied(reply))
        }
        Err(CheckError::NoMemory) => Err(NoMemory),
    }
}

/// Whether a verdict is yes.
fn is_yes(verdict: Verdict) -> bool
    ensures { IsTrue result ↔ (verdict ≡ Verdict.Yes) }
{
    matches!(verdict, Verdict::Yes)
}

/// The line of a verdict.
fn reply_of(alloc: Global, bound: u32, verdict: Verdict) -> Result<Reply, NoMemory>
    ensures { IfOk result (λ reply. reply ≡ verdict_reply bound verdict) }
{
    match verdict {
        Verdict::Yes => accepted(alloc),
        Verdict::Signals => refused(alloc, b"signals"),
        Verdict::Test(node) => refused_at(alloc, b"test ", node),
        Verdict::Choice(node) => refused_at(alloc, b"choice ", node),
        Verdict::Foreign(window) => refused_at(alloc, b"foreign ", window),
        Verdict::Unsound(window) => refused_at(alloc, b"window ", window),
        Verdict::NoAnnotation => refused_at(alloc, b"bound ", bound),
    }
}

/// That the program is accepted.
fn accepted(alloc: Global) -> Result<Reply, NoMemory>
    ensures { IfOk result (λ reply. reply ≡ verdict_reply 0 Verdict.Yes) }
{
    let text = Vec::from_slice(alloc, b"accepted\n")?;
    Ok(Reply::new(Status::Done, text))
}

/// That the program is refused for this.
fn refused(alloc: Global, what: &[u8]) -> Result<Reply, NoMemory>
    ensures { IfOk result (λ reply. reply ≡ refused_reply what.now) }
{
    let mut text = Vec::from_slice(alloc, b"refused ")?;
    put_bytes(&mut text, what)?;
    put_bytes(&mut text, b"\n")?;
    Ok(Reply::new(Status::No, text))
}

/// That the program is refused for what has this number.
fn refused_at(alloc: Global, what: &[u8], number: u32) -> Result<Reply, NoMemory>
    ensures { IfOk result (λ reply. reply ≡ refused_reply (what.now ++ decimal number)) }
{
    let mut text = Vec::from_slice(alloc, b"refused ")?;
    put_bytes(&mut text, what)?;
    put_number(&mut text, number as u64)?;
    put_bytes(&mut text, b"\n")?;
    Ok(Reply::new(Status::No, text))
}
