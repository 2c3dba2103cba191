//! The command `prove`.

ghost use Rattle.std.specs.Prelude.{◌≡◌, ◌-◌, ◌<◌, ◌^◌, [], ◌++◌, All, length, IfOk, OnOk};
ghost use Rattle.tsl_terms.specs.SpecTree.{whole_formula};
ghost use Rattle.tsl_terms.specs.SpecView.{spec_tree};
ghost use Rattle.tsl_terms.specs.WellFormed.{SpecFits};
ghost use Rattle.clause_core.specs.Clauses.{IsIncreasing};
ghost use Rattle.refutation_text.specs.Written.{IsClauseOver, comment_text, refutation_text};
ghost use Rattle.bounded_encoding.specs.QuestionView.{question_of};
ghost use Rattle.bounded_encoding.specs.Answers.{IsFound};
ghost use Rattle.refinement_loop.specs.declared.outcome.Bound.TheVariants.{Fixed};
ghost use Rattle.refinement_loop.specs.Questions.{IsAsked};
ghost use Rattle.formula_text.specs.FormulaText.{formula_text};
ghost use Rattle.command_words.specs.declared.task.Task.TheVariants.{Prove};
ghost use Rattle.synthesis_commands.specs.QuestionRanges.{IsQuestionInRange};
ghost use Rattle.synthesis_commands.specs.Prove.{QuestionOutcome, ProveOutcome, satisfiable_reply};

use crate::synthesis::spent;
use base_library::NoMemory;
use bounded_encoding::Found;
use clause_core::Cnf;
use command_faults::{fault_of, fault_of_limit, fault_reply};
use command_words::ProveSizes;
use formula_text::formula_text;
use machines::Side;
use program_check::CheckError;
use refinement_loop::{Asked, ask};
use refutation_check::Log;
use refutation_text::put_refutation;
use std::alloc::Global;
use tool_io::{Reply, Status};
use tsl_reader::read_spec;
use tsl_terms::{Spec, whole};
use tsl_text::put_bytes;

/// What `prove` replies to these bytes: a proof that no controller of this size has an annotation within
/// the bound for their specification, or why there is none.
pub fn prove(alloc: Global, sizes: ProveSizes, bytes: &[u8]) -> Result<Reply, NoMemory>
    requires in_range { IsQuestionInRange sizes }
    requires few { length bytes.now < 2 ^ 32 - 1 }
    ensures { IfOk result (ProveOutcome sizes bytes.now) }
{
    match read_spec(alloc, bytes) {
        Ok(spec) => reply_to_question(alloc, &sizes, &spec),
        Err(error) => {
            let fault = fault_of(alloc, bytes, &error)?;
            fault_reply(alloc, &fault)
        }
    }
}

/// What is replied to a specification: the question for a controller is asked once.
fn reply_to_question(alloc: Global, sizes: &ProveSizes, spec: &Spec) -> Result<Reply, NoMemory>
    requires in_range { IsQuestionInRange sizes.now }
    requires fits { SpecFits (spec_tree spec.now) }
    ensures { IfOk result (QuestionOutcome sizes.now (spec_tree spec.now)) }
{
    match ask(alloc, spec, sizes.states, sizes.bound, sizes.budget) {
        Ok(asked) => reply_to_answer(alloc, sizes, spec, &asked),
        Err(CheckError::Large(limit)) => fault_reply(alloc, &fault_of_limit(limit)),
        Err(CheckError::NoMemory) => Err(NoMemory),
    }
}

/// What is replied to the answer to the question.
fn reply_to_answer(
    alloc: Global,
    sizes: &ProveSizes,
    spec: &Spec,
    asked: &Asked,
) -> Result<Reply, NoMemory>
    requires in_range { IsQuestionInRange sizes.now }
    requires fits { SpecFits (spec_tree spec.now) }
    requires asked { IsAsked Side.Controller (spec_tree spec.now) [] sizes.now.states (Fixed sizes.now.bound)
        (question_of asked.now.automaton asked.now.space sizes.now.states sizes.now.bound) }
    requires found { IsFound
        (question_of asked.now.automaton asked.now.space sizes.now.states sizes.now.bound)
        sizes.now.budget asked.now.found }
    ensures { IfOk result (QuestionOutcome sizes.now (spec_tree spec.now)) }
{
    match &asked.found {
        Found::Controller(_, _) => satisfiable(alloc),
        Found::None(cnf, log) => proved(alloc, spec, cnf, log),
        Found::Spent(clauses) => {
            spent(
                alloc,
                spec,
                &asked.space,
                Side::Controller,
                (sizes.states, sizes.bound),
                &[],
                &asked.automaton,
                clauses.as_slice(),
            )
        }
    }
}

/// That a controller of this size has an annotation within the bound.
fn satisfiable(alloc: Global) -> Result<Reply, NoMemory>
    ensures { IfOk result (λ reply. reply ≡ satisfiable_reply) }
{
    let text = Vec::from_slice(alloc, b"satisfiable\n")?;
    Ok(Reply::new(Status::No, text))
}

/// The whole formula as a comment, and a refutation.
fn proved(alloc: Global, spec: &Spec, cnf: &Cnf, log: &Log) -> Result<Reply, NoMemory>
    ensures status { IfOk result (λ reply. reply.status ≡ Status.Done) }
    ensures text { IfOk result (λ reply. reply.text
        ≡ comment_text (formula_text spec.now.names (whole_formula (spec_tree spec.now)))
        ++ refutation_text cnf.now.variables cnf.now.clauses log.now.steps) }
    ensures clauses { IfOk result (λ _. All (IsClauseOver cnf.now.variables) cnf.now.clauses) }
    ensures steps { IfOk result (λ _. All (λ step. IsIncreasing step.clause) log.now.steps) }
    ensures few { IfOk result (λ _. length log.now.steps < 200000000000000000) }
{
    let formula = whole_text(alloc, spec)?;
    let mut text = Vec::with_capacity(alloc, log.steps.as_slice().len())?;
    put_comment(&mut text, &formula)?;
    put_refutation(&mut text, cnf, log)?;
    Ok(Reply::new(Status::Done, text))
}

/// Appends a comment of one line.
fn put_comment(out: &mut Vec<u8>, comment: &[u8]) -> Result<(), NoMemory>
    ensures { OnOk result (out.new.items ≡ out.old.items ++ comment_text comment.now) }
{
    put_bytes(out, b"c ")?;
    put_bytes(out, comment)?;
    put_bytes(out, b"\n")
}

/// The text of the whole formula of a specification.
#[tactic(auto, using(crate::proofs::WholeTexts::spec_written))]
pub fn whole_text(alloc: Global, spec: &Spec) -> Result<Vec<u8>, NoMemory>
    ensures { IfOk result (λ text. text.items
        ≡ formula_text spec.now.names (whole_formula (spec_tree spec.now))) }
{
    let formula = whole(alloc, spec)?;
    formula_text(alloc, &spec.names, &formula)
}
