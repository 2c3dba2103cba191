//! The command `synth`.

ghost use Rattle.std.specs.Prelude.{◌≡◌, ◌-◌, ◌<◌, ◌^◌, ◌++◌, map, length, IfOk};
ghost use Rattle.tsl_terms.specs.SpecView.{spec_tree};
ghost use Rattle.tsl_terms.specs.WellFormed.{SpecFits};
ghost use Rattle.program_tree.specs.Writable.{IsWritable};
ghost use Rattle.flow_program.specs.ProgramText.{ProgramText};
ghost use Rattle.program_tree.specs.ProgramView.{program_tree};
ghost use Rattle.letter_space.specs.SpaceView.{space_tree};
ghost use Rattle.letter_space.specs.SpecSpace.{spec_space};
ghost use Rattle.cobuchi_automata.specs.Edges.{edge_trees};
ghost use Rattle.machines.specs.MachineView.{round_tree};
ghost use Rattle.tsl_meaning.specs.Promise.{Realizes};
ghost use Rattle.program_check.specs.declared.verdict.Verdict.TheVariants.{Yes};
ghost use Rattle.program_check.specs.Verdicts.{IsVerdict};
ghost use Rattle.refinement_loop.specs.Outcomes.{IsInRange, IfWritten, IsOutcome, IsLastBound};
ghost use Rattle.environment_text.specs.RoundTexts.{RoundsAreHeld, rounds_text};
ghost use Rattle.tsl_report.specs.FaultText.{fault_text};
ghost use Rattle.search_text.specs.SearchTexts.{ReasonFits, none_text, reason_tree, spent_text};
ghost use Rattle.command_faults.specs.Refusals.{fault_at_limit};
ghost use Rattle.synthesis_commands.specs.Synth.{SearchOutcome, SynthOutcome, states_of_side, bound_of_side};
ghost use Rattle.synthesis_commands.specs.internal.SearchReasons.{reason_told};

use base_library::NoMemory;
use clause_core::Clause;
use cobuchi_automata::Automaton;
use command_faults::{fault_of, fault_of_limit, fault_reply};
use environment_text::rounds_text;
use flow_program::write_program;
use letter_space::{Space, SpaceError, space_of};
use machines::{Round, Side};
use program_check::Limit;
use program_tree::Program;
use refinement_loop::{Outcome, Reason, RefineError, Search, Searched, refine_by};
use search_text::{ReasonText, none_text, spent_text};
use std::alloc::Global;
use tool_io::{Reply, Status};
use tsl_reader::read_spec;
use tsl_report::fault_text;
use tsl_terms::Spec;
use tsl_text::put_bytes;

/// What `synth` replies to these bytes: a program for their specification, or why there is none.
pub fn synth(alloc: Global, search: Search, bytes: &[u8]) -> Result<Reply, NoMemory>
    requires in_range { IsInRange search }
    requires few { length bytes.now < 2 ^ 32 - 1 }
    ensures { IfOk result (SynthOutcome search bytes.now) }
{
    match read_spec(alloc, bytes) {
        Ok(spec) => reply_to_search(alloc, &search, &spec),
        Err(error) => {
            let fault = fault_of(alloc, bytes, &error)?;
            fault_reply(alloc, &fault)
        }
    }
}

/// What is replied to a specification.
fn reply_to_search(alloc: Global, search: &Search, spec: &Spec) -> Result<Reply, NoMemory>
    requires in_range { IsInRange search.now }
    requires fits { SpecFits (spec_tree spec.now) }
    ensures { IfOk result (SearchOutcome search.now (spec_tree spec.now)) }
{
    match space_of(alloc, spec) {
        Ok(space) => reply_over_bits(alloc, search, spec, &space),
        Err(SpaceError::Predicates) => too_many_bits(alloc, Limit::Predicates),
        Err(SpaceError::Bits) => too_many_bits(alloc, Limit::Bits),
        Err(SpaceError::NoMemory) => Err(NoMemory),
    }
}

/// What is replied to a specification that has these bits: what the search for a program leads to.
fn reply_over_bits(
    alloc: Global,
    search: &Search,
    spec: &Spec,
    space: &Space,
) -> Result<Reply, NoMemory>
    requires in_range { IsInRange search.now }
    requires fits { SpecFits (spec_tree spec.now) }
    requires space { space_tree space.now ≡ spec_space (spec_tree spec.now) }
    ensures { IfOk result (SearchOutcome search.now (spec_tree spec.now)) }
{
    match refine_by(alloc, spec, search) {
        Ok(searched) => reply_to_outcome(alloc, search, spec, space, searched),
        Err(RefineError::Large(limit, rounds)) => large(
            alloc,
            spec,
            space,
            limit,
            rounds.as_slice(),
        ),
        Err(RefineError::NoMemory) => Err(NoMemory),
    }
}

/// What is replied to the outcome of a search, whose last question for a controller has this bound.
fn reply_to_outcome(
    alloc: Global,
    search: &Search,
    spec: &Spec,
    space: &Space,
    searched: Searched,
) -> Result<Reply, NoMemory>
    requires fits { SpecFits (spec_tree spec.now) }
    requires space { space_tree space.now ≡ spec_space (spec_tree spec.now) }
    requires outcome { IsOutcome (spec_tree spec.now) search.now searched.outcome }
    requires bound { IsLastBound (spec_tree spec.now) search.now searched.outcome searched.bound }
    requires accepted { IfWritten searched.outcome (λ p. IsVerdict (spec_tree spec.now) p searched.bound Yes) }
    requires realized { IfWritten searched.outcome (Realizes (spec_tree spec.now)) }
    requires writable { IfWritten searched.outcome (IsWritable spec.now.names) }
    ensures { IfOk result (SearchOutcome search.now (spec_tree spec.now)) }
{
    let Searched { outcome, bound } = searched;
    match outcome {
        Outcome::Written { program, .. } => written(alloc, spec, &program),
        Outcome::None { rounds, reason } => {
            none(
                alloc,
                search,
                bound,
                spec,
                space,
                rounds.as_slice(),
                &reason,
            )
        }
        Outcome::Spent {
            rounds,
            side,
            automaton,
            clauses,
        } => {
            let asked = sizes_of_side(search, bound, side);
            spent(
                alloc,
                spec,
                space,
                side,
                asked,
                rounds.as_slice(),
                &automaton,
                clauses.as_slice(),
            )
        }
    }
}

/// The states that the machine of a side has, and the bound of its annotation, where this is that of a controller.
fn sizes_of_side(search: &Search, bound: u32, side: Side) -> (u32, u32)
    ensures states { result.0 ≡ states_of_side search.now side }
    ensures bound { result.1 ≡ bound_of_side search.now bound side }
{
    match side {
        Side::Controller => (search.states, bound),
        Side::Environment => (search.env_states, search.env_bound),
    }
}

/// The text of a program.
fn written(alloc: Global, spec: &Spec, program: &Program) -> Result<Reply, NoMemory>
    requires { IsWritable spec.now.names (program_tree program.now) }
    ensures status { IfOk result (λ reply. reply.status ≡ Status.Done) }
    ensures text { IfOk result
        (λ reply. ProgramText reply.text spec.now.names (program_tree program.now)) }
{
    let text = write_program(alloc, program, &spec.names)?;
    Ok(Reply::new(Status::Done, text))
}

/// That no controller of this size has an annotation within the bound, after these rounds.
fn none(
    alloc: Global,
    search: &Search,
    bound: u32,
    spec: &Spec,
    space: &Space,
    rounds: &[Round],
    reason: &Reason,
) -> Result<Reply, NoMemory>
    requires rounds { RoundsAreHeld spec.now.names (space_tree space.now) (map round_tree rounds.now) }
    requires reason { ReasonFits (space_tree space.now) (reason_told search.now reason.now) }
    ensures status { IfOk result (λ reply. reply.status ≡ Status.No) }
    ensures text { IfOk result (λ reply. reply.text ≡ none_text spec.now.names (space_tree space.now) search.now.states bound
        (map round_tree rounds.now) (reason_told search.now reason.now)) }
{
    let told = told_reason(search, reason);
    let text = none_text(
        alloc,
        &spec.names,
        space,
        search.states,
        bound,
        rounds,
        &told,
    )?;
    Ok(Reply::new(Status::No, text))
}

/// A reason as it is told, with the sizes that it speaks of.
fn told_reason<'a>(search: &Search, reason: &'a Reason) -> ReasonText<'a>
    ensures { reason_tree result ≡ reason_told search.now reason.now }
{
    match reason {
        Reason::Rounds => ReasonText::Rounds(search.rounds),
        Reason::NoCounter => ReasonText::NoCounter(search.env_states, search.env_bound),
        Reason::Genuine(environment) => ReasonText::Genuine(environment),
    }
}

/// That the budget is spent, after these rounds, with the automaton and the clauses that were learnt.
pub(crate) fn spent(
    alloc: Global,
    spec: &Spec,
    space: &Space,
    side: Side,
    sizes: (u32, u32),
    rounds: &[Round],
    automaton: &Automaton,
    clauses: &[Clause],
) -> Result<Reply, NoMemory>
    requires { RoundsAreHeld spec.now.names (space_tree space.now) (map round_tree rounds.now) }
    ensures status { IfOk result (λ reply. reply.status ≡ Status.Spent) }
    ensures text { IfOk result (λ reply. reply.text ≡ spent_text spec.now.names (space_tree space.now) side sizes.0 sizes.1
        (map round_tree rounds.now) automaton.now.states (edge_trees automaton.now.edges) clauses.now) }
{
    let text = spent_text(
        alloc,
        &spec.names,
        space,
        side,
        sizes,
        rounds,
        automaton,
        clauses,
    )?;
    Ok(Reply::new(Status::Spent, text))
}

/// That a limit is passed, after these rounds.
fn large(
    alloc: Global,
    spec: &Spec,
    space: &Space,
    limit: Limit,
    rounds: &[Round],
) -> Result<Reply, NoMemory>
    requires { RoundsAreHeld spec.now.names (space_tree space.now) (map round_tree rounds.now) }
    ensures status { IfOk result (λ reply. reply.status ≡ Status.Large) }
    ensures text { IfOk result (λ reply. reply.text ≡ fault_text (fault_at_limit limit)
        ++ rounds_text spec.now.names (space_tree space.now) (map round_tree rounds.now)) }
{
    let mut text = fault_text(alloc, &fault_of_limit(limit))?;
    let made = rounds_text(alloc, &spec.names, space, rounds)?;
    put_bytes(&mut text, &made)?;
    Ok(Reply::new(Status::Large, text))
}

/// That a limit of bits is passed, before any round.
fn too_many_bits(alloc: Global, limit: Limit) -> Result<Reply, NoMemory>
    ensures status { IfOk result (λ reply. reply.status ≡ Status.Large) }
    ensures text { IfOk result (λ reply. reply.text ≡ fault_text (fault_at_limit limit)) }
{
    let text = fault_text(alloc, &fault_of_limit(limit))?;
    Ok(Reply::new(Status::Large, text))
}
