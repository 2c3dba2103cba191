//! The command `gen`.

ghost use Rattle.std.specs.Prelude.{◌≡◌, ◌≤◌, cond, IfOk};
ghost use Rattle.tsl_terms.specs.SpecView.{spec_tree};
ghost use Rattle.tsl_terms.specs.WellFormed.{SpecFits};
ghost use Rattle.letter_space.specs.SpaceTree.{choice_count};
ghost use Rattle.letter_space.specs.SpaceView.{space_tree};
ghost use Rattle.letter_space.specs.SpecSpace.{spec_space};
ghost use Rattle.synthesis_commands.specs.Gen.{GenOutcome, SummaryOutcome, summary_reply};
ghost use Rattle.synthesis_commands.specs.internal.GeneratedSizes.{generated_sizes};

use crate::synthesis::spent;
use base_library::NoMemory;
use command_faults::{fault_of_limit, fault_reply};
use generator::{gen_text, summary_text};
use letter_space::{Space, SpaceError, space_of};
use machines::Side;
use program_check::Limit;
use refinement_loop::{Outcome, RefineError, Sizes, refine};
use std::alloc::Global;
use tool_io::{Reply, Status};
use tsl_reader::read_spec;
use tsl_terms::Spec;

/// What `gen` replies to a number from 1 to 5: whether a controller of so many states has an annotation within the
/// same bound for the generated specification.
pub fn generate(alloc: Global, n: u32) -> Result<Reply, NoMemory>
    requires some { 1 ≤ n }
    requires few { n ≤ 5 }
    ensures { IfOk result (GenOutcome n) }
{
    let text = gen_text(alloc, n)?;
    match read_spec(alloc, &text) {
        Ok(spec) => reply_to_generated(alloc, n, &spec),
        // Each generated text spells a specification, so memory ran out.
        Err(_) => Err(NoMemory),
    }
}

/// What is replied to a generated specification.
fn reply_to_generated(alloc: Global, n: u32, spec: &Spec) -> Result<Reply, NoMemory>
    requires some { 1 ≤ n }
    requires few { n ≤ 5 }
    requires fits { SpecFits (spec_tree spec.now) }
    ensures { IfOk result (SummaryOutcome n (spec_tree spec.now)) }
{
    match space_of(alloc, spec) {
        Ok(space) => reply_to_search(alloc, n, spec, &space),
        Err(SpaceError::Predicates) => { fault_reply(alloc, &fault_of_limit(Limit::Predicates)) }
        Err(SpaceError::Bits) => fault_reply(alloc, &fault_of_limit(Limit::Bits)),
        Err(SpaceError::NoMemory) => Err(NoMemory),
    }
}

/// What the search for a program of a generated specification leads to.
fn reply_to_search(alloc: Global, n: u32, spec: &Spec, space: &Space) -> Result<Reply, NoMemory>
    requires some { 1 ≤ n }
    requires few { n ≤ 5 }
    requires fits { SpecFits (spec_tree spec.now) }
    requires space { space_tree space.now ≡ spec_space (spec_tree spec.now) }
    ensures { IfOk result (SummaryOutcome n (spec_tree spec.now)) }
{
    match refine(alloc, spec, &generated_sizes(n)) {
        Ok(Outcome::Written { .. }) => summary(alloc, n, space, true),
        Ok(Outcome::None { .. }) => summary(alloc, n, space, false),
        Ok(
            Outcome::Spent {
                automaton,
                clauses,
                ..
            },
        ) => spent(
            alloc,
            spec,
            space,
            Side::Controller,
            (n, n),
            &[],
            &automaton,
            clauses.as_slice(),
        ),
        Err(RefineError::Large(limit, _)) => fault_reply(alloc, &fault_of_limit(limit)),
        Err(RefineError::NoMemory) => Err(NoMemory),
    }
}

/// How far the search for a generated specification goes: as many states as its number, within the same bound, and no
/// round.
fn generated_sizes(n: u32) -> Sizes
    ensures { result ≡ generated_sizes n }
{
    Sizes {
        states: n,
        bound: n,
        env_states: 2,
        env_bound: 2,
        depth: 2,
        rounds: 0,
        budget: 20_000,
    }
}

/// The summary of a number, with the counts of these bits.
fn summary(alloc: Global, n: u32, space: &Space, has_program: bool) -> Result<Reply, NoMemory>
    ensures { IfOk result (λ reply. reply ≡ summary_reply n (space_tree space.now) has_program) }
{
    let predicates = space.predicates.as_slice().len() as u64;
    let updates = update_count(space);
    let text = summary_text(alloc, n, predicates, updates, has_program)?;
    Ok(Reply::new(status_of(has_program), text))
}

/// The status where a program is there, or where none is.
fn status_of(has_program: bool) -> Status
    ensures { result ≡ cond has_program Status.Done Status.No }
{
    if has_program {
        Status::Done
    } else {
        Status::No
    }
}

/// How many choices the signals have together.
fn update_count(space: &Space) -> u64
    ensures { result ≡ choice_count (space_tree space.now).controlled }
{
    let mut count = 0;
    for controlled in space.controlled.as_slice() {
        count += controlled.choices.as_slice().len() as u64;
    }
    count
}
