//! Programs for specifications: the loop of refinement.

ghost use Rattle.std.specs.Prelude.{◌≡◌, IfOk, IfErr};
ghost use Rattle.tsl_terms.specs.SpecView.{spec_tree};
ghost use Rattle.tsl_terms.specs.WellFormed.{SpecFits};
ghost use Rattle.program_tree.specs.Writable.{IsWritable};
ghost use Rattle.tsl_meaning.specs.Promise.{Realizes};
ghost use Rattle.letter_space.specs.SpaceView.{space_tree};
ghost use Rattle.letter_space.specs.SpecSpace.{spec_space};
ghost use Rattle.program_check.specs.declared.verdict.Verdict.TheVariants.{Yes};
ghost use Rattle.program_check.specs.Verdicts.{IsVerdict};
ghost use Rattle.refinement_loop.specs.declared.outcome.Search.{Search};
ghost use Rattle.refinement_loop.specs.Outcomes.{AreInRange, IsInRange, search_with, IsOutcome, IsLastBound};
ghost use Rattle.refinement_loop.specs.Outcomes.{IfWritten, HasRefineCause};
ghost use Rattle.refinement_loop.specs.internal.Turns.{refused_after};

use crate::errors::RefineError;
use crate::outcome::{Bound, Outcome, Search, Searched, Sizes};
use crate::turning::{Turn, Turned, next_turn};
use base_library::Sequence;
use letter_space::{Space, space_of};
use machines::Round;
use program_check::CheckError;
use std::alloc::Global;
use tsl_terms::Spec;

/// Looks for a program in rounds. Where a controller answers the question under the windows found so far, its
/// program is written. Where there is none, an environment is looked for, and in it a window that is congruent
/// and spurious, which makes a round. The other outcomes say why no further round is made, or that the budget
/// is spent. A program that is written is accepted with the same bound, realizes the specification, and can be
/// written over its names where these can be written. `Large` comes with the rounds that were made before a
/// limit was passed.
pub fn refine(alloc: Global, spec: &Spec, sizes: &Sizes) -> Result<Outcome, RefineError>
    requires in_range { AreInRange sizes.now }
    ensures outcome { IfOk result (IsOutcome (spec_tree spec.now) (search_with sizes.now (Bound.Fixed sizes.now.bound))) }
    ensures accepted { IfOk result (λ o. IfWritten o (λ p. IsVerdict (spec_tree spec.now) p sizes.now.bound Yes)) }
    ensures realized { IfOk result (λ o. IfWritten o (Realizes (spec_tree spec.now))) }
    ensures writable { IfOk result (λ o. SpecFits (spec_tree spec.now) → IfWritten o (IsWritable spec.now.names)) }
    ensures cause { IfErr result (HasRefineCause (spec_tree spec.now) (search_with sizes.now (Bound.Fixed sizes.now.bound))) }
{
    let search = sizes.with_bound(Bound::Fixed(sizes.bound));
    match refine_by(alloc, spec, &search) {
        Ok(searched) => Ok(searched.outcome),
        Err(error) => Err(error),
    }
}

/// The same by a bound that may be the full one. Each question for a controller is asked with the bound's number
/// for its own automaton, and the number of the last one is handed out: a program that is written is accepted
/// with it.
pub fn refine_by(alloc: Global, spec: &Spec, search: &Search) -> Result<Searched, RefineError>
    requires in_range { IsInRange search.now }
    ensures outcome { IfOk result (λ s. IsOutcome (spec_tree spec.now) search.now s.outcome) }
    ensures bound { IfOk result (λ s. IsLastBound (spec_tree spec.now) search.now s.outcome s.bound) }
    ensures accepted { IfOk result (λ s. IfWritten s.outcome (λ p. IsVerdict (spec_tree spec.now) p s.bound Yes)) }
    ensures realized { IfOk result (λ s. IfWritten s.outcome (Realizes (spec_tree spec.now))) }
    ensures writable { IfOk result (λ s. SpecFits (spec_tree spec.now) → IfWritten s.outcome (IsWritable spec.now.names)) }
    ensures cause { IfErr result (HasRefineCause (spec_tree spec.now) search.now) }
{
    let space = bits_of(alloc, spec)?;
    let mut rounds = Vec::new(alloc);
    loop {
        let Turned { turn, bound } = match next_turn(
            alloc,
            spec,
            &space,
            search,
            rounds.as_slice(),
        ) {
            Ok(turned) => turned,
            Err(error) => return Err(refused(error, rounds)),
        };
        match turn {
            Turn::Further(round) => rounds.push(round)?,
            Turn::Written(program) => {
                let rounds = Sequence::from_vec(rounds);
                let outcome = Outcome::Written { rounds, program };
                return Ok(Searched { outcome, bound });
            }
            Turn::None(reason) => {
                let rounds = Sequence::from_vec(rounds);
                let outcome = Outcome::None { rounds, reason };
                return Ok(Searched { outcome, bound });
            }
            Turn::Spent {
                side,
                automaton,
                clauses,
            } => {
                let rounds = Sequence::from_vec(rounds);
                let outcome = Outcome::Spent {
                    rounds,
                    side,
                    automaton,
                    clauses,
                };
                return Ok(Searched { outcome, bound });
            }
        }
    }
}

/// The bits of a specification. Where they are too many, no round was made.
fn bits_of(alloc: Global, spec: &Spec) -> Result<Space, RefineError>
    ensures space { IfOk result (λ space. space_tree space ≡ spec_space (spec_tree spec.now)) }
    ensures cause { IfErr result (λ e. (search : Search) → HasRefineCause (spec_tree spec.now) search e) }
{
    match space_of(alloc, spec) {
        Ok(space) => Ok(space),
        Err(cause) => Err(refused(CheckError::from(cause), Vec::new(alloc))),
    }
}

/// A refusal after these rounds.
fn refused(error: CheckError, rounds: Vec<Round>) -> RefineError
    ensures { result ≡ refused_after error rounds.items }
{
    match error {
        CheckError::Large(limit) => RefineError::Large(limit, Sequence::from_vec(rounds)),
        CheckError::NoMemory => RefineError::NoMemory,
    }
}
