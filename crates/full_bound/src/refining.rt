//! Programs for specifications, by questions with the full bound.

ghost use Rattle.std.specs.Prelude.{IfOk, IfErr};
ghost use Rattle.tsl_terms.specs.SpecView.{spec_tree};
ghost use Rattle.tsl_terms.specs.WellFormed.{SpecFits};
ghost use Rattle.program_tree.specs.Writable.{IsWritable};
ghost use Rattle.tsl_meaning.specs.Promise.{Realizes};
ghost use Rattle.machines.specs.Rounds.{windows_of};
ghost use Rattle.program_check.specs.declared.verdict.Verdict.TheVariants.{Yes};
ghost use Rattle.program_check.specs.Verdicts.{IsVerdict};
ghost use Rattle.refinement_loop.specs.Outcomes.{IsInRange, search_with, IsOutcome, IsLastBound, IfWritten, HasRefineCause};
ghost use Rattle.full_bound.specs.FullBound.{AllFail, WhereNone};

use refinement_loop::{Bound, Outcome, RefineError, Searched, Sizes, refine_by};
use std::alloc::Global;
use tsl_terms::Spec;

/// What a search with the full bound leads to.
#[derive(Drop)]
pub struct Full {
    /// What is answered.
    pub outcome: Outcome,
    /// The bound of the last question for a controller.
    pub bound: u32,
}

/// Looks for a program in rounds, as `refine`, and asks each question for a controller with the full bound: its
/// states times those of the automaton of that question. The bound of the sizes is not looked at. Where there is
/// no controller, each one with so many states has a loop of letters on which the formula under the windows of
/// the rounds does not hold.
#[tactic(auto, using(crate::proofs::AllFailing::all_fail_after))]
pub fn refine_full(alloc: Global, spec: &Spec, sizes: &Sizes) -> Result<Full, RefineError>
    requires in_range { IsInRange (search_with sizes.now Bound.Full) }
    ensures outcome { IfOk result (λ f. IsOutcome (spec_tree spec.now) (search_with sizes.now Bound.Full) f.outcome) }
    ensures bound { IfOk result (λ f. IsLastBound (spec_tree spec.now) (search_with sizes.now Bound.Full) f.outcome f.bound) }
    ensures failing { IfOk result (λ f. WhereNone f.outcome (λ rounds. AllFail (spec_tree spec.now) (windows_of rounds) sizes.now.states)) }
    ensures accepted { IfOk result (λ f. IfWritten f.outcome (λ p. IsVerdict (spec_tree spec.now) p f.bound Yes)) }
    ensures realized { IfOk result (λ f. IfWritten f.outcome (Realizes (spec_tree spec.now))) }
    ensures writable { IfOk result (λ f. SpecFits (spec_tree spec.now) → IfWritten f.outcome (IsWritable spec.now.names)) }
    ensures cause { IfErr result (HasRefineCause (spec_tree spec.now) (search_with sizes.now Bound.Full)) }
{
    match refine_by(alloc, spec, &sizes.with_bound(Bound::Full)) {
        Ok(Searched { outcome, bound }) => Ok(Full { outcome, bound }),
        Err(error) => Err(error),
    }
}
