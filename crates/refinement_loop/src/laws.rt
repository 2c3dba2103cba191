//! Laws of outcomes: each function does nothing, and its contract is the law.

ghost use Rattle.std.specs.Prelude.{◌≡◌, ℕ, List, []};
ghost use Rattle.tsl_terms.specs.SpecTree.{SpecTree};
ghost use Rattle.tsl_terms.specs.WindowTree.{WindowTree};
ghost use Rattle.program_tree.specs.ProgramTree.{ProgramTree};
ghost use Rattle.machines.specs.Rounds.{RoundTree};
ghost use Rattle.program_check.specs.declared.verdict.Limit.{Limit};
ghost use Rattle.refinement_loop.specs.declared.outcome.Bound.{Bound};
ghost use Rattle.refinement_loop.specs.declared.outcome.Search.{Search};
ghost use Rattle.refinement_loop.specs.declared.outcome.Outcome.{Outcome};
ghost use Rattle.refinement_loop.specs.Questions.{HasSolution, HasNoSolution, IsWrittenFor};
ghost use Rattle.refinement_loop.specs.Outcomes.{IsLargeFor, IsOutcome, IsLargeAfter, IsFirstAnswer};

/// No program is written where no controller answers the question, under the same windows. Where one answers it
/// without windows, no round is made: a program without windows is written, or the budget is spent on this
/// question.
pub fn written_or_none()
    ensures written { (spec : SpecTree) (windows : List WindowTree) (states : ℕ) (bound : Bound) (program : ProgramTree) →
        IsWrittenFor spec windows states bound program → HasNoSolution spec windows states bound → ⊥ }
    ensures without_rounds { (spec : SpecTree) (search : Search) (outcome : Outcome) →
        HasSolution spec [] search.states search.bound → IsOutcome spec search outcome → IsFirstAnswer outcome }
{}

/// Where a limit of the first question for a controller is passed, nothing is answered, and such a limit is told
/// without rounds. So `refine` answers where the first question is within the limits, or tells a limit of a later
/// one, unless memory runs out.
pub fn limits_leave_no_outcome()
    ensures no_outcome { (spec : SpecTree) (search : Search) (limit : Limit) (outcome : Outcome) →
        IsLargeFor spec [] search.states search.bound limit → IsOutcome spec search outcome → ⊥ }
    ensures told { (spec : SpecTree) (search : Search) (limit other : Limit) (rounds : List RoundTree) →
        IsLargeFor spec [] search.states search.bound limit → IsLargeAfter spec search rounds other →
        (rounds ≡ []) × IsLargeFor spec [] search.states search.bound other }
{}
