//! A law of the definitions: the function does nothing, and its contract is the law.

ghost use Rattle.std.specs.Prelude.{◌≡◌, ℕ, List, None};
ghost use Rattle.clause_core.specs.Literals.{Lit};
ghost use Rattle.clause_core.specs.Clauses.{AreUnsatisfiable};
ghost use Rattle.refutation_check.specs.Checking.{log_refusal};
ghost use Rattle.refutation_check.specs.declared.steps.Step.{Step};

/// Where a log of a formula is not refused, no assignment meets all of the formula's clauses.
#[tactic(auto, using(crate::proofs::Refuting::accepted_refutes))]
pub fn accepted_logs_refute()
    ensures { (variables : ℕ) (clauses : List (List Lit)) (steps : List Step) →
        log_refusal variables clauses steps ≡ None → AreUnsatisfiable clauses }
{}
