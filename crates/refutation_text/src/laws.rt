//! Laws of the definitions: each function does nothing, and its contract is the law.

ghost use Rattle.std.specs.Prelude.{◌≡◌, ℕ, List, ◌++◌, None, All, IsTrue};
ghost use Rattle.tsl_text.specs.Written.{is_line};
ghost use Rattle.clause_core.specs.Literals.{Lit};
ghost use Rattle.refutation_check.specs.Checking.{log_refusal};
ghost use Rattle.cnf_reader.specs.CnfText.{cnf_answer, is_cnf};
ghost use Rattle.refutation_check.specs.LogText.{log_answer, is_log};
ghost use Rattle.refutation_check.specs.declared.steps.Step.{Step};
ghost use Rattle.refutation_text.specs.Parted.{SpellsRefutation};
ghost use Rattle.refutation_text.specs.Written.{cnf_text, log_text, refutation_text, comment_text, IsWithinLimits, IsReadable};

/// The text of a formula within the limits of `read_dimacs` spells that formula.
#[tactic(auto, using(crate::proofs::CnfRead::cnf_is_read))]
pub fn written_formulas_are_read()
    ensures { (variables : ℕ) (clauses : List (List Lit)) → IsWithinLimits variables clauses →
        cnf_answer (cnf_text variables clauses) ≡ is_cnf variables clauses }
{}

/// The text of a log whose steps can be read spells that log.
#[tactic(auto, using(crate::proofs::LogRead::log_is_read))]
pub fn written_logs_are_read()
    ensures { (steps : List Step) → All IsReadable steps → log_answer (log_text steps) ≡ is_log steps }
{}

/// The text of a refutation that is not refused spells it.
pub fn written_refutations_are_spelled()
    ensures { (variables : ℕ) (clauses : List (List Lit)) (steps : List Step) → IsWithinLimits variables clauses →
        All IsReadable steps → log_refusal variables clauses steps ≡ None →
        SpellsRefutation (refutation_text variables clauses steps) variables clauses }
{}

/// Behind a comment of one line such a text spells it too.
pub fn commented_refutations_are_spelled()
    ensures { (comment : List ℕ) (variables : ℕ) (clauses : List (List Lit)) (steps : List Step) → IsTrue (is_line comment) →
        IsWithinLimits variables clauses → All IsReadable steps → log_refusal variables clauses steps ≡ None →
        SpellsRefutation (comment_text comment ++ refutation_text variables clauses steps) variables clauses }
{}
