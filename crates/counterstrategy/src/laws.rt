//! Laws of the encodings of environments: each function does nothing, and its contract is the law.

ghost use Rattle.std.specs.Prelude.{◌≡◌, ◌<◌, ℕ, Bool, true, Option};
ghost use Rattle.clause_core.specs.Clauses.{meets_all};
ghost use Rattle.machines.specs.MachineTree.{EnvironmentTree};
ghost use Rattle.bounded_encoding.specs.Question.{QuestionTree, IsPosed};
ghost use Rattle.counterstrategy.specs.EnvironmentQuestion.{IsEnvironmentSolution};
ghost use Rattle.counterstrategy.specs.DualVariables.{DualVariable, IsDualVariable, dual_index, dual_variable, dual_variable_count};
ghost use Rattle.counterstrategy.specs.DualEncoding.{dual_encoding};
ghost use Rattle.counterstrategy.specs.DualDecoding.{environment_read, dual_number_read};

/// An assignment that meets the encoding of a question gives a solution: the environment and the
/// numbers that are read from it.
pub fn assignments_give_environments()
    ensures { (q : QuestionTree) → IsPosed q → (assignment : ℕ → Bool) → meets_all assignment (dual_encoding q) ≡ true →
        IsEnvironmentSolution q (environment_read q assignment) (dual_number_read q assignment) }
{}

/// Each solution of a question gives an assignment that meets its encoding.
pub fn environments_give_assignments()
    ensures { (q : QuestionTree) → IsPosed q → (e : EnvironmentTree) (number : ℕ → ℕ → Option ℕ) → IsEnvironmentSolution q e number →
        (assignment : ℕ → Bool) × (meets_all assignment (dual_encoding q) ≡ true) }
{}

/// Each variable of a question is the one with its index, so that no two have one index, and each
/// index is below their count.
pub fn dual_variables_have_one_number()
    ensures place { (q : QuestionTree) (x : DualVariable) → IsDualVariable q x → dual_variable q (dual_index q x) ≡ x }
    ensures one { (q : QuestionTree) (x y : DualVariable) → IsDualVariable q x → IsDualVariable q y →
        dual_index q x ≡ dual_index q y → x ≡ y }
    ensures below { (q : QuestionTree) (x : DualVariable) → IsDualVariable q x → dual_index q x < dual_variable_count q }
{}
