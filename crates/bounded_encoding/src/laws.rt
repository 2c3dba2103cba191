//! Laws of encodings: each function does nothing, and its contract is the law.

ghost use Rattle.std.specs.Prelude.{◌≡◌, ℕ, Bool, true, length, Option, Some, slice_get};
ghost use Rattle.clause_core.specs.Clauses.{meets_all};
ghost use Rattle.machines.specs.MachineTree.{ControllerTree};
ghost use Rattle.bounded_encoding.specs.Question.{QuestionTree, IsPosed, IsSolution};
ghost use Rattle.bounded_encoding.specs.Variables.{Variable, IsInRange, index_of, variables, variable_count};
ghost use Rattle.bounded_encoding.specs.Encoding.{encoding};
ghost use Rattle.bounded_encoding.specs.Decoding.{controller_read, number_read};

/// An assignment that meets the encoding of a question gives a solution: the controller and the numbers
/// that are read from it.
pub fn assignments_give_controllers()
    ensures { (q : QuestionTree) → IsPosed q → (assignment : ℕ → Bool) → meets_all assignment (encoding q) ≡ true →
        IsSolution q (controller_read q assignment) (number_read q assignment) }
{}

/// Each solution of a question gives an assignment that meets its encoding.
pub fn controllers_give_assignments()
    ensures { (q : QuestionTree) → IsPosed q → (c : ControllerTree) (number : ℕ → ℕ → Option ℕ) → IsSolution q c number →
        (assignment : ℕ → Bool) × (meets_all assignment (encoding q) ≡ true) }
{}

/// Each variable of a question stands at its index in the list of all of them, so that no two have one
/// index, and there are as many as are counted.
pub fn variables_have_one_number()
    ensures place { (q : QuestionTree) (x : Variable) → IsInRange q x → slice_get (variables q) (index_of q x) ≡ Some x }
    ensures one { (q : QuestionTree) (x y : Variable) → IsInRange q x → IsInRange q y → index_of q x ≡ index_of q y → x ≡ y }
    ensures count { (q : QuestionTree) → length (variables q) ≡ variable_count q }
{}
