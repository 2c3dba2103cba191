//! A law of the clauses: the function does nothing, and its contract is the law.

ghost use Rattle.std.specs.Prelude.{◌≡◌, false, All};
ghost use Rattle.clause_core.specs.Clauses.{IsOver, has_pair};
ghost use Rattle.bounded_encoding.specs.Question.{QuestionTree, IsPosed};
ghost use Rattle.bounded_encoding.specs.Variables.{variable_count};
ghost use Rattle.bounded_encoding.specs.Encoding.{encoding};

/// No clause of a question has a literal and its negation, and each is over the variables that are counted.
pub fn clauses_are_over_variables()
    ensures pairs { (q : QuestionTree) → All (λ clause. has_pair clause ≡ false) (encoding q) }
    ensures over { (q : QuestionTree) → IsPosed q → All (IsOver (variable_count q)) (encoding q) }
{}
