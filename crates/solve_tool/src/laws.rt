//! A law of the definitions: the function does nothing, and its contract is the law.

ghost use Rattle.std.specs.Prelude.{◌≡◌, ◌<◌, ◌^◌, ◌++◌, ◌∷◌, [], pos, Bool, List, length, map};
ghost use Rattle.clause_core.specs.Literals.{signed_number_of};
ghost use Rattle.solve_tool.specs.Values.{satisfiable_text, told_values, told_literals};

/// The text of an assignment tells the number of the true literal of each variable, and then 0.
#[tactic(auto, using(crate::proofs::ValuesTold::values_are_told))]
pub fn assignments_are_told()
    ensures { (truths : List Bool) → length truths < 10 ^ 18 →
        told_values (satisfiable_text truths) ≡ map signed_number_of (told_literals 0 truths) ++ pos 0 ∷ [] }
{}
