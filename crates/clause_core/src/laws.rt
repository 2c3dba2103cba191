//! Laws of the definitions: each function does nothing, and its contract is the law.

ghost use Rattle.std.specs.Prelude.{◌≡◌, ℕ, Bool, true, List, Contains};
ghost use Rattle.clause_core.specs.Literals.{Lit, signed_number_of, negation, has};
ghost use Rattle.clause_core.specs.Clauses.{IsIncreasing, in_order, Follows, meets_all};
ghost use Rattle.clause_core.specs.Propagation.{Reaches, SomeFalse, IsQuiet, HasReversePropagation, IsTrace, makes_true};

/// A literal is known by its number, and is the negation of its negation.
pub fn literals_are_their_numbers()
    ensures number { (a b : Lit) → signed_number_of a ≡ signed_number_of b → a ≡ b }
    ensures negation { (l : Lit) → negation (negation l) ≡ l }
{}

/// Literals in order rise, are those of the list, and are the only such list.
pub fn order_is_the_set_of_a_list()
    ensures rises { (ls : List Lit) → IsIncreasing (in_order ls) }
    ensures members { (ls : List Lit) (l : Lit) → has (in_order ls) l ≡ has ls l }
    ensures one { (xs ys : List Lit) → IsIncreasing xs → IsIncreasing ys →
        ((l : Lit) → has xs l ≡ has ys l) → xs ≡ ys }
{}

/// Where an assignment meets the clauses and makes the first literals true, it makes each literal
/// true that unit propagation reaches.
pub fn propagation_keeps_truth()
    ensures { (assignment : ℕ → Bool) (clauses : List (List Lit)) (start trues : List Lit) →
        meets_all assignment clauses ≡ true → Reaches clauses start trues →
        makes_true assignment start ≡ true → makes_true assignment trues ≡ true }
{}

/// What reverse unit propagation shows of a clause: each assignment that meets the others meets it.
pub fn reverse_propagation_shows_consequence()
    ensures { (clauses : List (List Lit)) (clause : List Lit) →
        HasReversePropagation clauses clause → Follows clauses clause }
{}

/// Unit propagation goes no further than any quiet list that has the first literals.
pub fn propagation_is_least()
    ensures within { (clauses : List (List Lit)) (start trues quiet : List Lit) →
        Reaches clauses start trues → ((l : Lit) → has start l ≡ true → has quiet l ≡ true) →
        IsQuiet clauses quiet → (l : Lit) → has trues l ≡ true → has quiet l ≡ true }
    ensures none_false { (clauses : List (List Lit)) (start trues quiet : List Lit) →
        Reaches clauses start trues → ((l : Lit) → has start l ≡ true → has quiet l ≡ true) →
        IsQuiet clauses quiet → SomeFalse clauses trues → ⊥ }
{}

/// Each clause of a trace follows from the clauses that the trace stands behind.
pub fn traces_show_consequences()
    ensures { (variables : ℕ) (known clauses : List (List Lit)) → IsTrace variables known clauses →
        (clause : List Lit) → Contains clauses clause → Follows known clause }
{}
