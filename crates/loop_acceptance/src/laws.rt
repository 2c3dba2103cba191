//! Laws of acceptance: each function does nothing, and its contract is the law.

ghost use Rattle.std.specs.Prelude.{◌≡◌, ◌↔◌, ◌≤◌, true, List, length};
ghost use Rattle.ltl_formula.specs.LtlTree.{LtlTree};
ghost use Rattle.ltl_formula.specs.LetterLoop.{LetterLoop, holds};
ghost use Rattle.cobuchi_automata.specs.Automata.{StateTree, EdgeTree, IsAutomaton};
ghost use Rattle.cobuchi_automata.specs.Paths.{FitsLetters};
ghost use Rattle.loop_acceptance.specs.Accepts.{Accepts};

/// The automaton of a formula accepts the letter loops on which the formula holds at position 0.
pub fn automata_accept_where_their_formulas_hold()
    ensures { (f : LtlTree) (states : List StateTree) (edges : List EdgeTree) → IsAutomaton f states edges →
        (loop : LetterLoop) → FitsLetters loop → 1 ≤ length loop.cycle → (Accepts edges loop ↔ (holds loop f 0 ≡ true)) }
{}
