//! The laws of annotations: the function does nothing, and its contract is the law.

ghost use Rattle.std.specs.Prelude.{◌≡◌, ℕ, ◌≤◌, false, List, length, Option};
ghost use Rattle.ltl_formula.specs.LtlTree.{LtlTree};
ghost use Rattle.ltl_formula.specs.LetterLoop.{LetterLoop, holds};
ghost use Rattle.cobuchi_automata.specs.Automata.{StateTree, EdgeTree, IsAutomaton};
ghost use Rattle.cobuchi_automata.specs.Paths.{IsPath, FitsLetters, rejections};
ghost use Rattle.machines.specs.Moves.{MoveTree, IsLoopOf};
ghost use Rattle.annotation_check.specs.Annotations.{edges_from, IsAnnotation};

/// Along each letter loop of a machine with an annotation within a bound, a path passes at most so many
/// rejecting edges; so where the automaton is that of a formula, the formula does not hold on the loop.
pub fn annotations_bound_paths()
    ensures paths { (edges : List EdgeTree) (moves : ℕ → List MoveTree) (bound : ℕ) (number : ℕ → ℕ → Option ℕ) →
        IsAnnotation (edges_from edges) moves bound number → (loop : LetterLoop) (state : ℕ → ℕ) → IsLoopOf moves loop state →
        (path : List EdgeTree) → IsPath edges loop 0 0 path → rejections path ≤ bound }
    ensures formulas { (f : LtlTree) (states : List StateTree) (edges : List EdgeTree) → IsAutomaton f states edges →
        (moves : ℕ → List MoveTree) (bound : ℕ) (number : ℕ → ℕ → Option ℕ) → IsAnnotation (edges_from edges) moves bound number →
        (loop : LetterLoop) (state : ℕ → ℕ) → IsLoopOf moves loop state → FitsLetters loop → 1 ≤ length loop.cycle →
        holds loop f 0 ≡ false }
{}
