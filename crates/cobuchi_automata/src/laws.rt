//! Laws of automata: each function does nothing, and its contract is the law.

ghost use Rattle.std.specs.Prelude.{◌≡◌, ℕ, ◌+◌, ◌*◌, ◌<◌, ◌≤◌, true, List, length};
ghost use Rattle.ltl_formula.specs.LtlTree.{LtlTree};
ghost use Rattle.ltl_formula.specs.LetterLoop.{LetterLoop, holds};
ghost use Rattle.cobuchi_automata.specs.Automata.{StateTree, EdgeTree, untils_of, IsAutomaton};
ghost use Rattle.cobuchi_automata.specs.Refusals.{most_automaton_states, most_automaton_edges, HasTooManyChoices, HasTooManyStates};
ghost use Rattle.cobuchi_automata.specs.Refusals.{HasTooManyEdges};
ghost use Rattle.cobuchi_automata.specs.Renumbering.{IsRenumbered};
ghost use Rattle.cobuchi_automata.specs.Paths.{IsPath, FitsLetters, rejections, IsRejectingTurn};

/// On a letter loop on which a formula holds at position 0, and for each number k, the formula's
/// automaton has a path from its start over the loop's letters that passes k + 1 rejecting edges within
/// (k + 1) (U + 1) (P + 1) steps, where U is the number of untils and P that of the loop's positions.
pub fn a_formula_that_holds_has_rejecting_paths()
    ensures { (f : LtlTree) (states : List StateTree) (edges : List EdgeTree) → IsAutomaton f states edges →
        (loop : LetterLoop) → FitsLetters loop → 1 ≤ length loop.cycle → holds loop f 0 ≡ true → (k : ℕ) →
        (path : List EdgeTree) × IsPath edges loop 0 0 path
        × (length path ≤ (k + 1) * ((length (untils_of f) + 1) * (length loop.stem + length loop.cycle + 1)))
        × (k + 1 ≤ rejections path) }
{}

/// Where a formula has an automaton, each reached set has choices, and the automaton has more states
/// and more edges than there may be where that many are reached. So `build` refuses no formula whose
/// automaton is within the limits, and gives none of another one.
pub fn automata_within_limits_are_built()
    ensures choices { (f : LtlTree) (states : List StateTree) (edges : List EdgeTree) → IsAutomaton f states edges →
        HasTooManyChoices f → ⊥ }
    ensures states { (f : LtlTree) (states : List StateTree) (edges : List EdgeTree) → IsAutomaton f states edges →
        HasTooManyStates f → most_automaton_states < length states }
    ensures edges { (f : LtlTree) (states : List StateTree) (edges : List EdgeTree) → IsAutomaton f states edges →
        HasTooManyEdges f → most_automaton_edges < length edges }
{}

/// A formula has one automaton, but for the numbers of its states and the order of its edges.
pub fn automata_are_the_same_up_to_numbers()
    ensures { (f : LtlTree) (states : List StateTree) (edges : List EdgeTree) (more_states : List StateTree) (more_edges : List EdgeTree) →
        IsAutomaton f states edges → IsAutomaton f more_states more_edges → IsRenumbered states edges more_states more_edges }
{}

/// Where a path from the start of a formula's automaton over a letter loop passes a rejecting edge between
/// two moments with the same position of the loop and the same state, the formula holds on the loop at
/// position 0.
pub fn rejecting_turns_make_a_formula_hold()
    ensures { (f : LtlTree) (states : List StateTree) (edges : List EdgeTree) → IsAutomaton f states edges →
        (loop : LetterLoop) → FitsLetters loop → 1 ≤ length loop.cycle → (stem turn : List EdgeTree) →
        IsRejectingTurn edges loop stem turn → holds loop f 0 ≡ true }
{}
