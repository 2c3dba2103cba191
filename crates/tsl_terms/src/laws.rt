//! Laws about the definitions that contracts cite.

ghost use Rattle.std.specs.Prelude.{◌≡◌, ◌↔◌, ℕ, List, [], ◌++◌, flat_map, Option, None, IsTrue};
ghost use Rattle.std.specs.List.{AllByRecursion, Contains};
ghost use Rattle.tsl_terms.specs.TermTree.{TermTree, ProbeTree};
ghost use Rattle.tsl_terms.specs.SameTree.{same_tree, same_probe_tree};
ghost use Rattle.tsl_terms.specs.FreeTree.{FreeTree};
ghost use Rattle.tsl_terms.specs.OneClass.{AreInOneClass};
ghost use Rattle.tsl_terms.specs.FormulaTree.{FormulaTree};
ghost use Rattle.tsl_terms.specs.Atoms.{atoms, joins_two};
ghost use Rattle.tsl_terms.specs.WindowTree.{ListedTree, EquatedTree, WindowTree, window_formula_of, window_atoms, under_windows};
ghost use Rattle.tsl_terms.specs.Unfolding.{term_taken_by_cell};
ghost use Rattle.tsl_terms.specs.Congruence.{Extends, IsCongruent, IsEquality, IsPlain};
ghost use Rattle.tsl_terms.specs.Laws.{SignalsAreDistinct, SignalsAreInOrder, InputsAndCellsAreRead, CellsAndOutputsAreUpdated, WholeHasTheAtoms, WholeFits};

/// Two terms pass the test `same_tree`, and two probes the test `same_probe_tree`, exactly where
/// they are equal.
pub fn same_tree_is_equality()
    ensures terms { (a b : TermTree) → IsTrue (same_tree a b) ↔ (a ≡ b) }
    ensures probes { (p q : ProbeTree) → IsTrue (same_probe_tree p q) ↔ (p ≡ q) }
{}

/// Where no equality is listed, free terms are in one class exactly where they are equal.
pub fn classes_without_pairs_are_single()
    ensures { (x y : FreeTree) → AreInOneClass [] x y ↔ (x ≡ y) }
{}

/// Where no predicate is equality, a congruent window has a left probe and lists no equality, and both
/// sides unfold to the same free terms; such a window is congruent whatever predicate is equality.
pub fn plain_windows_are_congruent()
    ensures plain { (cells : List ℕ) (w : WindowTree) → IsCongruent cells None w ↔ IsPlain cells w }
    ensures whatever { (cells : List ℕ) (equality : Option ℕ) (w : WindowTree) → IsPlain cells w → IsCongruent cells equality w }
{}

/// A congruent window stays so where more updates and more equalities are listed, as long as a signal that
/// took a term still takes it and the equalities are equalities.
pub fn more_keep_windows_congruent()
    ensures { (cells : List ℕ) (equality : Option ℕ) (w : WindowTree) (updates : List ListedTree) (equalities : List EquatedTree) →
        Extends (term_taken_by_cell cells w.updates) (term_taken_by_cell cells updates) →
        AllByRecursion (λ e. Contains equalities e) w.equalities → AllByRecursion (λ e. IsEquality equality e.probe) equalities →
        IsCongruent cells equality w → IsCongruent cells equality (record w { updates = updates; equalities = equalities }) }
{}

/// The atoms of a whole formula are those of the four lists, one list after another, and it fits the
/// names where each formula of the lists does.
pub fn whole_formula_has_the_atoms()
    ensures atoms { WholeHasTheAtoms }
    ensures fits { WholeFits }
{}

/// The atoms of a window's formula are the updates that the window lists, in order, and then what it
/// tests; those of a formula under windows are those of the windows, one after another, and its own. Its
/// conjunctions and disjunctions have two members or more where those of the formula itself do.
pub fn windowed_formulas_have_the_atoms()
    ensures window { (w : WindowTree) → atoms (window_formula_of w) ≡ window_atoms w }
    ensures under { (ws : List WindowTree) (f : FormulaTree) → atoms (under_windows ws f) ≡ flat_map window_atoms ws ++ atoms f }
    ensures joins { (ws : List WindowTree) (f : FormulaTree) → joins_two (under_windows ws f) ≡ joins_two f }
{}

/// No signal stands twice among inputs, cells and outputs, and each list is in the order of the names.
/// Where the formulas fit the names, what is read is an input or a cell, and what is updated a cell or
/// an output.
pub fn signals_are_told_apart()
    ensures distinct { SignalsAreDistinct }
    ensures order { SignalsAreInOrder }
    ensures read { InputsAndCellsAreRead }
    ensures updated { CellsAndOutputsAreUpdated }
{}
