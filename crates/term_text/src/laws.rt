//! What holds of the texts of terms.

ghost use Rattle.std.specs.Prelude.{◌≡◌, ℕ, List, IsTrue};
ghost use Rattle.tsl_terms.specs.Name.{Name, AreDistinct};
ghost use Rattle.tsl_terms.specs.TermTree.{TermTree, ProbeTree};
ghost use Rattle.tsl_terms.specs.WellFormed.{term_fits, probe_fits};
ghost use Rattle.term_text.specs.TermText.{term_text, probe_text};

/// A text spells at most one term and at most one test, where no text stands twice among the names.
pub fn one_spelling()
    ensures terms { (names : List Name) (t s : TermTree) → AreDistinct names →
        IsTrue (term_fits names t) → IsTrue (term_fits names s) → term_text names t ≡ term_text names s → t ≡ s }
    ensures probes { (names : List Name) (p q : ProbeTree) → AreDistinct names →
        IsTrue (probe_fits names p) → IsTrue (probe_fits names q) → probe_text names p ≡ probe_text names q → p ≡ q }
{}
