//! Laws of the definitions: each function does nothing, and its contract is the law.

ghost use Rattle.std.specs.Prelude.{◌≡◌, ℕ, List, length};
ghost use Rattle.line_formats.specs.Machine.{IsFirstWrong};
ghost use Rattle.cobuchi_automata.specs.Automata.{EdgeTree};
ghost use Rattle.automaton_text.specs.HoaText.{IsHoa, IsHoaText, hoa_text, grouped};
ghost use Rattle.automaton_text.specs.HoaLines.{step, whole, fresh};

/// What is written is read: the text of an automaton tells this automaton, with its edges in the
/// order of their first states.
pub fn written_automata_are_read()
    ensures { (names : List (List ℕ)) (states : ℕ) (edges : List EdgeTree) → IsHoa names states edges →
        IsHoaText (hoa_text names states edges) (length names) states (grouped states edges) }
{}

/// A text tells at most one automaton, and then no line of it is wrong.
pub fn texts_tell_one_automaton()
    ensures one { (text : List ℕ) (bits states more_bits more_states : ℕ) (edges more_edges : List EdgeTree) →
        IsHoaText text bits states edges → IsHoaText text more_bits more_states more_edges →
        (bits ≡ more_bits) × (states ≡ more_states) × (edges ≡ more_edges) }
    ensures right { (text : List ℕ) (bits states line : ℕ) (edges : List EdgeTree) →
        IsHoaText text bits states edges → IsFirstWrong step whole fresh text line → ⊥ }
{}
