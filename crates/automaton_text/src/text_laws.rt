//! Laws on which texts are those of automata: each function does nothing, and its contract is the law.

ghost use Rattle.std.specs.Prelude.{◌≡◌, ℕ, List};
ghost use Rattle.line_formats.specs.Machine.{IsText, IsFirstWrong};
ghost use Rattle.cobuchi_automata.specs.Automata.{EdgeTree};
ghost use Rattle.automaton_text.specs.HoaText.{IsHoa, hoa_lines, grouped};
ghost use Rattle.automaton_text.specs.HoaLines.{State, step, whole, fresh};
ghost use Rattle.automaton_text.specs.FirstWrongLine.{said_of, IsFirstWrongLine};

/// The steps take the lines of each automaton to the end, and no others.
pub fn steps_take_the_texts_of_automata()
    ensures each { (names : List (List ℕ)) (states : ℕ) (edges : List EdgeTree) → IsHoa names states edges →
        IsText step whole fresh (hoa_lines names states edges) (said_of names states (grouped states edges)) }
    ensures only { (ls : List (List ℕ)) (end : State) → IsText step whole fresh ls end →
        (names : List (List ℕ)) × (states : ℕ) × (edges : List EdgeTree) × IsHoa names states edges
        × (edges ≡ grouped states edges) × (ls ≡ hoa_lines names states edges)
        × (end ≡ said_of names states edges) }
{}

/// A first wrong line is the first with which no text of an automaton goes on.
pub fn no_automaton_goes_on_with_a_first_wrong_line()
    ensures { (text : List ℕ) (line : ℕ) → IsFirstWrong step whole fresh text line → IsFirstWrongLine text line }
{}
