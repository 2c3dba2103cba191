//! Laws on which texts are those of loops: each function does nothing, and its contract is the law.

ghost use Rattle.std.specs.Prelude.{◌≡◌, ℕ, ◌<◌, ◌^◌, List, length};
ghost use Rattle.line_formats.specs.Machine.{IsText, IsFirstWrong};
ghost use Rattle.lasso_text.specs.LetterText.{LoopTree, IsLoop, loop_lines, State, step, whole, fresh};
ghost use Rattle.lasso_text.specs.FirstWrongLine.{said_of, IsFirstWrongLine};

/// The steps take the lines of each loop to the end, where the number of the last line has at most 18
/// digits, and no others.
pub fn steps_take_the_texts_of_loops()
    ensures each { (bits : ℕ) (loop : LoopTree) → bits < 2 ^ 32 → loop.back < 10 ^ 18 → IsLoop bits loop →
        IsText step whole (fresh bits) (loop_lines loop) (said_of bits loop) }
    ensures only { (bits : ℕ) (ls : List (List ℕ)) (end : State) → IsText step whole (fresh bits) ls end →
        (loop : LoopTree) × IsLoop bits loop × (ls ≡ loop_lines loop) × (end ≡ said_of bits loop) }
{}

/// A first wrong line is the first with which no text of a loop goes on.
pub fn no_loop_goes_on_with_a_first_wrong_line()
    ensures { (bits : ℕ) (text : List ℕ) (line : ℕ) → bits < 2 ^ 32 → length text < 10 ^ 18 →
        IsFirstWrong step whole (fresh bits) text line → IsFirstWrongLine bits text line }
{}
