//! Laws of the definitions: the function does nothing, and its contract is the law.

ghost use Rattle.std.specs.Prelude.{◌≡◌, ℕ, ◌<◌, ◌^◌, length};
ghost use Rattle.line_formats.specs.Machine.{IsFirstWrong, with_last_feed};
ghost use Rattle.lasso_text.specs.LetterText.{LoopTree, IsLoop, loop_text, step, whole, fresh};

/// No line of the text of a loop is wrong, so that it is read, and it is that of this loop alone.
pub fn written_loops_are_read()
    ensures read { (bits : ℕ) (loop : LoopTree) (line : ℕ) → bits < 2 ^ 32 →
        length loop.letters < 2 ^ 32 → IsLoop bits loop →
        IsFirstWrong step whole (fresh bits) (with_last_feed (loop_text loop)) line → ⊥ }
    ensures one { (bits : ℕ) (a b : LoopTree) → bits < 2 ^ 32 → length a.letters < 2 ^ 32 →
        length b.letters < 2 ^ 32 → IsLoop bits a → IsLoop bits b → loop_text a ≡ loop_text b →
        a ≡ b }
{}
