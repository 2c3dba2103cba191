//! Laws of the letter form: each function does nothing, and its contract is the law.

ghost use Rattle.std.specs.Prelude.{◌≡◌, ℕ};
ghost use Rattle.loop_shape.specs.LoopShape.{IsPosition};
ghost use Rattle.tsl_terms.specs.FormulaTree.{FormulaTree};
ghost use Rattle.tsl_meaning.specs.Lasso.{Lasso, meets};
ghost use Rattle.ltl_formula.specs.LetterLoop.{LetterLoop, holds};
ghost use Rattle.letter_space.specs.SpaceTree.{SpaceTree, IsSpace};
ghost use Rattle.letter_space.specs.Bits.{HasBits};
ghost use Rattle.underapprox.specs.LetterForm.{letter_form};
ghost use Rattle.underapprox.specs.LetterLasso.{AreLettersOf};
ghost use Rattle.underapprox.specs.WholeUpdates.{HappeningLoop, AreHappenings, letter_loop, happening_lasso};

/// Where the letters of a loop say what holds in a run, a formula whose atoms have bits holds at
/// the same positions of the run as its letter form of the loop.
pub fn letters_say_what_holds()
    ensures { (space : SpaceTree) (formula : FormulaTree) (run : Lasso) (loop : LetterLoop) →
        AreLettersOf space run loop → HasBits space formula → (i : ℕ) → IsPosition run.shape i →
        holds loop (letter_form space formula) i ≡ meets run formula i }
{}

/// Where each signal takes one of its choices at each position, a formula holds where its letter
/// form holds of the letters: a test by the truth of the predicate term, an update where the signal
/// takes that term.
pub fn whole_updates_are_read()
    ensures { (space : SpaceTree) (formula : FormulaTree) (loop : HappeningLoop) →
        IsSpace space → AreHappenings space loop → (i : ℕ) →
        holds (letter_loop space loop) (letter_form space formula) i
        ≡ meets (happening_lasso space loop) formula i }
{}
