//! Laws of free terms and their images.

ghost use Rattle.std.specs.Prelude.{◌≡◌, ℕ, List, Option, Some, option_and_then};
ghost use Rattle.tsl_terms.specs.TermTree.{TermTree};
ghost use Rattle.tsl_terms.specs.FreeTree.{FreeTree};
ghost use Rattle.tsl_terms.specs.Unfolding.{with_leaves};
ghost use Rattle.tsl_terms.specs.Value.{Meanings, value};
ghost use Rattle.interp_core.specs.FreeMeanings.{free_meanings};
ghost use Rattle.interp_core.specs.Image.{image_of};

use crate::algebra::Algebra;

/// To evaluate a term in free terms and take the image is to evaluate the term where each signal has the image of
/// its free term. Where signals have none, neither has a value (`calls`).
pub fn images_are_values<A: Algebra>()
    ensures free { (cells : List ℕ) (leaves : ℕ → FreeTree) (term : TermTree) →
        value (free_meanings cells) (λ s. Some (leaves s)) term ≡ Some (with_leaves leaves term) }
    ensures images { (meanings : Meanings A.Seen) (at : ℕ → ℕ → Option A.Seen) (leaves : ℕ → FreeTree) (term : TermTree) →
        image_of meanings at (with_leaves leaves term) ≡ value meanings (λ s. image_of meanings at (leaves s)) term }
    ensures calls { (cells : List ℕ) (meanings : Meanings A.Seen) (rows : ℕ → ℕ → Option A.Seen) (at : ℕ → Option FreeTree)
        (term : TermTree) → option_and_then (image_of meanings rows) (value (free_meanings cells) at term)
        ≡ value meanings (λ s. option_and_then (image_of meanings rows) (at s)) term }
{}
