//! Laws of bits and letters: each function does nothing, and its contract is the law.

ghost use Rattle.std.specs.Prelude.{◌≡◌, ℕ, ◌<◌, ◌^◌, List, Some};
ghost use Rattle.tsl_terms.specs.FormulaTree.{Atom};
ghost use Rattle.tsl_terms.specs.SpecTree.{SpecTree, whole_formula};
ghost use Rattle.tsl_terms.specs.Laws.{FormulasFit};
ghost use Rattle.ltl_formula.specs.Cubes.{has_bit};
ghost use Rattle.letter_space.specs.SpaceTree.{SpaceTree, IsSpace};
ghost use Rattle.letter_space.specs.SpecSpace.{spec_space};
ghost use Rattle.letter_space.specs.Bits.{bit_of_atom, HasBits};
ghost use Rattle.letter_space.specs.Letters.{valuation_count, ArePicks, letter_of, atom_holds_of};

/// Each atom of a specification's whole formula has a bit, where the formulas fit the names.
pub fn specifications_have_bits()
    ensures { (spec : SpecTree) → FormulasFit spec → HasBits (spec_space spec) (whole_formula spec) }
{}

/// The letter of a valuation and a choice of each signal has the bit of an atom exactly where the
/// atom holds of them, and it is a word of 64 bits.
pub fn letters_show_what_holds()
    ensures bits { (space : SpaceTree) (valuation : ℕ) (picks : List ℕ) → IsSpace space →
        valuation < valuation_count space → ArePicks space.controlled picks →
        (a : Atom) (b : ℕ) → bit_of_atom space a ≡ Some b →
        has_bit b (letter_of space valuation picks) ≡ atom_holds_of space valuation picks a }
    ensures word { (space : SpaceTree) (valuation : ℕ) (picks : List ℕ) → IsSpace space →
        valuation < valuation_count space → ArePicks space.controlled picks →
        letter_of space valuation picks < 2 ^ 64 }
{}
