//! Signals with the terms that they may take.

ghost use Rattle.std.specs.Prelude.{◌≡◌, position};
ghost use Rattle.tsl_terms.specs.TermTree.{term_tree};
ghost use Rattle.tsl_terms.specs.SameTree.{same_tree};

use base_library::Sequence;
use tsl_terms::{Term, same_term};

/// A cell or an output, and the terms that it may take.
#[derive(Drop)]
pub struct Controlled {
    /// The signal, by its number.
    pub signal: u32,
    /// The terms that it may take.
    pub choices: Sequence<Term>,
    /// The bit of the first of them; the others have those after it.
    pub first: u32,
}

impl Controlled {
    ghost use Rattle.std.specs.Prelude.{◌≡◌, ◌+◌, ◌<◌, ◌^◌, length};
    ghost use Rattle.tsl_terms.specs.TermTree.{term_tree};
    ghost use Rattle.letter_space.specs.ControlledView.{controlled_tree};
    ghost use Rattle.letter_space.specs.Bits.{bit_of_choice};

    /// The bit of a term among the choices: `None` where it is none of them. It takes no memory.
    pub fn bit_of(&self, term: &Term) -> Option<u32>
        requires { self.now.first + length self.now.choices < 2 ^ 32 }
        ensures { result ≡ bit_of_choice (controlled_tree self.now) (term_tree term.now) }
    {
        let place = place_of_term(self.choices.as_slice(), term)?;
        Some(self.first + place as u32)
    }
}

/// The place of a term among some.
fn place_of_term(terms: &[Term], term: &Term) -> Option<usize>
    ensures { result ≡ position (λ t. same_tree (term_tree t) (term_tree term.now)) terms.now }
{
    terms.iter().position(|t| same_term(t, term))
}
