//! Spaces: which predicate term or choice each bit of a letter stands for.

ghost use Rattle.std.specs.Prelude.{◌≡◌, position};
ghost use Rattle.tsl_terms.specs.TermTree.{probe_tree};
ghost use Rattle.tsl_terms.specs.SameTree.{same_probe_tree};
ghost use Rattle.letter_space.specs.SpaceTree.{IsSpace};
ghost use Rattle.letter_space.specs.ControlledView.{space_with};

use crate::controlled::Controlled;
use crate::limits::MOST_VECTORS;
use crate::picking::{picks_of, vector_count};
use base_library::{NoMemory, Sequence};
use std::alloc::Global;
use tsl_terms::{Probe, Term, same_probe};

/// Which predicate term or choice each bit of a letter stands for: first the predicate terms, in
/// their order, and then the choices of each controlled signal.
#[derive(Drop)]
pub struct Space {
    /// The predicate terms.
    pub predicates: Sequence<Probe>,
    /// The cells and then the outputs, with their choices.
    pub controlled: Sequence<Controlled>,
    pub ghost is_space: { IsSpace (space_with predicates controlled) },
}

impl Space {
    ghost use Rattle.std.specs.Prelude.{◌≡◌, ◌<◌, Some, IfOk, IfSome};
    ghost use Rattle.tsl_terms.specs.TermTree.{term_tree, probe_tree};
    ghost use Rattle.letter_space.specs.SpaceView.{space_tree};
    ghost use Rattle.letter_space.specs.Bits.{bit_of_probe, bit_of_update};
    ghost use Rattle.letter_space.specs.Letters.{valuation_count, ArePicks, letter_of};
    ghost use Rattle.letter_space.specs.Vectors.{vector_count, vectors_of, picks_of};

    /// How many valuations there are: a valuation is a number below that, whose bits are the truths
    /// of the predicate terms. It takes no memory.
    pub fn valuations(&self) -> u32
        ensures { result ≡ valuation_count (space_tree self.now) }
    {
        1 << self.predicates.len()
    }

    /// How many vectors there are: a vector picks a choice of each signal. `None` where there are
    /// more than 1,024. It takes no memory.
    pub fn vectors(&self) -> Option<u32>
        ensures { result ≡ vectors_of (space_tree self.now) }
    {
        let mut count = 1;
        for controlled in self.controlled.as_slice() {
            count *= controlled.choices.len() as u32;
            if count > MOST_VECTORS {
                return None;
            }
        }
        Some(count)
    }

    /// The choices that the vector with a number picks, by their places among the choices of each signal.
    pub fn picks(&self, alloc: Global, vector: u32) -> Result<Vec<u32>, NoMemory>
        requires { vector < vector_count (space_tree self.now).controlled }
        ensures { IfOk result (λ picks. picks.items ≡ picks_of (space_tree self.now).controlled vector) }
    {
        let signals = self.controlled.as_slice();
        picks_of(alloc, signals, vector_count(signals), vector)
    }

    /// The bit of a probe: `None` where it is no predicate term. It takes no memory.
    pub fn test_bit(&self, probe: &Probe) -> Option<u32>
        ensures { result ≡ bit_of_probe (space_tree self.now) (probe_tree probe.now) }
    {
        let place = place_of_probe(self.predicates.as_slice(), probe)?;
        Some(place as u32)
    }

    /// The bit of an update: `None` where the term is no choice of the signal. It takes no memory.
    pub fn update_bit(&self, signal: u32, term: &Term) -> Option<u32>
        ensures { result ≡ bit_of_update (space_tree self.now) signal (term_tree term.now) }
    {
        for controlled in self.controlled.as_slice() {
            if controlled.signal == signal {
                return controlled.bit_of(term);
            }
        }
        None
    }

    /// The letter of a valuation and a choice of each signal, by its place among the signal's
    /// choices. It takes no memory.
    pub fn letter(&self, valuation: u32, picks: &[u32]) -> u64
        requires { ArePicks (space_tree self.now).controlled picks.now }
        ensures { result ≡ letter_of (space_tree self.now) valuation picks.now }
    {
        let mut letter = u64::from(valuation);
        for (controlled, pick) in self.controlled.as_slice().iter().zip(picks) {
            letter |= 1 << (controlled.first + *pick);
        }
        letter
    }
}

/// The place of a probe among some.
fn place_of_probe(probes: &[Probe], probe: &Probe) -> Option<usize>
    ensures { result ≡ position (λ p. same_probe_tree (probe_tree p) (probe_tree probe.now)) probes.now }
{
    probes.iter().position(|p| same_probe(p, probe))
}
