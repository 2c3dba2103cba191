//! Truths at the positions of a loop, as planes.

ghost use Rattle.std.specs.Prelude.{◌≡◌, ℕ, ◌+◌, ◌*◌, ◌<◌, ◌≤◌, true, false, Bool, length, slice_index_or, IfOk};
ghost use Rattle.lane_planes.specs.Planes.{has_bit};
ghost use Rattle.position_planes.specs.Positions.{IsPlaneOf, bit_of, words_of};
ghost use Rattle.position_planes.specs.Carries.{word_bit};

use crate::operators::negated;
use base_library::NoMemory;
use std::alloc::Global;

/// How many positions one word is for.
const WORD: usize = 64;

/// The plane of the truths at positions, in their order.
pub fn plane_of(alloc: Global, truths: &[bool]) -> Result<Vec<u64>, NoMemory>
    ensures { IfOk result
        (λ plane. IsPlaneOf (length truths.now) (λ i. slice_index_or truths.now i false) plane.items) }
{
    let words = truths.len() / WORD + 1;
    let mut plane = Vec::with_capacity(alloc, words)?;
    for place in 0..words {
        plane.push(word_of(truths, place))?;
    }
    Ok(plane)
}

/// The word at a place of the plane of these truths. Each truth goes in at the lowest bit, and those before it move up.
fn word_of(truths: &[bool], place: usize) -> u64
    requires { 64 * place ≤ length truths.now }
    ensures { (j : ℕ) → j < 64 → place * 64 + j < length truths.now →
        word_bit result j ≡ slice_index_or truths.now (bit_of (length truths.now) (place * 64 + j)) false }
{
    let end = truths.len() - place * WORD;
    let start = end.saturating_sub(WORD);
    let mut word = 0u64;
    for i in start..end {
        word = 2 * word + u64::from(truths[i]);
    }
    word
}

/// The plane of what holds at each of so many positions.
pub fn everywhere(alloc: Global, positions: usize) -> Result<Vec<u64>, NoMemory>
    ensures { IfOk result (λ plane. IsPlaneOf positions (λ _. true) plane.items) }
{
    Ok(negated(nowhere(alloc, positions)?))
}

/// The plane of what holds at none of so many positions.
pub fn nowhere(alloc: Global, positions: usize) -> Result<Vec<u64>, NoMemory>
    ensures { IfOk result (λ plane. IsPlaneOf positions (λ _. false) plane.items) }
{
    vec![in alloc; 0; positions / WORD + 1]
}

/// What holds at a position, of a plane of so many.
pub fn holds_at(plane: &[u64], positions: usize, position: usize) -> bool
    requires within { position < positions }
    requires size { length plane.now ≡ words_of positions }
    ensures { (a : ℕ → Bool) → IsPlaneOf positions a plane.now → result ≡ a position }
{
    is_set(plane, positions - 1 - position)
}

/// Whether a bit is set.
pub(crate) fn is_set(plane: &[u64], bit: usize) -> bool
    requires { bit < 64 * length plane.now }
    ensures { result ≡ has_bit plane.now bit }
{
    plane[bit / WORD] >> (bit % WORD) & 1 == 1
}
