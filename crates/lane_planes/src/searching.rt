//! Bits that are set, and letters that match.

ghost use Rattle.std.specs.Prelude.{◌≡◌, ℕ, ◌*◌, ◌<◌, ◌≤◌, ◌^◌, ◌+◌, ◌/◌, true, false, map, length, MatchBool, IfSome, IfNone, slice_get};
ghost use Rattle.std.specs.Option.{option_map_or};
ghost use Rattle.std.specs.Simd.Lanes.{chunk, mask_l};
ghost use Rattle.lane_planes.specs.Planes.{has_bit, is_match};

use std::simd::prelude::*;

/// Whether any bit is set.
pub fn any_bit(plane: &[u64]) -> bool
    ensures { MatchBool result ((i : ℕ) × (has_bit plane.now i ≡ true)) ((i : ℕ) → has_bit plane.now i ≡ false) }
{
    for word in plane {
        if *word != 0 {
            return true;
        }
    }
    false
}

/// The least bit that is set, of a plane whose bits can be numbered.
pub fn first_bit(plane: &[u64]) -> Option<u64>
    requires { length plane.now ≤ 2 ^ 58 }
    ensures some { IfSome result (λ i. (has_bit plane.now i ≡ true) × ((j : ℕ) → j < i → has_bit plane.now j ≡ false)) }
    ensures none { IfNone result ((i : ℕ) → has_bit plane.now i ≡ false) }
{
    let mut at = 0;
    while at < plane.len() {
        if plane[at] != 0 {
            return Some(at as u64 * 64 + u64::from(plane[at].trailing_zeros()));
        }
        at += 1;
    }
    None
}

/// How many letters one word of a plane is for.
const LETTERS: usize = 64;

/// Sets the bits of the letters that have, of the bits that are cared for, those that are wanted.
pub fn matching(letters: &[u64], care: u64, want: u64, out: &mut [u64])
    requires { length out.old ≡ (length letters.now + 63) / 64 }
    ensures { (i : ℕ) → has_bit out.new i ≡ option_map_or (is_match care want) (slice_get letters.now i) false }
{
    let mut word = 0;
    while word < out.len() {
        out[word] = matches_from(letters, word * LETTERS, care, want);
        word += 1;
    }
}

/// The matches among the letters from one on, at most 64 of them, as bits.
#[inline(always)]
fn matches_from(letters: &[u64], from: usize, care: u64, want: u64) -> u64
    requires { from < length letters.now }
    ensures { result ≡ mask_l (map (is_match care want) (chunk from LETTERS letters.now)) }
{
    if letters.len() - from >= LETTERS {
        matches_of_word(letters, from, care, want)
    } else {
        matches_of_rest(&letters[from..], care, want)
    }
}

/// The matches among 64 letters, as bits.
#[inline(always)]
fn matches_of_word(letters: &[u64], from: usize, care: u64, want: u64) -> u64
    requires { from + LETTERS ≤ length letters.now }
    ensures { result ≡ mask_l (map (is_match care want) (chunk from LETTERS letters.now)) }
{
    let cared = u64x64::from_slice(&letters[from..]) & u64x64::splat(care);
    cared.simd_eq(u64x64::splat(want)).to_bitmask()
}

/// The matches among fewer letters, as bits.
fn matches_of_rest(letters: &[u64], care: u64, want: u64) -> u64
    requires { length letters.now < LETTERS }
    ensures { result ≡ mask_l (map (is_match care want) letters.now) }
{
    let mut bits = 0;
    let mut left = letters.len();
    while left > 0 {
        left -= 1;
        bits = 2 * bits + u64::from(letters[left] & care == want);
    }
    bits
}
