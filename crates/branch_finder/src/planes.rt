//! Planes of bits: words of 64 bits, the least bit first.

ghost use Rattle.std.specs.Prelude.{◌≡◌, ◌*◌, ◌<◌, ◌≤◌, ◌^◌, ◌||◌, ◌==◌, ℕ, length, IfOk, false};
ghost use Rattle.lane_planes.specs.Planes.{has_bit};
ghost use Rattle.branch_finder.specs.internal.Planes.{words_of};

use base_library::NoMemory;
use std::alloc::Global;

/// A plane of so many bits, none of which is set.
pub(crate) fn no_bits(alloc: Global, bits: usize) -> Result<Vec<u64>, NoMemory>
    requires few { bits ≤ 2 ^ 32 }
    ensures size { IfOk result (λ plane. length plane.items ≡ words_of bits) }
    ensures clear { IfOk result (λ plane. (i : ℕ) → has_bit plane.items i ≡ false) }
{
    Ok(vec![in alloc; 0; (bits + 63) / 64]?)
}

/// Whether a plane has a bit.
pub(crate) fn has_bit(plane: &[u64], bit: usize) -> bool
    requires within { bit < 64 * length plane.now }
    ensures { result ≡ has_bit plane.now bit }
{
    plane[bit / 64] >> (bit % 64) & 1 == 1
}

/// Sets a bit of a plane.
pub(crate) fn set_bit(plane: &mut [u64], bit: usize)
    requires within { bit < 64 * length plane.old }
    ensures size { length plane.new ≡ length plane.old }
    ensures set { (i : ℕ) → has_bit plane.new i ≡ (has_bit plane.old i || (i == bit)) }
{
    plane[bit / 64] |= 1 << (bit % 64);
}
