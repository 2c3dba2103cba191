//! Prints of states: which equalities are true in them.

ghost use Rattle.std.specs.Prelude.{◌≡◌, ◌<◌, ◌≤◌, ◌↔◌, ◌==◌, ◌||◌, ◌&&◌, ℕ, length, bit_and, IfOk};
ghost use Rattle.ltl_formula.specs.Cubes.{has_bit};
ghost use Rattle.letter_space.specs.SpaceView.{space_tree};
ghost use Rattle.machines.specs.MachineView.{environment_tree};
ghost use Rattle.branch_finder.specs.internal.Prints.{AreEqualityBits, ArePrints};

use crate::visiting::add_once;
use base_library::NoMemory;
use letter_space::Space;
use machines::Environment;
use std::alloc::Global;
use tsl_terms::is_equality;

/// Whether a bit is set.
pub(crate) fn is_set(bits: u32, bit: u32) -> bool
    requires within { bit < 32 }
    ensures { result ≡ has_bit bit bits }
{
    bits >> bit & 1 == 1
}

/// What is wanted of what is true in a state: that of the bits of a mask these alone are set.
#[derive(Clone, Copy)]
pub(crate) struct Wanted {
    /// The mask.
    pub(crate) mask: u32,
    /// Those of its bits that are set.
    pub(crate) bits: u32,
}

/// That one bit is as wanted.
pub(crate) fn bit_wanted(bit: u32, wanted: bool) -> Wanted
    requires within { bit < 32 }
    ensures { (truths : ℕ) → (bit_and truths result.mask ≡ result.bits) ↔ (has_bit bit truths ≡ wanted) }
{
    let mask = 1 << bit;
    if wanted {
        return Wanted { mask, bits: mask };
    }
    Wanted { mask, bits: 0 }
}

/// Bits with one more where it belongs there.
fn with_bit_if(bits: u32, bit: u32, belongs: bool) -> u32
    requires within { bit < 32 }
    ensures { (b : ℕ) → has_bit b result ≡ (has_bit b bits || (belongs && (b == bit))) }
{
    if belongs {
        return bits | 1 << bit;
    }
    bits
}

/// The bits of the predicate terms that are equalities.
pub(crate) fn equality_bits(space: &Space, equality: Option<u32>) -> u32
    ensures { AreEqualityBits (space_tree space.now) equality result }
{
    let mut bits = 0;
    for (bit, probe) in space.predicates.as_slice().iter().enumerate() {
        bits = with_bit_if(bits, bit as u32, is_equality(equality, probe));
    }
    bits
}

/// The prints of an environment's states, each once.
pub(crate) fn prints_of(
    alloc: Global,
    environment: &Environment,
    mask: u32,
) -> Result<Vec<u32>, NoMemory>
    ensures { IfOk result (λ prints. ArePrints (environment_tree environment.now) mask prints.items) }
{
    let mut prints = Vec::new(alloc);
    for truths in environment.truths.as_slice() {
        add_once(&mut prints, truths & mask)?;
    }
    Ok(prints)
}
