//! The choices that vectors pick.

ghost use Rattle.std.specs.Prelude.{◌≡◌, ◌<◌, ◌≤◌, map, IsTrue, IfOk};
ghost use Rattle.std.specs.List.{list_all};
ghost use Rattle.letter_space.specs.declared.limits.TheConstants.{MOST_BITS};
ghost use Rattle.letter_space.specs.SpaceTree.{choice_count, has_choice};
ghost use Rattle.letter_space.specs.ControlledView.{controlled_tree};
ghost use Rattle.letter_space.specs.Vectors.{vector_count, picks_of};

use crate::controlled::Controlled;
use base_library::NoMemory;
use std::alloc::Global;

/// How many vectors signals have.
pub(crate) fn vector_count(signals: &[Controlled]) -> u64
    requires few { choice_count (map controlled_tree signals.now) ≤ MOST_BITS }
    requires chosen { IsTrue (list_all has_choice (map controlled_tree signals.now)) }
    ensures { result ≡ vector_count (map controlled_tree signals.now) }
{
    let mut count = 1;
    for signal in signals {
        count *= signal.choices.len() as u64;
    }
    count
}

/// The choices that a vector of so many picks.
pub(crate) fn picks_of(
    alloc: Global,
    signals: &[Controlled],
    vectors: u64,
    vector: u32,
) -> Result<Vec<u32>, NoMemory>
    requires vectors { vectors ≡ vector_count (map controlled_tree signals.now) }
    requires vector { vector < vectors }
    ensures { IfOk result (λ picks. picks.items ≡ picks_of (map controlled_tree signals.now) vector) }
{
    let mut picks = Vec::new(alloc);
    let mut left = vectors;
    let mut rest = u64::from(vector);
    for signal in signals {
        left /= signal.choices.len() as u64;
        picks.push((rest / left) as u32)?;
        rest %= left;
    }
    Ok(picks)
}
