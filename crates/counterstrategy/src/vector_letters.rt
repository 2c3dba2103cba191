//! The letters of what vectors pick.

ghost use Rattle.std.specs.Prelude.{◌≡◌, ◌<◌, IfOk};
ghost use Rattle.letter_space.specs.SpaceView.{space_tree};
ghost use Rattle.letter_space.specs.Vectors.{vector_count};
ghost use Rattle.counterstrategy.specs.internal.DualAsking.{vector_letter, vector_letters};

use base_library::NoMemory;
use letter_space::Space;
use std::alloc::Global;

/// The letter of what a vector picks, where no predicate term is true.
fn letter_of_vector(alloc: Global, space: &Space, vector: u32) -> Result<u64, NoMemory>
    requires { vector < vector_count (space_tree space.now).controlled }
    ensures { IfOk result (λ letter. letter ≡ vector_letter (space_tree space.now) vector) }
{
    let picks = space.picks(alloc, vector)?;
    Ok(space.letter(0, picks.as_slice()))
}

/// The letters of all vectors, of which there are so many.
pub(crate) fn letters_of_vectors(
    alloc: Global,
    space: &Space,
    vectors: u32,
) -> Result<Vec<u64>, NoMemory>
    requires vectors { vectors ≡ vector_count (space_tree space.now).controlled }
    ensures { IfOk result (λ letters. letters.items ≡ vector_letters (space_tree space.now) vectors) }
{
    let mut letters = Vec::new(alloc);
    for u in 0..vectors {
        letters.push(letter_of_vector(alloc, space, u)?)?;
    }
    Ok(letters)
}
