//! Letter loops as they are found.

ghost use Rattle.std.specs.Prelude.{◌<◌, length};

use base_library::Sequence;

/// Letters that follow each other, the last of which goes on to an earlier one or to itself.
#[derive(Drop)]
pub struct LetterLoop {
    /// The letters.
    pub letters: Sequence<u64>,
    /// The place of the letter that follows the last one.
    pub back: u32,
    pub ghost goes_back: { back < length letters },
}
