//! Moves of machines.

/// A letter that a machine allows in a state, and the state to go to.
#[derive(Debug, Clone, Copy, PartialEq, Eq)]
pub struct Move {
    /// The letter.
    pub letter: u64,
    /// The state to go to.
    pub next: u32,
}
