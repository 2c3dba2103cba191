//! What stands at a place of a trail.

use clause_core::Literal;

/// A literal that is set.
#[derive(Clone, Copy)]
pub struct Entry {
    /// The literal.
    pub literal: Literal,
    /// The level at which it was set.
    pub level: u32,
    /// The number of the clause that forced it; none where it was decided.
    pub reason: Option<u32>,
}
