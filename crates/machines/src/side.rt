//! Sides of a specification.

/// Whose machine is looked for.
#[derive(Debug, Clone, Copy, PartialEq, Eq)]
pub enum Side {
    /// A controller, which chooses what is done.
    Controller,
    /// An environment, which decides what is true.
    Environment,
}
