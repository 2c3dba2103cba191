//! Gates.

/// A gate: it is true where both its literals are. Literal 2v is variable v, 2v + 1 its negation, 0 is
/// false and 1 is true.
#[derive(Clone, Copy, PartialEq, Eq, Hash)]
pub struct Gate {
    /// A literal of a variable before the gate's own.
    pub left: u32,
    /// The other one.
    pub right: u32,
}
