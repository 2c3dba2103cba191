//! The operators of formulas.

/// An operator before a formula.
#[derive(Clone, Copy, Debug, PartialEq, Eq)]
pub enum UnaryOperator {
    /// Not, `!`.
    Negation,
    /// At the next position, `X`.
    Next,
    /// At some position from here on, `F`.
    Finally,
    /// At every position from here on, `G`.
    Globally,
}

/// An operator between two formulas.
#[derive(Clone, Copy, Debug, PartialEq, Eq)]
pub enum BinaryOperator {
    /// The left one implies the right one, `->`.
    Implication,
    /// Both or none, `<->`.
    Equivalence,
    /// The left one until the right one, which comes, `U`.
    Until,
    /// The left one until the right one, which may never come, `W`.
    WeakUntil,
    /// The right one until and with the left one, which may never come, `R`.
    Release,
}

/// An operator between two formulas or more.
#[derive(Clone, Copy, Debug, PartialEq, Eq)]
pub enum ManyOperator {
    /// All of them, `&&`.
    Conjunction,
    /// Some of them, `||`.
    Disjunction,
}
