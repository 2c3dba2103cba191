//! How many branches there may be.

/// How many pairs of predicate terms on paths of vectors may be looked at.
pub const MOST_BRANCHES: u64 = 10_000_000;
