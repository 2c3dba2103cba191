//! How large a formula may be.

/// How many variables a formula may have.
pub const MOST_VARIABLES: u64 = 1_048_576;

/// How many clauses a formula may have.
pub const MOST_CLAUSES: u64 = 2_000_000;
