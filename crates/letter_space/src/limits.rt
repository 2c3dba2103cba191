//! How many bits and vectors there may be.

/// How many predicate terms a specification may have.
pub const MOST_PREDICATES: usize = 10;

/// How many bits a letter may have.
pub const MOST_BITS: usize = 64;

/// How many vectors may be counted.
pub const MOST_VECTORS: u32 = 1_024;
