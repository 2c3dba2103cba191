//! Tests of planes of bits at each length, and of the texts of circuits and of loops of letters.
#![tactic(auto)]

#[cfg(test)]
mod circuit_lines;
#[cfg(test)]
mod letters;
#[cfg(test)]
mod planes;
