//! Tests of texts that are written: environments, rounds, and an automaton that was read.
#![tactic(auto)]

#[cfg(test)]
mod automata;
#[cfg(test)]
mod searches;
