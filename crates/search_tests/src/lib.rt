//! Tests of the search for windows, and of the one with the full bound.
#![tactic(auto)]

#[cfg(test)]
mod full;
#[cfg(test)]
mod windows;
