//! Tests of program texts: what is refused of them, and that one is written again as it was.
#![tactic(auto)]

#[cfg(test)]
mod reading;
