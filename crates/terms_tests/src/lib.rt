//! Tests of terms and formulas in long lists, and of the values of terms.
#![tactic(auto)]

#[cfg(test)]
mod evaluation;
#[cfg(test)]
mod terms;
