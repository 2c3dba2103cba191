//! Tests of texts of tables and inputs, and of words beside tables.
#![tactic(auto)]

#[cfg(test)]
mod tables;
#[cfg(test)]
mod words;
