//! Orders of graphs.
//!
//! A graph has for each number, from 0 on, the numbers that it goes to.
//!
//! - `order` gives the numbers in an order in which each goes only to earlier ones, if there is one.
//! - `first_on_cycle` gives the first number that reaches itself (`specs/Reaching.antt`).
#![tactic(auto)]

mod searching;

pub use searching::{first_on_cycle, order};
