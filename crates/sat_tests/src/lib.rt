//! Tests of the solver: clauses, the trail, `solve`, and the solver as a program where a device fails.
#![tactic(auto)]

#[cfg(test)]
mod clauses;
#[cfg(test)]
mod running;
#[cfg(test)]
mod solving;
#[cfg(test)]
mod trails;
