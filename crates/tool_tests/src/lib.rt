//! Tests of what `tsl` says.
#![tactic(auto)]

#[cfg(test)]
mod check_tests;
#[cfg(test)]
mod devices;
#[cfg(test)]
mod exchange_tests;
#[cfg(test)]
mod failing_tests;
#[cfg(test)]
mod gen_tests;
#[cfg(test)]
mod machine_word_tests;
#[cfg(test)]
mod run_tests;
#[cfg(test)]
mod search_tests;
#[cfg(test)]
mod top_tests;
