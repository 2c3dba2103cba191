//! The replies of the commands that exchange texts with other tools: `circuit`, `automaton` and `accepts`.
//!
//! `circuit` replies to the bytes of a specification and a program with the text of a circuit of the
//! program's controller, where `check` says yes, and otherwise as `check` does (`CircuitOutcome`,
//! `specs/Circuit.antt`). `automaton` replies to those of a specification with the text of the automaton
//! of the negation of its whole formula (`AutomatonOutcome`, `specs/Automaton.antt`). `accepts` replies
//! to those of an automaton and a loop of letters with whether the automaton accepts the loop
//! (`AcceptsOutcome`, `specs/Accepts.antt`; `specs/Letters.antt` says which numbers letters are).
#![tactic(auto)]

mod loop_verdict;
mod negated_automaton;
mod program_circuit;

pub use loop_verdict::accepts;
pub use negated_automaton::automaton;
pub use program_circuit::circuit;
