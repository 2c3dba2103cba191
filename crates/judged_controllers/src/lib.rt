//! Controllers from any search, judged.
//!
//! `small_automaton` gives an automaton of a formula that means the same as the negation of a specification's whole
//! formula (`specs/Rewritten`). `judged_program` makes the program of a machine and judges it by that automaton: where it
//! gives a program, every run of it meets the specification; where it gives none, it says nothing. This rests on the law
//! `judged_programs_meet`. `controlled` asks `machine_finder` for the machine.
#![tactic(auto)]

mod automata;
mod controlling;
mod judging;
mod laws;

pub use automata::small_automaton;
pub use controlling::controlled;
pub use judging::judged_program;
pub use laws::judged_programs_meet;
