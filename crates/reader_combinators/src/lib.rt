//! Readers of lists of terminals, for terminals of any type.
//!
//! - `specs/Readers.antt`: what a reader answers, and readers made of others: one after another, a
//!   terminal that closes a form, a list of members, a step as often as it goes on, one level below.
//! - `specs/Exact.antt`: that a reader reads exactly a grammar, and each of its faults is the first.
//! - `proofs/`: that each way to make a reader of others keeps this (`Then`, `Terminals`, `Levels`,
//!   `Iterates`; `Taken` and `Sequels` where no levels are counted), what a loop has read so far
//!   (`MemberLoops`), and what follows of a whole text and of its faults (`Whole`, `WholeTexts`,
//!   `FirstFaults`). `proofs/Examples.antt` has a reader that takes all its laws from these.
#![tactic(auto)]
