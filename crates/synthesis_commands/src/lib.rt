//! The replies of the commands that search: `synth`, `prove` and `gen`.
//!
//! `synth` replies to the bytes of a specification with a program, with the reason why there is none
//! of the size, or with the trace of a budget that is spent (`SynthOutcome`, `specs/Synth.antt`).
//! `prove` replies with a refutation of the encoding of the question for a controller, that one
//! answers it, or with a trace (`ProveOutcome`, `specs/Prove.antt`); its numbers are those of
//! `specs/QuestionRanges.antt`. `generate` replies to a number with the summary of the specification
//! that its text spells (`GenOutcome`, `specs/Gen.antt`). Each of them tells a refusal of its text at
//! its place, and a limit that is passed.
#![tactic(auto)]

mod generating;
mod proving;
mod synthesis;

pub use generating::generate;
pub use proving::{prove, whole_text};
pub use synthesis::synth;
