//! The top call of `tsl`, and the laws of what it replies.
//!
//! `tsl` takes the words after the program's name, a source and two sinks, and answers a `Status`.
//! Its contract is the promise of the whole tool. Its words, in the order to read them:
//!
//! 1. `Status` (`tool_io`): nine ways to end. `Done`, `No` and `Spent` are answers, whose
//!    text goes to the first sink; the text of every other one goes to the second (`is_answer`).
//! 2. `Task` (`command_words`): a command with its numbers. `ParsesTo words task` says that the words
//!    ask for it: the first names its command, and its numbers are those that `clap`'s definition of
//!    that command gives its arguments; `are_taken` says whether `clap` takes the words at all
//!    (`specs/Commands.antt` of `command_words`). `most_bytes` is what a task reads at most, and
//!    `ReadNothing` says that nothing is read (`specs/Tasks.antt`).
//! 3. `Reply` (`tool_io`): a status and one text. `fault_reply` (`command_faults`) is that of a fault.
//! 4. `Outcome words bytes reply` (`specs/Outcome.antt`): what the words and the bytes of the
//!    source may lead to. For each task it goes on to `SynthOutcome`, `ProveOutcome` or `GenOutcome`
//!    (`specs/Synth.antt`, `specs/Prove.antt` and `specs/Gen.antt` of `synthesis_commands`), or to
//!    `CheckOutcome`, `RunOutcome` or `RecheckOutcome` (`specs/Check.antt`, `specs/Run.antt` and
//!    `specs/Recheck.antt` of `checking_commands`), or to `CircuitOutcome`, `AutomatonOutcome` or
//!    `AcceptsOutcome` (`specs/Circuit.antt`, `specs/Automaton.antt` and `specs/Accepts.antt` of
//!    `exchange_commands`).
//! 5. `Effect` (`specs/Effects.antt` of `tsl_io`): the bytes and the count of faults of a source
//!    or a sink, before the run and after it, and what can be said of them: untouched, written
//!    whole, cut off by a fault.
//! 6. `Ends` (`specs/Ends.antt`, by `EndsIn` of `tool_io`): the three ways in which a run ends. The text
//!    of a reply was written whole, or it was cut off, or memory ran out. The reply is an outcome on the bytes of
//!    the source: on those that the source tells, and on some bytes where it tells none, as
//!    standard input does.
//! 7. `Promise` (`specs/Promise.antt`): what the answer to each task promises of the bytes and
//!    of the text that was written.
//!    - `synth`, at `Done`: the text spells a program over the names of the specification that the
//!      bytes spell, and every closed run of that program, under every finite interpretation and
//!      every input loop, meets the specification's whole formula. At `No`: no controller of the
//!      size that was asked for has an annotation. At `Spent`: the text tells the automaton of the
//!      question, and clauses that are a trace of its encoding.
//!    - `check`, at `Done`: the bytes spell a specification and a program of which the same holds
//!      as of one that `synth` writes, and its verdict at the bound that was asked is yes. At `No`:
//!      the verdict that is written applies. At both the specification is within the limits of bits.
//!    - `run`, at `Done`: the text is the closed run of the program under the interpretation and over
//!      the inputs that the bytes spell, and the formula of each window and that of the specification
//!      hold in it. At `No`: one of them fails, or the program has other signals than the specification.
//!    - `prove`, at `Done`: the text spells a refutation of the encoding, which `recheck` verifies,
//!      and no controller of the size has an annotation. At `No`: one has. At `Spent` as `synth`.
//!    - `recheck`, at `Done`: no assignment meets all clauses of the formula that the bytes spell.
//!    - `gen`, at `Done`: the program of a controller with as many states as its number, which has an
//!      annotation within the same bound, realizes the specification that the text of this number
//!      spells. At `No`: no such controller has one. At `Spent` as `synth`.
//!    - `circuit`, at `Done`: the bytes spell a specification and a program that is accepted under it
//!      at the bound, and the text is that of a circuit of the program's controller, which from the
//!      digits of each state and under each valuation makes the controller's updates and goes on to the
//!      digits of its next state. At `No` as `check`.
//!    - `automaton`, at `Done`: the text is that of the automaton of the negation of the whole formula
//!      of the specification that the bytes spell.
//!    - `accepts`, at `Done`: the automaton that the bytes spell has a path over the loop of letters that
//!      they spell which turns through a rejecting edge. At `No`: it has none.
//!
//! The clauses of `tsl` say: the status and what stands in the sinks are those of an `Ends`; an
//! answer keeps the `Promise` of the task that the words ask for; where nothing is read the source is
//! as it was; what was written was handed on. What follows from them is said by laws:
//!
//! - `ends_have_causes` gives each status its cause and each counted fault its answer, and
//!   `outcomes_keep_their_promise` says the promise of the outcomes alone.
//! - `answers_come` is completeness (`specs/Answerable.antt`): where the source tells bytes that spell
//!   what the task asks for, no limit is passed and nothing fails, a run ends with an answer to the
//!   task, or memory runs out; `check`, `run`, `recheck`, `circuit` and `accepts` end with yes or no
//!   then, `automaton` with its text, and `synth` with a program or a trace where a controller answers
//!   its first question. `inputs_get_verdicts` says what `check`, `run` and `recheck` reply of the
//!   outcomes alone, and these laws what `synth` and `prove` do:
//! - `searches_are_answered`: within the limits of the work `synth` and `prove` answer each text
//!   that spells a specification. `limits_are_told`: where a limit is passed, that is told.
//!   `controllers_are_not_missed`: where a controller of the size has an annotation within the
//!   bound, neither says that none has. `proofs_are_verified`: `recheck` verifies what `prove`
//!   writes.
//! - `one_specification` says that a text spells at most one specification, and
//!   `plain_updates_are_spelled` that a text of plain updates (`specs/Form.antt`), whose definition
//!   does not use the grammar, spells the same specification by the grammar.
//! - `verdicts_are_those_of_logs` says that `recheck` says yes exactly where the log is accepted and
//!   no exactly where it is refused; `verdicts_are_those_of_runs` says the same of `run` and the
//!   formulas that it judges.
//! - `circuits_run_as_programs` says that from the start, where its latches are false, a written circuit
//!   makes the updates of the program's controller, one step after another. `automata_are_read` says that
//!   `accepts` reads a written automaton, and says yes exactly where the formula fails on the loop.
//! - Definitions cite limits as the constants of the code; `limits_are_these` says which numbers
//!   they are.
//!
//! `check`, `circuit`, `run` and `accepts` find the parts of their input by lines alone
//! (`specs/Check.antt` and `specs/RunParts.antt` of `checking_commands`, `specs/Accepts.antt` of
//! `exchange_commands`). Each refusal of a specification and each limit of the work on it has the line of
//! its fault (`specs/Refusals.antt` of `command_faults`), and so has each refusal of another part
//! (`specs/RunFaults.antt` of `checking_commands`, `specs/Accepts.antt` of `exchange_commands`).
//!
//! A new command adds a variant of `Task` and its words, a reply with a relation of its own in the
//! crate of its kind, a line of `TaskOutcome`, and its lines of `Promise`.
#![tactic(auto)]

mod completeness;
mod exchange_laws;
mod laws;
mod tasks;
mod top;

pub use completeness::{answers_come, inputs_get_verdicts};
pub use exchange_laws::{automata_are_read, circuits_run_as_programs};
pub use generator::gen_text;
pub use laws::{
    controllers_are_not_missed, ends_have_causes, limits_are_these, limits_are_told,
    one_specification, outcomes_keep_their_promise, plain_updates_are_spelled, proofs_are_verified,
    searches_are_answered, verdicts_are_those_of_logs, verdicts_are_those_of_runs,
    written_programs_do_not_fail,
};
pub use tool_io::Status;
pub use top::tsl;
