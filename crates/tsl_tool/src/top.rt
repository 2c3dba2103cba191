//! The top call.

ghost use Rattle.std.specs.Prelude.{◌≡◌, ℕ, List, map, string_bytes, IsTrue, IfOk};
ghost use Rattle.command_words.specs.declared.task.Task.{Task};
ghost use Rattle.command_words.specs.Commands.{ParsesTo};
ghost use Rattle.tsl_io.specs.Told.{with_added};
ghost use Rattle.tsl_io.specs.Effects.{effect, ContentsAre};
ghost use Rattle.tool_io.specs.Ends.{HandedOn};
ghost use Rattle.tsl_tool.specs.Ends.{IsReplyTo, Ends};
ghost use Rattle.tsl_tool.specs.Outcome.{TaskOutcome};
ghost use Rattle.tsl_tool.specs.Promise.{Promise};
ghost use Rattle.tool_io.specs.Statuses.{is_answer};
ghost use Rattle.tsl_tool.specs.Tasks.{AreFewBytes, ReadNothing, most_bytes};
ghost use Rattle.tsl_tool.specs.internal.TaskRanges.{IsTaskInRange};

use crate::tasks::{most_bytes, search_sizes};
use base_library::NoMemory;
use checking_commands::{check, recheck, run};
use command_faults::fault_reply;
use command_words::{Task, WordsError, task_of};
use exchange_commands::{accepts, automaton, circuit};
use std::alloc::Global;
use synthesis_commands::{generate, prove, synth};
use tool_io::{Reply, Status, tell};
use tsl_io::{ReadError, Sink, Source, read_all};
use tsl_report::{Fault, LimitName};

/// What a run replies, before anything is written.
fn reply_to<S: Source>(alloc: Global, words: &[String], source: &mut S) -> Result<Reply, NoMemory>
    ensures replies { IfOk result
        (IsReplyTo (map string_bytes words.now) (effect S.left S.faults source.old source.new)) }
    ensures unread { ReadNothing (map string_bytes words.now) → source.new ≡ source.old }
{
    match task_of(alloc, words) {
        Ok(task) => reply_to_task(alloc, words, task, source),
        Err(WordsError::Usage) => fault_reply(alloc, &Fault::Usage),
        Err(WordsError::NoMemory) => Err(NoMemory),
    }
}

/// What is replied to a task that these words ask for.
fn reply_to_task<S: Source>(
    alloc: Global,
    words: &[String],
    task: Task,
    source: &mut S,
) -> Result<Reply, NoMemory>
    requires { ParsesTo (map string_bytes words.now) task }
    ensures replies { IfOk result
        (IsReplyTo (map string_bytes words.now) (effect S.left S.faults source.old source.new)) }
    ensures unread { most_bytes task ≡ None → source.new ≡ source.old }
{
    let Some(most_bytes) = most_bytes(task) else {
        return reply_to_bytes(alloc, task, &[]);
    };
    match read_all(alloc, source, most_bytes) {
        Ok(bytes) => reply_to_bytes(alloc, task, &bytes),
        Err(ReadError::TooLong) => {
            fault_reply(alloc, &Fault::Large(LimitName::Text, most_bytes))
        }
        Err(ReadError::Fault) => fault_reply(alloc, &Fault::Read),
        Err(ReadError::NoMemory) => Err(NoMemory),
    }
}

/// What is replied to a task and these bytes.
fn reply_to_bytes(alloc: Global, task: Task, bytes: &[u8]) -> Result<Reply, NoMemory>
    requires in_range { IsTaskInRange task }
    requires few { AreFewBytes (most_bytes task) bytes.now }
    ensures { IfOk result (TaskOutcome task bytes.now) }
{
    match task {
        Task::Synth(sizes) => synth(alloc, search_sizes(sizes), bytes),
        Task::Check(bound) => check(alloc, bound, bytes),
        Task::Run => run(alloc, bytes),
        Task::Prove(sizes) => prove(alloc, sizes, bytes),
        Task::Recheck => recheck(alloc, bytes),
        Task::Gen(n) => generate(alloc, n),
        Task::Circuit(bound) => circuit(alloc, bound, bytes),
        Task::Automaton => automaton(alloc, bytes),
        Task::Accepts => accepts(alloc, bytes),
    }
}

/// Runs `tsl` on the words after the program's name.
///
/// The first word names a command, and `clap` reads the others as its options, in any order: those
/// of `synth` are `--states` and `--env-states` from 1 to 8, `--bound`, one of the words `0` to
/// `15` and `full`, `--env-bound` from 0 to 15, `--depth` from 1 to 3, `--rounds` from 0 to 64 and
/// `--budget` from 1 to 1,000,000; `prove` has `--states`, `--bound` and `--budget`, `check` and
/// `circuit` have `--bound`, `gen` has one number from 1 to 5 instead, and the others have none. `gen`
/// reads nothing. For `synth`, `prove` and `automaton` the source holds a specification of at most
/// 1,048,576 bytes; for `check` and `circuit` a specification and a program, for `run` a specification
/// or nothing, a program, tables or machine words, and inputs, and for `accepts` an automaton, the line
/// `letters` and a loop of letters, of at most 16,777,216 bytes together; for `recheck` a formula in conjunctive normal
/// form, the line `lrat` and a log, of at most 268,435,456 bytes together. Each text is built whole
/// before its first byte is written. At `Done`, `No` and `Spent` a program, a proof, a run, a verdict, a
/// summary, a trace, a circuit or an automaton went to `out`. At `Usage`, `Reading`, `Large` and
/// `ReadFault` one line went to `err`. At `WriteFault` some first bytes of the one text went to its sink,
/// and at `Memory` nothing was written.
pub fn tsl<S: Source, O: Sink, E: Sink>(
    alloc: Global,
    words: &[String],
    source: &mut S,
    out: &mut O,
    err: &mut E,
) -> Status
    // The status and what stands in the sinks are those of an outcome on the bytes of the source.
    ensures answers { Ends (map string_bytes words.now)
        (effect S.left S.faults source.old source.new)
        (effect O.written O.faults out.old out.new)
        (effect E.written E.faults err.old err.new) result }

    // What the answer promises of those bytes and of the text that was written: the headline.
    ensures promises { IsTrue (is_answer result) → (task : Task) × ParsesTo (map string_bytes words.now) task
        × (bytes : List ℕ) × (text : List ℕ) × ContentsAre (S.left source.old) bytes
        × Promise task result bytes text
        × (O.written out.new ≡ with_added text (O.written out.old)) }

    // Where nothing is read the source is left as it was.
    ensures unread { ReadNothing (map string_bytes words.now) → source.new ≡ source.old }

    // What was written was handed on.
    ensures handed_on { HandedOn result (O.flushed out.new) (E.flushed err.new) }
{
    tell(reply_to(alloc, words, source), out, err)
}
