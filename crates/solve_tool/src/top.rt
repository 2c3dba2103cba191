//! The top call.

ghost use Rattle.std.specs.Prelude.{◌≡◌, map, string_bytes, IsTrue, IsNone, IfOk};
ghost use Rattle.tsl_io.specs.Effects.{effect};
ghost use Rattle.solve_tool.specs.Ends.{IsSolverReply, SolverEnds, WasFlushed};
ghost use Rattle.solve_tool.specs.Numbers.{is_solved};
ghost use Rattle.solve_tool.specs.Promise.{IsSolved};
ghost use Rattle.solve_tool.specs.Requests.{request_of};

use crate::refusal::Refusal;
use crate::request::{MOST_BYTES, request_of};
use crate::solver::reply_to_read;
use base_library::NoMemory;
use cnf_reader::CnfReader;
use std::alloc::Global;
use tool_io::{Reply, Status, tell};
use tsl_io::{ReadError, Sink, Source, read_into};

/// Runs the solver on the words after the program's name.
///
/// The words are `--budget NUMBER` and `--log`, or none, and the source holds a formula in the DIMACS
/// form of at most 268,435,456 bytes. Each text is built whole before its first byte is written. At
/// `Done` some assignment meets all clauses, at `No` none does, and at `Spent` as many clauses as the
/// budget were learnt and nothing is known; the answer went to `out`. At `Usage`, `Reading`,
/// `Large` and `ReadFault` one line went to `err`. At `WriteFault` some first bytes of the one text
/// went to its sink, and at `Memory` nothing was written.
pub fn solve<S: Source, O: Sink, E: Sink>(
    alloc: Global,
    words: &[String],
    source: &mut S,
    out: &mut O,
    err: &mut E,
) -> Status
    // The status and what stands in the sinks are those of an outcome on the bytes of the source.
    ensures answers { SolverEnds (map string_bytes words.now)
        (effect S.left S.faults source.old source.new)
        (effect O.written O.faults out.old out.new)
        (effect E.written E.faults err.old err.new) result }

    // What an answer promises of those bytes and of the text that was written: the headline.
    ensures promises { IsTrue (is_solved result) →
        IsSolved (map string_bytes words.now) (effect S.left S.faults source.old source.new)
        (effect O.written O.faults out.old out.new) result }

    // Words that ask for nothing leave the source as it was.
    ensures unread { IsNone (request_of (map string_bytes words.now)) → source.new ≡ source.old }

    // What was written was handed on.
    ensures handed_on { WasFlushed result (O.flushed out.new) (E.flushed err.new) }
{
    tell(reply_to(alloc, words, source), out, err)
}

/// What a run replies, before anything is written.
fn reply_to<S: Source>(alloc: Global, words: &[String], source: &mut S) -> Result<Reply, NoMemory>
    ensures replies { IfOk result
        (IsSolverReply (map string_bytes words.now) (effect S.left S.faults source.old source.new)) }
    ensures unread { IsNone (request_of (map string_bytes words.now)) → source.new ≡ source.old }
{
    let Some(request) = request_of(words) else {
        return Refusal::OtherWords.reply(alloc);
    };
    let mut reader = CnfReader::new(alloc)?;
    match read_into(alloc, source, MOST_BYTES, &mut reader) {
        Ok(()) => reply_to_read(alloc, request, reader),
        Err(ReadError::TooLong) => Refusal::TooManyBytes(MOST_BYTES).reply(alloc),
        Err(ReadError::Fault) => Refusal::Unread.reply(alloc),
        Err(ReadError::NoMemory) => Err(NoMemory),
    }
}
