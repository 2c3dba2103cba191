//! The end of a run: its reply is told.

ghost use Rattle.std.specs.Prelude.{◌≡◌, ◌≢◌, ◌⊎◌, [], Ok, IfOk};
ghost use Rattle.tsl_io.specs.Effects.{effect};
ghost use Rattle.tool_io.specs.Ends.{EndsIn, HandedOn};
ghost use Rattle.tool_io.specs.internal.Sending.{IsSent};

use crate::reply::Reply;
use crate::status::Status;
use base_library::NoMemory;
use tsl_io::{Failed, Sink, write_all_of};

/// Writes a reply to the sink of its status, and gives the status of the run: that of the reply, or
/// `WriteFault` where a call of the sink failed. Where memory ran out before there was a reply, nothing is
/// written, and the status is `Memory`.
pub fn tell<O: Sink, E: Sink>(reply: Result<Reply, NoMemory>, out: &mut O, err: &mut E) -> Status
    requires { IfOk reply (λ told. told.text ≢ []) }

    // What stands in the sinks is of this reply.
    ensures ends { EndsIn (λ told. reply ≡ Ok told) (effect O.written O.faults out.old out.new)
        (effect E.written E.faults err.old err.new) result }

    // A reply that there is is told.
    ensures tells { IfOk reply (λ told. (result ≡ told.status) ⊎ (result ≡ Status.WriteFault)) }

    // What was written was handed on.
    ensures handed_on { HandedOn result (O.flushed out.new) (E.flushed err.new) }
{
    match reply {
        Ok(reply) if reply.status.is_answer() => send(out, &reply),
        Ok(reply) => send(err, &reply),
        Err(NoMemory) => Status::Memory,
    }
}

/// Writes a reply to its sink, and gives the status of the run.
fn send<K: Sink>(sink: &mut K, reply: &Reply) -> Status
    requires says { reply.now.text ≢ [] }
    ensures sent { IsSent reply.now (effect K.written K.faults sink.old sink.new) result }
    ensures handed_on { result ≢ Status.WriteFault → K.flushed sink.new }
{
    match write_all_of(sink, reply.text.as_slice()) {
        Ok(()) => reply.status,
        Err(Failed) => Status::WriteFault,
    }
}
