//! The command `circuit`.

ghost use Rattle.std.specs.Prelude.{◌≤◌, ◌^◌, length, IfOk};
ghost use Rattle.tsl_terms.specs.SpecView.{spec_tree};
ghost use Rattle.program_tree.specs.ProgramView.{program_tree};
ghost use Rattle.program_check.specs.Verdicts.{HasFewBits, IsOverBits};
ghost use Rattle.exchange_commands.specs.Circuit.{CircuitOutcome, TellsCircuit};

use base_library::NoMemory;
use checking_commands::{Judged, accepted_program};
use circuit_text::write_circuit;
use control_flow_model::controller_of;
use controller_circuits::circuit_of;
use letter_space::space_of;
use program_tree::Program;
use std::alloc::Global;
use tool_io::{Reply, Status};
use tsl_terms::Spec;

/// What `circuit` replies to these bytes: a circuit of the controller of their program, where it is accepted
/// under their specification for annotations within a bound; otherwise what `check` replies.
pub fn circuit(alloc: Global, bound: u32, bytes: &[u8]) -> Result<Reply, NoMemory>
    requires { length bytes.now ≤ 2 ^ 24 }
    ensures { IfOk result (CircuitOutcome bound bytes.now) }
{
    let judged = accepted_program(alloc, bound, bytes)?;
    match judged {
        Judged::Accepted(spec, program) => circuit_reply(alloc, &spec, &program),
        Judged::Replied(reply) => Ok(reply),
    }
}

/// The text of a circuit of the program's controller.
fn circuit_reply(alloc: Global, spec: &Spec, program: &Program) -> Result<Reply, NoMemory>
    requires over { IsOverBits (spec_tree spec.now) (program_tree program.now) }
    requires few_states { length program.now.states ≤ 64 }
    ensures { IfOk result (TellsCircuit (spec_tree spec.now) (program_tree program.now)) }
{
    // An accepted program has a specification within the limits of bits, so that only memory can be wanting.
    let Ok(space) = space_of(alloc, spec) else {
        return Err(NoMemory);
    };
    let controller = controller_of(alloc, program, &space)?;
    let circuit = circuit_of(alloc, &controller, &space)?;
    let text = write_circuit(alloc, &circuit)?;
    Ok(Reply::new(Status::Done, text))
}
