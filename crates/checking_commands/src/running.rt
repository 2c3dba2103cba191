//! The command `run`.

ghost use Rattle.std.specs.Prelude.{◌≡◌, ◌≤◌, ◌^◌, length, IfOk};
ghost use Rattle.tsl_terms.specs.SpecView.{spec_tree};
ghost use Rattle.program_tree.specs.ProgramView.{program_tree};
ghost use Rattle.flow_program.specs.Reading.{IsReading};
ghost use Rattle.tsl_meaning.specs.Interpretation.{IsInterpretation, rows_of};
ghost use Rattle.checking_commands.specs.Run.{SpellsGiven, SpellsMeaning, given_names, PartsOutcome, InputOutcome, RunOutcome};
ghost use Rattle.checking_commands.specs.internal.RunView.{run_parts, given_spec, GivenFits, AreShort, IsReady, interpretation_read, MeansInPrograms};

use crate::meaning::{Meaning, Refused, read_meaning};
use crate::parting::{Parts, parts_of};
use crate::run_faults::{fault_of_inputs, fault_of_program};
use crate::verdicts::{has_given_signals, other_signals, trace_reply};
use base_library::NoMemory;
use command_faults::{fault_of, fault_reply};
use flow_program::read_program;
use program_tree::Program;
use std::alloc::Global;
use table_interp::read_inputs;
use table_runner::RunError;
use tool_io::Reply;
use tsl_meaning::InputLoop;
use tsl_reader::read_spec;
use tsl_report::{Fault, LimitName};
use tsl_terms::{Names, Spec};

/// The most configurations of a run.
pub const MOST_CONFIGURATIONS: u32 = 65_536;

/// What `run` replies to these bytes: the closed run of their program under their interpretation and
/// over their inputs, with the verdicts on it, or why there is none.
pub fn run(alloc: Global, bytes: &[u8]) -> Result<Reply, NoMemory>
    requires { length bytes.now ≤ 2 ^ 24 }
    ensures { IfOk result (RunOutcome bytes.now) }
{
    match parts_of(bytes) {
        Ok(parts) => reply_to_spec(alloc, &parts),
        Err(head) => fault_reply(alloc, &Fault::Parts(head)),
    }
}

/// What is replied to the parts: first the specification is read, if there is one.
fn reply_to_spec(alloc: Global, parts: &Parts<'_>) -> Result<Reply, NoMemory>
    requires short { AreShort (run_parts parts.now) }
    ensures { IfOk result (PartsOutcome (run_parts parts.now)) }
{
    if parts.spec.is_empty() {
        return reply_to_program(alloc, parts, None, Names::new(alloc));
    }
    match read_spec(alloc, parts.spec) {
        Ok(spec) => {
            let names = spec.names.copy()?;
            reply_to_program(alloc, parts, Some(&spec), names)
        }
        Err(error) => {
            let fault = fault_of(alloc, parts.spec, &error)?;
            fault_reply(alloc, &fault)
        }
    }
}

/// What is replied after the specification: the program is read, with the names that are given.
fn reply_to_program(
    alloc: Global,
    parts: &Parts<'_>,
    spec: Option<&Spec>,
    names: Names,
) -> Result<Reply, NoMemory>
    requires short { AreShort (run_parts parts.now) }
    requires spec { SpellsGiven (run_parts parts.now).spec (given_spec spec) }
    requires fits { GivenFits (given_spec spec) }
    requires names { names ≡ given_names (given_spec spec) }
    ensures { IfOk result (PartsOutcome (run_parts parts.now)) }
{
    match read_program(alloc, parts.program, names) {
        Ok((program, names)) => reply_to_meaning(alloc, parts, spec, &program, &names),
        Err(error) => {
            let fault = fault_of_program(alloc, parts.program, &error)?;
            fault_reply(alloc, &fault)
        }
    }
}

/// What is replied after the program: what gives the interpretation is read.
fn reply_to_meaning(
    alloc: Global,
    parts: &Parts<'_>,
    spec: Option<&Spec>,
    program: &Program,
    names: &Names,
) -> Result<Reply, NoMemory>
    requires short { AreShort (run_parts parts.now) }
    requires spec { SpellsGiven (run_parts parts.now).spec (given_spec spec) }
    requires fits { GivenFits (given_spec spec) }
    requires program { IsReading (run_parts parts.now).program
        (given_names (given_spec spec)) (program_tree program.now) names.now }
    ensures { IfOk result (PartsOutcome (run_parts parts.now)) }
{
    match read_meaning(
        alloc,
        parts.style,
        parts.meaning,
        names,
        program.cells.as_slice(),
    ) {
        Ok(meaning) => reply_to_inputs(alloc, parts, spec, program, names, &meaning),
        Err(Refused::AtFault(fault)) => fault_reply(alloc, &fault),
        Err(Refused::NoMemory) => Err(NoMemory),
    }
}

/// What is replied after the interpretation: the inputs are read.
fn reply_to_inputs(
    alloc: Global,
    parts: &Parts<'_>,
    spec: Option<&Spec>,
    program: &Program,
    names: &Names,
    meaning: &Meaning,
) -> Result<Reply, NoMemory>
    requires short { AreShort (run_parts parts.now) }
    requires spec { SpellsGiven (run_parts parts.now).spec (given_spec spec) }
    requires fits { GivenFits (given_spec spec) }
    requires program { IsReading (run_parts parts.now).program
        (given_names (given_spec spec)) (program_tree program.now) names.now }
    requires spells { SpellsMeaning (run_parts parts.now).style
        (run_parts parts.now).meaning names.now program.now.cells (interpretation_read meaning.now) }
    requires interprets { IsInterpretation names.now program.now.cells (interpretation_read meaning.now) }
    requires means { MeansInPrograms names.now program.now.cells meaning.now }
    ensures { IfOk result (PartsOutcome (run_parts parts.now)) }
{
    let domain = meaning.domain();
    match read_inputs(
        alloc,
        parts.inputs,
        names,
        program.inputs.as_slice(),
        domain,
    ) {
        Ok(inputs) => reply_to_run(alloc, spec, program, names, meaning, &inputs),
        Err(error) => {
            let fault = fault_of_inputs(alloc, parts.inputs, names, &error)?;
            fault_reply(alloc, &fault)
        }
    }
}

/// What is replied to what the parts spell: the program runs until it closes.
fn reply_to_run(
    alloc: Global,
    spec: Option<&Spec>,
    program: &Program,
    names: &Names,
    meaning: &Meaning,
    inputs: &InputLoop<u32>,
) -> Result<Reply, NoMemory>
    requires ready { IsReady (record {
      given = given_spec spec;
      names = names.now;
      program = program_tree program.now;
      interpretation = interpretation_read meaning.now;
      rows = rows_of inputs.now;
    }) }
    requires means { MeansInPrograms names.now program.now.cells meaning.now }
    ensures { IfOk result (InputOutcome (record {
      given = given_spec spec.entry;
      names = names.now;
      program = program_tree program.now;
      interpretation = interpretation_read meaning.now;
      rows = rows_of inputs.now;
    })) }
{
    match meaning.closed_run(alloc, program, inputs, MOST_CONFIGURATIONS) {
        Ok(run) => {
            if !has_given_signals(alloc, spec, program)? {
                return other_signals(alloc);
            }
            trace_reply(alloc, spec, program, names, meaning, &run)
        }
        Err(RunError::NoLoop) => {
            fault_reply(alloc, &Fault::Large(LimitName::Run, MOST_CONFIGURATIONS))
        }
        Err(RunError::NoMemory) => Err(NoMemory),
    }
}
