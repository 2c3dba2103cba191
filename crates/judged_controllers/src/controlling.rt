//! Programs of machines that are proposed, judged.

ghost use Rattle.std.specs.Prelude.{◌≤◌, length, IfOk, IfSome};
ghost use Rattle.tsl_terms.specs.SpecView.{spec_tree};
ghost use Rattle.tsl_terms.specs.WellFormed.{SpecFits};
ghost use Rattle.program_tree.specs.ProgramView.{program_tree};
ghost use Rattle.program_tree.specs.Writable.{IsWritable};
ghost use Rattle.tsl_meaning.specs.Promise.{Realizes};

use crate::automata::small_automaton;
use crate::judging::judged_program;
use letter_space::space_of;
use machine_finder::{Effort, propose};
use program_check::CheckError;
use program_tree::Program;
use std::alloc::Global;
use tsl_terms::Spec;

/// The most states of a program times those of an automaton. A machine with an annotation has one within this bound.
const FULL_BOUND: u32 = 262_144;

/// A program for a specification, if a controller with no more states than are asked for is proposed. Every run of the
/// program meets the specification. None says nothing.
pub fn controlled(alloc: Global, spec: &Spec, effort: Effort) -> Result<Option<Program>, CheckError>
    ensures realizes { IfOk result (λ found. IfSome found (λ p. Realizes (spec_tree spec.now) (program_tree p))) }
    ensures few_states { IfOk result (λ found. IfSome found (λ p. length p.states ≤ effort.states)) }
    ensures writable { SpecFits (spec_tree spec.now) → IfOk result (λ found. IfSome found (λ p. IsWritable spec.now.names (program_tree p))) }
{
    let space = space_of(alloc, spec)?;
    let automaton = small_automaton(alloc, spec, &space)?;
    let Some(machine) = propose(alloc, &automaton, &space, effort)? else {
        return Ok(None);
    };
    if machine.states > effort.states {
        return Ok(None);
    }
    let found = judged_program(alloc, spec, &space, &automaton, &machine, FULL_BOUND)?;
    Ok(found)
}
