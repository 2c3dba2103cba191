//! The command `automaton`.

ghost use Rattle.std.specs.Prelude.{◌≡◌, ◌-◌, ◌<◌, ◌≤◌, ◌^◌, length, IfOk, IfErr};
ghost use Rattle.tsl_terms.specs.SpecView.{spec_tree};
ghost use Rattle.tsl_terms.specs.WellFormed.{SpecFits};
ghost use Rattle.letter_space.specs.SpaceView.{space_tree};
ghost use Rattle.letter_space.specs.SpecSpace.{spec_space};
ghost use Rattle.cobuchi_automata.specs.Refusals.{most_automaton_states, most_automaton_edges};
ghost use Rattle.exchange_commands.specs.Automaton.{AutomatonOutcome, NegationOutcome, TellsAutomaton, IsNegationOf, HasAutomatonCause};

use automaton_text::write_automaton;
use base_library::NoMemory;
use cobuchi_automata::Automaton;
use command_faults::{fault_of, fault_of_limit, fault_reply};
use letter_space::{Space, space_of};
use machines::Side;
use program_check::{CheckError, automaton_for};
use std::alloc::Global;
use tool_io::{Reply, Status};
use tsl_reader::read_spec;
use tsl_terms::Spec;

/// The bits of a specification, and the automaton of its negated whole formula over them.
#[derive(Drop)]
struct Negation {
    space: Space,
    automaton: Automaton,
}

/// What `automaton` replies to these bytes: the automaton of the negation of the whole formula of their
/// specification, or why there is none.
pub fn automaton(alloc: Global, bytes: &[u8]) -> Result<Reply, NoMemory>
    requires { length bytes.now < 2 ^ 32 - 1 }
    ensures { IfOk result (AutomatonOutcome bytes.now) }
{
    match read_spec(alloc, bytes) {
        Ok(spec) => reply_to_spec(alloc, &spec),
        Err(error) => {
            let fault = fault_of(alloc, bytes, &error)?;
            fault_reply(alloc, &fault)
        }
    }
}

/// What is replied to a specification.
fn reply_to_spec(alloc: Global, spec: &Spec) -> Result<Reply, NoMemory>
    requires fits { SpecFits (spec_tree spec.now) }
    ensures { IfOk result (NegationOutcome (spec_tree spec.now)) }
{
    match negation_of(alloc, spec) {
        Ok(negation) => automaton_reply(alloc, spec, &negation),
        Err(CheckError::Large(limit)) => fault_reply(alloc, &fault_of_limit(limit)),
        Err(CheckError::NoMemory) => Err(NoMemory),
    }
}

/// The automaton of the negation of the whole formula, within the limits of `prove`.
fn negation_of(alloc: Global, spec: &Spec) -> Result<Negation, CheckError>
    ensures space { IfOk result (λ made. space_tree made.space ≡ spec_space (spec_tree spec.now)) }
    ensures automaton { IfOk result (λ made. IsNegationOf (spec_tree spec.now) made.automaton) }
    ensures few_states { IfOk result (λ made. made.automaton.states ≤ most_automaton_states) }
    ensures few_edges { IfOk result (λ made. length made.automaton.edges ≤ most_automaton_edges) }
    ensures cause { IfErr result (HasAutomatonCause (spec_tree spec.now)) }
{
    let space = space_of(alloc, spec)?;
    let automaton = automaton_for(alloc, Side::Controller, spec, &[], &space)?;
    Ok(Negation { space, automaton })
}

/// The text of the automaton.
fn automaton_reply(alloc: Global, spec: &Spec, negation: &Negation) -> Result<Reply, NoMemory>
    requires fits { SpecFits (spec_tree spec.now) }
    requires space { space_tree negation.now.space ≡ spec_space (spec_tree spec.now) }
    requires automaton { IsNegationOf (spec_tree spec.now) negation.now.automaton }
    requires few_states { negation.now.automaton.states ≤ most_automaton_states }
    requires few_edges { length negation.now.automaton.edges ≤ most_automaton_edges }
    ensures { IfOk result (TellsAutomaton (spec_tree spec.now)) }
{
    let text = write_automaton(alloc, &spec.names, &negation.space, &negation.automaton)?;
    Ok(Reply::new(Status::Done, text))
}
