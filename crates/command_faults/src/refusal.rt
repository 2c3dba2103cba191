//! The fault of each refusal of a specification, and of each limit of the work on it.

ghost use Rattle.std.specs.Prelude.{◌≡◌, ◌-◌, ◌<◌, ◌≤◌, ◌^◌, length, IfOk};
ghost use Rattle.command_faults.specs.Refusals.{IsPlaceOf, IsFaultOf, name_between, fault_at_limit};
ghost use Rattle.command_faults.specs.RefusalPlaces.{StandsIn};

use base_library::{NoMemory, Sequence};
use branch_finder::MOST_BRANCHES;
use cobuchi_automata::{MOST_AUTOMATON_EDGES, MOST_AUTOMATON_STATES};
use letter_space::{MOST_BITS, MOST_PREDICATES, MOST_VECTORS};
use obligations::MOST_CHOICES;
use program_check::Limit;
use refutation_check::MOST_CLAUSES;
use std::alloc::Global;
use tsl_reader::{MOST_NODES, SpecError};
use tsl_report::{Fault, LimitName, TokenPart};
use tsl_text::{Place, place_of};

/// The fault of a refusal of this text.
pub fn fault_of(alloc: Global, text: &[u8], error: &SpecError) -> Result<Fault, NoMemory>
    requires short { length text.now < 2 ^ 32 - 1 }
    requires stands { StandsIn text.now error.now }
    ensures { IfOk result (λ fault. IsFaultOf text.now error.now fault) }
{
    match error {
        SpecError::Byte(at) => Ok(Fault::Byte(TokenPart::Spec, place_in(text, *at))),
        SpecError::OpenComment(at) => Ok(Fault::Comment(TokenPart::Spec, place_in(text, *at))),
        SpecError::Form(at) => Ok(Fault::Form(TokenPart::Spec, place_in(text, *at))),
        SpecError::Deep(at) => Ok(Fault::Deep(place_in(text, *at))),
        SpecError::Defined(start, end) => Ok(Fault::Defined(
            place_in(text, *start),
            name_between(alloc, text, *start, *end)?,
        )),
        SpecError::Cycle(start, end) => Ok(Fault::Cycle(
            place_in(text, *start),
            name_between(alloc, text, *start, *end)?,
        )),
        SpecError::Kind(start, end) => Ok(Fault::Kind(
            place_in(text, *start),
            name_between(alloc, text, *start, *end)?,
        )),
        SpecError::Arity(start, end) => Ok(Fault::Arity(
            place_in(text, *start),
            name_between(alloc, text, *start, *end)?,
        )),
        SpecError::DeepUse(start, end) => Ok(Fault::DeepUse(
            place_in(text, *start),
            name_between(alloc, text, *start, *end)?,
        )),
        SpecError::Nodes => Ok(Fault::Large(LimitName::Nodes, MOST_NODES)),
        SpecError::NoMemory => Err(NoMemory),
    }
}

/// The place of an offset of the text.
pub fn place_in(text: &[u8], offset: u32) -> Place
    requires inside { offset ≤ length text.now }
    requires short { length text.now < 2 ^ 32 - 1 }
    ensures { IsPlaceOf text.now offset result }
{
    place_of(text, offset)
}

/// A copy of the name between two offsets of the text.
pub fn name_between(
    alloc: Global,
    text: &[u8],
    start: u32,
    end: u32,
) -> Result<Sequence<u8>, NoMemory>
    requires in_order { start ≤ end }
    requires inside { end ≤ length text.now }
    ensures { IfOk result (λ name. name ≡ name_between text.now start end) }
{
    let name = Vec::from_slice(alloc, &text[start as usize..end as usize])?;
    Ok(Sequence::from_vec(name))
}

/// The fault of a limit that is passed.
pub fn fault_of_limit(limit: Limit) -> Fault
    ensures { result ≡ fault_at_limit limit }
{
    match limit {
        Limit::Predicates => Fault::Large(LimitName::Predicates, MOST_PREDICATES as u32),
        Limit::Bits => Fault::Large(LimitName::Bits, MOST_BITS as u32),
        Limit::Choices => Fault::Large(LimitName::Choices, MOST_CHOICES as u32),
        Limit::States => Fault::Large(LimitName::States, MOST_AUTOMATON_STATES as u32),
        Limit::Edges => Fault::Large(LimitName::Edges, MOST_AUTOMATON_EDGES as u32),
        Limit::Vectors => Fault::Large(LimitName::Vectors, MOST_VECTORS),
        Limit::Clauses => Fault::Large(LimitName::Clauses, MOST_CLAUSES as u32),
        Limit::Branches => Fault::Large(LimitName::Branches, MOST_BRANCHES as u32),
    }
}
