//! The fault of each refusal of a program, of tables, of machine words and of inputs.

ghost use Rattle.std.specs.Prelude.{◌≡◌, ◌-◌, ◌<◌, ◌≤◌, ◌^◌, length, IfOk};
ghost use Rattle.term_text.specs.TermText.{name_text};
ghost use Rattle.checking_commands.specs.RunFaults.{name_in_text, IsProgramFault, IsTableFault, IsWordsFault, IsInputFault};
ghost use Rattle.checking_commands.specs.internal.RunFaultPlaces.{ProgramStandsIn, TableStandsIn, WordStandsIn, InputStandsIn};

use base_library::{NoMemory, Sequence};
use command_faults::{name_between, place_in};
use flow_program::{MOST_NODES, MOST_STATES, MOST_WINDOWS, Name, ProgramError};
use std::alloc::Global;
use table_interp::{InputError, MOST_ENTRIES, MOST_ROWS, MOST_VALUES, TableError};
use tsl_report::{DataPart, Fault, LimitName, ProgramRule, TokenPart};
use tsl_terms::Names;
use word_interp::{MOST_BITS, WordError};

/// The fault of a refusal of this text as a program.
pub(crate) fn fault_of_program(
    alloc: Global,
    text: &[u8],
    error: &ProgramError,
) -> Result<Fault, NoMemory>
    requires { ProgramStandsIn text.now error.now }
    ensures { IfOk result (λ fault. IsProgramFault text.now error.now fault) }
{
    match error {
        ProgramError::Form(line) => Ok(Fault::Program(*line, ProgramRule::Form)),
        ProgramError::Order(line) => Ok(Fault::Program(*line, ProgramRule::Order)),
        ProgramError::Target(line) => Ok(Fault::Program(*line, ProgramRule::Target)),
        ProgramError::Updates(line) => Ok(Fault::Program(*line, ProgramRule::Updates)),
        ProgramError::Window(line) => Ok(Fault::Program(*line, ProgramRule::Window)),
        ProgramError::Unknown(line, name) => {
            let name = name_at(alloc, text, *name)?;
            Ok(Fault::Program(*line, ProgramRule::Unknown(name)))
        }
        ProgramError::Kind(line, name) => {
            let name = name_at(alloc, text, *name)?;
            Ok(Fault::Program(*line, ProgramRule::Kind(name)))
        }
        ProgramError::Arity(line, name) => {
            let name = name_at(alloc, text, *name)?;
            Ok(Fault::Program(*line, ProgramRule::Arity(name)))
        }
        ProgramError::Windows => Ok(Fault::Large(LimitName::Windows, MOST_WINDOWS as u32)),
        ProgramError::Nodes => Ok(Fault::Large(LimitName::ProgramNodes, MOST_NODES as u32)),
        ProgramError::States => Ok(Fault::Large(LimitName::ProgramStates, MOST_STATES as u32)),
        ProgramError::NoMemory => Err(NoMemory),
    }
}

/// A copy of the name that stands at a place of the text.
fn name_at(alloc: Global, text: &[u8], name: Name) -> Result<Sequence<u8>, NoMemory>
    requires in_order { name.start ≤ name.end }
    requires inside { name.end ≤ length text.now }
    ensures { IfOk result (λ copy. copy ≡ name_in_text text.now name) }
{
    name_between(alloc, text, name.start, name.end)
}

/// The fault of a refusal of this text as tables over these names.
pub(crate) fn fault_of_tables(
    alloc: Global,
    text: &[u8],
    names: &Names,
    error: &TableError,
) -> Result<Fault, NoMemory>
    requires short { length text.now < 2 ^ 32 - 1 }
    requires stands { TableStandsIn text.now names.now error.now }
    ensures { IfOk result (λ fault. IsTableFault text.now names.now error.now fault) }
{
    match error {
        TableError::Byte(at) => Ok(Fault::Byte(TokenPart::Tables, place_in(text, *at))),
        TableError::OpenComment(at) => Ok(Fault::Comment(TokenPart::Tables, place_in(text, *at))),
        TableError::Form(at) => Ok(Fault::Form(TokenPart::Tables, place_in(text, *at))),
        TableError::Domain => Ok(Fault::Large(LimitName::Domain, MOST_VALUES)),
        TableError::Unknown(start, end) => Ok(Fault::Unknown(
            DataPart::Tables,
            place_in(text, *start),
            name_between(alloc, text, *start, *end)?,
        )),
        TableError::Twice(start, end) => Ok(Fault::Twice(
            DataPart::Tables,
            place_in(text, *start),
            name_between(alloc, text, *start, *end)?,
        )),
        TableError::Missing(id) => Ok(Fault::Missing(
            DataPart::Tables,
            name_of(alloc, names, *id)?,
        )),
        TableError::Entries(_) => Ok(Fault::Large(LimitName::Entries, MOST_ENTRIES)),
        TableError::Count(id) => Ok(Fault::TableCount(name_of(alloc, names, *id)?)),
        TableError::Range(id, value) => {
            Ok(Fault::TableRange(name_of(alloc, names, *id)?, *value))
        }
        TableError::NoMemory => Err(NoMemory),
    }
}

/// A copy of the text of the name with this number.
fn name_of(alloc: Global, names: &Names, id: u32) -> Result<Sequence<u8>, NoMemory>
    requires { id < length names.now }
    ensures { IfOk result (λ copy. copy ≡ name_text names.now id) }
{
    let name = Vec::from_slice(alloc, names.text(id))?;
    Ok(Sequence::from_vec(name))
}

/// The fault of a refusal of this text as machine words over these names.
pub(crate) fn fault_of_words(
    alloc: Global,
    text: &[u8],
    names: &Names,
    error: &WordError,
) -> Result<Fault, NoMemory>
    requires short { length text.now < 2 ^ 32 - 1 }
    requires stands { WordStandsIn text.now names.now error.now }
    ensures { IfOk result (λ fault. IsWordsFault text.now names.now error.now fault) }
{
    match error {
        WordError::Byte(at) => Ok(Fault::Byte(TokenPart::Words, place_in(text, *at))),
        WordError::OpenComment(at) => Ok(Fault::Comment(TokenPart::Words, place_in(text, *at))),
        WordError::Form(at) => Ok(Fault::Form(TokenPart::Words, place_in(text, *at))),
        WordError::Width => Ok(Fault::Large(LimitName::Width, MOST_BITS)),
        WordError::Unknown(start, end) => Ok(Fault::Unknown(
            DataPart::Words,
            place_in(text, *start),
            name_between(alloc, text, *start, *end)?,
        )),
        WordError::Twice(start, end) => Ok(Fault::Twice(
            DataPart::Words,
            place_in(text, *start),
            name_between(alloc, text, *start, *end)?,
        )),
        WordError::Missing(id) => Ok(Fault::Missing(DataPart::Words, name_of(alloc, names, *id)?)),
        WordError::Arity(id) => Ok(Fault::WordsArity(name_of(alloc, names, *id)?)),
        WordError::Range(id, value) => {
            Ok(Fault::WordsRange(name_of(alloc, names, *id)?, *value))
        }
        WordError::NoMemory => Err(NoMemory),
    }
}

/// The fault of a refusal of this text as inputs over these names.
pub(crate) fn fault_of_inputs(
    alloc: Global,
    text: &[u8],
    names: &Names,
    error: &InputError,
) -> Result<Fault, NoMemory>
    requires short { length text.now < 2 ^ 32 - 1 }
    requires stands { InputStandsIn text.now names.now error.now }
    ensures { IfOk result (λ fault. IsInputFault text.now names.now error.now fault) }
{
    match error {
        InputError::Byte(at) => Ok(Fault::Byte(TokenPart::Inputs, place_in(text, *at))),
        InputError::OpenComment(at) => Ok(Fault::Comment(TokenPart::Inputs, place_in(text, *at))),
        InputError::Form(at) => Ok(Fault::Form(TokenPart::Inputs, place_in(text, *at))),
        InputError::Unknown(start, end) => Ok(Fault::Unknown(
            DataPart::Inputs,
            place_in(text, *start),
            name_between(alloc, text, *start, *end)?,
        )),
        InputError::Twice(start, end) => Ok(Fault::Twice(
            DataPart::Inputs,
            place_in(text, *start),
            name_between(alloc, text, *start, *end)?,
        )),
        InputError::Missing(id) => Ok(Fault::Missing(
            DataPart::Inputs,
            name_of(alloc, names, *id)?,
        )),
        InputError::Rows => Ok(Fault::Large(LimitName::Rows, MOST_ROWS)),
        InputError::Count(row) => Ok(Fault::RowCount(*row)),
        InputError::Range(row, value) => Ok(Fault::RowRange(*row, *value)),
        InputError::NoMemory => Err(NoMemory),
    }
}
