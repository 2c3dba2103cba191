//! Program texts are read.

ghost use Rattle.std.specs.Prelude.{◌≡◌, ◌+◌, ◌*◌, ◌<◌, ◌^◌, ◌++◌, length, IfOk, IfErr, IsTrue};
ghost use Rattle.std.specs.List.{list_all};
ghost use Rattle.tsl_terms.specs.Name.{texts, AreDistinct};
ghost use Rattle.tsl_terms.specs.WellFormed.{name_fits};
ghost use Rattle.program_tree.specs.ProgramView.{program_tree};
ghost use Rattle.program_listing.specs.internal.NamesStand.{ListingStands};
ghost use Rattle.program_listing.specs.Listing.{listing_tree, IsListing};
ghost use Rattle.flow_program.specs.Uses.{first_state, uses_of};
ghost use Rattle.flow_program.specs.Rules.{cell_texts, readable_of};
ghost use Rattle.flow_program.specs.Reading.{IsReading, HasProgramCause};

use crate::naming::names_after;
use crate::numbering::numbered_program;
use crate::rules::{declared_names, limit_fault, line_fault, use_fault};
use crate::uses::all_uses;
use base_library::NoMemory;
use program_listing::{ListingError, Name, ProgramSyntax, read_listing};
use program_tree::Program;
use std::alloc::{AllocFailed, Global};
use thiserror::Error;
use tsl_terms::Names;

/// Why a text is no program text over the given names. Lines are counted from 1. Of two causes the
/// one that comes first here is answered, and each tells the first line where it applies.
#[derive(Debug, Drop, Error)]
pub enum ProgramError {
    /// No form of a line allows this line at its place, or it declares a name again, or its number
    /// is not the next. Where a line is missing it is the line after the last.
    #[error("line {0} is malformed")]
    Form(u32),
    /// The test of this line leads to a node that has no smaller number.
    #[error("line {0} tests and goes on at a node that is not before it")]
    Order(u32),
    /// This line names a state or a node that is not there.
    #[error("line {0} goes on where nothing is")]
    Target(u32),
    /// The updates of this line are not those of the cells and then of the outputs, in order.
    #[error("line {0} does not update the cells and then the outputs")]
    Updates(u32),
    /// The window of this line is longer than 3, or its left test, an update or an equality stands
    /// outside it, or its updates are not of cells in rising order, or an equality, or the test
    /// after `true is`, is not `eq` with two arguments, or the steps of the equalities fall, or one
    /// of them stands twice at one step.
    #[error("line {0} is no window")]
    Window(u32),
    /// A term or a test of this line reads the name at this place, which is no input and no cell.
    #[error("line {0} reads a name that is no input and no cell")]
    Unknown(u32, Name),
    /// The name at this place of this line was used before as something else: a signal, a function
    /// or a predicate.
    #[error("a name of line {0} was used before as something else")]
    Kind(u32, Name),
    /// The name at this place of this line had another number of arguments at its first use.
    #[error("a name of line {0} had another number of arguments before")]
    Arity(u32, Name),
    /// There are more than 64 windows.
    #[error("there are more than 64 windows")]
    Windows,
    /// There are more than 65,536 nodes.
    #[error("there are more than 65536 nodes")]
    Nodes,
    /// There are more than 64 states.
    #[error("there are more than 64 states")]
    States,
    /// Memory ran out.
    #[error("out of memory")]
    NoMemory,
}

impl From<NoMemory> for ProgramError {
    ghost use Rattle.std.specs.Prelude.{◌≡◌};
    ghost use Rattle.flow_program.specs.declared.reading.ProgramError.TheVariants.{NoMemory};

    ghost from_gives = { λ _ e. e ≡ NoMemory };

    fn from(_error: NoMemory) -> ProgramError {
        ProgramError::NoMemory
    }
}

impl<T: Drop> From<AllocFailed<T>> for ProgramError {
    ghost use Rattle.std.specs.Prelude.{◌≡◌};
    ghost use Rattle.flow_program.specs.declared.reading.ProgramError.TheVariants.{NoMemory};

    ghost from_gives = { λ _ e. e ≡ NoMemory };

    fn from(_error: AllocFailed<T>) -> ProgramError {
        ProgramError::NoMemory
    }
}

/// The names of the signals that lines declare, to be found by their bytes.
#[derive(Drop)]
struct Signals {
    /// The cells.
    cells: Names,
    /// The inputs and the cells.
    readable: Names,
    /// The cells and the outputs.
    controlled: Vec<Name>,
}

/// Two lists as one.
fn joined(alloc: Global, left: &[Name], right: &[Name]) -> Result<Vec<Name>, NoMemory>
    ensures { IfOk result (λ both. both.items ≡ left.now ++ right.now) }
{
    let mut both = Vec::from_slice(alloc, left)?;
    both.extend_from_slice(right)?;
    Ok(both)
}

/// The names of the signals that lines declare.
#[tactic(auto, using(crate::proofs::RuleLemmas::texts_are))]
fn declared_signals(
    alloc: Global,
    text: &[u8],
    listing: &ProgramSyntax,
) -> Result<Signals, NoMemory>
    requires stands { ListingStands text.now (listing_tree listing.now) }
    requires listing { IsListing text.now (listing_tree listing.now) }
    requires lines { first_state (listing_tree listing.now)
        + length listing.now.states.items < 2 ^ 32 }
    ensures cells { IfOk result (λ declared.
        texts declared.cells ≡ cell_texts text.now (listing_tree listing.now)) }
    ensures readable { IfOk result (λ declared.
        texts declared.readable ≡ readable_of text.now (listing_tree listing.now)) }
    ensures controlled { IfOk result
        (λ declared.
        declared.controlled.items ≡ listing.now.cells.items ++ listing.now.outputs.items) }
{
    let inputs_and_cells = joined(alloc, &listing.inputs, &listing.cells)?;
    let controlled = joined(alloc, &listing.cells, &listing.outputs)?;
    let cells = declared_names(alloc, text, &listing.cells)?;
    let readable = declared_names(alloc, text, &inputs_and_cells)?;
    Ok(Signals {
        cells,
        readable,
        controlled,
    })
}

/// No text stands twice among names: their count says so.
fn are_distinct(names: &Names)
    ensures { AreDistinct names.now }
{
    let _count = names.count();
}

/// The program of lines over the given names.
fn program_of(
    alloc: Global,
    text: &[u8],
    names: Names,
    listing: &ProgramSyntax,
) -> Result<(Program, Names), ProgramError>
    requires room { length names + 2 * length (uses_of text.now (listing_tree listing.now)) < 2 ^ 32 }
    requires lines { first_state (listing_tree listing.now)
        + length listing.now.states.items < 2 ^ 32 }
    requires stands { ListingStands text.now (listing_tree listing.now) }
    requires names { IsTrue (list_all name_fits names) }
    requires listing { IsListing text.now (listing_tree listing.now) }
    ensures ok { IfOk result (λ read. IsReading text.now names (program_tree read.0) read.1) }
    ensures names_fit { IfOk result (λ read. IsTrue (list_all name_fits read.1)) }
    ensures cause { IfErr result (HasProgramCause text.now names) }
{
    are_distinct(&names);
    let declared = declared_signals(alloc, text, listing)?;
    if let Some(fault) = line_fault(alloc, text, listing, &declared.cells, &declared.controlled)? {
        return Err(fault);
    }
    let listed = all_uses(alloc, text, listing)?;
    let uses = listed.as_slice();
    let names = names_after(names, uses)?;
    if let Some(fault) = use_fault(&declared.readable, &names, uses) {
        return Err(fault);
    }
    if let Some(fault) = limit_fault(listing) {
        return Err(fault);
    }
    let program = numbered_program(alloc, &names, text, listing)?;
    Ok((program, names))
}

/// The program that a text spells, and its names: the given ones, and then those of the text in the
/// order of their first uses, where `?` comes directly after the first signal that is a test alone.
///
/// The given names may be written, and they and the bytes of the text are fewer than 2^32. An `Err` has the cause why
/// the text spells no program; the given names are dropped.
pub fn read_program(
    alloc: Global,
    text: &[u8],
    names: Names,
) -> Result<(Program, Names), ProgramError>
    requires room { length text.now + length names < 2 ^ 32 }
    requires names { IsTrue (list_all name_fits names) }
    ensures ok { IfOk result (λ read. IsReading text.now names (program_tree read.0) read.1) }
    ensures names_fit { IfOk result (λ read. IsTrue (list_all name_fits read.1)) }
    ensures cause { IfErr result (HasProgramCause text.now names) }
{
    match read_listing(alloc, text) {
        Ok(listing) => program_of(alloc, text, names, &listing),
        Err(ListingError::Form(line)) => Err(ProgramError::Form(line)),
        Err(ListingError::NoMemory) => Err(ProgramError::NoMemory),
    }
}
