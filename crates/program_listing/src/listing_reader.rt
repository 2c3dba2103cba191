//! The lines of a program text are read one after another.

ghost use Rattle.std.specs.Prelude.{◌≡◌, ◌+◌, ◌<◌, ◌^◌, ◌++◌, ◌∷◌, [], true, false, is_none, is_some, length, None, Ok, Err, IfOk, IfErr};
ghost use Rattle.std.specs.Prelude.{OnOk, IfSome, IfNone, Some};
ghost use Rattle.tsl_terms.specs.Name.{number_of};
ghost use Rattle.program_listing.specs.ListingTree.{listing_tree};
ghost use Rattle.program_listing.specs.Listing.{IsListing};
ghost use Rattle.program_listing.specs.ListingFault.{HasListingFault};
ghost use Rattle.program_listing.specs.internal.LineReading.{left_place, line_tree, IsMisread};
ghost use Rattle.program_listing.specs.internal.LineOrder.{ListingState, start, step, whole, is_done, no_node, no_window, no_output};
ghost use Rattle.program_listing.specs.internal.LineOrder.{no_cell, may_stand, add, declares, entries_in, are_new, progress_of};
ghost use Rattle.program_listing.specs.internal.LineOrder.{reader_state, DeclaresIn, IsRepeated};

use crate::line::{Line, read_line};
use crate::listing::{ListingError, Name, ProgramSyntax};
use crate::rest::{LineError, Rest};
use base_library::NoMemory;
use line_formats::{LastLine, LineReader, TextError, read_text};
use std::alloc::Global;
use tsl_terms::{NameKind, Names};

/// How far a text was read.
#[derive(Clone, Copy)]
pub enum Stage {
    /// No line was read.
    Fresh,
    /// The head was read.
    Going,
    /// The last line was read.
    Done,
}

/// A listing that is begun.
#[derive(Drop)]
pub struct Begun {
    /// The lines so far.
    pub listing: ProgramSyntax,
    /// How far the text was read.
    pub stage: Stage,
}

/// What was read so far.
#[derive(Drop)]
pub struct ListingReader {
    /// Where memory is taken.
    pub alloc: Global,
    /// Where the next line begins.
    pub at: u32,
    /// The names that are declared.
    pub names: Names,
    /// The listing so far.
    pub begun: Begun,
}

/// A line that begins at this place, and where the next one begins. An `Err` says that the place is
/// too far behind to be counted.
fn line_at(at: u32, bytes: &[u8]) -> Result<(Rest<'_>, u32), NoMemory>
    ensures line { IfOk result (λ found.
        left_place found.0 ≡ record { at = at; bytes = bytes.now }) }
    ensures next { IfOk result (λ found. found.1 ≡ at + (length bytes.now + 1)) }
{
    if bytes.len() >= (u32::MAX - at) as usize {
        return Err(NoMemory);
    }
    Ok((Rest { at, bytes }, at + (bytes.len() as u32 + 1)))
}

/// Whether neither a node nor a state stands yet.
fn no_node(listing: &ProgramSyntax) -> bool
    ensures { result ≡ no_node (listing_tree listing.now) }
{
    listing.nodes.is_empty() && listing.states.is_empty()
}

/// Whether no window stands yet, and nothing after the windows.
fn no_window(listing: &ProgramSyntax) -> bool
    ensures { result ≡ no_window (listing_tree listing.now) }
{
    listing.windows.is_empty() && no_node(listing)
}

/// Whether no output stands yet, and nothing after the outputs.
fn no_output(listing: &ProgramSyntax) -> bool
    ensures { result ≡ no_output (listing_tree listing.now) }
{
    listing.outputs.is_empty() && no_window(listing)
}

/// Whether no cell stands yet, and nothing after the cells.
fn no_cell(listing: &ProgramSyntax) -> bool
    ensures { result ≡ no_cell (listing_tree listing.now) }
{
    listing.cells.is_empty() && no_output(listing)
}

/// Whether the line may stand next between the head and the last line.
fn may_stand(listing: &ProgramSyntax, line: &Line) -> bool
    ensures { result ≡ may_stand (listing_tree listing.now) (line_tree line.now) }
{
    match line {
        Line::Head => false,
        Line::Input(_) => no_cell(listing),
        Line::Cell(_) => no_output(listing),
        Line::Output(_) => no_window(listing),
        Line::Window(_) => no_node(listing),
        Line::Node(number, _) => {
            *number == listing.nodes.len() as u64 && listing.states.is_empty()
        }
        Line::State(number, _) => {
            *number == listing.states.len() as u64 && !listing.nodes.is_empty()
        }
        Line::End => !listing.nodes.is_empty() && !listing.states.is_empty(),
    }
}

/// Whether the line may stand next.
fn may_come(begun: &Begun, line: &Line) -> bool
    ensures { result ≡ is_some (add (progress_of begun.now) (line_tree line.now)) }
{
    match begun.stage {
        Stage::Fresh => matches!(line, Line::Head),
        Stage::Going => may_stand(&begun.listing, line),
        Stage::Done => false,
    }
}

/// Whether the last line was read.
fn is_done(begun: &Begun) -> bool
    ensures { result ≡ is_done (progress_of begun.now) }
{
    match begun.stage {
        Stage::Done => true,
        Stage::Fresh | Stage::Going => false,
    }
}

/// Adds a line that may stand next.
fn insert(alloc: Global, begun: &mut Begun, line: Line) -> Result<(), NoMemory>
    requires { is_some (add (progress_of begun.old) (line_tree line)) ≡ true }
    ensures { OnOk result
        (add (progress_of begun.old) (line_tree line) ≡ Some (progress_of begun.new)) }
{
    match line {
        Line::Head => {
            begun.listing = ProgramSyntax::new(alloc);
            begun.stage = Stage::Going;
        }
        Line::Input(name) => begun.listing.inputs.push(name)?,
        Line::Cell(name) => begun.listing.cells.push(name)?,
        Line::Output(name) => begun.listing.outputs.push(name)?,
        Line::Window(window) => begun.listing.windows.push(window)?,
        Line::Node(_, node) => begun.listing.nodes.push(node)?,
        Line::State(_, node) => begun.listing.states.push(node)?,
        Line::End => begun.stage = Stage::Done,
    }
    Ok(())
}

/// The name that a line declares.
fn declared_name(line: &Line) -> Option<Name>
    ensures some { IfSome result (λ name. declares (line_tree line.now) ≡ name ∷ []) }
    ensures none { IfNone result (declares (line_tree line.now) ≡ []) }
{
    match line {
        Line::Input(name) | Line::Cell(name) | Line::Output(name) => Some(*name),
        _ => None,
    }
}

/// Adds the name that the line at this place declares to those that were declared before.
fn declare(names: &mut Names, place: Rest<'_>, line: &Line) -> Result<(), LineError>
    requires { DeclaresIn (left_place place) (line_tree line.now) }
    ensures new { OnOk result
        (are_new names.old (entries_in (left_place place.entry) (line_tree line.now)) ≡ true) }
    ensures added { OnOk result
        (names.new ≡ names.old ++ entries_in (left_place place.entry) (line_tree line.now)) }
    ensures again { IfErr result
        (IsRepeated (are_new names.old (entries_in (left_place place.entry) (line_tree line.now)))) }
{
    match declared_name(line) {
        None => Ok(()),
        Some(name) => {
            let start = name.start - place.at;
            let end = name.end - place.at;
            declare_name(names, &place.bytes[start as usize..end as usize])
        }
    }
}

/// Adds a signal to the names, if it is none of them. No more than 2^32 - 1 names are kept.
fn declare_name(names: &mut Names, text: &[u8]) -> Result<(), LineError>
    ensures new { OnOk result (is_none (number_of names.old text.now) ≡ true) }
    ensures added { OnOk result (names.new
        ≡ names.old ++ (record { text = text.now; kind = NameKind.Signal; arity = 0 }) ∷ []) }
    ensures again { IfErr result (IsRepeated (is_none (number_of names.old text.now))) }
{
    if names.find(text).is_some() {
        return Err(LineError::Form);
    }
    if names.count() == u32::MAX {
        return Err(LineError::NoMemory);
    }
    names.add(text, NameKind::Signal, 0)?;
    Ok(())
}

impl ListingReader {
    /// Before any line was read.
    fn new(alloc: Global) -> ListingReader
        ensures { reader_state result ≡ start }
    {
        ListingReader {
            alloc,
            at: 0,
            names: Names::new(alloc),
            begun: Begun {
                listing: ProgramSyntax::new(alloc),
                stage: Stage::Fresh,
            },
        }
    }

    /// Takes one more line.
    fn take_line(&mut self, bytes: &[u8]) -> Result<(), LineError>
        ensures ok { OnOk result
            (step (reader_state self.old) bytes.now ≡ Some (reader_state self.new)) }
        ensures wrong { IfErr result (IsMisread (step (reader_state self.old) bytes.now)) }
    {
        let (line, next) = line_at(self.at, bytes)?;
        let read = read_line(self.alloc, line)?;
        if !may_come(&self.begun, &read) {
            return Err(LineError::Form);
        }
        declare(&mut self.names, line, &read)?;
        insert(self.alloc, &mut self.begun, read)?;
        self.at = next;
        Ok(())
    }
}

impl LineReader for ListingReader {
    ghost State = { ListingState };

    ghost step = { step };

    ghost whole = { whole };

    ghost state = { reader_state };

    fn read_line(&mut self, line: &[u8]) -> Result<bool, NoMemory> {
        match self.take_line(line) {
            Ok(()) => Ok(true),
            Err(LineError::Form) => Ok(false),
            Err(LineError::NoMemory) => Err(NoMemory),
        }
    }

    fn is_whole(&self) -> bool {
        is_done(&self.begun)
    }
}

/// The listing of a text. An `Err` tells the first line at fault, or that memory ran out, as it does
/// for the longest text of all, whose lines might be too many to be counted.
pub fn read_listing(alloc: Global, text: &[u8]) -> Result<ProgramSyntax, ListingError>
    requires { length text.now < 2 ^ 32 }
    ensures ok { IfOk result (λ listing. IsListing text.now (listing_tree listing)) }
    ensures fault { IfErr result (HasListingFault text.now) }
{
    if text.len() == u32::MAX as usize {
        return Err(ListingError::NoMemory);
    }
    let mut reader = ListingReader::new(alloc);
    match read_text(&mut reader, text, LastLine::Ended) {
        Ok(()) => Ok(reader.begun.listing),
        Err(TextError::Form(line)) => Err(ListingError::Form(line)),
        Err(TextError::NoMemory) => Err(ListingError::NoMemory),
    }
}
