//! The line that says why a text or the words were refused.

ghost use Rattle.std.specs.Prelude.{◌≡◌, ◌++◌, OnOk, IfOk, codes, decimal};
ghost use Rattle.tsl_report.specs.FaultText.{fault_text, fault_line, place_text, place_fault, token_fault, name_fault, part_text};
ghost use Rattle.tsl_report.specs.FaultText.{range_fault, data_text, head_text, rule_text, limit_text};

use base_library::{NoMemory, Sequence};
use std::alloc::Global;
use tsl_text::{Place, put_bytes, put_number};

/// A line that parts an input.
#[derive(Clone, Copy, Debug, PartialEq, Eq)]
pub enum Head {
    /// The first line of a program.
    Program,
    /// The first line of tables, or of machine words.
    Tables,
    /// The first line of inputs.
    Inputs,
    /// The line before a log of clauses.
    Lrat,
    /// The line before a loop of letters.
    Letters,
}

/// A part of an input that is read by tokens.
#[derive(Clone, Copy, Debug, PartialEq, Eq)]
pub enum TokenPart {
    /// A specification.
    Spec,
    /// The tables of functions and predicates, and what cells hold at first.
    Tables,
    /// The operations of functions and predicates on machine words, and what cells hold at first.
    Words,
    /// The rows of inputs.
    Inputs,
}

/// A part of an input that gives values to names.
#[derive(Clone, Copy, Debug, PartialEq, Eq)]
pub enum DataPart {
    /// The tables of functions and predicates, and what cells hold at first.
    Tables,
    /// The operations of functions and predicates on machine words, and what cells hold at first.
    Words,
    /// The rows of inputs.
    Inputs,
}

/// A rule of program texts that a line breaks.
#[derive(Drop)]
pub enum ProgramRule {
    /// The line has no form that is allowed at its place.
    Form,
    /// A node goes on to one that is not before it.
    Order,
    /// A node names no state, or a state names no node.
    Target,
    /// A node does not update each cell and then each output.
    Updates,
    /// A window is too long, its updates or its equalities are not in order, or one of these is no equality.
    Window,
    /// This signal is neither an input nor a cell.
    Unknown(Sequence<u8>),
    /// This name was used in another kind before.
    Kind(Sequence<u8>),
    /// This name was used with another number of arguments before.
    Arity(Sequence<u8>),
}

/// What a limit counts.
#[derive(Clone, Copy, Debug, PartialEq, Eq)]
pub enum LimitName {
    /// The bytes of an input.
    Text,
    /// The nodes of a specification's whole formula.
    Nodes,
    /// The clauses of a formula in conjunctive normal form.
    Clauses,
    /// The configurations of a run.
    Run,
    /// The values of tables.
    Domain,
    /// The bits of machine words.
    Width,
    /// The entries of one table.
    Entries,
    /// The rows of inputs.
    Rows,
    /// The windows of a program.
    Windows,
    /// The nodes of a program.
    ProgramNodes,
    /// The states of a program.
    ProgramStates,
    /// The variables of a formula in conjunctive normal form.
    Variables,
    /// The predicates of a specification that are tested.
    Predicates,
    /// The bits of a letter.
    Bits,
    /// The choices of a set of formulas.
    Choices,
    /// The states of an automaton.
    States,
    /// The edges of an automaton.
    Edges,
    /// The vectors of one choice for each signal.
    Vectors,
    /// The branches in which windows are looked for.
    Branches,
}

/// Why a text or the words were refused.
#[derive(Drop)]
pub enum Fault {
    /// The words are no command.
    Usage,
    /// The source failed.
    Read,
    /// This line is missing.
    Parts(Head),
    /// At this place a byte begins no blank, comment or token.
    Byte(TokenPart, Place),
    /// The comment that begins at this place is not closed.
    Comment(TokenPart, Place),
    /// At this place the part has not the form of its grammar.
    Form(TokenPart, Place),
    /// At this place a specification nests too deep.
    Deep(Place),
    /// At this place a name stands in the head of a definition that may not stand there.
    Defined(Place, Sequence<u8>),
    /// At this place a definition of this name stands that reaches itself.
    Cycle(Place, Sequence<u8>),
    /// At this place a specification uses this name in another kind than before.
    Kind(Place, Sequence<u8>),
    /// At this place a specification uses this name with another number of arguments than before.
    Arity(Place, Sequence<u8>),
    /// At this place stands a use of this name such that what it stands for nests too deep.
    DeepUse(Place, Sequence<u8>),
    /// At this place this name gets values that it does not need.
    Unknown(DataPart, Place, Sequence<u8>),
    /// At this place this name stands a second time.
    Twice(DataPart, Place, Sequence<u8>),
    /// This name is missing.
    Missing(DataPart, Sequence<u8>),
    /// The table of this name has not as many entries as its arguments have values.
    TableCount(Sequence<u8>),
    /// The table of this name has this entry, which is too large.
    TableRange(Sequence<u8>, u64),
    /// The operation of this name on machine words has another number of arguments.
    WordsArity(Sequence<u8>),
    /// The entry of this name on machine words has this number, which is no word.
    WordsRange(Sequence<u8>, u64),
    /// The row of this number, from 0, has not one value for each input.
    RowCount(u32),
    /// The row of this number, from 0, has this value, which is too large.
    RowRange(u32, u64),
    /// At this line a program breaks this rule.
    Program(u32, ProgramRule),
    /// At this line a formula in conjunctive normal form has not its form.
    CnfForm(u32),
    /// At this line a log of clauses has not its form.
    LogForm(u32),
    /// At this line an automaton has not its form.
    AutomatonForm(u32),
    /// At this line a loop of letters has not its form.
    LettersForm(u32),
    /// More is counted than this limit.
    Large(LimitName, u32),
}

/// The line that says what the fault is, with its line feed.
pub fn fault_text(alloc: Global, fault: &Fault) -> Result<Vec<u8>, NoMemory>
    ensures { IfOk result (λ text. text.items ≡ fault_text fault.now) }
{
    let mut out = Vec::new(alloc);
    put_fault(&mut out, fault)?;
    put_bytes(&mut out, b"\n")?;
    Ok(out)
}

/// Appends the line without its line feed.
fn put_fault(out: &mut Vec<u8>, fault: &Fault) -> Result<(), NoMemory>
    ensures { OnOk result (out.new.items ≡ out.old.items ++ fault_line fault.now) }
{
    match fault {
        Fault::Usage => put_bytes(
            out,
            b"usage: tsl synth|check|run|prove|recheck|gen|circuit|automaton|accepts",
        ),
        Fault::Read => put_bytes(out, b"fault read"),
        Fault::Parts(head) => put_missing(out, *head),
        Fault::Byte(part, place) => put_token_fault(out, *part, *place, b"byte", b""),
        Fault::Comment(part, place) => put_token_fault(out, *part, *place, b"comment", b""),
        Fault::Form(part, place) => put_token_fault(out, *part, *place, b"form", b""),
        Fault::Deep(place) => put_token_fault(out, TokenPart::Spec, *place, b"deep", b""),
        Fault::Defined(place, name) => {
            put_token_fault(out, TokenPart::Spec, *place, b"defined ", name.as_slice())
        }
        Fault::Cycle(place, name) => {
            put_token_fault(out, TokenPart::Spec, *place, b"cycle ", name.as_slice())
        }
        Fault::Kind(place, name) => {
            put_token_fault(out, TokenPart::Spec, *place, b"kind ", name.as_slice())
        }
        Fault::Arity(place, name) => {
            put_token_fault(out, TokenPart::Spec, *place, b"arity ", name.as_slice())
        }
        Fault::DeepUse(place, name) => {
            put_token_fault(out, TokenPart::Spec, *place, b"deepuse ", name.as_slice())
        }
        Fault::Unknown(part, place, name) => {
            put_name_fault(out, *part, *place, b"unknown ", name.as_slice())
        }
        Fault::Twice(part, place, name) => {
            put_name_fault(out, *part, *place, b"twice ", name.as_slice())
        }
        Fault::Missing(part, name) => put_missing_name(out, *part, name.as_slice()),
        Fault::TableCount(name) => put_table_count(out, name.as_slice()),
        Fault::TableRange(name, value) => put_range(out, DataPart::Tables, name.as_slice(), *value),
        Fault::WordsArity(name) => put_words_arity(out, name.as_slice()),
        Fault::WordsRange(name, value) => put_range(out, DataPart::Words, name.as_slice(), *value),
        Fault::RowCount(row) => put_row_count(out, *row),
        Fault::RowRange(row, value) => put_row_range(out, *row, *value),
        Fault::Program(line, rule) => put_program_fault(out, *line, rule),
        Fault::CnfForm(line) => put_line_fault(out, b"fault cnf ", *line),
        Fault::LogForm(line) => put_line_fault(out, b"fault log ", *line),
        Fault::AutomatonForm(line) => put_line_fault(out, b"fault automaton ", *line),
        Fault::LettersForm(line) => put_line_fault(out, b"fault letters ", *line),
        Fault::Large(name, limit) => put_large(out, *name, *limit),
    }
}

/// Appends that a line is missing which parts an input.
fn put_missing(out: &mut Vec<u8>, head: Head) -> Result<(), NoMemory>
    ensures { OnOk result
        (out.new.items ≡ out.old.items ++ codes "fault parts " ++ head_text head) }
{
    put_bytes(out, b"fault parts ")?;
    put_bytes(out, head_text(head))
}

/// Appends a fault of a part that is read by tokens: its place, a word, and what follows the word.
fn put_token_fault(
    out: &mut Vec<u8>,
    part: TokenPart,
    place: Place,
    word: &[u8],
    name: &[u8],
) -> Result<(), NoMemory>
    ensures { OnOk result
        (out.new.items ≡ out.old.items ++ token_fault part place (word.now ++ name.now)) }
{
    put_place_fault(out, part_text(part), place, word, name)
}

/// Appends a fault of a part that gives values to names: a place, a word, and the name.
fn put_name_fault(
    out: &mut Vec<u8>,
    part: DataPart,
    place: Place,
    word: &[u8],
    name: &[u8],
) -> Result<(), NoMemory>
    ensures { OnOk result
        (out.new.items ≡ out.old.items ++ name_fault part place (word.now ++ name.now)) }
{
    put_place_fault(out, data_text(part), place, word, name)
}

/// Appends a fault at a place of a part: a word, and what follows the word.
fn put_place_fault(
    out: &mut Vec<u8>,
    part: &[u8],
    place: Place,
    word: &[u8],
    name: &[u8],
) -> Result<(), NoMemory>
    ensures { OnOk result
        (out.new.items ≡ out.old.items ++ place_fault part.now place (word.now ++ name.now)) }
{
    put_bytes(out, b"fault ")?;
    put_bytes(out, part)?;
    put_bytes(out, b" ")?;
    put_place(out, place)?;
    put_bytes(out, b" ")?;
    put_bytes(out, word)?;
    put_bytes(out, name)
}

/// Appends that a name is missing in a part that gives values to names.
fn put_missing_name(out: &mut Vec<u8>, part: DataPart, name: &[u8]) -> Result<(), NoMemory>
    ensures { OnOk result (out.new.items
        ≡ out.old.items ++ codes "fault " ++ data_text part ++ codes " missing " ++ name.now) }
{
    put_bytes(out, b"fault ")?;
    put_bytes(out, data_text(part))?;
    put_bytes(out, b" missing ")?;
    put_bytes(out, name)
}

/// Appends that a table has not as many entries as its arguments have values.
fn put_table_count(out: &mut Vec<u8>, name: &[u8]) -> Result<(), NoMemory>
    ensures { OnOk result
        (out.new.items ≡ out.old.items ++ codes "fault tables count " ++ name.now) }
{
    put_bytes(out, b"fault tables count ")?;
    put_bytes(out, name)
}

/// Appends that an operation on machine words has another number of arguments than its name.
fn put_words_arity(out: &mut Vec<u8>, name: &[u8]) -> Result<(), NoMemory>
    ensures { OnOk result
        (out.new.items ≡ out.old.items ++ codes "fault words arity " ++ name.now) }
{
    put_bytes(out, b"fault words arity ")?;
    put_bytes(out, name)
}

/// Appends that a number is too large which a part gives for a name.
fn put_range(out: &mut Vec<u8>, part: DataPart, name: &[u8], value: u64) -> Result<(), NoMemory>
    ensures { OnOk result (out.new.items ≡ out.old.items ++ range_fault part name.now value) }
{
    put_bytes(out, b"fault ")?;
    put_bytes(out, data_text(part))?;
    put_bytes(out, b" range ")?;
    put_bytes(out, name)?;
    put_bytes(out, b" ")?;
    put_number(out, value)
}

/// Appends that a row has not one value for each input.
fn put_row_count(out: &mut Vec<u8>, row: u32) -> Result<(), NoMemory>
    ensures { OnOk result
        (out.new.items ≡ out.old.items ++ codes "fault inputs count " ++ decimal row) }
{
    put_bytes(out, b"fault inputs count ")?;
    put_number(out, row as u64)
}

/// Appends that a value of a row is too large.
fn put_row_range(out: &mut Vec<u8>, row: u32, value: u64) -> Result<(), NoMemory>
    ensures { OnOk result (out.new.items ≡ out.old.items
        ++ codes "fault inputs range " ++ decimal row ++ codes " " ++ decimal value) }
{
    put_bytes(out, b"fault inputs range ")?;
    put_number(out, row as u64)?;
    put_bytes(out, b" ")?;
    put_number(out, value)
}

/// Appends that a line of a program breaks a rule.
fn put_program_fault(out: &mut Vec<u8>, line: u32, rule: &ProgramRule) -> Result<(), NoMemory>
    ensures { OnOk result (out.new.items ≡ out.old.items
        ++ codes "fault program " ++ decimal line ++ codes " " ++ rule_text rule.now) }
{
    put_bytes(out, b"fault program ")?;
    put_number(out, line as u64)?;
    put_bytes(out, b" ")?;
    put_rule(out, rule)
}

/// Appends the word for a rule of programs, and the name that it speaks of.
fn put_rule(out: &mut Vec<u8>, rule: &ProgramRule) -> Result<(), NoMemory>
    ensures { OnOk result (out.new.items ≡ out.old.items ++ rule_text rule.now) }
{
    match rule {
        ProgramRule::Form => put_bytes(out, b"form"),
        ProgramRule::Order => put_bytes(out, b"order"),
        ProgramRule::Target => put_bytes(out, b"target"),
        ProgramRule::Updates => put_bytes(out, b"updates"),
        ProgramRule::Window => put_bytes(out, b"window"),
        ProgramRule::Unknown(name) => put_named(out, b"unknown ", name.as_slice()),
        ProgramRule::Kind(name) => put_named(out, b"kind ", name.as_slice()),
        ProgramRule::Arity(name) => put_named(out, b"arity ", name.as_slice()),
    }
}

/// Appends words and a name.
fn put_named(out: &mut Vec<u8>, words: &[u8], name: &[u8]) -> Result<(), NoMemory>
    ensures { OnOk result (out.new.items ≡ out.old.items ++ words.now ++ name.now) }
{
    put_bytes(out, words)?;
    put_bytes(out, name)
}

/// Appends that more is counted than a limit.
fn put_large(out: &mut Vec<u8>, name: LimitName, limit: u32) -> Result<(), NoMemory>
    ensures { OnOk result (out.new.items
        ≡ out.old.items ++ codes "large " ++ limit_text name ++ codes " " ++ decimal limit) }
{
    put_bytes(out, b"large ")?;
    put_bytes(out, limit_text(name))?;
    put_bytes(out, b" ")?;
    put_number(out, limit as u64)
}

/// Appends line and column, as `3:7`.
fn put_place(out: &mut Vec<u8>, place: Place) -> Result<(), NoMemory>
    ensures { OnOk result (out.new.items ≡ out.old.items ++ place_text place) }
{
    put_number(out, place.line as u64)?;
    put_bytes(out, b":")?;
    put_number(out, place.column as u64)
}

/// Appends a fault of form at a line, behind these words.
fn put_line_fault(out: &mut Vec<u8>, words: &[u8], line: u32) -> Result<(), NoMemory>
    ensures { OnOk result
        (out.new.items ≡ out.old.items ++ words.now ++ decimal line ++ codes " form") }
{
    put_bytes(out, words)?;
    put_number(out, line as u64)?;
    put_bytes(out, b" form")
}

/// The name of the line that a part begins behind.
fn head_text(head: Head) -> &'static [u8]
    ensures { result.now ≡ head_text head }
{
    match head {
        Head::Program => b"program",
        Head::Tables => b"tables",
        Head::Inputs => b"inputs",
        Head::Lrat => b"lrat",
        Head::Letters => b"letters",
    }
}

/// The name of a part that is read by tokens.
fn part_text(part: TokenPart) -> &'static [u8]
    ensures { result.now ≡ part_text part }
{
    match part {
        TokenPart::Spec => b"spec",
        TokenPart::Tables => b"tables",
        TokenPart::Words => b"words",
        TokenPart::Inputs => b"inputs",
    }
}

/// The name of a part that gives values to names.
fn data_text(part: DataPart) -> &'static [u8]
    ensures { result.now ≡ data_text part }
{
    match part {
        DataPart::Tables => b"tables",
        DataPart::Words => b"words",
        DataPart::Inputs => b"inputs",
    }
}

/// The name of what a limit counts.
fn limit_text(name: LimitName) -> &'static [u8]
    ensures { result.now ≡ limit_text name }
{
    match name {
        LimitName::Text => b"text",
        LimitName::Nodes => b"nodes",
        LimitName::Clauses => b"clauses",
        LimitName::Run => b"run",
        LimitName::Domain => b"domain",
        LimitName::Width => b"width",
        LimitName::Entries => b"entries",
        LimitName::Rows => b"rows",
        LimitName::Windows => b"windows",
        LimitName::ProgramNodes => b"program-nodes",
        LimitName::ProgramStates => b"program-states",
        LimitName::Variables => b"variables",
        LimitName::Predicates => b"predicates",
        LimitName::Bits => b"bits",
        LimitName::Choices => b"choices",
        LimitName::States => b"states",
        LimitName::Edges => b"edges",
        LimitName::Vectors => b"vectors",
        LimitName::Branches => b"branches",
    }
}
