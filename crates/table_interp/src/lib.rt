//! Finite interpretations by tables, and input loops, as texts.
//!
//! - `Tables` is an interpretation: a domain, a table for each function and predicate of a list of names,
//!   and a value at first for each of some cells (`specs/Meaning.antt`).
//! - `read_tables` and `read_inputs` answer `Ok` exactly where a text spells an interpretation
//!   (`specs/Tables.antt`) or rows of inputs (`specs/Inputs.antt`), and then that one, and each refusal
//!   has its cause there.
//! - What the two texts are made of and their grammars stand in the crate `table_syntax`, and which names
//!   entries are for in `entry_names`; this crate says what the numbers give.
//! - Laws: a text spells at most one interpretation or input loop, which has a meaning, and has at most one
//!   cause of refusal; the meanings of tables are those of programs with the same cells.
#![tactic(auto)]

ghost use Rattle.std.specs.Prelude.{◌≡◌, ◌-◌, ◌<◌, ◌^◌, length, IsTrue, IfOk, IfErr};
ghost use Rattle.std.specs.List.{list_all};
ghost use Rattle.base_library.specs.Numbers.{IsDistinct};
ghost use Rattle.tsl_terms.specs.declared.names.NameKind.TheVariants.{Signal};
ghost use Rattle.tsl_terms.specs.Name.{is_name};
ghost use Rattle.tsl_meaning.specs.Interpretation.{IsInterpretation, IsInputLoop, IsEqualityOf, rows_of};
ghost use Rattle.table_interp.specs.Tables.{SpellsTables, HasTableCause, IsRefusedAsTables};
ghost use Rattle.table_interp.specs.Inputs.{SpellsInputs, HasInputCause, IsRefusedAsInputs};

use base_library::NoMemory;
use entries::tables_from;
use entry_names::EntryFault;
use inputs::rows_from;
use std::alloc::{AllocFailed, Global};
use table_syntax::{TextFault, inputs_of, tables_of};
use thiserror::Error;
use tsl_meaning::InputLoop;
use tsl_terms::Names;

mod entries;
mod inputs;
mod laws;
mod tables;

pub use laws::{
    meanings_are_those_of_programs, one_cause, one_reading, what_is_spelled_has_a_meaning,
};
pub use tables::Tables;

/// The most values that a domain may have.
pub const MOST_VALUES: u32 = 256;

/// The most entries that the table of a function or a predicate may need.
pub const MOST_ENTRIES: u32 = 65_536;

/// The most rows that a text of inputs may have.
pub const MOST_ROWS: u32 = 65_536;

/// Why a text spells no tables for the names. Offsets count bytes from 0. The first cause in this order
/// is answered, but of `Byte` and `OpenComment` the one that stands first in the text. The names that
/// tables need are the functions and the predicates other than equality by their numbers, and then the
/// cells.
#[derive(Debug, Drop, Error)]
pub enum TableError {
    /// The byte at this offset begins no blank, comment or token.
    #[error("byte {0} begins no token")]
    Byte(u32),
    /// The comment that begins at this offset is not closed.
    #[error("the comment at byte {0} is not closed")]
    OpenComment(u32),
    /// The first token such that no text of tables begins with the tokens up to and with it; or the end
    /// of the text, where one begins with all its tokens and it is none.
    #[error("no text of tables goes on with the token at byte {0}")]
    Form(u32),
    /// The domain has more than 256 values.
    #[error("the domain has more than 256 values")]
    Domain,
    /// The name between these offsets is not needed, or not as what its entry is for. It is the first
    /// such entry.
    #[error("the name at byte {0} is not needed here")]
    Unknown(u32, u32),
    /// The name between these offsets has an earlier entry. It is the first such entry.
    #[error("the name at byte {0} has an earlier entry")]
    Twice(u32, u32),
    /// The name with this number is needed and has no entry. It is the first such name.
    #[error("the name with number {0} has no entry")]
    Missing(u32),
    /// The name with this number needs more than 65,536 numbers: the domain to the power of its arity.
    /// It is the first such name.
    #[error("the name with number {0} needs more than 65536 numbers")]
    Entries(u32),
    /// The entry of the name with this number has too few or too many numbers. It is the first such name.
    #[error("the entry of the name with number {0} has too few or too many numbers")]
    Count(u32),
    /// The entry of the name with this number has this number, which is too large. It is the first such
    /// name, and its first such number.
    #[error("the number {1} is too large for the name with number {0}")]
    Range(u32, u64),
    /// Memory ran out.
    #[error("out of memory")]
    NoMemory,
}

impl From<NoMemory> for TableError {
    ghost use Rattle.table_interp.specs.declared.TableError.TheVariants.{NoMemory};

    ghost from_gives = { λ _ e. e ≡ NoMemory };

    fn from(_error: NoMemory) -> TableError {
        TableError::NoMemory
    }
}

impl<T: Drop> From<AllocFailed<T>> for TableError {
    ghost use Rattle.table_interp.specs.declared.TableError.TheVariants.{NoMemory};

    ghost from_gives = { λ _ e. e ≡ NoMemory };

    fn from(_error: AllocFailed<T>) -> TableError {
        TableError::NoMemory
    }
}

/// Why a text spells no rows for the inputs. Offsets count bytes from 0, and rows count from 0, those of
/// the stem first. The first cause in this order is answered, but of `Byte` and `OpenComment` the one that
/// stands first in the text.
#[derive(Debug, Drop, Error)]
pub enum InputError {
    /// The byte at this offset begins no blank, comment or token.
    #[error("byte {0} begins no token")]
    Byte(u32),
    /// The comment that begins at this offset is not closed.
    #[error("the comment at byte {0} is not closed")]
    OpenComment(u32),
    /// The first token such that no text of inputs begins with the tokens up to and with it; or the end
    /// of the text, where one begins with all its tokens and it is none.
    #[error("no text of inputs goes on with the token at byte {0}")]
    Form(u32),
    /// The name between these offsets is that of no input. It is the first such name.
    #[error("the name at byte {0} is that of no input")]
    Unknown(u32, u32),
    /// The input between these offsets has an earlier column. It is the first such column.
    #[error("the input at byte {0} has an earlier column")]
    Twice(u32, u32),
    /// The input with this number has no column. It is the first such input.
    #[error("the input with number {0} has no column")]
    Missing(u32),
    /// There are more than 65,536 rows.
    #[error("there are more than 65536 rows")]
    Rows,
    /// This row has too few or too many numbers. It is the first such row.
    #[error("row {0} has too few or too many numbers")]
    Count(u32),
    /// This row has this number, which is not below the domain. It is the first such row, and its first
    /// such number.
    #[error("row {0} has the number {1}, which is too large")]
    Range(u32, u64),
    /// Memory ran out.
    #[error("out of memory")]
    NoMemory,
}

impl From<NoMemory> for InputError {
    ghost use Rattle.table_interp.specs.declared.InputError.TheVariants.{NoMemory};

    ghost from_gives = { λ _ e. e ≡ NoMemory };

    fn from(_error: NoMemory) -> InputError {
        InputError::NoMemory
    }
}

impl<T: Drop> From<AllocFailed<T>> for InputError {
    ghost use Rattle.table_interp.specs.declared.InputError.TheVariants.{NoMemory};

    ghost from_gives = { λ _ e. e ≡ NoMemory };

    fn from(_error: AllocFailed<T>) -> InputError {
        InputError::NoMemory
    }
}

impl From<TextFault> for TableError {
    ghost use Rattle.table_interp.specs.internal.Texts.{table_error};

    ghost from_gives = { λ fault e. e ≡ table_error fault };

    fn from(fault: TextFault) -> TableError {
        match fault {
            TextFault::Byte(at) => TableError::Byte(at),
            TextFault::OpenComment(at) => TableError::OpenComment(at),
            TextFault::Form(at) => TableError::Form(at),
            TextFault::NoMemory => TableError::NoMemory,
        }
    }
}

impl From<EntryFault> for TableError {
    ghost use Rattle.table_interp.specs.internal.Texts.{entry_error};

    ghost from_gives = { λ fault e. e ≡ entry_error fault };

    fn from(fault: EntryFault) -> TableError {
        match fault {
            EntryFault::Unknown(start, end) => TableError::Unknown(start, end),
            EntryFault::Twice(start, end) => TableError::Twice(start, end),
            EntryFault::Missing(id) => TableError::Missing(id),
            EntryFault::NoMemory => TableError::NoMemory,
        }
    }
}

impl From<TextFault> for InputError {
    ghost use Rattle.table_interp.specs.internal.Texts.{input_error};

    ghost from_gives = { λ fault e. e ≡ input_error fault };

    fn from(fault: TextFault) -> InputError {
        match fault {
            TextFault::Byte(at) => InputError::Byte(at),
            TextFault::OpenComment(at) => InputError::OpenComment(at),
            TextFault::Form(at) => InputError::Form(at),
            TextFault::NoMemory => InputError::NoMemory,
        }
    }
}

impl From<EntryFault> for InputError {
    ghost use Rattle.table_interp.specs.internal.Texts.{column_error};

    ghost from_gives = { λ fault e. e ≡ column_error fault };

    fn from(fault: EntryFault) -> InputError {
        match fault {
            EntryFault::Unknown(start, end) => InputError::Unknown(start, end),
            EntryFault::Twice(start, end) => InputError::Twice(start, end),
            EntryFault::Missing(id) => InputError::Missing(id),
            EntryFault::NoMemory => InputError::NoMemory,
        }
    }
}

/// The interpretation that a text spells for the names, with a value at first for each of the cells.
///
/// An `Err` has the cause why the text spells none.
pub fn read_tables(
    alloc: Global,
    text: &[u8],
    names: &Names,
    cells: &[u32],
) -> Result<Tables, TableError>
    requires text { length text.now < 2 ^ 32 - 1 }
    requires cells { IsTrue (list_all (λ s. is_name names.now s Signal 0) cells.now) }
    requires distinct { IsDistinct cells.now }
    ensures ok { IfOk result (λ tables. SpellsTables text.now names.now cells.now tables.interpretation) }
    ensures meaning { IfOk result (λ tables. IsInterpretation names.now cells.now tables.interpretation) }
    ensures cells { IfOk result (λ tables. tables.cells ≡ cells.now) }
    ensures equality { IfOk result (λ tables. IsEqualityOf names.now tables.equality) }
    ensures cause { IfErr result (HasTableCause text.now names.now cells.now) }
    ensures refused { IfErr result (IsRefusedAsTables text.now names.now cells.now) }
{
    let given = tables_of(alloc, text)?;
    if given.domain > u64::from(MOST_VALUES) {
        return Err(TableError::Domain);
    }
    tables_from(alloc, names, cells, &given)
}

/// The rows that a text spells for the inputs, each in the order of the inputs.
///
/// An `Err` has the cause why the text spells none.
pub fn read_inputs(
    alloc: Global,
    text: &[u8],
    names: &Names,
    inputs: &[u32],
    domain: u32,
) -> Result<InputLoop<u32>, InputError>
    requires text { length text.now < 2 ^ 32 - 1 }
    requires inputs { IsTrue (list_all (λ s. is_name names.now s Signal 0) inputs.now) }
    requires distinct { IsDistinct inputs.now }
    ensures ok { IfOk result (λ rows. SpellsInputs text.now names.now inputs.now domain (rows_of rows)) }
    ensures rows { IfOk result (λ rows. IsInputLoop domain inputs.now (rows_of rows)) }
    ensures cause { IfErr result (HasInputCause text.now names.now inputs.now domain) }
    ensures refused { IfErr result (IsRefusedAsInputs text.now names.now inputs.now domain) }
{
    let given = inputs_of(alloc, text)?;
    rows_from(alloc, names, inputs, domain, &given)
}
