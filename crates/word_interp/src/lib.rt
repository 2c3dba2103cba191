//! Interpretations by machine words, as texts.
//!
//! - `Words` is an interpretation: with b bits its values are the numbers below 2 to the power b, each function
//!   is an operation on them, and each predicate a test (`specs/Operations.antt`). Nothing is tabulated.
//! - `read_words` answers `Ok` exactly where a text spells an interpretation (`specs/Words.antt`), and then
//!   that one, and each refusal has its cause there.
//! - The grammar of the text stands in the crate `table_syntax`, and which names its entries are for in
//!   `entry_names`.
//! - Laws: a text spells at most one interpretation, which has a meaning, and has at most one cause of
//!   refusal; the meanings of words are those of programs with the same cells.
#![tactic(auto)]

ghost use Rattle.std.specs.Prelude.{◌≡◌, ◌-◌, ◌<◌, ◌^◌, length, IsTrue, IfOk, IfErr};
ghost use Rattle.std.specs.List.{list_all};
ghost use Rattle.base_library.specs.Numbers.{IsDistinct};
ghost use Rattle.tsl_terms.specs.declared.names.NameKind.TheVariants.{Signal};
ghost use Rattle.tsl_terms.specs.Name.{is_name};
ghost use Rattle.tsl_meaning.specs.Interpretation.{IsInterpretation, IsEqualityOf};
ghost use Rattle.word_interp.specs.Words.{SpellsWords, HasWordsCause, IsRefusedAsWords};

use base_library::NoMemory;
use entries::words_from;
use entry_names::EntryFault;
use std::alloc::{AllocFailed, Global};
use table_syntax::{TextFault, words_of};
use thiserror::Error;
use tsl_terms::Names;

mod entries;
mod laws;
mod operations;
mod words;

pub use laws::{
    meanings_are_those_of_programs, one_cause, one_reading, what_is_spelled_has_a_meaning,
};
pub use words::Words;

/// The most bits that a word may have.
pub const MOST_BITS: u32 = 16;

/// Why a text spells no words for the names. Offsets count bytes from 0. The first cause in this order is
/// answered, but of `Byte` and `OpenComment` the one that stands first in the text. The needed names are the
/// functions and the predicates other than equality by their numbers, and then the cells.
#[derive(Debug, Drop, Error)]
pub enum WordError {
    /// The byte at this offset begins no blank, comment or token.
    #[error("byte {0} begins no token")]
    Byte(u32),
    /// The comment that begins at this offset is not closed.
    #[error("the comment at byte {0} is not closed")]
    OpenComment(u32),
    /// The first token such that no text of words begins with the tokens up to and with it; or the end of
    /// the text, where one begins with all its tokens and it is none.
    #[error("no text of words goes on with the token at byte {0}")]
    Form(u32),
    /// The words have more than 16 bits.
    #[error("the words have more than 16 bits")]
    Width,
    /// The name between these offsets is not needed, or not as what its entry is for. It is the first such
    /// entry.
    #[error("the name at byte {0} is not needed here")]
    Unknown(u32, u32),
    /// The name between these offsets has an earlier entry. It is the first such entry.
    #[error("the name at byte {0} has an earlier entry")]
    Twice(u32, u32),
    /// The name with this number is needed and has no entry. It is the first such name.
    #[error("the name with number {0} has no entry")]
    Missing(u32),
    /// The operation or the test for the name with this number takes another number of arguments. It is the
    /// first such name.
    #[error("the name with number {0} takes another number of arguments")]
    Arity(u32),
    /// The entry of the name with this number has this number, which is no word. It is the first such name.
    #[error("the number {1} is too large for the name with number {0}")]
    Range(u32, u64),
    /// Memory ran out.
    #[error("out of memory")]
    NoMemory,
}

impl From<NoMemory> for WordError {
    ghost use Rattle.word_interp.specs.declared.WordError.TheVariants.{NoMemory};

    ghost from_gives = { λ _ e. e ≡ NoMemory };

    fn from(_error: NoMemory) -> WordError {
        WordError::NoMemory
    }
}

impl<T: Drop> From<AllocFailed<T>> for WordError {
    ghost use Rattle.word_interp.specs.declared.WordError.TheVariants.{NoMemory};

    ghost from_gives = { λ _ e. e ≡ NoMemory };

    fn from(_error: AllocFailed<T>) -> WordError {
        WordError::NoMemory
    }
}

impl From<TextFault> for WordError {
    ghost use Rattle.word_interp.specs.internal.Faults.{form_error};

    ghost from_gives = { λ fault e. e ≡ form_error fault };

    fn from(fault: TextFault) -> WordError {
        match fault {
            TextFault::Byte(at) => WordError::Byte(at),
            TextFault::OpenComment(at) => WordError::OpenComment(at),
            TextFault::Form(at) => WordError::Form(at),
            TextFault::NoMemory => WordError::NoMemory,
        }
    }
}

impl From<EntryFault> for WordError {
    ghost use Rattle.word_interp.specs.internal.Faults.{entry_error};

    ghost from_gives = { λ fault e. e ≡ entry_error fault };

    fn from(fault: EntryFault) -> WordError {
        match fault {
            EntryFault::Unknown(start, end) => WordError::Unknown(start, end),
            EntryFault::Twice(start, end) => WordError::Twice(start, end),
            EntryFault::Missing(id) => WordError::Missing(id),
            EntryFault::NoMemory => WordError::NoMemory,
        }
    }
}

/// The interpretation that a text spells for the names, with a value at first for each of the cells.
///
/// An `Err` has the cause why the text spells none.
pub fn read_words(
    alloc: Global,
    text: &[u8],
    names: &Names,
    cells: &[u32],
) -> Result<Words, WordError>
    requires text { length text.now < 2 ^ 32 - 1 }
    requires cells { IsTrue (list_all (λ s. is_name names.now s Signal 0) cells.now) }
    requires distinct { IsDistinct cells.now }
    ensures ok { IfOk result (λ words. SpellsWords text.now names.now cells.now words.interpretation) }
    ensures meaning { IfOk result (λ words. IsInterpretation names.now cells.now words.interpretation) }
    ensures cells { IfOk result (λ words. words.cells ≡ cells.now) }
    ensures equality { IfOk result (λ words. IsEqualityOf names.now words.equality) }
    ensures cause { IfErr result (HasWordsCause text.now names.now cells.now) }
    ensures refused { IfErr result (IsRefusedAsWords text.now names.now cells.now) }
{
    let given = words_of(alloc, text)?;
    if given.bits > u64::from(MOST_BITS) {
        return Err(WordError::Width);
    }
    words_from(alloc, names, cells, &given)
}
