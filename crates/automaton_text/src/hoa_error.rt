//! Why a text is not that of an automaton.

use line_formats::TextError;
use std::alloc::AllocError as NoMemory;
use thiserror::Error;

/// Why a text is not read as an automaton.
#[derive(Debug, Drop, Error)]
pub enum HoaError {
    /// This line, counted from 1, is the first wrong one.
    #[error("line {0} is malformed")]
    Form(u32),
    /// It has more than 64 bits.
    #[error("there are more than 64 bits")]
    Bits,
    /// It has more than 4,096 states.
    #[error("there are more than 4096 states")]
    States,
    /// It has more than 200,000 edges.
    #[error("there are more than 200000 edges")]
    Edges,
    /// Memory ran out.
    #[error("out of memory")]
    NoMemory,
}

impl From<NoMemory> for HoaError {
    ghost use Rattle.std.specs.Prelude.{◌≡◌};
    ghost use Rattle.automaton_text.specs.declared.hoa_error.HoaError.TheVariants.{NoMemory as Exhausted};

    ghost from_gives = { λ _ e. e ≡ Exhausted };

    fn from(_error: NoMemory) -> HoaError {
        HoaError::NoMemory
    }
}
