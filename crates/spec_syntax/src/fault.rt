//! Why terminals are not read.

ghost use Rattle.std.specs.Prelude.{◌≡◌};

use base_library::NoMemory;
use std::alloc::AllocFailed;

/// The first fault, by how many terminals are left from the faulty one on, or want of memory.
#[derive(Drop)]
pub enum ReadFault {
    /// The grammar has no text that goes on with that terminal.
    Form(usize),
    /// The grammar has such a text, but with a level above the bound.
    Deep(usize),
    /// Memory ran out.
    NoMemory,
}

impl From<NoMemory> for ReadFault {
    ghost use Rattle.spec_syntax.specs.declared.fault.ReadFault.TheVariants.{NoMemory};

    ghost from_gives = { λ _ e. e ≡ NoMemory };

    fn from(_error: NoMemory) -> ReadFault {
        ReadFault::NoMemory
    }
}

impl<T: Drop> From<AllocFailed<T>> for ReadFault {
    ghost use Rattle.spec_syntax.specs.declared.fault.ReadFault.TheVariants.{NoMemory};

    ghost from_gives = { λ _ e. e ≡ NoMemory };

    fn from(_error: AllocFailed<T>) -> ReadFault {
        ReadFault::NoMemory
    }
}
