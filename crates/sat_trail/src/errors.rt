//! Why there is no trail of a formula.

use base_library::NoMemory;
use std::alloc::AllocFailed;
use thiserror::Error;

/// Why there is no trail of a formula.
#[derive(Debug, Drop, Error)]
pub enum TrailError {
    /// The clause at this place is the first that has a literal and its negation.
    #[error("clause {0} has a literal and its negation")]
    Tautology(u32),
    /// Memory ran out.
    #[error("out of memory")]
    NoMemory,
}

impl From<NoMemory> for TrailError {
    ghost use Rattle.std.specs.Prelude.{◌≡◌};
    ghost use Rattle.sat_trail.specs.declared.errors.TrailError.TheVariants.{NoMemory as Exhausted};

    ghost from_gives = { λ _ e. e ≡ Exhausted };

    fn from(_error: NoMemory) -> TrailError {
        TrailError::NoMemory
    }
}

impl<T: Drop> From<AllocFailed<T>> for TrailError {
    ghost use Rattle.std.specs.Prelude.{◌≡◌};
    ghost use Rattle.sat_trail.specs.declared.errors.TrailError.TheVariants.{NoMemory as Exhausted};

    ghost from_gives = { λ _ e. e ≡ Exhausted };

    fn from(_error: AllocFailed<T>) -> TrailError {
        TrailError::NoMemory
    }
}
