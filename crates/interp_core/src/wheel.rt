//! An algebra of numbers.

ghost use Rattle.std.specs.Prelude.{◌≡◌, ◌<◌, ℕ};
ghost use Rattle.interp_core.specs.Wheel.{digits_of, wheel};

use crate::{Algebra, Judge};
use base_library::NoMemory;
use std::alloc::Global;

/// The values below a size. Each symbol has a value, or a truth, on all arguments, and each cell is 0 at first. It
/// needs no tables, so tests run over it.
#[derive(Drop)]
pub struct Wheel {
    /// How many values there are.
    pub size: u32,
    ghost some: { 0 < size },
}

/// The number that arguments write in base 3, up to multiples of the size.
fn digits(size: u32, arguments: &[u32]) -> u32
    requires { 0 < size }
    ensures { result ≡ digits_of size arguments.now }
{
    let mut number = 0u64;
    for argument in arguments {
        number = (3 * number + u64::from(*argument)) % u64::from(size);
    }
    number as u32
}

impl Algebra for Wheel {
    type Value = u32;

    ghost Seen = { ℕ };

    ghost seen = { λ v. v };

    ghost meanings = { λ judge. wheel judge.size };

    fn apply(&self, _alloc: Global, function: u32, arguments: &[u32]) -> Result<u32, NoMemory> {
        let number = u64::from(function) + u64::from(digits(self.size, arguments));
        Ok((number % u64::from(self.size)) as u32)
    }

    fn initial(&self, _alloc: Global, _cell: u32) -> Result<u32, NoMemory> {
        Ok(0)
    }

    fn copy(&self, _alloc: Global, value: &u32) -> Result<u32, NoMemory> {
        Ok(*value)
    }

    fn same(&self, a: &u32, b: &u32) -> bool {
        *a == *b
    }
}

impl Judge for Wheel {
    ghost use Rattle.std.specs.Prelude.{None};

    ghost equality_number = { λ judge. None };

    fn equality(&self) -> Option<u32> {
        None
    }

    fn test(&self, predicate: u32, arguments: &[u32]) -> bool {
        predicate <= digits(self.size, arguments)
    }
}
