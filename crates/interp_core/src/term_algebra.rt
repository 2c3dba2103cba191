//! The algebra of free terms.

ghost use Rattle.std.specs.Prelude.{◌≡◌};
ghost use Rattle.tsl_terms.specs.FreeTree.{FreeTree};
ghost use Rattle.interp_core.specs.FreeView.{free_tree};
ghost use Rattle.interp_core.specs.FreeMeanings.{free_meanings};

use crate::algebra::Algebra;
use crate::free_terms::{FreeTerm, are_equal, copy_free, list_of_copies};
use base_library::{NoMemory, Sequence};
use std::alloc::Global;

/// The algebra whose values are free terms: a function on any arguments is its own application to them, and no
/// two values are the same but where they are equal as trees.
#[derive(Drop)]
pub struct TermAlgebra {
    /// The cells. Each is its leaf at step 0 at first.
    pub cells: Sequence<u32>,
}

impl TermAlgebra {
    /// The algebra with these cells. It takes no memory.
    pub fn new(cells: Vec<u32>) -> TermAlgebra
        ensures { result.cells ≡ cells.items }
    {
        TermAlgebra {
            cells: Sequence::from_vec(cells),
        }
    }
}

impl Algebra for TermAlgebra {
    type Value = FreeTerm;

    ghost Seen = { FreeTree };

    ghost seen = { free_tree };

    ghost meanings = { λ algebra. free_meanings algebra.cells };

    fn apply(
        &self,
        alloc: Global,
        function: u32,
        arguments: &[FreeTerm],
    ) -> Result<FreeTerm, NoMemory> {
        Ok(FreeTerm::Apply(function, list_of_copies(alloc, arguments)?))
    }

    fn initial(&self, _alloc: Global, cell: u32) -> Result<FreeTerm, NoMemory> {
        Ok(FreeTerm::Leaf(cell, 0))
    }

    fn copy(&self, alloc: Global, value: &FreeTerm) -> Result<FreeTerm, NoMemory> {
        copy_free(alloc, value)
    }

    fn same(&self, a: &FreeTerm, b: &FreeTerm) -> bool {
        are_equal(a, b)
    }
}
