//! Interpretations by words.

ghost use Rattle.std.specs.Prelude.{◌≡◌, ◌≤◌, Some, IsSome, IsOk, IfOk, map};
ghost use Rattle.tsl_meaning.specs.Interpretation.{entry_at, same_two};
ghost use Rattle.word_interp.specs.Operations.{table_given, value_given};
ghost use Rattle.word_interp.specs.internal.Applied.{given_at};

use crate::operations::{entry_in, given_at, value_in};
use base_library::{NoMemory, Sequence};
use interp_core::{Algebra, Judge};
use std::alloc::Global;
use std::marker::Model;
use table_syntax::Given;

/// An interpretation whose values are the words of some bits: what is given for each name, at the place of
/// its number, and the number of equality. Values are the numbers below the domain.
#[derive(Drop)]
pub struct Words {
    domain: u32,
    cells: Sequence<u32>,
    given: Sequence<Option<Given>>,
    equality: Option<u32>,
}

impl Model for Words {
    ghost use Rattle.std.specs.Prelude.{◌≤◌, map};
    ghost use Rattle.word_interp.specs.Meaning.{WordsMeaning};
    ghost use Rattle.word_interp.specs.Operations.{table_given, value_given};
    ghost use Rattle.word_interp.specs.internal.Applied.{given_at};

    ghost Value = { WordsMeaning };

    ghost view = { λ w. record {
      cells = w.cells;
      equality = w.equality;
      interpretation = record {
        domain = w.domain;
        tables = map (table_given w.domain) w.given;
        initial = map (λ s. value_given w.domain (given_at w.given s)) w.cells;
      };
    } };

    ghost invariant = { λ w. (2 ≤ w.domain) × (w.domain ≤ 65536) };
}

impl Words {
    /// How many values there are: 2 to the power of the bits.
    pub fn domain(&self) -> u32
        ensures domain { result ≡ self.now.interpretation.domain }
        ensures some { 2 ≤ result }
        ensures few { result ≤ 65536 }
    {
        self.domain
    }

    /// The interpretation over so many words, with what is given for each name.
    pub(crate) fn from_parts(
        domain: u32,
        cells: Vec<u32>,
        given: Vec<Option<Given>>,
        equality: Option<u32>,
    ) -> Words
        requires some { 2 ≤ domain }
        requires few { domain ≤ 65536 }
        ensures cells { result.cells ≡ cells.items }
        ensures equality { result.equality ≡ equality }
        ensures domain { result.interpretation.domain ≡ domain }
        ensures tables { result.interpretation.tables ≡ map (table_given domain) given.items }
        ensures initial { result.interpretation.initial ≡ map (λ s. value_given domain (given_at given.items s)) cells.items }
    {
        Words {
            domain,
            cells: Sequence::from_vec(cells),
            given: Sequence::from_vec(given),
            equality,
        }
    }

    /// The entry of a symbol at its arguments.
    fn entry(&self, symbol: u32, arguments: &[u32]) -> u32
        requires { IsSome (entry_at self.now.interpretation symbol arguments.now) }
        ensures { entry_at self.now.interpretation symbol arguments.now ≡ Some result }
    {
        let given = &self.given.as_slice()[symbol as usize];
        entry_in(self.domain, given, arguments)
    }
}

/// Whether two arguments are the same.
fn are_same(arguments: &[u32]) -> bool
    requires { IsSome (same_two arguments.now) }
    ensures { same_two arguments.now ≡ Some result }
{
    match arguments {
        [a, b] => *a == *b,
        _ => false,
    }
}

impl Algebra for Words {
    ghost use Rattle.std.specs.Prelude.{ℕ};
    ghost use Rattle.word_interp.specs.Meaning.{meanings_of};

    type Value = u32;

    ghost Seen = { ℕ };

    ghost seen = { λ v. v };

    ghost meanings = { meanings_of };

    fn apply(&self, _alloc: Global, function: u32, arguments: &[u32]) -> Result<u32, NoMemory>
        requires had { IsSome ((meanings_of self.now).function function (map (λ (v : ℕ). v) arguments.now)) }
        ensures value { IfOk result (λ v. (meanings_of self.now).function function (map (λ (v : ℕ). v) arguments.now) ≡ Some v) }
        ensures ok { IsOk result }
    {
        Ok(self.entry(function, arguments))
    }

    fn initial(&self, _alloc: Global, cell: u32) -> Result<u32, NoMemory>
        requires had { IsSome ((meanings_of self.now).initial cell) }
        ensures value { IfOk result (λ v. (meanings_of self.now).initial cell ≡ Some v) }
        ensures ok { IsOk result }
    {
        Ok(value_in(self.domain, given_at(self.given.as_slice(), cell)))
    }

    fn copy(&self, _alloc: Global, value: &u32) -> Result<u32, NoMemory>
        ensures value { IfOk result (λ v. v ≡ value.now) }
        ensures ok { IsOk result }
    {
        Ok(*value)
    }

    fn same(&self, a: &u32, b: &u32) -> bool {
        a == b
    }
}

impl Judge for Words {
    ghost equality_number = { λ w. w.equality };

    fn equality(&self) -> Option<u32> {
        self.equality
    }

    fn test(&self, predicate: u32, arguments: &[u32]) -> bool {
        if self.equality == Some(predicate) {
            return are_same(arguments);
        }
        self.entry(predicate, arguments) == 1
    }
}
