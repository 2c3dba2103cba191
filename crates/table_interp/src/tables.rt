//! Interpretations by tables.

ghost use Rattle.std.specs.Prelude.{◌≡◌, ◌^◌, ◌<◌, ◌≤◌, Some, IsSome, IsOk, IfOk, length, map, if◌then◌else◌};
ghost use Rattle.base_library.specs.Numbers.{IsDistinct};
ghost use Rattle.tsl_meaning.specs.Interpretation.{are_values, place_of_arguments, entry_at, same_two};

use crate::MOST_VALUES;
use base_library::{NoMemory, Sequence};
use indexmap::IndexMap;
use interp_core::{Algebra, Judge};
use std::alloc::Global;
use std::marker::Model;

/// A finite interpretation: a domain, a table for each function and each predicate but equality at the place of its
/// number, and a value at first for each of some cells. Values are the numbers below the domain.
#[derive(Debug, Drop)]
pub struct Tables {
    domain: u32,
    tables: Sequence<Sequence<u32>>,
    initial: IndexMap<u32, u32>,
    equality: Option<u32>,
}

impl Model for Tables {
    ghost use Rattle.std.specs.Prelude.{◌≤◌, map};
    ghost use Rattle.table_interp.specs.Meaning.{TablesMeaning};

    ghost Value = { TablesMeaning };

    ghost view = { λ t. record {
      cells = map (λ e. e.0) t.initial.entries;
      equality = t.equality;
      interpretation = record {
        domain = t.domain;
        tables = t.tables;
        initial = map (λ e. e.1) t.initial.entries;
      };
    } };

    ghost invariant = { λ t. t.domain ≤ 256 };
}

impl Tables {
    /// How many values there are.
    pub fn domain(&self) -> u32
        ensures domain { result ≡ self.now.interpretation.domain }
        ensures few { result ≤ MOST_VALUES }
    {
        self.domain
    }

    /// The interpretation with these tables, these values of the cells at first, and equality of this number.
    pub(crate) fn from_parts(
        alloc: Global,
        domain: u32,
        tables: Vec<Sequence<u32>>,
        cells: &[u32],
        initial: &[u32],
        equality: Option<u32>,
    ) -> Result<Tables, NoMemory>
        requires few { domain ≤ MOST_VALUES }
        requires distinct { IsDistinct cells.now }
        requires paired { length cells.now ≡ length initial.now }
        ensures cells { IfOk result (λ t. t.cells ≡ cells.now) }
        ensures domain { IfOk result (λ t. t.interpretation.domain ≡ domain) }
        ensures tables { IfOk result (λ t. t.interpretation.tables ≡ tables.items) }
        ensures initial { IfOk result (λ t. t.interpretation.initial ≡ initial.now) }
        ensures equality { IfOk result (λ t. t.equality ≡ equality) }
    {
        let values = values_by_cell(alloc, cells, initial)?;
        Ok(Tables {
            domain,
            tables: Sequence::from_vec(tables),
            initial: values,
            equality,
        })
    }

    /// The entry of a symbol at its arguments.
    fn entry(&self, symbol: u32, arguments: &[u32]) -> u32
        requires { IsSome (entry_at self.now.interpretation symbol arguments.now) }
        ensures { entry_at self.now.interpretation symbol arguments.now ≡ Some result }
    {
        let table = self.tables.as_slice()[symbol as usize].as_slice();
        match place_of(self.domain, arguments) {
            Some(place) => table[place],
            None => 0,
        }
    }
}

/// Each cell with its value.
fn values_by_cell(
    alloc: Global,
    cells: &[u32],
    initial: &[u32],
) -> Result<IndexMap<u32, u32>, NoMemory>
    requires distinct { IsDistinct cells.now }
    requires paired { length cells.now ≡ length initial.now }
    ensures cells { IfOk result (λ values. map (λ e. e.0) values.entries ≡ cells.now) }
    ensures initial { IfOk result (λ values. map (λ e. e.1) values.entries ≡ initial.now) }
{
    let mut values = IndexMap::new(alloc);
    for place in 0..cells.len() {
        values.insert(cells[place], initial[place])?;
    }
    Ok(values)
}

/// The place of arguments in a table: the number that they write in the base of the domain, the first one
/// being its most significant digit. `None` where one of them is no value.
fn place_of(domain: u32, arguments: &[u32]) -> Option<usize>
    requires { domain ^ length arguments.now < 2 ^ 64 }
    ensures { result ≡ (if are_values domain arguments.now then Some (place_of_arguments domain arguments.now) else None) }
{
    let mut place = 0;
    for argument in arguments {
        if *argument >= domain {
            return None;
        }
        place = place * domain as usize + *argument as usize;
    }
    Some(place)
}

/// Whether two arguments are the same.
fn are_same(arguments: &[u32]) -> bool
    requires { IsSome (same_two arguments.now) }
    ensures { same_two arguments.now ≡ Some result }
{
    match arguments {
        [a, b] => *a == *b,
        _ => false,
    }
}

impl Algebra for Tables {
    ghost use Rattle.std.specs.Prelude.{ℕ};
    ghost use Rattle.table_interp.specs.Meaning.{meanings_of};

    type Value = u32;

    ghost Seen = { ℕ };

    ghost seen = { λ v. v };

    ghost meanings = { meanings_of };

    fn apply(&self, _alloc: Global, function: u32, arguments: &[u32]) -> Result<u32, NoMemory>
        requires had { IsSome ((meanings_of self.now).function function (map (λ (v : ℕ). v) arguments.now)) }
        ensures value { IfOk result (λ v. (meanings_of self.now).function function (map (λ (v : ℕ). v) arguments.now) ≡ Some v) }
        ensures ok { IsOk result }
    {
        Ok(self.entry(function, arguments))
    }

    fn initial(&self, _alloc: Global, cell: u32) -> Result<u32, NoMemory>
        requires had { IsSome ((meanings_of self.now).initial cell) }
        ensures value { IfOk result (λ v. (meanings_of self.now).initial cell ≡ Some v) }
        ensures ok { IsOk result }
    {
        Ok(*self.initial.get(&cell).unwrap())
    }

    fn copy(&self, _alloc: Global, value: &u32) -> Result<u32, NoMemory>
        ensures value { IfOk result (λ v. v ≡ value.now) }
        ensures ok { IsOk result }
    {
        Ok(*value)
    }

    fn same(&self, a: &u32, b: &u32) -> bool {
        a == b
    }
}

impl Judge for Tables {
    ghost equality_number = { λ t. t.equality };

    fn equality(&self) -> Option<u32> {
        self.equality
    }

    fn test(&self, predicate: u32, arguments: &[u32]) -> bool {
        if self.equality == Some(predicate) {
            return are_same(arguments);
        }
        self.entry(predicate, arguments) == 1
    }
}
