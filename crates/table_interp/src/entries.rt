//! The interpretation that the entries of a text give.

ghost use Rattle.std.specs.Prelude.{◌≡◌, ◌↔◌, ℕ, ◌<◌, ◌≤◌, ◌^◌, [], ◌∷◌, Some, not, nat_lt, IsTrue, is_some, option_map, length, map, All, IfOk, IfErr, IfSome};
ghost use Rattle.std.specs.Prelude.{IsSomeAnd};
ghost use Rattle.std.specs.Option.{SomeIff};
ghost use Rattle.std.specs.List.{find, list_all};
ghost use Rattle.base_library.specs.Numbers.{IsDistinct, numbers_from};
ghost use Rattle.base_library.specs.Options.{all_there};
ghost use Rattle.tsl_terms.specs.declared.names.NameKind.TheVariants.{Signal};
ghost use Rattle.tsl_terms.specs.Name.{is_name};
ghost use Rattle.tsl_terms.specs.Equality.{is_equality};
ghost use Rattle.tsl_meaning.specs.Interpretation.{IsEqualityOf};
ghost use Rattle.entry_names.specs.Needed.{needed};
ghost use Rattle.entry_names.specs.Entries.{AreWhole, AreLocated};
ghost use Rattle.table_interp.specs.Tables.{
  subjects_of,
  numbers_for,
  size_of,
  has_many_entries,
  has_other_length,
  limit_of,
  too_large,
  table_of,
  IsInRange,
  Gives,
  HasEntryCause,
};
ghost use Rattle.table_syntax.specs.View.{entries_view, tables_view};
ghost use Rattle.table_interp.specs.internal.Lacks.{lacks};
ghost use Rattle.table_interp.specs.internal.Located.{located_tables, IsLocated, HasSmallTable, HasOneSmall};

use crate::tables::Tables;
use crate::{MOST_ENTRIES, MOST_VALUES, TableError};
use base_library::{NoMemory, Sequence};
use entry_names::{entry_for, entry_places, is_symbol_number, needed};
use std::alloc::{AllocError, Global};
use table_syntax::{Entry, TablesText};
use tsl_terms::{NameKind, Names, equality_of};

/// The entries of a text, and the place of the entry for each name.
#[derive(Clone, Copy)]
pub(crate) struct Located<'a, 'b> {
    names: &'b Names,
    domain: u32,
    entries: &'b [Entry<'a>],
    places: &'b [Option<usize>],
}

/// The numbers that are given for a name.
fn numbers_for<'a, 'b>(given: &Located<'a, 'b>, id: u32) -> Option<&'b [u64]>
    requires located { IsLocated given.now }
    requires within { id < length given.now.names.now }
    ensures { option_map (λ ns. ns.now) result ≡ numbers_for given.now.names.now (located_tables given.now).entries id }
{
    match entry_for(given.names, given.entries, given.places, id) {
        None => None,
        Some(entry) => Some(entry.numbers.as_slice()),
    }
}

/// How many numbers a name needs. `None` where they are 2^64 or more.
fn size_of(given: &Located, id: u32) -> Option<u64>
    requires { id < length given.now.names.now }
    ensures { IsSomeAnd (size_of given.now.names.now given.now.domain id) (λ size. SomeIff result (size < 2 ^ 64) size) }
{
    u64::from(given.domain).checked_pow(given.names.arity(id))
}

/// Whether a name needs too many numbers.
fn has_many_entries(given: &Located, id: u32) -> bool
    requires { id < length given.now.names.now }
    ensures { result ≡ has_many_entries given.now.names.now (located_tables given.now) id }
{
    match size_of(given, id) {
        None => true,
        Some(size) => size > u64::from(MOST_ENTRIES),
    }
}

/// Whether a name has another number of numbers than it needs.
fn has_other_length(given: &Located, id: u32) -> bool
    requires located { IsLocated given.now }
    requires within { id < length given.now.names.now }
    ensures { result ≡ has_other_length given.now.names.now (located_tables given.now) id }
{
    match numbers_for(given, id) {
        None => false,
        Some(numbers) => match size_of(given, id) {
            None => true,
            Some(size) => numbers.len() as u64 != size,
        },
    }
}

/// What the numbers of names of a kind lie below.
fn limit_of(domain: u32, kind: NameKind) -> u64
    ensures { result ≡ limit_of domain kind }
{
    match kind {
        NameKind::Predicate => 2,
        NameKind::Signal | NameKind::Function => u64::from(domain),
    }
}

/// The first number from a limit on.
pub(crate) fn first_from(limit: u64, numbers: &[u64]) -> Option<u64>
    ensures { result ≡ find (λ v. not (nat_lt v limit)) numbers.now }
{
    for number in numbers {
        if *number >= limit {
            return Some(*number);
        }
    }
    None
}

/// The first number of a name that is too large.
fn too_large(given: &Located, id: u32) -> Option<u64>
    requires located { IsLocated given.now }
    requires within { id < length given.now.names.now }
    ensures { result ≡ too_large given.now.names.now (located_tables given.now) id }
{
    match numbers_for(given, id) {
        None => None,
        Some(numbers) => first_from(limit_of(given.domain, given.names.kind(id)), numbers),
    }
}

/// What the entry of a needed name may be refused for, before its numbers are looked at.
#[derive(Clone, Copy)]
enum Lack {
    /// It would have too many numbers.
    Room,
    /// It has not as many numbers as it needs.
    Count,
}

/// Whether the entry of a name is refused for this.
fn lacks(given: &Located, lack: Lack, id: u32) -> bool
    requires located { IsLocated given.now }
    requires within { id < length given.now.names.now }
    ensures { result ≡ lacks lack given.now.names.now (located_tables given.now) id }
{
    match lack {
        Lack::Room => has_many_entries(given, id),
        Lack::Count => has_other_length(given, id),
    }
}

/// The first of these names whose entry is refused for this.
fn first_lacking(given: &Located, lack: Lack, needed: &[u32]) -> Option<u32>
    requires located { IsLocated given.now }
    requires within { All (λ id. id < length given.now.names.now) needed.now }
    ensures { result ≡ find (lacks lack given.now.names.now (located_tables given.now)) needed.now }
{
    for id in needed {
        if lacks(given, lack, *id) {
            return Some(*id);
        }
    }
    None
}

/// The first of these names with a number that is too large, and its first such number.
fn first_too_large(given: &Located, needed: &[u32]) -> Option<(u32, u64)>
    requires located { IsLocated given.now }
    requires within { All (λ id. id < length given.now.names.now) needed.now }
    ensures name { option_map (λ p. p.0) result ≡ find (λ id. is_some (too_large given.now.names.now (located_tables given.now) id))
        needed.now }
    ensures number { IfSome result (λ p. too_large given.now.names.now (located_tables given.now) p.0 ≡ Some p.1) }
{
    for id in needed {
        match too_large(given, *id) {
            Some(value) => return Some((*id, value)),
            None => (),
        }
    }
    None
}

/// The place of the entry for each name.
fn located_entries(
    alloc: Global,
    names: &Names,
    cells: &[u32],
    ids: &[u32],
    given: &TablesText,
) -> Result<Vec<Option<usize>>, TableError>
    requires needed { ids.now ≡ needed names.now cells.now }
    requires within { All (λ id. id < length names.now) ids.now }
    ensures whole { IfOk result (λ places. AreWhole names.now (needed names.now cells.now) (subjects_of (tables_view given.now))) }
    ensures located { IfOk result (λ places. AreLocated names.now (subjects_of (tables_view given.now)) places.items) }
    ensures cause { IfErr result (HasEntryCause names.now cells.now (tables_view given.now)) }
{
    let places = entry_places(alloc, names, ids, given.entries.as_slice())?;
    Ok(places)
}

/// Whether each needed name has as many numbers as it needs, and none is too large.
fn check_entries(given: &Located, cells: &[u32], ids: &[u32]) -> Result<(), TableError>
    requires whole { AreWhole given.now.names.now (needed given.now.names.now cells.now) (subjects_of (located_tables given.now)) }
    requires located { IsLocated given.now }
    requires needed { ids.now ≡ needed given.now.names.now cells.now }
    requires within { All (λ id. id < length given.now.names.now) ids.now }
    ensures ok { IfOk result (λ _. IsInRange given.now.names.now cells.now (located_tables given.now)) }
    ensures cause { IfErr result (HasEntryCause given.now.names.now cells.now (located_tables given.now)) }
{
    if let Some(id) = first_lacking(given, Lack::Room, ids) {
        return Err(TableError::Entries(id));
    }
    if let Some(id) = first_lacking(given, Lack::Count, ids) {
        return Err(TableError::Count(id));
    }
    if let Some((id, value)) = first_too_large(given, ids) {
        return Err(TableError::Range(id, value));
    }
    Ok(())
}

/// Numbers below 2^32 as such.
pub(crate) fn narrow(alloc: Global, numbers: &[u64]) -> Result<Vec<u32>, NoMemory>
    requires { All (λ n. n < 2 ^ 32) numbers.now }
    ensures { IfOk result (λ all. all.items ≡ numbers.now) }
{
    let mut all = Vec::new(alloc);
    for number in numbers {
        all.push(*number as u32)?;
    }
    Ok(all)
}

/// The table of a function or a predicate; a signal and equality have an empty one.
fn table_of(
    alloc: Global,
    given: &Located,
    equality: Option<u32>,
    id: u32,
) -> Result<Vec<u32>, NoMemory>
    requires equality { (n : ℕ) → (equality ≡ Some n) ↔ IsTrue (is_equality given.now.names.now n) }
    requires located { IsLocated given.now }
    requires within { id < length given.now.names.now }
    requires small { HasSmallTable given.now.names.now (located_tables given.now).entries id }
    ensures { IfOk result (λ table. table_of given.now.names.now (located_tables given.now).entries id ≡ Some table.items) }
{
    if !is_symbol_number(given.names, equality, id) {
        return Ok(Vec::new(alloc));
    }
    match numbers_for(given, id) {
        Some(numbers) => narrow(alloc, numbers),
        None => Err(AllocError),
    }
}

/// The tables of all names.
fn tables_of(alloc: Global, given: &Located) -> Result<Vec<Sequence<u32>>, NoMemory>
    requires located { IsLocated given.now }
    requires small { (id : ℕ) → HasSmallTable given.now.names.now (located_tables given.now).entries id }
    ensures { IfOk result (λ tables. all_there (map (table_of given.now.names.now (located_tables given.now).entries)
        (numbers_from 0 (length given.now.names.now))) ≡ Some tables.items) }
{
    let equality = equality_of(given.names);
    let mut tables = Vec::new(alloc);
    for id in 0..given.names.count() {
        let table = table_of(alloc, given, equality, id)?;
        tables.push(Sequence::from_vec(table))?;
    }
    Ok(tables)
}

/// The number that is given for a cell.
fn value_of(given: &Located, cell: u32) -> u32
    requires located { IsLocated given.now }
    requires within { cell < length given.now.names.now }
    requires one { HasOneSmall given.now.names.now (located_tables given.now).entries cell }
    ensures { numbers_for given.now.names.now (located_tables given.now).entries cell ≡ Some (result ∷ []) }
{
    match numbers_for(given, cell) {
        Some([value, ..]) => *value as u32,
        _ => 0,
    }
}

/// The value of each cell at first.
fn initial_of(alloc: Global, given: &Located, cells: &[u32]) -> Result<Vec<u32>, NoMemory>
    requires located { IsLocated given.now }
    requires within { All (λ s. s < length given.now.names.now) cells.now }
    requires one { All (HasOneSmall given.now.names.now (located_tables given.now).entries) cells.now }
    ensures { IfOk result (λ initial. all_there (map (numbers_for given.now.names.now (located_tables given.now).entries) cells.now)
        ≡ Some (map (λ v. v ∷ []) initial.items)) }
{
    let mut initial = Vec::new(alloc);
    for cell in cells {
        initial.push(value_of(given, *cell))?;
    }
    Ok(initial)
}

/// The interpretation that the entries of a text give for the names and the cells.
#[tactic(auto, using(entry_names::proofs::NeededNames::cells_within, crate::proofs::Facts::paired, crate::proofs::Facts::small_table))]
pub(crate) fn tables_from(
    alloc: Global,
    names: &Names,
    cells: &[u32],
    given: &TablesText,
) -> Result<Tables, TableError>
    requires few { given.now.domain ≤ MOST_VALUES }
    requires cells { IsTrue (list_all (λ s. is_name names.now s Signal 0) cells.now) }
    requires distinct { IsDistinct cells.now }
    ensures gives { IfOk result (λ tables. Gives names.now cells.now (tables_view given.now) tables.interpretation) }
    ensures cells { IfOk result (λ tables. tables.cells ≡ cells.now) }
    ensures equality { IfOk result (λ tables. IsEqualityOf names.now tables.equality) }
    ensures cause { IfErr result (HasEntryCause names.now cells.now (tables_view given.now)) }
{
    let needed = needed(alloc, names, cells)?;
    let places = located_entries(alloc, names, cells, &needed, given)?;
    let located = Located {
        names,
        domain: given.domain as u32,
        entries: &given.entries,
        places: &places,
    };
    check_entries(&located, cells, &needed)?;
    let tables = tables_of(alloc, &located)?;
    let initial = initial_of(alloc, &located, cells)?;
    let equality = equality_of(names);
    let tables = Tables::from_parts(alloc, located.domain, tables, cells, &initial, equality)?;
    Ok(tables)
}
