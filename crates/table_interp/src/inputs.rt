//! The rows that the columns and rows of a text give.

ghost use Rattle.std.specs.Prelude.{◌≡◌, ℕ, ◌<◌, ◌≤◌, ◌^◌, ◌++◌, Some, None, true, IsTrue, is_some, not, option_map, length, map, slice_get, All, IfOk, IfErr, IfSome, IfNone, IsSomeAnd};
ghost use Rattle.std.specs.Prelude.{MatchOption};
ghost use Rattle.std.specs.List.{find, list_all};
ghost use Rattle.base_library.specs.Numbers.{IsDistinct};
ghost use Rattle.base_library.specs.Options.{all_there};
ghost use Rattle.tsl_terms.specs.declared.names.NameKind.TheVariants.{Signal};
ghost use Rattle.tsl_terms.specs.Name.{is_name};
ghost use Rattle.tsl_meaning.specs.Interpretation.{rows_of};
ghost use Rattle.entry_names.specs.Entries.{AreLocated};
ghost use Rattle.table_interp.specs.Inputs.{
  has_other_width,
  is_no_value,
  all_rows,
  by_inputs,
  IsFirstAt,
  AreWhole,
  AreCounted,
  AreInRange,
  GivesRows,
  HasRowCause,
};
ghost use Rattle.table_syntax.specs.View.{inputs_view, numbers_view};
ghost use Rattle.table_interp.specs.internal.Rules.{breaks};
ghost use Rattle.table_interp.specs.internal.Ordered.{columns_of, HavePlaces, AreOrdered};

use crate::entries::first_from;
use crate::{InputError, MOST_ROWS};
use base_library::{NoMemory, Sequence};
use entry_names::{entry_places, place_of};
use std::alloc::{AllocError, Global};
use table_syntax::InputsText;
use tsl_meaning::InputLoop;
use tsl_terms::Names;

/// The place of the column for each name, where each input has one column, and there is none for another name.
#[tactic(auto, using(entry_names::proofs::NeededNames::cells_within))]
fn column_places(
    alloc: Global,
    names: &Names,
    inputs: &[u32],
    given: &InputsText,
) -> Result<Vec<Option<usize>>, InputError>
    requires inputs { IsTrue (list_all (λ s. is_name names.now s Signal 0) inputs.now) }
    ensures whole { IfOk result (λ places. AreWhole names.now inputs.now (inputs_view given.now)) }
    ensures located { IfOk result (λ places. AreLocated names.now (columns_of (inputs_view given.now)) places.items) }
    ensures cause { IfErr result (λ e. (domain : ℕ) → HasRowCause names.now inputs.now (inputs_view given.now) domain e) }
{
    let places = entry_places(alloc, names, inputs, given.names.as_slice())?;
    Ok(places)
}

/// What each row has to keep.
#[derive(Clone, Copy)]
enum Rule<'a> {
    /// It has one number for each of these inputs.
    Width(&'a [u32]),
    /// Each of its numbers is below this.
    Values(u32),
}

/// Whether a row does not keep a rule.
fn breaks(rule: Rule, row: &[u64]) -> bool
    ensures { result ≡ breaks rule.entry row.now }
{
    match rule {
        Rule::Width(inputs) => row.len() != inputs.len(),
        Rule::Values(domain) => first_from(u64::from(domain), row).is_some(),
    }
}

/// The place of the first row that does not keep a rule.
fn first_breaking(rule: Rule, rows: &[Vec<u64>]) -> Option<usize>
    ensures { MatchOption result (find (breaks rule.entry) (numbers_view rows.now) ≡ None)
        (IsFirstAt (breaks rule.entry) (numbers_view rows.now)) }
{
    for (place, row) in rows.iter().enumerate() {
        if breaks(rule, row) {
            return Some(place);
        }
    }
    None
}

/// The place of the first row that does not keep a rule, those of the stem first.
fn first_row(rule: Rule, given: &InputsText) -> Option<usize>
    ensures { MatchOption result (find (breaks rule.entry) (all_rows (inputs_view given.now)) ≡ None)
        (IsFirstAt (breaks rule.entry) (all_rows (inputs_view given.now))) }
{
    match first_breaking(rule, &given.stem) {
        Some(place) => Some(place),
        None => match first_breaking(rule, &given.cycle) {
            Some(place) => Some(given.stem.len() + place),
            None => None,
        },
    }
}

/// The numbers of the row at a place, those of the stem first.
fn row_at<'a, 'b>(given: &'b InputsText<'a>, place: usize) -> &'b [u64]
    requires { place < length (all_rows (inputs_view given.now)) }
    ensures { slice_get (all_rows (inputs_view given.now)) place ≡ Some result.now }
{
    if place < given.stem.len() {
        given.stem[place].as_slice()
    } else {
        given.cycle[place - given.stem.len()].as_slice()
    }
}

/// Whether there are few enough rows, and each has one number for each input.
fn check_widths(names: &Names, inputs: &[u32], given: &InputsText) -> Result<(), InputError>
    requires { AreWhole names.now inputs.now (inputs_view given.now) }
    ensures ok { IfOk result (λ _. AreCounted names.now inputs.now (inputs_view given.now)) }
    ensures cause { IfErr result (λ e. (domain : ℕ) → HasRowCause names.now inputs.now (inputs_view given.now) domain e) }
{
    if given.stem.len() > MOST_ROWS as usize
        || given.cycle.len() > MOST_ROWS as usize - given.stem.len()
    {
        return Err(InputError::Rows);
    }
    if let Some(row) = first_row(Rule::Width(inputs), given) {
        return Err(InputError::Count(row as u32));
    }
    Ok(())
}

/// Whether each number of the rows is a value.
fn check_values(
    names: &Names,
    inputs: &[u32],
    domain: u32,
    given: &InputsText,
) -> Result<(), InputError>
    requires { AreCounted names.now inputs.now (inputs_view given.now) }
    ensures ok { IfOk result (λ _. AreInRange names.now inputs.now (inputs_view given.now) domain) }
    ensures cause { IfErr result (HasRowCause names.now inputs.now (inputs_view given.now) domain) }
{
    if let Some(row) = first_row(Rule::Values(domain), given) {
        return match first_from(u64::from(domain), row_at(given, row)) {
            Some(value) => Err(InputError::Range(row as u32, value)),
            None => Err(InputError::NoMemory),
        };
    }
    Ok(())
}

/// The place of the column of each input.
fn order_of(alloc: Global, places: &[Option<usize>], inputs: &[u32]) -> Result<Vec<usize>, NoMemory>
    requires { HavePlaces places.now inputs.now }
    ensures { IfOk result (λ order. AreOrdered places.now inputs.now order.items) }
{
    let mut order = Vec::new(alloc);
    for id in inputs {
        order.push(place_of(places, *id).unwrap())?;
    }
    Ok(order)
}

/// The number at a place of a row.
fn value_at(row: &[u64], place: usize) -> Option<u32>
    requires { All (λ v. v < 2 ^ 32) row.now }
    ensures { IfSome result (λ v. slice_get row.now place ≡ Some v) }
{
    if place < row.len() {
        Some(row[place] as u32)
    } else {
        None
    }
}

/// A row in the order of the inputs.
fn ordered(alloc: Global, order: &[usize], row: &[u64]) -> Result<Vec<u32>, NoMemory>
    requires { All (λ v. v < 2 ^ 32) row.now }
    ensures { IfOk result (λ values. map (λ v. Some v) values.items ≡ map (slice_get row.now) order.now) }
{
    let mut values = Vec::new(alloc);
    for place in order {
        match value_at(row, *place) {
            Some(value) => values.push(value)?,
            None => return Err(AllocError),
        }
    }
    Ok(values)
}

/// Rows in the order of the inputs.
fn all_ordered(
    alloc: Global,
    order: &[usize],
    rows: &[Vec<u64>],
) -> Result<Vec<Sequence<u32>>, NoMemory>
    requires { All (λ r. All (λ v. v < 2 ^ 32) r) (numbers_view rows.now) }
    ensures { IfOk result (λ all. map (λ r. map (λ v. Some v) r) all.items
        ≡ map (λ r. map (slice_get r) order.now) (numbers_view rows.now)) }
{
    let mut all = Vec::new(alloc);
    for row in rows {
        let values = ordered(alloc, order, row)?;
        all.push(Sequence::from_vec(values))?;
    }
    Ok(all)
}

/// The rows that the columns and rows of a text give for the inputs, each in their order.
pub(crate) fn rows_from(
    alloc: Global,
    names: &Names,
    inputs: &[u32],
    domain: u32,
    given: &InputsText,
) -> Result<InputLoop<u32>, InputError>
    requires some { 0 < length given.now.cycle.items }
    requires inputs { IsTrue (list_all (λ s. is_name names.now s Signal 0) inputs.now) }
    ensures gives { IfOk result (λ rows. GivesRows names.now inputs.now (inputs_view given.now) domain (rows_of rows)) }
    ensures cause { IfErr result (HasRowCause names.now inputs.now (inputs_view given.now) domain) }
{
    let places = column_places(alloc, names, inputs, given)?;
    check_widths(names, inputs, given)?;
    check_values(names, inputs, domain, given)?;
    let order = order_of(alloc, &places, inputs)?;
    let stem = all_ordered(alloc, &order, &given.stem)?;
    let cycle = all_ordered(alloc, &order, &given.cycle)?;
    Ok(InputLoop {
        stem: Sequence::from_vec(stem),
        cycle: Sequence::from_vec(cycle),
    })
}
