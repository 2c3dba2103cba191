//! The place of the entry for each name.

ghost use Rattle.std.specs.Prelude.{◌≡◌, ◌<◌, Some, is_some, option_map, length, map, slice_get, All, IfOk, IfErr, IfSome, IsSomeAnd};
ghost use Rattle.std.specs.List.{find};
ghost use Rattle.base_library.specs.Options.{passes};
ghost use Rattle.table_syntax.specs.View.{text_token_view};
ghost use Rattle.entry_names.specs.Needed.{number_for, is_for};
ghost use Rattle.entry_names.specs.Places.{AreMarksOf};
ghost use Rattle.entry_names.specs.Entries.{is_needed_as, numbers_of, has_no_entry, AreKnown, AreOnce, AreWhole, HasEntryFault, AreLocated};

use crate::named::Named;
use crate::numbering::{RepeatFault, marks, place_of, places};
use base_library::NoMemory;
use std::alloc::{AllocFailed, Global};
use table_syntax::TextToken;
use tsl_terms::{NameKind, Names, same_kind};
use tsl_text::Token;

/// Why entries are not for the needed names, one for each. Offsets count bytes from 0. The first cause in
/// this order is answered.
#[derive(Drop)]
pub enum EntryFault {
    /// The name between these offsets is not needed, or not as what its entry is for. It is the first
    /// such entry.
    Unknown(u32, u32),
    /// The name between these offsets has an earlier entry. It is the first such entry.
    Twice(u32, u32),
    /// The name with this number is needed and has no entry. It is the first such name.
    Missing(u32),
    /// Memory ran out.
    NoMemory,
}

impl From<NoMemory> for EntryFault {
    ghost use Rattle.entry_names.specs.declared.locating.EntryFault.TheVariants.{NoMemory};

    ghost from_gives = { λ _ e. e ≡ NoMemory };

    fn from(_error: NoMemory) -> EntryFault {
        EntryFault::NoMemory
    }
}

impl<T: Drop> From<AllocFailed<T>> for EntryFault {
    ghost use Rattle.entry_names.specs.declared.locating.EntryFault.TheVariants.{NoMemory};

    ghost from_gives = { λ _ e. e ≡ NoMemory };

    fn from(_error: AllocFailed<T>) -> EntryFault {
        EntryFault::NoMemory
    }
}

/// Whether the name with this number has this kind, and is needed.
fn is_needed_as(names: &Names, needed: &[u32], marks: &[bool], kind: NameKind, id: u32) -> bool
    requires within { id < length names.now }
    requires marks { AreMarksOf (length names.now) needed.now marks.now }
    ensures { result ≡ is_needed_as names.now needed.now kind id }
{
    same_kind(names.kind(id), kind) && marks[id as usize]
}

/// The number of a name, where it is needed in a kind.
fn needed_number(
    names: &Names,
    needed: &[u32],
    marks: &[bool],
    kind: NameKind,
    name: TextToken,
) -> Option<u32>
    requires { AreMarksOf (length names.now) needed.now marks.now }
    ensures value { IfSome result (λ id. number_for names.now (text_token_view name.entry) ≡ Some id) }
    ensures some { is_some result ≡ passes (is_needed_as names.now needed.now kind) (number_for names.now (text_token_view name.entry)) }
    ensures within { IfSome result (λ id. id < length names.now) }
{
    let id = names.find(name.text)?;
    if is_needed_as(names, needed, marks, kind, id) {
        Some(id)
    } else {
        None
    }
}

/// The numbers of the names that entries are for. An `Err` tells the first one that is not needed in its kind.
fn entry_numbers<E: Named>(
    alloc: Global,
    names: &Names,
    needed: &[u32],
    marks: &[bool],
    entries: &[E],
) -> Result<Vec<u32>, EntryFault>
    requires { AreMarksOf (length names.now) needed.now marks.now }
    ensures numbers { IfOk result (λ numbers. numbers_of names.now (map E.subject entries.now) ≡ map (λ n. Some n) numbers.items) }
    ensures within { IfOk result (λ numbers. All (λ n. n < length names.now) numbers.items) }
    ensures known { IfOk result (λ numbers. AreKnown names.now needed.now (map E.subject entries.now)) }
    ensures fault { IfErr result (HasEntryFault names.now needed.now (map E.subject entries.now)) }
{
    let mut numbers = Vec::new(alloc);
    for entry in entries {
        let name = entry.name();
        match needed_number(names, needed, marks, entry.kind(), name) {
            Some(number) => numbers.push(number)?,
            None => return Err(EntryFault::Unknown(name.token.start, name.token.end)),
        }
    }
    Ok(numbers)
}

/// The token of the name that the entry at a place is for.
fn name_at<E: Named>(entries: &[E], at: usize) -> Token
    requires { at < length entries.now }
    ensures { IsSomeAnd (slice_get (map E.subject entries.now) at) (λ e. result ≡ e.name.token) }
{
    entries[at].name().token
}

/// For each name the place of its entry, where each entry is for a needed name, and no two for the same one.
fn located<E: Named>(
    alloc: Global,
    names: &Names,
    needed: &[u32],
    entries: &[E],
) -> Result<Vec<Option<usize>>, EntryFault>
    requires { All (λ id. id < length names.now) needed.now }
    ensures once { IfOk result (λ places. AreOnce names.now needed.now (map E.subject entries.now)) }
    ensures located { IfOk result (λ places. AreLocated names.now (map E.subject entries.now) places.items) }
    ensures fault { IfErr result (HasEntryFault names.now needed.now (map E.subject entries.now)) }
{
    let marks = marks(alloc, names.count(), needed)?;
    let numbers = entry_numbers(alloc, names, needed, &marks, entries)?;
    match places(alloc, names.count(), &numbers) {
        Ok(places) => Ok(places),
        Err(RepeatFault::Repeat(at)) => {
            let token = name_at(entries, at);
            Err(EntryFault::Twice(token.start, token.end))
        }
        Err(RepeatFault::NoMemory) => Err(EntryFault::NoMemory),
    }
}

/// Whether a name has no entry.
fn has_no_entry<E: Named>(names: &Names, entries: &[E], places: &[Option<usize>], id: u32) -> bool
    requires located { AreLocated names.now (map E.subject entries.now) places.now }
    requires within { id < length names.now }
    ensures { result ≡ has_no_entry names.now (map E.subject entries.now) id }
{
    place_of(places, id).is_none()
}

/// The first of these names that has no entry.
fn first_missing<E: Named>(
    names: &Names,
    entries: &[E],
    places: &[Option<usize>],
    needed: &[u32],
) -> Option<u32>
    requires located { AreLocated names.now (map E.subject entries.now) places.now }
    requires within { All (λ id. id < length names.now) needed.now }
    ensures { result ≡ find (has_no_entry names.now (map E.subject entries.now)) needed.now }
{
    for id in needed {
        if has_no_entry(names, entries, places, *id) {
            return Some(*id);
        }
    }
    None
}

/// For each name the place of its entry, where each needed name has one entry, and there is none for
/// another name or in another kind.
///
/// An `Err` has the first cause why that is not so.
pub fn entry_places<E: Named>(
    alloc: Global,
    names: &Names,
    needed: &[u32],
    entries: &[E],
) -> Result<Vec<Option<usize>>, EntryFault>
    requires { All (λ id. id < length names.now) needed.now }
    ensures whole { IfOk result (λ places. AreWhole names.now needed.now (map E.subject entries.now)) }
    ensures located { IfOk result (λ places. AreLocated names.now (map E.subject entries.now) places.items) }
    ensures fault { IfErr result (HasEntryFault names.now needed.now (map E.subject entries.now)) }
{
    let places = located(alloc, names, needed, entries)?;
    if let Some(id) = first_missing(names, entries, &places, needed) {
        return Err(EntryFault::Missing(id));
    }
    Ok(places)
}

/// The entry for a name, by the places of the entries.
pub fn entry_for<'b, E: Named>(
    names: &Names,
    entries: &'b [E],
    places: &[Option<usize>],
    id: u32,
) -> Option<&'b E>
    requires located { AreLocated names.now (map E.subject entries.now) places.now }
    requires within { id < length names.now }
    ensures { option_map (λ e. e.now) result ≡ find (λ e. is_for names.now id (E.subject e).name) entries.now }
{
    match place_of(places, id) {
        None => None,
        Some(place) => Some(&entries[place]),
    }
}
