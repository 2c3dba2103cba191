//! The interpretation that the entries of a text give.

ghost use Rattle.std.specs.Prelude.{◌≡◌, ◌<◌, ◌≤◌, ◌^◌, is_some, option_map, length, map, All, IsTrue, IfOk, IfErr, IfSome};
ghost use Rattle.std.specs.List.{find, list_all};
ghost use Rattle.base_library.specs.Numbers.{numbers_from};
ghost use Rattle.tsl_terms.specs.declared.names.NameKind.TheVariants.{Signal};
ghost use Rattle.tsl_terms.specs.Name.{is_name};
ghost use Rattle.tsl_meaning.specs.Interpretation.{IsEqualityOf};
ghost use Rattle.table_syntax.specs.View.{word_entry_view, word_entries_view, words_view};
ghost use Rattle.entry_names.specs.Needed.{needed};
ghost use Rattle.entry_names.specs.Entries.{word_subject_of, AreLocated, AreWhole};
ghost use Rattle.word_interp.specs.Words.{
  given_for,
  takes_others,
  no_word,
  has_other_arity,
  too_large,
  subjects_of,
  AreInRange,
  Gives,
  HasWordEntryCause,
};
ghost use Rattle.word_interp.specs.internal.Applied.{given_at};

use crate::operations::{arity_given, given_at, number_in};
use crate::words::Words;
use crate::{MOST_BITS, WordError};
use base_library::NoMemory;
use entry_names::{entry_for, entry_places, needed};
use std::alloc::Global;
use table_syntax::{Given, WordEntry, WordsText};
use tsl_terms::{Names, equality_of};

/// What is given for a name, by the places of the entries.
fn given_for(
    names: &Names,
    entries: &[WordEntry],
    places: &[Option<usize>],
    id: u32,
) -> Option<Given>
    requires located { AreLocated names.now (map (λ e. word_subject_of (word_entry_view e)) entries.now) places.now }
    requires within { id < length names.now }
    ensures { result ≡ given_for names.now (word_entries_view entries.now) id }
{
    match entry_for(names, entries, places, id) {
        None => None,
        Some(entry) => Some(entry.given),
    }
}

/// What is given for each name.
fn all_given(
    alloc: Global,
    names: &Names,
    entries: &[WordEntry],
    places: &[Option<usize>],
) -> Result<Vec<Option<Given>>, NoMemory>
    requires { AreLocated names.now (map (λ e. word_subject_of (word_entry_view e)) entries.now) places.now }
    ensures { IfOk result (λ given. given.items ≡ map (given_for names.now (word_entries_view entries.now)) (numbers_from 0 (length names.now))) }
{
    let mut given = Vec::new(alloc);
    for id in 0..names.count() {
        given.push(given_for(names, entries, places, id))?;
    }
    Ok(given)
}

/// Whether what is given for a name takes another number of arguments than the name.
fn takes_others(domain: u32, names: &Names, given: &[Option<Given>], id: u32) -> bool
    requires { id < length names.now }
    ensures { result ≡ takes_others domain names.now id (given_at given.now id) }
{
    match given_at(given, id) {
        Some(found) => arity_given(found) != names.arity(id),
        None => false,
    }
}

/// The first of these names for which that is so.
fn first_of_other_arity(
    domain: u32,
    names: &Names,
    given: &[Option<Given>],
    needed: &[u32],
) -> Option<u32>
    requires { All (λ id. id < length names.now) needed.now }
    ensures { result ≡ find (λ id. takes_others domain names.now id (given_at given.now id)) needed.now }
{
    for id in needed {
        if takes_others(domain, names, given, *id) {
            return Some(*id);
        }
    }
    None
}

/// The number that is given, where it is no word.
fn no_word(domain: u32, given: Option<Given>) -> Option<u64>
    ensures { result ≡ no_word domain given }
{
    let number = number_in(given?)?;
    if number < u64::from(domain) {
        return None;
    }
    Some(number)
}

/// The first of these names with a number that is no word, and that number.
fn first_too_large(domain: u32, given: &[Option<Given>], needed: &[u32]) -> Option<(u32, u64)>
    ensures name { option_map (λ p. p.0) result ≡ find (λ id. is_some (no_word domain (given_at given.now id))) needed.now }
    ensures number { IfSome result (λ p. no_word domain (given_at given.now p.0) ≡ Some p.1) }
{
    for id in needed {
        match no_word(domain, given_at(given, *id)) {
            Some(number) => return Some((*id, number)),
            None => (),
        }
    }
    None
}

/// Whether what is given for each needed name takes as many arguments, and has no number but a word.
fn check_given(
    domain: u32,
    names: &Names,
    cells: &[u32],
    text: &WordsText,
    given: &[Option<Given>],
    ids: &[u32],
) -> Result<(), WordError>
    requires domain { domain ≡ 2 ^ text.now.bits }
    requires whole { AreWhole names.now (needed names.now cells.now) (subjects_of (words_view text.now)) }
    requires given { given.now ≡ map (given_for names.now (words_view text.now).entries) (numbers_from 0 (length names.now)) }
    requires needed { ids.now ≡ needed names.now cells.now }
    requires within { All (λ id. id < length names.now) ids.now }
    ensures ok { IfOk result (λ _. AreInRange names.now cells.now (words_view text.now)) }
    ensures cause { IfErr result (HasWordEntryCause names.now cells.now (words_view text.now)) }
{
    if let Some(id) = first_of_other_arity(domain, names, given, ids) {
        return Err(WordError::Arity(id));
    }
    if let Some(found) = first_too_large(domain, given, ids) {
        return Err(WordError::Range(found.0, found.1));
    }
    Ok(())
}

/// How many words of so many bits there are.
fn domain_of(bits: u64) -> u32
    requires some { 1 ≤ bits }
    requires few { bits ≤ MOST_BITS }
    ensures domain { result ≡ 2 ^ bits }
    ensures some { 2 ≤ result }
    ensures few { result ≤ 65536 }
{
    2u32.pow(bits as u32)
}

/// A copy of numbers.
fn copied(alloc: Global, numbers: &[u32]) -> Result<Vec<u32>, NoMemory>
    ensures { IfOk result (λ all. all.items ≡ numbers.now) }
{
    let mut all = Vec::new(alloc);
    all.extend_from_slice(numbers)?;
    Ok(all)
}

/// The interpretation that the entries of a text give for the names and the cells.
pub(crate) fn words_from(
    alloc: Global,
    names: &Names,
    cells: &[u32],
    text: &WordsText,
) -> Result<Words, WordError>
    requires some { 1 ≤ text.now.bits }
    requires few { text.now.bits ≤ MOST_BITS }
    requires cells { IsTrue (list_all (λ s. is_name names.now s Signal 0) cells.now) }
    ensures gives { IfOk result (λ words. Gives names.now cells.now (words_view text.now) words.interpretation) }
    ensures cells { IfOk result (λ words. words.cells ≡ cells.now) }
    ensures equality { IfOk result (λ words. IsEqualityOf names.now words.equality) }
    ensures cause { IfErr result (HasWordEntryCause names.now cells.now (words_view text.now)) }
{
    let ids = needed(alloc, names, cells)?;
    let places = entry_places(alloc, names, &ids, &text.entries)?;
    let given = all_given(alloc, names, &text.entries, &places)?;
    let domain = domain_of(text.bits);
    check_given(domain, names, cells, text, &given, &ids)?;
    let kept = copied(alloc, cells)?;
    Ok(Words::from_parts(domain, kept, given, equality_of(names)))
}
