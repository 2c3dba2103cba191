//! The first name of a text that is wrong where it stands.

ghost use Rattle.std.specs.Prelude.{◌≡◌, ◌+◌, ◌<◌, ◌≤◌, ◌^◌, length, map, position, IfOk, OnOk};
ghost use Rattle.tsl_terms.specs.declared.names.NameKind.TheVariants.{Signal};
ghost use Rattle.tsl_terms.specs.Clashes.{with_uses, first_uses, alike_in_kind, same_arity};
ghost use Rattle.name_resolution.specs.Faults.{is_plain, is_used, is_head, is_head_of};
ghost use Rattle.name_resolution.specs.Faults.{is_redefined, plain_name};
ghost use Rattle.name_resolution.specs.Faults.{plain_names, is_unlike_name, kind_fault_as};
ghost use Rattle.name_resolution.specs.Faults.{has_kind_fault, arity_fault_as, has_arity_fault};
ghost use Rattle.name_resolution.specs.Faults.{levels_for, passes_deepest, is_deep_use};
ghost use Rattle.name_resolution.specs.OccurrenceView.{occurrence_of};

use crate::defined::add_name;
use crate::occurrence::{ReadOccurrence, Role};
use base_library::NoMemory;
use std::alloc::Global;
use tsl_terms::{NameKind, Names, same_kind};

/// The deepest level.
const DEEPEST: u32 = 200;

/// Whether a name is a plain one.
fn is_plain(role: Role) -> bool
    ensures { result ≡ is_plain role }
{
    matches!(role, Role::Plain)
}

/// Whether a name is a use.
fn is_used(role: Role) -> bool
    ensures { result ≡ is_used role }
{
    matches!(role, Role::Used)
}

/// Whether a name stands in a head in which it may not stand.
fn is_redefined(occurrence: &ReadOccurrence) -> bool
    ensures { result ≡ is_redefined occurrence.now.role }
{
    matches!(occurrence.role, Role::Redefined)
}

/// Whether a name stands where it is defined.
fn is_head(role: Role) -> bool
    ensures { result ≡ is_head role }
{
    matches!(role, Role::Head)
}

/// Whether a name is defined here.
fn is_head_of(name: &[u8], occurrence: &ReadOccurrence) -> bool
    ensures { result ≡ is_head_of name.now (occurrence_of occurrence.now) }
{
    is_head(occurrence.role) && name == occurrence.text
}

/// Adds a plain name where there is none of its text.
fn add_plain(names: &mut Names, occurrence: &ReadOccurrence) -> Result<(), NoMemory>
    requires { length names.old + 1 < 2 ^ 32 }
    ensures added { OnOk result (names.new
        ≡ with_uses names.old (plain_name (occurrence_of occurrence.now))) }
    ensures few { OnOk result (length names.new ≤ length names.old + 1) }
{
    if !is_plain(occurrence.role) {
        return Ok(());
    }
    add_name(names, occurrence.text, occurrence.kind, occurrence.arity)
}

/// The plain names of a text, each as it stands first.
pub fn plain_names(alloc: Global, occurrences: &[ReadOccurrence]) -> Result<Names, NoMemory>
    requires { length occurrences.now < 2 ^ 32 }
    ensures { IfOk result (λ names. names
        ≡ first_uses (plain_names (map occurrence_of occurrences.now))) }
{
    let mut names = Names::new(alloc);
    for occurrence in occurrences {
        add_plain(&mut names, occurrence)?;
    }
    Ok(names)
}

/// Whether there is a name with its text that is of another kind.
fn differs_in_kind(names: &Names, occurrence: &ReadOccurrence) -> bool
    ensures { result ≡ is_unlike_name alike_in_kind names.now (occurrence_of occurrence.now) }
{
    match names.find(occurrence.text) {
        None => false,
        Some(number) => !same_kind(names.kind(number), occurrence.kind),
    }
}

/// Whether there is a name with its text that has another number of arguments.
fn differs_in_arity(names: &Names, occurrence: &ReadOccurrence) -> bool
    ensures { result ≡ is_unlike_name same_arity names.now (occurrence_of occurrence.now) }
{
    match names.find(occurrence.text) {
        None => false,
        Some(number) => names.arity(number) != occurrence.arity,
    }
}

/// Whether a name has a fault of its kind, where these are the plain names as they stand first.
fn has_kind_fault(firsts: &Names, occurrence: &ReadOccurrence) -> bool
    ensures { result ≡ kind_fault_as occurrence.now.role (occurrence_of occurrence.now)
        (is_unlike_name alike_in_kind firsts.now (occurrence_of occurrence.now)) }
{
    match occurrence.role {
        Role::Misused => true,
        Role::Parameter => !same_kind(occurrence.kind, NameKind::Signal),
        Role::Plain => differs_in_kind(firsts, occurrence),
        _ => false,
    }
}

/// Whether a name has a fault of its number of arguments, where these are the defined names, and the
/// plain ones as they stand first.
fn has_arity_fault(heads: &Names, firsts: &Names, occurrence: &ReadOccurrence) -> bool
    ensures { result ≡ arity_fault_as occurrence.now.role (occurrence_of occurrence.now)
        (is_unlike_name same_arity heads.now (occurrence_of occurrence.now))
        (is_unlike_name same_arity firsts.now (occurrence_of occurrence.now)) }
{
    match occurrence.role {
        Role::Used => differs_in_arity(heads, occurrence),
        Role::Plain => {
            !same_kind(occurrence.kind, NameKind::Signal) && differs_in_arity(firsts, occurrence)
        }
        _ => false,
    }
}

/// How many levels what stands in the place of a use of a name needs, where it is defined.
fn levels_for(heads: &Names, levels: &[u32], name: &[u8]) -> Option<u32>
    ensures { result ≡ levels_for heads.now levels.now name.now }
{
    let number = heads.find(name)?;
    levels.get(number as usize).copied()
}

/// Whether so many levels below this one pass the deepest one.
fn passes_deepest(level: u32, more: Option<u32>) -> bool
    ensures { result ≡ passes_deepest level more }
{
    match more {
        None => false,
        Some(more) => level as u64 + more as u64 > DEEPEST as u64,
    }
}

/// Whether a name is a use in a section such that what stands in its place passes the deepest level.
fn is_deep_use(heads: &Names, levels: &[u32], occurrence: &ReadOccurrence) -> bool
    ensures { result ≡ is_deep_use heads.now levels.now (occurrence_of occurrence.now) }
{
    is_used(occurrence.role)
        && occurrence.in_section
        && passes_deepest(occurrence.level, levels_for(heads, levels, occurrence.text))
}

/// The place of the first name that stands in a head in which it may not stand.
fn head_fault_place(occurrences: &[ReadOccurrence]) -> Option<usize>
    ensures { result ≡ position (λ o. is_redefined o.role) occurrences.now }
{
    occurrences
        .iter()
        .position(|occurrence| is_redefined(occurrence))
}

/// The place of the first name that has a fault of its kind.
fn kind_fault_place(firsts: &Names, occurrences: &[ReadOccurrence]) -> Option<usize>
    ensures { result ≡ position (λ o. kind_fault_as o.role (occurrence_of o)
        (is_unlike_name alike_in_kind firsts.now (occurrence_of o))) occurrences.now }
{
    occurrences
        .iter()
        .position(|occurrence| has_kind_fault(firsts, occurrence))
}

/// The place of the first name that has a fault of its number of arguments.
fn arity_fault_place(heads: &Names, firsts: &Names, occurrences: &[ReadOccurrence]) -> Option<usize>
    ensures { result ≡ position (λ o. arity_fault_as o.role (occurrence_of o)
        (is_unlike_name same_arity heads.now (occurrence_of o))
        (is_unlike_name same_arity firsts.now (occurrence_of o))) occurrences.now }
{
    occurrences
        .iter()
        .position(|occurrence| has_arity_fault(heads, firsts, occurrence))
}

/// The place of the first use that is too deep.
fn deep_use_place(heads: &Names, levels: &[u32], occurrences: &[ReadOccurrence]) -> Option<usize>
    ensures { result ≡ position (λ o. is_deep_use heads.now levels.now (occurrence_of o))
        occurrences.now }
{
    occurrences
        .iter()
        .position(|occurrence| is_deep_use(heads, levels, occurrence))
}

/// The place where a name is defined first.
fn place_of_head(name: &[u8], occurrences: &[ReadOccurrence]) -> Option<usize>
    ensures { result ≡ position (λ o. is_head_of name.now (occurrence_of o)) occurrences.now }
{
    occurrences
        .iter()
        .position(|occurrence| is_head_of(name, occurrence))
}

/// The place among the names of a text where this one is defined; `None` where it is not.
pub fn head_place(name: &[u8], occurrences: &[ReadOccurrence]) -> Option<usize>
    ensures { result ≡ position (is_head_of name.now) (map occurrence_of occurrences.now) }
{
    place_of_head(name, occurrences)
}

/// The place among the names of a text of the first one that stands in a head in which it may not stand:
/// a defined name that an earlier definition has, or a parameter that is a defined name or another
/// parameter of its definition. `None` where there is none.
pub fn first_head_fault(occurrences: &[ReadOccurrence]) -> Option<usize>
    ensures { result ≡ position (λ o. is_redefined o.role) (map occurrence_of occurrences.now) }
{
    head_fault_place(occurrences)
}

/// The place of the first name that is a defined name but neither where it is defined nor a use, a
/// parameter that is no signal, or a plain name of another kind than where it stands first. `None` where
/// there is none. The plain names are those of the text, each as it stands first.
pub fn first_kind_fault(firsts: &Names, occurrences: &[ReadOccurrence]) -> Option<usize>
    requires { firsts.now ≡ first_uses (plain_names (map occurrence_of occurrences.now)) }
    ensures { result ≡ position (has_kind_fault (map occurrence_of occurrences.now))
        (map occurrence_of occurrences.now) }
{
    kind_fault_place(firsts, occurrences)
}

/// The place of the first use with another number of names than its definition has parameters, or of the
/// first plain function or predicate with another number of arguments than where it stands first,
/// whichever comes first. `None` where there is none. The heads are the defined names of the text, and the
/// plain names those of the text, each as it stands first.
pub fn first_arity_fault(
    heads: &Names,
    firsts: &Names,
    occurrences: &[ReadOccurrence],
) -> Option<usize>
    requires { firsts.now ≡ first_uses (plain_names (map occurrence_of occurrences.now)) }
    ensures { result ≡ position (has_arity_fault heads.now (map occurrence_of occurrences.now))
        (map occurrence_of occurrences.now) }
{
    arity_fault_place(heads, firsts, occurrences)
}

/// The place of the first use in a section such that what stands in its place passes level 200, where the
/// levels say for each defined name how many that needs. `None` where there is none.
pub fn first_deep_use(
    heads: &Names,
    levels: &[u32],
    occurrences: &[ReadOccurrence],
) -> Option<usize>
    ensures { result ≡ position (is_deep_use heads.now levels.now)
        (map occurrence_of occurrences.now) }
{
    deep_use_place(heads, levels, occurrences)
}
