//! Terms and tests as they are spelled.

ghost use Rattle.std.specs.Prelude.{◌≡◌, suc, map, Some, IfOk, IfErr, IfSome, IfNone};
ghost use Rattle.std.specs.Char.{is_ascii_digit};
ghost use Rattle.tsl_text.specs.Names.{is_name_start};
ghost use Rattle.program_listing.specs.ListingTree.{surface_tree};
ghost use Rattle.program_listing.specs.internal.LineReading.{IsReadAs, IsUnread, begins, is_open, number_follows, argument_begins};
ghost use Rattle.program_listing.specs.internal.LineReading.{argument_follows, short, argument_surface, spaced_argument, arguments};
ghost use Rattle.program_listing.specs.internal.LineReading.{surface_of, surface_with, has_arguments, only_applied, bracketed};
ghost use Rattle.program_listing.specs.internal.LineReading.{surface_in_brackets, surface};

use crate::listing::{Name, SurfaceTerm, SurfaceTermList};
use crate::rest::{LineError, Reading, Rest};
use crate::words::{expect, first_name, is_name_start, name_len, past};
use base_library::NoMemory;
use std::alloc::Global;
use tsl_terms::DEEPEST_BRACKETS;

/// Whether the bytes begin with an opening bracket.
fn begins_with_bracket(bytes: &[u8]) -> bool
    ensures { result ≡ begins is_open bytes.now }
{
    matches!(bytes, [b'(', ..])
}

/// Whether the bytes begin as a name does.
fn begins_with_name(bytes: &[u8]) -> bool
    ensures { result ≡ begins is_name_start bytes.now }
{
    match bytes {
        [] => false,
        [first, ..] => is_name_start(*first),
    }
}

/// Whether the bytes begin with a digit.
fn begins_with_digit(bytes: &[u8]) -> bool
    ensures { result ≡ begins is_ascii_digit bytes.now }
{
    match bytes {
        [] => false,
        [first, ..] => first.is_ascii_digit(),
    }
}

/// Whether the bytes begin with a space and a number.
fn number_follows(bytes: &[u8]) -> bool
    ensures { result ≡ number_follows bytes.now }
{
    match bytes {
        [] => false,
        [first, rest @ ..] => *first == b' ' && begins_with_digit(rest),
    }
}

/// Whether the bytes begin as an argument does: with a bracket, or with a name that no number
/// follows. A word before a number, as in `p x at 1`, is no argument.
fn argument_begins(bytes: &[u8]) -> bool
    ensures { result ≡ argument_begins bytes.now }
{
    begins_with_bracket(bytes)
        || (begins_with_name(bytes) && !number_follows(&bytes[name_len(bytes)..]))
}

/// Whether the bytes begin with a space and an argument.
fn argument_follows(bytes: &[u8]) -> bool
    ensures { result ≡ argument_follows bytes.now }
{
    match bytes {
        [] => false,
        [first, rest @ ..] => *first == b' ' && argument_begins(rest),
    }
}

/// An argument without brackets: a name alone, or a constant, which `()` follows.
fn short(left: Rest<'_>) -> Reading<'_, SurfaceTerm>
    ensures ok { IfOk result (IsReadAs surface_tree short left.entry) }
    ensures wrong { IfErr result (IsUnread short left.entry) }
{
    let (name, rest) = first_name(left)?;
    match past(rest, b"()") {
        Some(rest) => Ok((SurfaceTerm::Applied(name, SurfaceTermList::Empty), rest)),
        None => Ok((SurfaceTerm::Bare(name), rest)),
    }
}

/// The level of brackets below, where there is one.
fn one_level_less(levels_left: u32) -> Option<u32>
    ensures some { IfSome result (λ below. levels_left ≡ suc below) }
    ensures none { IfNone result (levels_left ≡ 0) }
{
    levels_left.checked_sub(1)
}

/// Whether the surface term has arguments.
fn has_arguments(surface: &SurfaceTerm) -> bool
    ensures { result ≡ has_arguments (surface_tree surface.now) }
{
    matches!(
        surface,
        SurfaceTerm::Applied(_, SurfaceTermList::More(_, _))
    )
}

/// A surface term that has arguments, where so many levels of brackets are left.
#[cycle(surface)]
fn applied_surface(alloc: Global, levels_left: u32, left: Rest<'_>) -> Reading<'_, SurfaceTerm>
    ensures ok { IfOk result
        (IsReadAs surface_tree (only_applied (surface_with (surface_in_brackets levels_left))) left.entry) }
    ensures wrong { IfErr result
        (IsUnread (only_applied (surface_with (surface_in_brackets levels_left))) left.entry) }
{
    let (surface, rest) = surface_with(alloc, levels_left, left)?;
    if !has_arguments(&surface) {
        return Err(LineError::Form);
    }
    Ok((surface, rest))
}

/// A surface term with arguments in brackets, where so many levels are left within them.
#[cycle(surface)]
fn bracketed(alloc: Global, levels_left: u32, left: Rest<'_>) -> Reading<'_, SurfaceTerm>
    ensures ok { IfOk result
        (IsReadAs surface_tree (bracketed (surface_in_brackets levels_left)) left.entry) }
    ensures wrong { IfErr result (IsUnread (bracketed (surface_in_brackets levels_left)) left.entry) }
{
    let inner = expect(left, b"(")?;
    let (surface, rest) = applied_surface(alloc, levels_left, inner)?;
    let rest = expect(rest, b")")?;
    Ok((surface, rest))
}

/// A surface term with arguments in brackets, where so many levels of brackets are left.
#[cycle(surface)]
#[tactic(auto, using(crate::proofs::BracketLevels::no_level))]
fn surface_in_brackets(alloc: Global, levels_left: u32, left: Rest<'_>) -> Reading<'_, SurfaceTerm>
    ensures ok { IfOk result (IsReadAs surface_tree (surface_in_brackets levels_left) left.entry) }
    ensures wrong { IfErr result (IsUnread (surface_in_brackets levels_left) left.entry) }
{
    match one_level_less(levels_left) {
        Some(below) => bracketed(alloc, below, left),
        None => Err(LineError::Form),
    }
}

/// An argument.
#[cycle(surface)]
fn argument(alloc: Global, levels_left: u32, left: Rest<'_>) -> Reading<'_, SurfaceTerm>
    ensures ok { IfOk result
        (IsReadAs surface_tree (argument_surface (surface_in_brackets levels_left)) left.entry) }
    ensures wrong { IfErr result (IsUnread (argument_surface (surface_in_brackets levels_left)) left.entry) }
{
    if begins_with_bracket(left.bytes) {
        return surface_in_brackets(alloc, levels_left, left);
    }
    short(left)
}

/// A space and an argument.
#[cycle(surface)]
fn spaced_argument(alloc: Global, levels_left: u32, left: Rest<'_>) -> Reading<'_, SurfaceTerm>
    ensures ok { IfOk result
        (IsReadAs surface_tree (spaced_argument (surface_in_brackets levels_left)) left.entry) }
    ensures wrong { IfErr result (IsUnread (spaced_argument (surface_in_brackets levels_left)) left.entry) }
{
    let rest = expect(left, b" ")?;
    argument(alloc, levels_left, rest)
}

/// Arguments with a space before each, which may be none.
#[cycle(surface)]
fn arguments(alloc: Global, levels_left: u32, left: Rest<'_>) -> Reading<'_, Vec<SurfaceTerm>>
    ensures ok { IfOk result
        (IsReadAs (λ ps. map surface_tree ps.items) (arguments (surface_in_brackets levels_left)) left.entry) }
    ensures wrong { IfErr result (IsUnread (arguments (surface_in_brackets levels_left)) left.entry) }
{
    let mut found = Vec::new(alloc);
    let mut rest = left;
    while argument_follows(rest.bytes) {
        let (argument, later) = spaced_argument(alloc, levels_left, rest)?;
        found.push(argument)?;
        rest = later;
    }
    Ok((found, rest))
}

/// A name with its arguments, which may be none.
fn surface_of(
    alloc: Global,
    name: Name,
    arguments: Vec<SurfaceTerm>,
) -> Result<SurfaceTerm, NoMemory>
    ensures { IfOk result (λ surface.
        surface_tree surface ≡ surface_of name (map surface_tree arguments.items)) }
{
    if arguments.is_empty() {
        return Ok(SurfaceTerm::Bare(name));
    }
    Ok(SurfaceTerm::Applied(name, SurfaceTermList::from_vec(alloc, arguments)?))
}

/// A term or a test, where so many levels of brackets are left.
#[cycle(surface)]
fn surface_with(alloc: Global, levels_left: u32, left: Rest<'_>) -> Reading<'_, SurfaceTerm>
    ensures ok { IfOk result (IsReadAs surface_tree (surface_with (surface_in_brackets levels_left)) left.entry) }
    ensures wrong { IfErr result (IsUnread (surface_with (surface_in_brackets levels_left)) left.entry) }
{
    let (name, rest) = first_name(left)?;
    if let Some(rest) = past(rest, b"()") {
        return Ok((SurfaceTerm::Applied(name, SurfaceTermList::Empty), rest));
    }
    let (arguments, rest) = arguments(alloc, levels_left, rest)?;
    let surface = surface_of(alloc, name, arguments)?;
    Ok((surface, rest))
}

/// A term or a test.
pub fn surface(alloc: Global, left: Rest<'_>) -> Reading<'_, SurfaceTerm>
    ensures ok { IfOk result (IsReadAs surface_tree surface left.entry) }
    ensures wrong { IfErr result (IsUnread surface left.entry) }
{
    surface_with(alloc, DEEPEST_BRACKETS, left)
}
