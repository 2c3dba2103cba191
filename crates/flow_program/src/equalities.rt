//! The equalities that windows list, as they are spelled.

ghost use Rattle.std.specs.Prelude.{◌≡◌, ◌==◌, ◌&&◌, ◌++◌, map, IsTrue, IfOk, OnOk};
ghost use Rattle.std.specs.List.{list_all};
ghost use Rattle.program_listing.specs.Listing.{count_of_surfaces};
ghost use Rattle.program_listing.specs.Listing.{surface_tree, surface_trees, placed_line, window_line};
ghost use Rattle.program_listing.specs.internal.NamesStand.{name_stands, surface_stands, surfaces_stand, placed_line_stands};
ghost use Rattle.program_listing.specs.internal.NamesStand.{window_line_stands};
ghost use Rattle.flow_program.specs.Rules.{is_equality_test, is_equality_within, are_in_order};
ghost use Rattle.flow_program.specs.Rules.{right_fits};
ghost use Rattle.flow_program.specs.internal.EqualityKeys.{name_key, surface_key, surfaces_key, placed_key};
ghost use Rattle.flow_program.specs.internal.EqualityKeys.{is_pairwise, does_not_fall, are_apart};

use crate::uses::name_bytes;
use base_library::NoMemory;
use program_listing::{Name, SpelledPlaced, SpelledWindow, SurfaceTerm, SurfaceTermList};
use std::alloc::Global;
use std::collections::BTreeSet;

/// Puts a name at the end of a key: its length, and its bytes.
fn put_name(key: &mut Vec<u64>, text: &[u8], name: Name) -> Result<(), NoMemory>
    requires { IsTrue (name_stands text.now name) }
    ensures { OnOk result (key.new.items ≡ key.old.items ++ name_key text.now name) }
{
    let bytes = name_bytes(text, name);
    key.push(bytes.len() as u64)?;
    for byte in bytes {
        key.push(u64::from(*byte))?;
    }
    Ok(())
}

/// Puts a term or a test at the end of a key, where it is told from each that is spelled otherwise.
#[cycle(put_surfaces)]
fn put_surface(key: &mut Vec<u64>, text: &[u8], surface: &SurfaceTerm) -> Result<(), NoMemory>
    requires { IsTrue (surface_stands text.now (surface_tree surface.now)) }
    ensures { OnOk result
        (key.new.items ≡ key.old.items ++ surface_key text.now (surface_tree surface.now)) }
{
    match surface {
        SurfaceTerm::Bare(name) => {
            key.push(0)?;
            put_name(key, text, *name)
        }
        SurfaceTerm::Applied(name, arguments) => {
            key.push(1)?;
            put_name(key, text, *name)?;
            put_surfaces(key, text, arguments)
        }
    }
}

/// Puts the members of a list at the end of a key: a 1 before each, and a 0 after the last.
#[cycle(put_surfaces)]
fn put_surfaces(key: &mut Vec<u64>, text: &[u8], surfaces: &SurfaceTermList) -> Result<(), NoMemory>
    requires { IsTrue (surfaces_stand text.now (surface_trees surfaces.now)) }
    ensures { OnOk result
        (key.new.items ≡ key.old.items ++ surfaces_key text.now (surface_trees surfaces.now)) }
{
    let mut left = surfaces;
    while let SurfaceTermList::More(surface, rest) = left {
        key.push(1)?;
        put_surface(key, text, surface)?;
        left = rest;
    }
    key.push(0)?;
    Ok(())
}

/// Whether there are two surface terms.
fn are_two(surfaces: &SurfaceTermList) -> bool
    ensures { result ≡ (count_of_surfaces (surface_trees surfaces.now) == 2) }
{
    match surfaces {
        SurfaceTermList::Empty => false,
        SurfaceTermList::More(_, rest) => match rest.as_ref() {
            SurfaceTermList::Empty => false,
            SurfaceTermList::More(_, last) => matches!(last.as_ref(), SurfaceTermList::Empty),
        },
    }
}

/// Whether a test is `eq` with two arguments.
fn is_equality_test(text: &[u8], test: &SurfaceTerm) -> bool
    requires { IsTrue (surface_stands text.now (surface_tree test.now)) }
    ensures { result ≡ is_equality_test text.now (surface_tree test.now) }
{
    match test {
        SurfaceTerm::Bare(_) => false,
        SurfaceTerm::Applied(name, arguments) => {
            name_bytes(text, *name) == b"eq".as_slice() && are_two(arguments)
        }
    }
}

/// Whether the right test of a window is an equality, where there is no left one.
pub(crate) fn right_fits(text: &[u8], window: &SpelledWindow) -> bool
    requires { IsTrue (window_line_stands text.now (window_line window.now)) }
    ensures { result
        ≡ right_fits text.now (window_line window.now).left (window_line window.now).right }
{
    match &window.left {
        Some(_) => true,
        None => is_equality_test(text, &window.right.test),
    }
}

/// Whether a test is an equality at a step up to the length.
fn is_equality_within(text: &[u8], length: u64, equality: &SpelledPlaced) -> bool
    requires { IsTrue (placed_line_stands text.now (placed_line equality.now)) }
    ensures { result ≡ is_equality_within text.now length (placed_line equality.now) }
{
    equality.step <= length && is_equality_test(text, &equality.test)
}

/// Whether all tests are equalities at steps up to the length.
fn are_within(text: &[u8], length: u64, equalities: &[SpelledPlaced]) -> bool
    requires { IsTrue (list_all (placed_line_stands text.now) (map placed_line equalities.now)) }
    ensures { result
        ≡ list_all (is_equality_within text.now length) (map placed_line equalities.now) }
{
    for equality in equalities {
        if !is_equality_within(text, length, equality) {
            return false;
        }
    }
    true
}

/// Whether the steps of equalities do not fall.
#[tactic(auto, using(crate::proofs::EqualityKeys::rises))]
fn steps_do_not_fall(equalities: &[SpelledPlaced]) -> bool
    ensures { result ≡ is_pairwise does_not_fall (map placed_line equalities.now) }
{
    let mut latest = 0;
    for equality in equalities {
        if equality.step < latest {
            return false;
        }
        latest = equality.step;
    }
    true
}

/// The step and the spelling of an equality, as one key.
fn key_of(alloc: Global, text: &[u8], equality: &SpelledPlaced) -> Result<Vec<u64>, NoMemory>
    requires { IsTrue (placed_line_stands text.now (placed_line equality.now)) }
    ensures { IfOk result (λ key. key.items ≡ placed_key text.now (placed_line equality.now)) }
{
    let mut key = Vec::new(alloc);
    key.push(equality.step)?;
    put_surface(&mut key, text, &equality.test)?;
    Ok(key)
}

/// Whether no equality stands twice at one step.
fn none_stands_twice(
    alloc: Global,
    text: &[u8],
    equalities: &[SpelledPlaced],
) -> Result<bool, NoMemory>
    requires { IsTrue (list_all (placed_line_stands text.now) (map placed_line equalities.now)) }
    ensures { IfOk result
        (λ once. once ≡ is_pairwise (are_apart text.now) (map placed_line equalities.now)) }
{
    let mut seen = BTreeSet::new(alloc);
    for equality in equalities {
        let key = key_of(alloc, text, equality)?;
        if !seen.insert(key)? {
            return Ok(false);
        }
    }
    Ok(true)
}

/// Whether tests are equalities at steps up to the length, which do not fall, and none stands twice at one step.
#[tactic(auto, using(crate::proofs::EqualityKeys::in_order))]
pub(crate) fn are_equalities(
    alloc: Global,
    text: &[u8],
    length: u64,
    equalities: &[SpelledPlaced],
) -> Result<bool, NoMemory>
    requires { IsTrue (list_all (placed_line_stands text.now) (map placed_line equalities.now)) }
    ensures { IfOk result (λ answer. answer
        ≡ (list_all (is_equality_within text.now length) (map placed_line equalities.now)
        && are_in_order text.now (map placed_line equalities.now))) }
{
    if !are_within(text, length, equalities) {
        return Ok(false);
    }
    if !steps_do_not_fall(equalities) {
        return Ok(false);
    }
    none_stands_twice(alloc, text, equalities)
}
