//! Values of predicate terms along a path, under one reading of all functions. Where no equality is listed, those of a congruent pair are
//! equal. So a pair that is seen *looks* seen: its values are equal, and the path tells it apart.

ghost use Rattle.std.specs.Prelude.{◌≡◌, ◌<◌, ◌≤◌, ◌+◌, ◌*◌, ◌++◌, ℕ, suc, false, length, map, IfOk, OnOk};
ghost use Rattle.std.specs.List.{AllByRecursion};
ghost use Rattle.tsl_terms.specs.TermTree.{term_tree, term_trees, probe_tree};
ghost use Rattle.letter_space.specs.ControlledView.{controlled_tree};
ghost use Rattle.letter_space.specs.SpaceView.{space_tree};
ghost use Rattle.letter_space.specs.Letters.{term_taken};
ghost use Rattle.letter_space.specs.Vectors.{picks_of, vector_count};
ghost use Rattle.machines.specs.MachineView.{environment_tree};
ghost use Rattle.branch_finder.specs.internal.Values.{mixed, leaf_value, value_by, values_by, probe_value, value_after, value_in};
ghost use Rattle.branch_finder.specs.internal.Values.{AreValues, pair_at, LooksSeen};
ghost use Rattle.branch_finder.specs.internal.Looking.{pair_tree, IsWalk, IsPairWithin};

use crate::listing::term_taken;
use crate::looking::{Pair, Walk, is_told_apart};
use base_library::NoMemory;
use letter_space::{Controlled, Space};
use std::alloc::Global;
use tsl_terms::{Probe, Term, TermList};

/// An odd number whose bits are spread.
const FACTOR: u64 = 0x9E37_79B9_7F4A_7C15;

/// The values of cells at a step.
#[derive(Clone, Copy)]
pub(crate) struct Known<'a> {
    /// The cells.
    pub(crate) cells: &'a [u32],
    /// The value of each.
    pub(crate) values: &'a [u64],
    /// The step.
    pub(crate) step: u32,
}

/// A number with another one mixed in.
#[tactic(auto, unfolding(crate::specs::internal::Values::mixed))]
fn mixed(number: u64, more: u64) -> u64
    ensures { result ≡ mixed number more }
{
    let sum = number.wrapping_mul(FACTOR).wrapping_add(more);
    sum.wrapping_mul(sum.wrapping_add(sum).wrapping_add(1))
}

/// The value of a signal at a step, where it takes no term at the step before.
fn leaf_value(step: u32, signal: u32) -> u64
    ensures { result ≡ leaf_value step signal }
{
    mixed(mixed(0, u64::from(signal)), u64::from(step))
}

/// The value of a signal.
fn value_of_signal(known: &Known, signal: u32) -> u64
    requires each { length known.now.values.now ≡ length known.now.cells.now }
    ensures { result ≡ value_in known.now.cells.now known.now.values.now known.now.step signal }
{
    for (place, cell) in known.cells.iter().enumerate() {
        if *cell == signal {
            return known.values[place];
        }
    }
    leaf_value(known.step, signal)
}

/// The value of a term.
#[cycle(values)]
fn value_of(known: &Known, term: &Term) -> u64
    requires each { length known.now.values.now ≡ length known.now.cells.now }
    ensures { result ≡ value_by (value_in known.now.cells.now known.now.values.now known.now.step) (term_tree term.now) }
{
    match term {
        Term::Signal(signal) => value_of_signal(known, *signal),
        Term::Apply(function, arguments) => {
            values_of(known, mixed(1, u64::from(*function)), arguments)
        }
    }
}

/// A number with the values of terms mixed in.
#[cycle(values)]
fn values_of(known: &Known, seed: u64, terms: &TermList) -> u64
    requires each { length known.now.values.now ≡ length known.now.cells.now }
    ensures { result ≡ values_by (value_in known.now.cells.now known.now.values.now known.now.step) seed (term_trees terms.now) }
{
    let mut value = seed;
    let mut rest = terms;
    while let TermList::More(term, next) = rest {
        value = mixed(value, value_of(known, term));
        rest = next;
    }
    value
}

/// Adds the values of predicate terms at the end of others.
fn add_values(values: &mut Vec<u64>, known: &Known, predicates: &[Probe]) -> Result<(), NoMemory>
    requires each { length known.now.values.now ≡ length known.now.cells.now }
    ensures { OnOk result (values.new.items ≡ values.old.items
        ++ map (probe_value (value_in known.now.cells.now known.now.values.now known.now.step)) (map probe_tree predicates.now)) }
{
    for probe in predicates {
        values.push(values_of(
            known,
            mixed(2, u64::from(probe.predicate)),
            &probe.arguments,
        ))?;
    }
    Ok(())
}

/// The value of a cell after a step, where so much is picked at it.
fn value_after(controlled: &[Controlled], picks: &[u32], known: &Known, cell: u32) -> u64
    requires each { length known.now.values.now ≡ length known.now.cells.now }
    requires picks { length picks.now ≡ length controlled.now }
    requires short { known.now.step < 3 }
    ensures { result ≡ value_after (value_in known.now.cells.now known.now.values.now known.now.step) (suc known.now.step) cell
        (term_taken (map controlled_tree controlled.now) picks.now cell) }
{
    match term_taken(controlled, picks, cell) {
        Some(term) => value_of(known, term),
        None => leaf_value(known.step + 1, cell),
    }
}

/// The values of cells after a step under a vector.
fn values_after(
    alloc: Global,
    space: &Space,
    known: &Known,
    vector: u32,
) -> Result<Vec<u64>, NoMemory>
    requires each { length known.now.values.now ≡ length known.now.cells.now }
    requires vector { vector < vector_count (space_tree space.now).controlled }
    requires short { known.now.step < 3 }
    ensures { IfOk result (λ values. values.items ≡ map (λ s. value_after (value_in known.now.cells.now known.now.values.now known.now.step)
        (suc known.now.step) s (term_taken (space_tree space.now).controlled (picks_of (space_tree space.now).controlled vector) s))
        known.now.cells.now) }
{
    let picks = space.picks(alloc, vector)?;
    let mut values = Vec::with_capacity(alloc, known.cells.len())?;
    for cell in known.cells {
        let controlled = space.controlled.as_slice();
        values.push(value_after(controlled, picks.as_slice(), known, *cell))?;
    }
    Ok(values)
}

/// The values of cells at first.
fn first_values(alloc: Global, cells: &[u32]) -> Result<Vec<u64>, NoMemory>
    ensures { IfOk result (λ values. values.items ≡ map (leaf_value 0) cells.now) }
{
    let mut values = Vec::with_capacity(alloc, cells.len())?;
    for cell in cells {
        values.push(leaf_value(0, *cell))?;
    }
    Ok(values)
}

/// The values of the predicate terms at all steps of a path, one step after the other.
fn values_along(
    alloc: Global,
    space: &Space,
    cells: &[u32],
    path: &[u32],
) -> Result<Vec<u64>, NoMemory>
    requires vectors { AllByRecursion (λ v. v < vector_count (space_tree space.now).controlled) path.now }
    requires short { length path.now ≤ 3 }
    ensures { IfOk result (λ values. AreValues (space_tree space.now) cells.now path.now (suc (length path.now)) values.items) }
{
    let predicates = space.predicates.as_slice();
    let mut along = Vec::new(alloc);
    let mut values = first_values(alloc, cells)?;
    for (step, vector) in path.iter().enumerate() {
        let known = Known {
            cells,
            values: values.as_slice(),
            step: step as u32,
        };
        add_values(&mut along, &known, predicates)?;
        values = values_after(alloc, space, &known, *vector)?;
    }
    let known = Known {
        cells,
        values: values.as_slice(),
        step: path.len() as u32,
    };
    add_values(&mut along, &known, predicates)?;
    Ok(along)
}

/// The pair of the predicate term whose value stands at a place and of one at the last step.
fn pair_at(walk: &Walk, place: usize, right: u32) -> Pair
    requires walk { IsWalk walk.now }
    requires place { place < suc (length walk.now.path.now) * length (space_tree walk.now.search.space.now).predicates }
    requires right { right < length walk.now.search.space.now.predicates }
    ensures within { IsPairWithin walk.now result }
    ensures is { pair_tree result ≡ pair_at (space_tree walk.now.search.space.now) place right }
{
    let predicates = walk.search.space.predicates.len();
    Pair {
        left_at: (place / predicates) as u32,
        left: (place % predicates) as u32,
        right,
    }
}

/// Where the value of a predicate term at the last step stands.
fn last_place(walk: &Walk, right: u32) -> usize
    requires walk { IsWalk walk.now }
    requires right { right < length walk.now.search.space.now.predicates }
    ensures { result ≡ length walk.now.path.now * length (space_tree walk.now.search.space.now).predicates + right }
{
    walk.path.len() * walk.search.space.predicates.len() + right as usize
}

/// Whether the pair of the predicate term whose value stands at a place and of one at the last step looks seen.
fn looks_seen_at(
    alloc: Global,
    walk: &Walk,
    values: &[u64],
    place: usize,
    right: u32,
) -> Result<bool, NoMemory>
    requires walk { IsWalk walk.now }
    requires values { AreValues (space_tree walk.now.search.space.now) walk.now.search.cells.now walk.now.path.now
        (suc (length walk.now.path.now)) values.now }
    requires place { place < length values.now }
    requires right { right < length walk.now.search.space.now.predicates }
    ensures { IfOk result (λ looks. looks ≡ false → LooksSeen (space_tree walk.now.search.space.now)
        (environment_tree walk.now.search.environment.now) walk.now.search.cells.now walk.now.search.mask walk.now.path.now
        walk.now.prints.now (pair_at (space_tree walk.now.search.space.now) place right) → ⊥) }
{
    if values[place] != values[last_place(walk, right)] {
        return Ok(false);
    }
    Ok(is_told_apart(alloc, walk, pair_at(walk, place, right))?)
}

/// Whether some pair with this right bit looks seen.
fn looks_seen_with_right(
    alloc: Global,
    walk: &Walk,
    values: &[u64],
    right: u32,
) -> Result<bool, NoMemory>
    requires walk { IsWalk walk.now }
    requires values { AreValues (space_tree walk.now.search.space.now) walk.now.search.cells.now walk.now.path.now
        (suc (length walk.now.path.now)) values.now }
    requires right { right < length walk.now.search.space.now.predicates }
    ensures { IfOk result (λ looks. looks ≡ false → (left_at left : ℕ) → LooksSeen (space_tree walk.now.search.space.now)
        (environment_tree walk.now.search.environment.now) walk.now.search.cells.now walk.now.search.mask walk.now.path.now
        walk.now.prints.now (record { left_at = left_at; left = left; right = right }) → ⊥) }
{
    for place in 0..values.len() {
        if looks_seen_at(alloc, walk, values, place, right)? {
            return Ok(true);
        }
    }
    Ok(false)
}

/// Whether some pair looks seen on a path.
pub(crate) fn looks_seen(alloc: Global, walk: &Walk) -> Result<bool, NoMemory>
    requires walk { IsWalk walk.now }
    ensures { IfOk result (λ looks. looks ≡ false → (left_at left right : ℕ) → LooksSeen (space_tree walk.now.search.space.now)
        (environment_tree walk.now.search.environment.now) walk.now.search.cells.now walk.now.search.mask walk.now.path.now
        walk.now.prints.now (record { left_at = left_at; left = left; right = right }) → ⊥) }
{
    let search = &walk.search;
    let values = values_along(alloc, search.space, search.cells, walk.path)?;
    for right in 0..search.space.predicates.len() as u32 {
        if looks_seen_with_right(alloc, walk, values.as_slice(), right)? {
            return Ok(true);
        }
    }
    Ok(false)
}
