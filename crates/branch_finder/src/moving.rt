//! Where an environment may be after steps with updates of sets, by states with prints: planes of states.

ghost use Rattle.std.specs.Prelude.{◌≡◌, ◌*◌, ◌<◌, ◌↔◌, ◌&&◌, ◌||◌, ◌==◌, ℕ, suc, true, map, length, bit_and, IsTrue, IfOk};
ghost use Rattle.std.specs.List.{AllByRecursion};
ghost use Rattle.lane_planes.specs.Planes.{has_bit};
ghost use Rattle.letter_space.specs.SpaceView.{space_tree};
ghost use Rattle.machines.specs.MachineView.{environment_tree};
ghost use Rattle.branch_finder.specs.internal.Sets.{numbered_set};
ghost use Rattle.branch_finder.specs.internal.Planes.{IsPlaneOf, words_of, IsListed, GoesFrom, ComesFrom, IsKept};
ghost use Rattle.branch_finder.specs.internal.Looking.{IsSearch};

use crate::looking::Search;
use crate::planes::{has_bit, no_bits, set_bit};
use crate::prints::Wanted;
use base_library::{NoMemory, Sequence};
use lane_planes::or_into;
use machines::Environment;
use std::alloc::Global;

/// The states in which an environment may be at first or later, as a plane.
pub(crate) fn plane_of(alloc: Global, states: u32, listed: &[u32]) -> Result<Vec<u64>, NoMemory>
    requires within { AllByRecursion (λ s. s < states) listed.now }
    ensures { IfOk result (λ plane. IsPlaneOf states (IsListed listed.now (length listed.now)) plane.items) }
{
    let mut plane = no_bits(alloc, states as usize)?;
    for state in listed {
        set_bit(&mut plane, *state as usize);
    }
    Ok(plane)
}

/// Adds the states of a row where a state is one of a plane.
fn add_row(next: &mut [u64], plane: &[u64], state: usize, row: &[u64])
    requires state { state < 64 * length plane.now }
    requires row { length row.now ≡ length next.old }
    ensures bits { (i : ℕ) → has_bit next.new i ≡ (has_bit next.old i || (has_bit plane.now state && has_bit row.now i)) }
    ensures size { length next.new ≡ length next.old }
{
    if has_bit(plane, state) {
        or_into(next, row);
    }
}

/// The states that those of a plane go to under vectors with all updates of a set, by rows of links.
fn stepped(alloc: Global, search: &Search, plane: &[u64], number: u32) -> Result<Vec<u64>, NoMemory>
    requires search { IsSearch search.now }
    requires size { length plane.now ≡ words_of search.now.environment.now.states }
    requires number { number < length search.now.firsts.now }
    ensures { IfOk result (λ next. IsPlaneOf search.now.environment.now.states (GoesFrom (space_tree search.now.space.now)
        (environment_tree search.now.environment.now)
        (numbered_set (space_tree search.now.space.now) search.now.cells.now search.now.firsts.now number) plane.now
        search.now.environment.now.states) next.items) }
{
    let rows = search.links[number as usize].as_slice();
    let mut next = no_bits(alloc, search.environment.states as usize)?;
    for (state, row) in rows.iter().enumerate() {
        add_row(&mut next, plane, state, row.as_slice());
    }
    Ok(next)
}

/// The states that those of a plane lead to along the sets with these numbers, by states with these prints.
pub(crate) fn states_after(
    alloc: Global,
    search: &Search,
    plane: &[u64],
    numbers: &[u32],
    prints: &[u32],
) -> Result<Vec<u64>, NoMemory>
    requires search { IsSearch search.now }
    requires size { length plane.now ≡ words_of search.now.environment.now.states }
    requires numbers { AllByRecursion (λ n. n < length search.now.firsts.now) numbers.now }
    requires prints { length prints.now ≡ suc (length numbers.now) }
    ensures { IfOk result (λ states. IsPlaneOf search.now.environment.now.states (ComesFrom (space_tree search.now.space.now)
        (environment_tree search.now.environment.now) search.now.mask
        (map (numbered_set (space_tree search.now.space.now) search.now.cells.now search.now.firsts.now) numbers.now) prints.now plane.now)
        states.items) }
{
    let mut states = plane.to_vec(alloc)?;
    for (step, number) in numbers.iter().enumerate() {
        let print = print_wanted(search, prints[step]);
        let from = states_with(alloc, search.environment, states.as_slice(), print)?;
        states = stepped(alloc, search, from.as_slice(), *number)?;
    }
    let print = print_wanted(search, prints[numbers.len()]);
    Ok(states_with(alloc, search.environment, states.as_slice(), print)?)
}

/// That a state has a print.
fn print_wanted(search: &Search, print: u32) -> Wanted
    ensures mask { result.mask ≡ search.now.mask }
    ensures bits { result.bits ≡ print }
{
    Wanted {
        mask: search.mask,
        bits: print,
    }
}

/// Whether a state is one of a plane, where so much is true and is as wanted.
fn belongs(plane: &[u64], state: usize, truths: u32, wanted: Wanted) -> bool
    requires state { state < 64 * length plane.now }
    ensures { IsTrue result ↔ ((has_bit plane.now state ≡ true) × (bit_and truths wanted.mask ≡ wanted.bits)) }
{
    has_bit(plane, state) && truths & wanted.mask == wanted.bits
}

/// Sets a bit of a plane where it belongs there.
fn set_if(plane: &mut [u64], bit: usize, belongs: bool)
    requires within { bit < 64 * length plane.old }
    ensures size { length plane.new ≡ length plane.old }
    ensures set { (i : ℕ) → has_bit plane.new i ≡ (has_bit plane.old i || (belongs && (i == bit))) }
{
    if belongs {
        set_bit(plane, bit);
    }
}

/// The states of a plane in which what is true is as wanted.
pub(crate) fn states_with(
    alloc: Global,
    environment: &Environment,
    plane: &[u64],
    wanted: Wanted,
) -> Result<Vec<u64>, NoMemory>
    requires size { length plane.now ≡ words_of environment.now.states }
    ensures { IfOk result (λ kept. IsPlaneOf environment.now.states
        (IsKept (environment_tree environment.now) plane.now wanted.mask wanted.bits environment.now.states) kept.items) }
{
    let mut kept = no_bits(alloc, environment.states as usize)?;
    for (state, truths) in environment.truths.as_slice().iter().enumerate() {
        set_if(&mut kept, state, belongs(plane, state, *truths, wanted));
    }
    Ok(kept)
}

/// Whether in some state of a plane what is true is as wanted.
pub(crate) fn is_some_with(environment: &Environment, plane: &[u64], wanted: Wanted) -> bool
    requires size { length plane.now ≡ words_of environment.now.states }
    ensures { IsTrue result
        ↔ ((s : ℕ) × IsKept (environment_tree environment.now) plane.now wanted.mask wanted.bits environment.now.states s) }
{
    for (state, truths) in environment.truths.as_slice().iter().enumerate() {
        if belongs(plane, state, *truths, wanted) {
            return true;
        }
    }
    false
}
