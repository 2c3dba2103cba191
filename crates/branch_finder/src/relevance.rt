//! The cells that predicate terms depend on.

ghost use Rattle.std.specs.Prelude.{◌≡◌, ◌&&◌, ◌<◌, false, not, length, map, IfOk, IfSome, IfNone};
ghost use Rattle.std.specs.List.{list_any};
ghost use Rattle.base_library.specs.Numbers.{is_among};
ghost use Rattle.tsl_terms.specs.TermTree.{term_tree, probe_tree};
ghost use Rattle.tsl_terms.specs.Signals.{term_reads, some_term_reads};
ghost use Rattle.letter_space.specs.ControlledView.{controlled_tree};
ghost use Rattle.letter_space.specs.SpaceView.{space_tree};
ghost use Rattle.branch_finder.specs.internal.Relevant.{IsUnread, AreUnread, AreRelevant, others_of};

use crate::visiting::is_found;
use base_library::NoMemory;
use letter_space::{Controlled, Space};
use std::alloc::Global;
use tsl_terms::{Probe, Term, some_term_reads, term_reads};

/// Whether some predicate term reads a signal.
fn some_probe_reads(probes: &[Probe], signal: u32) -> bool
    ensures { result ≡ list_any (λ p. some_term_reads signal (probe_tree p).arguments) probes.now }
{
    probes
        .iter()
        .any(|probe| some_term_reads(&probe.arguments, signal))
}

/// Whether some choice reads a signal.
fn some_choice_reads(choices: &[Term], signal: u32) -> bool
    ensures { result ≡ list_any (λ t. term_reads signal (term_tree t)) choices.now }
{
    choices.iter().any(|choice| term_reads(choice, signal))
}

/// Whether a controlled signal is a cell that is not among the rest, and some term that it may take reads a signal.
fn other_reads(controlled: &Controlled, cells: &[u32], rest: &[u32], signal: u32) -> bool
    ensures { result ≡ ((is_among cells.now controlled.now.signal && not (is_among rest.now controlled.now.signal))
        && list_any (λ t. term_reads signal (term_tree t)) controlled.now.choices) }
{
    is_found(cells, controlled.signal)
        && !is_found(rest, controlled.signal)
        && some_choice_reads(controlled.choices.as_slice(), signal)
}

/// Whether some such signal reads one.
fn some_other_reads(controlled: &[Controlled], cells: &[u32], rest: &[u32], signal: u32) -> bool
    ensures { result ≡ list_any (λ c. (is_among cells.now c.signal && not (is_among rest.now c.signal))
        && list_any (λ t. term_reads signal (term_tree t)) c.choices) controlled.now }
{
    controlled
        .iter()
        .any(|candidate| other_reads(candidate, cells, rest, signal))
}

/// Whether a predicate term or a cell that is not among the rest reads a signal.
fn is_read(space: &Space, cells: &[u32], rest: &[u32], signal: u32) -> bool
    ensures { result ≡ false → IsUnread (space_tree space.now) cells.now rest.now signal }
{
    some_probe_reads(space.predicates.as_slice(), signal)
        || some_other_reads(space.controlled.as_slice(), cells, rest, signal)
}

/// The place of a cell of the rest that is read, if one is.
fn next_read(space: &Space, cells: &[u32], rest: &[u32]) -> Option<usize>
    ensures some { IfSome result (λ place. place < length rest.now) }
    ensures none { IfNone result (AreUnread (space_tree space.now) cells.now rest.now) }
{
    for (place, cell) in rest.iter().enumerate() {
        if is_read(space, cells, rest, *cell) {
            return Some(place);
        }
    }
    None
}

/// The cells that no predicate term depends on.
fn unread_cells(alloc: Global, space: &Space, cells: &[u32]) -> Result<Vec<u32>, NoMemory>
    ensures { IfOk result (λ rest. AreUnread (space_tree space.now) cells.now rest.items) }
{
    let mut rest = cells.to_vec(alloc)?;
    while let Some(place) = next_read(space, cells, rest.as_slice()) {
        let _ = rest.swap_remove(place);
    }
    Ok(rest)
}

/// The cells that are not among the rest.
fn others_of(alloc: Global, cells: &[u32], rest: &[u32]) -> Result<Vec<u32>, NoMemory>
    ensures { IfOk result (λ others. others.items ≡ others_of cells.now rest.now) }
{
    let mut others = Vec::new(alloc);
    for cell in cells {
        if !is_found(rest, *cell) {
            others.push(*cell)?;
        }
    }
    Ok(others)
}

/// The cells that predicate terms depend on, in their order.
pub(crate) fn relevant_cells(
    alloc: Global,
    space: &Space,
    cells: &[u32],
) -> Result<Vec<u32>, NoMemory>
    ensures { IfOk result (λ relevant. AreRelevant (space_tree space.now) cells.now relevant.items) }
{
    let rest = unread_cells(alloc, space, cells)?;
    Ok(others_of(alloc, cells, rest.as_slice())?)
}
