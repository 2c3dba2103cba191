//! Labels: for each state of an automaton 0 where it is not reached, and otherwise its counter and 1 more.

use base_library::NoMemory;
use std::alloc::Global;

/// What a label says of a state.
pub(crate) fn value_at(label: &[u32], state: u32) -> u32 {
    match label.get(state as usize) {
        Some(value) => *value,
        None => 0,
    }
}

/// Raises what a label says of a state to a value, where it is less.
pub(crate) fn raise(label: &mut Vec<u32>, state: u32, value: u32) {
    if let Some(place) = label.get_mut(state as usize) {
        if *place < value {
            *place = value;
        }
    }
}

/// The label that says of so many states that they are not reached.
pub(crate) fn empty_label(alloc: Global, states: u32) -> Result<Vec<u32>, NoMemory> {
    let mut label = Vec::new(alloc);
    for _ in 0..states {
        label.push(0)?;
    }
    Ok(label)
}

/// Whether a label says of no state more than another one.
pub(crate) fn is_below(low: &[u32], high: &[u32]) -> bool {
    for (a, b) in low.iter().zip(high) {
        if *a > *b {
            return false;
        }
    }
    true
}

/// Whether two labels say the same.
pub(crate) fn is_same(left: &[u32], right: &[u32]) -> bool {
    is_below(left, right) && is_below(right, left)
}

/// The least label above two.
pub(crate) fn join(alloc: Global, left: &[u32], right: &[u32]) -> Result<Vec<u32>, NoMemory> {
    let mut label = Vec::new(alloc);
    for (a, b) in left.iter().zip(right) {
        label.push(if *a < *b { *b } else { *a })?;
    }
    Ok(label)
}

/// How far two labels are from each other.
pub(crate) fn distance(left: &[u32], right: &[u32]) -> u32 {
    let mut far: u32 = 0;
    for (a, b) in left.iter().zip(right) {
        let apart = if *a < *b { *b - *a } else { *a - *b };
        let more = if (*a == 0) != (*b == 0) { 3 } else { 0 };
        far = far.saturating_add(apart).saturating_add(more);
    }
    far
}

/// The sum of a label, which is less the less is owed.
pub(crate) fn sum(label: &[u32]) -> u32 {
    let mut all: u32 = 0;
    for value in label {
        all = all.saturating_add(*value);
    }
    all
}

/// A count as a number, the largest one where it is too large.
pub(crate) fn number_of(count: usize) -> u32 {
    match u32::try_from(count) {
        Ok(number) => number,
        Err(_) => u32::MAX,
    }
}
