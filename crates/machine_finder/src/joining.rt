//! Closed sets of labels made smaller.

use crate::arena::Arena;
use crate::labels::{distance, is_same, join, number_of, value_at};
use crate::work::Work;
use base_library::NoMemory;
use std::alloc::Global;

/// A vector, by its number, and the label that it leads below.
#[derive(Clone, Copy)]
pub(crate) struct Answer {
    /// The number of the vector.
    pub(crate) vector: u32,
    /// The number of the label.
    pub(crate) target: u32,
}

/// A closed set within a bound with as few labels as joining pairs gives: two are replaced by the least one above both as
/// long as the set stays closed.
pub(crate) fn joined(
    alloc: Global,
    arena: &Arena,
    bound: u32,
    labels: Vec<Vec<u32>>,
    work: &mut Work,
) -> Result<Vec<Vec<u32>>, NoMemory> {
    let mut labels = labels;
    let rounds = labels.len();
    for _ in 0..rounds {
        let before = labels.len();
        labels = joined_once(alloc, arena, bound, labels, work)?;
        if labels.len() == before || work.is_spent() {
            break;
        }
    }
    Ok(labels)
}

/// A closed set after each pair was tried once, the nearest first.
fn joined_once(
    alloc: Global,
    arena: &Arena,
    bound: u32,
    labels: Vec<Vec<u32>>,
    work: &mut Work,
) -> Result<Vec<Vec<u32>>, NoMemory> {
    let mut labels = labels;
    for pair in pairs_by_distance(alloc, &labels, work)? {
        if work.is_spent() {
            break;
        }
        let left = (pair / 65_536 % 65_536) as u32;
        let right = (pair % 65_536) as u32;
        try_pair(alloc, arena, bound, &mut labels, left, right, work)?;
    }
    let mut kept = Vec::new(alloc);
    for label in labels {
        if !label.is_empty() {
            kept.push(label)?;
        }
    }
    Ok(kept)
}

/// The pairs of labels, the nearest first: each is a distance, and the numbers of two labels in 16 bits each.
fn pairs_by_distance(
    alloc: Global,
    labels: &[Vec<u32>],
    work: &mut Work,
) -> Result<Vec<u64>, NoMemory> {
    let mut pairs = Vec::new(alloc);
    let mut left: u64 = 0;
    for low in labels {
        let mut right: u64 = 0;
        for high in labels {
            if left < right {
                work.take(1);
                let far = u64::from(distance(low, high)) % (1 << 31);
                pairs.push(far * (1 << 32) + left % 65_536 * 65_536 + right % 65_536)?;
            }
            right = right.saturating_add(1);
        }
        left = left.saturating_add(1);
    }
    pairs.as_mut_slice().sort_unstable();
    Ok(pairs)
}

/// Joins two labels, where both are there and the set stays closed.
fn try_pair(
    alloc: Global,
    arena: &Arena,
    bound: u32,
    labels: &mut Vec<Vec<u32>>,
    left: u32,
    right: u32,
    work: &mut Work,
) -> Result<(), NoMemory> {
    let low = taken(alloc, labels, left);
    let high = taken(alloc, labels, right);
    if low.is_empty() || high.is_empty() {
        put(labels, left, low);
        put(labels, right, high);
        return Ok(());
    }
    let both = join(alloc, &low, &high)?;
    put(labels, left, both);
    if !is_answered(alloc, arena, bound, labels, left, work)? {
        put(labels, left, low);
        put(labels, right, high);
    }
    Ok(())
}

/// Takes a label out of a list, where the empty one stays.
fn taken(alloc: Global, labels: &mut Vec<Vec<u32>>, number: u32) -> Vec<u32> {
    match labels.get_mut(number as usize) {
        Some(place) => std::mem::replace(place, Vec::new(alloc)),
        None => Vec::new(alloc),
    }
}

/// Puts a label in its place.
fn put(labels: &mut Vec<Vec<u32>>, number: u32, label: Vec<u32>) {
    if let Some(place) = labels.get_mut(number as usize) {
        *place = label;
    }
}

/// Whether a label of a list has an answer under each valuation.
fn is_answered(
    alloc: Global,
    arena: &Arena,
    bound: u32,
    labels: &[Vec<u32>],
    number: u32,
    work: &mut Work,
) -> Result<bool, NoMemory> {
    Ok(answers(alloc, arena, bound, labels, number, work)?.is_some())
}

/// The edges that a valuation allowed, and the answer to it.
#[derive(Drop)]
struct Known {
    ways: Vec<u32>,
    answer: Answer,
}

/// An answer of a label of a list under each valuation; None where it has none under one of them, or no work is left.
pub(crate) fn answers(
    alloc: Global,
    arena: &Arena,
    bound: u32,
    labels: &[Vec<u32>],
    number: u32,
    work: &mut Work,
) -> Result<Option<Vec<Answer>>, NoMemory> {
    let Some(label) = labels.get(number as usize) else {
        return Ok(None);
    };
    let live = arena.live(alloc, label)?;
    let mut answers = Vec::new(alloc);
    let mut known: Vec<Known> = Vec::new(alloc);
    for valuation in 0..arena.valuations {
        let ways = arena.under(alloc, &live, valuation, work)?;
        let found = match known_answer(&known, &ways) {
            Some(answer) => Some(answer),
            None => answer_of(alloc, arena, bound, labels, number, &ways, work)?,
        };
        let Some(answer) = found else {
            return Ok(None);
        };
        answers.push(answer)?;
        known.push(Known { ways, answer })?;
    }
    Ok(Some(answers))
}

/// The answer under a valuation that allowed the same edges.
fn known_answer(known: &[Known], ways: &[u32]) -> Option<Answer> {
    for earlier in known {
        if earlier.ways.len() == ways.len() && is_same(&earlier.ways, ways) {
            return Some(earlier.answer);
        }
    }
    None
}

/// An answer of a label of a list where these edges are allowed: one that leads below itself first, and then by number.
fn answer_of(
    alloc: Global,
    arena: &Arena,
    bound: u32,
    labels: &[Vec<u32>],
    number: u32,
    ways: &[u32],
    work: &mut Work,
) -> Result<Option<Answer>, NoMemory> {
    if let Some(answer) = answer_to(alloc, arena, bound, labels, number, number, ways, work)? {
        return Ok(Some(answer));
    }
    let count = number_of(labels.len());
    for target in 0..count {
        if work.is_spent() {
            return Ok(None);
        }
        if let Some(answer) = answer_to(alloc, arena, bound, labels, number, target, ways, work)? {
            return Ok(Some(answer));
        }
    }
    Ok(None)
}

/// An answer of a label that leads below another one, where these edges are allowed.
fn answer_to(
    alloc: Global,
    arena: &Arena,
    bound: u32,
    labels: &[Vec<u32>],
    number: u32,
    target: u32,
    ways: &[u32],
    work: &mut Work,
) -> Result<Option<Answer>, NoMemory> {
    let Some(from) = labels.get(number as usize) else {
        return Ok(None);
    };
    let Some(to) = labels.get(target as usize) else {
        return Ok(None);
    };
    if to.is_empty() {
        return Ok(None);
    }
    work.take(ways.len() as u64 / 8 + 1);
    let Some(barred) = barred_ways(alloc, arena, bound, from, to, ways)? else {
        return Ok(None);
    };
    match first_vector(arena, &barred, work) {
        Some(vector) => Ok(Some(Answer { vector, target })),
        None => Ok(None),
    }
}

/// Those of some edges along which a label does not lead below another one; None where one of them asks for no update,
/// so that no vector is without it.
fn barred_ways(
    alloc: Global,
    arena: &Arena,
    bound: u32,
    from: &[u32],
    to: &[u32],
    ways: &[u32],
) -> Result<Option<Vec<u32>>, NoMemory> {
    let updates = !arena.tests();
    let mut barred = Vec::new(alloc);
    for number in ways {
        if let Some(way) = arena.ways.get(*number as usize) {
            let value = way.after(value_at(from, way.from));
            let is_right = !way.is_lost
                && value <= bound.saturating_add(1)
                && value <= value_at(to, way.to);
            if !is_right {
                if way.care & updates == 0 {
                    return Ok(None);
                }
                barred.push(*number)?;
            }
        }
    }
    Ok(Some(barred))
}

/// The number of the first vector that takes none of these edges.
fn first_vector(arena: &Arena, barred: &[u32], work: &mut Work) -> Option<u32> {
    let updates = !arena.tests();
    let mut vector: u32 = 0;
    for letter in arena.letters.as_slice() {
        work.take(barred.len() as u64 / 8 + 1);
        if !takes_one(arena, barred, *letter, updates) {
            return Some(vector);
        }
        vector = vector.saturating_add(1);
    }
    None
}

/// Whether the letter of a vector takes one of these edges.
fn takes_one(arena: &Arena, barred: &[u32], letter: u64, updates: u64) -> bool {
    for number in barred {
        if let Some(way) = arena.ways.get(*number as usize) {
            if (letter ^ way.want) & way.care & updates == 0 {
                return true;
            }
        }
    }
    false
}
