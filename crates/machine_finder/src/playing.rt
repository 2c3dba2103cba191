//! The game: labels are found one after the other, until each has an answer under each valuation.

use crate::arena::Arena;
use crate::labels::{empty_label, is_below, is_same, number_of, raise, sum, value_at};
use crate::work::Work;
use base_library::NoMemory;
use std::alloc::Global;

/// No label.
const NONE: u32 = u32::MAX;

/// A label of the game.
#[derive(Drop)]
struct Node {
    /// What it says.
    label: Vec<u32>,
    /// For each valuation the label that it leads to, or `NONE`.
    targets: Vec<u32>,
    /// Whether there is no answer to some valuation.
    is_lost: bool,
    /// The labels that lead to it.
    before: Vec<u32>,
}

/// The labels of a game.
#[derive(Drop)]
struct Game {
    nodes: Vec<Node>,
    /// Those to be looked at.
    open: Vec<u32>,
    /// Those that are lost.
    lost: Vec<u32>,
}

/// What a label may lead to under a valuation.
#[derive(Drop)]
struct Choice {
    /// A label that is there already, or `NONE`.
    target: u32,
    /// The label that it leads to.
    label: Vec<u32>,
    /// What is owed there; less than all of that where the label is there already.
    owes: u32,
}

/// A closed set of labels within a bound, the first of which has the start; at most so many are looked at. None where
/// the first one is lost or no work is left.
pub(crate) fn play(
    alloc: Global,
    arena: &Arena,
    bound: u32,
    most: usize,
    work: &mut Work,
) -> Result<Option<Vec<Vec<u32>>>, NoMemory> {
    let mut game = begin(alloc, arena)?;
    for at in 0..work.left() {
        let Some(number) = game.open.get(at as usize) else {
            return Ok(Some(reached_labels(alloc, &game.nodes)?));
        };
        let number = *number;
        work.take(1);
        look(alloc, arena, bound, &mut game, number, work)?;
        if work.is_spent() || game.nodes.len() > most || is_lost(&game.nodes, 0) {
            return Ok(None);
        }
    }
    Ok(None)
}

/// The game with the label of the start alone.
fn begin(alloc: Global, arena: &Arena) -> Result<Game, NoMemory> {
    let mut game = Game {
        nodes: Vec::new(alloc),
        open: Vec::new(alloc),
        lost: Vec::new(alloc),
    };
    let mut label = empty_label(alloc, arena.states)?;
    raise(&mut label, 0, 1);
    add_node(alloc, arena, &mut game, label)?;
    Ok(game)
}

/// Adds a label, to be looked at, and answers its number.
fn add_node(
    alloc: Global,
    arena: &Arena,
    game: &mut Game,
    label: Vec<u32>,
) -> Result<u32, NoMemory> {
    let number = number_of(game.nodes.len());
    let mut targets = Vec::new(alloc);
    for _ in 0..arena.valuations {
        targets.push(NONE)?;
    }
    game.nodes.push(Node {
        label,
        targets,
        is_lost: false,
        before: Vec::new(alloc),
    })?;
    game.open.push(number)?;
    Ok(number)
}

/// Whether a label is lost, or is not there.
fn is_lost(nodes: &[Node], number: u32) -> bool {
    match nodes.get(number as usize) {
        Some(node) => node.is_lost,
        None => true,
    }
}

/// What a label leads to under a valuation, or `NONE`.
fn target_of(nodes: &[Node], number: u32, valuation: u32) -> u32 {
    match nodes.get(number as usize) {
        Some(node) => match node.targets.get(valuation as usize) {
            Some(target) => *target,
            None => NONE,
        },
        None => NONE,
    }
}

/// A copy of a label.
fn label_of(alloc: Global, nodes: &[Node], number: u32) -> Result<Vec<u32>, NoMemory> {
    match nodes.get(number as usize) {
        Some(node) => Vec::from_slice(alloc, node.label.as_slice()),
        None => Ok(Vec::new(alloc)),
    }
}

/// Answers a label under each valuation, or finds that it is lost.
fn look(
    alloc: Global,
    arena: &Arena,
    bound: u32,
    game: &mut Game,
    number: u32,
    work: &mut Work,
) -> Result<(), NoMemory> {
    if is_lost(&game.nodes, number) {
        return Ok(());
    }
    let label = label_of(alloc, &game.nodes, number)?;
    if has_lost_below(game, &label) {
        return lose(game, number);
    }
    let live = arena.live(alloc, &label)?;
    let mut seen = Vec::new(alloc);
    for down in 0..arena.valuations {
        let valuation = arena.valuations - 1 - down;
        let target = target_of(&game.nodes, number, valuation);
        if target != NONE && !is_lost(&game.nodes, target) {
            continue;
        }
        let ways = arena.under(alloc, &live, valuation, work)?;
        let mut target = seen_before(&seen, &ways);
        if target == NONE {
            target = answer(alloc, arena, bound, game, &label, &ways, work)?;
        }
        if target == NONE {
            return lose(game, number);
        }
        lead(game, number, valuation, target)?;
        seen.push(Seen { ways, target })?;
    }
    Ok(())
}

/// The edges that a valuation allowed, and what the label then leads to.
#[derive(Drop)]
struct Seen {
    ways: Vec<u32>,
    target: u32,
}

/// What a label leads to under a valuation that allows the same edges as an earlier one, or `NONE`.
fn seen_before(seen: &[Seen], ways: &[u32]) -> u32 {
    for earlier in seen {
        if earlier.ways.len() == ways.len() && is_same(&earlier.ways, ways) {
            return earlier.target;
        }
    }
    NONE
}

/// Writes down what a label leads to under a valuation.
fn lead(game: &mut Game, number: u32, valuation: u32, target: u32) -> Result<(), NoMemory> {
    if let Some(node) = game.nodes.get_mut(number as usize) {
        if let Some(place) = node.targets.get_mut(valuation as usize) {
            *place = target;
        }
    }
    if let Some(node) = game.nodes.get_mut(target as usize) {
        if !node.before.iter().any(|earlier| *earlier == number) {
            node.before.push(number)?;
        }
    }
    Ok(())
}

/// Notes that a label is lost; those that lead to it are looked at again.
fn lose(game: &mut Game, number: u32) -> Result<(), NoMemory> {
    if let Some(node) = game.nodes.get_mut(number as usize) {
        node.is_lost = true;
        for earlier in node.before.as_slice() {
            game.open.push(*earlier)?;
        }
    }
    game.lost.push(number)?;
    Ok(())
}

/// Whether a lost label lies below one.
fn has_lost_below(game: &Game, label: &[u32]) -> bool {
    for number in game.lost.as_slice() {
        if let Some(node) = game.nodes.get(*number as usize) {
            if is_below(&node.label, label) {
                return true;
            }
        }
    }
    false
}

/// The number of the label that one leads to where these edges are allowed, by the vector after which the least is
/// owed, one of a label that is there already first; `NONE` where each vector passes the bound or leads to a lost one.
fn answer(
    alloc: Global,
    arena: &Arena,
    bound: u32,
    game: &mut Game,
    label: &[u32],
    ways: &[u32],
    work: &mut Work,
) -> Result<u32, NoMemory> {
    let mut best: Option<Choice> = None;
    let mut tried: Vec<Vec<u32>> = Vec::new(alloc);
    for letter in arena.letters.as_slice() {
        work.take(ways.len() as u64 / 8 + 1);
        let Some(next) = successor(alloc, arena, bound, label, ways, *letter)? else {
            continue;
        };
        if tried.iter().any(|earlier| is_same(earlier, &next)) {
            continue;
        }
        tried.push(Vec::from_slice(alloc, next.as_slice())?)?;
        if has_lost_below(game, &next) {
            continue;
        }
        work.take(game.nodes.len() as u64 / 4);
        let choice = choice_of(game, next);
        best = Some(match best {
            Some(found) if found.owes <= choice.owes => found,
            _ => choice,
        });
    }
    match best {
        None => Ok(NONE),
        Some(choice) if choice.target != NONE => Ok(choice.target),
        Some(choice) => add_node(alloc, arena, game, choice.label),
    }
}

/// What leading to a label means.
fn choice_of(game: &Game, label: Vec<u32>) -> Choice {
    let target = place_above(&game.nodes, &label);
    let owes = sum(&label);
    Choice {
        target,
        owes: if target == NONE {
            owes.saturating_add(1 << 20)
        } else {
            owes
        },
        label,
    }
}

/// The number of the first label above one that is not lost, or `NONE`.
fn place_above(nodes: &[Node], label: &[u32]) -> u32 {
    let mut number: u32 = 0;
    for node in nodes {
        if !node.is_lost && is_below(label, &node.label) {
            return number;
        }
        number = number.saturating_add(1);
    }
    NONE
}

/// The label after one under these edges and the letter of a vector; None where it passes the bound.
pub(crate) fn successor(
    alloc: Global,
    arena: &Arena,
    bound: u32,
    label: &[u32],
    ways: &[u32],
    letter: u64,
) -> Result<Option<Vec<u32>>, NoMemory> {
    let tests = arena.tests();
    let mut next = empty_label(alloc, arena.states)?;
    for number in ways {
        if let Some(way) = arena.ways.get(*number as usize) {
            if (letter ^ way.want) & way.care & !tests == 0 {
                let value = way.after(value_at(label, way.from));
                if way.is_lost || value > bound.saturating_add(1) {
                    return Ok(None);
                }
                raise(&mut next, way.to, value);
            }
        }
    }
    Ok(Some(next))
}

/// The labels that are reached from the first one, itself first.
fn reached_labels(alloc: Global, nodes: &[Node]) -> Result<Vec<Vec<u32>>, NoMemory> {
    let mut order: Vec<u32> = Vec::new(alloc);
    order.push(0)?;
    for at in 0..nodes.len() {
        let Some(number) = order.get(at) else {
            break;
        };
        let number = *number;
        if let Some(node) = nodes.get(number as usize) {
            add_new(&mut order, &node.targets)?;
        }
    }
    let mut labels = Vec::new(alloc);
    for number in order {
        labels.push(label_of(alloc, nodes, number)?)?;
    }
    Ok(labels)
}

/// Adds those numbers that are not there.
fn add_new(order: &mut Vec<u32>, numbers: &[u32]) -> Result<(), NoMemory> {
    for number in numbers {
        if !order.iter().any(|earlier| *earlier == *number) {
            order.push(*number)?;
        }
    }
    Ok(())
}
