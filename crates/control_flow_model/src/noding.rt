//! The nodes of parts.

ghost use Rattle.std.specs.Prelude.{◌≡◌, ◌<◌, ◌^◌, ◌==◌, length, map, Some, slice_get, position, IfOk, IsTrue};
ghost use Rattle.std.specs.List.{AllByRecursion};
ghost use Rattle.base_library.specs.Numbers.{is_among};
ghost use Rattle.tsl_terms.specs.TermTree.{term_tree};
ghost use Rattle.program_tree.specs.NodeTree.{node_tree};
ghost use Rattle.letter_space.specs.ControlledView.{controlled_tree};
ghost use Rattle.letter_space.specs.SpaceView.{space_tree};
ghost use Rattle.letter_space.specs.Letters.{ArePicks};
ghost use Rattle.control_flow_model.specs.ControllerOf.{terms_picked};
ghost use Rattle.control_flow_model.specs.internal.Parts.{part_key, part_keys};
ghost use Rattle.control_flow_model.specs.internal.PartNodes.{key_node, HasNode};

use crate::parting::Part;
use base_library::{NoMemory, Sequence};
use letter_space::{Controlled, Space};
use program_tree::Node;
use std::alloc::Global;
use tsl_terms::{Term, copy_probe, copy_term};

/// A copy of the term that a signal's choice stands for.
fn term_of(alloc: Global, controlled: &Controlled, pick: u32) -> Result<Term, NoMemory>
    requires { pick < length controlled.now.choices }
    ensures { IfOk result (λ term. slice_get (controlled_tree controlled.now).choices pick ≡ Some (term_tree term)) }
{
    copy_term(alloc, &controlled.choices.as_slice()[pick as usize])
}

/// Copies of the terms that choices stand for, one of each signal.
fn terms_of(alloc: Global, space: &Space, picks: &[u32]) -> Result<Vec<Term>, NoMemory>
    requires { ArePicks (space_tree space.now).controlled picks.now }
    ensures { IfOk result (λ terms.
        terms_picked (space_tree space.now).controlled picks.now ≡ Some (map term_tree terms.items)) }
{
    let mut terms = Vec::new(alloc);
    for (place, controlled) in space.controlled.as_slice().iter().enumerate() {
        terms.push(term_of(alloc, controlled, picks[place])?)?;
    }
    Ok(terms)
}

/// The place of a state among others, where it is among them.
fn position_of(states: &[u32], state: u32) -> Option<usize>
    ensures { result ≡ position (λ s. s == state) states.now }
{
    states.iter().position(|other| *other == state)
}

/// The place of a state among others.
fn place_of(states: &[u32], state: u32) -> u32
    requires few { length states.now < 2 ^ 32 }
    requires there { IsTrue (is_among states.now state) }
    ensures { position (λ s. s == state) states.now ≡ Some result }
{
    match position_of(states, state) {
        Some(place) => place as u32,
        None => 0,
    }
}

/// The node of a part, where these states are kept.
fn node_of(alloc: Global, space: &Space, kept: &[u32], part: &Part) -> Result<Node, NoMemory>
    requires few { length kept.now < 2 ^ 32 }
    requires has { HasNode (space_tree space.now) kept.now (part_key part.now) }
    ensures { IfOk result (λ node. key_node (space_tree space.now) kept.now (part_key part.now) ≡ Some (node_tree node)) }
{
    match part {
        Part::Leaf { choices, next } => Ok(Node::Set {
            updates: Sequence::from_vec(terms_of(alloc, space, choices)?),
            go: place_of(kept, *next),
        }),
        Part::Fork {
            bit,
            then_part,
            else_part,
        } => Ok(Node::If {
            test: copy_probe(alloc, &space.predicates.as_slice()[*bit as usize])?,
            then_node: *then_part as u32,
            else_node: *else_part as u32,
        }),
    }
}

/// The nodes of parts, where these states are kept.
pub(crate) fn nodes_of(
    alloc: Global,
    space: &Space,
    kept: &[u32],
    parts: &[Part],
) -> Result<Vec<Node>, NoMemory>
    requires few { length kept.now < 2 ^ 32 }
    requires have { AllByRecursion (HasNode (space_tree space.now) kept.now) (part_keys parts.now) }
    ensures { IfOk result (λ nodes. map (key_node (space_tree space.now) kept.now) (part_keys parts.now)
        ≡ map Some (map node_tree nodes.items)) }
{
    let mut nodes = Vec::new(alloc);
    for part in parts {
        nodes.push(node_of(alloc, space, kept, part)?)?;
    }
    Ok(nodes)
}

/// Numbers as words of 32 bits.
pub(crate) fn words_of(alloc: Global, numbers: &[usize]) -> Result<Vec<u32>, NoMemory>
    requires { AllByRecursion (λ n. n < 2 ^ 32) numbers.now }
    ensures { IfOk result (λ words. words.items ≡ numbers.now) }
{
    let mut words = Vec::new(alloc);
    for number in numbers {
        words.push(*number as u32)?;
    }
    Ok(words)
}
