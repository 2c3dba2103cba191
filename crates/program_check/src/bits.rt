//! Which node of a program is refused.

ghost use Rattle.std.specs.Prelude.{◌≡◌, ◌+◌, ◌<◌, ◌^◌, None, not, is_some, length, map, position, IfSome, IfNone};
ghost use Rattle.tsl_terms.specs.TermTree.{term_tree};
ghost use Rattle.program_tree.specs.NodeTree.{node_tree};
ghost use Rattle.letter_space.specs.ControlledView.{controlled_tree};
ghost use Rattle.letter_space.specs.SpaceView.{space_tree};
ghost use Rattle.letter_space.specs.Bits.{bit_of_choice};
ghost use Rattle.control_flow_model.specs.ProgramBits.{are_terms_chosen, node_has_bits};
ghost use Rattle.program_check.specs.internal.NodeVerdicts.{node_verdict, IsNodeVerdict};

use crate::verdict::Verdict;
use letter_space::{Controlled, Space};
use program_tree::{Node, Program};
use tsl_terms::Term;

/// The verdict on the first node whose test is no predicate term, or one of whose terms is no choice of
/// its signal, if there is one.
pub(crate) fn refused_node(program: &Program, space: &Space) -> Option<Verdict>
    requires { length program.now.nodes < 2 ^ 32 }
    ensures none { IfNone result (position (λ n. not (node_has_bits (space_tree space.now) n)) (map node_tree program.now.nodes) ≡ None) }
    ensures some { IfSome result (IsNodeVerdict (space_tree space.now) (map node_tree program.now.nodes)) }
{
    let place = first_refused(program.nodes.as_slice(), space)?;
    Some(verdict_on(&program.nodes.as_slice()[place], place as u32))
}

/// The place of the first node that lacks bits.
fn first_refused(nodes: &[Node], space: &Space) -> Option<usize>
    ensures { result ≡ position (λ n. not (node_has_bits (space_tree space.now) (node_tree n))) nodes.now }
{
    nodes.iter().position(|node| !has_bits(space, node))
}

/// The verdict on a node that lacks bits.
fn verdict_on(node: &Node, number: u32) -> Verdict
    ensures { result ≡ node_verdict (node_tree node.now) number }
{
    match node {
        Node::If { .. } => Verdict::Test(number),
        Node::Set { .. } => Verdict::Choice(number),
    }
}

/// Whether what a node tests is a predicate term, or what it assigns are choices.
fn has_bits(space: &Space, node: &Node) -> bool
    ensures { result ≡ node_has_bits (space_tree space.now) (node_tree node.now) }
{
    match node {
        Node::If { test, .. } => space.test_bit(test).is_some(),
        Node::Set { updates, .. } => are_chosen(space, updates.as_slice()),
    }
}

/// Whether terms are choices, one of each signal.
fn are_chosen(space: &Space, terms: &[Term]) -> bool
    ensures { result ≡ are_terms_chosen (space_tree space.now).controlled (map term_tree terms.now) }
{
    if space.controlled.len() != terms.len() {
        return false;
    }
    for (place, controlled) in space.controlled.as_slice().iter().enumerate() {
        if !is_choice(controlled, &terms[place]) {
            return false;
        }
    }
    true
}

/// Whether a term is a choice of a signal.
fn is_choice(controlled: &Controlled, term: &Term) -> bool
    requires { controlled.now.first + length controlled.now.choices < 2 ^ 32 }
    ensures { result ≡ is_some (bit_of_choice (controlled_tree controlled.now) (term_tree term.now)) }
{
    controlled.bit_of(term).is_some()
}
