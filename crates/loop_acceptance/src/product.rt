//! Pairs of a position of a letter loop and a state of an automaton, and the steps between them.

ghost use Rattle.std.specs.Prelude.{◌≡◌, ◌<◌, ◌≤◌, ℕ, None, length};
ghost use Rattle.loop_acceptance.specs.internal.Product.{IsProduct, nodes_of, edge_rows_of, steps_in, row_edges, position_after};

use crate::pairs::Pairing;
use cobuchi_automata::Edge;

/// A step to a node.
#[derive(Clone, Copy)]
pub(crate) struct Step {
    /// The node that it leads to.
    pub to: u32,
    /// Whether it is rejecting.
    pub rejecting: bool,
}

/// The edges of an automaton by the states that they leave, and a loop of letters. The pair of a position
/// and a state is a node, whose number is the position times the number of states, and the state. Each
/// step leads from a position to the next one, or from the last one back.
#[derive(Clone, Copy)]
pub(crate) struct Product<'a> {
    /// The edges of each state.
    pub rows: &'a [Vec<Edge>],
    /// How nodes are pairs of a position and one of so many states.
    pub pairing: Pairing,
    /// The letters.
    pub letters: &'a [u64],
    /// The number of the letter that the last one goes on to.
    pub back: usize,
}

/// How many nodes there are.
pub(crate) fn node_count(product: &Product) -> usize
    requires { IsProduct product.now }
    ensures { result ≡ nodes_of product.now }
{
    product.letters.len() * product.rows.len()
}

/// How many places the steps of a node have.
#[tactic(auto, using(crate::proofs::ProductSteps::row_short))]
pub(crate) fn place_count(product: &Product, node: u32) -> u32
    requires product { IsProduct product.now }
    requires within { node < nodes_of product.now }
    ensures past { (k : ℕ) → result ≤ k → steps_in product.now node k ≡ None }
    ensures few { result ≤ row_edges (edge_rows_of product.now) }
{
    let pair = product.pairing.pair_of(node);
    product.rows[pair.state].len() as u32
}

/// The position after a position.
fn position_after(product: &Product, position: usize) -> usize
    requires { position < length product.now.letters.now }
    ensures { result ≡ position_after product.now.letters.now product.now.back position }
{
    if position + 1 == product.letters.len() {
        return product.back;
    }
    position + 1
}

/// The step of a node at a place, if the letter matches the edge there.
pub(crate) fn product_step(product: &Product, node: u32, place: u32) -> Option<Step>
    requires product { IsProduct product.now }
    requires within { node < nodes_of product.now }
    ensures { result ≡ steps_in product.now node place }
{
    let states = product.rows.len();
    let pair = product.pairing.pair_of(node);
    let edge = product.rows[pair.state].get(place as usize)?;
    if !edge.cube.matches(product.letters[pair.position]) {
        return None;
    }
    Some(Step {
        to: (position_after(product, pair.position) * states + edge.to as usize) as u32,
        rejecting: edge.rejecting,
    })
}
