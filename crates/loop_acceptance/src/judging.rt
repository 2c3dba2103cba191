//! Whether an automaton accepts a letter loop.

ghost use Rattle.std.specs.Prelude.{◌≡◌, ◌↔◌, ◌<◌, true, length, IfOk, List};
ghost use Rattle.ltl_formula.specs.LtlTree.{LtlTree};
ghost use Rattle.ltl_formula.specs.LetterLoop.{holds};
ghost use Rattle.cobuchi_automata.specs.Automata.{StateTree, IsAutomaton};
ghost use Rattle.cobuchi_automata.specs.Edges.{edge_trees};
ghost use Rattle.loop_acceptance.specs.Accepts.{loop_of, Accepts};

use crate::pairs::Pairing;
use crate::product::Product;
use crate::rows::few_edges_by_state;
use crate::search::has_turn;
use base_library::NoMemory;
use cobuchi_automata::Automaton;
use std::alloc::Global;

/// How many pairs of a letter and a state are searched: a node has 32 bits, so that an open one takes 8 bytes.
const MOST_NODES: usize = 1 << 32;

/// Whether an automaton accepts the loop of these letters whose last one goes on to the one with the number
/// `back`, from 0: whether it has a path from its start over the loop that turns through a rejecting edge.
/// On the automaton of a formula that is whether the formula holds on the loop at position 0. It takes time
/// and memory linear in the number of letters times the numbers of states and edges. An `Err` says that
/// memory ran out, or that the letters times the states are more than 2^32, whatever memory there is.
pub fn judge_loop(
    alloc: Global,
    automaton: &Automaton,
    letters: &[u64],
    back: u32,
) -> Result<bool, NoMemory>
    requires back { back < length letters.now }
    ensures accepts { IfOk result (λ yes. (yes ≡ true) ↔ Accepts (edge_trees automaton.now.edges) (loop_of letters.now back)) }
    ensures formula { IfOk result (λ yes. (f : LtlTree) (states : List StateTree) → IsAutomaton f states (edge_trees automaton.now.edges) →
        ((yes ≡ true) ↔ (holds (loop_of letters.now back) f 0 ≡ true))) }
{
    let rows = few_edges_by_state(alloc, automaton)?;
    let Some(nodes) = letters.len().checked_mul(rows.len()) else {
        return Err(NoMemory);
    };
    if nodes > MOST_NODES {
        return Err(NoMemory);
    }
    let product = Product {
        rows: &rows,
        pairing: Pairing::new(rows.len()),
        letters,
        back: back as usize,
    };
    has_turn(alloc, &product)
}
