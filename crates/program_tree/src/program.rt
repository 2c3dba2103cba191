//! Programs.

ghost use Rattle.std.specs.Prelude.{◌+◌, ◌++◌, length, map, IsTrue};
ghost use Rattle.std.specs.List.{list_all};
ghost use Rattle.tsl_terms.specs.WindowTree.{window_tree};
ghost use Rattle.base_library.specs.Numbers.{IsDistinct};
ghost use Rattle.program_tree.specs.Fits.{BranchesFit, AssignmentsFit, StatesFit, window_fits};
ghost use Rattle.program_tree.specs.NodeTree.{node_tree};

use crate::node::Node;
use base_library::Sequence;
use tsl_terms::Window;

/// A program: a finite machine over terms. It begins in state 0. At each step it walks from its
/// state's node by tests to a node that assigns a term to each cell and output and names the next
/// state.
#[derive(Drop)]
pub struct Program {
    /// The signals that are read and never updated.
    pub inputs: Sequence<u32>,
    /// The signals that keep their value to the next step.
    pub cells: Sequence<u32>,
    /// The signals that are updated and never read.
    pub outputs: Sequence<u32>,
    /// The assumptions under which the program was found.
    pub windows: Sequence<Window>,
    /// The nodes, by number.
    pub nodes: Sequence<Node>,
    /// The first node of each state, by the state's number.
    pub states: Sequence<u32>,
    pub ghost signals_distinct: { IsDistinct ((inputs ++ cells) ++ outputs) },
    pub ghost branches_fit: { BranchesFit (inputs ++ cells) (map node_tree nodes) },
    pub ghost assignments_fit: { AssignmentsFit
        (inputs ++ cells) (length cells + length outputs) (length states) (map node_tree nodes) },
    pub ghost states_fit: { StatesFit states (length nodes) },
    pub ghost windows_fit: { IsTrue
        (list_all (window_fits (inputs ++ cells) cells) (map window_tree windows)) },
}
