//! What a side answers for: the rows that meet an edge, and where its own variables begin.

ghost use Rattle.std.specs.Prelude.{◌≡◌, ℕ, List, IfOk};
ghost use Rattle.cobuchi_automata.specs.Automata.{EdgeTree};
ghost use Rattle.cobuchi_automata.specs.Edges.{edge_tree};

use base_library::NoMemory;
use cobuchi_automata::Edge;
use std::alloc::Global;

/// One side of a question, that of the machine that is looked for.
pub trait Side {
    /// What has to hold before it is asked.
    ghost asked: { Self → Type 0 };

    /// It has this state and this row.
    ghost is_cell: { Self → ℕ → ℕ → Type 0 };

    /// The rows that meet what an edge asks of them.
    ghost met: { Self → EdgeTree → List ℕ };

    /// The index of the first variable of what the machine does in a state and a row.
    ghost base: { Self → ℕ → ℕ → ℕ };

    /// The rows that meet what an edge asks of them.
    fn met_rows(&self, alloc: Global, edge: Edge) -> Result<Vec<u32>, NoMemory>
        requires { asked self.now }
        ensures { IfOk result (λ rows. rows.items ≡ met self.now (edge_tree edge)) };

    /// The index of the first variable of what the machine does in a state and a row.
    fn own_base(&self, state: u32, row: u32) -> u32
        requires asked { asked self.now }
        requires cell { is_cell self.now state row }
        ensures { result ≡ base self.now state row };
}
