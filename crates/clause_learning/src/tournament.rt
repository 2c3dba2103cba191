//! The variables that may be decided and are active.

ghost use Rattle.std.specs.Prelude.{◌≡◌, ◌==◌, ℕ, ◌+◌, ◌*◌, ◌^◌, ◌<◌, false, length, IfOk};
ghost use Rattle.clause_learning.specs.Tournaments.{HasLeaves, IsTournament, HasWeight, is_before, winner, rank_at, weight};

use base_library::NoMemory;
use std::alloc::Global;

/// A variable and how active it is: 0 where it may not be decided.
#[derive(Clone, Copy)]
pub struct Rank {
    pub activity: u64,
    pub variable: u32,
}

impl Rank {
    /// Whether it comes before another one: it is more active, or as active and of the smaller number.
    fn is_before(self, other: Rank) -> bool
        ensures { result ≡ is_before self other }
    {
        if self.activity == other.activity {
            self.variable < other.variable
        } else {
            self.activity > other.activity
        }
    }
}

/// That one of two that comes first.
fn winner(left: Rank, right: Rank) -> Rank
    ensures { result ≡ winner left right }
{
    if right.is_before(left) { right } else { left }
}

/// A tournament, as D. E. Knuth, The Art of Computer Programming 3, 5.2.3, has it: the leaves are the
/// variables, and each node above has the first of the two below it, so node 1 has the first of all.
#[derive(Drop)]
pub struct Tournament {
    /// Below a node are those of twice its number and one more; the last half are the leaves.
    nodes: Vec<Rank>,
    leaves: usize,
}

impl Tournament {
    /// None of the first variables may be decided.
    pub fn new(alloc: Global, variables: u32) -> Result<Tournament, NoMemory>
        requires { variables < 2 ^ 31 }
        ensures tournament { IfOk result IsTournament }
        ensures leaves { IfOk result (λ t. t.leaves ≡ variables + 1) }
        ensures none { IfOk result (λ t. (variable : ℕ) → weight t variable ≡ 0) }
    {
        let leaves = variables as usize + 1;
        let none = Rank {
            activity: 0,
            variable: 0,
        };
        let mut nodes = vec![in alloc; none; 2 * leaves]?;
        for variable in 0..variables + 1 {
            nodes[leaves + variable as usize] = Rank {
                activity: 0,
                variable,
            };
        }
        let mut tournament = Tournament { nodes, leaves };
        tournament.play_all();
        Ok(tournament)
    }

    /// Gives each node the first of the two below it.
    fn play_all(&mut self)
        requires { HasLeaves self.old }
        ensures leaves { self.new.leaves ≡ self.old.leaves }
        ensures weights { (variable : ℕ) → weight self.new variable ≡ weight self.old variable }
        ensures tournament { IsTournament self.new }
    {
        let mut node = self.leaves;
        while node > 1 {
            node -= 1;
            self.play(node);
        }
    }

    /// The first of all: of activity 0 where none may be decided.
    pub fn first(&self) -> Rank
        requires { IsTournament self.now }
        ensures within { result.variable < self.now.leaves }
        ensures weight { result.activity ≡ weight self.now result.variable }
        ensures first { (leaf : ℕ) → leaf < self.now.leaves → is_before (rank_at self.now.nodes.items (self.now.leaves + leaf)) result ≡ false }
    {
        self.nodes[1]
    }

    /// How active a variable is: 0 where it may not be decided.
    pub fn weight(&self, variable: u32) -> u64
        requires tournament { IsTournament self.now }
        requires within { variable < self.now.leaves }
        ensures { result ≡ weight self.now variable }
    {
        self.nodes[self.leaves + variable as usize].activity
    }

    /// Makes a variable so active, or with 0 one that may not be decided.
    pub fn set(&mut self, variable: u32, activity: u64)
        requires tournament { IsTournament self.old }
        requires within { variable < self.old.leaves }
        ensures { HasWeight self.old variable activity self.new }
    {
        if self.weight(variable) == activity {
            return;
        }
        let mut node = self.leaves + variable as usize;
        self.nodes[node] = Rank { activity, variable };
        while node > 1 {
            node /= 2;
            if !self.play(node) {
                return;
            }
        }
    }

    /// Gives a node the first of the two below it, and answers whether that is another one than before.
    fn play(&mut self, node: usize) -> bool
        requires within { 2 * node + 1 < length self.old.nodes.items }
        ensures leaves { self.new.leaves ≡ self.old.leaves }
        ensures size { length self.new.nodes.items ≡ length self.old.nodes.items }
        ensures others { (other : ℕ) → (other ≡ node → ⊥) → rank_at self.new.nodes.items other ≡ rank_at self.old.nodes.items other }
        ensures won { rank_at self.new.nodes.items node ≡ winner (rank_at self.old.nodes.items (2 * node)) (rank_at self.old.nodes.items (2 * node + 1)) }
        ensures same { result ≡ false → rank_at self.new.nodes.items node ≡ rank_at self.old.nodes.items node }
    {
        let before = self.nodes[node];
        let first = winner(self.nodes[2 * node], self.nodes[2 * node + 1]);
        self.nodes[node] = first;
        first.activity != before.activity || first.variable != before.variable
    }
}
