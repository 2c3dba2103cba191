//! The moves in a state of a machine as a list of letters and one of the states that these lead to.

ghost use Rattle.std.specs.Prelude.{◌≡◌, ℕ, ◌<◌, map, length, vec_len, slice_index_or, IfOk};
ghost use Rattle.machines.specs.MachineView.{move_tree};
ghost use Rattle.annotation_check.specs.internal.Listings.{IsMoveListing, IsRunEnd, AreRunEnds};

use base_library::NoMemory;
use machines::Move;
use std::alloc::Global;

/// Moves by their letters, those to one state side by side.
#[derive(Drop)]
pub(crate) struct Listing {
    /// The letter of each move.
    pub(crate) letters: Vec<u64>,
    /// The state that each move goes to.
    pub(crate) next: Vec<u32>,
    /// For each move a later place up to which all moves go to the same state.
    pub(crate) ends: Vec<usize>,
    pub(crate) ghost paired: { vec_len letters ≡ vec_len next },
    pub(crate) ghost runs: { AreRunEnds next.items ends.items },
}

impl Listing {
    /// The listing of moves.
    pub(crate) fn of(alloc: Global, moves: &[Move]) -> Result<Listing, NoMemory>
        ensures { IfOk result (λ l. IsMoveListing (map move_tree moves.now) l.letters.items l.next.items) }
    {
        let mut sorted = moves.to_vec(alloc)?;
        sorted.sort_unstable_by_key(|step| step.next);
        Listing::in_order(alloc, &sorted)
    }

    /// The listing of moves in the order that they have.
    fn in_order(alloc: Global, moves: &[Move]) -> Result<Listing, NoMemory>
        ensures letters { IfOk result (λ l. l.letters.items ≡ map (λ m. m.letter) moves.now) }
        ensures next { IfOk result (λ l. l.next.items ≡ map (λ m. m.next) moves.now) }
    {
        let mut letters = Vec::new(alloc);
        let mut next = Vec::new(alloc);
        for step in moves {
            letters.push(step.letter)?;
            next.push(step.next)?;
        }
        let ends = run_ends(alloc, &next)?;
        Ok(Listing {
            letters,
            next,
            ends,
        })
    }
}

/// For each place the end of the run of equal states that it stands in.
fn run_ends(alloc: Global, next: &[u32]) -> Result<Vec<usize>, NoMemory>
    ensures { IfOk result (λ ends. AreRunEnds next.now ends.items) }
{
    let mut ends = vec![in alloc; 0; next.len()]?;
    let mut at = next.len();
    while at > 0 {
        at -= 1;
        ends[at] = run_end(next, &ends, at);
    }
    Ok(ends)
}

/// The end of the run of equal states from a place on, by that of the place after it.
fn run_end(next: &[u32], ends: &[usize], at: usize) -> usize
    requires within { at < length next.now }
    requires many { length ends.now ≡ length next.now }
    requires later { (i : ℕ) → at < i → i < length next.now → IsRunEnd next.now i (slice_index_or ends.now i 0) }
    ensures { IsRunEnd next.now at result }
{
    let after = at + 1;
    if after < next.len() && next[after] == next[at] {
        return ends[after];
    }
    after
}
