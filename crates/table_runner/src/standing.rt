//! Where a run stands, and its steps.

ghost use Rattle.std.specs.Prelude.{◌≡◌, ◌↔◌, ◌+◌, ◌++◌, ℕ, Some, length, IsTrue, IfOk, OnOk, OnErr, map, take, drop};
ghost use Rattle.program_tree.specs.ProgramView.{program_tree};
ghost use Rattle.table_runner.specs.Running.{rows_seen, CanRun};
ghost use Rattle.table_runner.specs.Standings.{shown, StandsAt};
ghost use Rattle.table_runner.specs.internal.Copied.{IsCopied};
ghost use Rattle.tsl_terms.specs.TermTree.{term_tree};
ghost use Rattle.tsl_meaning.specs.Run.{action_in as action_of};

use crate::acting::{Action, action_in, copies, first_values, next_values};
use crate::rows::{next_place, row_at};
use base_library::{NoMemory, Sequence};
use interp_core::{Algebra, Judge, Leaves};
use program_tree::Program;
use std::alloc::Global;
use tsl_meaning::InputLoop;

/// Where a run stands: its place among the input rows, its state, and the values of the inputs and cells.
#[derive(Drop)]
pub(crate) struct Standing<V> {
    pub(crate) place: u32,
    pub(crate) state: u32,
    pub(crate) leaves: Leaves<V>,
}

/// Where a run stands at first.
pub(crate) fn first_standing<J: Judge>(
    alloc: Global,
    judge: &J,
    program: &Program,
    inputs: &InputLoop<J::Value>,
) -> Result<Standing<J::Value>, NoMemory>
    requires can { CanRun (J.meanings judge.now) (program_tree program.now) (rows_seen J.seen inputs.now) }
    ensures { IfOk result (StandsAt J.seen (J.meanings judge.now) (program_tree program.now) (rows_seen J.seen inputs.now) 0) }
{
    let signals = joined(alloc, program.inputs.as_slice(), program.cells.as_slice())?;
    let values = first_values(alloc, judge, row_at(inputs, 0), program.cells.as_slice())?;
    Ok(Standing {
        place: 0,
        state: 0,
        leaves: Leaves {
            signals,
            values: Sequence::from_vec(values),
        },
    })
}

/// Goes to the next step by this action.
pub(crate) fn act<J: Judge>(
    alloc: Global,
    judge: &J,
    program: &Program,
    inputs: &InputLoop<J::Value>,
    standing: &mut Standing<J::Value>,
    action: Action,
) -> Result<(), NoMemory>
    requires can { CanRun (J.meanings judge.now) (program_tree program.now) (rows_seen J.seen inputs.now) }
    requires stands { (t : ℕ) × StandsAt J.seen (J.meanings judge.now) (program_tree program.now)
        (rows_seen J.seen inputs.now) t standing.old }
    requires does { action_of (J.meanings judge.now) (program_tree program.now) (rows_seen J.seen inputs.now)
        (shown J.seen (length program.now.inputs) standing.old)
        ≡ Some (record { updates = map term_tree action.updates.now; go = action.go }) }
    ensures ok { OnOk result ((t : ℕ) → StandsAt J.seen (J.meanings judge.now) (program_tree program.now)
        (rows_seen J.seen inputs.now) t standing.old
        → StandsAt J.seen (J.meanings judge.now) (program_tree program.now) (rows_seen J.seen inputs.now) (t + 1) standing.new) }
    ensures err { OnErr result (standing.new ≡ standing.old) }
{
    let place = next_place(inputs, standing.place);
    let terms = &action.updates[..program.cells.len()];
    let values = next_values(alloc, judge, &standing.leaves, row_at(inputs, place), terms)?;
    standing.place = place;
    standing.state = action.go;
    standing.leaves.values = Sequence::from_vec(values);
    Ok(())
}

/// Goes to the next step. An `Err` says that memory ran out, and then it stands where it stood.
pub(crate) fn advance<J: Judge>(
    alloc: Global,
    judge: &J,
    program: &Program,
    inputs: &InputLoop<J::Value>,
    standing: &mut Standing<J::Value>,
) -> Result<(), NoMemory>
    requires can { CanRun (J.meanings judge.now) (program_tree program.now) (rows_seen J.seen inputs.now) }
    requires stands { (t : ℕ) × StandsAt J.seen (J.meanings judge.now) (program_tree program.now)
        (rows_seen J.seen inputs.now) t standing.old }
    ensures ok { OnOk result ((t : ℕ) → StandsAt J.seen (J.meanings judge.now) (program_tree program.now)
        (rows_seen J.seen inputs.now) t standing.old
        → StandsAt J.seen (J.meanings judge.now) (program_tree program.now) (rows_seen J.seen inputs.now) (t + 1) standing.new) }
    ensures err { OnErr result (standing.new ≡ standing.old) }
{
    let action = action_in(alloc, judge, program, standing.state, &standing.leaves)?;
    act(alloc, judge, program, inputs, standing, action)
}

/// The values of the cells.
pub(crate) fn cells_of<'a, V>(program: &Program, standing: &'a Standing<V>) -> &'a [V]
    ensures { result.now ≡ drop (length program.now.inputs) standing.now.leaves.values }
{
    let values = standing.leaves.values.as_slice();
    &values[program.inputs.len().min(values.len())..]
}

/// The values of the inputs.
pub(crate) fn row_of<'a, V>(program: &Program, standing: &'a Standing<V>) -> &'a [V]
    ensures { result.now ≡ take (length program.now.inputs) standing.now.leaves.values }
{
    let values = standing.leaves.values.as_slice();
    &values[..program.inputs.len().min(values.len())]
}

/// Whether the configurations of two steps are the same: the place, the state and the value of each cell.
pub(crate) fn same_configuration<A: Algebra>(
    algebra: &A,
    program: &Program,
    a: &Standing<A::Value>,
    b: &Standing<A::Value>,
) -> bool
    ensures { IsTrue result ↔ (shown A.seen (length program.now.inputs) a.now ≡ shown A.seen (length program.now.inputs) b.now) }
{
    a.place == b.place
        && a.state == b.state
        && same_values(algebra, cells_of(program, a), cells_of(program, b))
}

/// Whether two lists of values are the same.
fn same_values<A: Algebra>(algebra: &A, a: &[A::Value], b: &[A::Value]) -> bool
    ensures { IsTrue result ↔ (map A.seen a.now ≡ map A.seen b.now) }
{
    if a.len() != b.len() {
        return false;
    }
    for i in 0..a.len() {
        if !algebra.same(&a[i], &b[i]) {
            return false;
        }
    }
    true
}

/// The same standing once more.
pub(crate) fn copy_standing<A: Algebra>(
    alloc: Global,
    algebra: &A,
    standing: &Standing<A::Value>,
) -> Result<Standing<A::Value>, NoMemory>
    ensures { IfOk result (IsCopied A.seen standing.now) }
{
    let signals = copied(alloc, standing.leaves.signals.as_slice())?;
    let values = copies(alloc, algebra, standing.leaves.values.as_slice())?;
    Ok(Standing {
        place: standing.place,
        state: standing.state,
        leaves: Leaves {
            signals,
            values: Sequence::from_vec(values),
        },
    })
}

/// The members of two lists, those of the first before those of the second.
pub(crate) fn joined(
    alloc: Global,
    first: &[u32],
    second: &[u32],
) -> Result<Sequence<u32>, NoMemory>
    ensures { IfOk result (λ list. list ≡ first.now ++ second.now) }
{
    let mut list = Vec::new(alloc);
    list.extend_from_slice(first)?;
    list.extend_from_slice(second)?;
    Ok(Sequence::from_vec(list))
}

/// The same numbers once more.
pub(crate) fn copied(alloc: Global, numbers: &[u32]) -> Result<Sequence<u32>, NoMemory>
    ensures { IfOk result (λ copy. copy ≡ numbers.now) }
{
    let mut copy = Vec::new(alloc);
    copy.extend_from_slice(numbers)?;
    Ok(Sequence::from_vec(copy))
}
