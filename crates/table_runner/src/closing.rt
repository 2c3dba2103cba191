//! Where a run closes, found by R. Brent's algorithm: one configuration is kept, and each later one is compared
//! with it; after twice as many steps each time, the latest is kept in its place.

ghost use Rattle.std.specs.Prelude.{◌≡◌, ◌+◌, ◌^◌, ◌<◌, ◌≤◌, ℕ, None, IfOk, IfErr, OnOk};
ghost use Rattle.program_tree.specs.ProgramView.{program_tree};
ghost use Rattle.tsl_meaning.specs.Run.{configuration_at};
ghost use Rattle.tsl_meaning.specs.RunTree.{run_tree};
ghost use Rattle.tsl_meaning.specs.RunLasso.{shape_of};
ghost use Rattle.tsl_meaning.specs.RunOf.{IsRunOf, IsFirstRepetition, AreDifferent};
ghost use Rattle.table_runner.specs.Running.{rows_seen, CanRun};
ghost use Rattle.table_runner.specs.Standings.{StandsAt};
ghost use Rattle.table_runner.specs.internal.Returns.{Returns, IsReturnWithin, IsFirstStart};

use crate::errors::RunError;
use crate::recording::first_positions;
use crate::standing::{
    Standing, advance, copied, copy_standing, first_standing, same_configuration,
};
use base_library::NoMemory;
use interp_core::Judge;
use program_tree::Program;
use std::alloc::Global;
use tsl_meaning::{InputLoop, LoopRun};

/// A configuration that comes again: at which step, and after how many more steps at the least.
#[derive(Clone, Copy)]
struct Return {
    step: u64,
    length: u64,
}

/// The run of a program that closes at the first configuration that equals an earlier one. `NoLoop` comes exactly
/// where no two of the first `limit + 1` configurations are equal.
pub fn run_closed<J: Judge>(
    alloc: Global,
    judge: &J,
    program: &Program,
    inputs: &InputLoop<J::Value>,
    limit: u32,
) -> Result<LoopRun<J::Value>, RunError>
    requires can { CanRun (J.meanings judge.now) (program_tree program.now) (rows_seen J.seen inputs.now) }
    ensures run { IfOk result (λ run. IsRunOf (J.meanings judge.now) (program_tree program.now) (rows_seen J.seen inputs.now)
        (run_tree J.seen run)) }
    ensures first { IfOk result (λ run. IsFirstRepetition (J.meanings judge.now) (program_tree program.now) (rows_seen J.seen inputs.now)
        (shape_of (run_tree J.seen run))) }
    ensures within { IfOk result (λ run. run.start + run.length ≤ limit) }
    ensures no_loop { IfErr result (λ e. e ≡ RunError.NoLoop → AreDifferent (J.meanings judge.now) (program_tree program.now)
        (rows_seen J.seen inputs.now) (limit + 1)) }
{
    let found = match some_return(alloc, judge, program, inputs, limit) {
        Ok(found) => found,
        Err(error) => return Err(error),
    };
    let start = first_start(alloc, judge, program, inputs, found)?;
    let end = start + found.length;
    if end > u64::from(limit) {
        return Err(RunError::NoLoop);
    }
    Ok(LoopRun {
        inputs: copied(alloc, program.inputs.as_slice())?,
        cells: copied(alloc, program.cells.as_slice())?,
        outputs: copied(alloc, program.outputs.as_slice())?,
        start: start as u32,
        length: found.length as u32,
        positions: first_positions(alloc, judge, program, inputs, end as u32)?,
    })
}

/// A configuration that comes again. `NoLoop` comes only where the limit allows none.
fn some_return<J: Judge>(
    alloc: Global,
    judge: &J,
    program: &Program,
    inputs: &InputLoop<J::Value>,
    limit: u32,
) -> Result<Return, RunError>
    requires can { CanRun (J.meanings judge.now) (program_tree program.now) (rows_seen J.seen inputs.now) }
    ensures found { IfOk result (λ r. Returns (configuration_at (J.meanings judge.now) (program_tree program.now)
        (rows_seen J.seen inputs.now)) r.step r.length) }
    ensures bounds { IfOk result (λ r. (r.step < 2 ^ 33) × (r.length ≤ 2 ^ 33)) }
    ensures no_loop { IfErr result (λ e. e ≡ RunError.NoLoop → AreDifferent (J.meanings judge.now) (program_tree program.now)
        (rows_seen J.seen inputs.now) (limit + 1)) }
{
    let mut standing = first_standing(alloc, judge, program, inputs)?;
    let mut step = 0;
    let mut reach = 1;
    loop {
        if let Some(length) = return_within(alloc, judge, program, inputs, &mut standing, reach)? {
            return Ok(Return { step, length });
        }
        if reach >= u64::from(limit) {
            return Err(RunError::NoLoop);
        }
        step += reach;
        reach *= 2;
    }
}

/// After how many steps the configuration comes again, if that is within the reach.
fn return_within<J: Judge>(
    alloc: Global,
    judge: &J,
    program: &Program,
    inputs: &InputLoop<J::Value>,
    standing: &mut Standing<J::Value>,
    reach: u64,
) -> Result<Option<u64>, NoMemory>
    requires can { CanRun (J.meanings judge.now) (program_tree program.now) (rows_seen J.seen inputs.now) }
    requires stands { (t : ℕ) × StandsAt J.seen (J.meanings judge.now) (program_tree program.now)
        (rows_seen J.seen inputs.now) t standing.old }
    ensures found { IfOk result (λ found. (t : ℕ) → StandsAt J.seen (J.meanings judge.now) (program_tree program.now)
        (rows_seen J.seen inputs.now) t standing.old
        → IsReturnWithin (configuration_at (J.meanings judge.now) (program_tree program.now) (rows_seen J.seen inputs.now)) t reach found) }
    ensures goes_on { IfOk result (λ found. found ≡ None → (t : ℕ) →
        StandsAt J.seen (J.meanings judge.now) (program_tree program.now) (rows_seen J.seen inputs.now) t standing.old
        → StandsAt J.seen (J.meanings judge.now) (program_tree program.now) (rows_seen J.seen inputs.now) (t + reach) standing.new) }
{
    let kept = copy_standing(alloc, judge, standing)?;
    for steps in 0..reach {
        advance(alloc, judge, program, inputs, standing)?;
        if same_configuration(judge, program, standing, &kept) {
            return Ok(Some(steps + 1));
        }
    }
    Ok(None)
}

/// The first step whose configuration comes again after that many steps.
fn first_start<J: Judge>(
    alloc: Global,
    judge: &J,
    program: &Program,
    inputs: &InputLoop<J::Value>,
    found: Return,
) -> Result<u64, NoMemory>
    requires can { CanRun (J.meanings judge.now) (program_tree program.now) (rows_seen J.seen inputs.now) }
    requires found { Returns (configuration_at (J.meanings judge.now) (program_tree program.now) (rows_seen J.seen inputs.now))
        found.step found.length }
    ensures first { IfOk result (IsFirstStart (configuration_at (J.meanings judge.now) (program_tree program.now)
        (rows_seen J.seen inputs.now)) found.length) }
    ensures within { IfOk result (λ start. start ≤ found.step) }
{
    let mut later = first_standing(alloc, judge, program, inputs)?;
    for _ in 0..found.length {
        advance(alloc, judge, program, inputs, &mut later)?;
    }
    let mut earlier = first_standing(alloc, judge, program, inputs)?;
    for start in 0..found.step {
        if same_configuration(judge, program, &earlier, &later) {
            return Ok(start);
        }
        advance(alloc, judge, program, inputs, &mut earlier)?;
        advance(alloc, judge, program, inputs, &mut later)?;
    }
    Ok(found.step)
}
