//! A runner that goes along a run step by step.

ghost use Rattle.std.specs.Prelude.{◌≡◌, ◌+◌, ℕ, length, IfOk, OnOk, OnErr, map};
ghost use Rattle.program_tree.specs.ProgramView.{program_tree};
ghost use Rattle.table_runner.specs.Running.{rows_seen, CanRun};
ghost use Rattle.table_runner.specs.Standings.{shown, StandsAt};

use crate::standing::{Standing, advance, cells_of, first_standing};
use base_library::NoMemory;
use interp_core::Judge;
use program_tree::Program;
use std::alloc::Global;
use tsl_meaning::InputLoop;

/// A runner: it shows the configuration of a step, and goes to the next one.
#[derive(Drop)]
pub struct Runner<'a, J: Judge> {
    alloc: Global,
    judge: &'a J,
    program: &'a Program,
    inputs: &'a InputLoop<J::Value>,
    standing: Standing<J::Value>,
}

impl<'a, J: Judge> Runner<'a, J> {
    /// A runner that stands at step 0.
    pub fn new(
        alloc: Global,
        judge: &'a J,
        program: &'a Program,
        inputs: &'a InputLoop<J::Value>,
    ) -> Result<Runner<'a, J>, NoMemory>
        requires can { CanRun (J.meanings judge.now) (program_tree program.now) (rows_seen J.seen inputs.now) }
        ensures stands { IfOk result (λ runner. StandsAt J.seen (J.meanings judge.now) (program_tree program.now)
            (rows_seen J.seen inputs.now) 0 runner.standing) }
        ensures runs { IfOk result (λ runner. (runner.judge.now ≡ judge.now) × (runner.program.now ≡ program.now)
            × (runner.inputs.now ≡ inputs.now)) }
    {
        let standing = first_standing(alloc, judge, program, inputs)?;
        Ok(Runner {
            alloc,
            judge,
            program,
            inputs,
            standing,
        })
    }

    /// Goes to the next step. An `Err` says that memory ran out, and then the runner stands where it stood.
    pub fn advance(&mut self) -> Result<(), NoMemory>
        requires can { CanRun (J.meanings self.old.judge.now) (program_tree self.old.program.now) (rows_seen J.seen self.old.inputs.now) }
        requires stands { (t : ℕ) × StandsAt J.seen (J.meanings self.old.judge.now) (program_tree self.old.program.now)
            (rows_seen J.seen self.old.inputs.now) t self.old.standing }
        ensures ok { OnOk result ((t : ℕ) → StandsAt J.seen (J.meanings self.old.judge.now) (program_tree self.old.program.now)
            (rows_seen J.seen self.old.inputs.now) t self.old.standing
            → StandsAt J.seen (J.meanings self.old.judge.now) (program_tree self.old.program.now) (rows_seen J.seen self.old.inputs.now)
            (t + 1) self.new.standing) }
        ensures err { OnErr result (self.new.standing ≡ self.old.standing) }
        ensures runs { (self.new.judge.now ≡ self.old.judge.now) × (self.new.program.now ≡ self.old.program.now)
            × (self.new.inputs.now ≡ self.old.inputs.now) }
    {
        advance(
            self.alloc,
            self.judge,
            self.program,
            self.inputs,
            &mut self.standing,
        )
    }

    /// The place among the input rows.
    pub fn place(&self) -> u32
        ensures { result ≡ (shown J.seen (length self.now.program.now.inputs) self.now.standing).place }
    {
        self.standing.place
    }

    /// The program's state.
    pub fn state(&self) -> u32
        ensures { result ≡ (shown J.seen (length self.now.program.now.inputs) self.now.standing).state }
    {
        self.standing.state
    }

    /// The value of each cell.
    pub fn cells(&self) -> &[J::Value]
        ensures { map J.seen result.now ≡ (shown J.seen (length self.now.program.now.inputs) self.now.standing).cells }
    {
        cells_of(self.program, &self.standing)
    }
}
