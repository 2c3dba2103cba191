//! The log of a search so far.

ghost use Rattle.std.specs.Prelude.{◌≡◌, ◌+◌, ◌<◌, ◌^◌, [], length, OnOk};
ghost use Rattle.clause_learning.specs.Hints.{AreHints};
ghost use Rattle.clause_learning.specs.LearntClauses.{TakesStep};
ghost use Rattle.clause_learning.specs.ClauseDatabases.{numbers_of, AreFirst};

use crate::clause_database::{ClauseDatabase, first_use};
use base_library::{NoMemory, Sequence};
use clause_core::Clause;
use refutation_check::{Log, Step};
use std::alloc::Global;

/// The steps that were taken, and the clauses on the trail by their numbers.
#[derive(Drop)]
pub struct ProofLog {
    /// The steps, in order.
    pub steps: Vec<Step>,
    /// The number of the next step.
    pub next: u64,
    /// The clauses on the trail.
    pub database: ClauseDatabase,
}

impl ProofLog {
    /// No step was taken behind so many clauses.
    pub fn new(alloc: Global, count: u32) -> ProofLog
        ensures steps { result.steps.items ≡ [] }
        ensures next { result.next ≡ count + 1 }
        ensures database { AreFirst count result.database }
    {
        ProofLog {
            steps: Vec::new(alloc),
            next: u64::from(count) + 1,
            database: ClauseDatabase::new(alloc, count),
        }
    }

    /// How many steps were taken.
    pub fn len(&self) -> u64
        ensures { result ≡ length self.now.steps.items }
    {
        self.steps.len() as u64
    }

    /// Takes the next step: the clause, by hints that name clauses on the trail, to which it is about to be added.
    pub fn add(&mut self, alloc: Global, clause: Clause, hints: &[u64]) -> Result<(), NoMemory>
        requires next { self.old.next + 1 < 2 ^ 64 }
        requires named { AreHints (length (numbers_of self.old.database)) hints.now }
        ensures { OnOk result (TakesStep self.old clause hints.now self.new) }
    {
        let now = self.len();
        let hints = self.database.log_hints(alloc, hints, now)?;
        self.database.add(self.next, first_use(&clause, now))?;
        self.steps.push(Step {
            number: self.next,
            clause,
            hints: Sequence::from_vec(hints),
        })?;
        self.next += 1;
        Ok(())
    }

    /// The log of the steps.
    pub fn into_log(self) -> Log
        ensures { result.steps ≡ self.steps.items }
    {
        let ProofLog { steps, .. } = self;
        Log {
            steps: Sequence::from_vec(steps),
        }
    }
}
