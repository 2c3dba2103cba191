//! The clauses on a trail by their numbers in the log.

ghost use Rattle.std.specs.Prelude.{◌≡◌, ◌+◌, ◌<◌, ◌≤◌, ◌^◌, ◌++◌, ◌∷◌, [], false, List, length, slice_index_or, IfOk, OnOk};
ghost use Rattle.clause_core.specs.Literals.{Lit};
ghost use Rattle.clause_learning.specs.Hints.{AreHints};
ghost use Rattle.clause_learning.specs.ClauseDatabases.{numbers_of, log_hints, AreFirst, AreKept};

use base_library::NoMemory;
use clause_core::{Clause, ClauseList, clause_of};
use sat_trail::Trail;
use std::alloc::Global;

/// The most literals of a learnt clause that always stays on the trail.
const SHORT: usize = 2;

/// A clause behind those of the formula: its number in the log, and when it was last used, which is how many clauses were
/// learnt before, or the largest number if it always stays.
#[derive(Clone, Copy)]
pub struct ClauseUse {
    /// The number in the log.
    pub number: u64,
    /// When the clause was used.
    pub used: u64,
}

/// The clauses on a trail. Those of the formula stand first: they have the numbers from 1 on, and always stay.
#[derive(Drop)]
pub struct ClauseDatabase {
    /// How many clauses the formula has.
    pub formula: u32,
    /// The clauses behind them.
    pub learnt: Vec<ClauseUse>,
}

/// What is kept of a trail beside the clauses of the formula.
#[derive(Drop)]
pub struct Kept {
    /// The learnt clauses.
    pub learnt: Vec<Clause>,
    /// The numbers of the formula's clauses, and the numbers and uses of these.
    pub database: ClauseDatabase,
}

impl ClauseDatabase {
    /// That of the first clauses of the log, which always stay.
    pub fn new(alloc: Global, count: u32) -> ClauseDatabase
        ensures { AreFirst count result }
    {
        ClauseDatabase {
            formula: count,
            learnt: Vec::new(alloc),
        }
    }

    /// How many clauses there are.
    pub fn len(&self) -> u32
        requires { length (numbers_of self.now) < 2 ^ 32 }
        ensures { result ≡ length (numbers_of self.now) }
    {
        self.formula + self.learnt.len() as u32
    }

    /// Puts a clause of the log at the end.
    pub fn add(&mut self, number: u64, used: u64) -> Result<(), NoMemory>
        ensures { OnOk result (numbers_of self.new ≡ numbers_of self.old ++ number ∷ []) }
    {
        self.learnt.push(ClauseUse { number, used })?;
        Ok(())
    }

    /// The number in the log of the clause at a place.
    fn number_at(&self, place: usize) -> u64
        requires { place < length (numbers_of self.now) }
        ensures { result ≡ slice_index_or (numbers_of self.now) place 0 }
    {
        if place < self.formula as usize {
            place as u64 + 1
        } else {
            self.learnt[place - self.formula as usize].number
        }
    }

    /// When the clause at a place was used.
    fn used_at(&self, place: usize) -> u64
        requires { place < length (numbers_of self.now) }
    {
        if place < self.formula as usize {
            u64::MAX
        } else {
            self.learnt[place - self.formula as usize].used
        }
    }

    /// Notes that the clause at a place is used now.
    fn note_use(&mut self, place: usize, now: u64)
        requires { place < length (numbers_of self.old) }
        ensures { numbers_of self.new ≡ numbers_of self.old }
    {
        if place < self.formula as usize {
            return;
        }
        let learnt = &mut self.learnt[place - self.formula as usize];
        learnt.used = learnt.used.max(now);
    }

    /// Hints of the log in place of hints that name clauses on the trail, which are used now.
    pub fn log_hints(
        &mut self,
        alloc: Global,
        hints: &[u64],
        now: u64,
    ) -> Result<Vec<u64>, NoMemory>
        requires { AreHints (length (numbers_of self.old)) hints.now }
        ensures hints { IfOk result (λ named. named.items ≡ log_hints (numbers_of self.old) hints.now) }
        ensures numbers { numbers_of self.new ≡ numbers_of self.old }
    {
        let mut named = Vec::with_capacity(alloc, hints.len())?;
        for hint in hints {
            let place = (*hint - 1) as usize;
            self.note_use(place, now);
            named.push(self.number_at(place))?;
        }
        Ok(named)
    }

    /// The learnt clauses on the trail that were used from then on, with the numbers of the formula's clauses and of
    /// these.
    pub fn kept(
        &self,
        alloc: Global,
        formula: &ClauseList,
        trail: &Trail<'_>,
        from: u64,
    ) -> Result<Kept, NoMemory>
        requires usable { trail.now.broken ≡ false }
        requires few { length trail.now.clauses < 2 ^ 32 }
        requires formula { length formula.now ≤ length trail.now.clauses }
        requires numbers { length (numbers_of self.now) ≡ length trail.now.clauses }
        ensures { IfOk result (λ kept. AreKept formula.now trail.now.clauses (numbers_of self.now) (length trail.now.clauses)
            kept.learnt.items kept.database) }
    {
        let count = formula.len() as u32;
        let mut kept = Kept {
            learnt: Vec::new(alloc),
            database: ClauseDatabase::new(alloc, count),
        };
        for place in count..self.len() {
            self.pass(alloc, trail, place, from, &mut kept)?;
        }
        Ok(kept)
    }

    /// Keeps the clause at a place, if it was used from then on.
    fn pass(
        &self,
        alloc: Global,
        trail: &Trail<'_>,
        place: u32,
        from: u64,
        kept: &mut Kept,
    ) -> Result<(), NoMemory>
        requires usable { trail.now.broken ≡ false }
        requires within { place < length trail.now.clauses }
        requires numbers { length (numbers_of self.now) ≡ length trail.now.clauses }
        ensures { (formula : List (List Lit)) →
            AreKept formula trail.now.clauses (numbers_of self.now) place kept.old.learnt.items kept.old.database →
            OnOk result (AreKept formula trail.now.clauses (numbers_of self.now) (place + 1) kept.new.learnt.items kept.new.database) }
    {
        let used = self.used_at(place as usize);
        if used < from {
            return Ok(());
        }
        let clause = clause_of(alloc, trail.clause(place))?;
        kept.learnt.push(clause)?;
        kept.database.add(self.number_at(place as usize), used)
    }
}

/// When a learnt clause counts as used that was learnt now.
pub fn first_use(clause: &Clause, now: u64) -> u64
    ensures { now ≤ result }
{
    if clause.literals().len() <= SHORT {
        u64::MAX
    } else {
        now
    }
}
