//! A search, and its steps.

ghost use Rattle.std.specs.Prelude.{◌≡◌, ◌+◌, ◌-◌, ◌<◌, ◌≤◌, ◌^◌, false, length, All, IfOk, IfSome, IfNone, OnOk};
ghost use Rattle.clause_core.specs.Clauses.{has_pair};
ghost use Rattle.clause_core.specs.Propagation.{IsQuiet};
ghost use Rattle.sat_trail.specs.Entries.{literals_of};
ghost use Rattle.sat_trail.specs.States.{EndsWith, IsFalseAt};
ghost use Rattle.clause_learning.specs.LearntClauses.{clauses_of};
ghost use Rattle.sat_core.specs.Answers.{AreSatisfying, AreRefuting};
ghost use Rattle.sat_core.specs.internal.Ends.{IsAnswerTo};
ghost use Rattle.sat_core.specs.internal.Searches.{task_of, budget_left, IsSearching, HasSpent};

use crate::answers::Answer;
use base_library::{NoMemory, Sequence};
use clause_core::{Assignment, Clause, Cnf};
use clause_learning::{
    Analysis, Decisions, Kept, ProofLog, Reductions, Restarts, Units, assignment_of, learn, refute,
};
use refutation_check::Log;
use sat_trail::Trail;
use std::alloc::Global;

/// A search over a formula, between its steps.
#[derive(Drop)]
pub(crate) struct Search<'f> {
    /// The formula.
    cnf: &'f Cnf,
    /// How many clauses may be learnt.
    budget: u64,
    /// Whether clauses may be left out of the trail, and the search may go back by one level in place of many.
    reduces: bool,
    /// What is set, over the clauses of the formula and learnt ones.
    trail: Trail<'f>,
    /// The steps that were taken.
    proof_log: ProofLog,
    /// The analysis of conflicts.
    analysis: Analysis,
    /// The variables that may be decided.
    decisions: Decisions,
    /// The clauses of one literal.
    units: Units,
    /// When the search begins anew at level 0.
    restarts: Restarts,
    /// When clauses are left out.
    reductions: Reductions,
}

impl<'f> Search<'f> {
    /// A search that begins, and may learn so many clauses.
    pub(crate) fn new(
        alloc: Global,
        cnf: &'f Cnf,
        budget: u64,
        reduces: bool,
    ) -> Result<Search<'f>, NoMemory>
        requires no_tautology { All (λ clause. has_pair clause ≡ false) cnf.now.clauses }
        requires few { length cnf.now.clauses + budget < 2 ^ 32 - 1 }
        ensures searching { IfOk result IsSearching }
        ensures task { IfOk result (λ search. task_of search ≡ record { formula = cnf.now; budget = budget; reduces = reduces }) }
    {
        let trail = Trail::with_learnt(alloc, cnf, Vec::new(alloc))?;
        let proof_log = ProofLog::new(alloc, cnf.clauses.len() as u32);
        let analysis = Analysis::new(alloc, cnf.variables)?;
        let decisions = Decisions::new(alloc, cnf.variables)?;
        let units = Units::new(alloc, cnf.variables, most_units(cnf, budget, reduces))?;
        let restarts = Restarts::new();
        let reductions = Reductions::new(reduces, cnf.clauses.len() as u64);
        Ok(Search {
            cnf,
            budget,
            reduces,
            trail,
            proof_log,
            analysis,
            decisions,
            units,
            restarts,
            reductions,
        })
    }

    /// Searches until there is an answer.
    pub(crate) fn run(mut self, alloc: Global) -> Result<Answer, NoMemory>
        requires { IsSearching self }
        ensures { IfOk result (IsAnswerTo (task_of self.entry)) }
    {
        loop {
            let Some(conflict) = self.propagate(alloc)? else {
                if let Some(assignment) = self.decide(alloc)? {
                    return Ok(Answer::Sat(assignment));
                }
                continue;
            };
            if self.trail.level() == 0 {
                let log = self.refute(alloc, conflict)?;
                return Ok(Answer::Unsat(log));
            }
            if self.learnt() == self.budget {
                return self.end(alloc);
            }
            self.learn(alloc, conflict)?;
            self.reduce(alloc)?;
        }
    }

    /// How many clauses were learnt. Those of one literal that were added to the trail are not counted.
    fn learnt(&self) -> u64
        requires { IsSearching self.now }
        ensures { result + self.now.units.added ≡ length self.now.proof_log.steps.items }
    {
        self.proof_log.len() - u64::from(self.units.added)
    }

    /// Propagates until no clause is unit or a clause is false: then it answers that clause's number. At level 0 what
    /// is true then gets clauses of one literal.
    fn propagate(&mut self, alloc: Global) -> Result<Option<u32>, NoMemory>
        requires { IsSearching self.old }
        ensures searching { OnOk result (IsSearching self.new) }
        ensures spent { OnOk result (HasSpent 0 self.old self.new) }
        ensures grown { OnOk result (length self.old.trail.entries ≤ length self.new.trail.entries) }
        ensures ends { IfOk result (λ answer. EndsWith answer self.new.trail) }
    {
        let conflict = self.trail.propagate()?;
        if conflict.is_some() || self.trail.level() > 0 || !self.units.are_due(&self.trail) {
            return Ok(conflict);
        }
        self.units
            .note_all(alloc, &mut self.trail, &mut self.proof_log)?;
        Ok(self.trail.propagate()?)
    }

    /// Decides the next variable. Where all are set it answers with what they are set to.
    fn decide(&mut self, alloc: Global) -> Result<Option<Assignment>, NoMemory>
        requires searching { IsSearching self.old }
        requires quiet { IsQuiet self.old.trail.clauses (literals_of self.old.trail.entries) }
        ensures satisfying { IfOk result (λ found. IfSome found (λ assignment.
            AreSatisfying self.old.cnf.now.variables self.old.cnf.now.clauses assignment.truths)) }
        ensures searching { IfOk result (λ found. IfNone found (IsSearching self.new)) }
        ensures spent { IfOk result (λ found. IfNone found (HasSpent 0 self.old self.new)) }
        ensures grown { IfOk result (λ found. IfNone found (length self.old.trail.entries < length self.new.trail.entries)) }
    {
        if self.decisions.decide(&mut self.trail)? {
            return Ok(None);
        }
        let assignment = assignment_of(alloc, &self.trail, self.cnf.variables)?;
        Ok(Some(assignment))
    }

    /// Learns a clause from a conflict above level 0, where more may be learnt.
    fn learn(&mut self, alloc: Global, conflict: u32) -> Result<(), NoMemory>
        requires searching { IsSearching self.old }
        requires left { 0 < budget_left self.old }
        requires conflict { IsFalseAt self.old.trail conflict }
        requires above { 0 < self.old.trail.level }
        ensures searching { OnOk result (IsSearching self.new) }
        ensures spent { OnOk result (HasSpent 1 self.old self.new) }
    {
        let learnt = self.learnt() + 1;
        let anew = self.restarts.is_due(learnt);
        learn(
            alloc,
            &mut self.trail,
            &mut self.proof_log,
            &self.units,
            &mut self.analysis,
            &mut self.decisions,
            conflict,
            anew,
            self.reduces,
        )?;
        Ok(())
    }

    /// Where clauses are to be left out, begins anew with a trail that lacks them.
    fn reduce(&mut self, alloc: Global) -> Result<(), NoMemory>
        requires { IsSearching self.old }
        ensures searching { OnOk result (IsSearching self.new) }
        ensures spent { OnOk result (HasSpent 0 self.old self.new) }
    {
        if !self.reductions.is_due(self.proof_log.len()) {
            return Ok(());
        }
        self.decisions.take_all_back(&self.trail)?;
        let from = self.reductions.from(self.proof_log.len());
        let kept = self
            .proof_log
            .database
            .kept(alloc, &self.cnf.clauses, &self.trail, from)?;
        let Kept { learnt, database } = kept;
        let count = self.cnf.clauses.len() as u32 + learnt.len() as u32;
        self.trail = Trail::with_learnt(alloc, self.cnf, learnt)?;
        self.proof_log.database = database;
        self.units.renew(&self.trail, count);
        Ok(())
    }

    /// The log of the steps that is closed by a conflict at level 0.
    fn refute(self, alloc: Global, conflict: u32) -> Result<Log, NoMemory>
        requires searching { IsSearching self }
        requires conflict { IsFalseAt self.trail conflict }
        requires start { self.trail.level ≡ 0 }
        ensures { IfOk result (λ log. AreRefuting self.entry.cnf.now.variables self.entry.cnf.now.clauses log.steps) }
    {
        let proof_log = self.proof_log;
        let mut analysis = self.analysis;
        let log = refute(
            alloc,
            &self.trail,
            proof_log,
            &self.units,
            &mut analysis,
            conflict,
        )?;
        Ok(log)
    }

    /// Ends a search that may learn no more: by a refutation where propagation at level 0 finds a clause that is
    /// false.
    fn end(mut self, alloc: Global) -> Result<Answer, NoMemory>
        requires searching { IsSearching self }
        requires spent { budget_left self ≡ 0 }
        ensures { IfOk result (IsAnswerTo (task_of self.entry)) }
    {
        self.trail.undo_to(0);
        let conflict = self.trail.propagate()?;
        let proof_log = self.proof_log;
        let mut analysis = self.analysis;
        match conflict {
            Some(conflict) => {
                let log = refute(
                    alloc,
                    &self.trail,
                    proof_log,
                    &self.units,
                    &mut analysis,
                    conflict,
                )?;
                Ok(Answer::Unsat(log))
            }
            None => Ok(Answer::Spent(learnt_clauses(alloc, proof_log.into_log())?)),
        }
    }
}

/// How many clauses of one literal may be added to the trail of a search: none where the learnt clauses are to
/// be a trace, and otherwise as many as leave numbers for those that may be learnt.
fn most_units(cnf: &Cnf, budget: u64, reduces: bool) -> u32
    requires few { length cnf.now.clauses + budget < 2 ^ 32 - 1 }
    ensures room { length cnf.now.clauses + budget + result < 2 ^ 32 - 1 }
    ensures none { reduces ≡ false → result ≡ 0 }
{
    if reduces {
        u32::MAX - 1 - cnf.clauses.len() as u32 - budget as u32
    } else {
        0
    }
}

/// The clauses of the steps.
fn learnt_clauses(alloc: Global, log: Log) -> Result<Sequence<Clause>, NoMemory>
    ensures { IfOk result (λ clauses. clauses ≡ clauses_of log.steps) }
{
    let steps = log.steps.into_vec();
    let mut clauses = Vec::with_capacity(alloc, steps.len())?;
    for step in steps {
        clauses.push(step.clause)?;
    }
    Ok(Sequence::from_vec(clauses))
}
