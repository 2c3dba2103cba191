//! What is learnt from a conflict.

ghost use Rattle.std.specs.Prelude.{◌≡◌, ◌+◌, ◌<◌, ◌^◌, All, length, IfOk, OnOk};
ghost use Rattle.sat_trail.specs.States.{IsFalseAt};
ghost use Rattle.clause_learning.specs.Levels.{AreNoneFalseBelow};
ghost use Rattle.clause_learning.specs.LearntClauses.{IsLearntClause, HasLearnt, IsRefutingLog, level_after};
ghost use Rattle.clause_learning.specs.ConflictAnalysis.{AreNoneSeen, CanAnalyse};
ghost use Rattle.clause_learning.specs.Decisions.{AreDecisions};
ghost use Rattle.clause_learning.specs.Learning.{CanLearn, IsConflict, AreTables};

use crate::analysis::Analysis;
use crate::choices::Decisions;
use crate::proof_log::ProofLog;
use crate::units::Units;
use base_library::NoMemory;
use clause_core::{Clause, clause_of};
use refutation_check::Log;
use sat_trail::Trail;
use std::alloc::Global;

/// A clause that follows, the hints that show it, and the level to go back to.
#[derive(Drop)]
struct LearntClause {
    clause: Clause,
    hints: Vec<u64>,
    back: u32,
}

/// The most levels that are gone back at once where one level is enough.
const MOST_LEVELS: u32 = 20;

/// Learns a clause from a conflict above level 0, and goes back to the level that it teaches, or to level 0 where the
/// search begins anew. Where it may step back, and that level is far, it goes back by one level.
pub fn learn(
    alloc: Global,
    trail: &mut Trail<'_>,
    proof_log: &mut ProofLog,
    units: &Units,
    analysis: &mut Analysis,
    decisions: &mut Decisions,
    conflict: u32,
    anew: bool,
    steps: bool,
) -> Result<(), NoMemory>
    requires ready { CanLearn trail.old proof_log.old units.now analysis.old.seen }
    requires decisions { AreDecisions trail.old.variables trail.old.entries decisions.old }
    requires few { length trail.old.clauses + 1 < 2 ^ 32 }
    requires conflict { IsConflict trail.old conflict }
    ensures learnt { OnOk result (HasLearnt anew steps trail.old proof_log.old trail.new proof_log.new) }
    ensures tables { OnOk result (AreTables trail.new units.now analysis.new.seen decisions.new) }
{
    let learnt_clause = learnt_clause_of(alloc, trail, units, analysis, conflict)?;
    let level = level_after(anew, steps, learnt_clause.back, trail.level());
    decisions.bump(analysis.seen.looked.as_slice());
    decisions.take_back(trail, level);
    trail.undo_to(level);
    let _ = trail.learn(clause_of(alloc, learnt_clause.clause.literals())?)?;
    proof_log.add(alloc, learnt_clause.clause, learnt_clause.hints.as_slice())?;
    Ok(())
}

/// The level to go on from: 0 where the search begins anew, else that of what was learnt. Where the search
/// may step back, and that level is more than so many below the one before the present one, it is that one.
fn level_after(anew: bool, steps: bool, back: u32, level: u32) -> u32
    requires { back < level }
    ensures { result ≡ level_after anew steps back level }
{
    if anew {
        return 0;
    }
    let before = level - 1;
    if steps && before - back > MOST_LEVELS {
        before
    } else {
        back
    }
}

/// The log of the steps that is closed by a conflict at level 0.
pub fn refute(
    alloc: Global,
    trail: &Trail<'_>,
    mut proof_log: ProofLog,
    units: &Units,
    analysis: &mut Analysis,
    conflict: u32,
) -> Result<Log, NoMemory>
    requires ready { CanLearn trail.now proof_log units.now analysis.old.seen }
    requires conflict { IsFalseAt trail.now conflict }
    requires start { trail.now.level ≡ 0 }
    ensures { IfOk result (IsRefutingLog trail.now.clauses proof_log) }
{
    let learnt_clause = learnt_clause_of(alloc, trail, units, analysis, conflict)?;
    proof_log.add(alloc, learnt_clause.clause, learnt_clause.hints.as_slice())?;
    Ok(proof_log.into_log())
}

/// What a conflict teaches: the clause of the first unique implication point.
fn learnt_clause_of(
    alloc: Global,
    trail: &Trail<'_>,
    units: &Units,
    analysis: &mut Analysis,
    conflict: u32,
) -> Result<LearntClause, NoMemory>
    requires ready { CanAnalyse trail.now units.now analysis.old.seen }
    requires conflict { IsFalseAt trail.now conflict }
    requires met { AreNoneFalseBelow trail.now trail.now.level }
    ensures learnt_clause { IfOk result (λ learnt_clause. IsLearntClause trail.now learnt_clause.clause learnt_clause.hints.items learnt_clause.back) }
    ensures seen { OnOk result (AreNoneSeen trail.now.variables analysis.new.seen) }
    ensures looked { OnOk result (All (λ variable. variable < trail.now.variables) analysis.new.seen.looked.items) }
{
    analysis.run(trail, units, conflict)?;
    let mut hints = analysis.hints.as_slice().to_vec(alloc)?;
    hints.reverse();
    Ok(LearntClause {
        clause: clause_of(alloc, analysis.kept.as_slice())?,
        hints,
        back: analysis.back,
    })
}
