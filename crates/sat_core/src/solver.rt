//! The call of the solver.

ghost use Rattle.std.specs.Prelude.{◌≡◌, ◌+◌, ◌-◌, ◌^◌, ◌<◌, false, length, All, IfOk};
ghost use Rattle.clause_core.specs.Clauses.{has_pair};
ghost use Rattle.sat_core.specs.Answers.{IsRightAnswer};
ghost use Rattle.sat_core.specs.internal.Ends.{IsSearchAnswer};

use crate::answers::Answer;
use crate::search::Search;
use base_library::NoMemory;
use clause_core::Cnf;
use std::alloc::Global;

/// Whether some assignment meets all clauses, where so many clauses may be learnt, the empty one not counted. `Spent`
/// comes only once that many are learnt. No clause has a literal and its negation, the budget is at least 1, and
/// clauses and budget together are fewer than 2^32 - 1.
pub fn solve(alloc: Global, cnf: &Cnf, budget: u64) -> Result<Answer, NoMemory>
    requires no_tautology { All (λ clause. has_pair clause ≡ false) cnf.now.clauses }
    requires positive { 0 < budget }
    requires few { length cnf.now.clauses + budget < 2 ^ 32 - 1 }
    ensures { IfOk result (IsRightAnswer cnf.now.variables cnf.now.clauses budget) }
{
    match answer_of(alloc, cnf, budget, true)? {
        Answer::Sat(assignment) => Ok(Answer::Sat(assignment)),
        Answer::Unsat(log) => Ok(Answer::Unsat(log)),
        Answer::Spent(_) => answer_of(alloc, cnf, budget, false),
    }
}

/// The answer of a search until so many clauses are learnt. Where the trail may be reduced, clauses that were not
/// used of late are left out of it, and the search goes back one level in place of many; then the learnt clauses may
/// be no trace.
fn answer_of(alloc: Global, cnf: &Cnf, budget: u64, reduces: bool) -> Result<Answer, NoMemory>
    requires no_tautology { All (λ clause. has_pair clause ≡ false) cnf.now.clauses }
    requires few { length cnf.now.clauses + budget < 2 ^ 32 - 1 }
    ensures { IfOk result (IsSearchAnswer reduces cnf.now.variables cnf.now.clauses budget) }
{
    let search = Search::new(alloc, cnf, budget, reduces)?;
    search.run(alloc)
}
