//! Clauses and assignments.

use base_library::Sequence;
use clause_core::{Assignment, contains, is_tautology, meets};
use logic_values::clause;
use std::test::Fail;

/// Clauses of two literals, and whether they are met where the variables 1 and 2 are false.
const MET: &[([i32; 2], bool)] = &[([-1, 2], true), ([1, 2], false), ([1, -2], true)];

#[test]
fn clauses_are_compared_by_their_literals(rt: HostRuntime) -> Result<(), Fail> {
    let alloc = rt.alloc();
    let small = clause(alloc, &[2, -4])?;
    let large = clause(alloc, &[1, 2, -4, 9])?;
    assert!(rt; contains(&small, &large));
    assert!(rt; !contains(&large, &small));
    assert!(rt; contains(&clause(alloc, &[])?, &small));
    assert!(rt; !is_tautology(&large));
    assert!(rt; is_tautology(&clause(alloc, &[1, -3, 2, 5, -2])?));
    Ok(())
}

#[test]
fn an_assignment_meets_a_clause_by_one_true_literal(rt: HostRuntime) -> Result<(), Fail> {
    let alloc = rt.alloc();
    let assignment = Assignment {
        truths: Sequence::from_vec(vec![in alloc; false, false]?),
    };
    for (numbers, met) in MET {
        let clause = clause(alloc, numbers)?;
        assert!(rt; clause.is_over(2));
        assert_eq!(rt; meets(&assignment, &clause), *met);
    }
    assert!(rt; !clause(alloc, &[1, -3])?.is_over(2));
    Ok(())
}
