//! Searches with the full bound.

ghost use Rattle.std.specs.Prelude.{IsTrue};
ghost use Rattle.refinement_loop.specs.Outcomes.{IsInRange, search_with};
ghost use Rattle.refinement_loop.specs.declared.outcome.Bound.TheVariants.{Full};

use full_bound::refine_full;
use refinement_loop::{Outcome, Sizes};
use spec_values::spec_of;
use std::alloc::Global;
use std::process::Abort;
use std::test::Fail;

/// Two updates that are wanted again and again. The automaton of the negation has five states.
const TWO_IN_TURN: &[u8] = b"always guarantee { F [g <- a()]; F [g <- b()]; }";

/// Whether each size lies in its range.
fn are_in_range(sizes: &Sizes) -> bool
    ensures { IsTrue result → IsInRange (search_with sizes.now Full) }
{
    let states = 1 <= sizes.states && sizes.states <= 8;
    let env_states = 1 <= sizes.env_states && sizes.env_states <= 8 && sizes.env_bound <= 15;
    let rounds = 1 <= sizes.depth && sizes.depth <= 3 && sizes.rounds <= 64;
    states && env_states && rounds && 1 <= sizes.budget && sizes.budget <= 1_000_000
}

/// Whether a program of so many states is written for the two updates, and the bound that was asked for.
fn searched(rt: &impl Abort, alloc: Global, states: u32) -> Result<(bool, u32), Fail> {
    let sizes = Sizes {
        states,
        bound: 0,
        env_states: 1,
        env_bound: 0,
        depth: 1,
        rounds: 0,
        budget: 20_000,
    };
    assert!(rt; are_in_range(&sizes));
    let spec = spec_of(alloc, TWO_IN_TURN)?;
    match refine_full(alloc, &spec, &sizes) {
        Ok(full) => Ok((matches!(full.outcome, Outcome::Written { .. }), full.bound)),
        Err(_) => Err("the search has no answer".into()),
    }
}

/// How many states there are, whether a program is written, and the full bound: so many times five.
const SEARCHES: &[(u32, bool, u32)] = &[(1, false, 5), (2, true, 10)];

#[test]
fn the_full_bound_is_states_times_those_of_the_automaton(rt: HostRuntime) -> Result<(), Fail> {
    for &(states, is_written, bound) in SEARCHES {
        assert_eq!(rt; searched(&rt, rt.alloc(), states)?, (is_written, bound));
    }
    Ok(())
}
