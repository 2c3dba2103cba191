//! Annotations of environments.

ghost use Rattle.std.specs.Prelude.{◌≡◌, nat_lt, IsTrue};
ghost use Rattle.letter_space.specs.SpaceView.{space_tree};
ghost use Rattle.machines.specs.MachineView.{environment_tree};
ghost use Rattle.machines.specs.Moves.{EnvironmentFits};

use annotation_check::annotate_environment;
use base_library::Sequence;
use cobuchi_automata::Automaton;
use letter_space::Space;
use logic_values::{no_bits, still_environment};
use machines::Environment;
use std::test::Fail;

/// Whether a number is below a bound.
fn is_below(number: u32, bound: u32) -> bool
    ensures { result ≡ nat_lt number bound }
{
    number < bound
}

/// Whether an environment fits a space.
fn fits(space: &Space, environment: &Environment) -> bool
    ensures { IsTrue result → EnvironmentFits (space_tree space.now) (environment_tree environment.now) }
{
    if space.vectors() != Some(environment.vectors) {
        return false;
    }
    let valuations = space.valuations();
    environment
        .truths
        .as_slice()
        .iter()
        .all(|truths| is_below(*truths, valuations))
}

/// The automaton of what never holds has a state and no edge.
#[test]
fn what_never_holds_has_an_environment_of_one_state(rt: HostRuntime) -> Result<(), Fail> {
    let alloc = rt.alloc();
    let automaton = Automaton {
        states: 1,
        edges: Sequence::new(alloc),
    };
    let space = no_bits(alloc);
    let environment = still_environment(alloc)?;
    assert!(rt; fits(&space, &environment));
    let found = annotate_environment(alloc, &automaton, &space, &environment, 0)?;
    let annotation = found.expect(&rt, "there is an annotation");
    assert_eq!(rt; annotation.bound, 0);
    assert_eq!(rt; annotation.numbers.as_slice(), [Some(0)].as_slice());
    Ok(())
}
