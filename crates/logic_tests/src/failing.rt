//! Letter loops on which controllers fail.

ghost use Rattle.std.specs.Prelude.{◌≡◌, ◌∷◌, [], IfOk};
ghost use Rattle.tsl_terms.specs.TermTree.{signal};
ghost use Rattle.letter_space.specs.SpaceView.{space_tree};
ghost use Rattle.machines.specs.MachineView.{controller_tree};
ghost use Rattle.machines.specs.Moves.{FitsSpace};

use base_library::{NoMemory, Sequence};
use cobuchi_automata::build;
use full_bound::{LetterLoop, failing_loop};
use letter_space::{Controlled, Space};
use logic_values::space_of_spec;
use machines::{Controller, Entry};
use spec_values::spec_of;
use std::alloc::Global;
use std::process::Abort;
use std::test::Fail;
use tsl_terms::{Formula, Term, whole};
use underapprox::to_letters;

/// Two updates that are wanted again and again, whose bits are 0 and 1.
const TWO_WANTED: &[u8] = b"always guarantee { F [g <- a()]; F [g <- b()]; }";

/// A signal that takes one of two terms, whose bits are 0 and 1 too.
fn small_space(alloc: Global) -> Result<Space, NoMemory>
    ensures { IfOk result (λ space. space_tree space ≡ record {
      predicates = [];
      controlled = record { signal = 0; choices = signal 1 ∷ signal 2 ∷ []; first = 0 } ∷ [];
    }) }
{
    let choices = vec![in alloc; Term::Signal(1), Term::Signal(2)]?;
    let controlled = Controlled {
        signal: 0,
        choices: Sequence::from_vec(choices),
        first: 0,
    };
    Ok(Space {
        predicates: Sequence::new(alloc),
        controlled: Sequence::from_vec(vec![in alloc; controlled]?),
    })
}

/// The controller of one state that always takes the first of one signal's terms.
fn first_for_ever(alloc: Global) -> Result<Controller, NoMemory>
    ensures { IfOk result (λ c. controller_tree c ≡ record {
      states = 1;
      valuations = 1;
      entries = record { choices = 0 ∷ []; next = 0 } ∷ [];
    }) }
{
    let entry = Entry {
        choices: Sequence::from_vec(vec![in alloc; 0]?),
        next: 0,
    };
    Ok(Controller {
        states: 1,
        valuations: 1,
        entries: Sequence::from_vec(vec![in alloc; entry]?),
    })
}

/// That space and that controller.
fn example(alloc: Global) -> Result<(Space, Controller), NoMemory>
    ensures { IfOk result (λ made. FitsSpace (space_tree made.0) (controller_tree made.1)) }
{
    Ok((small_space(alloc)?, first_for_ever(alloc)?))
}

/// A letter loop on which the controller fails to update so.
fn failing(rt: &impl Abort, alloc: Global) -> Result<Option<LetterLoop>, Fail> {
    let spec = spec_of(alloc, TWO_WANTED)?;
    let negation = Formula::Not(Box::new(alloc, whole(alloc, &spec)?)?);
    let form = to_letters(alloc, &negation, &space_of_spec(alloc, &spec)?)?;
    let Ok(automaton) = build(alloc, &form) else {
        return Err("the automaton is too large".into());
    };
    let (space, controller) = example(alloc)?;
    assert!(rt; controller.states <= 64);
    Ok(failing_loop(alloc, &form, &automaton, &space, &controller)?)
}

#[test]
fn one_update_for_ever_fails_where_two_are_wanted(rt: HostRuntime) -> Result<(), Fail> {
    let found = failing(&rt, rt.alloc())?.expect(&rt, "it fails");
    for letter in found.letters.as_slice() {
        assert_eq!(rt; *letter, 1);
    }
    Ok(())
}
