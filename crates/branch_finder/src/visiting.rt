//! The states that an environment visits.

ghost use Rattle.std.specs.Prelude.{◌≡◌, ◌∷◌, ◌++◌, ◌<◌, ◌+◌, [], length, if◌then◌else◌, IfOk, OnOk};
ghost use Rattle.base_library.specs.Numbers.{is_among};
ghost use Rattle.machines.specs.MachineView.{environment_tree};
ghost use Rattle.branch_finder.specs.internal.Visiting.{AreFoundUpTo, AreVisited};

use base_library::NoMemory;
use machines::Environment;
use std::alloc::Global;

/// Adds a number at the end of others where it is not there.
pub(crate) fn add_once(found: &mut Vec<u32>, number: u32) -> Result<(), NoMemory>
    ensures { OnOk result (found.new.items
        ≡ if is_among found.old.items number then found.old.items else found.old.items ++ number ∷ []) }
{
    if !is_found(found, number) {
        found.push(number)?;
    }
    Ok(())
}

/// Whether a number is found.
pub(crate) fn is_found(found: &[u32], number: u32) -> bool
    ensures { result ≡ is_among found.now number }
{
    found.iter().any(|other| *other == number)
}

/// Adds the states that the one at a place goes to.
fn add_successors(
    environment: &Environment,
    found: &mut Vec<u32>,
    place: usize,
) -> Result<(), NoMemory>
    requires found { AreFoundUpTo (environment_tree environment.now) place 0 found.old.items }
    requires place { place < length found.old.items }
    ensures { OnOk result (AreFoundUpTo (environment_tree environment.now) (place + 1) 0 found.new.items) }
{
    let state = found[place];
    for vector in 0..environment.vectors {
        add_once(found, environment.successor(state, vector))?;
    }
    Ok(())
}

/// The states that an environment visits, each once, in the order in which they are found.
pub(crate) fn visited_states(alloc: Global, environment: &Environment) -> Result<Vec<u32>, NoMemory>
    ensures { IfOk result (λ found. AreVisited (environment_tree environment.now) found.items) }
{
    let mut found = Vec::new(alloc);
    found.push(0)?;
    let mut expanded = 0;
    while expanded < found.len() {
        add_successors(environment, &mut found, expanded)?;
        expanded += 1;
    }
    Ok(found)
}
