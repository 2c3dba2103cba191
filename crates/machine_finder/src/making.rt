//! Machines of answers.

ghost use Rattle.std.specs.Prelude.{◌≡◌, ◌≤◌, IfOk, IfSome};
ghost use Rattle.program_tree.specs.declared.limits.TheConstants.{MOST_STATES};
ghost use Rattle.letter_space.specs.SpaceView.{space_tree};
ghost use Rattle.letter_space.specs.Vectors.{vector_count};
ghost use Rattle.machines.specs.MachineView.{controller_tree};
ghost use Rattle.machines.specs.Moves.{FitsSpace};
ghost use Rattle.machine_finder.specs.internal.Entries.{AreEntries};

use crate::joining::Answer;
use base_library::{NoMemory, Sequence};
use letter_space::Space;
use machines::{Controller, Entry};
use program_tree::MOST_STATES;
use std::alloc::Global;

/// The machine with so many states whose answer in state s under valuation v stands at s * valuations + v. None where
/// an answer is missing, or names a vector or a state that is not there, or there are too many states.
pub(crate) fn machine_of(
    alloc: Global,
    space: &Space,
    vectors: u32,
    states: u32,
    answers: &[Answer],
) -> Result<Option<Controller>, NoMemory>
    requires { vectors ≡ vector_count (space_tree space.now).controlled }
    ensures fits { IfOk result (λ found. IfSome found (λ c. FitsSpace (space_tree space.now) (controller_tree c))) }
    ensures few_states { IfOk result (λ found. IfSome found (λ c. c.states ≤ MOST_STATES)) }
{
    let valuations = space.valuations();
    if states == 0 || states as usize > MOST_STATES {
        return Ok(None);
    }
    let Some(entries) = entries_of(alloc, space, vectors, states, answers)? else {
        return Ok(None);
    };
    if entries.len() != states as usize * valuations as usize {
        return Ok(None);
    }
    Ok(Some(Controller {
        states,
        valuations,
        entries,
    }))
}

/// The entries of answers, in order; None where one names a vector or a state that is not there.
fn entries_of(
    alloc: Global,
    space: &Space,
    vectors: u32,
    states: u32,
    answers: &[Answer],
) -> Result<Option<Sequence<Entry>>, NoMemory>
    requires { vectors ≡ vector_count (space_tree space.now).controlled }
    ensures { IfOk result (λ found. IfSome found (AreEntries (space_tree space.now) states)) }
{
    let mut entries = Sequence::new(alloc);
    for answer in answers {
        if answer.vector >= vectors || answer.target >= states {
            return Ok(None);
        }
        let choices = Sequence::from_vec(space.picks(alloc, answer.vector)?);
        entries.push(Entry {
            choices,
            next: answer.target,
        })?;
    }
    Ok(Some(entries))
}
