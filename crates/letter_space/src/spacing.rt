//! The bits of a specification.

ghost use Rattle.std.specs.Prelude.{◌≡◌, ◌+◌, ◌≤◌, ◌++◌, map, IfOk, IfErr};
ghost use Rattle.tsl_terms.specs.SpecView.{spec_tree};
ghost use Rattle.tsl_terms.specs.Signals.{cells_of, outputs_of, choices_of};
ghost use Rattle.letter_space.specs.declared.limits.TheConstants.{MOST_BITS};
ghost use Rattle.letter_space.specs.SpaceTree.{choice_count};
ghost use Rattle.letter_space.specs.ControlledView.{controlled_tree};
ghost use Rattle.letter_space.specs.SpaceView.{space_tree};
ghost use Rattle.letter_space.specs.SpecSpace.{controlled_from, spec_space, HasSpaceCause};
ghost use Rattle.letter_space.specs.internal.BitsCause.{HasBitsCause};

use crate::controlled::Controlled;
use crate::limits::{MOST_BITS, MOST_PREDICATES};
use crate::space::Space;
use crate::space_error::SpaceError;
use base_library::{NoMemory, Sequence};
use std::alloc::Global;
use tsl_terms::{Spec, choices, predicates, signals};

/// The bits of a specification: its predicate terms, by first appearance, then the choices of each cell and then
/// those of each output, signals in the order of the names. It is refused where there are more than 10 predicate
/// terms, and otherwise where there are more than 64 bits.
pub fn space_of(alloc: Global, spec: &Spec) -> Result<Space, SpaceError>
    ensures space { IfOk result (λ space. space_tree space ≡ spec_space (spec_tree spec.now)) }
    ensures cause { IfErr result (HasSpaceCause (spec_tree spec.now)) }
{
    let predicates = predicates(alloc, spec)?;
    if predicates.len() > MOST_PREDICATES {
        return Err(SpaceError::Predicates);
    }
    let signals = controlled_signals(alloc, spec)?;
    let controlled = controlled_from(alloc, spec, predicates.len(), &signals)?;
    Ok(Space {
        predicates: Sequence::from_vec(predicates),
        controlled: Sequence::from_vec(controlled),
    })
}

/// The cells and then the outputs of a specification.
fn controlled_signals(alloc: Global, spec: &Spec) -> Result<Vec<u32>, NoMemory>
    ensures { IfOk result
        (λ list. list.items ≡ cells_of (spec_tree spec.now) ++ outputs_of (spec_tree spec.now)) }
{
    let lists = signals(alloc, spec)?;
    let mut list = lists.cells.into_vec();
    list.extend_from_slice(lists.outputs.as_slice())?;
    Ok(list)
}

/// Signals with their choices, whose bits follow each other from a first one on.
fn controlled_from(
    alloc: Global,
    spec: &Spec,
    first: usize,
    signals: &[u32],
) -> Result<Vec<Controlled>, SpaceError>
    requires { first ≤ MOST_BITS }
    ensures controlled { IfOk result (λ list. map controlled_tree list.items
        ≡ controlled_from (choices_of (spec_tree spec.now)) first signals.now) }
    ensures few { IfOk result (λ list.
        first + choice_count (controlled_from (choices_of (spec_tree spec.now)) first signals.now)
        ≤ MOST_BITS) }
    ensures cause { IfErr result
        (HasBitsCause (first
        + choice_count (controlled_from (choices_of (spec_tree spec.now)) first signals.now))) }
{
    let mut list = Vec::new(alloc);
    let mut next = first;
    for signal in signals {
        let terms = choices(alloc, spec, *signal)?;
        if terms.len() > MOST_BITS - next {
            return Err(SpaceError::Bits);
        }
        let count = terms.len();
        list.push(Controlled {
            signal: *signal,
            choices: Sequence::from_vec(terms),
            first: next as u32,
        })?;
        next += count;
    }
    Ok(list)
}
