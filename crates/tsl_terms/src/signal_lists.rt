//! Inputs, cells and outputs.

ghost use Rattle.std.specs.Prelude.{◌≡◌, ◌<◌, ◌∷◌, ◌++◌, [], length, if◌then◌else◌, IfOk, OnOk};
ghost use Rattle.tsl_terms.specs.Name.{is_name};
ghost use Rattle.tsl_terms.specs.Signals.{inputs_of, cells_of, outputs_of};
ghost use Rattle.tsl_terms.specs.SpecView.{spec_tree};

use crate::marks::marks_of;
use crate::names::{NameKind, Names};
use crate::spec::Spec;
use base_library::{NoMemory, Sequence};
use std::alloc::Global;

/// The signals of a specification, each list in the order of the names.
#[derive(Drop)]
pub struct SignalLists {
    /// The signals that no update names on its left.
    pub inputs: Sequence<u32>,
    /// The updated signals that some term or bare name reads.
    pub cells: Sequence<u32>,
    /// The updated signals that nothing reads.
    pub outputs: Sequence<u32>,
}

/// The inputs, cells and outputs of a specification. A signal on the left of an update is a cell where some term or
/// bare name reads it, and else an output; every other signal is an input. It takes time in proportion to the
/// formulas' nodes and the names.
pub fn signals(alloc: Global, spec: &Spec) -> Result<SignalLists, NoMemory>
    ensures inputs { IfOk result (λ lists. lists.inputs ≡ inputs_of (spec_tree spec.now)) }
    ensures cells { IfOk result (λ lists. lists.cells ≡ cells_of (spec_tree spec.now)) }
    ensures outputs { IfOk result (λ lists. lists.outputs ≡ outputs_of (spec_tree spec.now)) }
{
    let marks = marks_of(alloc, spec)?;
    let mut inputs = Sequence::new(alloc);
    let mut cells = Sequence::new(alloc);
    let mut outputs = Sequence::new(alloc);
    for id in 0..spec.names.count() {
        let updated = marks.updated[id as usize];
        let read = marks.read[id as usize];
        push_if(&mut inputs, id, is_signal(&spec.names, id) && !updated)?;
        push_if(&mut cells, id, updated && read)?;
        push_if(&mut outputs, id, updated && !read)?;
    }
    Ok(SignalLists {
        inputs,
        cells,
        outputs,
    })
}

/// Whether a number is that of a signal.
fn is_signal(names: &Names, id: u32) -> bool
    requires { id < length names.now }
    ensures { result ≡ is_name names.now id NameKind.Signal 0 }
{
    names.kind(id) == NameKind::Signal && names.arity(id) == 0
}

/// Adds a number at the end of a list where it belongs there.
fn push_if(list: &mut Sequence<u32>, id: u32, belongs: bool) -> Result<(), NoMemory>
    ensures { OnOk result (list.new ≡ list.old ++ (if belongs then id ∷ [] else [])) }
{
    if belongs {
        list.push(id)?;
    }
    Ok(())
}
