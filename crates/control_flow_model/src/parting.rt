//! Decision trees as parts with numbers.

ghost use Rattle.std.specs.Prelude.{◌≡◌, ℕ, ◌∷◌, ◌+◌, ◌<◌, ◌^◌, [], length, Some, slice_get, IfOk, OnOk};
ghost use Rattle.base_library.specs.Kept.{with_new};
ghost use Rattle.machines.specs.MachineView.{entry_tree, controller_tree};
ghost use Rattle.control_flow_model.specs.DecisionTree.{leaf};
ghost use Rattle.control_flow_model.specs.internal.Parts.{part_key, part_keys, same_key, fork_key, AddsTree, AddsDecision};

use base_library::NoMemory;
use indexmap::IndexSet;
use machines::{Controller, Entry};
use std::alloc::Global;

/// A part of decision trees: an entry, or the test of a bit with the numbers of its branches.
#[derive(PartialEq, Eq, Hash, Drop)]
pub(crate) enum Part {
    /// An entry.
    Leaf {
        /// What it chooses.
        choices: Vec<u32>,
        /// The state to go to.
        next: u32,
    },
    /// The test of a bit.
    Fork {
        /// The bit.
        bit: u32,
        /// The number of the branch for truth 1.
        then_part: usize,
        /// The number of the branch for truth 0.
        else_part: usize,
    },
}

/// The number of a part among others; it is added at their end where it is not there.
fn number_of_part(parts: &mut IndexSet<Part>, part: Part) -> Result<usize, NoMemory>
    ensures kept { OnOk result (part_keys parts.new.keys
        ≡ with_new same_key (part_keys parts.old.keys) (part_key part ∷ [])) }
    ensures there { IfOk result (λ number. slice_get (part_keys parts.new.keys) number ≡ Some (part_key part)) }
{
    let (number, _) = parts.insert_full(part)?;
    Ok(number)
}

/// The number of an entry.
fn number_of_leaf(
    alloc: Global,
    parts: &mut IndexSet<Part>,
    entry: &Entry,
) -> Result<usize, NoMemory>
    ensures { IfOk result (AddsTree (part_keys parts.old.keys) (part_keys parts.new.keys) (leaf (entry_tree entry.now))) }
{
    let choices = entry.choices.as_slice().to_vec(alloc)?;
    number_of_part(
        parts,
        Part::Leaf {
            choices,
            next: entry.next,
        },
    )
}

/// The number of a test, which is that of its branches where both are the same.
fn number_of_fork(
    parts: &mut IndexSet<Part>,
    bit: u32,
    then_part: usize,
    else_part: usize,
) -> Result<usize, NoMemory>
    ensures same { then_part ≡ else_part → IfOk result (λ number. (number ≡ then_part)
        × (part_keys parts.new.keys ≡ part_keys parts.old.keys)) }
    ensures kept { (then_part ≡ else_part → ⊥) → OnOk result (part_keys parts.new.keys
        ≡ with_new same_key (part_keys parts.old.keys) (fork_key bit then_part else_part ∷ [])) }
    ensures there { (then_part ≡ else_part → ⊥) → IfOk result (λ number.
        slice_get (part_keys parts.new.keys) number ≡ Some (fork_key bit then_part else_part)) }
{
    if then_part == else_part {
        return Ok(then_part);
    }
    number_of_part(
        parts,
        Part::Fork {
            bit,
            then_part,
            else_part,
        },
    )
}

/// The number of the tree of a state that tests so many bits in order, from one on, where the bits before
/// have the truths of a valuation. What it is made of is added where it is not there.
pub(crate) fn number_of_tree(
    alloc: Global,
    parts: &mut IndexSet<Part>,
    controller: &Controller,
    state: u32,
    count: u32,
    bit: u32,
    valuation: u32,
) -> Result<usize, NoMemory>
    requires state { state < controller.now.states }
    requires bits { controller.now.valuations ≡ 2 ^ (bit + count) }
    requires few { bit + count < 32 }
    requires valuation { valuation < 2 ^ bit }
    ensures { IfOk result (AddsDecision (controller_tree controller.now) state count bit valuation
        (part_keys parts.old.keys) (part_keys parts.new.keys)) }
{
    if count == 0 {
        return number_of_leaf(alloc, parts, controller.entry(state, valuation));
    }
    let then_valuation = valuation + (1 << bit);
    let then_part = number_of_tree(
        alloc,
        parts,
        controller,
        state,
        count - 1,
        bit + 1,
        then_valuation,
    )?;
    let else_part = number_of_tree(
        alloc,
        parts,
        controller,
        state,
        count - 1,
        bit + 1,
        valuation,
    )?;
    number_of_fork(parts, bit, then_part, else_part)
}
