//! The clauses of choices.

ghost use Rattle.std.specs.Prelude.{◌≡◌, ◌<◌, OnOk, All};
ghost use Rattle.std.specs.List.{flat_map};
ghost use Rattle.letter_space.specs.ControlledView.{controlled_tree};
ghost use Rattle.bounded_encoding.specs.Encoding.{signal_clauses, choices_under, choices_in, choice_clauses};
ghost use Rattle.bounded_encoding.specs.Made.{with_clauses};
ghost use Rattle.bounded_encoding.specs.Refusing.{Refuses};
ghost use Rattle.bounded_encoding.specs.internal.Asking.{tree_of, controlled_trees, IsPlaced, IsCounted};

use crate::asking::{Question, choice_base};
use crate::builder::Builder;
use crate::errors::EncodeError;
use crate::simple_clauses::add_exactly_one;
use letter_space::Controlled;
use std::alloc::Global;

/// Adds that a signal takes one choice in a state under a valuation.
fn add_signal(
    alloc: Global,
    out: &mut Builder,
    question: &Question,
    s: u32,
    v: u32,
    signal: &Controlled,
) -> Result<(), EncodeError>
    requires asked { IsCounted question.now }
    requires state { s < question.now.states }
    requires valuation { v < question.now.valuations }
    requires placed { IsPlaced (tree_of question.now) (controlled_tree signal.now) }
    ensures added { OnOk result (out.new ≡ with_clauses out.old (signal_clauses (tree_of question.now) s v (controlled_tree signal.now))) }
    ensures refused { Refuses result (with_clauses out.old (signal_clauses (tree_of question.now) s v (controlled_tree signal.now))) }
{
    let base = choice_base(question, s, v);
    let first = signal.first - question.predicates;
    add_exactly_one(alloc, out, base, first, first + signal.choices.len() as u32)
}

/// Adds that each of some signals takes one choice in a state under a valuation.
#[tactic(auto, using(crate::proofs::Adding::adding))]
fn add_signals(
    alloc: Global,
    out: &mut Builder,
    question: &Question,
    s: u32,
    v: u32,
    signals: &[Controlled],
) -> Result<(), EncodeError>
    requires asked { IsCounted question.now }
    requires state { s < question.now.states }
    requires valuation { v < question.now.valuations }
    requires placed { All (λ c. IsPlaced (tree_of question.now) (controlled_tree c)) signals.now }
    ensures added { OnOk result (out.new
        ≡ with_clauses out.old (flat_map (λ c. signal_clauses (tree_of question.now) s v (controlled_tree c)) signals.now)) }
    ensures refused { Refuses result
        (with_clauses out.old (flat_map (λ c. signal_clauses (tree_of question.now) s v (controlled_tree c)) signals.now)) }
{
    for signal in signals {
        add_signal(alloc, out, question, s, v, signal)?;
    }
    Ok(())
}

/// Adds that each signal takes one choice in a state under a valuation.
fn add_choices_under(
    alloc: Global,
    out: &mut Builder,
    question: &Question,
    s: u32,
    v: u32,
) -> Result<(), EncodeError>
    requires asked { IsCounted question.now }
    requires state { s < question.now.states }
    requires valuation { v < question.now.valuations }
    ensures added { OnOk result (out.new ≡ with_clauses out.old (choices_under (tree_of question.now) s v)) }
    ensures refused { Refuses result (with_clauses out.old (choices_under (tree_of question.now) s v)) }
{
    add_signals(
        alloc,
        out,
        question,
        s,
        v,
        question.space.controlled.as_slice(),
    )
}

/// Adds that each signal takes one choice in a state, under each valuation.
#[tactic(auto, using(crate::proofs::Adding::adding))]
fn add_choices_in(
    alloc: Global,
    out: &mut Builder,
    question: &Question,
    s: u32,
) -> Result<(), EncodeError>
    requires asked { IsCounted question.now }
    requires state { s < question.now.states }
    ensures added { OnOk result (out.new ≡ with_clauses out.old (choices_in (tree_of question.now) s)) }
    ensures refused { Refuses result (with_clauses out.old (choices_in (tree_of question.now) s)) }
{
    for v in 0..question.valuations {
        add_choices_under(alloc, out, question, s, v)?;
    }
    Ok(())
}

/// Adds that each signal takes one choice, in each state and under each valuation.
#[tactic(auto, using(crate::proofs::Adding::adding))]
pub(crate) fn add_choices(
    alloc: Global,
    out: &mut Builder,
    question: &Question,
) -> Result<(), EncodeError>
    requires asked { IsCounted question.now }
    ensures added { OnOk result (out.new ≡ with_clauses out.old (choice_clauses (tree_of question.now))) }
    ensures refused { Refuses result (with_clauses out.old (choice_clauses (tree_of question.now))) }
{
    for s in 0..question.states {
        add_choices_in(alloc, out, question, s)?;
    }
    Ok(())
}
