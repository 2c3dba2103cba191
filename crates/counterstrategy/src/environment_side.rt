//! The environment's side: its rows are vectors, and what it does is to make predicate terms true.

ghost use Rattle.std.specs.Prelude.{◌≡◌, ◌<◌, ◌*◌, ℕ, IfOk, OnOk};
ghost use Rattle.cobuchi_automata.specs.Edges.{edge_tree};
ghost use Rattle.bounded_encoding.specs.FrameView.{frame_tree};
ghost use Rattle.bounded_encoding.specs.Made.{with_clauses};
ghost use Rattle.bounded_encoding.specs.Refusing.{Refuses};
ghost use Rattle.counterstrategy.specs.DualVariables.{tests_in_all, dual_variable_count};
ghost use Rattle.counterstrategy.specs.DualEncoding.{choice_bits_of, meets_choices, met_vectors, environment_frame, dual_demands};
ghost use Rattle.counterstrategy.specs.internal.DualAsking.{dual_tree, vector_letter, IsDualCounted};
ghost use Rattle.counterstrategy.specs.declared.dual_asking.DualQuestion.{DualQuestion};

use crate::dual_asking::{DualQuestion, test_base};
use base_library::NoMemory;
use bounded_encoding::{
    Builder, EncodeError, Frame, Side, add_side, push_number_if, variables_in_all,
};
use cobuchi_automata::Edge;
use std::alloc::Global;

/// The letter of what a vector picks.
fn letter_at(question: &DualQuestion, u: u32) -> u64
    requires asked { IsDualCounted question.now }
    requires vector { u < question.now.vectors }
    ensures { result ≡ vector_letter (dual_tree question.now).space u }
{
    question.letters[u as usize]
}

/// The bits of a number behind those of predicate terms.
fn choice_bits_of(question: &DualQuestion, number: u64) -> u64
    requires asked { IsDualCounted question.now }
    ensures { result ≡ choice_bits_of (dual_tree question.now) number }
{
    number >> question.tests
}

/// Whether a vector meets what an edge asks of choices.
fn meets_choices(question: &DualQuestion, edge: Edge, u: u32) -> bool
    requires asked { IsDualCounted question.now }
    requires vector { u < question.now.vectors }
    ensures { result ≡ meets_choices (dual_tree question.now) (edge_tree edge) u }
{
    let picked = choice_bits_of(question, letter_at(question, u));
    let care = choice_bits_of(question, edge.cube.care);
    picked & care == choice_bits_of(question, edge.cube.want)
}

/// The vectors that meet what an edge asks of choices.
fn met_vectors(alloc: Global, question: &DualQuestion, edge: Edge) -> Result<Vec<u32>, NoMemory>
    requires asked { IsDualCounted question.now }
    ensures { IfOk result (λ met. met.items ≡ met_vectors (dual_tree question.now) (edge_tree edge)) }
{
    let mut met = Vec::new(alloc);
    for u in 0..question.vectors {
        push_number_if(&mut met, u, meets_choices(question, edge, u))?;
    }
    Ok(met)
}

/// The frame of a question.
fn frame_of<'a>(question: &DualQuestion<'a>) -> Frame<'a>
    requires asked { IsDualCounted question.now }
    ensures { frame_tree result ≡ environment_frame (dual_tree question.now) }
{
    Frame {
        automaton: question.automaton,
        states: question.states,
        rows: question.vectors,
        bound: question.bound,
        own: question.states * question.tests,
        first_bit: 0,
        bits: question.tests,
    }
}

/// How many variables there are.
pub(crate) fn dual_variable_count(question: &DualQuestion) -> u32
    requires asked { IsDualCounted question.now }
    ensures { result ≡ dual_variable_count (dual_tree question.now) }
{
    variables_in_all(&frame_of(question))
}

/// Adds all clauses of a question.
pub(crate) fn add_dual_demands(
    alloc: Global,
    out: &mut Builder,
    question: &DualQuestion,
) -> Result<(), EncodeError>
    requires asked { IsDualCounted question.now }
    ensures added { OnOk result (out.new ≡ with_clauses out.old (dual_demands (dual_tree question.now))) }
    ensures refused { Refuses result (with_clauses out.old (dual_demands (dual_tree question.now))) }
{
    add_side(alloc, out, &frame_of(question), question)
}

impl Side for DualQuestion<'_> {
    ghost asked = { IsDualCounted };

    ghost is_cell = { λ (q : DualQuestion) (s u : ℕ). (s < q.states) × (u < q.vectors) };

    ghost met = { λ (q : DualQuestion). met_vectors (dual_tree q) };

    ghost base = { λ (q : DualQuestion) (s u : ℕ). s * tests_in_all (dual_tree q) };

    fn met_rows(&self, alloc: Global, edge: Edge) -> Result<Vec<u32>, NoMemory> {
        met_vectors(alloc, self, edge)
    }

    fn own_base(&self, state: u32, _row: u32) -> u32 {
        test_base(self, state)
    }
}
