//! The controller's side: its rows are valuations, and what it does is to take choices.

ghost use Rattle.std.specs.Prelude.{◌≡◌, ◌<◌, ◌+◌, ◌*◌, ◌^◌, ◌%◌, nat_le, filter, ℕ, IfOk, OnOk};
ghost use Rattle.ltl_formula.specs.Cubes.{cube_matches};
ghost use Rattle.cobuchi_automata.specs.Edges.{edge_tree};
ghost use Rattle.bounded_encoding.specs.ClauseLists.{below};
ghost use Rattle.bounded_encoding.specs.Encoding.{met_valuations, controller_frame, controller_side};
ghost use Rattle.bounded_encoding.specs.FrameView.{frame_tree};
ghost use Rattle.bounded_encoding.specs.Sides.{clauses_of_side};
ghost use Rattle.bounded_encoding.specs.Made.{with_clauses};
ghost use Rattle.bounded_encoding.specs.Refusing.{Refuses};
ghost use Rattle.bounded_encoding.specs.Variables.{valuations_of, choices_in_all, variable_count};
ghost use Rattle.bounded_encoding.specs.internal.Asking.{tree_of, IsCounted};
ghost use Rattle.bounded_encoding.specs.declared.asking.Question.{Question};

use crate::asking::{Question, choice_base};
use crate::builder::Builder;
use crate::edge_literals::push_number_if;
use crate::errors::EncodeError;
use crate::frame::{Frame, variables_in_all};
use crate::side::Side;
use crate::transition_clauses::add_side;
use base_library::NoMemory;
use cobuchi_automata::Edge;
use std::alloc::Global;

/// Whether a number has a bit from one on.
fn reaches(number: u64, bits: u32) -> bool
    ensures { result ≡ nat_le (2 ^ bits) number }
{
    bits < 64 && 1 << bits <= number
}

/// The low bits of a number.
fn low_bits(number: u64, bits: u32) -> u64
    requires { bits < 64 }
    ensures { result ≡ number % 2 ^ bits }
{
    number % (1 << bits)
}

/// The valuations below a number that meet a cube.
fn meeting_below(alloc: Global, valuations: u32, care: u64, want: u64) -> Result<Vec<u32>, NoMemory>
    ensures { IfOk result (λ met. met.items ≡ filter (cube_matches care want) (below valuations)) }
{
    let mut met = Vec::new(alloc);
    for v in 0..valuations {
        push_number_if(&mut met, v, u64::from(v) & care == want)?;
    }
    Ok(met)
}

/// The valuations that meet what an edge asks of predicate terms.
fn met_valuations(alloc: Global, question: &Question, edge: Edge) -> Result<Vec<u32>, NoMemory>
    requires asked { IsCounted question.now }
    ensures { IfOk result (λ met. met.items ≡ met_valuations (tree_of question.now) (edge_tree edge)) }
{
    if reaches(edge.cube.want, question.predicates + question.choices) {
        return Ok(Vec::new(alloc));
    }
    let care = low_bits(edge.cube.care, question.predicates);
    let want = low_bits(edge.cube.want, question.predicates);
    meeting_below(alloc, question.valuations, care, want)
}

/// The frame of a question.
pub(crate) fn frame_of<'a>(question: &Question<'a>) -> Frame<'a>
    requires asked { IsCounted question.now }
    ensures { frame_tree result ≡ controller_frame (tree_of question.now) }
{
    Frame {
        automaton: question.automaton,
        states: question.states,
        rows: question.valuations,
        bound: question.bound,
        own: question.states * question.valuations * question.choices,
        first_bit: question.predicates,
        bits: question.choices,
    }
}

/// How many variables there are.
pub(crate) fn variable_count(question: &Question) -> u32
    requires asked { IsCounted question.now }
    ensures { result ≡ variable_count (tree_of question.now) }
{
    variables_in_all(&frame_of(question))
}

/// Adds all clauses but those of choices.
pub(crate) fn add_controller_side(
    alloc: Global,
    out: &mut Builder,
    question: &Question,
) -> Result<(), EncodeError>
    requires asked { IsCounted question.now }
    ensures added { OnOk result (out.new ≡ with_clauses out.old (clauses_of_side (controller_side (tree_of question.now)))) }
    ensures refused { Refuses result (with_clauses out.old (clauses_of_side (controller_side (tree_of question.now)))) }
{
    add_side(alloc, out, &frame_of(question), question)
}

impl Side for Question<'_> {
    ghost asked = { IsCounted };

    ghost is_cell = { λ (q : Question) (s v : ℕ). (s < q.states) × (v < q.valuations) };

    ghost met = { λ (q : Question). met_valuations (tree_of q) };

    ghost base = { λ (q : Question) (s v : ℕ). (s * valuations_of (tree_of q) + v) * choices_in_all (tree_of q) };

    fn met_rows(&self, alloc: Global, edge: Edge) -> Result<Vec<u32>, NoMemory> {
        met_valuations(alloc, self, edge)
    }

    fn own_base(&self, state: u32, row: u32) -> u32 {
        choice_base(self, state, row)
    }
}
