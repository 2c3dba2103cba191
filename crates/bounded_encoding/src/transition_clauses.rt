//! The clauses of transitions, for a machine of either side.

ghost use Rattle.std.specs.Prelude.{◌≡◌, ◌<◌, ◌+◌, ◌↔◌, ◌∷◌, [], true, false, length, OnOk, All};
ghost use Rattle.std.specs.List.{flat_map};
ghost use Rattle.cobuchi_automata.specs.Edges.{edge_tree, IsBetween};
ghost use Rattle.bounded_encoding.specs.FrameView.{frame_tree, side_of, IsFramed, IsServed};
ghost use Rattle.clause_core.specs.Clauses.{in_order, has_pair};
ghost use Rattle.bounded_encoding.specs.Sides.{differing, clauses_under, clauses_along, clauses_in};
ghost use Rattle.bounded_encoding.specs.Sides.{clauses_of_edges, clauses_of_side};
ghost use Rattle.bounded_encoding.specs.Made.{with_clauses};
ghost use Rattle.bounded_encoding.specs.Refusing.{Refuses};
ghost use Rattle.bounded_encoding.specs.internal.Transitions.{IsWithin, ArePairs, IsAround, IsRoom, AreUnpaired};
ghost use Rattle.bounded_encoding.specs.internal.Transitions.{unless, shared, clause_for, clauses_for, clauses_of_transition};

use crate::builder::Builder;
use crate::edge_literals::{
    Pairs, Transition, after_edge, put_differing, put_moved, put_next, put_numbers, room_for,
};
use crate::errors::EncodeError;
use crate::frame::{Frame, add_nexts, add_numbers, add_start, next_base, number_base};
use crate::side::Side;
use clause_core::Literal;
use cobuchi_automata::Edge;
use std::alloc::Global;

/// Adds the clause of a transition to a state where its pair has at least a number. The list has the literals that do
/// not depend on the number, between two others.
fn add_transition(
    alloc: Global,
    out: &mut Builder,
    literals: &mut [Literal],
    frame: &Frame,
    transition: Transition,
    t: u32,
    pairs: Pairs,
    i: u32,
) -> Result<(), EncodeError>
    requires pairs { ArePairs (frame_tree frame.now) transition t pairs }
    requires number { i < frame.now.bound + 1 }
    requires unpaired { has_pair (in_order (clause_for (frame_tree frame.now) transition t i)) ≡ false }
    requires around { IsAround (shared (frame_tree frame.now) transition t) literals.old }
    ensures around { IsAround (shared (frame_tree frame.now) transition t) literals.new }
    ensures added { OnOk result (out.new ≡ with_clauses out.old (clause_for (frame_tree frame.now) transition t i ∷ [])) }
    ensures refused { Refuses result (with_clauses out.old (clause_for (frame_tree frame.now) transition t i ∷ [])) }
{
    let later = after_edge(i, transition.edge);
    let count = put_numbers(literals, pairs, i, later, frame.bound);
    out.add_without_pair(alloc, &literals[..count])
}

/// Adds the clauses of a transition to a state, one for each number.
#[tactic(auto, using(crate::proofs::Adding::adding))]
fn add_each_number(
    alloc: Global,
    out: &mut Builder,
    literals: &mut [Literal],
    frame: &Frame,
    transition: Transition,
    t: u32,
    pairs: Pairs,
) -> Result<(), EncodeError>
    requires pairs { ArePairs (frame_tree frame.now) transition t pairs }
    requires unpaired { AreUnpaired (frame_tree frame.now) transition t }
    requires around { IsAround (shared (frame_tree frame.now) transition t) literals.old }
    ensures around { OnOk result (IsAround (shared (frame_tree frame.now) transition t) literals.new) }
    ensures added { OnOk result (out.new ≡ with_clauses out.old (clauses_for (frame_tree frame.now) transition t)) }
    ensures refused { Refuses result (with_clauses out.old (clauses_for (frame_tree frame.now) transition t)) }
{
    for i in 0..frame.bound + 1 {
        add_transition(alloc, out, literals, frame, transition, t, pairs, i)?;
    }
    Ok(())
}

/// The pairs that a transition leaves and reaches.
fn pairs_of(frame: &Frame, transition: Transition, t: u32) -> Pairs
    requires framed { IsFramed (frame_tree frame.now) }
    requires within { IsWithin (frame_tree frame.now) transition }
    requires next { t < frame.now.states }
    ensures { ArePairs (frame_tree frame.now) transition t result }
{
    Pairs {
        left: number_base(frame, transition.state, transition.edge.from),
        reached: number_base(frame, t, transition.edge.to),
    }
}

/// Adds the clauses of a transition to a state, which has a clause for each number. The list is room for their
/// literals, and has those that do not depend on the state.
fn add_numbered(
    alloc: Global,
    out: &mut Builder,
    literals: &mut [Literal],
    frame: &Frame,
    transition: Transition,
    t: u32,
) -> Result<(), EncodeError>
    requires framed { IsFramed (frame_tree frame.now) }
    requires within { IsWithin (frame_tree frame.now) transition }
    requires next { t < frame.now.states }
    requires unpaired { AreUnpaired (frame_tree frame.now) transition t }
    requires room { IsRoom (unless (frame_tree frame.now) transition) literals.old }
    ensures room { OnOk result (IsRoom (unless (frame_tree frame.now) transition) literals.new) }
    ensures added { OnOk result (out.new ≡ with_clauses out.old (clauses_for (frame_tree frame.now) transition t)) }
    ensures refused { Refuses result (with_clauses out.old (clauses_for (frame_tree frame.now) transition t)) }
{
    put_next(
        literals,
        next_base(frame, transition.state, transition.row) + t,
    );
    let pairs = pairs_of(frame, transition, t);
    add_each_number(alloc, out, literals, frame, transition, t, pairs)
}

/// Whether a transition to a state leads from a pair to itself by an edge that is not rejecting. Its clauses have
/// literals with their negations.
pub(crate) fn leads_to_itself(state: u32, edge: Edge, t: u32) -> bool
    ensures { (result ≡ true) ↔ ((state ≡ t) × (edge.from ≡ edge.to) × (edge.rejecting ≡ false)) }
{
    state == t && edge.from == edge.to && !edge.rejecting
}

/// Adds the clauses of a transition to a state.
fn add_transitions_to(
    alloc: Global,
    out: &mut Builder,
    literals: &mut [Literal],
    frame: &Frame,
    transition: Transition,
    t: u32,
) -> Result<(), EncodeError>
    requires framed { IsFramed (frame_tree frame.now) }
    requires within { IsWithin (frame_tree frame.now) transition }
    requires next { t < frame.now.states }
    requires room { IsRoom (unless (frame_tree frame.now) transition) literals.old }
    ensures room { OnOk result (IsRoom (unless (frame_tree frame.now) transition) literals.new) }
    ensures added { OnOk result (out.new ≡ with_clauses out.old (clauses_for (frame_tree frame.now) transition t)) }
    ensures refused { Refuses result (with_clauses out.old (clauses_for (frame_tree frame.now) transition t)) }
{
    if leads_to_itself(transition.state, transition.edge, t) {
        return Ok(());
    }
    add_numbered(alloc, out, literals, frame, transition, t)
}

/// Adds the clauses of a transition to each state.
#[tactic(auto, using(crate::proofs::Adding::adding))]
fn add_each_next(
    alloc: Global,
    out: &mut Builder,
    literals: &mut [Literal],
    frame: &Frame,
    transition: Transition,
) -> Result<(), EncodeError>
    requires framed { IsFramed (frame_tree frame.now) }
    requires within { IsWithin (frame_tree frame.now) transition }
    requires room { IsRoom (unless (frame_tree frame.now) transition) literals.old }
    ensures room { OnOk result (IsRoom (unless (frame_tree frame.now) transition) literals.new) }
    ensures added { OnOk result (out.new ≡ with_clauses out.old (clauses_of_transition (frame_tree frame.now) transition)) }
    ensures refused { Refuses result (with_clauses out.old (clauses_of_transition (frame_tree frame.now) transition)) }
{
    for t in 0..frame.states {
        add_transitions_to(alloc, out, literals, frame, transition, t)?;
    }
    Ok(())
}

/// Adds the clauses of a transition to each state. Given are the literals that are true where the machine does not do as
/// the edge asks, as if its own variables were the first of all, and room for those of a clause.
fn add_moved(
    alloc: Global,
    out: &mut Builder,
    literals: &mut [Literal],
    asked: &[Literal],
    frame: &Frame,
    transition: Transition,
) -> Result<(), EncodeError>
    requires framed { IsFramed (frame_tree frame.now) }
    requires within { IsWithin (frame_tree frame.now) transition }
    requires asked { asked.now ≡ differing 0 frame.now.first_bit frame.now.bits (edge_tree transition.edge) }
    requires room { length literals.old ≡ length asked.now + 3 }
    ensures room { OnOk result (length literals.new ≡ length asked.now + 3) }
    ensures added { OnOk result (out.new ≡ with_clauses out.old (clauses_of_transition (frame_tree frame.now) transition)) }
    ensures refused { Refuses result (with_clauses out.old (clauses_of_transition (frame_tree frame.now) transition)) }
{
    put_moved(literals, transition.base, asked);
    add_each_next(alloc, out, literals, frame, transition)
}

/// Adds the clauses of a state, an edge and a row that meets it.
fn add_transitions_under<S: Side>(
    alloc: Global,
    out: &mut Builder,
    literals: &mut [Literal],
    asked: &[Literal],
    frame: &Frame,
    side: &S,
    s: u32,
    edge: Edge,
    row: u32,
) -> Result<(), EncodeError>
    requires served { IsServed frame.now (S.met side.now) (S.base side.now) (S.asked side.now) (S.is_cell side.now) }
    requires state { s < frame.now.states }
    requires between { IsBetween frame.now.automaton.now.states edge }
    requires row { row < frame.now.rows }
    requires asked { asked.now ≡ differing 0 frame.now.first_bit frame.now.bits (edge_tree edge) }
    requires room { length literals.old ≡ length asked.now + 3 }
    ensures room { OnOk result (length literals.new ≡ length asked.now + 3) }
    ensures added { OnOk result (out.new
        ≡ with_clauses out.old (clauses_under (side_of frame.now (S.met side.now) (S.base side.now)) s (edge_tree edge) row)) }
    ensures refused { Refuses result
        (with_clauses out.old (clauses_under (side_of frame.now (S.met side.now) (S.base side.now)) s (edge_tree edge) row)) }
{
    let base = side.own_base(s, row);
    let transition = Transition {
        state: s,
        edge,
        row,
        base,
    };
    add_moved(alloc, out, literals, asked, frame, transition)
}

/// Adds the clauses of a state and an edge, in each of some rows.
#[tactic(auto, using(crate::proofs::Adding::adding))]
fn add_each_row<S: Side>(
    alloc: Global,
    out: &mut Builder,
    literals: &mut [Literal],
    asked: &[Literal],
    frame: &Frame,
    side: &S,
    s: u32,
    edge: Edge,
    met: &[u32],
) -> Result<(), EncodeError>
    requires served { IsServed frame.now (S.met side.now) (S.base side.now) (S.asked side.now) (S.is_cell side.now) }
    requires state { s < frame.now.states }
    requires between { IsBetween frame.now.automaton.now.states edge }
    requires met { All (λ r. r < frame.now.rows) met.now }
    requires asked { asked.now ≡ differing 0 frame.now.first_bit frame.now.bits (edge_tree edge) }
    requires room { length literals.old ≡ length asked.now + 3 }
    ensures added { OnOk result (out.new ≡ with_clauses out.old
        (flat_map (clauses_under (side_of frame.now (S.met side.now) (S.base side.now)) s (edge_tree edge)) met.now)) }
    ensures refused { Refuses result (with_clauses out.old
        (flat_map (clauses_under (side_of frame.now (S.met side.now) (S.base side.now)) s (edge_tree edge)) met.now)) }
{
    for row in met {
        add_transitions_under(alloc, out, literals, asked, frame, side, s, edge, *row)?;
    }
    Ok(())
}

/// Adds the clauses of a state and an edge.
fn add_transitions_along<S: Side>(
    alloc: Global,
    out: &mut Builder,
    frame: &Frame,
    side: &S,
    s: u32,
    edge: Edge,
) -> Result<(), EncodeError>
    requires served { IsServed frame.now (S.met side.now) (S.base side.now) (S.asked side.now) (S.is_cell side.now) }
    requires state { s < frame.now.states }
    requires between { IsBetween frame.now.automaton.now.states edge }
    ensures added { OnOk result (out.new ≡ with_clauses out.old
        (clauses_along (side_of frame.now (S.met side.now) (S.base side.now)) s (edge_tree edge))) }
    ensures refused { Refuses result (with_clauses out.old (clauses_along (side_of frame.now (S.met side.now) (S.base side.now)) s (edge_tree edge))) }
{
    if frame.states == 1 && leads_to_itself(s, edge, 0) {
        return Ok(());
    }
    let met = side.met_rows(alloc, edge)?;
    let rows = met.as_slice();
    let mut asked = Vec::new(alloc);
    put_differing(&mut asked, 0, frame.first_bit, frame.bits, edge)?;
    let mut literals = room_for(alloc, asked.as_slice())?;
    add_each_row(
        alloc,
        out,
        literals.as_mut_slice(),
        asked.as_slice(),
        frame,
        side,
        s,
        edge,
        rows,
    )
}

/// Adds the clauses of a state and each of some edges.
#[tactic(auto, using(crate::proofs::Adding::adding))]
fn add_each_edge<S: Side>(
    alloc: Global,
    out: &mut Builder,
    frame: &Frame,
    side: &S,
    s: u32,
    edges: &[Edge],
) -> Result<(), EncodeError>
    requires served { IsServed frame.now (S.met side.now) (S.base side.now) (S.asked side.now) (S.is_cell side.now) }
    requires state { s < frame.now.states }
    requires between { All (IsBetween frame.now.automaton.now.states) edges.now }
    ensures added { OnOk result (out.new ≡ with_clauses out.old
        (flat_map (λ e. clauses_along (side_of frame.now (S.met side.now) (S.base side.now)) s (edge_tree e)) edges.now)) }
    ensures refused { Refuses result (with_clauses out.old
        (flat_map (λ e. clauses_along (side_of frame.now (S.met side.now) (S.base side.now)) s (edge_tree e)) edges.now)) }
{
    for edge in edges {
        add_transitions_along(alloc, out, frame, side, s, *edge)?;
    }
    Ok(())
}

/// Adds the clauses of a state's transitions.
fn add_transitions_in<S: Side>(
    alloc: Global,
    out: &mut Builder,
    frame: &Frame,
    side: &S,
    s: u32,
) -> Result<(), EncodeError>
    requires served { IsServed frame.now (S.met side.now) (S.base side.now) (S.asked side.now) (S.is_cell side.now) }
    requires state { s < frame.now.states }
    ensures added { OnOk result (out.new ≡ with_clauses out.old (clauses_in (side_of frame.now (S.met side.now) (S.base side.now)) s)) }
    ensures refused { Refuses result (with_clauses out.old (clauses_in (side_of frame.now (S.met side.now) (S.base side.now)) s)) }
{
    add_each_edge(alloc, out, frame, side, s, frame.automaton.edges.as_slice())
}

/// Adds the clauses of all transitions.
#[tactic(auto, using(crate::proofs::Adding::adding))]
fn add_transitions<S: Side>(
    alloc: Global,
    out: &mut Builder,
    frame: &Frame,
    side: &S,
) -> Result<(), EncodeError>
    requires served { IsServed frame.now (S.met side.now) (S.base side.now) (S.asked side.now) (S.is_cell side.now) }
    ensures added { OnOk result (out.new ≡ with_clauses out.old (clauses_of_edges (side_of frame.now (S.met side.now) (S.base side.now)))) }
    ensures refused { Refuses result (with_clauses out.old (clauses_of_edges (side_of frame.now (S.met side.now) (S.base side.now)))) }
{
    for s in 0..frame.states {
        add_transitions_in(alloc, out, frame, side, s)?;
    }
    Ok(())
}

/// Adds all clauses of a side: those of next states, of the start, of numbers and of transitions.
#[tactic(auto, using(crate::proofs::Adding::adding))]
pub fn add_side<S: Side>(
    alloc: Global,
    out: &mut Builder,
    frame: &Frame,
    side: &S,
) -> Result<(), EncodeError>
    requires served { IsServed frame.now (S.met side.now) (S.base side.now) (S.asked side.now) (S.is_cell side.now) }
    ensures added { OnOk result (out.new ≡ with_clauses out.old (clauses_of_side (side_of frame.now (S.met side.now) (S.base side.now)))) }
    ensures refused { Refuses result (with_clauses out.old (clauses_of_side (side_of frame.now (S.met side.now) (S.base side.now)))) }
{
    add_nexts(alloc, out, frame)?;
    add_start(alloc, out, frame)?;
    add_numbers(alloc, out, frame)?;
    add_transitions(alloc, out, frame, side)
}
