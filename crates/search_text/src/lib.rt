//! The texts of a search that finds no controller, or whose budget is spent.
//!
//! `none_text` gives the text which says that no controller was found and why the search ended, and `spent_text` the
//! one which says that the budget of a search was spent, both with the rounds that were made: at Ok exactly the bytes
//! that the definitions of the same names give. The conditions are that the names hold each number of the terms, and
//! that environments fit the space.
#![tactic(auto)]

ghost use Rattle.std.specs.Prelude.{◌≡◌, ◌<◌, [], ◌∷◌, ◌++◌, map, flat_map, codes, IsTrue, IfOk, OnOk};
ghost use Rattle.tsl_text.specs.Written.{text_of_lines};
ghost use Rattle.ltl_formula.specs.Cubes.{has_bit};
ghost use Rattle.letter_space.specs.SpaceView.{space_tree};
ghost use Rattle.cobuchi_automata.specs.Edges.{edge_tree, edge_trees};
ghost use Rattle.machines.specs.MachineView.{environment_tree, round_tree};
ghost use Rattle.machines.specs.Moves.{EnvironmentFits};
ghost use Rattle.refutation_text.specs.Written.{literal_word, clause_line};
ghost use Rattle.environment_text.specs.EnvironmentText.{environment_text, space_is_held};
ghost use Rattle.environment_text.specs.RoundTexts.{RoundsAreHeld};
ghost use Rattle.search_text.specs.SearchTexts.{none_text, reason_text, reason_tree, asked_literals, cube_literals, edge_line};
ghost use Rattle.search_text.specs.SearchTexts.{learnt_line, sizes_line, side_text, spent_text, ReasonFits};

use base_library::NoMemory;
use clause_core::{Clause, Literal};
use cobuchi_automata::{Automaton, Edge};
use environment_text::{bit_text, put_count, put_environment, put_rounds};
use letter_space::Space;
use ltl_formula::Cube;
use machines::{Environment, Round, Side};
use refutation_text::{put_clause, put_literal};
use std::alloc::Global;
use tsl_terms::Names;
use tsl_text::{put_bytes, put_number};

/// Why a search ended without a controller.
#[derive(Clone, Copy)]
pub enum ReasonText<'a> {
    /// So many rounds were made, as many as were allowed.
    Rounds(u32),
    /// No environment with so many states has an annotation within the bound.
    NoCounter(u32, u32),
    /// No window rules out this environment.
    Genuine(&'a Environment),
}

/// The text which says that no controller with so many states has an annotation within the bound, with the rounds
/// that were made and why no more were.
///
/// The names hold each number of the space's terms and of the windows, and each environment fits
/// the space.
pub fn none_text(
    alloc: Global,
    names: &Names,
    space: &Space,
    states: u32,
    bound: u32,
    rounds: &[Round],
    reason: &ReasonText,
) -> Result<Vec<u8>, NoMemory>
    requires rounds { RoundsAreHeld names.now (space_tree space.now) (map round_tree rounds.now) }
    requires reason { ReasonFits (space_tree space.now) (reason_tree reason.now) }
    ensures { IfOk result (λ text. text.items ≡ none_text names.now (space_tree space.now) states bound
        (map round_tree rounds.now) (reason_tree reason.now)) }
{
    let mut out = Vec::new(alloc);
    put_bytes(&mut out, b"none\n")?;
    put_count(&mut out, b"states", u64::from(states))?;
    put_count(&mut out, b"bound", u64::from(bound))?;
    put_rounds(&mut out, names, space, rounds)?;
    put_reason(&mut out, names, space, reason)?;
    put_bytes(&mut out, b"end\n")?;
    Ok(out)
}

/// Appends why a search ended without a controller.
fn put_reason(
    out: &mut Vec<u8>,
    names: &Names,
    space: &Space,
    reason: &ReasonText,
) -> Result<(), NoMemory>
    requires held { IsTrue (space_is_held names.now (space_tree space.now)) }
    requires fits { ReasonFits (space_tree space.now) (reason_tree reason.now) }
    ensures { OnOk result (out.new.items ≡ out.old.items
        ++ reason_text names.now (space_tree space.now) (reason_tree reason.now)) }
{
    match reason {
        ReasonText::Rounds(count) => put_count(out, b"reason rounds", u64::from(*count)),
        ReasonText::NoCounter(states, bound) => {
            put_sizes(out, b"reason nocounter", *states, *bound)
        }
        ReasonText::Genuine(environment) => put_genuine(out, names, space, environment),
    }
}

/// Appends that no window rules out this environment.
fn put_genuine(
    out: &mut Vec<u8>,
    names: &Names,
    space: &Space,
    environment: &Environment,
) -> Result<(), NoMemory>
    requires held { IsTrue (space_is_held names.now (space_tree space.now)) }
    requires fits { EnvironmentFits (space_tree space.now) (environment_tree environment.now) }
    ensures { OnOk result (out.new.items ≡ out.old.items ++ (codes "reason genuine\n"
        ++ environment_text names.now (space_tree space.now) (environment_tree environment.now))) }
{
    put_bytes(out, b"reason genuine\n")?;
    put_environment(out, names, space, environment)
}

/// The text which says that the budget of a search was spent: whose machine was searched for, the states and the
/// bound that were asked for, the rounds that were made before, the automaton, and the clauses that were learnt.
///
/// The names hold each number of the space's terms and of the windows, and each environment fits
/// the space.
pub fn spent_text(
    alloc: Global,
    names: &Names,
    space: &Space,
    side: Side,
    sizes: (u32, u32),
    rounds: &[Round],
    automaton: &Automaton,
    clauses: &[Clause],
) -> Result<Vec<u8>, NoMemory>
    requires { RoundsAreHeld names.now (space_tree space.now) (map round_tree rounds.now) }
    ensures { IfOk result (λ text. text.items ≡ spent_text names.now (space_tree space.now) side sizes.0 sizes.1
        (map round_tree rounds.now) automaton.now.states (edge_trees automaton.now.edges) clauses.now) }
{
    let (states, bound) = sizes;
    let mut out = Vec::new(alloc);
    put_side(&mut out, side)?;
    put_sizes(&mut out, b"sizes", states, bound)?;
    put_rounds(&mut out, names, space, rounds)?;
    put_count(&mut out, b"automaton", u64::from(automaton.states))?;
    put_edges(&mut out, automaton.edges.as_slice())?;
    put_learnt(&mut out, clauses)?;
    put_bytes(&mut out, b"end\n")?;
    Ok(out)
}

/// Appends the line that says whose machine was searched for.
fn put_side(out: &mut Vec<u8>, side: Side) -> Result<(), NoMemory>
    ensures { OnOk result (out.new.items ≡ out.old.items ++ (codes "spent " ++ side_text side ++ codes "\n")) }
{
    put_bytes(out, b"spent ")?;
    put_bytes(out, side_text(side))?;
    put_bytes(out, b"\n")
}

/// The word for a side.
fn side_text(side: Side) -> &'static [u8]
    ensures { result.now ≡ side_text side }
{
    match side {
        Side::Controller => b"controller",
        Side::Environment => b"environment",
    }
}

/// Appends a line of a word and two numbers.
fn put_sizes(out: &mut Vec<u8>, word: &[u8], states: u32, bound: u32) -> Result<(), NoMemory>
    ensures { OnOk result (out.new.items ≡ out.old.items ++ sizes_line word.now states bound) }
{
    put_bytes(out, word)?;
    put_bytes(out, b" ")?;
    put_number(out, u64::from(states))?;
    put_bytes(out, b" ")?;
    put_number(out, u64::from(bound))?;
    put_bytes(out, b"\n")
}

/// Appends a line for each edge.
fn put_edges(out: &mut Vec<u8>, edges: &[Edge]) -> Result<(), NoMemory>
    ensures { OnOk result
        (out.new.items ≡ out.old.items ++ text_of_lines (map edge_line (edge_trees edges.now))) }
{
    for edge in edges {
        put_edge(out, edge)?;
        put_bytes(out, b"\n")?;
    }
    Ok(())
}

/// Appends the line of an edge.
fn put_edge(out: &mut Vec<u8>, edge: &Edge) -> Result<(), NoMemory>
    ensures { OnOk result (out.new.items ≡ out.old.items ++ edge_line (edge_tree edge.now)) }
{
    put_bytes(out, b"edge ")?;
    put_number(out, u64::from(edge.from))?;
    put_bytes(out, b" ")?;
    put_number(out, u64::from(edge.to))?;
    put_bytes(out, b" ")?;
    put_bytes(out, bit_text(edge.rejecting))?;
    put_bytes(out, b" ")?;
    put_cube(out, edge.cube)
}

/// Appends what a cube asks, by rising bit, and a 0.
#[tactic(auto, unfolding(crate::specs::SearchTexts::cube_literals))]
fn put_cube(out: &mut Vec<u8>, cube: Cube) -> Result<(), NoMemory>
    ensures { OnOk result
        (out.new.items ≡ out.old.items ++ clause_line (cube_literals cube.care cube.want)) }
{
    for bit in 0..64 {
        put_asked(out, cube, bit)?;
    }
    put_bytes(out, b"0")
}

/// Appends the literal of a bit and a space, where a cube asks for the bit.
fn put_asked(out: &mut Vec<u8>, cube: Cube, bit: u32) -> Result<(), NoMemory>
    requires { bit < 64 }
    ensures { OnOk result (out.new.items ≡ out.old.items
        ++ flat_map (λ l. literal_word l ++ codes " ") (asked_literals cube.care cube.want (bit ∷ []))) }
{
    if !has_bit(cube.care, bit) {
        return Ok(());
    }
    put_literal(out, Literal::of_variable(bit + 1, has_bit(cube.want, bit)))?;
    put_bytes(out, b" ")
}

/// Whether a word has a bit.
fn has_bit(word: u64, bit: u32) -> bool
    requires { bit < 64 }
    ensures { result ≡ has_bit bit word }
{
    word >> bit & 1 == 1
}

/// Appends a line for each clause that was learnt.
fn put_learnt(out: &mut Vec<u8>, clauses: &[Clause]) -> Result<(), NoMemory>
    ensures { OnOk result
        (out.new.items ≡ out.old.items ++ text_of_lines (map learnt_line clauses.now)) }
{
    for clause in clauses {
        put_bytes(out, b"clause ")?;
        put_clause(out, clause.literals())?;
        put_bytes(out, b"\n")?;
    }
    Ok(())
}
