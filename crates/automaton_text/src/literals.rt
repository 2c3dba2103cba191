//! The literals of a label as they are read.

ghost use Rattle.std.specs.Prelude.{◌≡◌, ◌<◌, ◌∷◌, [], map, option_map, All, IfOk, IfSome, IfNone, Some, None};
ghost use Rattle.line_formats.specs.Format.{read, value_of_line};
ghost use Rattle.automaton_text.specs.HoaLines.{Numbers, number_leaves, Literals, literal_leaves, literal_line, next_literal, more_literals, further_literals, literals_in, rise, care_with, want_with, with_wanted};
ghost use Rattle.letter_space.specs.Letters.{with_bit};
ghost use Rattle.automaton_text.specs.HoaView.{literal_tree, literal_trees, literal_value};

use base_library::NoMemory;
use line_formats::{first_number, past};
use ltl_formula::Cube;
use std::alloc::Global;

/// A bit, and whether it is to be set.
#[derive(Clone, Copy)]
pub struct Literal {
    /// The number of the bit.
    pub bit: u64,
    /// Whether it is to be set.
    pub wanted: bool,
}

/// The literals of a label: `None` where it is none.
#[tactic(auto, using(crate::proofs::LiteralLines::no_literals, crate::proofs::LiteralLines::wrong_empty, crate::proofs::LiteralLines::some_literals, crate::proofs::LiteralLines::wrong_first))]
pub(crate) fn literals_in(alloc: Global, label: &[u8]) -> Result<Option<Vec<Literal>>, NoMemory>
    ensures { IfOk result (λ found. literals_in label.now ≡ option_map (λ ls. literal_trees ls.items) found) }
{
    if let Some(rest) = past(label, b"t") {
        if rest.is_empty() {
            return Ok(Some(Vec::new(alloc)));
        }
        return Ok(None);
    }
    let Some((first, rest)) = first_literal(label) else {
        return Ok(None);
    };
    literals_after(alloc, first, rest)
}

/// A literal and those that stand to the end of a label, each after `&`.
#[tactic(auto, using(crate::proofs::LiteralLines::one_more, crate::proofs::LiteralLines::none_more, crate::proofs::LiteralLines::all_read))]
fn literals_after(
    alloc: Global,
    first: Literal,
    bytes: &[u8],
) -> Result<Option<Vec<Literal>>, NoMemory>
    ensures { IfOk result (λ found. option_map (λ v. literal_tree first ∷ further_literals v)
        (value_of_line Literals literal_leaves more_literals bytes.now) ≡ option_map (λ ls. literal_trees ls.items) found) }
{
    let mut literals = Vec::new(alloc);
    literals.push(first)?;
    let mut rest = bytes;
    while !rest.is_empty() {
        let Some((literal, after)) = literal_after(rest) else {
            return Ok(None);
        };
        literals.push(literal)?;
        rest = after;
    }
    Ok(Some(literals))
}

/// The literal after `&`, and what is left after it.
fn literal_after(bytes: &[u8]) -> Option<(Literal, &[u8])>
    ensures some { IfSome result (λ found. read Literals literal_leaves next_literal bytes.now
        ≡ Some ((literal_value found.0, tt), found.1.now)) }
    ensures none { IfNone result (read Literals literal_leaves next_literal bytes.now ≡ None) }
{
    let rest = past(bytes, b"&")?;
    first_literal(rest)
}

/// The literal at the front, and what is left after it.
#[tactic(auto, using(crate::proofs::LiteralLines::negative_some, crate::proofs::LiteralLines::negative_none, crate::proofs::LiteralLines::positive_some, crate::proofs::LiteralLines::positive_none))]
fn first_literal(bytes: &[u8]) -> Option<(Literal, &[u8])>
    ensures some { IfSome result (λ found. read Numbers number_leaves literal_line bytes.now
        ≡ Some (literal_value found.0, found.1.now)) }
    ensures none { IfNone result (read Numbers number_leaves literal_line bytes.now ≡ None) }
{
    match past(bytes, b"!") {
        Some(rest) => {
            let (bit, rest) = first_number(rest)?;
            Some((Literal { bit, wanted: false }, rest))
        }
        None => {
            let (bit, rest) = first_number(bytes)?;
            Some((Literal { bit, wanted: true }, rest))
        }
    }
}

/// Whether the bits rise and are below a bound.
pub(crate) fn rise(bits: u64, literals: &[Literal]) -> bool
    ensures { result ≡ rise bits 0 (literal_trees literals.now) }
{
    let mut least = 0u64;
    for literal in literals {
        if literal.bit < least || literal.bit >= bits {
            return false;
        }
        least = literal.bit + 1;
    }
    true
}

/// The cube that asks for the bits of literals.
pub(crate) fn cube_of(literals: &[Literal]) -> Cube
    requires { All (λ l. l.bit < 64) literals.now }
    ensures care { result.care ≡ care_with 0 (literal_trees literals.now) }
    ensures want { result.want ≡ want_with 0 (literal_trees literals.now) }
{
    let mut care = 0;
    let mut want = 0;
    for literal in literals {
        care = with_asked(care, *literal);
        want = with_wanted(want, *literal);
    }
    Cube { care, want }
}

/// The bits that are asked for, with that of one literal more.
fn with_asked(care: u64, literal: Literal) -> u64
    requires { literal.bit < 64 }
    ensures { result ≡ with_bit care literal.bit }
{
    care | 1 << literal.bit
}

/// The bits that are wanted, with that of one literal more.
fn with_wanted(want: u64, literal: Literal) -> u64
    requires { literal.bit < 64 }
    ensures { result ≡ with_wanted want (literal_tree literal) }
{
    if literal.wanted {
        with_asked(want, literal)
    } else {
        want
    }
}
