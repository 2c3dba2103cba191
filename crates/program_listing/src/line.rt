//! The lines of program texts, each by itself.

ghost use Rattle.std.specs.Prelude.{◌≡◌, option_map, Some, None, IfOk, IfErr};
ghost use Rattle.tsl_text.specs.Lines.{has_bytes};
ghost use Rattle.program_listing.specs.ListingTree.{surface_tree, update_line, listed_line, placed_line, window_line, node_line};
ghost use Rattle.program_listing.specs.internal.LineReading.{left_place, IsMisread, IsReadAs, IsUnread, past, prefixed, first_name};
ghost use Rattle.program_listing.specs.internal.LineReading.{first_number, surface, line_tree, line, update, update_follows, set_update};
ghost use Rattle.program_listing.specs.internal.LineReading.{listed, listed_follows, placed, equated, left_side, window_rest, branch_rest};
ghost use Rattle.program_listing.specs.internal.LineReading.{assignment_rest, node_rest, numbered_node, numbered_state, read_line};

use crate::listing::{
    Name, SpelledListed, SpelledNode, SpelledPlaced, SpelledUpdate, SpelledWindow, SurfaceTerm,
};
use crate::repeated::{Part, repeated};
use crate::rest::{LineError, Reading, Rest};
use crate::surfaces::surface;
use crate::words::{expect, first_name, first_number, past};
use std::alloc::Global;

/// A line of a program text.
#[derive(Drop)]
pub enum Line {
    /// `tslprogram 1`
    Head,
    /// `input NAME`
    Input(Name),
    /// `cell NAME`
    Cell(Name),
    /// `output NAME`
    Output(Name),
    /// `window ..`
    Window(SpelledWindow),
    /// `node NUMBER ..`
    Node(u64, SpelledNode),
    /// `state NUMBER at NODE`
    State(u64, u64),
    /// `end`
    End,
}

/// A number after these bytes.
fn number_after<'a>(left: Rest<'a>, word: &[u8]) -> Reading<'a, u64>
    ensures ok { IfOk result
        (IsReadAs (λ number. number) (prefixed word.now first_number) left.entry) }
    ensures wrong { IfErr result (IsUnread (prefixed word.now first_number) left.entry) }
{
    let rest = expect(left, word)?;
    first_number(rest)
}

/// A name after these bytes.
fn name_after<'a>(left: Rest<'a>, word: &[u8]) -> Reading<'a, Name>
    ensures ok { IfOk result (IsReadAs (λ name. name) (prefixed word.now first_name) left.entry) }
    ensures wrong { IfErr result (IsUnread (prefixed word.now first_name) left.entry) }
{
    let rest = expect(left, word)?;
    first_name(rest)
}

/// A term or a test after these bytes.
fn surface_after<'a>(alloc: Global, left: Rest<'a>, word: &[u8]) -> Reading<'a, SurfaceTerm>
    ensures ok { IfOk result (IsReadAs surface_tree (prefixed word.now surface) left.entry) }
    ensures wrong { IfErr result (IsUnread (prefixed word.now surface) left.entry) }
{
    let rest = expect(left, word)?;
    surface(alloc, rest)
}

/// `[NAME <- TERM]`, a name and a term.
fn update(alloc: Global, left: Rest<'_>) -> Reading<'_, (Name, SurfaceTerm)>
    ensures ok { IfOk result (IsReadAs (λ u. (u.0, surface_tree u.1)) update left.entry) }
    ensures wrong { IfErr result (IsUnread update left.entry) }
{
    let (signal, rest) = name_after(left, b"[")?;
    let (term, rest) = surface_after(alloc, rest, b" <- ")?;
    let rest = expect(rest, b"]")?;
    Ok(((signal, term), rest))
}

/// Whether the bytes begin with a space and an opening square bracket.
fn update_follows(bytes: &[u8]) -> bool
    ensures { result ≡ update_follows bytes.now }
{
    matches!(bytes, [b' ', b'[', ..])
}

/// An update of an assignment, a space before it.
fn set_update(alloc: Global, left: Rest<'_>) -> Reading<'_, SpelledUpdate>
    ensures ok { IfOk result (IsReadAs update_line set_update left.entry) }
    ensures wrong { IfErr result (IsUnread set_update left.entry) }
{
    let rest = expect(left, b" ")?;
    let ((signal, term), rest) = update(alloc, rest)?;
    Ok((SpelledUpdate { signal, term }, rest))
}

/// An update that a window lists.
fn listed(alloc: Global, left: Rest<'_>) -> Reading<'_, SpelledListed>
    ensures ok { IfOk result (IsReadAs listed_line listed left.entry) }
    ensures wrong { IfErr result (IsUnread listed left.entry) }
{
    let rest = expect(left, b" when ")?;
    let ((signal, term), rest) = update(alloc, rest)?;
    let (offset, rest) = number_after(rest, b" at ")?;
    Ok((
        SpelledListed {
            signal,
            term,
            offset,
        },
        rest,
    ))
}

/// Whether the bytes begin with an update that a window lists.
fn listed_follows(bytes: &[u8]) -> bool
    ensures { result ≡ listed_follows bytes.now }
{
    bytes.strip_prefix(b" when [").is_some()
}

/// Whether there is a byte.
fn has_bytes(bytes: &[u8]) -> bool
    ensures { result ≡ has_bytes bytes.now }
{
    !matches!(bytes, [])
}

/// A test and its step.
fn placed(alloc: Global, left: Rest<'_>) -> Reading<'_, SpelledPlaced>
    ensures ok { IfOk result (IsReadAs placed_line placed left.entry) }
    ensures wrong { IfErr result (IsUnread placed left.entry) }
{
    let (test, rest) = surface(alloc, left)?;
    let (step, rest) = number_after(rest, b" at ")?;
    Ok((SpelledPlaced { test, step }, rest))
}

/// An equality that a window lists.
fn equated(alloc: Global, left: Rest<'_>) -> Reading<'_, SpelledPlaced>
    ensures ok { IfOk result (IsReadAs placed_line equated left.entry) }
    ensures wrong { IfErr result (IsUnread equated left.entry) }
{
    let rest = expect(left, b" when ")?;
    placed(alloc, rest)
}

impl Part for SpelledUpdate {
    ghost use Rattle.program_listing.specs.ListingTree.{UpdateLine, update_line};
    ghost use Rattle.program_listing.specs.internal.LineReading.{update_follows, set_update};

    ghost Tree = { UpdateLine };

    ghost tree = { update_line };

    ghost stands = { update_follows };

    ghost reader = { set_update };

    fn stands(bytes: &[u8]) -> bool {
        update_follows(bytes)
    }

    fn read(alloc: Global, left: Rest<'_>) -> Reading<'_, SpelledUpdate> {
        set_update(alloc, left)
    }
}

impl Part for SpelledListed {
    ghost use Rattle.program_listing.specs.ListingTree.{ListedLine, listed_line};
    ghost use Rattle.program_listing.specs.internal.LineReading.{listed_follows, listed};

    ghost Tree = { ListedLine };

    ghost tree = { listed_line };

    ghost stands = { listed_follows };

    ghost reader = { listed };

    fn stands(bytes: &[u8]) -> bool {
        listed_follows(bytes)
    }

    fn read(alloc: Global, left: Rest<'_>) -> Reading<'_, SpelledListed> {
        listed(alloc, left)
    }
}

/// Equalities are listed to the end of a line.
impl Part for SpelledPlaced {
    ghost use Rattle.tsl_text.specs.Lines.{has_bytes};
    ghost use Rattle.program_listing.specs.ListingTree.{PlacedLine, placed_line};
    ghost use Rattle.program_listing.specs.internal.LineReading.{equated};

    ghost Tree = { PlacedLine };

    ghost tree = { placed_line };

    ghost stands = { has_bytes };

    ghost reader = { equated };

    fn stands(bytes: &[u8]) -> bool {
        has_bytes(bytes)
    }

    fn read(alloc: Global, left: Rest<'_>) -> Reading<'_, SpelledPlaced> {
        equated(alloc, left)
    }
}

/// What stands before a window's right test: `true`, or the left test and its step.
fn left_side(alloc: Global, left: Rest<'_>) -> Reading<'_, Option<SpelledPlaced>>
    ensures ok { IfOk result (IsReadAs (option_map placed_line) left_side left.entry) }
    ensures wrong { IfErr result (IsUnread left_side left.entry) }
{
    if let Some(rest) = past(left, b"true is ") {
        return Ok((None, rest));
    }
    let (test, rest) = placed(alloc, left)?;
    let rest = expect(rest, b" is ")?;
    Ok((Some(test), rest))
}

/// A window after its first word.
fn window(alloc: Global, left: Rest<'_>) -> Reading<'_, SpelledWindow>
    ensures ok { IfOk result (IsReadAs window_line window_rest left.entry) }
    ensures wrong { IfErr result (IsUnread window_rest left.entry) }
{
    let (left_test, rest) = left_side(alloc, left)?;
    let (right, rest) = placed(alloc, rest)?;
    let (updates, rest) = repeated::<SpelledListed>(alloc, rest)?;
    let (equalities, rest) = repeated::<SpelledPlaced>(alloc, rest)?;
    Ok((
        SpelledWindow {
            left: left_test,
            right,
            updates,
            equalities,
        },
        rest,
    ))
}

/// A node that tests, after its ` if `.
fn branch(alloc: Global, left: Rest<'_>) -> Reading<'_, SpelledNode>
    ensures ok { IfOk result (IsReadAs node_line branch_rest left.entry) }
    ensures wrong { IfErr result (IsUnread branch_rest left.entry) }
{
    let (test, rest) = surface(alloc, left)?;
    let (then_node, rest) = number_after(rest, b" then ")?;
    let (else_node, rest) = number_after(rest, b" else ")?;
    Ok((
        SpelledNode::Branch {
            test,
            then_node,
            else_node,
        },
        rest,
    ))
}

/// A node that assigns, after its ` set`.
fn assignment(alloc: Global, left: Rest<'_>) -> Reading<'_, SpelledNode>
    ensures ok { IfOk result (IsReadAs node_line assignment_rest left.entry) }
    ensures wrong { IfErr result (IsUnread assignment_rest left.entry) }
{
    let (updates, rest) = repeated::<SpelledUpdate>(alloc, left)?;
    let (go, rest) = number_after(rest, b" go ")?;
    Ok((SpelledNode::Assignment { updates, go }, rest))
}

/// A node after its number.
fn node(alloc: Global, left: Rest<'_>) -> Reading<'_, SpelledNode>
    ensures ok { IfOk result (IsReadAs node_line node_rest left.entry) }
    ensures wrong { IfErr result (IsUnread node_rest left.entry) }
{
    if let Some(rest) = past(left, b" if ") {
        return branch(alloc, rest);
    }
    let rest = expect(left, b" set")?;
    assignment(alloc, rest)
}

/// A node with its number.
fn numbered_node(alloc: Global, left: Rest<'_>) -> Reading<'_, (u64, SpelledNode)>
    ensures ok { IfOk result (IsReadAs (λ n. (n.0, node_line n.1)) numbered_node left.entry) }
    ensures wrong { IfErr result (IsUnread numbered_node left.entry) }
{
    let (number, rest) = first_number(left)?;
    let (node, rest) = node(alloc, rest)?;
    Ok(((number, node), rest))
}

/// A state with its number.
fn numbered_state(left: Rest<'_>) -> Reading<'_, (u64, u64)>
    ensures ok { IfOk result (IsReadAs (λ n. (n.0, n.1)) numbered_state left.entry) }
    ensures wrong { IfErr result (IsUnread numbered_state left.entry) }
{
    let (number, rest) = first_number(left)?;
    let (node, rest) = number_after(rest, b" at ")?;
    Ok(((number, node), rest))
}

/// A line, without its line feed.
fn front_line(alloc: Global, left: Rest<'_>) -> Reading<'_, Line>
    ensures ok { IfOk result (IsReadAs line_tree line left.entry) }
    ensures wrong { IfErr result (IsUnread line left.entry) }
{
    if let Some(rest) = past(left, b"input ") {
        let (name, rest) = first_name(rest)?;
        return Ok((Line::Input(name), rest));
    }
    if let Some(rest) = past(left, b"cell ") {
        let (name, rest) = first_name(rest)?;
        return Ok((Line::Cell(name), rest));
    }
    if let Some(rest) = past(left, b"output ") {
        let (name, rest) = first_name(rest)?;
        return Ok((Line::Output(name), rest));
    }
    if let Some(rest) = past(left, b"window ") {
        let (window, rest) = window(alloc, rest)?;
        return Ok((Line::Window(window), rest));
    }
    if let Some(rest) = past(left, b"node ") {
        let ((number, node), rest) = numbered_node(alloc, rest)?;
        return Ok((Line::Node(number, node), rest));
    }
    if let Some(rest) = past(left, b"state ") {
        let ((number, node), rest) = numbered_state(rest)?;
        return Ok((Line::State(number, node), rest));
    }
    if let Some(rest) = past(left, b"tslprogram 1") {
        return Ok((Line::Head, rest));
    }
    let rest = expect(left, b"end")?;
    Ok((Line::End, rest))
}

/// The line that the bytes are, without their line feed.
pub fn read_line(alloc: Global, left: Rest<'_>) -> Result<Line, LineError>
    ensures ok { IfOk result (λ line. read_line (left_place left.entry) ≡ Some (line_tree line)) }
    ensures wrong { IfErr result (IsMisread (read_line (left_place left.entry))) }
{
    let (line, rest) = front_line(alloc, left)?;
    if has_bytes(rest.bytes) {
        return Err(LineError::Form);
    }
    Ok(line)
}
