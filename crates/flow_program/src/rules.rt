//! The rules of program texts, each as the first line that breaks it.

ghost use Rattle.std.specs.Prelude.{◌≡◌, ℕ, ◌+◌, ◌<◌, ◌^◌, ◌++◌, ◌&&◌, length, map, find, option_map, drop, IfOk, IsTrue};
ghost use Rattle.std.specs.List.{list_all};
ghost use Rattle.tsl_terms.specs.Name.{texts, AreDistinct};
ghost use Rattle.tsl_terms.specs.Clashes.{alike_in};
ghost use Rattle.program_listing.specs.internal.NamesStand.{ListingStands};
ghost use Rattle.program_listing.specs.Listing.{name_bytes};
ghost use Rattle.program_listing.specs.internal.NamesStand.{name_stands, update_line_stands, listed_line_stands, window_line_stands};
ghost use Rattle.program_listing.specs.Listing.{update_line, listed_line, window_line, node_line, listing_tree};
ghost use Rattle.program_listing.specs.internal.NamesStand.{node_line_stands};
ghost use Rattle.program_listing.specs.Listing.{declared_entry};
ghost use Rattle.flow_program.specs.Uses.{first_window, first_node, first_state};
ghost use Rattle.flow_program.specs.Rules.{first_line, breaks_order, goes_nowhere, is_nowhere, are_texts, breaks_updates, places_rise};
ghost use Rattle.flow_program.specs.Rules.{place_of_cell, stands_before, listed_rise, is_cell_within, breaks_window, is_unknown};
ghost use Rattle.flow_program.specs.Rules.{is_unlike, line_fault, use_fault, limit_fault, cell_texts, controlled_of};
ghost use Rattle.flow_program.specs.internal.UseView.{use_view};

use crate::equalities::{are_equalities, right_fits};
use crate::reading::ProgramError;
use crate::uses::{SpelledUse, name_bytes};
use base_library::NoMemory;
use program_listing::{
    Name, ProgramSyntax, SpelledListed, SpelledNode, SpelledUpdate, SpelledWindow,
};
use program_tree::{LONGEST_WINDOW, MOST_NODES, MOST_STATES, MOST_WINDOWS};
use std::alloc::Global;
use tsl_terms::{NameKind, Names, Quality, same_kind};

/// The number of the first line of a node.
pub(crate) fn first_node(listing: &ProgramSyntax) -> u32
    requires { first_state (listing_tree listing.now) + length listing.now.states.items < 2 ^ 32 }
    ensures { result ≡ first_node (listing_tree listing.now) }
{
    first_window(listing) + listing.windows.len() as u32
}

/// The number of the first line of a window: the head is line 1.
pub(crate) fn first_window(listing: &ProgramSyntax) -> u32
    requires { first_state (listing_tree listing.now) + length listing.now.states.items < 2 ^ 32 }
    ensures { result ≡ first_window (listing_tree listing.now) }
{
    let declared = listing.inputs.len() + listing.cells.len() + listing.outputs.len();
    2 + declared as u32
}

/// The names that lines declare, which are distinct.
pub(crate) fn declared_names(
    alloc: Global,
    text: &[u8],
    declared: &[Name],
) -> Result<Names, NoMemory>
    requires stand { IsTrue (list_all (name_stands text.now) declared.now) }
    requires once { AreDistinct (map (declared_entry text.now) declared.now) }
    requires few { length declared.now < 2 ^ 32 }
    ensures { IfOk result (λ names. names ≡ map (declared_entry text.now) declared.now) }
{
    let mut names = Names::new(alloc);
    for name in declared {
        names.add(name_bytes(text, *name), NameKind::Signal, 0)?;
    }
    Ok(names)
}

/// Whether a node is a test that leads to a node without a smaller number.
fn breaks_order(number: usize, node: &SpelledNode) -> bool
    ensures { result ≡ breaks_order number (node_line node.now) }
{
    match node {
        SpelledNode::Branch {
            then_node,
            else_node,
            ..
        } => !(*then_node < number as u64 && *else_node < number as u64),
        SpelledNode::Assignment { .. } => false,
    }
}

/// The first line of a test that leads to a node without a smaller number.
fn order_line(line: u32, nodes: &[SpelledNode]) -> Option<u32>
    requires { line + length nodes.now < 2 ^ 32 }
    ensures { result ≡ first_line breaks_order line (map node_line nodes.now) }
{
    for (number, node) in nodes.iter().enumerate() {
        if breaks_order(number, node) {
            return Some(line + number as u32);
        }
    }
    None
}

/// Whether a node is an assignment that goes to none of so many states. Its own number is not asked.
fn goes_nowhere(states: usize, node: &SpelledNode) -> bool
    ensures { result ≡ goes_nowhere states 0 (node_line node.now) }
{
    match node {
        SpelledNode::Branch { .. } => false,
        SpelledNode::Assignment { go, .. } => !(*go < states as u64),
    }
}

/// The first line of an assignment that goes to none of so many states.
fn go_line(states: usize, line: u32, nodes: &[SpelledNode]) -> Option<u32>
    requires { line + length nodes.now < 2 ^ 32 }
    ensures { result ≡ first_line (goes_nowhere states) line (map node_line nodes.now) }
{
    for (number, node) in nodes.iter().enumerate() {
        if goes_nowhere(states, node) {
            return Some(line + number as u32);
        }
    }
    None
}

/// The first line of a state that begins at none of so many nodes.
fn start_line(nodes: usize, line: u32, states: &[u64]) -> Option<u32>
    requires { line + length states.now < 2 ^ 32 }
    ensures { result ≡ first_line (is_nowhere nodes) line states.now }
{
    for (number, node) in states.iter().enumerate() {
        if !(*node < nodes as u64) {
            return Some(line + number as u32);
        }
    }
    None
}

/// Whether updates are of these names, in their order.
fn are_updates_of(text: &[u8], updates: &[SpelledUpdate], controlled: &[Name]) -> bool
    requires updates { IsTrue
        (list_all (update_line_stands text.now) (map update_line updates.now)) }
    requires controlled { IsTrue (list_all (name_stands text.now) controlled.now) }
    ensures { result ≡ are_texts (map (λ u. name_bytes text.now u.signal)
        (map update_line updates.now)) (map (name_bytes text.now) controlled.now) }
{
    if updates.len() != controlled.len() {
        return false;
    }
    for (place, update) in updates.iter().enumerate() {
        if name_bytes(text, update.signal) != name_bytes(text, controlled[place]) {
            return false;
        }
    }
    true
}

/// Whether a node is an assignment that does not update these names in their order. Its own number
/// is not asked.
fn breaks_updates(text: &[u8], controlled: &[Name], node: &SpelledNode) -> bool
    requires node { IsTrue (node_line_stands text.now (node_line node.now)) }
    requires controlled { IsTrue (list_all (name_stands text.now) controlled.now) }
    ensures { result ≡ breaks_updates text.now
        (map (name_bytes text.now) controlled.now) 0 (node_line node.now) }
{
    match node {
        SpelledNode::Branch { .. } => false,
        SpelledNode::Assignment { updates, .. } => !are_updates_of(text, updates, controlled),
    }
}

/// The first line of an assignment that does not update these names in their order.
fn updates_line(text: &[u8], controlled: &[Name], line: u32, nodes: &[SpelledNode]) -> Option<u32>
    requires few { line + length nodes.now < 2 ^ 32 }
    requires nodes { IsTrue (list_all (node_line_stands text.now) (map node_line nodes.now)) }
    requires controlled { IsTrue (list_all (name_stands text.now) controlled.now) }
    ensures { result ≡ first_line (breaks_updates text.now
        (map (name_bytes text.now) controlled.now)) line (map node_line nodes.now) }
{
    for (number, node) in nodes.iter().enumerate() {
        if breaks_updates(text, controlled, node) {
            return Some(line + number as u32);
        }
    }
    None
}

/// The place among the cells of what an update is of.
fn place_of_cell(text: &[u8], cells: &Names, update: &SpelledListed) -> Option<u32>
    requires { IsTrue (listed_line_stands text.now (listed_line update.now)) }
    ensures { result ≡ place_of_cell text.now (texts cells.now) (listed_line update.now) }
{
    cells.find(name_bytes(text, update.signal))
}

/// Whether the first of two places is there and smaller than the second.
fn places_rise(left: Option<u32>, right: Option<u32>) -> bool
    ensures { result ≡ places_rise left right }
{
    match (left, right) {
        (Some(left), Some(right)) => left < right,
        _ => false,
    }
}

/// Whether an update stands before another: by its offset, and then by the place of its cell.
fn stands_before(text: &[u8], cells: &Names, update: &SpelledListed, next: &SpelledListed) -> bool
    requires update { IsTrue (listed_line_stands text.now (listed_line update.now)) }
    requires next { IsTrue (listed_line_stands text.now (listed_line next.now)) }
    ensures { result
        ≡ stands_before text.now (texts cells.now) (listed_line update.now) (listed_line next.now) }
{
    if update.offset != next.offset {
        return update.offset < next.offset;
    }
    places_rise(
        place_of_cell(text, cells, update),
        place_of_cell(text, cells, next),
    )
}

/// Whether the update at a place stands before the one after it, if there is one.
fn stands_before_next(text: &[u8], cells: &Names, updates: &[SpelledListed], place: usize) -> bool
    requires updates { IsTrue
        (list_all (listed_line_stands text.now) (map listed_line updates.now)) }
    requires place { place < length updates.now }
    ensures { listed_rise text.now (texts cells.now) (map listed_line (drop place updates.now))
        ≡ (result && listed_rise text.now
        (texts cells.now) (map listed_line (drop (place + 1) updates.now))) }
{
    if place + 1 == updates.len() {
        return true;
    }
    stands_before(text, cells, &updates[place], &updates[place + 1])
}

/// Whether an update is of a cell, at an offset below the length.
fn is_cell_within(text: &[u8], cells: &Names, length: u64, update: &SpelledListed) -> bool
    requires { IsTrue (listed_line_stands text.now (listed_line update.now)) }
    ensures { result ≡ is_cell_within text.now (texts cells.now) length (listed_line update.now) }
{
    update.offset < length && place_of_cell(text, cells, update).is_some()
}

/// Whether updates are of cells, at offsets below the length, in rising order.
fn are_listed(text: &[u8], cells: &Names, length: u64, updates: &[SpelledListed]) -> bool
    requires { IsTrue (list_all (listed_line_stands text.now) (map listed_line updates.now)) }
    ensures { result
        ≡ (list_all (is_cell_within text.now (texts cells.now) length) (map listed_line updates.now)
        && listed_rise text.now (texts cells.now) (map listed_line updates.now)) }
{
    for (place, update) in updates.iter().enumerate() {
        if !is_cell_within(text, cells, length, update) {
            return false;
        }
        if !stands_before_next(text, cells, updates, place) {
            return false;
        }
    }
    true
}

/// Whether a window is too long, or its parts stand outside it or are not in order, or what has to be an equality is
/// none.
fn breaks_window(
    alloc: Global,
    text: &[u8],
    cells: &Names,
    window: &SpelledWindow,
) -> Result<bool, NoMemory>
    requires { IsTrue (window_line_stands text.now (window_line window.now)) }
    ensures { IfOk result
        (λ breaks. breaks ≡ breaks_window text.now (texts cells.now) 0 (window_line window.now)) }
{
    let length = window.right.step;
    let is_short = length <= u64::from(LONGEST_WINDOW) && window.left_step() <= length;
    let is_rising = is_short && are_listed(text, cells, length, &window.updates);
    if !(is_rising && right_fits(text, window)) {
        return Ok(true);
    }
    Ok(!are_equalities(alloc, text, length, &window.equalities)?)
}

/// The first line of a window that is too long, or whose parts stand outside it or are not in order, or of which no
/// equality is what has to be one.
fn window_line(
    alloc: Global,
    text: &[u8],
    cells: &Names,
    line: u32,
    windows: &[SpelledWindow],
) -> Result<Option<u32>, NoMemory>
    requires few { line + length windows.now < 2 ^ 32 }
    requires windows { IsTrue
        (list_all (window_line_stands text.now) (map window_line windows.now)) }
    ensures { IfOk result (λ found. found
        ≡ first_line (breaks_window text.now (texts cells.now)) line (map window_line windows.now)) }
{
    for (number, window) in windows.iter().enumerate() {
        if breaks_window(alloc, text, cells, window)? {
            return Ok(Some(line + number as u32));
        }
    }
    Ok(None)
}

/// The fault of a line, if any.
pub(crate) fn line_fault(
    alloc: Global,
    text: &[u8],
    listing: &ProgramSyntax,
    cells: &Names,
    controlled: &[Name],
) -> Result<Option<ProgramError>, NoMemory>
    requires stands { ListingStands text.now (listing_tree listing.now) }
    requires lines { first_state (listing_tree listing.now)
        + length listing.now.states.items < 2 ^ 32 }
    requires cells { texts cells.now ≡ cell_texts text.now (listing_tree listing.now) }
    requires controlled { controlled.now ≡ listing.now.cells.items ++ listing.now.outputs.items }
    ensures { IfOk result (λ fault. fault ≡ line_fault text.now (listing_tree listing.now)) }
{
    let line = first_node(listing);
    let nodes = listing.nodes.as_slice();
    let states = listing.states.as_slice();
    if let Some(line) = order_line(line, nodes) {
        return Ok(Some(ProgramError::Order(line)));
    }
    if let Some(line) = go_line(states.len(), line, nodes) {
        return Ok(Some(ProgramError::Target(line)));
    }
    if let Some(line) = start_line(nodes.len(), line + nodes.len() as u32, states) {
        return Ok(Some(ProgramError::Target(line)));
    }
    if let Some(line) = updates_line(text, controlled, line, nodes) {
        return Ok(Some(ProgramError::Updates(line)));
    }
    if let Some(line) = window_line(alloc, text, cells, first_window(listing), &listing.windows)? {
        return Ok(Some(ProgramError::Window(line)));
    }
    Ok(None)
}

/// Whether a use reads a signal that is none of these.
fn is_unknown(readable: &Names, usage: &SpelledUse) -> bool
    ensures { result ≡ is_unknown (texts readable.now) (use_view usage.now) }
{
    usage.is_read && readable.find(usage.usage.text).is_none()
}

/// The first use that reads a signal that is none of these.
fn first_unknown<'a>(readable: &Names, uses: &[SpelledUse<'a>]) -> Option<SpelledUse<'a>>
    ensures { option_map use_view result
        ≡ find (is_unknown (texts readable.now)) (map use_view uses.now) }
{
    for usage in uses {
        if is_unknown(readable, usage) {
            return Some(*usage);
        }
    }
    None
}

/// Whether the names have the text of a use and are not like it.
fn is_unlike(names: &Names, usage: &SpelledUse, quality: Quality) -> bool
    ensures { result ≡ is_unlike (alike_in quality) names.now (use_view usage.now) }
{
    match names.find(usage.usage.text) {
        None => false,
        Some(number) => match quality {
            Quality::Kind => !same_kind(names.kind(number), usage.usage.kind),
            Quality::Arity => names.arity(number) != usage.usage.arity,
        },
    }
}

/// The first use that is not like the name of its text.
fn first_unlike<'a>(
    names: &Names,
    uses: &[SpelledUse<'a>],
    quality: Quality,
) -> Option<SpelledUse<'a>>
    ensures { option_map use_view result
        ≡ find (is_unlike (alike_in quality) names.now) (map use_view uses.now) }
{
    for usage in uses {
        if is_unlike(names, usage, quality) {
            return Some(*usage);
        }
    }
    None
}

/// The fault of a use of a name, if any.
pub(crate) fn use_fault(
    readable: &Names,
    names: &Names,
    uses: &[SpelledUse],
) -> Option<ProgramError>
    ensures { result ≡ use_fault (texts readable.now) names.now (map use_view uses.now) }
{
    if let Some(usage) = first_unknown(readable, uses) {
        return Some(ProgramError::Unknown(usage.line, usage.place));
    }
    if let Some(usage) = first_unlike(names, uses, Quality::Kind) {
        return Some(ProgramError::Kind(usage.line, usage.place));
    }
    if let Some(usage) = first_unlike(names, uses, Quality::Arity) {
        return Some(ProgramError::Arity(usage.line, usage.place));
    }
    None
}

/// The limit that the lines pass, if any.
pub(crate) fn limit_fault(listing: &ProgramSyntax) -> Option<ProgramError>
    ensures { result ≡ limit_fault (listing_tree listing.now) }
{
    if listing.windows.len() > MOST_WINDOWS {
        return Some(ProgramError::Windows);
    }
    if listing.nodes.len() > MOST_NODES {
        return Some(ProgramError::Nodes);
    }
    if listing.states.len() > MOST_STATES {
        return Some(ProgramError::States);
    }
    None
}
