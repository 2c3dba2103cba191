//! The uses of names in a program text, in its order.

ghost use Rattle.std.specs.Prelude.{◌≡◌, ℕ, ◌+◌, ◌<◌, ◌^◌, ◌++◌, List, Bool, length, map, flat_map, option_map, IfOk, OnOk, IsTrue};
ghost use Rattle.std.specs.List.{list_all};
ghost use Rattle.program_listing.specs.Listing.{name_bytes};
ghost use Rattle.program_listing.specs.internal.NamesStand.{name_stands, surface_stands, surfaces_stand, update_line_stands};
ghost use Rattle.program_listing.specs.Listing.{count_of_surfaces};
ghost use Rattle.program_listing.specs.internal.NamesStand.{listed_line_stands, placed_line_stands, left_line_stands, window_line_stands};
ghost use Rattle.program_listing.specs.internal.NamesStand.{node_line_stands};
ghost use Rattle.program_listing.specs.Listing.{surface_tree, surface_trees, update_line, listed_line, placed_line, window_line, node_line};
ghost use Rattle.program_listing.specs.Listing.{listing_tree, declared};
ghost use Rattle.program_listing.specs.internal.NamesStand.{ListingStands};
ghost use Rattle.program_listing.specs.ListingTree.{UpdateLine, ListedLine, PlacedLine, WindowLine, NodeLine};
ghost use Rattle.flow_program.specs.Uses.{ProgramUse, signal_use, read_use, tested_use, applied_use, term_uses, terms_uses, test_uses};
ghost use Rattle.flow_program.specs.Uses.{update_uses, listed_uses, placed_uses, left_uses, window_uses, node_uses, line_uses};
ghost use Rattle.flow_program.specs.Uses.{declared_uses, uses_of, first_state};
ghost use Rattle.flow_program.specs.internal.UseView.{use_view};

use crate::rules::{first_node, first_window};
use base_library::NoMemory;
use program_listing::{
    Name, ProgramSyntax, SpelledListed, SpelledNode, SpelledPlaced, SpelledUpdate, SpelledWindow,
    SurfaceTerm, SurfaceTermList,
};
use std::alloc::Global;
use tsl_terms::{NameKind, NameUse};

/// A use of a name.
#[derive(Clone, Copy)]
pub(crate) struct SpelledUse<'a> {
    /// The use, as the name that it would be.
    pub(crate) usage: NameUse<'a>,
    /// Where it stands.
    pub(crate) place: Name,
    /// The number of its line.
    pub(crate) line: u32,
    /// Whether it is a signal of a term or a test.
    pub(crate) is_read: bool,
    /// Whether it is a test alone, so that `?` tests it.
    pub(crate) is_tested: bool,
}

/// The bytes of a name.
pub(crate) fn name_bytes(text: &[u8], name: Name) -> &[u8]
    requires { IsTrue (name_stands text.now name) }
    ensures { result.now ≡ name_bytes text.now name }
{
    &text[name.start as usize..name.end as usize]
}

/// A name with so many arguments.
fn applied_use(text: &[u8], line: u32, kind: NameKind, place: Name, arity: u32) -> SpelledUse<'_>
    requires { IsTrue (name_stands text.now place) }
    ensures { use_view result ≡ applied_use text.now line kind place arity }
{
    let text = name_bytes(text, place);
    SpelledUse {
        usage: NameUse { text, kind, arity },
        place,
        line,
        is_read: false,
        is_tested: false,
    }
}

/// A signal that is declared or updated.
fn signal_use(text: &[u8], line: u32, place: Name) -> SpelledUse<'_>
    requires { IsTrue (name_stands text.now place) }
    ensures { use_view result ≡ signal_use text.now line place }
{
    applied_use(text, line, NameKind::Signal, place, 0)
}

/// A signal in a term.
fn read_use(text: &[u8], line: u32, place: Name) -> SpelledUse<'_>
    requires { IsTrue (name_stands text.now place) }
    ensures { use_view result ≡ read_use text.now line place }
{
    SpelledUse {
        is_read: true,
        ..signal_use(text, line, place)
    }
}

/// A signal that is a test.
fn tested_use(text: &[u8], line: u32, place: Name) -> SpelledUse<'_>
    requires { IsTrue (name_stands text.now place) }
    ensures { use_view result ≡ tested_use text.now line place }
{
    SpelledUse {
        is_tested: true,
        ..read_use(text, line, place)
    }
}

/// How many surface terms a list has.
fn count_of_surfaces(surfaces: &SurfaceTermList) -> u32
    requires { count_of_surfaces (surface_trees surfaces.now) < 2 ^ 32 }
    ensures { result ≡ count_of_surfaces (surface_trees surfaces.now) }
{
    let mut count = 0;
    let mut rest = surfaces;
    while let SurfaceTermList::More(_, next) = rest {
        count += 1;
        rest = next;
    }
    count
}

/// Adds the uses of a term.
#[tactic(auto, using(crate::proofs::UseLemmas::count_within, std::proofs::lemmas::Bool::and_parts))]
#[cycle(term_uses)]
fn add_term<'a>(
    list: &mut Vec<SpelledUse<'a>>,
    text: &'a [u8],
    line: u32,
    term: &SurfaceTerm,
) -> Result<(), NoMemory>
    requires stands { IsTrue (surface_stands text.now (surface_tree term.now)) }
    requires few { length (term_uses text.now line (surface_tree term.now)) < 2 ^ 32 }
    ensures { OnOk result (map use_view list.new.items
        ≡ map use_view list.old.items ++ term_uses text.now line (surface_tree term.now)) }
{
    match term {
        SurfaceTerm::Bare(name) => {
            list.push(read_use(text, line, *name))?;
            Ok(())
        }
        SurfaceTerm::Applied(name, arguments) => {
            let arity = count_of_surfaces(arguments);
            list.push(applied_use(text, line, NameKind::Function, *name, arity))?;
            add_terms(list, text, line, arguments)
        }
    }
}

/// Adds the uses of the terms of a list.
#[cycle(term_uses)]
fn add_terms<'a>(
    list: &mut Vec<SpelledUse<'a>>,
    text: &'a [u8],
    line: u32,
    terms: &SurfaceTermList,
) -> Result<(), NoMemory>
    requires stands { IsTrue (surfaces_stand text.now (surface_trees terms.now)) }
    requires few { length (terms_uses text.now line (surface_trees terms.now)) < 2 ^ 32 }
    ensures { OnOk result (map use_view list.new.items
        ≡ map use_view list.old.items ++ terms_uses text.now line (surface_trees terms.now)) }
{
    let mut rest = terms;
    while let SurfaceTermList::More(term, next) = rest {
        add_term(list, text, line, term)?;
        rest = next;
    }
    Ok(())
}

/// Adds the uses of a test.
#[tactic(auto, using(crate::proofs::UseLemmas::count_within, std::proofs::lemmas::Bool::and_parts))]
fn add_test<'a>(
    list: &mut Vec<SpelledUse<'a>>,
    text: &'a [u8],
    line: u32,
    test: &SurfaceTerm,
) -> Result<(), NoMemory>
    requires stands { IsTrue (surface_stands text.now (surface_tree test.now)) }
    requires few { length (test_uses text.now line (surface_tree test.now)) < 2 ^ 32 }
    ensures { OnOk result (map use_view list.new.items
        ≡ map use_view list.old.items ++ test_uses text.now line (surface_tree test.now)) }
{
    match test {
        SurfaceTerm::Bare(name) => {
            list.push(tested_use(text, line, *name))?;
            Ok(())
        }
        SurfaceTerm::Applied(name, arguments) => {
            let arity = count_of_surfaces(arguments);
            list.push(applied_use(text, line, NameKind::Predicate, *name, arity))?;
            add_terms(list, text, line, arguments)
        }
    }
}

/// A part of a program text that uses names.
trait UsesNames {
    /// The part as it is spelled.
    ghost Tree: { Type 0 };

    ghost tree: { Self → Tree };

    /// Whether its names stand in a text.
    ghost stands: { List ℕ → Tree → Bool };

    /// Its uses in a text, on this line.
    ghost uses: { List ℕ → ℕ → Tree → List ProgramUse };

    /// Adds its uses.
    fn add_uses<'a>(
        &self,
        list: &mut Vec<SpelledUse<'a>>,
        text: &'a [u8],
        line: u32,
    ) -> Result<(), NoMemory>
        requires stands { IsTrue (stands text.now (tree self.now)) }
        requires few { length (uses text.now line (tree self.now)) < 2 ^ 32 }
        ensures { OnOk result (map use_view list.new.items
            ≡ map use_view list.old.items ++ uses text.now line (tree self.now)) };
}

/// Adds the uses of parts of one line.
#[tactic(auto, using(base_library::proofs::Passes::map_passes_within, base_library::proofs::Lists::part_is_few))]
fn add_all<'a, U: UsesNames>(
    list: &mut Vec<SpelledUse<'a>>,
    text: &'a [u8],
    line: u32,
    parts: &[U],
) -> Result<(), NoMemory>
    requires stand { IsTrue (list_all (U.stands text.now) (map U.tree parts.now)) }
    requires few { length (flat_map (U.uses text.now line) (map U.tree parts.now)) < 2 ^ 32 }
    ensures { OnOk result (map use_view list.new.items
        ≡ map use_view list.old.items ++ flat_map (U.uses text.now line) (map U.tree parts.now)) }
{
    for part in parts {
        part.add_uses(list, text, line)?;
    }
    Ok(())
}

/// Adds the uses of parts that have a line each, the first of which has this number.
#[tactic(auto, using(base_library::proofs::Passes::map_passes_within, crate::proofs::UseLemmas::line_is_few, crate::proofs::UseLemmas::lines_left, base_library::proofs::Lists::written_step))]
fn add_lines<'a, U: UsesNames>(
    list: &mut Vec<SpelledUse<'a>>,
    text: &'a [u8],
    line: u32,
    parts: &[U],
) -> Result<(), NoMemory>
    requires stand { IsTrue (list_all (U.stands text.now) (map U.tree parts.now)) }
    requires lines { line + length parts.now < 2 ^ 32 }
    requires few { length (line_uses (U.uses text.now) line (map U.tree parts.now)) < 2 ^ 32 }
    ensures { OnOk result (map use_view list.new.items
        ≡ map use_view list.old.items ++ line_uses (U.uses text.now) line (map U.tree parts.now)) }
{
    for (index, part) in parts.iter().enumerate() {
        part.add_uses(list, text, line + index as u32)?;
    }
    Ok(())
}

impl UsesNames for SpelledUpdate {
    ghost Tree = { UpdateLine };

    ghost tree = { update_line };

    ghost stands = { update_line_stands };

    ghost uses = { update_uses };

    #[tactic(auto, using(std::proofs::lemmas::Bool::and_parts))]
    fn add_uses<'a>(
        &self,
        list: &mut Vec<SpelledUse<'a>>,
        text: &'a [u8],
        line: u32,
    ) -> Result<(), NoMemory> {
        list.push(signal_use(text, line, self.signal))?;
        add_term(list, text, line, &self.term)
    }
}

impl UsesNames for SpelledListed {
    ghost Tree = { ListedLine };

    ghost tree = { listed_line };

    ghost stands = { listed_line_stands };

    ghost uses = { listed_uses };

    #[tactic(auto, using(std::proofs::lemmas::Bool::and_parts))]
    fn add_uses<'a>(
        &self,
        list: &mut Vec<SpelledUse<'a>>,
        text: &'a [u8],
        line: u32,
    ) -> Result<(), NoMemory> {
        list.push(signal_use(text, line, self.signal))?;
        add_term(list, text, line, &self.term)
    }
}

impl UsesNames for SpelledPlaced {
    ghost Tree = { PlacedLine };

    ghost tree = { placed_line };

    ghost stands = { placed_line_stands };

    ghost uses = { placed_uses };

    fn add_uses<'a>(
        &self,
        list: &mut Vec<SpelledUse<'a>>,
        text: &'a [u8],
        line: u32,
    ) -> Result<(), NoMemory> {
        add_test(list, text, line, &self.test)
    }
}

/// Adds the uses of a left test, where there is one.
fn add_left<'a>(
    list: &mut Vec<SpelledUse<'a>>,
    text: &'a [u8],
    line: u32,
    left: &Option<SpelledPlaced>,
) -> Result<(), NoMemory>
    requires stands { IsTrue (left_line_stands text.now (option_map placed_line left.now)) }
    requires few { length (left_uses text.now line (option_map placed_line left.now)) < 2 ^ 32 }
    ensures { OnOk result (map use_view list.new.items
        ≡ map use_view list.old.items ++ left_uses text.now line (option_map placed_line left.now)) }
{
    match left {
        Some(test) => add_test(list, text, line, &test.test),
        None => Ok(()),
    }
}

impl UsesNames for SpelledWindow {
    ghost Tree = { WindowLine };

    ghost tree = { window_line };

    ghost stands = { window_line_stands };

    ghost uses = { window_uses };

    #[tactic(auto, using(std::proofs::lemmas::Bool::and_parts))]
    fn add_uses<'a>(
        &self,
        list: &mut Vec<SpelledUse<'a>>,
        text: &'a [u8],
        line: u32,
    ) -> Result<(), NoMemory> {
        add_left(list, text, line, &self.left)?;
        add_test(list, text, line, &self.right.test)?;
        add_all(list, text, line, &self.updates)?;
        add_all(list, text, line, &self.equalities)
    }
}

impl UsesNames for SpelledNode {
    ghost Tree = { NodeLine };

    ghost tree = { node_line };

    ghost stands = { node_line_stands };

    ghost uses = { node_uses };

    fn add_uses<'a>(
        &self,
        list: &mut Vec<SpelledUse<'a>>,
        text: &'a [u8],
        line: u32,
    ) -> Result<(), NoMemory> {
        match self {
            SpelledNode::Branch { test, .. } => add_test(list, text, line, test),
            SpelledNode::Assignment { updates, .. } => add_all(list, text, line, updates),
        }
    }
}

/// Adds the signals that lines declare, the first of which has this number.
#[tactic(auto, using(base_library::proofs::Passes::passes_within))]
fn add_declared<'a>(
    list: &mut Vec<SpelledUse<'a>>,
    text: &'a [u8],
    line: u32,
    names: &[Name],
) -> Result<(), NoMemory>
    requires stands { IsTrue (list_all (name_stands text.now) names.now) }
    requires few { line + length names.now < 2 ^ 32 }
    ensures { OnOk result (map use_view list.new.items
        ≡ map use_view list.old.items ++ declared_uses text.now line names.now) }
{
    for (index, name) in names.iter().enumerate() {
        list.push(signal_use(text, line + index as u32, *name))?;
    }
    Ok(())
}

/// Adds the signals that the lines of a text declare.
fn add_all_declared<'a>(
    list: &mut Vec<SpelledUse<'a>>,
    text: &'a [u8],
    listing: &ProgramSyntax,
) -> Result<(), NoMemory>
    requires stands { ListingStands text.now (listing_tree listing.now) }
    requires few { 2 + length (declared (listing_tree listing.now)) < 2 ^ 32 }
    ensures { OnOk result (map use_view list.new.items
        ≡ map use_view list.old.items ++ declared_uses text.now 2 (declared (listing_tree listing.now))) }
{
    let cells = 2 + listing.inputs.len() as u32;
    let outputs = cells + listing.cells.len() as u32;
    add_declared(list, text, 2, &listing.inputs)?;
    add_declared(list, text, cells, &listing.cells)?;
    add_declared(list, text, outputs, &listing.outputs)?;
    Ok(())
}

/// All uses of the lines of a text.
pub(crate) fn all_uses<'a>(
    alloc: Global,
    text: &'a [u8],
    listing: &ProgramSyntax,
) -> Result<Vec<SpelledUse<'a>>, NoMemory>
    requires stands { ListingStands text.now (listing_tree listing.now) }
    requires lines { first_state (listing_tree listing.now)
        + length listing.now.states.items < 2 ^ 32 }
    requires few { length (uses_of text.now (listing_tree listing.now)) < 2 ^ 32 }
    ensures { IfOk result (λ list.
        map use_view list.items ≡ uses_of text.now (listing_tree listing.now)) }
{
    let mut list = Vec::new(alloc);
    add_all_declared(&mut list, text, listing)?;
    add_lines(&mut list, text, first_window(listing), &listing.windows)?;
    add_lines(&mut list, text, first_node(listing), &listing.nodes)?;
    Ok(list)
}
