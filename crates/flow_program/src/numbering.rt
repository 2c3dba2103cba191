//! The lines of a program text with numbers in the place of names.

ghost use Rattle.std.specs.Prelude.{◌≡◌, ℕ, Bool, List, Option, Some, map, option_map, IfOk, IsTrue};
ghost use Rattle.std.specs.List.{list_all};
ghost use Rattle.std.specs.Option.{is_some};
ghost use Rattle.base_library.specs.Options.{all_there};
ghost use Rattle.tsl_terms.specs.Name.{number_of, question, Name as NameEntry};
ghost use Rattle.tsl_terms.specs.TermTree.{TermTree, term_tree, term_trees, probe_tree};
ghost use Rattle.tsl_terms.specs.WindowTree.{ListedTree, EquatedTree, WindowTree, listed_tree, equated_tree, window_tree};
ghost use Rattle.program_tree.specs.NodeTree.{NodeTree, node_tree};
ghost use Rattle.program_listing.specs.ListingTree.{UpdateLine, ListedLine, PlacedLine, WindowLine, NodeLine};
ghost use Rattle.program_tree.specs.ProgramView.{program_tree};
ghost use Rattle.program_tree.specs.ProgramTree.{ProgramTree};
ghost use Rattle.flow_program.specs.ProgramText.{ProgramText};
ghost use Rattle.program_listing.specs.internal.NamesStand.{name_stands, surface_stands, surfaces_stand, update_line_stands, listed_line_stands};
ghost use Rattle.program_listing.specs.internal.NamesStand.{ListingStands};
ghost use Rattle.program_listing.specs.Listing.{surface_tree, surface_trees, update_line, listed_line, placed_line};
ghost use Rattle.program_listing.specs.internal.NamesStand.{placed_line_stands, left_line_stands, window_line_stands, node_line_stands};
ghost use Rattle.program_listing.specs.Listing.{window_line, node_line, listing_tree};
ghost use Rattle.flow_program.specs.internal.Numbering.{small, numbered, numbered_term, numbered_terms, numbered_test, numbered_listed};
ghost use Rattle.flow_program.specs.internal.Numbering.{numbered_equated, numbered_left, numbered_window, numbered_node, Numbered};

use crate::uses::name_bytes;
use base_library::{NoMemory, Sequence};
use program_listing::{
    Name, ProgramSyntax, SpelledListed, SpelledNode, SpelledPlaced, SpelledUpdate, SpelledWindow,
    SurfaceTerm, SurfaceTermList,
};
use program_tree::{Node, Program};
use std::alloc::Global;
use tsl_terms::{Equated, Listed, Names, Probe, Term, TermList, Window};

/// A number of 32 bits.
fn small(number: u64) -> u32
    requires { IsTrue (is_some (small number)) }
    ensures { small number ≡ Some result }
{
    number as u32
}

/// The number of `?`.
fn number_of_question(names: &Names) -> u32
    requires { IsTrue (is_some (number_of names.now question)) }
    ensures { number_of names.now question ≡ Some result }
{
    names.find(b"?").unwrap()
}

/// The number of a name.
fn numbered(names: &Names, text: &[u8], name: Name) -> u32
    requires stands { IsTrue (name_stands text.now name) }
    requires known { IsTrue (is_some (numbered names.now text.now name)) }
    ensures { numbered names.now text.now name ≡ Some result }
{
    names.find(name_bytes(text, name)).unwrap()
}

/// A term with numbers.
#[cycle(number_terms)]
fn numbered_term(
    alloc: Global,
    names: &Names,
    text: &[u8],
    term: &SurfaceTerm,
) -> Result<Term, NoMemory>
    requires stands { IsTrue (surface_stands text.now (surface_tree term.now)) }
    requires known { IsTrue (is_some (numbered_term names.now text.now (surface_tree term.now))) }
    ensures { IfOk result (λ tree.
        numbered_term names.now text.now (surface_tree term.now) ≡ Some (term_tree tree)) }
{
    match term {
        SurfaceTerm::Bare(name) => Ok(Term::Signal(numbered(names, text, *name))),
        SurfaceTerm::Applied(name, arguments) => {
            let number = numbered(names, text, *name);
            let arguments = numbered_terms(alloc, names, text, arguments)?;
            Ok(Term::Apply(number, arguments))
        }
    }
}

/// A list of terms with numbers.
#[cycle(number_terms)]
fn numbered_terms(
    alloc: Global,
    names: &Names,
    text: &[u8],
    terms: &SurfaceTermList,
) -> Result<TermList, NoMemory>
    requires stands { IsTrue (surfaces_stand text.now (surface_trees terms.now)) }
    requires known { IsTrue (is_some (numbered_terms names.now text.now (surface_trees terms.now))) }
    ensures { IfOk result (λ trees.
        numbered_terms names.now text.now (surface_trees terms.now) ≡ Some (term_trees trees)) }
{
    let mut trees = Vec::new(alloc);
    let mut rest = terms;
    while let SurfaceTermList::More(term, next) = rest {
        let tree = numbered_term(alloc, names, text, term)?;
        trees.push(tree)?;
        rest = next;
    }
    TermList::from_vec(alloc, trees)
}

/// A test with numbers.
fn numbered_test(
    alloc: Global,
    names: &Names,
    text: &[u8],
    test: &SurfaceTerm,
) -> Result<Probe, NoMemory>
    requires stands { IsTrue (surface_stands text.now (surface_tree test.now)) }
    requires known { IsTrue (is_some (numbered_test names.now text.now (surface_tree test.now))) }
    ensures { IfOk result (λ tree.
        numbered_test names.now text.now (surface_tree test.now) ≡ Some (probe_tree tree)) }
{
    match test {
        SurfaceTerm::Bare(name) => {
            let signal = Term::Signal(numbered(names, text, *name));
            let none = Box::new(alloc, TermList::Empty)?;
            Ok(Probe {
                predicate: number_of_question(names),
                arguments: TermList::More(Box::new(alloc, signal)?, none),
            })
        }
        SurfaceTerm::Applied(name, arguments) => {
            let predicate = numbered(names, text, *name);
            let arguments = numbered_terms(alloc, names, text, arguments)?;
            Ok(Probe {
                predicate,
                arguments,
            })
        }
    }
}

/// The numbers of names.
fn numbers(
    alloc: Global,
    names: &Names,
    text: &[u8],
    places: &[Name],
) -> Result<Sequence<u32>, NoMemory>
    requires stand { IsTrue (list_all (name_stands text.now) places.now) }
    requires known { IsTrue (is_some (all_there (map (numbered names.now text.now) places.now))) }
    ensures { IfOk result (λ ids.
        all_there (map (numbered names.now text.now) places.now) ≡ Some ids) }
{
    let mut ids = Sequence::new(alloc);
    for place in places {
        ids.push(numbered(names, text, *place))?;
    }
    Ok(ids)
}

/// A part of a program text that gets numbers in the place of its names.
trait GetsNumbers {
    /// What it is with numbers.
    type Numbered: Drop;

    /// The part as it is spelled.
    ghost Tree: { Type 0 };

    ghost tree: { Self → Tree };

    /// What it is with numbers, as it is seen.
    ghost Made: { Type 0 };

    ghost made: { Self.Numbered → Made };

    /// Whether its names stand in a text.
    ghost stands: { List ℕ → Tree → Bool };

    /// It with the numbers of its names.
    ghost numbered: { List NameEntry → List ℕ → Tree → Option Made };

    /// The part with numbers.
    fn with_numbers(
        &self,
        alloc: Global,
        names: &Names,
        text: &[u8],
    ) -> Result<Self::Numbered, NoMemory>
        requires stands { IsTrue (stands text.now (tree self.now)) }
        requires known { IsTrue (is_some (numbered names.now text.now (tree self.now))) }
        ensures { IfOk result (λ part.
            numbered names.now text.now (tree self.now) ≡ Some (made part)) };
}

/// Parts with numbers.
fn numbered_all<P: GetsNumbers>(
    alloc: Global,
    names: &Names,
    text: &[u8],
    parts: &[P],
) -> Result<Sequence<P::Numbered>, NoMemory>
    requires stand { IsTrue (list_all (P.stands text.now) (map P.tree parts.now)) }
    requires known { IsTrue
        (is_some (all_there (map (P.numbered names.now text.now) (map P.tree parts.now)))) }
    ensures { IfOk result (λ all.
        all_there (map (P.numbered names.now text.now) (map P.tree parts.now))
        ≡ Some (map P.made all)) }
{
    let mut all = Sequence::new(alloc);
    for part in parts {
        all.push(part.with_numbers(alloc, names, text)?)?;
    }
    Ok(all)
}

/// The term that an assignment takes.
impl GetsNumbers for SpelledUpdate {
    type Numbered = Term;

    ghost Tree = { UpdateLine };

    ghost tree = { update_line };

    ghost Made = { TermTree };

    ghost made = { term_tree };

    ghost stands = { update_line_stands };

    ghost numbered = { λ names text u. numbered_term names text u.term };

    fn with_numbers(&self, alloc: Global, names: &Names, text: &[u8]) -> Result<Term, NoMemory> {
        numbered_term(alloc, names, text, &self.term)
    }
}

impl GetsNumbers for SpelledListed {
    type Numbered = Listed;

    ghost Tree = { ListedLine };

    ghost tree = { listed_line };

    ghost Made = { ListedTree };

    ghost made = { listed_tree };

    ghost stands = { listed_line_stands };

    ghost numbered = { numbered_listed };

    fn with_numbers(&self, alloc: Global, names: &Names, text: &[u8]) -> Result<Listed, NoMemory> {
        let signal = numbered(names, text, self.signal);
        let term = numbered_term(alloc, names, text, &self.term)?;
        let offset = small(self.offset);
        Ok(Listed {
            signal,
            term,
            offset,
        })
    }
}

impl GetsNumbers for SpelledPlaced {
    type Numbered = Equated;

    ghost Tree = { PlacedLine };

    ghost tree = { placed_line };

    ghost Made = { EquatedTree };

    ghost made = { equated_tree };

    ghost stands = { placed_line_stands };

    ghost numbered = { numbered_equated };

    fn with_numbers(&self, alloc: Global, names: &Names, text: &[u8]) -> Result<Equated, NoMemory> {
        let probe = numbered_test(alloc, names, text, &self.test)?;
        let offset = small(self.step);
        Ok(Equated { probe, offset })
    }
}

/// A left test with numbers, where there is one.
fn numbered_left(
    alloc: Global,
    names: &Names,
    text: &[u8],
    left: &Option<SpelledPlaced>,
) -> Result<Option<Probe>, NoMemory>
    requires stands { IsTrue (left_line_stands text.now (option_map placed_line left.now)) }
    requires known { IsTrue
        (is_some (numbered_left names.now text.now (option_map placed_line left.now))) }
    ensures { IfOk result (λ probe. numbered_left names.now text.now (option_map placed_line left.now)
        ≡ Some (option_map probe_tree probe)) }
{
    match left {
        Some(test) => Ok(Some(numbered_test(alloc, names, text, &test.test)?)),
        None => Ok(None),
    }
}

impl GetsNumbers for SpelledWindow {
    type Numbered = Window;

    ghost Tree = { WindowLine };

    ghost tree = { window_line };

    ghost Made = { WindowTree };

    ghost made = { window_tree };

    ghost stands = { window_line_stands };

    ghost numbered = { numbered_window };

    fn with_numbers(&self, alloc: Global, names: &Names, text: &[u8]) -> Result<Window, NoMemory> {
        let left = numbered_left(alloc, names, text, &self.left)?;
        let right = numbered_test(alloc, names, text, &self.right.test)?;
        let left_at = small(self.left_step());
        let length = small(self.right.step);
        let updates = numbered_all(alloc, names, text, &self.updates)?;
        let equalities = numbered_all(alloc, names, text, &self.equalities)?;
        Ok(Window {
            left,
            left_at,
            right,
            length,
            updates,
            equalities,
        })
    }
}

impl GetsNumbers for SpelledNode {
    type Numbered = Node;

    ghost Tree = { NodeLine };

    ghost tree = { node_line };

    ghost Made = { NodeTree };

    ghost made = { node_tree };

    ghost stands = { node_line_stands };

    ghost numbered = { numbered_node };

    fn with_numbers(&self, alloc: Global, names: &Names, text: &[u8]) -> Result<Node, NoMemory> {
        match self {
            SpelledNode::Branch {
                test,
                then_node,
                else_node,
            } => {
                let test = numbered_test(alloc, names, text, test)?;
                let then_node = small(*then_node);
                let else_node = small(*else_node);
                Ok(Node::If {
                    test,
                    then_node,
                    else_node,
                })
            }
            SpelledNode::Assignment { updates, go } => {
                let updates = numbered_all(alloc, names, text, updates)?;
                let go = small(*go);
                Ok(Node::Set { updates, go })
            }
        }
    }
}

/// The first nodes of states.
fn numbered_states(alloc: Global, states: &[u64]) -> Result<Sequence<u32>, NoMemory>
    requires { IsTrue (is_some (all_there (map small states.now))) }
    ensures { IfOk result (λ numbers. all_there (map small states.now) ≡ Some numbers) }
{
    let mut numbers = Sequence::new(alloc);
    for state in states {
        numbers.push(small(*state))?;
    }
    Ok(numbers)
}

/// The program of lines that keep the rules, with numbers.
pub(crate) fn numbered_program(
    alloc: Global,
    names: &Names,
    text: &[u8],
    listing: &ProgramSyntax,
) -> Result<Program, NoMemory>
    requires stands { ListingStands text.now (listing_tree listing.now) }
    requires program { (p : ProgramTree) × Numbered names.now text.now (listing_tree listing.now) p
        × ProgramText text.now names.now p }
    ensures { IfOk result (λ program. ProgramText text.now names.now (program_tree program)) }
{
    let inputs = numbers(alloc, names, text, &listing.inputs)?;
    let cells = numbers(alloc, names, text, &listing.cells)?;
    let outputs = numbers(alloc, names, text, &listing.outputs)?;
    let windows = numbered_all(alloc, names, text, &listing.windows)?;
    let nodes = numbered_all(alloc, names, text, &listing.nodes)?;
    let states = numbered_states(alloc, &listing.states)?;
    Ok(Program {
        inputs,
        cells,
        outputs,
        windows,
        nodes,
        states,
    })
}
