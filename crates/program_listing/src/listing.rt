//! A program text as it is spelled: names are places in the text, and nothing but the form is
//! asked.

ghost use Rattle.std.specs.Prelude.{◌≡◌, map, IfOk};
ghost use Rattle.program_listing.specs.ListingTree.{surface_tree, surface_trees, window_line, left_step, listing_tree, empty_listing};
ghost use Rattle.program_listing.specs.internal.LineReading.{surfaces_of};

use base_library::NoMemory;
use std::alloc::{AllocFailed, Global};

/// Where a name stands in a text.
#[derive(Clone, Copy, Debug, PartialEq, Eq)]
pub struct Name {
    /// The offset of its first byte.
    pub start: u32,
    /// The offset after its last byte.
    pub end: u32,
}

/// A term or a test: a name alone, or a name with its arguments, which may be none.
#[cycle(surfaces)]
#[derive(Drop)]
pub enum SurfaceTerm {
    /// A name alone.
    Bare(Name),
    /// A name and its arguments.
    Applied(Name, SurfaceTermList),
}

/// A list of surface terms, in order.
#[cycle(surfaces)]
pub enum SurfaceTermList {
    /// No surface term.
    Empty,
    /// A first surface term and those after it.
    More(Box<SurfaceTerm>, Box<SurfaceTermList>),
}

impl Drop for SurfaceTermList {
    #[cycle(surfaces)]
    fn drop(mut self) {
        loop {
            match self {
                SurfaceTermList::Empty => return,
                SurfaceTermList::More(_, rest) => self = Box::into_inner(rest),
            }
        }
    }
}

impl SurfaceTermList {
    /// The list of these surface terms, in their order.
    #[tactic(auto, using(crate::proofs::SurfaceTermLists::surfaces_in_front, crate::proofs::SurfaceTermLists::surface_pushed))]
    pub fn from_vec(
        alloc: Global,
        mut surfaces: Vec<SurfaceTerm>,
    ) -> Result<SurfaceTermList, NoMemory>
        ensures { IfOk result (λ list.
            surface_trees list ≡ surfaces_of (map surface_tree surfaces.items)) }
    {
        let mut list = SurfaceTermList::Empty;
        while let Some(surface) = surfaces.pop() {
            list = SurfaceTermList::More(Box::new(alloc, surface)?, Box::new(alloc, list)?);
        }
        Ok(list)
    }
}

/// An update of an assignment.
#[derive(Drop)]
pub struct SpelledUpdate {
    /// What is updated.
    pub signal: Name,
    /// The term that it takes.
    pub term: SurfaceTerm,
}

/// An update that a window lists.
#[derive(Drop)]
pub struct SpelledListed {
    /// What is updated.
    pub signal: Name,
    /// The term that it takes.
    pub term: SurfaceTerm,
    /// At which step.
    pub offset: u64,
}

/// A test at a step of a window.
#[derive(Drop)]
pub struct SpelledPlaced {
    /// The test.
    pub test: SurfaceTerm,
    /// At which step.
    pub step: u64,
}

/// The line of a window.
#[derive(Drop)]
pub struct SpelledWindow {
    /// The left test, or none where `true` stands in its place.
    pub left: Option<SpelledPlaced>,
    /// The right test, which stands at the last step.
    pub right: SpelledPlaced,
    /// The listed updates.
    pub updates: Vec<SpelledListed>,
    /// The listed equalities.
    pub equalities: Vec<SpelledPlaced>,
}

impl SpelledWindow {
    /// The step of the left test, 0 where there is none.
    pub fn left_step(&self) -> u64
        ensures { result ≡ left_step (window_line self.now).left }
    {
        match &self.left {
            Some(left) => left.step,
            None => 0,
        }
    }
}

/// The line of a node, without its number.
#[derive(Drop)]
pub enum SpelledNode {
    /// `if TEST then A else B`
    Branch {
        /// The test.
        test: SurfaceTerm,
        /// A.
        then_node: u64,
        /// B.
        else_node: u64,
    },
    /// `set`, updates, and `go S`
    Assignment {
        /// The updates.
        updates: Vec<SpelledUpdate>,
        /// S.
        go: u64,
    },
}

/// The lines of a program text, each kind in its order.
#[derive(Drop)]
pub struct ProgramSyntax {
    /// The names of the inputs.
    pub inputs: Vec<Name>,
    /// The names of the cells.
    pub cells: Vec<Name>,
    /// The names of the outputs.
    pub outputs: Vec<Name>,
    /// The lines of windows.
    pub windows: Vec<SpelledWindow>,
    /// The lines of nodes.
    pub nodes: Vec<SpelledNode>,
    /// The node of each state.
    pub states: Vec<u64>,
}

impl ProgramSyntax {
    /// The listing without lines.
    pub fn new(alloc: Global) -> ProgramSyntax
        ensures { listing_tree result ≡ empty_listing }
    {
        ProgramSyntax {
            inputs: Vec::new(alloc),
            cells: Vec::new(alloc),
            outputs: Vec::new(alloc),
            windows: Vec::new(alloc),
            nodes: Vec::new(alloc),
            states: Vec::new(alloc),
        }
    }
}

/// Why a text has no listing.
#[derive(Drop)]
pub enum ListingError {
    /// This line, counted from 1, is the first at fault.
    Form(u32),
    /// Memory ran out.
    NoMemory,
}

impl From<NoMemory> for ListingError {
    ghost use Rattle.std.specs.Prelude.{◌≡◌};
    ghost use Rattle.program_listing.specs.declared.listing.ListingError.TheVariants.{NoMemory as Exhausted};

    ghost from_gives = { λ _ e. e ≡ Exhausted };

    fn from(_error: NoMemory) -> ListingError {
        ListingError::NoMemory
    }
}

impl<T: Drop> From<AllocFailed<T>> for ListingError {
    ghost use Rattle.std.specs.Prelude.{◌≡◌};
    ghost use Rattle.program_listing.specs.declared.listing.ListingError.TheVariants.{NoMemory as Exhausted};

    ghost from_gives = { λ _ e. e ≡ Exhausted };

    fn from(_error: AllocFailed<T>) -> ListingError {
        ListingError::NoMemory
    }
}
