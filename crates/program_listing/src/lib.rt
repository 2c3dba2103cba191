//! The lines of program texts.
//!
//! A program text is a list of lines, each of which declares a signal, lists a window, or gives a
//! node or a state. `specs/LineText.antt` says how each line is spelled and where its names stand,
//! `specs/Listing.antt` what the listing of a text is, and which line of a text is the first at
//! fault. `read_listing` gives the listing, or exactly that line. A name is a place in the text;
//! which symbol it stands for, and the rules of programs, are left to the crate `flow_program`.
//!
//! The law `one_listing` says that a text has at most one listing.
#![tactic(auto)]

mod line;
mod listing;
mod listing_laws;
mod listing_reader;
mod repeated;
mod rest;
mod surfaces;
mod words;

pub use listing::{
    ListingError, Name, ProgramSyntax, SpelledListed, SpelledNode, SpelledPlaced, SpelledUpdate,
    SpelledWindow, SurfaceTerm, SurfaceTermList,
};
pub use listing_laws::one_listing;
pub use listing_reader::read_listing;
