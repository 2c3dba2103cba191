//! Which names the entries of a text are for.
//!
//! Texts of tables and of words give something for each of the names that an interpretation is for: the
//! functions, the predicates other than equality, and some cells (`specs/Needed.antt`). What an entry gives
//! plays no part here: it is seen as a kind and a name (`specs/Entries.antt`). A text of inputs has a column
//! for each input, which is seen as an entry for a cell.
//!
//! - `needed` gives the names in the order in which they are looked at.
//! - `entry_places` answers `Ok` exactly where each needed name has one entry and each entry is for a needed
//!   name in its kind, and then with the place of each name's entry. An `Err` has the first cause in this
//!   order: an entry for no needed name, a second entry for a name, a needed name without an entry.
//! - `entry_for` gives the entry for a name by these places, and `place_of` the place.
#![tactic(auto)]

mod locating;
mod named;
mod needing;
mod numbering;

pub use locating::{EntryFault, entry_for, entry_places};
pub use named::Named;
pub use needing::{is_symbol_number, needed};
pub use numbering::place_of;
