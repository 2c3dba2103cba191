//! Formulas with names for formulas, and their expansion.
//!
//! - A definition names a formula; its parameters stand for signals. Its name is used as an atom: alone,
//!   or followed by bare names, which are passed for the parameters.
//! - The expansion of a text is a relation of three rules over its terminals
//!   (`specs/TextExpansion.antt`): each use is replaced by the body between brackets, with each parameter
//!   replaced by the name that is passed for it, until no use is left.
//! - The code works on trees (`specs/Expansion.antt`): `expansion` makes the tree in which each use is
//!   replaced, without its brackets. The names that a use passes are replaced before its body is entered,
//!   so that a parameter of one definition is never taken for a name of another.
//! - `heads` gives the names of definitions, by which each is found, where none is defined twice.
//! - `order` gives definitions in an order in which each uses only earlier ones, or the first that reaches
//!   itself (`specs/Uses.antt`); `sizes` and `expansion_size` tell the levels and the nodes of expansions, up
//!   to bounds (`specs/ExpansionSizes.antt`).
//! - Laws: a text expands to one text; where no definition reaches itself through uses, the tree is
//!   written as the text is expanded (`specs/WellUsed.antt`); numbers of an expansion, as its levels and
//!   its nodes, are told without making it (`specs/Folds.antt`, `specs/UseLevels.antt`); it uses no name
//!   in a new way (`specs/Occurrences.antt`); where each of some definitions uses one of them, one of them
//!   reaches itself (`specs/Reaching.antt`).
#![tactic(auto)]

mod definitions;
mod expanding;
mod laws;
mod ordering;
mod sizing;
mod uses;

pub use definitions::{ReadDefinition, heads};
pub use expanding::expansion;
pub use laws::{
    cycles_are_there, expansion_uses_no_name_in_a_new_way, levels_are_told_without_expansion,
    numbers_are_told_without_expansion, sections_expand_as_their_formulas, text_has_one_expansion,
    tree_is_written_as_the_expansion,
};
pub use ordering::{OrderFault, order};
pub use sizing::{LEVELS_STOP, NODES_STOP, Size, expansion_size, sizes};
