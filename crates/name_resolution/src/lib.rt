//! Which name of a text with definitions is what, and the first that is wrong where it stands.
//!
//! - `heads` gives the defined names of a text, each with the number of parameters of its first definition.
//! - `occurrences` gives each name that is no reserved word, in the order of the text, as what it occurs
//!   (`specs/Occurrences.antt`): what it is used as, with how many arguments, at which level, and its role.
//! - The first name that is wrong is told by one call for each rule (`specs/Faults.antt`): a name in a head
//!   that may not stand there, a name of a wrong kind, one with a wrong number of arguments or names, and a
//!   use that is too deep. Each answers a place among the occurrences.
//! - Laws (`specs/WellDeclared.antt`): the occurrences are the names of the text in order; where no name is
//!   wrong, the defined names are distinct, each stands in uses alone, with as many names as it has
//!   parameters, plain names are used as they occur, and what stands in the place of each use in a section
//!   is within the levels. Where besides no definition reaches itself, the text's expansion uses names as
//!   they occur in the text, and derives within the deepest level exactly where no use is too deep.
#![tactic(auto)]

mod defined;
mod faults;
mod laws;
mod occurrence;
mod parameters;
mod walk;

pub use defined::heads;
pub use faults::{
    first_arity_fault, first_deep_use, first_head_fault, first_kind_fault, head_place, plain_names,
};
pub use laws::{
    defined_names_are_distinct, definitions_have_places, expansions_are_within_levels,
    expansions_use_names_as_they_occur, names_and_levels_are_few, names_are_used_well,
    occurrences_stand_in_order, ordered_definitions_have_no_cycle, plain_names_are_alike,
    plain_names_are_used_as_they_occur, uses_are_within_levels,
};
pub use occurrence::{ReadOccurrence, Role};
pub use walk::occurrences;
