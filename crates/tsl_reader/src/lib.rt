//! The reader of specifications.
//!
//! - `read_spec` reads a text as a specification: it answers `Ok` exactly where the text spells one
//!   (`specs/Spells.antt`), and then that one, and each refusal has its cause there.
//! - The grammar, as a relation by cases on whole lists of terminals, and the reading of terminals as
//!   sections and definitions stand in the crate `spec_syntax`.
//! - Which name of the text is what, and the first that is wrong where it stands, is told by the crate
//!   `name_resolution`; what a text with definitions expands to, by `definition_expansion`. The size of an
//!   expansion is computed before it is made.
//! - The names of the specification (`specs/Naming.antt`) are a last pass over the expanded sections: each
//!   use that stands in them, and the names by first appearance, where `?` comes directly after the signal
//!   that it tests.
//! - Laws: a text spells at most one specification, which fits its names, or has at most one cause of
//!   refusal; a text derives in one way; a fault of the form or of a level is the first. A text without
//!   the token `=` has no definition, and a name of it is refused for how its sections use it.
#![tactic(auto)]

ghost use Rattle.std.specs.Prelude.{◌≡◌, ◌<◌, ◌-◌, ◌^◌, length, IfOk, IfErr};
ghost use Rattle.tsl_terms.specs.SpecView.{spec_tree};
ghost use Rattle.tsl_terms.specs.WellFormed.{SpecFits};
ghost use Rattle.tsl_reader.specs.Spells.{Spells, HasCause, SpellsNoSpec};

use base_library::NoMemory;
use stages::{derived_spec, has_few_nodes};
use std::alloc::{AllocFailed, Global};
use thiserror::Error;
use tsl_terms::Spec;

mod expanding;
mod laws;
mod naming;
mod numbering;
mod splitting;
mod stages;
mod text_names;
mod uses;

pub use laws::{
    clashes_are_those_of_written_uses, names_are_few, names_stand_in_order, one_cause,
    one_specification, spelled_specifications_fit, texts_without_definitions_are_their_sections,
    texts_without_equals_are_refused_by_their_uses, texts_without_equals_are_their_sections,
};
pub use spec_syntax::{
    declarations_have_one_reading, deep_faults_of_declarations_are_the_first,
    form_faults_of_declarations_are_the_first, reading_meets_declarations,
};

/// The most nodes that the whole formula of a specification may have.
pub const MOST_NODES: u32 = 10_000;

/// Why a text is no specification. Offsets count bytes from 0. Of two causes of different kinds the one
/// that comes first here is answered, but of `Form` and `Deep` the one that stands first in the text.
#[derive(Debug, Drop, Error)]
pub enum SpecError {
    /// The byte at this offset begins no blank, comment or token.
    #[error("byte {0} begins no token")]
    Byte(u32),
    /// The comment that begins at this offset is not closed.
    #[error("the comment at byte {0} is not closed")]
    OpenComment(u32),
    /// The first token such that no specification begins with the tokens up to and with it, however
    /// deep it may nest; or the end of the text, where one begins with all its tokens and it is none.
    #[error("no specification goes on with the token at byte {0}")]
    Form(u32),
    /// The first token such that specifications begin with the tokens up to and with it, but none that
    /// nests at most 200 levels deep.
    #[error("the token at byte {0} nests too deep")]
    Deep(u32),
    /// The name between these offsets stands in the head of a definition and may not stand there: an
    /// earlier definition defines it, or it is a parameter and a defined name or another parameter of
    /// its definition. It is the first such name.
    #[error("the name at byte {0} is defined or a parameter already")]
    Defined(u32, u32),
    /// The name between these offsets is that of a definition, in its head, that reaches itself through
    /// uses. It is the first such definition.
    #[error("the definition at byte {0} reaches itself")]
    Cycle(u32, u32),
    /// The name between these offsets was used before as something else: a signal, a function or a
    /// predicate. Or it is a defined name and neither its definition nor a use, which is the name alone
    /// or the name and bare names that are not defined; or a parameter of its definition, and no signal.
    /// It is the first such name.
    #[error("the name at byte {0} is used as something else")]
    Kind(u32, u32),
    /// The name between these offsets had another number of arguments at its first use. Or it is a use of
    /// a definition, with another number of names than that has parameters. It is the first such name.
    #[error("the name at byte {0} has another number of arguments")]
    Arity(u32, u32),
    /// The name between these offsets is a use in a section, and what stands in its place nests deeper
    /// than 200 levels. It is the first such use.
    #[error("what the use at byte {0} stands for nests too deep")]
    DeepUse(u32, u32),
    /// The whole formula has more than 10,000 nodes.
    #[error("the whole formula has more than 10000 nodes")]
    Nodes,
    /// Memory ran out.
    #[error("out of memory")]
    NoMemory,
}

impl From<NoMemory> for SpecError {
    ghost use Rattle.tsl_reader.specs.declared.SpecError.TheVariants.{NoMemory};

    ghost from_gives = { λ _ e. e ≡ NoMemory };

    fn from(_error: NoMemory) -> SpecError {
        SpecError::NoMemory
    }
}

impl<T: Drop> From<AllocFailed<T>> for SpecError {
    ghost use Rattle.tsl_reader.specs.declared.SpecError.TheVariants.{NoMemory};

    ghost from_gives = { λ _ e. e ≡ NoMemory };

    fn from(_error: AllocFailed<T>) -> SpecError {
        SpecError::NoMemory
    }
}

/// The specification that a text spells. Its names are distinct, each usable or `?`, and its formulas
/// fit them.
///
/// An `Err` has the cause why it spells none.
pub fn read_spec(alloc: Global, text: &[u8]) -> Result<Spec, SpecError>
    requires { length text.now < 2 ^ 32 - 1 }
    ensures ok { IfOk result (λ spec. Spells text.now (spec_tree spec)) }
    ensures fits { IfOk result (λ spec. SpecFits (spec_tree spec)) }
    ensures cause { IfErr result (HasCause text.now) }
    ensures refused { IfErr result (SpellsNoSpec text.now) }
{
    let spec = derived_spec(alloc, text)?;
    if !has_few_nodes(&spec) {
        return Err(SpecError::Nodes);
    }
    Ok(spec)
}
