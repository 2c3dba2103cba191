//! What a name occurs as.

use tsl_terms::NameKind;

/// What a name is where it stands.
#[derive(Clone, Copy)]
pub enum Role {
    /// A name that is not defined, and no parameter of the definition that it stands in.
    Plain,
    /// A parameter of the definition that it stands in.
    Parameter,
    /// A defined name where it is defined.
    Head,
    /// A name in a head that may not stand there: a defined name that an earlier definition has, or a
    /// parameter that is a defined name or another parameter of its definition.
    Redefined,
    /// A defined name that is used: an atom that is the name alone, or the name and bare names, none
    /// of them a defined name.
    Used,
    /// A defined name in any other place.
    Misused,
}

/// A name where it stands in a text.
#[derive(Clone, Copy)]
pub struct ReadOccurrence<'a> {
    /// The bytes of the name.
    pub text: &'a [u8],
    /// What it is used as there: a name that a use passes is a signal, and so is a parameter.
    pub kind: NameKind,
    /// With how many arguments.
    pub arity: u32,
    /// What it is.
    pub role: Role,
    /// The level, from 0, of the atom that it stands in.
    pub level: u32,
    /// Whether it stands in a section, and not in a definition.
    pub in_section: bool,
    /// Whether it stands alone as an atom.
    pub is_alone: bool,
}
