//! Definitions that are read, and their names.

ghost use Rattle.std.specs.Prelude.{◌<◌, ◌^◌, length, map, IfOk, IfSome, IfNone};
ghost use Rattle.definition_expansion.specs.DefinitionView.{definition_of, AreHeads, IsDefinedTwice};

use base_library::NoMemory;
use spec_syntax::ReadFormula;
use std::alloc::Global;
use tsl_terms::{NameKind, Names};

/// A definition: the defined name, its parameters, and what it stands for.
#[derive(Drop)]
pub struct ReadDefinition<'a> {
    /// The defined name.
    pub name: &'a [u8],
    /// Its parameters, in order: signals without arguments.
    pub parameters: Names,
    /// What it stands for.
    pub body: ReadFormula<'a>,
}

/// The names of the definitions, in order, by which a definition is found; `None` where one is defined twice.
pub fn heads(alloc: Global, definitions: &[ReadDefinition]) -> Result<Option<Names>, NoMemory>
    requires { length definitions.now < 2 ^ 32 }
    ensures some { IfOk result (λ found. IfSome found (λ names. AreHeads names definitions.now)) }
    ensures none { IfOk result
        (λ found. IfNone found (IsDefinedTwice (map definition_of definitions.now))) }
{
    let mut names = Names::new(alloc);
    for definition in definitions {
        if names.find(definition.name).is_some() {
            return Ok(None);
        }
        names.add(
            definition.name,
            NameKind::Predicate,
            definition.parameters.count(),
        )?;
    }
    Ok(Some(names))
}
