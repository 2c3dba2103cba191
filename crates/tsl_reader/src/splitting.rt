//! The sections and the definitions among declarations.

ghost use Rattle.std.specs.Prelude.{◌≡◌, ◌+◌, ◌≤◌, ◌<◌, ◌^◌, ◌∷◌, ◌++◌, [], length, map, IfOk, OnOk};
ghost use Rattle.tsl_terms.specs.Clashes.{with_use};
ghost use Rattle.tsl_terms.specs.declared.names.NameKind.TheVariants.{Signal};
ghost use Rattle.spec_syntax.specs.Syntax.{sections_among};
ghost use Rattle.spec_syntax.specs.SyntaxView.{section_syntax, equation_syntax, declaration_syntax};
ghost use Rattle.definition_expansion.specs.DefinitionView.{definition_of};
ghost use Rattle.name_resolution.specs.Heads.{definitions_in, head_size, heads_size};
ghost use Rattle.tsl_reader.specs.ReadText.{names_once, with_names_once};

use base_library::NoMemory;
use definition_expansion::ReadDefinition;
use spec_syntax::{ReadDeclaration, ReadEquation, ReadSection};
use std::alloc::Global;
use tsl_terms::{NameKind, Names};

/// The sections and the definitions of a text.
#[derive(Drop)]
pub(crate) struct Parts<'a> {
    /// The sections, in order.
    pub(crate) sections: Vec<ReadSection<'a>>,
    /// The definitions, in order.
    pub(crate) definitions: Vec<ReadDefinition<'a>>,
}

/// Adds a signal where there is no name of its text.
fn add_signal(names: &mut Names, text: &[u8]) -> Result<(), NoMemory>
    requires { length names.old + 1 < 2 ^ 32 }
    ensures added { OnOk result (names.new ≡ with_use names.old
        (record { text = text.now; kind = Signal; arity = 0 })) }
    ensures few { OnOk result (length names.new ≤ length names.old + 1) }
{
    if names.find(text).is_none() {
        names.add(text, NameKind::Signal, 0)?;
    }
    Ok(())
}

/// Parameters, each once.
fn names_once(alloc: Global, parameters: &[&[u8]]) -> Result<Names, NoMemory>
    requires { length parameters.now < 2 ^ 32 }
    ensures { IfOk result (λ names. names ≡ names_once (map (λ p. p.now) parameters.now)) }
{
    let mut names = Names::new(alloc);
    for parameter in parameters {
        add_signal(&mut names, parameter)?;
    }
    Ok(names)
}

/// A definition, with each parameter once.
fn with_names_once<'a>(
    alloc: Global,
    equation: ReadEquation<'a>,
) -> Result<ReadDefinition<'a>, NoMemory>
    requires { length equation.parameters.items < 2 ^ 32 }
    ensures { IfOk result
        (λ definition. definition_of definition ≡ with_names_once (equation_syntax equation.entry)) }
{
    let parameters = names_once(alloc, &equation.parameters)?;
    Ok(ReadDefinition {
        name: equation.name,
        parameters,
        body: equation.body,
    })
}

/// Adds a declaration to the sections or to the definitions.
fn add_declaration<'a>(
    alloc: Global,
    parts: &mut Parts<'a>,
    declaration: ReadDeclaration<'a>,
) -> Result<(), NoMemory>
    requires { head_size (declaration_syntax declaration) < 2 ^ 32 }
    ensures sections { OnOk result (map section_syntax parts.new.sections.items
        ≡ map section_syntax parts.old.sections.items ++ sections_among (declaration_syntax declaration.entry ∷ [])) }
    ensures definitions { OnOk result (map definition_of parts.new.definitions.items
        ≡ map definition_of parts.old.definitions.items
        ++ map with_names_once (definitions_in (declaration_syntax declaration.entry ∷ []))) }
{
    match declaration {
        ReadDeclaration::Section(section) => {
            parts.sections.push(section)?;
        }
        ReadDeclaration::Definition(equation) => {
            let definition = with_names_once(alloc, equation)?;
            parts.definitions.push(definition)?;
        }
    }
    Ok(())
}

/// The sections and the definitions among declarations.
pub(crate) fn parts_of<'a>(
    alloc: Global,
    mut declarations: Vec<ReadDeclaration<'a>>,
) -> Result<Parts<'a>, NoMemory>
    requires { heads_size (map declaration_syntax declarations.items) < 2 ^ 32 }
    ensures sections { IfOk result (λ parts. map section_syntax parts.sections.items
        ≡ sections_among (map declaration_syntax declarations.entry.items)) }
    ensures definitions { IfOk result (λ parts. map definition_of parts.definitions.items
        ≡ map with_names_once (definitions_in (map declaration_syntax declarations.entry.items))) }
{
    let mut parts = Parts {
        sections: Vec::new(alloc),
        definitions: Vec::new(alloc),
    };
    declarations.reverse();
    while let Some(declaration) = declarations.pop() {
        add_declaration(alloc, &mut parts, declaration)?;
    }
    Ok(parts)
}
