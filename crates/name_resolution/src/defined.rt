//! The defined names.

ghost use Rattle.std.specs.Prelude.{◌≡◌, ◌+◌, ◌<◌, ◌≤◌, ◌^◌, length, map, IfOk, OnOk};
ghost use Rattle.tsl_terms.specs.Clashes.{with_use, with_uses, first_uses};
ghost use Rattle.spec_syntax.specs.SyntaxView.{declaration_syntax};
ghost use Rattle.name_resolution.specs.Heads.{head_names, heads_in, head_size, heads_size};

use base_library::NoMemory;
use spec_syntax::ReadDeclaration;
use std::alloc::Global;
use tsl_terms::{NameKind, Names};

/// Adds a name where there is none of its text.
pub(crate) fn add_name(
    names: &mut Names,
    text: &[u8],
    kind: NameKind,
    arity: u32,
) -> Result<(), NoMemory>
    requires { length names.old + 1 < 2 ^ 32 }
    ensures added { OnOk result (names.new ≡ with_use names.old
        (record { text = text.now; kind = kind; arity = arity })) }
    ensures few { OnOk result (length names.new ≤ length names.old + 1) }
{
    if names.find(text).is_none() {
        names.add(text, kind, arity)?;
    }
    Ok(())
}

/// Adds the name that a declaration defines, where it is a definition and there is none of its text.
pub(crate) fn add_declared(names: &mut Names, declaration: &ReadDeclaration) -> Result<(), NoMemory>
    requires { length names.old + head_size (declaration_syntax declaration.now) < 2 ^ 32 }
    ensures added { OnOk result (names.new
        ≡ with_uses names.old (head_names (declaration_syntax declaration.now))) }
    ensures few { OnOk result (length names.new
        ≤ length names.old + head_size (declaration_syntax declaration.now)) }
{
    match declaration {
        ReadDeclaration::Section(_) => Ok(()),
        ReadDeclaration::Definition(definition) => add_name(
            names,
            definition.name,
            NameKind::Predicate,
            definition.parameters.len() as u32,
        ),
    }
}

/// The defined names of a text in the order of the text, each with the number of parameters of its first definition.
pub fn heads(alloc: Global, declarations: &[ReadDeclaration]) -> Result<Names, NoMemory>
    requires { heads_size (map declaration_syntax declarations.now) < 2 ^ 32 }
    ensures { IfOk result (λ names. names
        ≡ first_uses (heads_in (map declaration_syntax declarations.now))) }
{
    let mut names = Names::new(alloc);
    for declaration in declarations {
        add_declared(&mut names, declaration)?;
    }
    Ok(names)
}
