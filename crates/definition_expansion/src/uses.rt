//! Which definitions a definition uses.

ghost use Rattle.std.specs.Prelude.{◌≡◌, ◌∷◌, ◌++◌, ◌<◌, ◌^◌, [], length, map, IfOk, OnOk};
ghost use Rattle.tsl_terms.specs.Name.{AreDistinct};
ghost use Rattle.spec_syntax.specs.SyntaxView.{formula_syntax, formulas_syntax};
ghost use Rattle.definition_expansion.specs.DefinitionView.{definition_of};
ghost use Rattle.definition_expansion.specs.internal.UseNumbers.{numbers_of, used_names, members_used_names};
ghost use Rattle.definition_expansion.specs.internal.UseNumbers.{use_graph};
ghost use Rattle.depth_first_search.specs.Graphs.{graph_of};

use crate::definitions::ReadDefinition;
use crate::sizing::pass_names;
use base_library::NoMemory;
use spec_syntax::{ReadFormula, ReadFormulas};
use std::alloc::Global;
use tsl_terms::Names;

/// Adds the number of the definition of a name, if it is defined.
fn add_use(heads: &Names, name: &[u8], uses: &mut Vec<u32>) -> Result<(), NoMemory>
    ensures { OnOk result (uses.new.items ≡ uses.old.items ++ numbers_of heads.now (name.now ∷ [])) }
{
    if let Some(number) = heads.find(name) {
        uses.push(number)?;
    }
    Ok(())
}

/// Adds the numbers of the definitions that a formula uses.
#[cycle(adding_uses)]
fn add_uses(heads: &Names, formula: &ReadFormula, uses: &mut Vec<u32>) -> Result<(), NoMemory>
    ensures { OnOk result (uses.new.items
        ≡ uses.old.items ++ numbers_of heads.now (used_names (formula_syntax formula.now))) }
{
    match formula {
        ReadFormula::True | ReadFormula::False | ReadFormula::Updated(_, _) => Ok(()),
        ReadFormula::Bare(name) => add_use(heads, name, uses),
        ReadFormula::Tested(name, arguments) => {
            if pass_names(arguments) {
                add_use(heads, name, uses)
            } else {
                Ok(())
            }
        }
        ReadFormula::Grouped(inner) => add_uses(heads, inner, uses),
        ReadFormula::Under(_, part) => add_uses(heads, part, uses),
        ReadFormula::Between(_, left, right) => {
            add_uses(heads, left, uses)?;
            add_uses(heads, right, uses)
        }
        ReadFormula::Joined(_, members) => add_uses_of_members(heads, members, uses),
    }
}

/// Adds the numbers of the definitions that formulas use.
#[cycle(adding_uses)]
fn add_uses_of_members(
    heads: &Names,
    formulas: &ReadFormulas,
    uses: &mut Vec<u32>,
) -> Result<(), NoMemory>
    ensures { OnOk result (uses.new.items
        ≡ uses.old.items ++ numbers_of heads.now (members_used_names (formulas_syntax formulas.now))) }
{
    let mut rest = formulas;
    while let ReadFormulas::More(formula, next) = rest {
        add_uses(heads, formula, uses)?;
        rest = next;
    }
    Ok(())
}

/// For each definition the numbers of those that it uses.
pub(crate) fn uses_of_each(
    alloc: Global,
    heads: &Names,
    definitions: &[ReadDefinition],
) -> Result<Vec<Vec<u32>>, NoMemory>
    ensures rows { IfOk result
        (λ rows. graph_of rows.items ≡ use_graph heads.now (map definition_of definitions.now)) }
    ensures distinct { AreDistinct heads.now }
    ensures few { length heads.now < 2 ^ 32 }
{
    let mut rows = Vec::with_capacity(alloc, heads.count() as usize)?;
    for definition in definitions {
        let mut uses = Vec::new(alloc);
        add_uses(heads, &definition.body, &mut uses)?;
        rows.push(uses)?;
    }
    Ok(rows)
}
