//! Formulas in which each use of a named formula is replaced.

ghost use Rattle.std.specs.Prelude.{◌≡◌, Some, None, map, option_map, IfOk, IfSome, IfNone};
ghost use Rattle.spec_syntax.specs.Syntax.{bare, tested};
ghost use Rattle.spec_syntax.specs.SyntaxView.{term_syntax, terms_syntax, formula_syntax};
ghost use Rattle.spec_syntax.specs.SyntaxView.{formulas_syntax};
ghost use Rattle.definition_expansion.specs.Expansion.{bare_names, passed_names, renamed_term};
ghost use Rattle.definition_expansion.specs.Expansion.{renamed_terms, expanded, expanded_members};
ghost use Rattle.definition_expansion.specs.Expansion.{expansion_within, replacing_test, ungrouped};
ghost use Rattle.definition_expansion.specs.Expansion.{ungrouped_members, ungrouped_term, ungrouped_terms};
ghost use Rattle.definition_expansion.specs.DefinitionView.{definition_of, definitions_of, AreHeads};
ghost use Rattle.definition_expansion.specs.internal.Standing.{names_now, standing};

use crate::definitions::ReadDefinition;
use base_library::NoMemory;
use spec_syntax::{ReadFormula, ReadFormulas, ReadTerm, ReadTerms};
use std::alloc::Global;
use tsl_terms::Names;

/// The names that a use passes, for the parameters of its definition.
#[derive(Clone, Copy)]
struct Passed<'a, 'b> {
    parameters: &'b Names,
    names: &'b [&'a [u8]],
}

/// What a name in a body stands for: the name that is passed for it where it is a parameter, and itself
/// elsewhere.
fn stands_for<'a>(passed: &Passed<'a, '_>, name: &'a [u8]) -> &'a [u8]
    ensures { result.now ≡ standing passed.now name.now }
{
    match passed.parameters.find(name) {
        Some(number) => match passed.names.get(number as usize) {
            Some(given) => given,
            None => name,
        },
        None => name,
    }
}

/// The definition of a name.
fn definition<'a, 'b>(
    heads: &Names,
    definitions: &'b [ReadDefinition<'a>],
    name: &[u8],
) -> Option<&'b ReadDefinition<'a>>
    requires { AreHeads heads.now definitions.now }
    ensures some { IfSome result (λ d.
        definitions_of definitions.now name.now ≡ Some (definition_of d.now)) }
    ensures none { IfNone result (definitions_of definitions.now name.now ≡ None) }
{
    match heads.find(name) {
        Some(number) => definitions.get(number as usize),
        None => None,
    }
}

/// A term in which each parameter is replaced, without brackets.
#[cycle(rename_terms)]
fn renamed_term<'a>(
    alloc: Global,
    passed: &Passed<'a, '_>,
    term: &ReadTerm<'a>,
) -> Result<ReadTerm<'a>, NoMemory>
    ensures { IfOk result (λ t. term_syntax t
        ≡ ungrouped_term (renamed_term (standing passed.now) (term_syntax term.now))) }
{
    match term {
        ReadTerm::Alone(name) => Ok(ReadTerm::Alone(stands_for(passed, name))),
        ReadTerm::Applied(name, arguments) => {
            let arguments = renamed_terms(alloc, passed, arguments)?;
            Ok(ReadTerm::Applied(stands_for(passed, name), arguments))
        }
        ReadTerm::Grouped(inner) => renamed_term(alloc, passed, inner),
    }
}

/// Terms in which each parameter is replaced, without brackets.
#[cycle(rename_terms)]
fn renamed_terms<'a>(
    alloc: Global,
    passed: &Passed<'a, '_>,
    terms: &ReadTerms<'a>,
) -> Result<ReadTerms<'a>, NoMemory>
    ensures { IfOk result (λ ts. terms_syntax ts
        ≡ ungrouped_terms (renamed_terms (standing passed.now) (terms_syntax terms.now))) }
{
    let mut list = Vec::new(alloc);
    let mut rest = terms;
    while let ReadTerms::More(term, next) = rest {
        let term = renamed_term(alloc, passed, term)?;
        list.push(term)?;
        rest = next;
    }
    ReadTerms::from_vec(alloc, list)
}

/// What the arguments stand for, where they are bare names.
fn bare_names<'a>(
    alloc: Global,
    passed: &Passed<'a, '_>,
    arguments: &ReadTerms<'a>,
) -> Result<Option<Vec<&'a [u8]>>, NoMemory>
    ensures { IfOk result (λ found. option_map (λ ns. names_now ns.items) found
        ≡ option_map (map (standing passed.now)) (bare_names (terms_syntax arguments.now))) }
{
    let mut names = Vec::new(alloc);
    let mut rest = arguments;
    while let ReadTerms::More(term, next) = rest {
        match &**term {
            ReadTerm::Alone(name) => names.push(stands_for(passed, name))?,
            _ => return Ok(None),
        }
        rest = next;
    }
    Ok(Some(names))
}

/// A formula in which each use is replaced, without brackets.
#[cycle(expansion)]
fn expanded<'a>(
    alloc: Global,
    heads: &Names,
    definitions: &[ReadDefinition<'a>],
    within: u32,
    passed: &Passed<'a, '_>,
    formula: &ReadFormula<'a>,
) -> Result<ReadFormula<'a>, NoMemory>
    requires { AreHeads heads.now definitions.now }
    ensures { IfOk result (λ f. formula_syntax f
        ≡ ungrouped (expanded (expansion_within (definitions_of definitions.now) within)
        (standing passed.now) (formula_syntax formula.now))) }
{
    match formula {
        ReadFormula::True => Ok(ReadFormula::True),
        ReadFormula::False => Ok(ReadFormula::False),
        ReadFormula::Bare(name) => expanded_bare(alloc, heads, definitions, within, passed, name),
        ReadFormula::Tested(name, arguments) => {
            expanded_test(alloc, heads, definitions, within, passed, name, arguments)
        }
        ReadFormula::Updated(name, term) => {
            let term = renamed_term(alloc, passed, term)?;
            Ok(ReadFormula::Updated(stands_for(passed, name), term))
        }
        ReadFormula::Grouped(inner) => expanded(alloc, heads, definitions, within, passed, inner),
        ReadFormula::Under(op, part) => {
            let part = expanded(alloc, heads, definitions, within, passed, part)?;
            Ok(ReadFormula::Under(*op, Box::new(alloc, part)?))
        }
        ReadFormula::Between(op, left, right) => {
            let left = expanded(alloc, heads, definitions, within, passed, left)?;
            let right = expanded(alloc, heads, definitions, within, passed, right)?;
            Ok(ReadFormula::Between(*op, Box::new(alloc, left)?, Box::new(alloc, right)?))
        }
        ReadFormula::Joined(op, members) => {
            let members = expanded_members(alloc, heads, definitions, within, passed, members)?;
            Ok(ReadFormula::Joined(*op, members))
        }
    }
}

/// Formulas in which each use is replaced, without brackets.
#[cycle(expansion)]
fn expanded_members<'a>(
    alloc: Global,
    heads: &Names,
    definitions: &[ReadDefinition<'a>],
    within: u32,
    passed: &Passed<'a, '_>,
    formulas: &ReadFormulas<'a>,
) -> Result<ReadFormulas<'a>, NoMemory>
    requires { AreHeads heads.now definitions.now }
    ensures { IfOk result (λ fs. formulas_syntax fs
        ≡ ungrouped_members (expanded_members (expansion_within (definitions_of definitions.now) within)
        (standing passed.now) (formulas_syntax formulas.now))) }
{
    let mut list = Vec::new(alloc);
    let mut rest = formulas;
    while let ReadFormulas::More(formula, next) = rest {
        let formula = expanded(alloc, heads, definitions, within, passed, formula)?;
        list.push(formula)?;
        rest = next;
    }
    ReadFormulas::from_vec(alloc, list)
}

/// An atom that is a name alone.
#[cycle(expansion)]
fn expanded_bare<'a>(
    alloc: Global,
    heads: &Names,
    definitions: &[ReadDefinition<'a>],
    within: u32,
    passed: &Passed<'a, '_>,
    name: &'a [u8],
) -> Result<ReadFormula<'a>, NoMemory>
    requires { AreHeads heads.now definitions.now }
    ensures { IfOk result (λ f. formula_syntax f
        ≡ ungrouped (expanded (expansion_within (definitions_of definitions.now) within)
        (standing passed.now) (bare name.now))) }
{
    match replacing(alloc, heads, definitions, within, name, &[])? {
        Some(formula) => Ok(formula),
        None => Ok(ReadFormula::Bare(stands_for(passed, name))),
    }
}

/// An atom that is a name with arguments.
#[cycle(expansion)]
fn expanded_test<'a>(
    alloc: Global,
    heads: &Names,
    definitions: &[ReadDefinition<'a>],
    within: u32,
    passed: &Passed<'a, '_>,
    name: &'a [u8],
    arguments: &ReadTerms<'a>,
) -> Result<ReadFormula<'a>, NoMemory>
    requires { AreHeads heads.now definitions.now }
    ensures { IfOk result (λ f. formula_syntax f
        ≡ ungrouped (expanded (expansion_within (definitions_of definitions.now) within)
        (standing passed.now) (tested name.now (terms_syntax arguments.now)))) }
{
    if let Some(formula) = replacing_test(
        alloc,
        heads,
        definitions,
        within,
        passed,
        name,
        arguments,
    )? {
        return Ok(formula);
    }
    let arguments = renamed_terms(alloc, passed, arguments)?;
    Ok(ReadFormula::Tested(stands_for(passed, name), arguments))
}

/// What stands in the place of a name with arguments, where they are a use.
#[cycle(expansion)]
fn replacing_test<'a>(
    alloc: Global,
    heads: &Names,
    definitions: &[ReadDefinition<'a>],
    within: u32,
    passed: &Passed<'a, '_>,
    name: &'a [u8],
    arguments: &ReadTerms<'a>,
) -> Result<Option<ReadFormula<'a>>, NoMemory>
    requires { AreHeads heads.now definitions.now }
    ensures { IfOk result (λ found. option_map formula_syntax found
        ≡ option_map ungrouped (replacing_test (expansion_within (definitions_of definitions.now) within)
        (standing passed.now) name.now (passed_names (terms_syntax arguments.now)))) }
{
    if matches!(arguments, ReadTerms::Empty) {
        return Ok(None);
    }
    match bare_names(alloc, passed, arguments)? {
        None => Ok(None),
        Some(names) => replacing(alloc, heads, definitions, within, name, &names),
    }
}

/// What stands in the place of a use of this name with these names, where it is defined.
#[cycle(expansion)]
fn replacing<'a>(
    alloc: Global,
    heads: &Names,
    definitions: &[ReadDefinition<'a>],
    within: u32,
    name: &[u8],
    names: &[&'a [u8]],
) -> Result<Option<ReadFormula<'a>>, NoMemory>
    requires { AreHeads heads.now definitions.now }
    ensures { IfOk result (λ found. option_map formula_syntax found
        ≡ option_map ungrouped (expansion_within (definitions_of definitions.now) within name.now
        (names_now names.now))) }
{
    if within == 0 {
        return Ok(None);
    }
    match definition(heads, definitions, name) {
        None => Ok(None),
        Some(found) => {
            let passed = Passed {
                parameters: &found.parameters,
                names,
            };
            let body = expanded(alloc, heads, definitions, within - 1, &passed, &found.body)?;
            Ok(Some(body))
        }
    }
}

/// The formula in which each use is replaced, through so many definitions one within another, without brackets. With
/// as many as there are definitions no use is left where none reaches itself. The heads are the names of the
/// definitions, in order. Calls nest as deep as the levels of the expansion with its brackets, which are told without
/// making it.
pub fn expansion<'a>(
    alloc: Global,
    heads: &Names,
    definitions: &[ReadDefinition<'a>],
    within: u32,
    formula: &ReadFormula<'a>,
) -> Result<ReadFormula<'a>, NoMemory>
    requires { AreHeads heads.now definitions.now }
    ensures { IfOk result (λ f. formula_syntax f
        ≡ ungrouped (expanded (expansion_within (definitions_of definitions.now) within) (λ x. x)
        (formula_syntax formula.now))) }
{
    let none = Names::new(alloc);
    let passed = Passed {
        parameters: &none,
        names: &[],
    };
    expanded(alloc, heads, definitions, within, &passed, formula)
}
