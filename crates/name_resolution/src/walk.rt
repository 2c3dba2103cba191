//! The names of declarations, in the order of the text.

ghost use Rattle.std.specs.Prelude.{◌≡◌, ◌+◌, ◌<◌, ◌^◌, ◌++◌, ◌||◌, [], ◌∷◌, not, false, if◌then◌else◌, Some, length, map, flat_map, IfOk, OnOk};
ghost use Rattle.std.specs.List.{list_all, AllByRecursion};
ghost use Rattle.std.specs.Option.{option_map_or};
ghost use Rattle.tsl_terms.specs.declared.names.NameKind.TheVariants.{Signal, Predicate};
ghost use Rattle.spec_syntax.specs.Syntax.{tested, the_section, the_definition};
ghost use Rattle.spec_syntax.specs.Levels.{depth, members_depth};
ghost use Rattle.spec_syntax.specs.SyntaxView.{term_syntax, terms_syntax, formula_syntax};
ghost use Rattle.spec_syntax.specs.SyntaxView.{formulas_syntax, section_syntax};
ghost use Rattle.spec_syntax.specs.SyntaxView.{equation_syntax, declaration_syntax};
ghost use Rattle.definition_expansion.specs.Expansion.{bare_names, passed_names};
ghost use Rattle.definition_expansion.specs.Occurrences.{count_of};
ghost use Rattle.name_resolution.specs.Heads.{is_name};
ghost use Rattle.name_resolution.specs.declared.occurrence.Role.TheVariants.{Head, Parameter, Redefined};
ghost use Rattle.name_resolution.specs.Occurrences.{role_in, is_use, atom_role, in_head};
ghost use Rattle.name_resolution.specs.Occurrences.{occurrence, occurrence_alone};
ghost use Rattle.definition_expansion.specs.UseLevels.{level_of_right};
ghost use Rattle.name_resolution.specs.Occurrences.{term_occurrences, terms_occurrences};
ghost use Rattle.name_resolution.specs.Occurrences.{formula_occurrences, members_occurrences};
ghost use Rattle.name_resolution.specs.Occurrences.{declaration_occurrences};
ghost use Rattle.name_resolution.specs.Occurrences.{parameter_name, definition_occurrences};
ghost use Rattle.name_resolution.specs.Occurrences.{occurrences};
ghost use Rattle.name_resolution.specs.OccurrenceView.{occurrence_of};
ghost use Rattle.name_resolution.specs.WrittenNames.{IsBelowDepth};
ghost use Rattle.name_resolution.specs.internal.Scopes.{scope_of};

use crate::defined::add_declared;
use crate::occurrence::{ReadOccurrence, Role};
use crate::parameters::parameters_of;
use base_library::NoMemory;
use spec_syntax::{
    ReadDeclaration, ReadEquation, ReadFormula, ReadFormulas, ReadSection, ReadTerm, ReadTerms,
};
use std::alloc::Global;
use tsl_terms::{BinaryOperator, NameKind, Names};

/// What is known of names where a formula stands: those that are defined, and the parameters of the
/// definition that it stands in.
#[derive(Clone, Copy)]
struct ReadScope<'b> {
    heads: &'b Names,
    parameters: &'b Names,
    in_section: bool,
}

/// Whether a text is one of the names. Where there are none, as in most texts, it is not looked for.
#[tactic(auto, using(crate::proofs::NoNames::none_is_named))]
fn is_name(names: &Names, text: &[u8]) -> bool
    ensures { result ≡ is_name names.now text.now }
{
    names.count() > 0 && names.find(text).is_some()
}

/// The role of a name that is no use.
fn role_in(scope: &ReadScope, name: &[u8]) -> Role
    ensures { result ≡ role_in (scope_of scope.now) name.now }
{
    if is_name(scope.heads, name) {
        Role::Misused
    } else if is_name(scope.parameters, name) {
        Role::Parameter
    } else {
        Role::Plain
    }
}

/// Whether terms are bare names, none of them defined.
fn are_free_names(heads: &Names, terms: &ReadTerms) -> bool
    ensures { result ≡ option_map_or (list_all (λ y. not (is_name heads.now y)))
        (bare_names (terms_syntax terms.now)) false }
{
    let mut rest = terms;
    while let ReadTerms::More(term, next) = rest {
        match &**term {
            ReadTerm::Alone(name) => {
                if is_name(heads, name) {
                    return false;
                }
            }
            _ => return false,
        }
        rest = next;
    }
    true
}

/// Whether an atom with arguments is a use.
fn is_use(scope: &ReadScope, name: &[u8], arguments: &ReadTerms) -> bool
    ensures { result ≡ is_use (scope_of scope.now) name.now
        (passed_names (terms_syntax arguments.now)) }
{
    if matches!(arguments, ReadTerms::Empty) {
        return false;
    }
    if !is_name(scope.heads, name) {
        return false;
    }
    are_free_names(scope.heads, arguments)
}

/// The role of the name of an atom with arguments.
fn atom_role(scope: &ReadScope, name: &[u8], arguments: &ReadTerms) -> Role
    ensures { result ≡ atom_role (scope_of scope.now) name.now
        (passed_names (terms_syntax arguments.now)) }
{
    if is_use(scope, name, arguments) {
        Role::Used
    } else {
        role_in(scope, name)
    }
}

/// The role of a name that stands alone as an atom.
fn role_alone(scope: &ReadScope, name: &[u8]) -> Role
    ensures { result ≡ atom_role (scope_of scope.now) name.now (Some []) }
{
    if is_name(scope.heads, name) {
        Role::Used
    } else {
        role_in(scope, name)
    }
}

/// How many terms a list has.
fn count_of_arguments(terms: &ReadTerms) -> u32
    requires { count_of (terms_syntax terms.now) < 2 ^ 32 }
    ensures { result ≡ count_of (terms_syntax terms.now) }
{
    let mut count = 0;
    let mut rest = terms;
    while let ReadTerms::More(_, next) = rest {
        count += 1;
        rest = next;
    }
    count
}

/// Adds a name of a term.
fn add_name_of_term<'a>(
    list: &mut Vec<ReadOccurrence<'a>>,
    scope: &ReadScope,
    level: u32,
    kind: NameKind,
    arity: u32,
    name: &'a [u8],
) -> Result<(), NoMemory>
    ensures { OnOk result (map occurrence_of list.new.items ≡ map occurrence_of list.old.items
        ++ occurrence (scope_of scope.now) level (role_in (scope_of scope.now) name.now) kind arity
        name.now ∷ []) }
{
    list.push(ReadOccurrence {
        text: name,
        kind,
        arity,
        role: role_in(scope, name),
        level,
        in_section: scope.in_section,
        is_alone: false,
    })?;
    Ok(())
}

/// Adds the names of a term.
#[tactic(auto, using(crate::proofs::Counts::count_within))]
#[cycle(term_names)]
fn add_term<'a>(
    list: &mut Vec<ReadOccurrence<'a>>,
    scope: &ReadScope,
    level: u32,
    term: &ReadTerm<'a>,
) -> Result<(), NoMemory>
    requires { length (term_occurrences (scope_of scope.now) level (term_syntax term.now)) < 2 ^ 32 }
    ensures { OnOk result (map occurrence_of list.new.items ≡ map occurrence_of list.old.items
        ++ term_occurrences (scope_of scope.now) level (term_syntax term.now)) }
{
    match term {
        ReadTerm::Alone(name) => add_name_of_term(list, scope, level, NameKind::Signal, 0, name),
        ReadTerm::Applied(name, arguments) => {
            let arity = count_of_arguments(arguments);
            add_name_of_term(list, scope, level, NameKind::Function, arity, name)?;
            add_terms(list, scope, level, arguments)
        }
        ReadTerm::Grouped(inner) => add_term(list, scope, level, inner),
    }
}

/// Adds the names of the terms of a list.
#[cycle(term_names)]
fn add_terms<'a>(
    list: &mut Vec<ReadOccurrence<'a>>,
    scope: &ReadScope,
    level: u32,
    terms: &ReadTerms<'a>,
) -> Result<(), NoMemory>
    requires { length (terms_occurrences (scope_of scope.now) level (terms_syntax terms.now)) < 2 ^ 32 }
    ensures { OnOk result (map occurrence_of list.new.items ≡ map occurrence_of list.old.items
        ++ terms_occurrences (scope_of scope.now) level (terms_syntax terms.now)) }
{
    let mut rest = terms;
    while let ReadTerms::More(term, next) = rest {
        add_term(list, scope, level, term)?;
        rest = next;
    }
    Ok(())
}

/// The level of the right side of an operator whose left side stands at a level.
fn level_of_right(op: BinaryOperator, level: u32) -> u32
    requires { level_of_right op level < 2 ^ 32 }
    ensures { result ≡ level_of_right op level }
{
    match op {
        BinaryOperator::Implication | BinaryOperator::Equivalence => level + 1,
        _ => level,
    }
}

/// Adds a name that stands alone as an atom.
fn add_alone<'a>(
    list: &mut Vec<ReadOccurrence<'a>>,
    scope: &ReadScope,
    level: u32,
    name: &'a [u8],
) -> Result<(), NoMemory>
    ensures { OnOk result (map occurrence_of list.new.items ≡ map occurrence_of list.old.items
        ++ occurrence_alone (scope_of scope.now) level name.now ∷ []) }
{
    list.push(ReadOccurrence {
        text: name,
        kind: NameKind::Signal,
        arity: 0,
        role: role_alone(scope, name),
        level,
        in_section: scope.in_section,
        is_alone: true,
    })?;
    Ok(())
}

/// Adds the names of an atom with arguments.
#[tactic(auto, using(crate::proofs::Counts::count_within))]
fn add_test<'a>(
    list: &mut Vec<ReadOccurrence<'a>>,
    scope: &ReadScope,
    level: u32,
    name: &'a [u8],
    arguments: &ReadTerms<'a>,
) -> Result<(), NoMemory>
    requires { length (terms_occurrences (scope_of scope.now) level (terms_syntax arguments.now)) < 2 ^ 32 }
    ensures { OnOk result (map occurrence_of list.new.items ≡ map occurrence_of list.old.items
        ++ formula_occurrences (scope_of scope.now) level
        (tested name.now (terms_syntax arguments.now))) }
{
    list.push(ReadOccurrence {
        text: name,
        kind: NameKind::Predicate,
        arity: count_of_arguments(arguments),
        role: atom_role(scope, name, arguments),
        level,
        in_section: scope.in_section,
        is_alone: false,
    })?;
    add_terms(list, scope, level, arguments)
}

/// Adds the names of a formula.
#[cycle(formula_names)]
fn add_formula<'a>(
    list: &mut Vec<ReadOccurrence<'a>>,
    scope: &ReadScope,
    level: u32,
    formula: &ReadFormula<'a>,
) -> Result<(), NoMemory>
    requires few { length (formula_occurrences (scope_of scope.now) level
        (formula_syntax formula.now)) < 2 ^ 32 }
    requires levels { level + depth (formula_syntax formula.now) < 2 ^ 32 }
    ensures { OnOk result (map occurrence_of list.new.items ≡ map occurrence_of list.old.items
        ++ formula_occurrences (scope_of scope.now) level (formula_syntax formula.now)) }
{
    match formula {
        ReadFormula::True | ReadFormula::False => Ok(()),
        ReadFormula::Bare(name) => add_alone(list, scope, level, name),
        ReadFormula::Tested(name, arguments) => add_test(list, scope, level, name, arguments),
        ReadFormula::Updated(name, term) => {
            add_name_of_term(list, scope, level, NameKind::Signal, 0, name)?;
            add_term(list, scope, level, term)
        }
        ReadFormula::Grouped(inner) => add_formula(list, scope, level + 1, inner),
        ReadFormula::Under(_, part) => add_formula(list, scope, level + 1, part),
        ReadFormula::Between(op, left, right) => {
            add_formula(list, scope, level, left)?;
            add_formula(list, scope, level_of_right(*op, level), right)
        }
        ReadFormula::Joined(_, members) => add_members(list, scope, level, members),
    }
}

/// Adds the names of the formulas of a list.
#[cycle(formula_names)]
fn add_members<'a>(
    list: &mut Vec<ReadOccurrence<'a>>,
    scope: &ReadScope,
    level: u32,
    formulas: &ReadFormulas<'a>,
) -> Result<(), NoMemory>
    requires few { length (members_occurrences (scope_of scope.now) level
        (formulas_syntax formulas.now)) < 2 ^ 32 }
    requires levels { level + members_depth (formulas_syntax formulas.now) < 2 ^ 32 }
    ensures { OnOk result (map occurrence_of list.new.items ≡ map occurrence_of list.old.items
        ++ members_occurrences (scope_of scope.now) level (formulas_syntax formulas.now)) }
{
    let mut rest = formulas;
    while let ReadFormulas::More(formula, next) = rest {
        add_formula(list, scope, level, formula)?;
        rest = next;
    }
    Ok(())
}

/// Adds the names of a section.
fn add_section<'a>(
    list: &mut Vec<ReadOccurrence<'a>>,
    scope: &ReadScope,
    section: &ReadSection<'a>,
) -> Result<(), NoMemory>
    requires few { length (flat_map (formula_occurrences (scope_of scope.now) 0)
        (map formula_syntax section.now.formulas.items)) < 2 ^ 32 }
    requires levels { IsBelowDepth (2 ^ 32) (the_section (section_syntax section.now)) }
    ensures { OnOk result (map occurrence_of list.new.items ≡ map occurrence_of list.old.items
        ++ flat_map (formula_occurrences (scope_of scope.now) 0)
        (map formula_syntax section.now.formulas.items)) }
{
    for formula in &section.formulas {
        add_formula(list, scope, 0, formula)?;
    }
    Ok(())
}

/// A name in a head.
fn in_head(kind: NameKind, arity: u32, role: Role, text: &[u8]) -> ReadOccurrence<'_>
    ensures { occurrence_of result ≡ in_head kind arity role text.now }
{
    ReadOccurrence {
        text,
        kind,
        arity,
        role,
        level: 0,
        in_section: false,
        is_alone: false,
    }
}

/// The role of a defined name where it is defined, behind definitions of these names.
fn head_role(before: &Names, name: &[u8]) -> Role
    ensures { result ≡ (if is_name before.now name.now then Redefined else Head) }
{
    if is_name(before, name) {
        Role::Redefined
    } else {
        Role::Head
    }
}

/// The role of a parameter in its head.
fn parameter_role(heads: &Names, repeated: &Names, name: &[u8]) -> Role
    ensures { result ≡ (if is_name heads.now name.now || is_name repeated.now name.now
        then Redefined else Parameter) }
{
    if is_name(heads, name) || is_name(repeated, name) {
        Role::Redefined
    } else {
        Role::Parameter
    }
}

/// Adds a defined name where it is defined, behind definitions of these names.
fn add_head<'a>(
    list: &mut Vec<ReadOccurrence<'a>>,
    before: &Names,
    name: &'a [u8],
    arity: u32,
) -> Result<(), NoMemory>
    ensures { OnOk result (map occurrence_of list.new.items ≡ map occurrence_of list.old.items
        ++ in_head Predicate arity (if is_name before.now name.now then Redefined else Head) name.now
        ∷ []) }
{
    list.push(in_head(NameKind::Predicate, arity, head_role(before, name), name))?;
    Ok(())
}

/// Adds the parameters of a definition where it begins.
fn add_parameters<'a>(
    list: &mut Vec<ReadOccurrence<'a>>,
    heads: &Names,
    repeated: &Names,
    parameters: &[&'a [u8]],
) -> Result<(), NoMemory>
    ensures { OnOk result (map occurrence_of list.new.items ≡ map occurrence_of list.old.items
        ++ map (parameter_name (is_name heads.now) (is_name repeated.now))
        (map (λ p. p.now) parameters.now)) }
{
    for parameter in parameters {
        let role = parameter_role(heads, repeated, parameter);
        list.push(in_head(NameKind::Signal, 0, role, parameter))?;
    }
    Ok(())
}

/// Adds the names of a definition that stands behind definitions of these names.
fn add_definition<'a>(
    alloc: Global,
    list: &mut Vec<ReadOccurrence<'a>>,
    heads: &Names,
    before: &Names,
    definition: &ReadEquation<'a>,
) -> Result<(), NoMemory>
    requires few { length (definition_occurrences heads.now before.now
        (equation_syntax definition.now)) < 2 ^ 32 }
    requires levels { IsBelowDepth (2 ^ 32) (the_definition (equation_syntax definition.now)) }
    ensures { OnOk result (map occurrence_of list.new.items ≡ map occurrence_of list.old.items
        ++ definition_occurrences heads.now before.now (equation_syntax definition.now)) }
{
    let arity = definition.parameters.len() as u32;
    let parameters = parameters_of(alloc, &definition.parameters)?;
    add_head(list, before, definition.name, arity)?;
    add_parameters(list, heads, &parameters.repeated, &definition.parameters)?;
    let scope = ReadScope {
        heads,
        parameters: &parameters.names,
        in_section: false,
    };
    add_formula(list, &scope, 0, &definition.body)
}

/// Adds the names of a declaration that stands behind definitions of these names.
fn add_declaration<'a>(
    alloc: Global,
    list: &mut Vec<ReadOccurrence<'a>>,
    heads: &Names,
    before: &Names,
    declaration: &ReadDeclaration<'a>,
) -> Result<(), NoMemory>
    requires few { length (declaration_occurrences heads.now before.now
        (declaration_syntax declaration.now)) < 2 ^ 32 }
    requires levels { IsBelowDepth (2 ^ 32) (declaration_syntax declaration.now) }
    ensures { OnOk result (map occurrence_of list.new.items ≡ map occurrence_of list.old.items
        ++ declaration_occurrences heads.now before.now (declaration_syntax declaration.now)) }
{
    match declaration {
        ReadDeclaration::Section(section) => {
            let none = Names::new(alloc);
            let scope = ReadScope {
                heads,
                parameters: &none,
                in_section: true,
            };
            add_section(list, &scope, section)
        }
        ReadDeclaration::Definition(definition) => {
            add_definition(alloc, list, heads, before, definition)
        }
    }
}

/// Each name of a text that is no reserved word, in the order of the text, as what it occurs where these names are
/// defined.
pub fn occurrences<'a>(
    alloc: Global,
    heads: &Names,
    declarations: &[ReadDeclaration<'a>],
) -> Result<Vec<ReadOccurrence<'a>>, NoMemory>
    requires few { length (occurrences heads.now (map declaration_syntax declarations.now)) < 2 ^ 32 }
    requires levels { AllByRecursion (IsBelowDepth (2 ^ 32))
        (map declaration_syntax declarations.now) }
    ensures { IfOk result (λ list. map occurrence_of list.items
        ≡ occurrences heads.now (map declaration_syntax declarations.now)) }
{
    let mut list = Vec::new(alloc);
    let mut before = Names::new(alloc);
    for declaration in declarations {
        add_declaration(alloc, &mut list, heads, &before, declaration)?;
        add_declared(&mut before, declaration)?;
    }
    Ok(list)
}
