//! The uses of names, in the order of the text.

ghost use Rattle.std.specs.Prelude.{◌≡◌, ◌<◌, ◌^◌, ◌++◌, length, map, IfOk, OnOk};
ghost use Rattle.tsl_reader.specs.Naming.{count_of_arguments, use_as, tested_signal, term_uses};
ghost use Rattle.tsl_reader.specs.Naming.{terms_uses, uses, members_uses};
ghost use Rattle.tsl_reader.specs.Naming.{section_uses, all_uses};
ghost use Rattle.spec_syntax.specs.SyntaxView.{term_syntax, terms_syntax, formula_syntax};
ghost use Rattle.spec_syntax.specs.SyntaxView.{formulas_syntax, section_syntax};
ghost use Rattle.tsl_reader.specs.UseView.{read_use};

use base_library::NoMemory;
use spec_syntax::{ReadFormula, ReadFormulas, ReadSection, ReadTerm, ReadTerms};
use std::alloc::Global;
use tsl_terms::{NameKind, NameUse};

/// A use of a name, and whether it stands alone in a formula, where the predicate `?` tests it.
#[derive(Clone, Copy)]
pub(crate) struct ReadUse<'a> {
    /// The use, as the name that it would be.
    pub(crate) usage: NameUse<'a>,
    /// Whether `?` tests it.
    pub(crate) is_tested: bool,
}

/// A use of a name that `?` does not test.
fn use_as(kind: NameKind, text: &[u8], arity: u32) -> ReadUse<'_>
    ensures { read_use result ≡ use_as kind text.now arity }
{
    ReadUse {
        usage: NameUse { text, kind, arity },
        is_tested: false,
    }
}

/// A use of a Boolean signal that `?` tests.
fn tested_signal(text: &[u8]) -> ReadUse<'_>
    ensures { read_use result ≡ tested_signal text.now }
{
    ReadUse {
        usage: NameUse {
            text,
            kind: NameKind::Signal,
            arity: 0,
        },
        is_tested: true,
    }
}

/// How many terms a list has.
fn count_of_arguments(terms: &ReadTerms) -> u32
    requires { count_of_arguments (terms_syntax terms.now) < 2 ^ 32 }
    ensures { result ≡ count_of_arguments (terms_syntax terms.now) }
{
    let mut count = 0;
    let mut rest = terms;
    while let ReadTerms::More(_, next) = rest {
        count += 1;
        rest = next;
    }
    count
}

/// Adds the uses of a term.
#[tactic(auto, using(crate::proofs::UseLemmas::count_within))]
#[cycle(term_uses)]
fn add_term<'a>(list: &mut Vec<ReadUse<'a>>, term: &ReadTerm<'a>) -> Result<(), NoMemory>
    requires { length (term_uses (term_syntax term.now)) < 2 ^ 32 }
    ensures { OnOk result (map read_use list.new.items
        ≡ map read_use list.old.items ++ term_uses (term_syntax term.now)) }
{
    match term {
        ReadTerm::Alone(name) => {
            list.push(use_as(NameKind::Signal, name, 0))?;
            Ok(())
        }
        ReadTerm::Applied(name, arguments) => {
            list.push(use_as(NameKind::Function, name, count_of_arguments(arguments)))?;
            add_terms(list, arguments)
        }
        ReadTerm::Grouped(inner) => add_term(list, inner),
    }
}

/// Adds the uses of the terms of a list.
#[cycle(term_uses)]
fn add_terms<'a>(list: &mut Vec<ReadUse<'a>>, terms: &ReadTerms<'a>) -> Result<(), NoMemory>
    requires { length (terms_uses (terms_syntax terms.now)) < 2 ^ 32 }
    ensures { OnOk result (map read_use list.new.items
        ≡ map read_use list.old.items ++ terms_uses (terms_syntax terms.now)) }
{
    let mut rest = terms;
    while let ReadTerms::More(term, next) = rest {
        add_term(list, term)?;
        rest = next;
    }
    Ok(())
}

/// Adds the uses of a formula.
#[tactic(auto, using(crate::proofs::UseLemmas::count_within))]
#[cycle(formula_uses)]
fn add_formula<'a>(list: &mut Vec<ReadUse<'a>>, formula: &ReadFormula<'a>) -> Result<(), NoMemory>
    requires { length (uses (formula_syntax formula.now)) < 2 ^ 32 }
    ensures { OnOk result (map read_use list.new.items
        ≡ map read_use list.old.items ++ uses (formula_syntax formula.now)) }
{
    match formula {
        ReadFormula::True | ReadFormula::False => Ok(()),
        ReadFormula::Bare(name) => {
            list.push(tested_signal(name))?;
            Ok(())
        }
        ReadFormula::Tested(name, arguments) => {
            list.push(use_as(NameKind::Predicate, name, count_of_arguments(arguments)))?;
            add_terms(list, arguments)
        }
        ReadFormula::Updated(name, term) => {
            list.push(use_as(NameKind::Signal, name, 0))?;
            add_term(list, term)
        }
        ReadFormula::Grouped(inner) => add_formula(list, inner),
        ReadFormula::Under(_, part) => add_formula(list, part),
        ReadFormula::Between(_, left, right) => {
            add_formula(list, left)?;
            add_formula(list, right)
        }
        ReadFormula::Joined(_, members) => add_members(list, members),
    }
}

/// Adds the uses of the formulas of a list.
#[cycle(formula_uses)]
fn add_members<'a>(list: &mut Vec<ReadUse<'a>>, formulas: &ReadFormulas<'a>) -> Result<(), NoMemory>
    requires { length (members_uses (formulas_syntax formulas.now)) < 2 ^ 32 }
    ensures { OnOk result (map read_use list.new.items
        ≡ map read_use list.old.items ++ members_uses (formulas_syntax formulas.now)) }
{
    let mut rest = formulas;
    while let ReadFormulas::More(formula, next) = rest {
        add_formula(list, formula)?;
        rest = next;
    }
    Ok(())
}

/// Adds the uses of a section.
fn add_section<'a>(list: &mut Vec<ReadUse<'a>>, section: &ReadSection<'a>) -> Result<(), NoMemory>
    requires { length (section_uses (section_syntax section.now)) < 2 ^ 32 }
    ensures { OnOk result (map read_use list.new.items
        ≡ map read_use list.old.items ++ section_uses (section_syntax section.now)) }
{
    for formula in &section.formulas {
        add_formula(list, formula)?;
    }
    Ok(())
}

/// All uses of the sections of a text.
pub(crate) fn all_uses<'a>(
    alloc: Global,
    sections: &[ReadSection<'a>],
) -> Result<Vec<ReadUse<'a>>, NoMemory>
    requires { length (all_uses (map section_syntax sections.now)) < 2 ^ 32 }
    ensures { IfOk result (λ list. map read_use list.items
        ≡ all_uses (map section_syntax sections.now)) }
{
    let mut list = Vec::new(alloc);
    for section in sections {
        add_section(&mut list, section)?;
    }
    Ok(list)
}
