//! Formulas with numbers in the place of names.

ghost use Rattle.std.specs.Prelude.{◌≡◌, ◌++◌, Some, map, option_map, IfOk, OnOk, IsTrue};
ghost use Rattle.std.specs.Option.{is_some};
ghost use Rattle.tsl_terms.specs.Name.{number_of, question};
ghost use Rattle.tsl_terms.specs.TermTree.{term_tree, term_trees};
ghost use Rattle.tsl_terms.specs.FormulaTree.{formula_tree, formula_trees, member_trees, unary};
ghost use Rattle.tsl_terms.specs.FormulaTree.{binary, many};
ghost use Rattle.tsl_reader.specs.Naming.{numbered_term, numbered_terms, numbered_formula};
ghost use Rattle.tsl_reader.specs.Naming.{numbered_members, numbered_list, same_part};
ghost use Rattle.tsl_reader.specs.Naming.{formulas_of_part};
ghost use Rattle.spec_syntax.specs.Syntax.{bare};
ghost use Rattle.tsl_reader.specs.Numbering.{formulas_after, formulas_if};
ghost use Rattle.spec_syntax.specs.SyntaxView.{term_syntax, terms_syntax, formula_syntax};
ghost use Rattle.spec_syntax.specs.SyntaxView.{formulas_syntax, section_syntax};

use base_library::NoMemory;
use spec_syntax::{Part, ReadFormula, ReadFormulas, ReadSection, ReadTerm, ReadTerms};
use std::alloc::Global;
use tsl_terms::{
    BinaryOperator, Formula, FormulaList, ManyOperator, Names, Probe, Term, TermList, UnaryOperator,
};

/// The number of the name with a text.
fn number_of(names: &Names, text: &[u8]) -> u32
    requires { IsTrue (is_some (number_of names.now text.now)) }
    ensures { number_of names.now text.now ≡ Some result }
{
    names.find(text).unwrap()
}

/// A term with numbers.
#[cycle(number_terms)]
fn numbered_term(alloc: Global, names: &Names, term: &ReadTerm) -> Result<Term, NoMemory>
    requires { IsTrue (is_some (numbered_term names.now (term_syntax term.now))) }
    ensures { IfOk result
        (λ tree. numbered_term names.now (term_syntax term.now) ≡ Some (term_tree tree)) }
{
    match term {
        ReadTerm::Alone(name) => Ok(Term::Signal(number_of(names, name))),
        ReadTerm::Applied(name, arguments) => {
            let number = number_of(names, name);
            let arguments = numbered_terms(alloc, names, arguments)?;
            Ok(Term::Apply(number, arguments))
        }
        ReadTerm::Grouped(inner) => numbered_term(alloc, names, inner),
    }
}

/// A list of terms with numbers.
#[cycle(number_terms)]
fn numbered_terms(alloc: Global, names: &Names, terms: &ReadTerms) -> Result<TermList, NoMemory>
    requires { IsTrue (is_some (numbered_terms names.now (terms_syntax terms.now))) }
    ensures { IfOk result
        (λ trees. numbered_terms names.now (terms_syntax terms.now) ≡ Some (term_trees trees)) }
{
    let mut trees = Vec::new(alloc);
    let mut rest = terms;
    while let ReadTerms::More(term, next) = rest {
        let tree = numbered_term(alloc, names, term)?;
        trees.push(tree)?;
        rest = next;
    }
    TermList::from_vec(alloc, trees)
}

/// The test of a Boolean signal.
fn numbered_bare(alloc: Global, names: &Names, name: &[u8]) -> Result<Formula, NoMemory>
    requires signal { IsTrue (is_some (number_of names.now name.now)) }
    requires test { IsTrue (is_some (number_of names.now question)) }
    ensures { IfOk result (λ tree.
        numbered_formula names.now (bare name.now) ≡ Some (formula_tree tree)) }
{
    let signal = Box::new(alloc, Term::Signal(number_of(names, name)))?;
    Ok(Formula::Test(Probe {
        predicate: number_of(names, b"?"),
        arguments: TermList::More(signal, Box::new(alloc, TermList::Empty)?),
    }))
}

/// An operator with its operand.
fn under(alloc: Global, op: UnaryOperator, part: Formula) -> Result<Formula, NoMemory>
    ensures { IfOk result (λ tree. formula_tree tree ≡ unary op (formula_tree part)) }
{
    let part = Box::new(alloc, part)?;
    Ok(match op {
        UnaryOperator::Negation => Formula::Not(part),
        UnaryOperator::Next => Formula::Next(part),
        UnaryOperator::Finally => Formula::Finally(part),
        UnaryOperator::Globally => Formula::Globally(part),
    })
}

/// An operator between its operands.
fn between(
    alloc: Global,
    op: BinaryOperator,
    left: Formula,
    right: Formula,
) -> Result<Formula, NoMemory>
    ensures { IfOk result (λ tree. formula_tree tree
        ≡ binary op (formula_tree left) (formula_tree right)) }
{
    let left = Box::new(alloc, left)?;
    let right = Box::new(alloc, right)?;
    Ok(match op {
        BinaryOperator::Implication => Formula::Implies(left, right),
        BinaryOperator::Equivalence => Formula::Iff(left, right),
        BinaryOperator::Until => Formula::Until(left, right),
        BinaryOperator::WeakUntil => Formula::Weak(left, right),
        BinaryOperator::Release => Formula::Release(left, right),
    })
}

/// The operands of `&&` or of `||`.
fn joined(op: ManyOperator, members: FormulaList) -> Formula
    ensures { formula_tree result ≡ many op (formula_trees members) }
{
    match op {
        ManyOperator::Conjunction => Formula::All(members),
        ManyOperator::Disjunction => Formula::Any(members),
    }
}

/// A formula with numbers.
#[cycle(number_formulas)]
fn numbered_formula(
    alloc: Global,
    names: &Names,
    formula: &ReadFormula,
) -> Result<Formula, NoMemory>
    requires { IsTrue (is_some (numbered_formula names.now (formula_syntax formula.now))) }
    ensures { IfOk result
        (λ tree. numbered_formula names.now (formula_syntax formula.now)
        ≡ Some (formula_tree tree)) }
{
    match formula {
        ReadFormula::True => Ok(Formula::True),
        ReadFormula::False => Ok(Formula::False),
        ReadFormula::Bare(name) => numbered_bare(alloc, names, name),
        ReadFormula::Tested(name, arguments) => {
            let predicate = number_of(names, name);
            let arguments = numbered_terms(alloc, names, arguments)?;
            Ok(Formula::Test(Probe {
                predicate,
                arguments,
            }))
        }
        ReadFormula::Updated(name, term) => {
            let signal = number_of(names, name);
            let term = numbered_term(alloc, names, term)?;
            Ok(Formula::Update(signal, term))
        }
        ReadFormula::Grouped(inner) => numbered_formula(alloc, names, inner),
        ReadFormula::Under(op, part) => {
            let part = numbered_formula(alloc, names, part)?;
            under(alloc, *op, part)
        }
        ReadFormula::Between(op, left, right) => {
            let left = numbered_formula(alloc, names, left)?;
            let right = numbered_formula(alloc, names, right)?;
            between(alloc, *op, left, right)
        }
        ReadFormula::Joined(op, members) => {
            let members = numbered_members(alloc, names, members)?;
            Ok(joined(*op, members))
        }
    }
}

/// A list of formulas with numbers.
#[cycle(number_formulas)]
fn numbered_members(
    alloc: Global,
    names: &Names,
    formulas: &ReadFormulas,
) -> Result<FormulaList, NoMemory>
    requires { IsTrue (is_some (numbered_members names.now (formulas_syntax formulas.now))) }
    ensures { IfOk result (λ trees. numbered_members names.now (formulas_syntax formulas.now)
        ≡ Some (formula_trees trees)) }
{
    let mut trees = Vec::new(alloc);
    let mut rest = formulas;
    while let ReadFormulas::More(formula, next) = rest {
        let tree = numbered_formula(alloc, names, formula)?;
        trees.push(tree)?;
        rest = next;
    }
    FormulaList::from_vec(alloc, trees)
}

/// Adds the formulas of a section with numbers.
fn add_formulas(
    alloc: Global,
    names: &Names,
    trees: &mut Vec<Formula>,
    formulas: &[ReadFormula],
) -> Result<(), NoMemory>
    requires { IsTrue (is_some (numbered_list names.now (map formula_syntax formulas.now))) }
    ensures { OnOk result
        (formulas_after (map formula_tree trees.old.items)
        (numbered_list names.now (map formula_syntax formulas.now))
        ≡ Some (map formula_tree trees.new.items)) }
{
    for formula in formulas {
        let tree = numbered_formula(alloc, names, formula)?;
        trees.push(tree)?;
    }
    Ok(())
}

/// Whether two parts are the same one.
fn same_part(left: Part, right: Part) -> bool
    ensures { result ≡ same_part left right }
{
    match (left, right) {
        (Part::AssumeFirst, Part::AssumeFirst)
        | (Part::AssumeAlways, Part::AssumeAlways)
        | (Part::GuaranteeFirst, Part::GuaranteeFirst)
        | (Part::GuaranteeAlways, Part::GuaranteeAlways) => true,
        _ => false,
    }
}

/// Adds the formulas of a section with numbers, where they go to this list.
fn add_section(
    alloc: Global,
    names: &Names,
    part: Part,
    trees: &mut Vec<Formula>,
    section: &ReadSection,
) -> Result<(), NoMemory>
    requires { IsTrue
        (is_some (numbered_list names.now (formulas_if part (section_syntax section.now)))) }
    ensures { OnOk result
        (formulas_after (map formula_tree trees.old.items)
        (numbered_list names.now (formulas_if part (section_syntax section.now)))
        ≡ Some (map formula_tree trees.new.items)) }
{
    if same_part(part, section.part) {
        add_formulas(alloc, names, trees, &section.formulas)?;
    }
    Ok(())
}

/// The formulas of the sections that go to one list, with numbers.
pub(crate) fn formulas_of_part(
    alloc: Global,
    names: &Names,
    part: Part,
    sections: &[ReadSection],
) -> Result<FormulaList, NoMemory>
    requires { IsTrue
        (is_some (numbered_list names.now
        (formulas_of_part part (map section_syntax sections.now)))) }
    ensures { IfOk result (λ trees.
        numbered_list names.now (formulas_of_part part (map section_syntax sections.now))
        ≡ Some (member_trees trees)) }
{
    let mut trees = Vec::new(alloc);
    for section in sections {
        add_section(alloc, names, part, &mut trees, section)?;
    }
    FormulaList::from_vec(alloc, trees)
}
