//! The texts of formulas.
//!
//! `formula_text` gives the text of a formula: at Ok exactly the bytes that the definition of the same name gives.
//! The one condition is that the names hold each number and that each conjunction and disjunction has two members at
//! least, which holds of the whole formula of every specification that is read. The time is linear in the text;
//! formulas in formulas are written by recursion, lists of members are gone along by a loop.
#![tactic(auto)]

ghost use Rattle.std.specs.Prelude.{◌≡◌, ◌++◌, IsTrue, OnOk, IfOk, codes};
ghost use Rattle.tsl_terms.specs.FormulaTree.{formula_tree, formula_trees};
ghost use Rattle.tsl_terms.specs.Atoms.{members_are_made_of};
ghost use Rattle.formula_text.specs.FormulaText.{formula_text, members_text, others_text, atom_is_held, can_be_written};
ghost use Rattle.formula_text.specs.FormulaText.{constant_text, unary_text, binary_text, many_text};

mod laws;

use base_library::NoMemory;
pub use laws::whole_formulas_can_be_written;
use std::alloc::Global;
use term_text::{put_probe, put_update};
use tsl_terms::{
    AtomRef, BinaryOperator, Formula, FormulaList, FormulaParts, ManyOperator, Names, UnaryOperator,
};

/// The text of a formula.
pub fn formula_text(alloc: Global, names: &Names, formula: &Formula) -> Result<Vec<u8>, NoMemory>
    requires { IsTrue (can_be_written names.now (formula_tree formula.now)) }
    ensures { IfOk result (λ text. text.items ≡ formula_text names.now (formula_tree formula.now)) }
{
    let mut out = Vec::new(alloc);
    put_formula(&mut out, names, formula)?;
    Ok(out)
}

/// Appends a formula.
#[tactic(auto, using(crate::proofs::Written::left_written, crate::proofs::Written::right_written, crate::proofs::Written::members_written))]
#[cycle(formulas)]
fn put_formula(out: &mut Vec<u8>, names: &Names, formula: &Formula) -> Result<(), NoMemory>
    requires { IsTrue (can_be_written names.now (formula_tree formula.now)) }
    ensures { OnOk result
        (out.new.items ≡ out.old.items ++ formula_text names.now (formula_tree formula.now)) }
{
    match formula.parts() {
        FormulaParts::Constant(holds) => out.extend_from_slice(constant_text(holds)),
        FormulaParts::Atom(AtomRef::Test(probe)) => put_probe(out, names, probe),
        FormulaParts::Atom(AtomRef::Update(signal, term)) => put_update(out, names, signal, term),
        FormulaParts::Unary(operator, part) => put_under(out, names, unary_text(operator), part),
        FormulaParts::Binary(operator, left, right) => {
            put_under(out, names, b"(", left)?;
            put_under(out, names, binary_text(operator), right)?;
            out.extend_from_slice(b")")
        }
        FormulaParts::Many(operator, members) => {
            put_members(out, names, many_text(operator), members)
        }
    }
}

/// The word for a formula that holds everywhere or nowhere.
fn constant_text(holds: bool) -> &'static [u8]
    ensures { result.now ≡ constant_text holds }
{
    if holds { b"true" } else { b"false" }
}

/// What stands before a formula.
fn unary_text(operator: UnaryOperator) -> &'static [u8]
    ensures { result.now ≡ unary_text operator }
{
    match operator {
        UnaryOperator::Negation => b"!",
        UnaryOperator::Next => b"X ",
        UnaryOperator::Finally => b"F ",
        UnaryOperator::Globally => b"G ",
    }
}

/// What stands between two formulas.
fn binary_text(operator: BinaryOperator) -> &'static [u8]
    ensures { result.now ≡ binary_text operator }
{
    match operator {
        BinaryOperator::Implication => b" -> ",
        BinaryOperator::Equivalence => b" <-> ",
        BinaryOperator::Until => b" U ",
        BinaryOperator::WeakUntil => b" W ",
        BinaryOperator::Release => b" R ",
    }
}

/// What stands between each two of many formulas.
fn many_text(operator: ManyOperator) -> &'static [u8]
    ensures { result.now ≡ many_text operator }
{
    match operator {
        ManyOperator::Conjunction => b" && ",
        ManyOperator::Disjunction => b" || ",
    }
}

/// Appends an operator, a bracket or a connective, and the formula after it.
#[cycle(formulas)]
fn put_under(
    out: &mut Vec<u8>,
    names: &Names,
    operator: &[u8],
    formula: &Formula,
) -> Result<(), NoMemory>
    requires { IsTrue (can_be_written names.now (formula_tree formula.now)) }
    ensures { OnOk result (out.new.items
        ≡ out.old.items ++ operator.now ++ formula_text names.now (formula_tree formula.now)) }
{
    out.extend_from_slice(operator)?;
    put_formula(out, names, formula)
}

/// Appends the members in brackets, with a connective between each two.
#[tactic(auto, using(crate::proofs::Written::first_written, crate::proofs::Written::rest_written))]
#[cycle(formulas)]
fn put_members(
    out: &mut Vec<u8>,
    names: &Names,
    connective: &[u8],
    members: &FormulaList,
) -> Result<(), NoMemory>
    requires { IsTrue (members_are_made_of (atom_is_held names.now) (formula_trees members.now)) }
    ensures { OnOk result (out.new.items ≡ out.old.items
        ++ (codes "("
        ++ members_text names.now connective.now (formula_trees members.now) ++ codes ")")) }
{
    out.extend_from_slice(b"(")?;
    if let FormulaList::More(first, others) = members {
        put_formula(out, names, first)?;
        put_others(out, names, connective, others)?;
    }
    out.extend_from_slice(b")")
}

/// Appends further members, each with a connective before it.
#[tactic(auto, using(crate::proofs::Written::first_written, crate::proofs::Written::rest_written))]
#[cycle(formulas)]
fn put_others(
    out: &mut Vec<u8>,
    names: &Names,
    connective: &[u8],
    members: &FormulaList,
) -> Result<(), NoMemory>
    requires { IsTrue (members_are_made_of (atom_is_held names.now) (formula_trees members.now)) }
    ensures { OnOk result (out.new.items
        ≡ out.old.items ++ others_text names.now connective.now (formula_trees members.now)) }
{
    let mut rest = members;
    while let FormulaList::More(first, others) = rest {
        out.extend_from_slice(connective)?;
        put_formula(out, names, first)?;
        rest = others;
    }
    Ok(())
}
