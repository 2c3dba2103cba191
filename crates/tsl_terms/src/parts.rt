//! Formulas by their outermost operator.

ghost use Rattle.std.specs.Prelude.{◌≡◌};
ghost use Rattle.tsl_terms.specs.declared.formula.Formula.{size-Formula};
ghost use Rattle.tsl_terms.specs.FormulaTree.{formula_tree};
ghost use Rattle.tsl_terms.specs.FormulaParts.{parts_tree, AreSmaller};

use crate::atom::AtomRef;
use crate::formula::{Formula, FormulaList};
use crate::operator::{BinaryOperator, ManyOperator, UnaryOperator};

/// A formula by its outermost operator, lent from it.
#[derive(Clone, Copy)]
pub enum FormulaParts<'a> {
    /// It holds everywhere, or nowhere.
    Constant(bool),
    /// A test or an update.
    Atom(AtomRef<'a>),
    /// An operator and the formula after it.
    Unary(UnaryOperator, &'a Formula),
    /// An operator, and the formulas to its left and its right.
    Binary(BinaryOperator, &'a Formula, &'a Formula),
    /// An operator and the formulas that it joins.
    Many(ManyOperator, &'a FormulaList),
}

impl Formula {
    /// The formula by its outermost operator: five cases, where the formula has one for each operator. Its parts are
    /// smaller, so that a call on each part ends.
    pub fn parts(&self) -> FormulaParts<'_>
        ensures tree { parts_tree result ≡ formula_tree self.now }
        ensures smaller { AreSmaller result (size-Formula self.now) }
    {
        match self {
            Formula::True => FormulaParts::Constant(true),
            Formula::False => FormulaParts::Constant(false),
            Formula::Test(probe) => FormulaParts::Atom(AtomRef::Test(probe)),
            Formula::Update(signal, term) => FormulaParts::Atom(AtomRef::Update(*signal, term)),
            Formula::Not(part) => FormulaParts::Unary(UnaryOperator::Negation, part),
            Formula::All(members) => FormulaParts::Many(ManyOperator::Conjunction, members),
            Formula::Any(members) => FormulaParts::Many(ManyOperator::Disjunction, members),
            Formula::Implies(left, right) => {
                FormulaParts::Binary(BinaryOperator::Implication, left, right)
            }
            Formula::Iff(left, right) => {
                FormulaParts::Binary(BinaryOperator::Equivalence, left, right)
            }
            Formula::Next(part) => FormulaParts::Unary(UnaryOperator::Next, part),
            Formula::Finally(part) => FormulaParts::Unary(UnaryOperator::Finally, part),
            Formula::Globally(part) => FormulaParts::Unary(UnaryOperator::Globally, part),
            Formula::Until(left, right) => FormulaParts::Binary(BinaryOperator::Until, left, right),
            Formula::Weak(left, right) => {
                FormulaParts::Binary(BinaryOperator::WeakUntil, left, right)
            }
            Formula::Release(left, right) => {
                FormulaParts::Binary(BinaryOperator::Release, left, right)
            }
        }
    }
}
