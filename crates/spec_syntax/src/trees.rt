//! What is read, with names as they stand in the text.

ghost use Rattle.std.specs.Prelude.{◌≡◌, map, IfOk};
ghost use Rattle.spec_syntax.specs.Syntax.{listed_terms, listed_formulas};
ghost use Rattle.spec_syntax.specs.SyntaxView.{term_syntax, terms_syntax, formula_syntax};
ghost use Rattle.spec_syntax.specs.SyntaxView.{formulas_syntax};

use crate::syntax::Part;
use base_library::NoMemory;
use std::alloc::Global;
use tsl_terms::{BinaryOperator, ManyOperator, UnaryOperator};

/// A term: a name alone, or a name and its arguments.
#[cycle(read_terms)]
#[derive(Drop)]
pub enum ReadTerm<'a> {
    /// A name alone.
    Alone(&'a [u8]),
    /// A name and its arguments, which may be none.
    Applied(&'a [u8], ReadTerms<'a>),
    /// A term in brackets.
    Grouped(Box<ReadTerm<'a>>),
}

/// A list of terms, in order.
#[cycle(read_terms)]
pub enum ReadTerms<'a> {
    /// No term.
    Empty,
    /// A first term and those after it.
    More(Box<ReadTerm<'a>>, Box<ReadTerms<'a>>),
}

impl<'a> Drop for ReadTerms<'a> {
    #[cycle(read_terms)]
    fn drop(mut self) {
        loop {
            match self {
                ReadTerms::Empty => return,
                ReadTerms::More(_, rest) => self = Box::into_inner(rest),
            }
        }
    }
}

impl<'a> ReadTerms<'a> {
    /// The list of these terms, in their order.
    #[tactic(auto, using(crate::proofs::TreeLemmas::terms_front_none, crate::proofs::TreeLemmas::with_front_push))]
    pub fn from_vec(alloc: Global, mut terms: Vec<ReadTerm<'a>>) -> Result<ReadTerms<'a>, NoMemory>
        ensures { IfOk result (λ list.
            terms_syntax list ≡ listed_terms (map term_syntax terms.entry.items)) }
    {
        let mut list = ReadTerms::Empty;
        while let Some(term) = terms.pop() {
            list = ReadTerms::More(Box::new(alloc, term)?, Box::new(alloc, list)?);
        }
        Ok(list)
    }
}

/// A formula.
#[cycle(read_formulas)]
#[derive(Drop)]
pub enum ReadFormula<'a> {
    /// `true`
    True,
    /// `false`
    False,
    /// A name alone: the test of a Boolean signal.
    Bare(&'a [u8]),
    /// A predicate and its arguments, which may be none.
    Tested(&'a [u8], ReadTerms<'a>),
    /// An update of a signal by a term.
    Updated(&'a [u8], ReadTerm<'a>),
    /// A formula in brackets.
    Grouped(Box<ReadFormula<'a>>),
    /// An operator and its operand.
    Under(UnaryOperator, Box<ReadFormula<'a>>),
    /// An operator between its operands.
    Between(BinaryOperator, Box<ReadFormula<'a>>, Box<ReadFormula<'a>>),
    /// The operands of `&&`, or of `||`.
    Joined(ManyOperator, ReadFormulas<'a>),
}

/// A list of formulas, in order.
#[cycle(read_formulas)]
pub enum ReadFormulas<'a> {
    /// No formula.
    Empty,
    /// A first formula and those after it.
    More(Box<ReadFormula<'a>>, Box<ReadFormulas<'a>>),
}

impl<'a> Drop for ReadFormulas<'a> {
    #[cycle(read_formulas)]
    fn drop(mut self) {
        loop {
            match self {
                ReadFormulas::Empty => return,
                ReadFormulas::More(_, rest) => self = Box::into_inner(rest),
            }
        }
    }
}

impl<'a> ReadFormulas<'a> {
    /// The list of these formulas, in their order.
    #[tactic(auto, using(crate::proofs::TreeLemmas::formulas_front_none, crate::proofs::TreeLemmas::with_front_push))]
    pub fn from_vec(
        alloc: Global,
        mut formulas: Vec<ReadFormula<'a>>,
    ) -> Result<ReadFormulas<'a>, NoMemory>
        ensures { IfOk result
            (λ list. formulas_syntax list
            ≡ listed_formulas (map formula_syntax formulas.entry.items)) }
    {
        let mut list = ReadFormulas::Empty;
        while let Some(formula) = formulas.pop() {
            list = ReadFormulas::More(Box::new(alloc, formula)?, Box::new(alloc, list)?);
        }
        Ok(list)
    }
}

/// A section: its formulas, and the list that they go to.
#[derive(Drop)]
pub struct ReadSection<'a> {
    /// The list that its formulas go to.
    pub part: Part,
    /// Its formulas, in order.
    pub formulas: Vec<ReadFormula<'a>>,
}

/// A definition as it is read: the defined name, its parameters in order, and what it stands for.
#[derive(Drop)]
pub struct ReadEquation<'a> {
    /// The defined name.
    pub name: &'a [u8],
    /// Its parameters, in order.
    pub parameters: Vec<&'a [u8]>,
    /// The formula that it stands for.
    pub body: ReadFormula<'a>,
}

/// What a text is made of.
#[derive(Drop)]
pub enum ReadDeclaration<'a> {
    /// A section.
    Section(ReadSection<'a>),
    /// A definition.
    Definition(ReadEquation<'a>),
}
