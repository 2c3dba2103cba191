//! Reading formulas.

ghost use Rattle.std.specs.Prelude.{◌≡◌, map, option_map, IfOk};
ghost use Rattle.reader_combinators.specs.Readers.{below, members};
ghost use Rattle.spec_syntax.specs.Syntax.{between, join};
ghost use Rattle.spec_syntax.specs.internal.Forms.{reader_of, form_with};
ghost use Rattle.spec_syntax.specs.Reading.{lower, bracketed_formula, atom_named, update_with};
ghost use Rattle.spec_syntax.specs.Reading.{atom_with, unary_in, prefix_with};
ghost use Rattle.spec_syntax.specs.Reading.{further, operand_with, chain_after, begins_with_arrow};
ghost use Rattle.spec_syntax.specs.Reading.{operator_of, arrow_after};
ghost use Rattle.spec_syntax.specs.Reading.{right_after, temporal_in, formula_after};
ghost use Rattle.spec_syntax.specs.SyntaxView.{terminals_view, formula_syntax};
ghost use Rattle.spec_syntax.specs.internal.InnerView.{arguments_syntax};
ghost use Rattle.spec_syntax.specs.SyntaxView.{Reads};
ghost use Rattle.spec_syntax.specs.internal.InnerView.{listed_syntax, FormulaReader};

use crate::fault::ReadFault;
use crate::syntax::{ArrowKind, Closer, Word};
use crate::terminal::{Rest, Terminal};
use crate::terms::{Answer, after_name, close, level_below, term_with};
use crate::trees::{ReadFormula, ReadFormulas, ReadTerm, ReadTerms};
use base_library::NoMemory;
use std::alloc::Global;
use tsl_terms::{BinaryOperator, ManyOperator, UnaryOperator};
use tsl_text::TokenKind;

/// A form of the grammar that begins with a prefix.
#[derive(Clone, Copy)]
pub(crate) enum Form {
    /// A prefix and nothing else.
    Prefix,
    /// The right side of an arrow.
    Right(ArrowKind),
    /// A whole formula.
    Formula,
}

/// The operator at the front that stands before its operand.
fn unary_in(xs: &[Terminal]) -> Option<UnaryOperator>
    ensures { result ≡ unary_in (terminals_view xs.now) }
{
    match xs {
        [Terminal::Mark(TokenKind::Not), ..] => Some(UnaryOperator::Negation),
        [Terminal::Word(Word::X), ..] => Some(UnaryOperator::Next),
        [Terminal::Word(Word::F), ..] => Some(UnaryOperator::Finally),
        [Terminal::Word(Word::G), ..] => Some(UnaryOperator::Globally),
        _ => None,
    }
}

/// The operator `U`, `W` or `R` at the front.
fn temporal_in(xs: &[Terminal]) -> Option<BinaryOperator>
    ensures { result ≡ temporal_in (terminals_view xs.now) }
{
    match xs {
        [Terminal::Word(Word::U), ..] => Some(BinaryOperator::Until),
        [Terminal::Word(Word::W), ..] => Some(BinaryOperator::WeakUntil),
        [Terminal::Word(Word::R), ..] => Some(BinaryOperator::Release),
        _ => None,
    }
}

/// The terminals after the operator at the front.
#[tactic(auto, unfolding(crate::specs::Reading::further, crate::specs::Reading::further_from))]
fn after_operator<'a, 'b>(op: ManyOperator, xs: &'b [Terminal<'a>]) -> Option<&'b [Terminal<'a>]>
    ensures { (operand : FormulaReader) →
        further op operand (terminals_view xs.now)
        ≡ option_map (λ rest. operand (terminals_view rest.now)) result }
{
    match op {
        ManyOperator::Conjunction => match xs {
            [Terminal::Mark(TokenKind::And), rest @ ..] => Some(rest),
            _ => None,
        },
        ManyOperator::Disjunction => match xs {
            [Terminal::Mark(TokenKind::Or), rest @ ..] => Some(rest),
            _ => None,
        },
    }
}

/// Whether this arrow stands at the front.
fn begins_with_arrow(kind: ArrowKind, xs: &[Terminal]) -> bool
    ensures { result ≡ begins_with_arrow kind (terminals_view xs.now) }
{
    match kind {
        ArrowKind::Single => matches!(xs, [Terminal::Mark(TokenKind::Arrow), ..]),
        ArrowKind::Double => matches!(xs, [Terminal::Mark(TokenKind::BothArrow), ..]),
    }
}

/// The operator that an arrow stands for.
fn operator_of(kind: ArrowKind) -> BinaryOperator
    ensures { result ≡ operator_of kind }
{
    match kind {
        ArrowKind::Single => BinaryOperator::Implication,
        ArrowKind::Double => BinaryOperator::Equivalence,
    }
}

/// A name with what follows it.
fn atom_named<'a>(
    alloc: Global,
    name: &'a [u8],
    arguments: Option<Vec<ReadTerm<'a>>>,
) -> Result<ReadFormula<'a>, NoMemory>
    ensures { IfOk result (λ formula.
        formula_syntax formula ≡ atom_named name.now (arguments_syntax arguments.entry)) }
{
    match arguments {
        None => Ok(ReadFormula::Bare(name)),
        Some(terms) => Ok(ReadFormula::Tested(name, ReadTerms::from_vec(alloc, terms)?)),
    }
}

/// Two formulas with an operator between them.
fn between<'a>(
    alloc: Global,
    op: BinaryOperator,
    left: ReadFormula<'a>,
    right: ReadFormula<'a>,
) -> Result<ReadFormula<'a>, NoMemory>
    ensures { IfOk result (λ formula. formula_syntax formula
        ≡ between op (formula_syntax left.entry) (formula_syntax right.entry)) }
{
    Ok(ReadFormula::Between(op, Box::new(alloc, left)?, Box::new(alloc, right)?))
}

/// The operands of `&&` or of `||` as one formula: one operand stands for itself.
fn join<'a>(
    alloc: Global,
    op: ManyOperator,
    first: ReadFormula<'a>,
    others: Vec<ReadFormula<'a>>,
) -> Result<ReadFormula<'a>, NoMemory>
    ensures { IfOk result (λ formula. formula_syntax formula
        ≡ join op (formula_syntax first.entry) (map formula_syntax others.entry.items)) }
{
    if others.is_empty() {
        return Ok(first);
    }
    let others = Box::new(alloc, ReadFormulas::from_vec(alloc, others)?)?;
    Ok(ReadFormula::Joined(op, ReadFormulas::More(Box::new(alloc, first)?, others)))
}

/// An update after its opening bracket.
#[tactic(auto, unfolding(crate::specs::Reading::update_with))]
fn update_with<'a, 'b>(
    alloc: Global,
    levels_left: u32,
    xs: &'b [Terminal<'a>],
) -> Answer<'a, 'b, ReadFormula<'a>>
    ensures { Reads formula_syntax (update_with (lower levels_left)) xs.now result }
{
    match xs {
        [
            Terminal::Free(name),
            Terminal::Mark(TokenKind::LeftArrow),
            rest @ ..,
        ] => {
            let (term, rest) = term_with(alloc, levels_left, rest)?;
            let (_, rest) = close(Closer::Square, rest)?;
            Ok((ReadFormula::Updated(name, term), rest))
        }
        [Terminal::Free(_), rest @ ..] => Err(ReadFault::Form(rest.len())),
        _ => Err(ReadFault::Form(xs.len())),
    }
}

/// What a form of the level below reads after the first terminal, which is a level too many where
/// there is no level below.
#[cycle(read)]
fn form_below<'a, 'b>(
    alloc: Global,
    levels_left: u32,
    form: Form,
    xs: &'b [Terminal<'a>],
) -> Answer<'a, 'b, ReadFormula<'a>>
    ensures { Reads formula_syntax (below (lower levels_left) (reader_of form)) xs.now result }
{
    let below = level_below(levels_left, xs)?;
    match xs {
        [] => Err(ReadFault::Form(0)),
        [_, rest @ ..] => form_with(alloc, below, form, rest),
    }
}

/// A form above this level.
#[cycle(read)]
#[tactic(auto, unfolding(crate::specs::Reading::above, crate::specs::Reading::right_with, crate::specs::Reading::formula_with))]
pub(crate) fn form_with<'a, 'b>(
    alloc: Global,
    levels_left: u32,
    form: Form,
    xs: &'b [Terminal<'a>],
) -> Answer<'a, 'b, ReadFormula<'a>>
    ensures { Reads formula_syntax (form_with form (lower levels_left)) xs.now result }
{
    let (first, rest) = prefix_with(alloc, levels_left, xs)?;
    match form {
        Form::Prefix => Ok((first, rest)),
        Form::Right(kind) => right_after(alloc, levels_left, kind, first, rest),
        Form::Formula => formula_after(alloc, levels_left, first, rest),
    }
}

/// A formula in brackets, of which the opening one stands at the front.
#[cycle(read)]
fn bracketed_formula<'a, 'b>(
    alloc: Global,
    levels_left: u32,
    xs: &'b [Terminal<'a>],
) -> Answer<'a, 'b, ReadFormula<'a>>
    ensures { Reads formula_syntax (below (lower levels_left) bracketed_formula) xs.now result }
{
    let (formula, rest) = form_below(alloc, levels_left, Form::Formula, xs)?;
    let (_, rest) = close(Closer::Round, rest)?;
    Ok((formula, rest))
}

/// An atom.
#[cycle(read)]
#[tactic(auto, unfolding(crate::specs::Reading::atom_with))]
fn atom_with<'a, 'b>(
    alloc: Global,
    levels_left: u32,
    xs: &'b [Terminal<'a>],
) -> Answer<'a, 'b, ReadFormula<'a>>
    ensures { Reads formula_syntax (atom_with (lower levels_left)) xs.now result }
{
    match xs {
        [Terminal::Word(Word::True), rest @ ..] => Ok((ReadFormula::True, rest)),
        [Terminal::Word(Word::False), rest @ ..] => Ok((ReadFormula::False, rest)),
        [Terminal::Mark(TokenKind::OpenRound), ..] => {
            let (formula, rest) = bracketed_formula(alloc, levels_left, xs)?;
            Ok((ReadFormula::Grouped(Box::new(alloc, formula)?), rest))
        }
        [Terminal::Mark(TokenKind::OpenSquare), rest @ ..] => update_with(alloc, levels_left, rest),
        [Terminal::Free(name), rest @ ..] => {
            let (arguments, rest) = after_name(alloc, levels_left, rest)?;
            let atom = atom_named(alloc, name, arguments)?;
            Ok((atom, rest))
        }
        _ => Err(ReadFault::Form(xs.len())),
    }
}

/// The operand of an operator that stands in front of it, or an atom where none does.
#[cycle(read)]
#[tactic(auto, unfolding(crate::specs::Reading::prefix_with, crate::specs::Reading::prefix_from))]
fn prefix_with<'a, 'b>(
    alloc: Global,
    levels_left: u32,
    xs: &'b [Terminal<'a>],
) -> Answer<'a, 'b, ReadFormula<'a>>
    ensures { Reads formula_syntax (prefix_with (lower levels_left)) xs.now result }
{
    match unary_in(xs) {
        Some(op) => {
            let (operand, rest) = form_below(alloc, levels_left, Form::Prefix, xs)?;
            Ok((ReadFormula::Under(op, Box::new(alloc, operand)?), rest))
        }
        None => atom_with(alloc, levels_left, xs),
    }
}

/// An operand of `&&`, which is a prefix, or of `||`.
#[cycle(read)]
#[tactic(auto, unfolding(crate::specs::Reading::and_with))]
fn operand_with<'a, 'b>(
    alloc: Global,
    levels_left: u32,
    op: ManyOperator,
    xs: &'b [Terminal<'a>],
) -> Answer<'a, 'b, ReadFormula<'a>>
    ensures { Reads formula_syntax (operand_with op (lower levels_left)) xs.now result }
{
    let (first, rest) = prefix_with(alloc, levels_left, xs)?;
    match op {
        ManyOperator::Conjunction => Ok((first, rest)),
        ManyOperator::Disjunction => {
            chain_after(alloc, levels_left, ManyOperator::Conjunction, first, rest)
        }
    }
}

/// The further operands.
#[cycle(read)]
#[tactic(auto, using(crate::proofs::ReadLoops::members_read, crate::proofs::ReadLoops::further_shorter, crate::proofs::ReadLoops::further_shrinks))]
fn operands<'a, 'b>(
    alloc: Global,
    levels_left: u32,
    op: ManyOperator,
    xs: &'b [Terminal<'a>],
) -> Answer<'a, 'b, Vec<ReadFormula<'a>>>
    ensures { Reads listed_syntax
        (members (further op (operand_with op (lower levels_left)))) xs.now result }
{
    let mut operands = Vec::new(alloc);
    let mut left = Rest { terminals: xs };
    while let Some(rest) = after_operator(op, left.terminals) {
        let (operand, rest) = operand_with(alloc, levels_left, op, rest)?;
        operands.push(operand)?;
        left = Rest { terminals: rest };
    }
    Ok((operands, left.terminals))
}

/// The operands of `&&` or of `||` after the first one.
#[cycle(read)]
#[tactic(auto, unfolding(crate::specs::Reading::chain_after))]
fn chain_after<'a, 'b>(
    alloc: Global,
    levels_left: u32,
    op: ManyOperator,
    first: ReadFormula<'a>,
    xs: &'b [Terminal<'a>],
) -> Answer<'a, 'b, ReadFormula<'a>>
    ensures { Reads formula_syntax
        (chain_after op (operand_with op (lower levels_left)) (formula_syntax first.entry)) xs.now result }
{
    let (operands, rest) = operands(alloc, levels_left, op, xs)?;
    let formula = join(alloc, op, first, operands)?;
    Ok((formula, rest))
}

/// An arrow and its right side, where they follow.
#[cycle(read)]
#[tactic(auto, unfolding(crate::specs::Reading::arrow_after, crate::specs::Reading::arrow_from))]
fn arrow_after<'a, 'b>(
    alloc: Global,
    levels_left: u32,
    kind: ArrowKind,
    left: ReadFormula<'a>,
    xs: &'b [Terminal<'a>],
) -> Answer<'a, 'b, ReadFormula<'a>>
    ensures { Reads formula_syntax
        (arrow_after (lower levels_left) kind (formula_syntax left.entry)) xs.now result }
{
    if !begins_with_arrow(kind, xs) {
        return Ok((left, xs));
    }
    let (right, rest) = form_below(alloc, levels_left, Form::Right(kind), xs)?;
    let formula = between(alloc, operator_of(kind), left, right)?;
    Ok((formula, rest))
}

/// The form on the right of an arrow, whose first prefix was read.
#[cycle(read)]
#[tactic(auto, unfolding(crate::specs::Reading::or_after, crate::specs::Reading::imp_after, crate::specs::Reading::iff_after))]
fn right_after<'a, 'b>(
    alloc: Global,
    levels_left: u32,
    kind: ArrowKind,
    first: ReadFormula<'a>,
    xs: &'b [Terminal<'a>],
) -> Answer<'a, 'b, ReadFormula<'a>>
    ensures { Reads formula_syntax
        (right_after kind (lower levels_left) (formula_syntax first.entry)) xs.now result }
{
    let (formula, rest) = chain_after(alloc, levels_left, ManyOperator::Conjunction, first, xs)?;
    let (formula, rest) = chain_after(
        alloc,
        levels_left,
        ManyOperator::Disjunction,
        formula,
        rest,
    )?;
    let (formula, rest) = arrow_after(alloc, levels_left, ArrowKind::Single, formula, rest)?;
    match kind {
        ArrowKind::Single => Ok((formula, rest)),
        ArrowKind::Double => arrow_after(alloc, levels_left, ArrowKind::Double, formula, rest),
    }
}

/// A whole formula whose first prefix was read.
#[cycle(read)]
#[tactic(auto, unfolding(crate::specs::Reading::formula_after, crate::specs::Reading::formula_from))]
fn formula_after<'a, 'b>(
    alloc: Global,
    levels_left: u32,
    first: ReadFormula<'a>,
    xs: &'b [Terminal<'a>],
) -> Answer<'a, 'b, ReadFormula<'a>>
    ensures { Reads formula_syntax
        (formula_after (lower levels_left) (formula_syntax first.entry)) xs.now result }
{
    let Some(op) = temporal_in(xs) else {
        return right_after(alloc, levels_left, ArrowKind::Double, first, xs);
    };
    match xs {
        [] => Err(ReadFault::Form(0)),
        [_, rest @ ..] => {
            let (right, rest) = prefix_with(alloc, levels_left, rest)?;
            let formula = between(alloc, op, first, right)?;
            Ok((formula, rest))
        }
    }
}
