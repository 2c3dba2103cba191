//! Reading sections.

ghost use Rattle.std.specs.Prelude.{◌≡◌, ◌<◌, ℕ, List, [], ◌∷◌, ◌++◌, length, map, None, Some, Ok, IfOk};
ghost use Rattle.std.specs.Prelude.{IfErr, IfSome, IfNone};
ghost use Rattle.spec_syntax.specs.Syntax.{FormulaSyntax, the_section};
ghost use Rattle.spec_syntax.specs.Reading.{item, begins_item, open_items, item_last, formulas, items, side};
ghost use Rattle.spec_syntax.specs.Reading.{section_at, section, sections};
ghost use Rattle.spec_syntax.specs.Reading.{name_at, parameters, body, definition};
ghost use Rattle.spec_syntax.specs.Reading.{declaration_at, declaration, declarations};
ghost use Rattle.spec_syntax.specs.SyntaxView.{terminals_view, section_syntax};
ghost use Rattle.spec_syntax.specs.SyntaxView.{formula_syntax, equation_syntax};
ghost use Rattle.spec_syntax.specs.SyntaxView.{declaration_syntax};
ghost use Rattle.spec_syntax.specs.SyntaxView.{declarations_syntax};
ghost use Rattle.reader_combinators.specs.Readers.{members, map_read};
ghost use Rattle.spec_syntax.specs.internal.InnerView.{listed_syntax, name_text, names_syntax};
ghost use Rattle.spec_syntax.specs.SyntaxView.{sections_syntax};
ghost use Rattle.spec_syntax.specs.SyntaxView.{Reads};
ghost use Rattle.spec_syntax.specs.internal.InnerView.{HasFaultOfMember};

use crate::fault::ReadFault;
use crate::formulas::{Form, form_with};
use crate::syntax::{Closer, Part, Word};
use crate::terminal::{Rest, Terminal};
use crate::terms::{Answer, close};
use crate::trees::{ReadDeclaration, ReadEquation, ReadFormula, ReadSection};
use std::alloc::Global;
use tsl_text::TokenKind;

/// Whether an item begins here.
fn begins_item(xs: &[Terminal]) -> bool
    ensures { result ≡ begins_item (terminals_view xs.now) }
{
    !matches!(xs, [] | [Terminal::Mark(TokenKind::CloseBrace), ..])
}

/// The formula at the front, unless the items end here.
#[tactic(auto, using(crate::proofs::ReadLoops::item_is, crate::proofs::ReadLoops::no_item_is))]
fn item_at<'a, 'b>(
    alloc: Global,
    levels_left: u32,
    xs: &'b [Terminal<'a>],
) -> Result<Option<(ReadFormula<'a>, &'b [Terminal<'a>])>, ReadFault>
    ensures some { IfOk result (λ found. IfSome found (λ read. (fs : List FormulaSyntax) →
        item levels_left (open_items fs) (terminals_view xs.now)
        ≡ Some (Ok (item_last (fs ++ formula_syntax read.0 ∷ []), terminals_view read.1.now)))) }
    ensures none { IfOk result (λ found. IfNone found ((fs : List FormulaSyntax) →
        item levels_left (open_items fs) (terminals_view xs.now) ≡ None)) }
    ensures fault { IfErr result (λ fault. (fs : List FormulaSyntax) →
        HasFaultOfMember (item levels_left (open_items fs) (terminals_view xs.now)) fault) }
{
    if !begins_item(xs) {
        return Ok(None);
    }
    let read = form_with(alloc, levels_left, Form::Formula, xs)?;
    Ok(Some(read))
}

/// The terminals after a semicolon at the front.
#[tactic(auto, unfolding(crate::specs::Reading::item))]
fn after_semicolon<'a, 'b>(xs: &'b [Terminal<'a>]) -> Option<&'b [Terminal<'a>]>
    ensures some { IfSome result (λ rest. (levels_left : ℕ) (fs : List FormulaSyntax) →
        item levels_left (item_last fs) (terminals_view xs.now)
        ≡ Some (Ok (open_items fs, terminals_view rest.now))) }
    ensures none { IfNone result
        ((levels_left : ℕ) (fs : List FormulaSyntax) → item levels_left (item_last fs) (terminals_view xs.now)
        ≡ None) }
    ensures shorter { IfSome result (λ rest. length rest.now < length xs.now) }
{
    match xs {
        [Terminal::Mark(TokenKind::Semicolon), rest @ ..] => Some(rest),
        _ => None,
    }
}

/// The formulas up to the brace that closes them.
#[tactic(auto, unfolding(crate::specs::Reading::formulas), using(crate::proofs::ReadLoops::items_end, crate::proofs::ReadLoops::items_shorten))]
fn formulas<'a, 'b>(
    alloc: Global,
    levels_left: u32,
    xs: &'b [Terminal<'a>],
) -> Answer<'a, 'b, Vec<ReadFormula<'a>>>
    ensures { Reads listed_syntax (formulas levels_left) xs.now result }
{
    let mut formulas = Vec::new(alloc);
    let mut left = Rest { terminals: xs };
    while let Some((formula, rest)) = item_at(alloc, levels_left, left.terminals)? {
        formulas.push(formula)?;
        match after_semicolon(rest) {
            Some(rest) => left = Rest { terminals: rest },
            None => return Ok((formulas, rest)),
        }
    }
    Ok((formulas, left.terminals))
}

/// The items of a section between their braces.
#[tactic(auto, unfolding(crate::specs::Reading::items))]
fn items<'a, 'b>(
    alloc: Global,
    levels_left: u32,
    part: Part,
    xs: &'b [Terminal<'a>],
) -> Answer<'a, 'b, ReadSection<'a>>
    ensures { Reads section_syntax (items levels_left part) xs.now result }
{
    match xs {
        [Terminal::Mark(TokenKind::OpenBrace), rest @ ..] => {
            let (formulas, rest) = formulas(alloc, levels_left, rest)?;
            let (_, rest) = close(Closer::Brace, rest)?;
            Ok((ReadSection { part, formulas }, rest))
        }
        _ => Err(ReadFault::Form(xs.len())),
    }
}

/// A section after its first word.
#[tactic(auto, unfolding(crate::specs::Reading::side))]
fn side<'a, 'b>(
    alloc: Global,
    levels_left: u32,
    assumed: Part,
    guaranteed: Part,
    xs: &'b [Terminal<'a>],
) -> Answer<'a, 'b, ReadSection<'a>>
    ensures { Reads section_syntax (side levels_left assumed guaranteed) xs.now result }
{
    match xs {
        [Terminal::Word(Word::Assume), rest @ ..] => items(alloc, levels_left, assumed, rest),
        [Terminal::Word(Word::Guarantee), rest @ ..] => items(alloc, levels_left, guaranteed, rest),
        _ => Err(ReadFault::Form(xs.len())),
    }
}

/// A section.
#[tactic(auto, unfolding(crate::specs::Reading::section_at))]
fn section_at<'a, 'b>(
    alloc: Global,
    levels_left: u32,
    xs: &'b [Terminal<'a>],
) -> Answer<'a, 'b, ReadSection<'a>>
    ensures { Reads section_syntax (section_at levels_left) xs.now result }
{
    match xs {
        [Terminal::Word(Word::Always), rest @ ..] => {
            side(
                alloc,
                levels_left,
                Part::AssumeAlways,
                Part::GuaranteeAlways,
                rest,
            )
        }
        [Terminal::Word(Word::Initially), rest @ ..] => {
            side(
                alloc,
                levels_left,
                Part::AssumeFirst,
                Part::GuaranteeFirst,
                rest,
            )
        }
        _ => side(
            alloc,
            levels_left,
            Part::AssumeFirst,
            Part::GuaranteeFirst,
            xs,
        ),
    }
}

/// The section at the front, unless the text ends here.
#[tactic(auto, unfolding(crate::specs::Reading::section))]
fn section<'a, 'b>(
    alloc: Global,
    levels_left: u32,
    xs: &'b [Terminal<'a>],
) -> Result<Option<(ReadSection<'a>, &'b [Terminal<'a>])>, ReadFault>
    ensures some { IfOk result (λ found. IfSome found (λ read. section levels_left (terminals_view xs.now)
        ≡ Some (Ok (section_syntax read.0, terminals_view read.1.now)))) }
    ensures none { IfOk result (λ found.
        IfNone found (section levels_left (terminals_view xs.now) ≡ None)) }
    ensures fault { IfErr result (HasFaultOfMember (section levels_left (terminals_view xs.now))) }
{
    if xs.is_empty() {
        return Ok(None);
    }
    let read = section_at(alloc, levels_left, xs)?;
    Ok(Some(read))
}

/// The sections of a text. It answers an `Ok` only where the text is sections and nothing else.
#[tactic(auto, unfolding(crate::specs::Reading::sections), using(crate::proofs::ReadLoops::members_read, crate::proofs::ReadLoops::section_shorter, crate::proofs::ExactSections::section_shrinks))]
pub fn sections<'a, 'b>(
    alloc: Global,
    levels_left: u32,
    xs: &'b [Terminal<'a>],
) -> Answer<'a, 'b, Vec<ReadSection<'a>>>
    ensures { Reads sections_syntax (sections levels_left) xs.now result }
{
    let mut sections = Vec::new(alloc);
    let mut left = Rest { terminals: xs };
    while let Some((section, rest)) = section(alloc, levels_left, left.terminals)? {
        sections.push(section)?;
        left = Rest { terminals: rest };
    }
    Ok((sections, left.terminals))
}

/// The name at the front, unless none stands there.
#[tactic(auto, unfolding(crate::specs::Reading::name_at))]
fn name_at<'a, 'b>(xs: &'b [Terminal<'a>]) -> Option<(&'a [u8], &'b [Terminal<'a>])>
    ensures some { IfSome result (λ read. name_at (terminals_view xs.now)
        ≡ Some (Ok (read.0.now, terminals_view read.1.now))) }
    ensures none { IfNone result (name_at (terminals_view xs.now) ≡ None) }
{
    match xs {
        [Terminal::Free(name), rest @ ..] => Some((*name, rest)),
        _ => None,
    }
}

/// The names at the front.
#[tactic(auto, using(crate::proofs::ReadLoops::members_read, crate::proofs::ReadLoops::name_shorter, crate::proofs::ExactDeclarations::name_shrinks))]
fn names<'a, 'b>(alloc: Global, xs: &'b [Terminal<'a>]) -> Answer<'a, 'b, Vec<&'a [u8]>>
    ensures { Reads names_syntax (members name_at) xs.now result }
{
    let mut names = Vec::new(alloc);
    let mut left = Rest { terminals: xs };
    while let Some((name, rest)) = name_at(left.terminals) {
        names.push(name)?;
        left = Rest { terminals: rest };
    }
    Ok((names, left.terminals))
}

/// The parameters of a definition, and the equals sign behind them.
#[tactic(auto, unfolding(crate::specs::Reading::parameters))]
fn parameters<'a, 'b>(alloc: Global, xs: &'b [Terminal<'a>]) -> Answer<'a, 'b, Vec<&'a [u8]>>
    ensures { Reads names_syntax parameters xs.now result }
{
    let (names, rest) = names(alloc, xs)?;
    let (_, rest) = close(Closer::Equals, rest)?;
    Ok((names, rest))
}

/// What a definition stands for, and the semicolon behind it.
#[tactic(auto, unfolding(crate::specs::Reading::body, crate::specs::Reading::above))]
fn body<'a, 'b>(
    alloc: Global,
    levels_left: u32,
    xs: &'b [Terminal<'a>],
) -> Answer<'a, 'b, ReadFormula<'a>>
    ensures { Reads formula_syntax (body levels_left) xs.now result }
{
    let (formula, rest) = form_with(alloc, levels_left, Form::Formula, xs)?;
    let (_, rest) = close(Closer::Semicolon, rest)?;
    Ok((formula, rest))
}

/// A definition after its name.
#[tactic(auto, unfolding(crate::specs::Reading::definition))]
fn definition<'a, 'b>(
    alloc: Global,
    levels_left: u32,
    name: &'a [u8],
    xs: &'b [Terminal<'a>],
) -> Answer<'a, 'b, ReadEquation<'a>>
    ensures { Reads equation_syntax (definition levels_left name.now) xs.now result }
{
    let (parameters, rest) = parameters(alloc, xs)?;
    let (body, rest) = body(alloc, levels_left, rest)?;
    let definition = ReadEquation {
        name,
        parameters,
        body,
    };
    Ok((definition, rest))
}

/// A section, as a declaration.
fn section_declared<'a, 'b>(
    alloc: Global,
    levels_left: u32,
    xs: &'b [Terminal<'a>],
) -> Answer<'a, 'b, ReadDeclaration<'a>>
    ensures { Reads declaration_syntax (λ ys. map_read the_section (section_at levels_left ys)) xs.now result }
{
    let (section, rest) = section_at(alloc, levels_left, xs)?;
    Ok((ReadDeclaration::Section(section), rest))
}

/// A definition where a name begins, and else a section.
#[tactic(auto, unfolding(crate::specs::Reading::declaration_at))]
fn declaration_at<'a, 'b>(
    alloc: Global,
    levels_left: u32,
    xs: &'b [Terminal<'a>],
) -> Answer<'a, 'b, ReadDeclaration<'a>>
    ensures { Reads declaration_syntax (declaration_at levels_left) xs.now result }
{
    match xs {
        [Terminal::Free(name), rest @ ..] => {
            let (definition, rest) = definition(alloc, levels_left, *name, rest)?;
            Ok((ReadDeclaration::Definition(definition), rest))
        }
        _ => section_declared(alloc, levels_left, xs),
    }
}

/// The declaration at the front, unless the text ends here.
#[tactic(auto, unfolding(crate::specs::Reading::declaration))]
fn declaration<'a, 'b>(
    alloc: Global,
    levels_left: u32,
    xs: &'b [Terminal<'a>],
) -> Result<Option<(ReadDeclaration<'a>, &'b [Terminal<'a>])>, ReadFault>
    ensures some { IfOk result (λ found. IfSome found (λ read.
        declaration levels_left (terminals_view xs.now)
        ≡ Some (Ok (declaration_syntax read.0, terminals_view read.1.now)))) }
    ensures none { IfOk result (λ found.
        IfNone found (declaration levels_left (terminals_view xs.now) ≡ None)) }
    ensures fault { IfErr result
        (HasFaultOfMember (declaration levels_left (terminals_view xs.now))) }
{
    if xs.is_empty() {
        return Ok(None);
    }
    let read = declaration_at(alloc, levels_left, xs)?;
    Ok(Some(read))
}

/// The sections and definitions of a text, in order. It answers an `Ok` only where the text is these and nothing
/// else. An `Err` has the first fault of the form or of a level above `levels_left`, by how many terminals are left
/// from it on.
#[tactic(auto, unfolding(crate::specs::Reading::declarations), using(crate::proofs::ReadLoops::members_read, crate::proofs::ReadLoops::declaration_shorter, crate::proofs::ExactDeclarations::declaration_shrinks))]
pub fn declarations<'a, 'b>(
    alloc: Global,
    levels_left: u32,
    xs: &'b [Terminal<'a>],
) -> Answer<'a, 'b, Vec<ReadDeclaration<'a>>>
    ensures { Reads declarations_syntax (declarations levels_left) xs.now result }
{
    let mut declarations = Vec::new(alloc);
    let mut left = Rest { terminals: xs };
    while let Some((declaration, rest)) = declaration(alloc, levels_left, left.terminals)? {
        declarations.push(declaration)?;
        left = Rest { terminals: rest };
    }
    Ok((declarations, left.terminals))
}
