//! Reading terms.

ghost use Rattle.std.specs.Prelude.{◌≡◌, ◌<◌, length, map, option_map, None, Some, IfOk, IfErr};
ghost use Rattle.std.specs.Prelude.{Option, Ok, IfSome, IfNone};
ghost use Rattle.reader_combinators.specs.Readers.{closing, below};
ghost use Rattle.spec_syntax.specs.declared.fault.ReadFault.TheVariants.{Deep};
ghost use Rattle.spec_syntax.specs.Reading.{lower, above, closes, bracketed_term, begins_term};
ghost use Rattle.spec_syntax.specs.Syntax.{TermSyntax};
ghost use Rattle.spec_syntax.specs.Reading.{Level, beyond, opened, complete, with_name, with_term};
ghost use Rattle.spec_syntax.specs.Reading.{with_brackets, argument, goes_on, arguments_of};
ghost use Rattle.spec_syntax.specs.Reading.{after_name, name_last, term_last, fresh};
ghost use Rattle.spec_syntax.specs.Reading.{argument_wanted, term_named, term_with};
ghost use Rattle.spec_syntax.specs.SyntaxView.{terminal_view, terminals_view, term_syntax};
ghost use Rattle.spec_syntax.specs.SyntaxView.{HasSyntaxFault, Reads};
ghost use Rattle.spec_syntax.specs.internal.Forms.{opened_term};
ghost use Rattle.spec_syntax.specs.internal.InnerView.{arguments_view, arguments_syntax};

use crate::fault::ReadFault;
use crate::syntax::Closer;
use crate::terminal::{Rest, Terminal};
use crate::trees::{ReadTerm, ReadTerms};
use base_library::NoMemory;
use std::alloc::Global;
use tsl_text::TokenKind;

/// What was read, and the terminals after it.
pub(crate) type Answer<'a, 'b, V> = Result<(V, &'b [Terminal<'a>]), ReadFault>;

/// The arguments of a name so far.
#[derive(Drop)]
pub(crate) enum Arguments<'a> {
    /// There is none yet.
    Fresh,
    /// There is none, by `()`.
    Empty,
    /// The last one is a name, which brackets may follow.
    NameLast(Vec<ReadTerm<'a>>, &'a [u8]),
    /// The last one is complete.
    TermLast(Vec<ReadTerm<'a>>),
}

/// The levels that are left below, where there are any.
#[tactic(auto, using(crate::proofs::ReadLemmas::no_level, crate::proofs::ReadLemmas::one_level))]
fn one_level_less(levels_left: u32) -> Option<u32>
    ensures some { IfSome result (λ below. lower levels_left ≡ Some (above (lower below))) }
    ensures smaller { IfSome result (λ below. below < levels_left) }
    ensures none { IfNone result (lower levels_left ≡ None) }
{
    match levels_left.checked_sub(1) {
        Some(below) => Some(below),
        None => None,
    }
}

/// The levels that are left below. Where there are none, the first of the terminals is a level too many.
pub(crate) fn level_below(levels_left: u32, xs: &[Terminal]) -> Result<u32, ReadFault>
    ensures ok { IfOk result (λ below. lower levels_left ≡ Some (above (lower below))) }
    ensures smaller { IfOk result (λ below. below < levels_left) }
    ensures none { IfErr result (λ fault. lower levels_left ≡ None) }
    ensures fault { IfErr result (λ fault. fault ≡ Deep (length xs.now)) }
{
    match one_level_less(levels_left) {
        Some(below) => Ok(below),
        None => Err(ReadFault::Deep(xs.len())),
    }
}

/// Whether the terminal is what closes a form so.
fn closes(closer: Closer, terminal: &Terminal) -> bool
    ensures { result ≡ closes closer (terminal_view terminal.now) }
{
    match closer {
        Closer::Round => matches!(terminal, Terminal::Mark(TokenKind::CloseRound)),
        Closer::Square => matches!(terminal, Terminal::Mark(TokenKind::CloseSquare)),
        Closer::Brace => matches!(terminal, Terminal::Mark(TokenKind::CloseBrace)),
        Closer::Equals => matches!(terminal, Terminal::Mark(TokenKind::Equals)),
        Closer::Semicolon => matches!(terminal, Terminal::Mark(TokenKind::Semicolon)),
    }
}

/// What closes a form.
#[tactic(auto, unfolding(reader_combinators::specs::Readers::closing))]
pub(crate) fn close<'a, 'b>(closer: Closer, xs: &'b [Terminal<'a>]) -> Answer<'a, 'b, ()>
    ensures { Reads (λ _. tt {0}) (closing (closes closer)) xs.now result }
{
    match xs {
        [] => Err(ReadFault::Form(0)),
        [first, rest @ ..] => {
            if closes(closer, first) {
                Ok(((), rest))
            } else {
                Err(ReadFault::Form(xs.len()))
            }
        }
    }
}

/// Whether a term begins here.
fn begins_term(xs: &[Terminal]) -> bool
    ensures { result ≡ begins_term (terminals_view xs.now) }
{
    matches!(
        xs,
        [Terminal::Free(_) | Terminal::Mark(TokenKind::OpenRound), ..]
    )
}

/// The fault after a name and an opening bracket, where there is no level below: the closing bracket
/// could follow, but a term would be a level too many.
fn beyond(xs: &[Terminal]) -> ReadFault
    ensures { HasSyntaxFault {V = Option TermSyntax} (beyond (terminals_view xs.now)) result }
{
    if begins_term(xs) {
        ReadFault::Deep(xs.len())
    } else {
        ReadFault::Form(xs.len())
    }
}

/// A term in brackets, after the opening one.
#[cycle(read)]
#[tactic(auto, unfolding(crate::specs::Reading::above))]
fn term_then_bracket<'a, 'b>(
    alloc: Global,
    levels_left: u32,
    xs: &'b [Terminal<'a>],
) -> Answer<'a, 'b, ReadTerm<'a>>
    ensures { Reads term_syntax (bracketed_term (above (lower levels_left))) xs.now result }
{
    let (term, rest) = term_with(alloc, levels_left, xs)?;
    let (_, rest) = close(Closer::Round, rest)?;
    Ok((term, rest))
}

/// A term in brackets, of which the opening one stands at the front.
#[cycle(read)]
pub(crate) fn bracketed_term<'a, 'b>(
    alloc: Global,
    levels_left: u32,
    xs: &'b [Terminal<'a>],
) -> Answer<'a, 'b, ReadTerm<'a>>
    ensures { Reads term_syntax (below (lower levels_left) bracketed_term) xs.now result }
{
    let below = level_below(levels_left, xs)?;
    match xs {
        [] => Err(ReadFault::Form(0)),
        [_, rest @ ..] => term_then_bracket(alloc, below, rest),
    }
}

/// The terminals after a closing bracket at the front.
#[tactic(auto, unfolding(crate::specs::Reading::opened))]
fn after_bracket<'a, 'b>(xs: &'b [Terminal<'a>]) -> Option<&'b [Terminal<'a>]>
    ensures some { IfSome result (λ rest. (low : Option Level) →
        opened low (terminals_view xs.now) ≡ Ok (None, terminals_view rest.now)) }
    ensures none { IfNone result ((low : Option Level) →
        opened low (terminals_view xs.now) ≡ opened_term low (terminals_view xs.now)) }
{
    match xs {
        [Terminal::Mark(TokenKind::CloseRound), rest @ ..] => Some(rest),
        _ => None,
    }
}

/// What follows a name and an opening bracket: the closing one, or a term and the closing one.
#[cycle(read)]
fn opened<'a, 'b>(
    alloc: Global,
    levels_left: u32,
    xs: &'b [Terminal<'a>],
) -> Answer<'a, 'b, Option<ReadTerm<'a>>>
    ensures { Reads (option_map term_syntax) (opened (lower levels_left)) xs.now result }
{
    if let Some(rest) = after_bracket(xs) {
        return Ok((None, rest));
    }
    match one_level_less(levels_left) {
        None => Err(beyond(xs)),
        Some(below) => {
            let (term, rest) = term_then_bracket(alloc, below, xs)?;
            Ok((Some(term), rest))
        }
    }
}

/// The arguments, with the name that stands last among them.
fn complete<'a>(alloc: Global, arguments: Arguments<'a>) -> Result<Vec<ReadTerm<'a>>, NoMemory>
    ensures { IfOk result (λ terms.
        map term_syntax terms.items ≡ complete (arguments_view arguments.entry)) }
{
    match arguments {
        Arguments::Fresh => Ok(Vec::new(alloc)),
        Arguments::Empty => Ok(Vec::new(alloc)),
        Arguments::NameLast(terms, name) => {
            let mut terms = terms;
            terms.push(ReadTerm::Alone(name))?;
            Ok(terms)
        }
        Arguments::TermLast(terms) => Ok(terms),
    }
}

/// A further argument that begins with a name.
fn with_name<'a>(
    alloc: Global,
    arguments: Arguments<'a>,
    name: &'a [u8],
) -> Result<Arguments<'a>, NoMemory>
    ensures { IfOk result (λ next.
        arguments_view next ≡ with_name (arguments_view arguments.entry) name.now) }
{
    let terms = complete(alloc, arguments)?;
    Ok(Arguments::NameLast(terms, name))
}

/// A further argument in brackets.
fn with_term<'a>(
    alloc: Global,
    arguments: Arguments<'a>,
    term: ReadTerm<'a>,
) -> Result<Arguments<'a>, NoMemory>
    ensures { IfOk result (λ next.
        arguments_view next ≡ with_term (arguments_view arguments.entry) (term_syntax term.entry)) }
{
    let mut terms = complete(alloc, arguments)?;
    terms.push(ReadTerm::Grouped(Box::new(alloc, term)?))?;
    Ok(Arguments::TermLast(terms))
}

/// Brackets after a name: a further argument, or `()`, which is the name's.
fn with_brackets<'a>(
    alloc: Global,
    found: Option<ReadTerm<'a>>,
    arguments: Arguments<'a>,
) -> Result<Arguments<'a>, NoMemory>
    ensures { IfOk result (λ next.
        arguments_view next
        ≡ with_brackets (option_map term_syntax found.entry) (arguments_view arguments.entry)) }
{
    match found {
        Some(term) => with_term(alloc, arguments, term),
        None => without_term(arguments),
    }
}

/// `()` after a name.
fn without_term<'a>(arguments: Arguments<'a>) -> Result<Arguments<'a>, NoMemory>
    ensures { IfOk result (λ next.
        arguments_view next ≡ with_brackets None (arguments_view arguments.entry)) }
{
    match arguments {
        Arguments::Fresh => Ok(Arguments::Empty),
        Arguments::Empty => Ok(Arguments::Empty),
        Arguments::NameLast(terms, name) => {
            let mut terms = terms;
            terms.push(ReadTerm::Applied(name, ReadTerms::Empty))?;
            Ok(Arguments::TermLast(terms))
        }
        Arguments::TermLast(terms) => Ok(Arguments::TermLast(terms)),
    }
}

/// Whether arguments go on with the first of these terminals.
fn goes_on(arguments: &Arguments, xs: &[Terminal]) -> bool
    ensures { result ≡ goes_on (arguments_view arguments.now) (terminals_view xs.now) }
{
    match arguments {
        Arguments::Empty => false,
        Arguments::Fresh => begins_term(xs),
        Arguments::NameLast(_, _) => begins_term(xs),
        Arguments::TermLast(_) => begins_term(xs),
    }
}

/// A first argument, or the last bracket of none.
#[cycle(read)]
#[tactic(auto, unfolding(crate::specs::Reading::argument))]
fn first_argument<'a, 'b>(
    alloc: Global,
    levels_left: u32,
    xs: &'b [Terminal<'a>],
) -> Answer<'a, 'b, Arguments<'a>>
    ensures { Reads arguments_view (argument_wanted (lower levels_left) fresh) xs.now result }
{
    match xs {
        [Terminal::Free(name), rest @ ..] => {
            let next = with_name(alloc, Arguments::Fresh, name)?;
            Ok((next, rest))
        }
        [Terminal::Mark(TokenKind::OpenRound), rest @ ..] => {
            let (found, rest) = opened(alloc, levels_left, rest)?;
            let next = with_brackets(alloc, found, Arguments::Fresh)?;
            Ok((next, rest))
        }
        _ => Err(ReadFault::Form(xs.len())),
    }
}

/// An argument after a name, or brackets that are the name's.
#[cycle(read)]
#[tactic(auto, unfolding(crate::specs::Reading::argument))]
fn argument_after_name<'a, 'b>(
    alloc: Global,
    levels_left: u32,
    terms: Vec<ReadTerm<'a>>,
    last: &'a [u8],
    xs: &'b [Terminal<'a>],
) -> Answer<'a, 'b, Arguments<'a>>
    ensures { Reads arguments_view
        (argument_wanted (lower levels_left) (name_last (map term_syntax terms.entry.items) last.now))
        xs.now result }
{
    match xs {
        [Terminal::Free(name), rest @ ..] => {
            let next = with_name(alloc, Arguments::NameLast(terms, last), name)?;
            Ok((next, rest))
        }
        [Terminal::Mark(TokenKind::OpenRound), rest @ ..] => {
            let (found, rest) = opened(alloc, levels_left, rest)?;
            let next = with_brackets(alloc, found, Arguments::NameLast(terms, last))?;
            Ok((next, rest))
        }
        _ => Err(ReadFault::Form(xs.len())),
    }
}

/// An argument after one that is complete.
#[cycle(read)]
#[tactic(auto, unfolding(crate::specs::Reading::argument))]
fn argument_after_term<'a, 'b>(
    alloc: Global,
    levels_left: u32,
    terms: Vec<ReadTerm<'a>>,
    xs: &'b [Terminal<'a>],
) -> Answer<'a, 'b, Arguments<'a>>
    ensures { Reads arguments_view
        (argument_wanted (lower levels_left) (term_last (map term_syntax terms.entry.items)))
        xs.now result }
{
    match xs {
        [Terminal::Free(name), rest @ ..] => {
            let next = with_name(alloc, Arguments::TermLast(terms), name)?;
            Ok((next, rest))
        }
        [Terminal::Mark(TokenKind::OpenRound), ..] => {
            let (term, rest) = bracketed_term(alloc, levels_left, xs)?;
            let next = with_term(alloc, Arguments::TermLast(terms), term)?;
            Ok((next, rest))
        }
        _ => Err(ReadFault::Form(xs.len())),
    }
}

/// The next argument, or brackets that belong to the last one.
#[cycle(read)]
#[tactic(auto, unfolding(crate::specs::Reading::argument))]
fn argument<'a, 'b>(
    alloc: Global,
    levels_left: u32,
    arguments: Arguments<'a>,
    xs: &'b [Terminal<'a>],
) -> Answer<'a, 'b, Arguments<'a>>
    ensures { Reads arguments_view
        (argument_wanted (lower levels_left) (arguments_view arguments.entry)) xs.now result }
{
    match arguments {
        Arguments::Empty => Err(ReadFault::Form(xs.len())),
        Arguments::Fresh => first_argument(alloc, levels_left, xs),
        Arguments::NameLast(terms, last) => argument_after_name(
            alloc,
            levels_left,
            terms,
            last,
            xs,
        ),
        Arguments::TermLast(terms) => argument_after_term(alloc, levels_left, terms, xs),
    }
}

/// What follows a name: nothing, or arguments, of which `()` has none.
#[cycle(read)]
#[tactic(auto, unfolding(crate::specs::Reading::after_name), using(crate::proofs::ReadLoops::arguments_read))]
pub(crate) fn after_name<'a, 'b>(
    alloc: Global,
    levels_left: u32,
    xs: &'b [Terminal<'a>],
) -> Answer<'a, 'b, Option<Vec<ReadTerm<'a>>>>
    ensures { Reads arguments_syntax (after_name (lower levels_left)) xs.now result }
{
    let mut arguments = Arguments::Fresh;
    let mut left = Rest { terminals: xs };
    while goes_on(&arguments, left.terminals) {
        let (next, rest) = argument(alloc, levels_left, arguments, left.terminals)?;
        arguments = next;
        left = Rest { terminals: rest };
    }
    let terms = arguments_of(alloc, arguments)?;
    Ok((terms, left.terminals))
}

/// The arguments, where there are any.
fn arguments_of<'a>(
    alloc: Global,
    arguments: Arguments<'a>,
) -> Result<Option<Vec<ReadTerm<'a>>>, NoMemory>
    ensures { IfOk result (λ terms.
        arguments_syntax terms ≡ arguments_of (arguments_view arguments.entry)) }
{
    match arguments {
        Arguments::Fresh => Ok(None),
        Arguments::Empty => Ok(Some(Vec::new(alloc))),
        Arguments::NameLast(terms, name) => {
            let mut terms = terms;
            terms.push(ReadTerm::Alone(name))?;
            Ok(Some(terms))
        }
        Arguments::TermLast(terms) => Ok(Some(terms)),
    }
}

/// A name with what follows it.
fn term_named<'a>(
    alloc: Global,
    name: &'a [u8],
    arguments: Option<Vec<ReadTerm<'a>>>,
) -> Result<ReadTerm<'a>, NoMemory>
    ensures { IfOk result (λ term.
        term_syntax term ≡ term_named name.now (arguments_syntax arguments.entry)) }
{
    match arguments {
        None => Ok(ReadTerm::Alone(name)),
        Some(terms) => Ok(ReadTerm::Applied(name, ReadTerms::from_vec(alloc, terms)?)),
    }
}

/// A term.
#[cycle(read)]
#[tactic(auto, unfolding(crate::specs::Reading::term_with))]
pub(crate) fn term_with<'a, 'b>(
    alloc: Global,
    levels_left: u32,
    xs: &'b [Terminal<'a>],
) -> Answer<'a, 'b, ReadTerm<'a>>
    ensures { Reads term_syntax (term_with (lower levels_left)) xs.now result }
{
    match xs {
        [Terminal::Free(name), rest @ ..] => {
            let (arguments, rest) = after_name(alloc, levels_left, rest)?;
            let term = term_named(alloc, name, arguments)?;
            Ok((term, rest))
        }
        [Terminal::Mark(TokenKind::OpenRound), ..] => {
            let (term, rest) = bracketed_term(alloc, levels_left, xs)?;
            Ok((ReadTerm::Grouped(Box::new(alloc, term)?), rest))
        }
        _ => Err(ReadFault::Form(xs.len())),
    }
}
