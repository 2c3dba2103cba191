//! The names of a text: which are defined, what each is, and the first that is wrong where it stands.

ghost use Rattle.std.specs.Prelude.{◌≡◌, ℕ, ◌≤◌, ◌<◌, ◌-◌, ◌^◌, List, None, All, length, map};
ghost use Rattle.std.specs.Prelude.{position, slice_get, option_and_then, IfOk, IfErr, OnOk};
ghost use Rattle.tsl_text.specs.Division.{IsTokenOf};
ghost use Rattle.spec_syntax.specs.Syntax.{SectionSyntax, Definition};
ghost use Rattle.spec_syntax.specs.Texts.{terminal_at};
ghost use Rattle.definition_expansion.specs.DefinitionView.{definition_of};
ghost use Rattle.definition_expansion.specs.Uses.{IsOrder, IsFirstOnCycle};
ghost use Rattle.definition_expansion.specs.ExpansionSizes.{AreSizes};
ghost use Rattle.name_resolution.specs.Faults.{is_redefined, has_kind_fault, has_arity_fault};
ghost use Rattle.name_resolution.specs.OccurrenceView.{occurrence_of};
ghost use Rattle.name_resolution.specs.WellDeclared.{is_use_too_deep};
ghost use Rattle.tsl_reader.specs.Spells.{is_free, name_tokens, HasCause};
ghost use Rattle.tsl_reader.specs.ReadText.{AreTextNames, AreTextParts, AreInOrder, AreWell};

use crate::SpecError;
use base_library::NoMemory;
use definition_expansion::{OrderFault, ReadDefinition, Size, order};
use name_resolution::{
    ReadOccurrence, first_arity_fault, first_deep_use, first_head_fault, first_kind_fault,
    head_place, plain_names,
};
use spec_syntax::{Terminal, terminal_at};
use std::alloc::Global;
use tsl_terms::Names;
use tsl_text::Token;

/// The names of a text: those that are defined, and each where it stands.
#[derive(Clone, Copy)]
pub(crate) struct TextNames<'a> {
    /// The defined names.
    pub(crate) heads: &'a Names,
    /// Each name, in the order of the text, as what it occurs.
    pub(crate) occurrences: &'a [ReadOccurrence<'a>],
}

/// Whether a token is a name that is no reserved word.
fn is_free(text: &[u8], token: &Token) -> bool
    requires { (token.now.start ≤ token.now.end) × (token.now.end ≤ length text.now) }
    ensures { result ≡ is_free (terminal_at text.now token.now) }
{
    matches!(terminal_at(text, token), Terminal::Free(_))
}

/// The token at a place among those that are names and no reserved words.
fn name_token(text: &[u8], tokens: &[Token], place: usize) -> Option<Token>
    requires { All (IsTokenOf text.now) tokens.now }
    ensures { result ≡ slice_get (name_tokens text.now tokens.now) place }
{
    let mut left = place;
    for token in tokens {
        if is_free(text, token) {
            if left == 0 {
                return Some(*token);
            }
            left -= 1;
        }
    }
    None
}

/// The token of the name at a place among those of a text, if there is a place.
fn told_token(text: &[u8], tokens: &[Token], place: Option<usize>) -> Option<Token>
    requires { All (IsTokenOf text.now) tokens.now }
    ensures { result ≡ option_and_then (slice_get (name_tokens text.now tokens.now)) place }
{
    name_token(text, tokens, place?)
}

/// Refuses a text with a name in a head that may not stand there.
pub(crate) fn check_heads(text: &[u8], tokens: &[Token], names: TextNames) -> Result<(), SpecError>
    requires each { All (IsTokenOf text.now) tokens.now }
    requires named { AreTextNames text.now tokens.now names.heads.now
        (map occurrence_of names.occurrences.now) }
    ensures once { OnOk result (position (λ o. is_redefined o.role)
        (map occurrence_of names.entry.occurrences.now) ≡ None) }
    ensures cause { IfErr result (HasCause text.now) }
{
    match told_token(text, tokens, first_head_fault(names.occurrences)) {
        Some(token) => Err(SpecError::Defined(token.start, token.end)),
        None => Ok(()),
    }
}

/// The refusal of a text in which this definition reaches itself, and none before it does.
fn cycle_at(
    text: &[u8],
    tokens: &[Token],
    names: TextNames,
    definitions: &[ReadDefinition],
    number: u32,
) -> SpecError
    requires each { All (IsTokenOf text.now) tokens.now }
    requires parts { (sections : List SectionSyntax) × AreTextParts text.now tokens.now
        names.heads.now (map occurrence_of names.occurrences.now) sections
        (map definition_of definitions.now) }
    requires cycle { IsFirstOnCycle (map definition_of definitions.now) number }
    ensures { HasCause text.now result }
{
    let name = definitions[number as usize].name;
    match told_token(text, tokens, head_place(name, names.occurrences)) {
        Some(token) => SpecError::Cycle(token.start, token.end),
        None => unreachable!(),
    }
}

/// The definitions in an order in which each uses only earlier ones.
pub(crate) fn order_of(
    alloc: Global,
    text: &[u8],
    tokens: &[Token],
    names: TextNames,
    definitions: &[ReadDefinition],
) -> Result<Vec<u32>, SpecError>
    requires each { All (IsTokenOf text.now) tokens.now }
    requires parts { (sections : List SectionSyntax) × AreTextParts text.now tokens.now
        names.heads.now (map occurrence_of names.occurrences.now) sections
        (map definition_of definitions.now) }
    ensures order { IfOk result
        (λ order. IsOrder (map definition_of definitions.now) order.items) }
    ensures cause { IfErr result (HasCause text.now) }
{
    match order(alloc, names.heads, definitions) {
        Ok(order) => Ok(order),
        Err(OrderFault::Cycle(number)) => Err(cycle_at(text, tokens, names, definitions, number)),
        Err(OrderFault::NoMemory) => Err(SpecError::NoMemory),
    }
}

/// Refuses a text with a name of a wrong kind or with a wrong number.
pub(crate) fn check_names(
    alloc: Global,
    text: &[u8],
    tokens: &[Token],
    names: TextNames,
) -> Result<(), SpecError>
    requires text { length text.now < 2 ^ 32 - 1 }
    requires each { All (IsTokenOf text.now) tokens.now }
    requires ordered { (sections : List SectionSyntax) × (definitions : List Definition)
        × AreInOrder text.now tokens.now names.heads.now
        (map occurrence_of names.occurrences.now) sections definitions }
    ensures kinds { let all = map occurrence_of names.entry.occurrences.now in
        OnOk result (position (has_kind_fault all) all ≡ None) }
    ensures arities { let all = map occurrence_of names.entry.occurrences.now in
        OnOk result (position (has_arity_fault names.entry.heads.now all) all ≡ None) }
    ensures cause { IfErr result (HasCause text.now) }
{
    let firsts = plain_names(alloc, names.occurrences)?;
    let wrong = first_kind_fault(&firsts, names.occurrences);
    if let Some(token) = told_token(text, tokens, wrong) {
        return Err(SpecError::Kind(token.start, token.end));
    }
    let wrong = first_arity_fault(names.heads, &firsts, names.occurrences);
    if let Some(token) = told_token(text, tokens, wrong) {
        return Err(SpecError::Arity(token.start, token.end));
    }
    Ok(())
}

/// The levels of sizes.
fn levels_of(alloc: Global, sizes: &[Size]) -> Result<Vec<u32>, NoMemory>
    ensures { IfOk result (λ levels. levels.items ≡ map (λ s. s.levels) sizes.now) }
{
    let mut levels = Vec::new(alloc);
    for size in sizes {
        levels.push(size.levels)?;
    }
    Ok(levels)
}

/// Refuses a text with a use in a section such that what stands in its place is too deep.
pub(crate) fn check_uses(
    alloc: Global,
    text: &[u8],
    tokens: &[Token],
    names: TextNames,
    sizes: &[Size],
) -> Result<(), SpecError>
    requires each { All (IsTokenOf text.now) tokens.now }
    requires well { (sections : List SectionSyntax) × (definitions : List Definition)
        × AreWell text.now tokens.now names.heads.now
        (map occurrence_of names.occurrences.now) sections definitions
        × AreSizes names.heads.now definitions sizes.now }
    ensures within { OnOk result ((definitions : List Definition)
        → AreSizes names.entry.heads.now definitions sizes.now
        → position (is_use_too_deep definitions)
        (map occurrence_of names.entry.occurrences.now) ≡ None) }
    ensures cause { IfErr result (HasCause text.now) }
{
    let levels = levels_of(alloc, sizes)?;
    let deep = first_deep_use(names.heads, &levels, names.occurrences);
    match told_token(text, tokens, deep) {
        Some(token) => Err(SpecError::DeepUse(token.start, token.end)),
        None => Ok(()),
    }
}
