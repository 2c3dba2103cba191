//! The stages of reading a specification.

ghost use Rattle.std.specs.Prelude.{◌≡◌, ℕ, suc, ◌-◌, ◌≤◌, ◌<◌, ◌^◌, length, map, slice_get, nat_le};
ghost use Rattle.std.specs.Prelude.{Some, All, IsTrue, IfOk, IfErr, MatchOption};
ghost use Rattle.spec_syntax.specs.declared.syntax.Part.{Part};
ghost use Rattle.spec_syntax.specs.declared.syntax.Part.TheVariants.{AssumeFirst, AssumeAlways};
ghost use Rattle.spec_syntax.specs.declared.syntax.Part.TheVariants.{GuaranteeFirst};
ghost use Rattle.spec_syntax.specs.declared.syntax.Part.TheVariants.{GuaranteeAlways};
ghost use Rattle.tsl_text.specs.Division.{AreTokens, IsTokenOf};
ghost use Rattle.tsl_terms.specs.FormulaTree.{formula_trees, member_trees};
ghost use Rattle.tsl_terms.specs.Nodes.{nodes};
ghost use Rattle.tsl_terms.specs.WellFormed.{formulas_fit};
ghost use Rattle.tsl_terms.specs.SpecTree.{whole_formula};
ghost use Rattle.tsl_terms.specs.SpecView.{spec_tree};
ghost use Rattle.tsl_reader.specs.Naming.{all_uses, names_of, numbered_list, formulas_of_part};
ghost use Rattle.tsl_reader.specs.Numbering.{HasNumbers};
ghost use Rattle.tsl_reader.specs.Spells.{most_formula_nodes, IsDerived, HasCause};
ghost use Rattle.tsl_reader.specs.ReadText.{AreDeclared, AreExpanded};
ghost use Rattle.spec_syntax.specs.SyntaxView.{section_syntax, declaration_syntax};

use crate::expanding::sections_of_parts;
use crate::naming::numbered_names;
use crate::numbering::formulas_of_part;
use crate::splitting::parts_of;
use crate::text_names::{TextNames, check_heads};
use crate::uses::all_uses;
use crate::{MOST_NODES, SpecError};
use base_library::NoMemory;
use name_resolution::{heads, occurrences};
use spec_syntax::{Part, ReadDeclaration, ReadFault, ReadSection, declarations, terminals};
use std::alloc::Global;
use tsl_terms::{FormulaList, Names, Spec, first_uses, whole_node_count};
use tsl_text::{TextError, Token, tokens};

/// The deepest level.
const DEEPEST: u32 = 200;

/// The tokens of a text.
fn tokens_of(alloc: Global, text: &[u8]) -> Result<Vec<Token>, SpecError>
    requires { length text.now < 2 ^ 32 - 1 }
    ensures tokens { IfOk result (λ tokens. AreTokens text.now tokens.items) }
    ensures each { IfOk result (λ tokens. All (IsTokenOf text.now) tokens.items) }
    ensures cause { IfErr result (HasCause text.now) }
{
    match tokens(alloc, text) {
        Ok(tokens) => Ok(tokens),
        Err(TextError::Byte(at)) => Err(SpecError::Byte(at)),
        Err(TextError::OpenComment(at)) => Err(SpecError::OpenComment(at)),
        Err(TextError::NoMemory) => Err(SpecError::NoMemory),
    }
}

/// Where the token begins behind which so many are left, with itself; at the end the text's length.
fn start_of(text: &[u8], tokens: &[Token], left: usize) -> u32
    requires text { length text.now < 2 ^ 32 - 1 }
    requires left { left ≤ length tokens.now }
    ensures { MatchOption (slice_get tokens.now (length tokens.now - left))
        (result ≡ length text.now) (λ token. result ≡ token.start) }
{
    match tokens.get(tokens.len() - left) {
        Some(token) => token.start,
        None => text.len() as u32,
    }
}

/// The sections and definitions that the tokens of a text derive from.
fn declarations_of<'a>(
    alloc: Global,
    text: &'a [u8],
    tokens: &[Token],
) -> Result<Vec<ReadDeclaration<'a>>, SpecError>
    requires text { length text.now < 2 ^ 32 - 1 }
    requires tokens { AreTokens text.now tokens.now }
    requires each { All (IsTokenOf text.now) tokens.now }
    ensures derived { IfOk result (λ read.
        AreDeclared text.now tokens.now (map declaration_syntax read.items)) }
    ensures cause { IfErr result (HasCause text.now) }
{
    let terminals = terminals(alloc, text, tokens)?;
    match declarations(alloc, DEEPEST, &terminals) {
        Ok((declarations, _)) => Ok(declarations),
        Err(ReadFault::Form(left)) => Err(SpecError::Form(start_of(text, tokens, left))),
        Err(ReadFault::Deep(left)) => Err(SpecError::Deep(start_of(text, tokens, left))),
        Err(ReadFault::NoMemory) => Err(SpecError::NoMemory),
    }
}

/// The sections that a text with these tokens expands to.
fn sections_of<'a>(
    alloc: Global,
    text: &'a [u8],
    tokens: &[Token],
) -> Result<Vec<ReadSection<'a>>, SpecError>
    requires text { length text.now < 2 ^ 32 - 1 }
    requires tokens { AreTokens text.now tokens.now }
    requires each { All (IsTokenOf text.now) tokens.now }
    ensures expanded { IfOk result
        (λ sections. AreExpanded text.now (map section_syntax sections.items)) }
    ensures cause { IfErr result (HasCause text.now) }
{
    let declarations = declarations_of(alloc, text, tokens)?;
    let read = declarations.as_slice();
    let heads = heads(alloc, read)?;
    let occurrences = occurrences(alloc, &heads, read)?;
    let names = TextNames {
        heads: &heads,
        occurrences: &occurrences,
    };
    check_heads(text, tokens, names)?;
    let parts = parts_of(alloc, declarations)?;
    sections_of_parts(
        alloc,
        text,
        tokens,
        names,
        parts.sections,
        &parts.definitions,
    )
}

/// The specification that a text derives, however many nodes its whole formula has.
pub(crate) fn derived_spec(alloc: Global, text: &[u8]) -> Result<Spec, SpecError>
    requires { length text.now < 2 ^ 32 - 1 }
    ensures derived { IfOk result (λ spec. IsDerived text.now (spec_tree spec)) }
    ensures cause { IfErr result (HasCause text.now) }
{
    let tokens = tokens_of(alloc, text)?;
    let sections = sections_of(alloc, text, &tokens)?;
    let names = names_of_sections(alloc, &sections)?;
    let spec = spec_of(alloc, names, &sections)?;
    Ok(spec)
}

/// Whether the whole formula has few enough nodes.
pub(crate) fn has_few_nodes(spec: &Spec) -> bool
    ensures { result ≡ nat_le (nodes (whole_formula (spec_tree spec.now))) most_formula_nodes }
{
    whole_node_count(spec) <= MOST_NODES as u64
}

/// The names of sections.
#[tactic(auto, using(crate::proofs::FewNames::names_within))]
fn names_of_sections(alloc: Global, sections: &[ReadSection]) -> Result<Names, NoMemory>
    requires { suc (length (all_uses (map section_syntax sections.now))) < 2 ^ 32 }
    ensures { IfOk result (λ names. names ≡ names_of (map section_syntax sections.now)) }
{
    let uses = all_uses(alloc, sections)?;
    let numbered = numbered_names(alloc, &uses)?;
    first_uses(alloc, &numbered)
}

/// The formulas of the sections that go to one list.
#[tactic(auto, using(crate::proofs::StageLemmas::list_fits))]
fn list_of(
    alloc: Global,
    names: &Names,
    part: Part,
    sections: &[ReadSection],
) -> Result<FormulaList, NoMemory>
    requires { HasNumbers names.now (formulas_of_part part (map section_syntax sections.now)) }
    ensures numbered { IfOk result (λ list.
        numbered_list names.now (formulas_of_part part (map section_syntax sections.now))
        ≡ Some (member_trees list)) }
    ensures fit { IfOk result (λ list. IsTrue (formulas_fit names.now (formula_trees list))) }
{
    formulas_of_part(alloc, names, part, sections)
}

/// The specification of sections with these names.
fn spec_of(alloc: Global, names: Names, sections: &[ReadSection]) -> Result<Spec, NoMemory>
    requires { (part : Part) →
        HasNumbers names (formulas_of_part part (map section_syntax sections.now)) }
    ensures names { IfOk result (λ spec. spec.names ≡ names) }
    ensures assume_first { IfOk result (λ spec.
        numbered_list names (formulas_of_part AssumeFirst (map section_syntax sections.now))
        ≡ Some (member_trees spec.assume_first)) }
    ensures assume_always { IfOk result (λ spec.
        numbered_list names (formulas_of_part AssumeAlways (map section_syntax sections.now))
        ≡ Some (member_trees spec.assume_always)) }
    ensures guarantee_first { IfOk result (λ spec.
        numbered_list names (formulas_of_part GuaranteeFirst (map section_syntax sections.now))
        ≡ Some (member_trees spec.guarantee_first)) }
    ensures guarantee_always { IfOk result (λ spec.
        numbered_list names (formulas_of_part GuaranteeAlways (map section_syntax sections.now))
        ≡ Some (member_trees spec.guarantee_always)) }
{
    let assume_first = list_of(alloc, &names, Part::AssumeFirst, sections)?;
    let assume_always = list_of(alloc, &names, Part::AssumeAlways, sections)?;
    let guarantee_first = list_of(alloc, &names, Part::GuaranteeFirst, sections)?;
    let guarantee_always = list_of(alloc, &names, Part::GuaranteeAlways, sections)?;
    Ok(Spec {
        names,
        assume_first,
        assume_always,
        guarantee_first,
        guarantee_always,
    })
}
