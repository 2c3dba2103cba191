//! The sections that a text expands to.

ghost use Rattle.std.specs.Prelude.{◌≡◌, ℕ, ◌+◌, ◌-◌, ◌≤◌, ◌<◌, ◌^◌, List, All, length, map, min};
ghost use Rattle.std.specs.Prelude.{IfOk, IfErr};
ghost use Rattle.tsl_text.specs.Division.{IsTokenOf};
ghost use Rattle.spec_syntax.specs.Syntax.{Definition};
ghost use Rattle.spec_syntax.specs.SyntaxView.{formula_syntax, section_syntax};
ghost use Rattle.definition_expansion.specs.DefinitionView.{definition_of, AreHeads};
ghost use Rattle.definition_expansion.specs.ExpansionSizes.{AreSizes};
ghost use Rattle.name_resolution.specs.OccurrenceView.{occurrence_of};
ghost use Rattle.tsl_reader.specs.Spells.{HasCause};
ghost use Rattle.tsl_reader.specs.ReadText.{AreTextParts, AreExpanded};
ghost use Rattle.tsl_reader.specs.Expanding.{bare_expansion, expanded_bare};
ghost use Rattle.tsl_reader.specs.Expanding.{nodes_of_formulas, nodes_of_sections};

use crate::text_names::{TextNames, check_names, check_uses, order_of};
use crate::{MOST_NODES, SpecError};
use base_library::NoMemory;
use definition_expansion::{NODES_STOP, ReadDefinition, Size, expansion, expansion_size, sizes};
use spec_syntax::{ReadFormula, ReadSection};
use std::alloc::Global;
use tsl_terms::Names;
use tsl_text::Token;

/// How many nodes the expansions of formulas have with these before them, up to `NODES_STOP`.
#[tactic(auto, using(crate::proofs::NodeSums::formula_counted))]
fn nodes_with(heads: &Names, sizes: &[Size], formulas: &[ReadFormula], before: u32) -> u32
    requires { before ≤ NODES_STOP }
    ensures few { result ≤ NODES_STOP }
    ensures counted { (ds : List Definition) → AreSizes heads.now ds sizes.now → result
        ≡ min NODES_STOP (before + nodes_of_formulas ds (map formula_syntax formulas.now)) }
{
    let mut nodes = before;
    for formula in formulas {
        let more = expansion_size(heads, sizes, formula).nodes.min(NODES_STOP);
        nodes = (nodes + more).min(NODES_STOP);
    }
    nodes
}

/// How many nodes the expansions of the formulas of sections have, up to `NODES_STOP`.
#[tactic(auto, using(crate::proofs::NodeSums::section_counted))]
fn nodes_of_sections(heads: &Names, sizes: &[Size], sections: &[ReadSection]) -> u32
    ensures { (ds : List Definition) → AreSizes heads.now ds sizes.now → result
        ≡ min NODES_STOP (nodes_of_sections ds (map section_syntax sections.now)) }
{
    let mut nodes = 0;
    for section in sections {
        nodes = nodes_with(heads, sizes, &section.formulas, nodes);
    }
    nodes
}

/// The expansion of a formula, without brackets.
#[tactic(auto, using(crate::proofs::BareExpansions::as_many))]
fn bare_expansion<'a>(
    alloc: Global,
    heads: &Names,
    definitions: &[ReadDefinition<'a>],
    formula: &ReadFormula<'a>,
) -> Result<ReadFormula<'a>, NoMemory>
    requires { AreHeads heads.now definitions.now }
    ensures { IfOk result (λ expanded. formula_syntax expanded
        ≡ bare_expansion (map definition_of definitions.now) (formula_syntax formula.now)) }
{
    expansion(alloc, heads, definitions, heads.count(), formula)
}

/// The expansions of formulas.
fn expanded_formulas<'a>(
    alloc: Global,
    heads: &Names,
    definitions: &[ReadDefinition<'a>],
    formulas: &[ReadFormula<'a>],
) -> Result<Vec<ReadFormula<'a>>, NoMemory>
    requires { AreHeads heads.now definitions.now }
    ensures { IfOk result (λ list. map formula_syntax list.items
        ≡ map (bare_expansion (map definition_of definitions.now)) (map formula_syntax formulas.now)) }
{
    let mut list = Vec::new(alloc);
    for formula in formulas {
        list.push(bare_expansion(alloc, heads, definitions, formula)?)?;
    }
    Ok(list)
}

/// A section with the expansions of its formulas.
fn expanded_section<'a>(
    alloc: Global,
    heads: &Names,
    definitions: &[ReadDefinition<'a>],
    section: &ReadSection<'a>,
) -> Result<ReadSection<'a>, NoMemory>
    requires { AreHeads heads.now definitions.now }
    ensures { IfOk result (λ expanded. section_syntax expanded
        ≡ expanded_bare (map definition_of definitions.now) (section_syntax section.now)) }
{
    let formulas = expanded_formulas(alloc, heads, definitions, &section.formulas)?;
    Ok(ReadSection {
        part: section.part,
        formulas,
    })
}

/// The sections with the expansions of their formulas.
fn expanded_sections<'a>(
    alloc: Global,
    heads: &Names,
    definitions: &[ReadDefinition<'a>],
    sections: &[ReadSection<'a>],
) -> Result<Vec<ReadSection<'a>>, NoMemory>
    requires { AreHeads heads.now definitions.now }
    ensures { IfOk result (λ list. map section_syntax list.items
        ≡ map (expanded_bare (map definition_of definitions.now)) (map section_syntax sections.now)) }
{
    let mut list = Vec::new(alloc);
    for section in sections {
        list.push(expanded_section(alloc, heads, definitions, section)?)?;
    }
    Ok(list)
}

/// The sections that a text with definitions expands to.
fn sections_with_uses<'a>(
    alloc: Global,
    text: &[u8],
    tokens: &[Token],
    names: TextNames,
    sections: &[ReadSection<'a>],
    definitions: &[ReadDefinition<'a>],
) -> Result<Vec<ReadSection<'a>>, SpecError>
    requires text { length text.now < 2 ^ 32 - 1 }
    requires each { All (IsTokenOf text.now) tokens.now }
    requires parts { AreTextParts text.now tokens.now names.heads.now
        (map occurrence_of names.occurrences.now) (map section_syntax sections.now)
        (map definition_of definitions.now) }
    ensures expanded { IfOk result
        (λ sections. AreExpanded text.now (map section_syntax sections.items)) }
    ensures cause { IfErr result (HasCause text.now) }
{
    let order = order_of(alloc, text, tokens, names, definitions)?;
    check_names(alloc, text, tokens, names)?;
    let sizes = sizes(alloc, names.heads, definitions, &order)?;
    let sizes = sizes.as_slice();
    check_uses(alloc, text, tokens, names, sizes)?;
    if nodes_of_sections(names.heads, sizes, sections) > MOST_NODES {
        return Err(SpecError::Nodes);
    }
    Ok(expanded_sections(alloc, names.heads, definitions, sections)?)
}

/// The sections that a text expands to. Those of a text without definitions stay as they are.
pub(crate) fn sections_of_parts<'a>(
    alloc: Global,
    text: &[u8],
    tokens: &[Token],
    names: TextNames,
    sections: Vec<ReadSection<'a>>,
    definitions: &[ReadDefinition<'a>],
) -> Result<Vec<ReadSection<'a>>, SpecError>
    requires text { length text.now < 2 ^ 32 - 1 }
    requires each { All (IsTokenOf text.now) tokens.now }
    requires parts { AreTextParts text.now tokens.now names.heads.now
        (map occurrence_of names.occurrences.now) (map section_syntax sections.items)
        (map definition_of definitions.now) }
    ensures expanded { IfOk result
        (λ sections. AreExpanded text.now (map section_syntax sections.items)) }
    ensures cause { IfErr result (HasCause text.now) }
{
    if !definitions.is_empty() {
        return sections_with_uses(alloc, text, tokens, names, &sections, definitions);
    }
    check_names(alloc, text, tokens, names)?;
    Ok(sections)
}
