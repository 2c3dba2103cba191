//! How large expansions are, without making them.

ghost use Rattle.std.specs.Prelude.{◌≡◌, ◌≤◌, ◌+◌, min, List, length, map, option_map, IfOk};
ghost use Rattle.spec_syntax.specs.Syntax.{Definition, bare, tested};
ghost use Rattle.std.specs.Option.{is_some};
ghost use Rattle.spec_syntax.specs.SyntaxView.{term_syntax, terms_syntax, formula_syntax};
ghost use Rattle.spec_syntax.specs.SyntaxView.{formulas_syntax};
ghost use Rattle.definition_expansion.specs.Expansion.{bare_names, passed_names};
ghost use Rattle.definition_expansion.specs.DefinitionView.{definition_of, AreHeads};
ghost use Rattle.definition_expansion.specs.Folds.{depths, node_counts, fold_term, fold_terms, fold_by};
ghost use Rattle.definition_expansion.specs.Folds.{fold_members_by, number_of_test};
ghost use Rattle.definition_expansion.specs.Uses.{IsOrder};
ghost use Rattle.definition_expansion.specs.ExpansionSizes.{levels_at, nodes_at, number_in, AreSizes};

use crate::definitions::ReadDefinition;
use base_library::NoMemory;
use spec_syntax::{ReadFormula, ReadFormulas, ReadTerm, ReadTerms};
use std::alloc::Global;
use tsl_terms::{BinaryOperator, Names};

/// Levels are counted up to this number: more are as many.
pub const LEVELS_STOP: u32 = 201;

/// Nodes are counted up to this number: more are as many.
pub const NODES_STOP: u32 = 10_001;

/// How large an expansion is.
#[derive(Clone, Copy)]
pub struct Size {
    /// The levels below its own, up to `LEVELS_STOP`.
    pub levels: u32,
    /// Its nodes, up to `NODES_STOP`.
    pub nodes: u32,
}

/// Whether terms are bare names.
fn are_bare(terms: &ReadTerms) -> bool
    ensures { result ≡ is_some (bare_names (terms_syntax terms.now)) }
{
    let mut rest = terms;
    while let ReadTerms::More(term, next) = rest {
        if !matches!(&**term, ReadTerm::Alone(_)) {
            return false;
        }
        rest = next;
    }
    true
}

/// Whether a name with these arguments is a use, if it is defined.
pub(crate) fn pass_names(arguments: &ReadTerms) -> bool
    ensures { result ≡ is_some (passed_names (terms_syntax arguments.now)) }
{
    !matches!(arguments, ReadTerms::Empty) && are_bare(arguments)
}

/// The size of a term.
#[cycle(term_sizes)]
fn term_size(term: &ReadTerm) -> Size
    ensures levels { result.levels ≡ min LEVELS_STOP (fold_term depths (term_syntax term.now)) }
    ensures nodes { result.nodes ≡ min NODES_STOP (fold_term node_counts (term_syntax term.now)) }
{
    match term {
        ReadTerm::Alone(_) => Size {
            levels: 0,
            nodes: 1,
        },
        ReadTerm::Applied(_, arguments) => over(terms_size(arguments)),
        ReadTerm::Grouped(inner) => bracketed(term_size(inner)),
    }
}

/// The size of terms.
#[cycle(term_sizes)]
fn terms_size(terms: &ReadTerms) -> Size
    ensures levels { result.levels ≡ min LEVELS_STOP (fold_terms depths (terms_syntax terms.now)) }
    ensures nodes { result.nodes ≡ min NODES_STOP (fold_terms node_counts (terms_syntax terms.now)) }
{
    let mut levels: u32 = 0;
    let mut nodes: u32 = 0;
    let mut rest = terms;
    while let ReadTerms::More(term, next) = rest {
        let size = term_size(term);
        levels = levels.max(size.levels);
        nodes = (nodes + size.nodes).min(NODES_STOP);
        rest = next;
    }
    Size { levels, nodes }
}

/// The size of a node over parts of this size, on their level.
fn over(parts: Size) -> Size
    requires { parts.nodes ≤ NODES_STOP }
    ensures levels { result.levels ≡ parts.levels }
    ensures nodes { result.nodes ≡ min NODES_STOP (1 + parts.nodes) }
{
    Size {
        levels: parts.levels,
        nodes: (1 + parts.nodes).min(NODES_STOP),
    }
}

/// The size in brackets.
fn bracketed(inner: Size) -> Size
    requires { inner.levels ≤ LEVELS_STOP }
    ensures levels { result.levels ≡ min LEVELS_STOP (1 + inner.levels) }
    ensures nodes { result.nodes ≡ inner.nodes }
{
    Size {
        levels: (1 + inner.levels).min(LEVELS_STOP),
        nodes: inner.nodes,
    }
}

/// The size of an operator between sides of these sizes.
fn between(op: BinaryOperator, left: Size, right: Size) -> Size
    requires left_levels { left.levels ≤ LEVELS_STOP }
    requires left_nodes { left.nodes ≤ NODES_STOP }
    requires right_levels { right.levels ≤ LEVELS_STOP }
    requires right_nodes { right.nodes ≤ NODES_STOP }
    ensures levels { result.levels ≡ min LEVELS_STOP (depths.of_between op left.levels right.levels) }
    ensures nodes { result.nodes ≡ min NODES_STOP (node_counts.of_between op left.nodes right.nodes) }
{
    let right_levels = match op {
        BinaryOperator::Implication | BinaryOperator::Equivalence => right.levels + 1,
        BinaryOperator::Until | BinaryOperator::WeakUntil | BinaryOperator::Release => right.levels,
    };
    let left_nodes = match op {
        BinaryOperator::Equivalence => 2 * left.nodes,
        _ => left.nodes,
    };
    let right_nodes = match op {
        BinaryOperator::Equivalence | BinaryOperator::WeakUntil => 2 * right.nodes,
        _ => right.nodes,
    };
    Size {
        levels: left.levels.max(right_levels).min(LEVELS_STOP),
        nodes: (1 + left_nodes + right_nodes).min(NODES_STOP),
    }
}

/// The size that a table has for what stands in the place of a use of this name.
fn use_size(heads: &Names, sizes: &[Size], name: &[u8]) -> Option<Size>
    ensures levels { option_map (λ s. s.levels) result
        ≡ option_map (min LEVELS_STOP) (levels_at heads.now sizes.now name.now) }
    ensures nodes { option_map (λ s. s.nodes) result
        ≡ option_map (min NODES_STOP) (nodes_at heads.now sizes.now name.now) }
{
    let number = heads.find(name)?;
    let size = sizes.get(number as usize)?;
    Some(Size {
        levels: size.levels.min(LEVELS_STOP),
        nodes: size.nodes.min(NODES_STOP),
    })
}

/// The size of a name alone.
fn bare_size(heads: &Names, sizes: &[Size], name: &[u8]) -> Size
    ensures levels { result.levels ≡ min LEVELS_STOP
        (fold_by depths (levels_at heads.now sizes.now) (bare name.now)) }
    ensures nodes { result.nodes ≡ min NODES_STOP
        (fold_by node_counts (nodes_at heads.now sizes.now) (bare name.now)) }
{
    match use_size(heads, sizes, name) {
        Some(size) => size,
        None => Size {
            levels: 0,
            nodes: 2,
        },
    }
}

/// The size of a name with arguments.
fn test_size(heads: &Names, sizes: &[Size], name: &[u8], arguments: &ReadTerms) -> Size
    ensures levels { result.levels ≡ min LEVELS_STOP
        (fold_by depths (levels_at heads.now sizes.now) (tested name.now (terms_syntax arguments.now))) }
    ensures nodes { result.nodes ≡ min NODES_STOP
        (fold_by node_counts (nodes_at heads.now sizes.now) (tested name.now (terms_syntax arguments.now))) }
{
    if pass_names(arguments) {
        if let Some(size) = use_size(heads, sizes, name) {
            return size;
        }
    }
    over(terms_size(arguments))
}

/// The size of a formula, where a table has those of definitions.
#[cycle(formula_sizes)]
fn table_size(heads: &Names, sizes: &[Size], formula: &ReadFormula) -> Size
    ensures levels { result.levels ≡ min LEVELS_STOP
        (fold_by depths (levels_at heads.now sizes.now) (formula_syntax formula.now)) }
    ensures nodes { result.nodes ≡ min NODES_STOP
        (fold_by node_counts (nodes_at heads.now sizes.now) (formula_syntax formula.now)) }
{
    match formula {
        ReadFormula::True | ReadFormula::False => Size {
            levels: 0,
            nodes: 1,
        },
        ReadFormula::Bare(name) => bare_size(heads, sizes, name),
        ReadFormula::Tested(name, arguments) => test_size(heads, sizes, name, arguments),
        ReadFormula::Updated(_, term) => over(term_size(term)),
        ReadFormula::Grouped(inner) => bracketed(table_size(heads, sizes, inner)),
        ReadFormula::Under(_, part) => over(bracketed(table_size(heads, sizes, part))),
        ReadFormula::Between(op, left, right) => {
            let left = table_size(heads, sizes, left);
            let right = table_size(heads, sizes, right);
            between(*op, left, right)
        }
        ReadFormula::Joined(_, members) => over(members_size(heads, sizes, members)),
    }
}

/// The size of the members of a formula, where a table has those of definitions.
#[cycle(formula_sizes)]
fn members_size(heads: &Names, sizes: &[Size], formulas: &ReadFormulas) -> Size
    ensures levels { result.levels ≡ min LEVELS_STOP
        (fold_members_by depths (levels_at heads.now sizes.now) (formulas_syntax formulas.now)) }
    ensures nodes { result.nodes ≡ min NODES_STOP
        (fold_members_by node_counts (nodes_at heads.now sizes.now) (formulas_syntax formulas.now)) }
{
    let mut levels: u32 = 0;
    let mut nodes: u32 = 0;
    let mut rest = formulas;
    while let ReadFormulas::More(formula, next) = rest {
        let size = table_size(heads, sizes, formula);
        levels = levels.max(size.levels);
        nodes = (nodes + size.nodes).min(NODES_STOP);
        rest = next;
    }
    Size { levels, nodes }
}

/// The sizes of what stands in the place of uses of definitions, in the order of the definitions, with no use left in
/// it: the levels with its brackets, and the nodes. The heads are the names of the definitions, and in the order each
/// uses only earlier ones. Each body is gone through once.
pub fn sizes(
    alloc: Global,
    heads: &Names,
    definitions: &[ReadDefinition],
    order: &[u32],
) -> Result<Vec<Size>, NoMemory>
    requires heads { AreHeads heads.now definitions.now }
    requires order { IsOrder (map definition_of definitions.now) order.now }
    ensures { IfOk result
        (λ sizes. AreSizes heads.now (map definition_of definitions.now) sizes.items) }
{
    let mut sizes = vec![in alloc; Size {
        levels: 0,
        nodes: 0
    }; heads.count() as usize]?;
    for number in order {
        let size = bracketed(table_size(heads, &sizes, &definitions[*number as usize].body));
        sizes[*number as usize] = size;
    }
    Ok(sizes)
}

/// The size of a formula's expansion, by the sizes of the definitions: the levels below its own, up to
/// `LEVELS_STOP`, and the nodes, up to `NODES_STOP`.
pub fn expansion_size(heads: &Names, sizes: &[Size], formula: &ReadFormula) -> Size
    ensures levels { (ds : List Definition) → AreSizes heads.now ds sizes.now → result.levels
        ≡ min LEVELS_STOP (fold_by depths (number_in depths ds) (formula_syntax formula.now)) }
    ensures nodes { (ds : List Definition) → AreSizes heads.now ds sizes.now → result.nodes
        ≡ min NODES_STOP (fold_by node_counts (number_in node_counts ds) (formula_syntax formula.now)) }
{
    table_size(heads, sizes, formula)
}
