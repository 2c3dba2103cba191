//! How many nodes a formula has.

ghost use Rattle.std.specs.Prelude.{◌≡◌, ◌-◌, ◌^◌, ◌++◌, map, min};
ghost use Rattle.tsl_terms.specs.declared.operator.UnaryOperator.TheVariants.{Globally};
ghost use Rattle.tsl_terms.specs.TermTree.{term_tree, term_trees};
ghost use Rattle.tsl_terms.specs.FormulaTree.{unary, formulas_of, formula_tree, formula_trees, member_trees};
ghost use Rattle.tsl_terms.specs.Nodes.{nodes, nodes_of_term, nodes_of_terms, nodes_of_members};
ghost use Rattle.tsl_terms.specs.SpecTree.{conjunction_of, whole_formula};
ghost use Rattle.tsl_terms.specs.SpecView.{spec_tree};
ghost use Rattle.tsl_terms.specs.internal.ListLengths.{is_empty, is_one};

use crate::formula::{Formula, FormulaList};
use crate::spec::Spec;
use crate::term::{Term, TermList};

/// How many nodes a formula has, or the largest `u64` where there are more. A node counts 1 and what
/// its parts count; a test counts 1 and its arguments, and the signal on the left of an update is no
/// node. Both sides of `Iff` and the right side of `Weak` are counted twice. It takes no memory.
#[cycle(count_nodes)]
pub fn node_count(formula: &Formula) -> u64
    ensures { result ≡ min (nodes (formula_tree formula.now)) (2 ^ 64 - 1) }
{
    match formula {
        Formula::True | Formula::False => 1,
        Formula::Test(probe) => term_list_count(&probe.arguments).saturating_add(1),
        Formula::Update(_, term) => term_count(term).saturating_add(1),
        Formula::Not(part)
        | Formula::Next(part)
        | Formula::Finally(part)
        | Formula::Globally(part) => node_count(part).saturating_add(1),
        Formula::All(members) | Formula::Any(members) => { member_count(members).saturating_add(1) }
        Formula::Implies(left, right)
        | Formula::Until(left, right)
        | Formula::Release(left, right) => {
            node_count(left)
                .saturating_add(node_count(right))
                .saturating_add(1)
        }
        Formula::Iff(left, right) => {
            let sides = node_count(left).saturating_add(node_count(right));
            sides.saturating_add(sides).saturating_add(1)
        }
        Formula::Weak(left, right) => {
            let right = node_count(right);
            let sides = node_count(left).saturating_add(right);
            sides.saturating_add(right).saturating_add(1)
        }
    }
}

/// How many nodes the whole formula of a specification has, or the largest `u64` where there are more.
/// It counts along the four lists, so it makes no formula and takes no memory.
pub fn whole_node_count(spec: &Spec) -> u64
    ensures { result ≡ min (nodes (whole_formula (spec_tree spec.now))) (2 ^ 64 - 1) }
{
    let guaranteed = conjunction_count(&spec.guarantee_first, &spec.guarantee_always);
    if let (FormulaList::Empty, FormulaList::Empty) = (&spec.assume_first, &spec.assume_always) {
        return guaranteed;
    }
    conjunction_count(&spec.assume_first, &spec.assume_always)
        .saturating_add(guaranteed)
        .saturating_add(1)
}

/// How many nodes the conjunction of what holds at first and what holds always has.
fn conjunction_count(first: &FormulaList, always: &FormulaList) -> u64
    ensures { result ≡ min (nodes (conjunction_of
        (member_trees first.now ++ map (unary Globally) (member_trees always.now)))) (2 ^ 64 - 1) }
{
    let count = member_count(first).saturating_add(always_count(always));
    if is_one(first, always) {
        return count;
    }
    count.saturating_add(1)
}

/// Whether two lists have one member together.
fn is_one(first: &FormulaList, always: &FormulaList) -> bool
    ensures { result ≡ is_one (formula_trees first.now) (formula_trees always.now) }
{
    match (first, always) {
        (FormulaList::More(_, rest), FormulaList::Empty)
        | (FormulaList::Empty, FormulaList::More(_, rest)) => is_empty(rest),
        _ => false,
    }
}

/// Whether a list has no member.
fn is_empty(formulas: &FormulaList) -> bool
    ensures { result ≡ is_empty (formula_trees formulas.now) }
{
    match formulas {
        FormulaList::Empty => true,
        FormulaList::More(_, _) => false,
    }
}

/// How many nodes the members of a list have together, each under `Globally`.
fn always_count(formulas: &FormulaList) -> u64
    ensures { result ≡ min (nodes_of_members (formulas_of
        (map (unary Globally) (member_trees formulas.now)))) (2 ^ 64 - 1) }
{
    let mut count: u64 = 0;
    let mut rest = formulas;
    while let FormulaList::More(formula, next) = rest {
        count = count.saturating_add(node_count(formula).saturating_add(1));
        rest = next;
    }
    count
}

/// How many nodes the members of a list have together.
#[cycle(count_nodes)]
fn member_count(formulas: &FormulaList) -> u64
    ensures { result ≡ min (nodes_of_members (formula_trees formulas.now)) (2 ^ 64 - 1) }
{
    let mut count: u64 = 0;
    let mut rest = formulas;
    while let FormulaList::More(formula, next) = rest {
        count = count.saturating_add(node_count(formula));
        rest = next;
    }
    count
}

/// How many nodes a term has.
#[cycle(count_term_nodes)]
fn term_count(term: &Term) -> u64
    ensures { result ≡ min (nodes_of_term (term_tree term.now)) (2 ^ 64 - 1) }
{
    match term {
        Term::Signal(_) => 1,
        Term::Apply(_, arguments) => term_list_count(arguments).saturating_add(1),
    }
}

/// How many nodes the members of a list have together.
#[cycle(count_term_nodes)]
fn term_list_count(terms: &TermList) -> u64
    ensures { result ≡ min (nodes_of_terms (term_trees terms.now)) (2 ^ 64 - 1) }
{
    let mut count: u64 = 0;
    let mut rest = terms;
    while let TermList::More(term, next) = rest {
        count = count.saturating_add(term_count(term));
        rest = next;
    }
    count
}
