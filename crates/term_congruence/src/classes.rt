//! Tables of labels.

ghost use Rattle.std.specs.Prelude.{◌≡◌, ◌<◌, [], ◌∷◌, length, map, get_or, IfOk, OnOk};
ghost use Rattle.std.specs.List.{AllByRecursion};
ghost use Rattle.tsl_terms.specs.TermTree.{term_tree, term_trees, count_of_terms};
ghost use Rattle.tsl_terms.specs.WindowTree.{listed_tree, equated_tree};
ghost use Rattle.tsl_terms.specs.Unfolding.{term_listed};
ghost use Rattle.tsl_terms.specs.OneClass.{pair_of};
ghost use Rattle.term_congruence.specs.Classes.{IsClassTable};
ghost use Rattle.term_congruence.specs.internal.Shapes.{AllStand, AreDifferent, KeepsShapes, all_unfolded_by};
ghost use Rattle.term_congruence.specs.internal.ShapeView.{shape_trees};
ghost use Rattle.term_congruence.specs.internal.PairView.{pair_tree};
ghost use Rattle.term_congruence.specs.internal.PairLabels.{ArePairLabels};
ghost use Rattle.term_congruence.specs.internal.Rows.{AreLabelRows};
ghost use Rattle.term_congruence.specs.internal.Sides.{AreExactClasses, pairs_by};

use crate::closing::{LabelPair, classes_of};
use crate::congruence::labels_at;
use crate::labelling::{labels_of_terms, labels_of_updates};
use crate::shapes::{Shape, classes_at};
use base_library::{NoMemory, Sequence};
use indexmap::IndexSet;
use std::alloc::Global;
use tsl_terms::{Equated, Listed, Term, TermList};

/// Labels of terms at steps.
#[derive(Drop)]
pub struct ClassTable {
    /// A row for each step from 0 on, with a label for each term.
    pub rows: Sequence<Sequence<u32>>,
}

/// The labels of two arguments at a step.
pub(crate) fn pair_of_labels(
    alloc: Global,
    shapes: &mut IndexSet<Shape>,
    updates: &[Listed],
    step: u32,
    arguments: &TermList,
) -> Result<LabelPair, NoMemory>
    requires { count_of_terms (term_trees arguments.now) ≡ 2 }
    ensures keeps { OnOk result (KeepsShapes (shape_trees shapes.old.keys) (shape_trees shapes.new.keys)) }
    ensures labels { IfOk result (λ p. ArePairLabels (shape_trees shapes.new.keys)
        (pair_of (all_unfolded_by (map listed_tree updates.now) step (term_trees arguments.now))) (pair_tree p ∷ [])) }
{
    let labels = labels_at(alloc, shapes, updates, step, arguments)?;
    Ok(LabelPair {
        left: labels[0],
        right: labels[1],
    })
}

/// The labels of the two arguments of each equality at its offset.
fn pairs_of_labels(
    alloc: Global,
    shapes: &mut IndexSet<Shape>,
    updates: &[Listed],
    equalities: &[Equated],
) -> Result<Vec<LabelPair>, NoMemory>
    requires { AllByRecursion (λ e. count_of_terms e.probe.arguments ≡ 2) (map equated_tree equalities.now) }
    ensures keeps { OnOk result (KeepsShapes (shape_trees shapes.old.keys) (shape_trees shapes.new.keys)) }
    ensures labels { IfOk result (λ pairs. ArePairLabels (shape_trees shapes.new.keys)
        (pairs_by (term_listed (map listed_tree updates.now)) (map equated_tree equalities.now)) (map pair_tree pairs.items)) }
{
    let mut pairs = Vec::new(alloc);
    for equality in equalities {
        let arguments = &equality.probe.arguments;
        pairs.push(pair_of_labels(alloc, shapes, updates, equality.offset, arguments)?)?;
    }
    Ok(pairs)
}

/// The class of each label, where equalities are listed.
pub(crate) fn classes_of_labels(
    alloc: Global,
    shapes: &mut IndexSet<Shape>,
    updates: &[Listed],
    equalities: &[Equated],
) -> Result<Vec<u32>, NoMemory>
    requires two { AllByRecursion (λ e. count_of_terms e.probe.arguments ≡ 2) (map equated_tree equalities.now) }
    requires standing { AllStand (shape_trees shapes.old.keys) }
    requires different { AreDifferent (shape_trees shapes.old.keys) }
    ensures keeps { OnOk result (KeepsShapes (shape_trees shapes.old.keys) (shape_trees shapes.new.keys)) }
    ensures exact { IfOk result (λ classes. AreExactClasses (shape_trees shapes.new.keys)
        (pairs_by (term_listed (map listed_tree updates.now)) (map equated_tree equalities.now)) classes.items) }
{
    let pairs = pairs_of_labels(alloc, shapes, updates, equalities)?;
    Ok(classes_of(alloc, shapes.as_slice(), &pairs)?)
}

/// Rows of labels, with the class of each label in its place.
fn rows_by_classes(
    alloc: Global,
    classes: &[u32],
    rows: &[Sequence<u32>],
) -> Result<Sequence<Sequence<u32>>, NoMemory>
    requires { AllByRecursion (λ row. AllByRecursion (λ l. l < length classes.now) row) rows.now }
    ensures { IfOk result (λ new. new ≡ map (λ row. map (λ l. get_or classes.now l 0) row) rows.now) }
{
    let mut new = Sequence::new(alloc);
    for row in rows {
        new.push(Sequence::from_vec(classes_at(alloc, classes, row.as_slice())?))?;
    }
    Ok(new)
}

/// A row of labels of what terms unfold to, for each step from 0 to a last one.
fn label_rows(
    alloc: Global,
    shapes: &mut IndexSet<Shape>,
    terms: &[Term],
    updates: &[Listed],
    length: u32,
) -> Result<Sequence<Sequence<u32>>, NoMemory>
    ensures keeps { OnOk result (KeepsShapes (shape_trees shapes.old.keys) (shape_trees shapes.new.keys)) }
    ensures rows { IfOk result (λ rows. AreLabelRows (map listed_tree updates.now) (map term_tree terms.now) (shape_trees shapes.new.keys) rows length) }
{
    let mut before = Vec::new(alloc);
    let mut rows = Sequence::new(alloc);
    for step in 0..length {
        let row = labels_of_terms(alloc, shapes, updates, before.as_slice(), step, terms)?;
        rows.push(Sequence::from_vec(row))?;
        before = labels_of_updates(alloc, shapes, updates, before.as_slice(), step)?;
    }
    let last = labels_of_terms(alloc, shapes, updates, before.as_slice(), length, terms)?;
    rows.push(Sequence::from_vec(last))?;
    Ok(rows)
}

/// The labels of terms at the steps from 0 to a last one. Two labels are equal exactly where the listed equalities put what
/// the two terms unfold to at their steps into one class, the cells being the signals that are updated.
pub fn classes_along(
    alloc: Global,
    terms: &[Term],
    updates: &[Listed],
    equalities: &[Equated],
    length: u32,
) -> Result<ClassTable, NoMemory>
    requires { AllByRecursion (λ e. count_of_terms e.probe.arguments ≡ 2) (map equated_tree equalities.now) }
    ensures { IfOk result (λ table. IsClassTable (map term_tree terms.now) (map listed_tree updates.now) (map equated_tree equalities.now) length table.rows) }
{
    let mut shapes = IndexSet::new(alloc);
    let labels = label_rows(alloc, &mut shapes, terms, updates, length)?;
    if equalities.is_empty() {
        return Ok(ClassTable { rows: labels });
    }
    let classes = classes_of_labels(alloc, &mut shapes, updates, equalities)?;
    let rows = rows_by_classes(alloc, &classes, labels.as_slice())?;
    Ok(ClassTable { rows })
}
