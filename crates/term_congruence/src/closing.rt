//! Classes of labels, joined until shapes that are the same by classes are in one class.

ghost use Rattle.std.specs.Prelude.{◌≡◌, ◌<◌, ◌≤◌, ℕ, Bool, true, length, map, slice_get, Some, IfOk, OnOk, IfSome, IfNone};
ghost use Rattle.std.specs.List.{AllByRecursion};
ghost use Rattle.term_congruence.specs.internal.Closing.{IsAllowed, AreBelow, StayJoined, IsClosed, IsApart, AreClasses, IsJoined, AreSmallest, AreOwn, ArePairsJoined, IsPairBelow, HasPartsBelow};
ghost use Rattle.term_congruence.specs.internal.ShapeView.{shape_trees};
ghost use Rattle.term_congruence.specs.internal.PairView.{pair_tree};

use crate::shapes::{Shape, place_of_shape, shape_by_classes};
use base_library::NoMemory;
use indexmap::IndexSet;
use std::alloc::Global;

/// Two labels.
#[derive(Clone, Copy)]
pub(crate) struct LabelPair {
    /// The one.
    pub(crate) left: u32,
    /// The other.
    pub(crate) right: u32,
}

/// Two classes.
#[derive(Clone, Copy)]
pub(crate) struct Apart {
    /// The one.
    pub(crate) one: u32,
    /// The other.
    pub(crate) other: u32,
}

/// Two classes of shapes that are the same by classes, or none where there are no such.
fn classes_apart(
    alloc: Global,
    shapes: &[Shape],
    classes: &[u32],
) -> Result<Option<Apart>, NoMemory>
    requires { AreClasses (shape_trees shapes.now) classes.now }
    ensures some { IfOk result (λ found. IfSome found (λ p. IsApart (shape_trees shapes.now) classes.now p.one p.other)) }
    ensures none { IfOk result (λ found. IfNone found (IsClosed (shape_trees shapes.now) classes.now)) }
{
    let mut seen = IndexSet::new(alloc);
    let mut found: Vec<u32> = Vec::new(alloc);
    for label in 0..shapes.len() {
        let key = shape_by_classes(alloc, classes, &shapes[label])?;
        let place = place_of_shape(&mut seen, key)?;
        if place == found.len() {
            found.push(classes[label])?;
        } else if found[place] != classes[label] {
            return Ok(Some(Apart {
                one: found[place],
                other: classes[label],
            }));
        }
    }
    Ok(None)
}

/// Puts the labels of a class into another one.
fn join(classes: &mut [u32], from: u32, to: u32)
    ensures { IsJoined classes.old classes.new from to }
{
    for label in 0..classes.len() {
        if classes[label] == from {
            classes[label] = to;
        }
    }
}

/// Joins classes until shapes that are the same by classes are in one class. Only labels are joined that are equivalent in
/// each allowed equivalence in which those were that were in one class before.
fn close(alloc: Global, shapes: &[Shape], classes: &mut [u32]) -> Result<(), NoMemory>
    requires { AreClasses (shape_trees shapes.now) classes.old }
    ensures joined { StayJoined classes.old classes.new }
    ensures below { (R : ℕ → ℕ → Bool) → IsAllowed (shape_trees shapes.now) R → AreBelow classes.old R → AreBelow classes.new R }
    ensures closed { OnOk result (IsClosed (shape_trees shapes.now) classes.new) }
{
    while let Some(apart) = classes_apart(alloc, shapes, classes)? {
        let kept = apart.one.min(apart.other);
        join(classes, apart.one.max(apart.other), kept);
    }
    Ok(())
}

/// A class of its own for each label.
fn own_classes(alloc: Global, count: usize) -> Result<Vec<u32>, NoMemory>
    ensures { IfOk result (λ classes. AreOwn count classes.items) }
{
    if count > u32::MAX as usize {
        return Err(NoMemory);
    }
    let mut classes = Vec::new(alloc);
    for label in 0..count {
        classes.push(label as u32)?;
    }
    Ok(classes)
}

/// Puts the two labels of each pair into one class.
fn join_pairs(classes: &mut [u32], pairs: &[LabelPair])
    requires { AllByRecursion (IsPairBelow (length classes.old)) (map pair_tree pairs.now) }
    ensures { ArePairsJoined (map pair_tree pairs.now) classes.old classes.new }
{
    for pair in pairs {
        let from = classes[pair.left as usize];
        let to = classes[pair.right as usize];
        join(classes, from, to);
    }
}

/// Joins classes of one label each to the smallest ones with these pairs.
fn settle(
    alloc: Global,
    shapes: &[Shape],
    pairs: &[LabelPair],
    classes: &mut [u32],
) -> Result<(), NoMemory>
    requires parts { AllByRecursion (HasPartsBelow (length (shape_trees shapes.now))) (shape_trees shapes.now) }
    requires pairs { AllByRecursion (IsPairBelow (length (shape_trees shapes.now))) (map pair_tree pairs.now) }
    requires own { AreOwn (length (shape_trees shapes.now)) classes.old }
    ensures { OnOk result (AreSmallest (shape_trees shapes.now) (map pair_tree pairs.now) classes.new) }
{
    join_pairs(classes, pairs);
    close(alloc, shapes, classes)
}

/// The smallest classes of labels in which each of these pairs is together, and in which two applications of one function are
/// together where their arguments are pairwise.
pub(crate) fn classes_of(
    alloc: Global,
    shapes: &[Shape],
    pairs: &[LabelPair],
) -> Result<Vec<u32>, NoMemory>
    requires parts { AllByRecursion (HasPartsBelow (length (shape_trees shapes.now))) (shape_trees shapes.now) }
    requires pairs { AllByRecursion (IsPairBelow (length (shape_trees shapes.now))) (map pair_tree pairs.now) }
    ensures { IfOk result (λ classes. AreSmallest (shape_trees shapes.now) (map pair_tree pairs.now) classes.items) }
{
    let mut classes = own_classes(alloc, shapes.len())?;
    settle(alloc, shapes, pairs, &mut classes)?;
    Ok(classes)
}
