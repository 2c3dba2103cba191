//! Shapes of free terms, which name their parts by labels.

ghost use Rattle.std.specs.Prelude.{◌≡◌, ◌<◌, length, map, get_or, slice_get, Some, IfOk, OnOk};
ghost use Rattle.std.specs.List.{AllByRecursion};
ghost use Rattle.term_congruence.specs.internal.Closing.{by_classes, HasPartsBelow, IsPlaced};
ghost use Rattle.term_congruence.specs.internal.Shapes.{Stands, KeepsShapes};
ghost use Rattle.term_congruence.specs.internal.ShapeView.{shape_tree, shape_trees};

use base_library::NoMemory;
use indexmap::IndexSet;
use std::alloc::Global;

/// What a label stands for.
#[derive(PartialEq, Eq, Hash, Drop)]
pub(crate) enum Shape {
    /// A signal at a step.
    Leaf(u32, u32),
    /// A function, and the labels of its arguments.
    Apply(u32, Vec<u32>),
}

/// The classes of labels.
pub(crate) fn classes_at(
    alloc: Global,
    classes: &[u32],
    labels: &[u32],
) -> Result<Vec<u32>, NoMemory>
    requires { AllByRecursion (λ l. l < length classes.now) labels.now }
    ensures { IfOk result (λ found. found.items ≡ map (λ l. get_or classes.now l 0) labels.now) }
{
    let mut found = Vec::new(alloc);
    for label in labels {
        found.push(classes[*label as usize])?;
    }
    Ok(found)
}

/// A shape with the classes of its parts in place of their labels.
pub(crate) fn shape_by_classes(
    alloc: Global,
    classes: &[u32],
    shape: &Shape,
) -> Result<Shape, NoMemory>
    requires { HasPartsBelow (length classes.now) (shape_tree shape.now) }
    ensures { IfOk result (λ key. shape_tree key ≡ by_classes classes.now (shape_tree shape.now)) }
{
    match shape {
        Shape::Leaf(signal, step) => Ok(Shape::Leaf(*signal, *step)),
        Shape::Apply(function, labels) => {
            Ok(Shape::Apply(*function, classes_at(alloc, classes, labels)?))
        }
    }
}

/// The place of a shape among others, at whose end it is added where it is not there.
pub(crate) fn place_of_shape(shapes: &mut IndexSet<Shape>, shape: Shape) -> Result<usize, NoMemory>
    ensures { IfOk result (λ place. IsPlaced (shape_trees shapes.old.keys) (shape_tree shape) (shape_trees shapes.new.keys) place) }
{
    let (place, _) = shapes.insert_full(shape)?;
    Ok(place)
}

/// The label of a shape of a free term: its place among others, at whose end it is added where it is not there.
pub(crate) fn label_of_shape(shapes: &mut IndexSet<Shape>, shape: Shape) -> Result<u32, NoMemory>
    requires { Stands (shape_trees shapes.old.keys) (shape_tree shape) }
    ensures keeps { OnOk result (KeepsShapes (shape_trees shapes.old.keys) (shape_trees shapes.new.keys)) }
    ensures there { IfOk result (λ label. slice_get (shape_trees shapes.new.keys) label ≡ Some (shape_tree shape)) }
{
    let place = place_of_shape(shapes, shape)?;
    if place > u32::MAX as usize {
        return Err(NoMemory);
    }
    Ok(place as u32)
}
