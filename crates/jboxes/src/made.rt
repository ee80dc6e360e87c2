//! Arrays of new shapes.

ghost use Rattle.std.specs.Prelude.{◌≡◌, ◌∷◌, [], IfOk, length};
ghost use Rattle.jdata.specs.Limits.{limited};
ghost use Rattle.jdata.specs.Noun.{noun, product};
ghost use Rattle.jdata.specs.Trees.{noun_of, atoms_of};
ghost use Rattle.jarray.specs.Placed.{Gives};
ghost use Rattle.jboxes.specs.Monads as meant;

use jarray::Array;
use jdata::{IntList, Leaves, NoMemory, Tree, Trouble};
use jshape::Shape;
use std::alloc::Global;

/// The array of this shape with as many atoms as it wants. Its only fault is Limit.
pub fn array_of(shape: Vec<u64>, atoms: Leaves) -> Result<Array, Trouble>
    requires { length (atoms_of atoms) ≡ product shape.items }
    ensures { Gives (limited (noun_of shape.items atoms)) result }
{
    match Tree::limited(shape, atoms) {
        Ok(tree) => Ok(Array::of(tree)),
        Err(fault) => Err(Trouble::Fault(fault)),
    }
}

/// What stands in no box: an empty list of integers.
pub fn no_content(alloc: Global) -> Result<Tree, NoMemory>
    ensures { IfOk result (λ t. t ≡ meant.no_content) }
{
    let axes = Vec::from_slice(alloc, &[0])?;
    match Tree::new(axes, Leaves::Int(IntList::of(Vec::new(alloc)))) {
        Ok(tree) => Ok(tree),
        Err(_) => Err(NoMemory),
    }
}

/// The axes of an array as a frame.
pub fn frame_of(alloc: Global, axes: &[u64]) -> Result<Shape, NoMemory>
    ensures { IfOk result (λ shape. shape ≡ axes.now) }
{
    match Shape::new(alloc, axes) {
        Ok(shape) => Ok(shape),
        Err(_) => Err(NoMemory),
    }
}
