//! Arrays of new shapes.

ghost use Rattle.std.specs.Prelude.{◌≡◌, length};
ghost use Rattle.jdata.specs.Limits.{limited};
ghost use Rattle.jdata.specs.Noun.{product};
ghost use Rattle.jdata.specs.Trees.{noun_of, atoms_of};
ghost use Rattle.jarray.specs.Placed.{Gives};
ghost use Rattle.jstruct.specs.Sizes.{IsSize};

use jarray::Array;
use jdata::{Fault, Leaves, MAX_RANK, Tree, Trouble, product_within};

/// The array of this shape with as many atoms as it wants. Its only fault is Limit.
pub fn array_of(shape: Vec<u64>, atoms: Leaves) -> Result<Array, Trouble>
    requires { length (atoms_of atoms) ≡ product shape.items }
    ensures { Gives (limited (noun_of shape.items atoms)) result }
{
    match Tree::limited(shape, atoms) {
        Ok(tree) => Ok(Array::of(tree)),
        Err(fault) => Err(Trouble::Fault(fault)),
    }
}

/// How many atoms an array of these axes has. Its only fault is Limit.
pub fn size_of(axes: &[u64]) -> Result<u64, Trouble>
    ensures { IsSize axes.now result }
{
    if axes.len() > MAX_RANK {
        return Err(Trouble::Fault(Fault::Limit));
    }
    match product_within(axes) {
        Some(size) => Ok(size),
        None => Err(Trouble::Fault(Fault::Limit)),
    }
}
