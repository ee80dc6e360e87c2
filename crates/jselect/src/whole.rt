//! Results as arrays.

ghost use Rattle.std.specs.Prelude.{◌≡◌, length};
ghost use Rattle.jdata.specs.Answers.{Answers};
ghost use Rattle.jdata.specs.Limits as limits;
ghost use Rattle.jdata.specs.Limits.{IsArray};
ghost use Rattle.jdata.specs.Noun.{product};
ghost use Rattle.jdata.specs.Trees.{atoms_of, noun_of};

use jdata::{Leaves, Tree, Trouble};

/// The array of this shape with as many atoms as it wants. Its only fault is Limit.
pub fn limited(shape: Vec<u64>, leaves: Leaves) -> Result<Tree, Trouble>
    requires { length (atoms_of leaves) ≡ product shape.items }
    ensures { Answers (limits.limited (noun_of shape.items leaves)) result }
{
    match Tree::limited(shape, leaves) {
        Ok(tree) => Ok(tree),
        Err(fault) => Err(Trouble::Fault(fault)),
    }
}

/// The array of this shape with these atoms, which are one.
pub fn array(shape: Vec<u64>, leaves: Leaves) -> Tree
    requires { IsArray (noun_of shape.items leaves) }
    ensures { result ≡ noun_of shape.items leaves }
{
    match Tree::new(shape, leaves) {
        Ok(tree) => tree,
        Err(_) => unreachable!(),
    }
}
