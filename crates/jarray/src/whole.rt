//! Arrays of integers.

ghost use Rattle.std.specs.Prelude.{◌≡◌, length, map};
ghost use Rattle.jdata.specs.Limits.{IsShape};
ghost use Rattle.jdata.specs.Noun.{noun, product};
ghost use Rattle.jdata.specs.declared.noun.Kind.TheVariants as sort;
ghost use Rattle.jdata.specs.declared.noun.Atom.TheVariants as atom;

use jdata::{IntList, Leaves, Tree};

/// The integers of this shape, in their buffer.
pub fn integers(axes: Vec<u64>, numbers: IntList) -> Tree
    requires shape { IsShape axes.items }
    requires whole { length numbers ≡ product axes.items }
    ensures { result ≡ noun axes.items sort.Int (map atom.Int numbers) }
{
    match Tree::new(axes, Leaves::Int(numbers)) {
        Ok(tree) => tree,
        Err(_) => unreachable!(),
    }
}
