//! Whether an array can stand for cells of another.

ghost use Rattle.std.specs.Prelude.{◌≡◌, ◌||◌};
ghost use Rattle.jdata.specs.Leaf.{kind_in, atoms_in};
ghost use Rattle.jdata.specs.Kinds.{kinds_match};
ghost use Rattle.jamend.specs.Amended as meant;

use jdata::{Fault, Leaf};

/// Whether atoms are of one kind, where no atoms are of each.
pub fn kinds_agree(x: Leaf<'_>, y: Leaf<'_>) -> bool
    ensures { result ≡ (kinds_match (kind_in x.entry) (kind_in y.entry) (atoms_in x.entry) || kinds_match (kind_in y.entry) (kind_in x.entry) (atoms_in y.entry)) }
{
    match (x, y) {
        (Leaf::Int(_), Leaf::Int(_)) => true,
        (Leaf::Char(_), Leaf::Char(_)) => true,
        (Leaf::Cell(_), Leaf::Cell(_)) => true,
        _ => x.len() == 0 || y.len() == 0,
    }
}

/// What is wrong with axes that are to be the last ones of a target: Rank where they are more than
/// its, Length where they differ.
pub fn shape_fault(target: &[u64], axes: &[u64]) -> Option<Fault>
    ensures { result ≡ meant.shape_fault target.now axes.now }
{
    if axes.len() > target.len() {
        return Some(Fault::Rank);
    }
    let last = &target[target.len() - axes.len()..];
    if last == axes {
        None
    } else {
        Some(Fault::Length)
    }
}
