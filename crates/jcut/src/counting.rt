//! How many items arrays have.

ghost use Rattle.std.specs.Prelude.{◌≡◌, ◌≤◌};
ghost use Rattle.jdata.specs.Limits.{most_atoms};
ghost use Rattle.jselect.specs.Items as items;

use jarray::{Array, Room};

/// How many items `y` has: an atom has one.
pub fn item_count(room: &Room, y: &Array) -> u64
    ensures value { result ≡ items.item_count y.now.noun }
    ensures at_most { result ≤ most_atoms }
{
    match y.shape(room) {
        [] => 1,
        [first, ..] => *first,
    }
}

/// The shape of an item of an array of this shape.
pub fn further_axes(axes: &[u64]) -> &[u64]
    ensures { result.now ≡ items.further_axes axes.now }
{
    match axes {
        [] => &[],
        [_, further @ ..] => further,
    }
}
