ghost use Rattle.std.specs.Prelude.{◌≡◌, None};

use crate::array::Array;
use jdata::Tree;
use std::marker::Model;

/// Where arrays are put that several owners hold. It holds nothing yet.
#[derive(Debug, Drop)]
pub struct Room(());

impl Room {
    /// A room without a yard, where no array is held by several owners.
    pub fn none() -> Room {
        Room(())
    }
}

/// Where an array stood that was taken out to be written in, which contracts see as its block, if
/// it stood in one.
#[derive(Debug, Drop)]
pub struct Spot(());

impl Model for Spot {
    ghost use Rattle.std.specs.Prelude.{Option, None};
    ghost use Rattle.jarray.specs.Placed.{Block};

    ghost Value = { Option Block };

    ghost view = { λ _. None };
}

impl Spot {
    /// The place of an array that stood in no block.
    pub(crate) fn none() -> Spot
        ensures { result ≡ None }
    {
        Spot(())
    }

    /// This tree as an array, in the place where the other stood. No memory.
    pub fn put_back(self, tree: Tree, _room: &mut Room) -> Array
        ensures { result ≡ record { noun = tree; block = self } }
    {
        Array::of(tree)
    }
}
