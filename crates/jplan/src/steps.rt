//! Numbers of repetitions.
ghost use Rattle.std.specs.Prelude.{◌≡◌, length, max};
ghost use Rattle.jdata.specs.Noun.{product};

use jdata::Axes;
use jshape::Shape;

/// Numbers of repetitions, one at least, and the shape of the list that they are.
#[derive(Debug, Drop)]
pub struct Steps {
    pub(crate) frame: Shape,
    pub(crate) counts: Axes,
    ghost listed: { length counts ≡ max (product frame) 1 },
}
