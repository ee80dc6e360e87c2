//! Frames of results: for pieces, and where there is none.
ghost use Rattle.std.specs.Prelude.{◌≡◌, ◌∷◌, [], length};
ghost use Rattle.jdata.specs.Noun.{product};

use jcut::Pieces;
use jshape::Shape;

/// The pieces of an array, and how many there are as a shape.
#[derive(Debug, Drop)]
pub(crate) struct Counted {
    pub(crate) pieces: Pieces,
    pub(crate) frame: Shape,
    ghost counted: { frame ≡ length pieces.places ∷ [] },
}

/// A frame with a 0.
#[derive(Debug, Drop)]
pub struct Nowhere {
    pub(crate) frame: Shape,
    ghost none: { product frame ≡ 0 },
}
