//! The atoms of an array, where they lie.

ghost use Rattle.std.specs.Prelude.{◌≡◌, length};
ghost use Rattle.jdata.specs.Leaf.{kind_in, atoms_in};

use crate::noun::Kind;
use crate::tree::Cell;

/// The atoms of an array in ravel order, where they lie.
#[derive(Clone, Copy, Debug)]
pub enum Leaf<'a> {
    Int(&'a [i64]),
    Char(&'a [u8]),
    Cell(&'a [Cell]),
}

impl Leaf<'_> {
    pub fn kind(&self) -> Kind
        ensures { result ≡ kind_in self.now }
    {
        match self {
            Leaf::Int(_) => Kind::Int,
            Leaf::Char(_) => Kind::Char,
            Leaf::Cell(_) => Kind::Boxed,
        }
    }

    /// How many atoms they are.
    pub fn len(&self) -> usize
        ensures { result ≡ length (atoms_in self.now) }
    {
        match self {
            Leaf::Int(numbers) => numbers.len(),
            Leaf::Char(bytes) => bytes.len(),
            Leaf::Cell(cells) => cells.len(),
        }
    }
}
