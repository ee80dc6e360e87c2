//! The verbs of one whole array: each with its kernel.

ghost use Rattle.jboxes.specs.Monads as boxes;
ghost use Rattle.jboxes.specs.Worded as words;
ghost use Rattle.jformat.specs.Format as formats;
ghost use Rattle.jradix.specs.Bases as bases;
ghost use Rattle.jradix.specs.Digits as digits;
ghost use Rattle.jsearch.specs.Classes as classes;
ghost use Rattle.jsearch.specs.Finding as finding;
ghost use Rattle.jsearch.specs.Grades as grades;
ghost use Rattle.jsearch.specs.Steps as steps;
ghost use Rattle.jsearch.specs.Turned as turned;
ghost use Rattle.jselect.specs.Copies as copies;
ghost use Rattle.jstruct.specs.Ends as ends;
ghost use Rattle.jstruct.specs.Laying as laying;
ghost use Rattle.jstruct.specs.Same as sides;
ghost use Rattle.jstruct.specs.Shaping as shaping;
ghost use Rattle.jstruct.specs.Transposing as transposing;

use jarray::{Array, Room};
use jdata::{NoMemory, Trouble};
use jframe::WholeMonad;
use std::alloc::Global;

/// The axes, as a list.
pub struct ShapeOf;

impl WholeMonad for ShapeOf {
    ghost meant = { shaping.shape_of };

    fn apply(alloc: Global, room: &mut Room, y: Array) -> Result<Array, Trouble> {
        jstruct::shape_of(alloc, room, y)
    }
}

/// How many items there are.
pub struct Tally;

impl WholeMonad for Tally {
    ghost meant = { copies.counted };

    fn apply(alloc: Global, room: &mut Room, y: Array) -> Result<Array, Trouble> {
        jselect::tally(alloc, room, y)
    }
}

/// The atoms in a list.
pub struct Ravel;

impl WholeMonad for Ravel {
    ghost meant = { shaping.ravelled };

    fn apply(alloc: Global, room: &mut Room, y: Array) -> Result<Array, Trouble> {
        jstruct::ravel(alloc, room, y)
    }
}

/// The atoms of each item in a list.
pub struct RavelItems;

impl WholeMonad for RavelItems {
    ghost meant = { shaping.items_ravelled };

    fn apply(alloc: Global, room: &mut Room, y: Array) -> Result<Array, Trouble> {
        jstruct::ravel_items(alloc, room, y)
    }
}

/// The array as an only item.
pub struct Itemize;

impl WholeMonad for Itemize {
    ghost meant = { shaping.itemized };

    fn apply(alloc: Global, room: &mut Room, y: Array) -> Result<Array, Trouble> {
        jstruct::itemize(alloc, room, y)
    }
}

/// The axes in reverse order.
pub struct Transpose;

impl WholeMonad for Transpose {
    ghost meant = { transposing.transposed };

    fn apply(alloc: Global, room: &mut Room, y: Array) -> Result<Array, Trouble> {
        jstruct::transpose(alloc, room, y)
    }
}

/// The items in reverse order.
pub struct Reverse;

impl WholeMonad for Reverse {
    ghost meant = { ends.reversed };

    fn apply(alloc: Global, room: &mut Room, y: Array) -> Result<Array, Trouble> {
        jstruct::reverse(alloc, room, y)
    }
}

/// The first item.
pub struct Head;

impl WholeMonad for Head {
    ghost meant = { ends.headed };

    fn apply(alloc: Global, room: &mut Room, y: Array) -> Result<Array, Trouble> {
        jstruct::head(alloc, room, y)
    }
}

/// The last item.
pub struct Tail;

impl WholeMonad for Tail {
    ghost meant = { ends.tailed };

    fn apply(alloc: Global, room: &mut Room, y: Array) -> Result<Array, Trouble> {
        jstruct::tail(alloc, room, y)
    }
}

/// All items but the first.
pub struct Behead;

impl WholeMonad for Behead {
    ghost meant = { laying.beheaded };

    fn apply(alloc: Global, room: &mut Room, y: Array) -> Result<Array, Trouble> {
        jstruct::behead(alloc, room, y)
    }
}

/// All items but the last.
pub struct Curtail;

impl WholeMonad for Curtail {
    ghost meant = { laying.curtailed };

    fn apply(alloc: Global, room: &mut Room, y: Array) -> Result<Array, Trouble> {
        jstruct::curtail(alloc, room, y)
    }
}

/// The argument itself.
pub struct Same;

impl WholeMonad for Same {
    ghost meant = { sides.same };

    fn apply(_alloc: Global, _room: &mut Room, y: Array) -> Result<Array, Trouble> {
        jstruct::same(y)
    }
}

/// Nothing is done by a cap.
pub struct Cap;

impl WholeMonad for Cap {
    ghost meant = { sides.capped };

    fn apply(_alloc: Global, _room: &mut Room, y: Array) -> Result<Array, Trouble> {
        jstruct::cap(y)
    }
}

/// The places of an array of these axes.
pub struct Integers;

impl WholeMonad for Integers {
    ghost meant = { turned.integers };

    fn apply(alloc: Global, room: &mut Room, y: Array) -> Result<Array, Trouble> {
        jsearch::integers(alloc, room, y)
    }
}

/// The integers from a number's opposite to it.
pub struct Steps;

impl WholeMonad for Steps {
    ghost meant = { steps.steps };

    fn apply(alloc: Global, room: &mut Room, y: Array) -> Result<Array, Trouble> {
        jsearch::steps(alloc, room, y)
    }
}

/// Each place as often as the number there says.
pub struct Indices;

impl WholeMonad for Indices {
    ghost meant = { steps.indices };

    fn apply(alloc: Global, room: &mut Room, y: Array) -> Result<Array, Trouble> {
        jsearch::indices(alloc, room, y)
    }
}

/// The array in a box.
pub struct Enclose;

impl WholeMonad for Enclose {
    ghost meant = { boxes.enclosed };

    fn apply(alloc: Global, room: &mut Room, y: Array) -> Result<Array, Trouble> {
        jboxes::enclose(alloc, room, y)
    }
}

/// What stands in the boxes.
pub struct Disclose;

impl WholeMonad for Disclose {
    ghost meant = { boxes.disclosed };

    fn apply(alloc: Global, room: &mut Room, y: Array) -> Result<Array, Trouble> {
        jboxes::disclose(alloc, room, y)
    }
}

/// How deep the boxes are.
pub struct LevelOf;

impl WholeMonad for LevelOf {
    ghost meant = { boxes.level_of };

    fn apply(alloc: Global, room: &mut Room, y: Array) -> Result<Array, Trouble> {
        jboxes::level(alloc, room, y)
    }
}

/// The number of binary digits.
pub struct BaseTwo;

impl WholeMonad for BaseTwo {
    ghost meant = { bases.based_two };

    fn apply(alloc: Global, room: &mut Room, y: Array) -> Result<Array, Trouble> {
        jradix::base_two(alloc, room, y)
    }
}

/// The binary digits of each number.
pub struct Binary;

impl WholeMonad for Binary {
    ghost meant = { digits.binary };

    fn apply(alloc: Global, room: &mut Room, y: Array) -> Result<Array, Trouble> {
        jradix::binary(alloc, room, y)
    }
}

/// The items that match no earlier one.
pub struct Nub;

impl WholeMonad for Nub {
    ghost meant = { finding.nub };

    fn apply(alloc: Global, room: &mut Room, y: Array) -> Result<Array, Trouble> {
        jsearch::nub(alloc, room, y)
    }
}

/// Which items match no earlier one.
pub struct Sieve;

impl WholeMonad for Sieve {
    ghost meant = { finding.sieve };

    fn apply(alloc: Global, room: &mut Room, y: Array) -> Result<Array, Trouble> {
        jsearch::sieve(alloc, room, y)
    }
}

/// The items of all contents.
pub struct Raze;

impl WholeMonad for Raze {
    ghost meant = { boxes.razed };

    fn apply(alloc: Global, room: &mut Room, y: Array) -> Result<Array, Trouble> {
        jboxes::raze(alloc, room, y)
    }
}

/// Which items match which.
pub struct Classify;

impl WholeMonad for Classify {
    ghost meant = { classes.classified };

    fn apply(alloc: Global, room: &mut Room, y: Array) -> Result<Array, Trouble> {
        jsearch::classify(alloc, room, y)
    }
}

/// The places of the items in rising order.
pub struct GradeUp;

impl WholeMonad for GradeUp {
    ghost meant = { grades.grade_up };

    fn apply(alloc: Global, room: &mut Room, y: Array) -> Result<Array, Trouble> {
        jsearch::grade_up(alloc, room, y)
    }
}

/// The places of the items in falling order.
pub struct GradeDown;

impl WholeMonad for GradeDown {
    ghost meant = { grades.grade_down };

    fn apply(alloc: Global, room: &mut Room, y: Array) -> Result<Array, Trouble> {
        jsearch::grade_down(alloc, room, y)
    }
}

/// The words of a text.
pub struct Words;

impl WholeMonad for Words {
    ghost meant = { words.worded };

    fn apply(alloc: Global, room: &mut Room, y: Array) -> Result<Array, Trouble> {
        jboxes::words(alloc, room, y)
    }
}

/// The display, as characters.
pub struct Format;

impl WholeMonad for Format {
    ghost meant = { formats.format_of };

    fn apply(alloc: Global, room: &mut Room, y: Array) -> Result<Array, Trouble> {
        let tree = match y.into_tree(alloc, room) {
            Ok(tree) => tree,
            Err(NoMemory) => return Err(Trouble::NoMemory),
        };
        match jformat::format(alloc, &tree) {
            Ok(text) => Ok(Array::of(text)),
            Err(trouble) => Err(trouble),
        }
    }
}
