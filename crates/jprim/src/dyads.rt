//! The verbs of two whole arrays: each with its kernel.

ghost use Rattle.jradix.specs.Bases as bases;
ghost use Rattle.jradix.specs.Digits as digits;
ghost use Rattle.jboxes.specs.Dyads as links;
ghost use Rattle.jsearch.specs.Finding as finding;
ghost use Rattle.jsearch.specs.Grades as grades;
ghost use Rattle.jsearch.specs.Intervals as intervals;
ghost use Rattle.jselect.specs.Copies as copies;
ghost use Rattle.jselect.specs.From as choosing;
ghost use Rattle.jstruct.specs.Axes as axes;
ghost use Rattle.jstruct.specs.Joins as joins;
ghost use Rattle.jstruct.specs.Laying as laying;
ghost use Rattle.jstruct.specs.Same as sides;
ghost use Rattle.jstruct.specs.Shaping as shaping;

use jarray::{Array, Room};
use jdata::Trouble;
use jframe::WholeDyad;
use std::alloc::Global;

/// The items of y, as many as x says.
pub struct Reshaped;

impl WholeDyad for Reshaped {
    ghost meant = { shaping.reshaped };

    fn apply(alloc: Global, room: &mut Room, x: Array, y: Array) -> Result<Array, Trouble> {
        jstruct::reshape(alloc, room, x, y)
    }
}

/// The items of x, and then those of y.
pub struct Appended;

impl WholeDyad for Appended {
    ghost meant = { joins.appended };

    fn apply(alloc: Global, room: &mut Room, x: Array, y: Array) -> Result<Array, Trouble> {
        jstruct::join(alloc, room, x, y)
    }
}

/// Each item of x with that of y.
pub struct Stitched;

impl WholeDyad for Stitched {
    ghost meant = { joins.stitched };

    fn apply(alloc: Global, room: &mut Room, x: Array, y: Array) -> Result<Array, Trouble> {
        jstruct::join_items(alloc, room, x, y)
    }
}

/// Two items, x and y.
pub struct Laminated;

impl WholeDyad for Laminated {
    ghost meant = { joins.laminated };

    fn apply(alloc: Global, room: &mut Room, x: Array, y: Array) -> Result<Array, Trouble> {
        jstruct::laminate(alloc, room, x, y)
    }
}

/// The axes of y, those that x names behind the others.
pub struct Reordered;

impl WholeDyad for Reordered {
    ghost meant = { axes.transposed_by };

    fn apply(alloc: Global, room: &mut Room, x: Array, y: Array) -> Result<Array, Trouble> {
        jstruct::transpose_by(alloc, room, x, y)
    }
}

/// The axes of y, turned as x says.
pub struct Rotated;

impl WholeDyad for Rotated {
    ghost meant = { laying.turned };

    fn apply(alloc: Global, room: &mut Room, x: Array, y: Array) -> Result<Array, Trouble> {
        jstruct::rotate(alloc, room, x, y)
    }
}

/// The first or last of each axis, as x says.
pub struct Taken;

impl WholeDyad for Taken {
    ghost meant = { laying.taken };

    fn apply(alloc: Global, room: &mut Room, x: Array, y: Array) -> Result<Array, Trouble> {
        jstruct::take(alloc, room, x, y)
    }
}

/// What is left without the first or last of each axis.
pub struct Dropped;

impl WholeDyad for Dropped {
    ghost meant = { laying.dropped };

    fn apply(alloc: Global, room: &mut Room, x: Array, y: Array) -> Result<Array, Trouble> {
        jstruct::drop(alloc, room, x, y)
    }
}

/// The left argument.
pub struct LeftArgument;

impl WholeDyad for LeftArgument {
    ghost meant = { sides.left };

    fn apply(_alloc: Global, _room: &mut Room, x: Array, y: Array) -> Result<Array, Trouble> {
        jstruct::left(x, y)
    }
}

/// The right argument.
pub struct RightArgument;

impl WholeDyad for RightArgument {
    ghost meant = { sides.right };

    fn apply(_alloc: Global, _room: &mut Room, x: Array, y: Array) -> Result<Array, Trouble> {
        jstruct::right(x, y)
    }
}

/// Nothing is done by a cap.
pub struct CapOfTwo;

impl WholeDyad for CapOfTwo {
    ghost meant = { sides.capped_dyad };

    fn apply(_alloc: Global, _room: &mut Room, x: Array, y: Array) -> Result<Array, Trouble> {
        jstruct::cap_dyad(x, y)
    }
}

/// Each item of y as often as x says.
pub struct Copied;

impl WholeDyad for Copied {
    ghost meant = { copies.copied };

    fn apply(alloc: Global, room: &mut Room, x: Array, y: Array) -> Result<Array, Trouble> {
        jselect::copy(alloc, room, x, y)
    }
}

/// The item of y that x names.
pub struct Selected;

impl WholeDyad for Selected {
    ghost meant = { choosing.selected };

    fn apply(alloc: Global, room: &mut Room, x: Array, y: Array) -> Result<Array, Trouble> {
        jselect::from(alloc, room, x, y)
    }
}

/// The item of y that one number of x after another names, opened.
pub struct Fetched;

impl WholeDyad for Fetched {
    ghost meant = { choosing.fetched };

    fn apply(alloc: Global, room: &mut Room, x: Array, y: Array) -> Result<Array, Trouble> {
        jselect::fetch(alloc, room, x, y)
    }
}

/// The number of the digits y in the bases x.
pub struct Based;

impl WholeDyad for Based {
    ghost meant = { bases.based };

    fn apply(alloc: Global, room: &mut Room, x: Array, y: Array) -> Result<Array, Trouble> {
        jradix::base(alloc, room, x, y)
    }
}

/// The digits of the number y in the bases x.
pub struct Digits;

impl WholeDyad for Digits {
    ghost meant = { digits.digits };

    fn apply(alloc: Global, room: &mut Room, x: Array, y: Array) -> Result<Array, Trouble> {
        jradix::digits(alloc, room, x, y)
    }
}

/// Whether the two match.
pub struct Matched;

impl WholeDyad for Matched {
    ghost meant = { finding.matched };

    fn apply(alloc: Global, room: &mut Room, x: Array, y: Array) -> Result<Array, Trouble> {
        jsearch::matched(alloc, room, x, y)
    }
}

/// The items of x that match no item of y.
pub struct Less;

impl WholeDyad for Less {
    ghost meant = { finding.less };

    fn apply(alloc: Global, room: &mut Room, x: Array, y: Array) -> Result<Array, Trouble> {
        jsearch::less(alloc, room, x, y)
    }
}

/// The first place of each cell of y among the items of x.
pub struct IndexOf;

impl WholeDyad for IndexOf {
    ghost meant = { finding.index_of };

    fn apply(alloc: Global, room: &mut Room, x: Array, y: Array) -> Result<Array, Trouble> {
        jsearch::index_of(alloc, room, x, y)
    }
}

/// The last place of each cell of y among the items of x.
pub struct LastIndexOf;

impl WholeDyad for LastIndexOf {
    ghost meant = { finding.last_index_of };

    fn apply(alloc: Global, room: &mut Room, x: Array, y: Array) -> Result<Array, Trouble> {
        jsearch::last_index_of(alloc, room, x, y)
    }
}

/// Whether each cell of x is among the items of y.
pub struct Member;

impl WholeDyad for Member {
    ghost meant = { finding.member };

    fn apply(alloc: Global, room: &mut Room, x: Array, y: Array) -> Result<Array, Trouble> {
        jsearch::member(alloc, room, x, y)
    }
}

/// The box of x, and behind it y.
pub struct Linked;

impl WholeDyad for Linked {
    ghost meant = { links.linked };

    fn apply(alloc: Global, room: &mut Room, x: Array, y: Array) -> Result<Array, Trouble> {
        jboxes::link(alloc, room, x, y)
    }
}

/// The items of x in the rising order of those of y.
pub struct SortedUp;

impl WholeDyad for SortedUp {
    ghost meant = { grades.sorted_up };

    fn apply(alloc: Global, room: &mut Room, x: Array, y: Array) -> Result<Array, Trouble> {
        jsearch::sort_up(alloc, room, x, y)
    }
}

/// The items of x in the falling order of those of y.
pub struct SortedDown;

impl WholeDyad for SortedDown {
    ghost meant = { grades.sorted_down };

    fn apply(alloc: Global, room: &mut Room, x: Array, y: Array) -> Result<Array, Trouble> {
        jsearch::sort_down(alloc, room, x, y)
    }
}

/// How many of the list x stand before each atom of y.
pub struct IntervalIndex;

impl WholeDyad for IntervalIndex {
    ghost meant = { intervals.interval_index };

    fn apply(alloc: Global, room: &mut Room, x: Array, y: Array) -> Result<Array, Trouble> {
        jsearch::interval_index(alloc, room, x, y)
    }
}
