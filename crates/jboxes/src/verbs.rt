//! Box, open, level, raze and link.

ghost use Rattle.std.specs.Prelude.{◌≡◌, ◌∷◌, [], IfOk};
ghost use Rattle.jdata.specs.Noun.{shape, kind, atoms};
ghost use Rattle.jdata.specs.declared.noun.Kind.TheVariants as sort;
ghost use Rattle.jarray.specs.Placed.{Gives};
ghost use Rattle.jframe.specs.Assembly.{assembled};
ghost use Rattle.jframe.specs.Joining.{items_joined};
ghost use Rattle.jdata.specs.Firsts.{and_then};
ghost use Rattle.jboxes.specs.Dyads as pairs;
ghost use Rattle.jboxes.specs.Dyads.{appended};
ghost use Rattle.jboxes.specs.Monads as meant;

use crate::contents::{contents_of, results};
use crate::made::{array_of, frame_of};
use jarray::{Array, Room};
use jdata::{Cell, CellList, Kind, Leaves, NoMemory, Tree, Trouble};
use jframe::{assemble, join_arrays};
use std::alloc::Global;

/// `< y`: the argument in a box. Its only fault is Limit, for more than 64 levels.
pub fn enclose(alloc: Global, room: &mut Room, y: Array) -> Result<Array, Trouble>
    ensures { Gives (meant.enclosed y.noun) result }
{
    let tree = y.into_tree(alloc, room)?;
    let mut cells = Vec::new(alloc);
    cells.push(Cell::Boxed(tree))?;
    array_of(Vec::new(alloc), Leaves::Cell(CellList::of(cells)))
}

/// `L. y`: how deep boxes are nested.
pub fn level(alloc: Global, room: &mut Room, y: Array) -> Result<Array, Trouble>
    ensures { Gives (meant.level_of y.noun) result }
{
    let tree = y.into_tree(alloc, room)?;
    Ok(Array::atom(i64::from(tree.level())))
}

/// `> y` at its rank 0: the contents of the boxes in one array, and what isn't boxed as it is. The
/// faults are those of the assembly: Domain, then Limit.
pub fn disclose(alloc: Global, room: &mut Room, y: Array) -> Result<Array, Trouble>
    ensures { Gives (meant.disclosed y.noun) result }
{
    match y.kind(room) {
        Kind::Int => Ok(y),
        Kind::Char => Ok(y),
        Kind::Boxed => disclose_boxes(alloc, room, y),
    }
}

fn disclose_boxes(alloc: Global, room: &mut Room, y: Array) -> Result<Array, Trouble>
    requires { kind y.noun ≡ sort.Boxed }
    ensures { Gives (assembled (shape y.noun) (meant.results (atoms y.noun))) result }
{
    let tree = y.into_tree(alloc, room)?;
    let frame = frame_of(alloc, tree.shape())?;
    let (_, boxes) = tree.into_parts();
    let contents = results(alloc, boxes)?;
    match assemble(alloc, &frame, contents) {
        Ok(tree) => Ok(Array::of(tree)),
        Err(trouble) => Err(trouble),
    }
}

/// `; y`: the items of all contents, one content after the other, filled to one shape; what isn't
/// boxed is ravelled. The faults are Domain, for kinds that differ, and then Limit.
pub fn raze(alloc: Global, room: &mut Room, y: Array) -> Result<Array, Trouble>
    ensures { Gives (meant.razed y.noun) result }
{
    match y.kind(room) {
        Kind::Int => listed(alloc, room, y),
        Kind::Char => listed(alloc, room, y),
        Kind::Boxed => raze_boxes(alloc, room, y),
    }
}

fn raze_boxes(alloc: Global, room: &mut Room, y: Array) -> Result<Array, Trouble>
    requires { kind y.noun ≡ sort.Boxed }
    ensures { Gives (items_joined (meant.contents y.noun)) result }
{
    let tree = y.into_tree(alloc, room)?;
    let _axes = tree.shape();
    let (_, boxes) = tree.into_parts();
    let contents = contents_of(alloc, boxes)?;
    match join_arrays(alloc, contents) {
        Ok(tree) => Ok(Array::of(tree)),
        Err(trouble) => Err(trouble),
    }
}

/// `x ; y`: `x` in a box, and behind it `y`, in a box too unless it is of kind boxed. Its only
/// fault is Limit.
pub fn link(alloc: Global, room: &mut Room, x: Array, y: Array) -> Result<Array, Trouble>
    ensures { Gives (pairs.linked x.noun y.noun) result }
{
    match y.kind(room) {
        Kind::Int => link_unboxed(alloc, room, x, y),
        Kind::Char => link_unboxed(alloc, room, x, y),
        Kind::Boxed => link_boxes(alloc, room, x, y),
    }
}

fn link_unboxed(alloc: Global, room: &mut Room, x: Array, y: Array) -> Result<Array, Trouble>
    ensures { Gives (and_then (meant.enclosed x.noun) (λ first. and_then (meant.enclosed y.noun) (appended first))) result }
{
    match enclose(alloc, room, x) {
        Ok(first) => link_second(alloc, room, first, y),
        Err(trouble) => {
            y.done(room);
            Err(trouble)
        }
    }
}

fn link_second(alloc: Global, room: &mut Room, first: Array, y: Array) -> Result<Array, Trouble>
    ensures { Gives (and_then (meant.enclosed y.noun) (appended first.noun)) result }
{
    match enclose(alloc, room, y) {
        Ok(second) => join(alloc, room, first, second),
        Err(trouble) => {
            first.done(room);
            Err(trouble)
        }
    }
}

fn link_boxes(alloc: Global, room: &mut Room, x: Array, y: Array) -> Result<Array, Trouble>
    ensures { Gives (and_then (meant.enclosed x.noun) (λ first. appended first y.noun)) result }
{
    match enclose(alloc, room, x) {
        Ok(first) => join(alloc, room, first, y),
        Err(trouble) => {
            y.done(room);
            Err(trouble)
        }
    }
}

/// The items of the one and then those of the other.
fn join(alloc: Global, room: &mut Room, x: Array, y: Array) -> Result<Array, Trouble>
    ensures { Gives (appended x.noun y.noun) result }
{
    let x = x.into_tree(alloc, room)?;
    let y = y.into_tree(alloc, room)?;
    join_two(alloc, x, y)
}

fn join_two(alloc: Global, x: Tree, y: Tree) -> Result<Array, Trouble>
    ensures { Gives (items_joined (x ∷ y ∷ [])) result }
{
    let both = two(alloc, x, y)?;
    match join_arrays(alloc, both) {
        Ok(tree) => Ok(Array::of(tree)),
        Err(trouble) => Err(trouble),
    }
}

fn two(alloc: Global, x: Tree, y: Tree) -> Result<Vec<Tree>, NoMemory>
    ensures { IfOk result (λ v. v.items ≡ x ∷ y ∷ []) }
{
    let mut both = Vec::with_capacity(alloc, 2)?;
    both.push(x)?;
    both.push(y)?;
    Ok(both)
}

/// The atoms in a list, in the same buffer.
fn listed(alloc: Global, room: &mut Room, y: Array) -> Result<Array, Trouble>
    ensures { Gives (meant.listed y.noun) result }
{
    let (_, atoms) = y.into_tree(alloc, room)?.into_parts();
    let shape = Vec::from_slice(alloc, &[atoms.len()])?;
    array_of(shape, atoms)
}
