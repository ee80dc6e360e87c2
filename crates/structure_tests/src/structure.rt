use jarray::{Array, Room};
use jdata::{Bytes, Cell, CellList, Fault, IntList, Leaves, Tree, Trouble};
use jstruct::{
    behead, cap, cap_dyad, curtail, drop, head, itemize, join, join_items, laminate, left, ravel,
    ravel_items, reshape, reverse, right, rotate, same, shape_of, tail, take, transpose,
    transpose_by,
};
use std::alloc::Global;
use std::test::Fail;

#[derive(Clone, Copy)]
enum Atoms<'a> {
    Ints(&'a [i64]),
    Text(&'a [u8]),
    /// Boxes with an integer each, or the fill.
    Boxes(&'a [Option<i64>]),
}

use Atoms::{Boxes, Ints, Text};

/// The shape and the atoms of an array.
type Given<'a> = (&'a [u64], Atoms<'a>);

#[derive(Clone, Copy)]
enum Monad {
    ShapeOf,
    Ravel,
    RavelItems,
    Itemize,
    Head,
    Tail,
    Behead,
    Curtail,
    Reverse,
    Transpose,
    Same,
    Cap,
}

#[derive(Clone, Copy)]
enum Dyad {
    Reshape,
    Take,
    Drop,
    Rotate,
    Left,
    Right,
    Cap,
    Join,
    JoinItems,
    Laminate,
    TransposeBy,
}

fn content(alloc: Global, number: Option<i64>) -> Result<Tree, Fail> {
    match number {
        Some(number) => Ok(Tree::atom(alloc, number)?),
        None => {
            let shape = Vec::from_slice(alloc, &[0])?;
            Ok(Tree::new(shape, Leaves::Int(IntList::of(Vec::new(alloc))))?)
        }
    }
}

fn boxes(alloc: Global, contents: &[Option<i64>]) -> Result<Leaves, Fail> {
    let mut cells = Vec::new(alloc);
    for number in contents {
        cells.push(Cell::Boxed(content(alloc, *number)?))?;
    }
    Ok(Leaves::Cell(CellList::of(cells)))
}

fn leaves(alloc: Global, atoms: Atoms<'_>) -> Result<Leaves, Fail> {
    match atoms {
        Ints(numbers) => Ok(Leaves::Int(IntList::of(Vec::from_slice(alloc, numbers)?))),
        Text(bytes) => Ok(Leaves::Char(Bytes::of(Vec::from_slice(alloc, bytes)?))),
        Boxes(contents) => boxes(alloc, contents),
    }
}

fn array(alloc: Global, given: Given<'_>) -> Result<Array, Fail> {
    let shape = Vec::from_slice(alloc, given.0)?;
    Ok(Array::of(Tree::new(shape, leaves(alloc, given.1)?)?))
}

fn apply1(alloc: Global, room: &mut Room, verb: Monad, y: Array) -> Result<Array, Trouble> {
    match verb {
        Monad::ShapeOf => shape_of(alloc, room, y),
        Monad::Ravel => ravel(alloc, room, y),
        Monad::RavelItems => ravel_items(alloc, room, y),
        Monad::Itemize => itemize(alloc, room, y),
        Monad::Head => head(alloc, room, y),
        Monad::Tail => tail(alloc, room, y),
        Monad::Behead => behead(alloc, room, y),
        Monad::Curtail => curtail(alloc, room, y),
        Monad::Reverse => reverse(alloc, room, y),
        Monad::Transpose => transpose(alloc, room, y),
        Monad::Same => same(y),
        Monad::Cap => cap(y),
    }
}

fn apply2(
    alloc: Global,
    room: &mut Room,
    verb: Dyad,
    x: Array,
    y: Array,
) -> Result<Array, Trouble> {
    match verb {
        Dyad::Reshape => reshape(alloc, room, x, y),
        Dyad::Take => take(alloc, room, x, y),
        Dyad::Drop => drop(alloc, room, x, y),
        Dyad::Rotate => rotate(alloc, room, x, y),
        Dyad::Left => left(x, y),
        Dyad::Right => right(x, y),
        Dyad::Cap => cap_dyad(x, y),
        Dyad::Join => join(alloc, room, x, y),
        Dyad::JoinItems => join_items(alloc, room, x, y),
        Dyad::Laminate => laminate(alloc, room, x, y),
        Dyad::TransposeBy => transpose_by(alloc, room, x, y),
    }
}

/// Whether the answer is the array or, without one, the fault.
fn is_answer(
    alloc: Global,
    room: &Room,
    answer: &Result<Array, Trouble>,
    expected: Result<Given<'_>, Fault>,
) -> Result<bool, Fail> {
    match (answer, expected) {
        (Ok(result), Ok(given)) => {
            let wanted = array(alloc, given)?;
            Ok(result.kind(room) == wanted.kind(room) && result.match_with(room, &wanted))
        }
        (Err(trouble), Err(fault)) => Ok(*trouble == Trouble::Fault(fault)),
        _ => Ok(false),
    }
}

type Case1<'a> = (Monad, Given<'a>, Result<Given<'a>, Fault>);

type Case2<'a> = (Dyad, Given<'a>, Given<'a>, Result<Given<'a>, Fault>);

fn gives1(alloc: Global, case: Case1<'_>) -> Result<bool, Fail> {
    let mut room = Room::none();
    let y = array(alloc, case.1)?;
    let answer = apply1(alloc, &mut room, case.0, y);
    is_answer(alloc, &room, &answer, case.2)
}

fn gives2(alloc: Global, case: Case2<'_>) -> Result<bool, Fail> {
    let mut room = Room::none();
    let x = array(alloc, case.1)?;
    let y = array(alloc, case.2)?;
    let answer = apply2(alloc, &mut room, case.0, x, y);
    is_answer(alloc, &room, &answer, case.3)
}

#[test]
fn shapes_are_made(rt: HostRuntime) -> Result<(), Fail> {
    let table: [Case1<'_>; 16] = [
        (
            Monad::ShapeOf,
            (&[2, 3], Ints(&[0, 1, 2, 3, 4, 5])),
            Ok((&[2], Ints(&[2, 3]))),
        ),
        (Monad::ShapeOf, (&[], Ints(&[7])), Ok((&[0], Ints(&[])))),
        (
            Monad::ShapeOf,
            (&[0, 4], Text(b"")),
            Ok((&[2], Ints(&[0, 4]))),
        ),
        (
            Monad::Ravel,
            (&[2, 3], Ints(&[0, 1, 2, 3, 4, 5])),
            Ok((&[6], Ints(&[0, 1, 2, 3, 4, 5]))),
        ),
        (Monad::Ravel, (&[], Text(b"a")), Ok((&[1], Text(b"a")))),
        (Monad::Ravel, (&[0, 4], Text(b"")), Ok((&[0], Text(b"")))),
        (
            Monad::Ravel,
            (&[1, 2], Boxes(&[Some(1), Some(2)])),
            Ok((&[2], Boxes(&[Some(1), Some(2)]))),
        ),
        (
            Monad::RavelItems,
            (&[2, 2, 2], Ints(&[0, 1, 2, 3, 4, 5, 6, 7])),
            Ok((&[2, 4], Ints(&[0, 1, 2, 3, 4, 5, 6, 7]))),
        ),
        (
            Monad::RavelItems,
            (&[3], Text(b"abc")),
            Ok((&[3, 1], Text(b"abc"))),
        ),
        (
            Monad::RavelItems,
            (&[], Ints(&[5])),
            Ok((&[1, 1], Ints(&[5]))),
        ),
        (
            Monad::RavelItems,
            (&[3, 0], Text(b"")),
            Ok((&[3, 0], Text(b""))),
        ),
        (
            Monad::Itemize,
            (&[2], Ints(&[1, 2])),
            Ok((&[1, 2], Ints(&[1, 2]))),
        ),
        (
            Monad::Itemize,
            (&[], Boxes(&[Some(4)])),
            Ok((&[1], Boxes(&[Some(4)]))),
        ),
        (Monad::Itemize, (&[1; 63], Ints(&[1])), Err(Fault::Limit)),
        (Monad::Same, (&[2], Text(b"ab")), Ok((&[2], Text(b"ab")))),
        (Monad::Cap, (&[2], Text(b"ab")), Err(Fault::Domain)),
    ];
    for case in table.iter() {
        assert!(rt; gives1(rt.alloc(), *case)?);
    }
    Ok(())
}

#[test]
fn items_are_taken_from_the_ends(rt: HostRuntime) -> Result<(), Fail> {
    let table: [Case1<'_>; 20] = [
        (Monad::Head, (&[3], Text(b"abc")), Ok((&[], Text(b"a")))),
        (
            Monad::Head,
            (&[2, 2], Ints(&[1, 2, 3, 4])),
            Ok((&[2], Ints(&[1, 2]))),
        ),
        (Monad::Head, (&[], Ints(&[7])), Ok((&[], Ints(&[7])))),
        (Monad::Head, (&[0], Ints(&[])), Ok((&[], Ints(&[0])))),
        (Monad::Head, (&[0, 2], Text(b"")), Ok((&[2], Text(b"  ")))),
        (Monad::Head, (&[0], Boxes(&[])), Ok((&[], Boxes(&[None])))),
        (Monad::Tail, (&[3], Text(b"abc")), Ok((&[], Text(b"c")))),
        (
            Monad::Tail,
            (&[2, 2], Ints(&[1, 2, 3, 4])),
            Ok((&[2], Ints(&[3, 4]))),
        ),
        (
            Monad::Tail,
            (&[0, 2], Boxes(&[])),
            Ok((&[2], Boxes(&[None, None]))),
        ),
        (Monad::Tail, (&[], Text(b"a")), Ok((&[], Text(b"a")))),
        (
            Monad::Behead,
            (&[3], Ints(&[1, 2, 3])),
            Ok((&[2], Ints(&[2, 3]))),
        ),
        (
            Monad::Behead,
            (&[2, 2], Text(b"abcd")),
            Ok((&[1, 2], Text(b"cd"))),
        ),
        (Monad::Behead, (&[], Ints(&[1])), Ok((&[0], Ints(&[])))),
        (Monad::Behead, (&[0], Ints(&[])), Ok((&[0], Ints(&[])))),
        (
            Monad::Behead,
            (&[0, 3], Ints(&[])),
            Ok((&[0, 3], Ints(&[]))),
        ),
        (
            Monad::Curtail,
            (&[3], Ints(&[1, 2, 3])),
            Ok((&[2], Ints(&[1, 2]))),
        ),
        (
            Monad::Curtail,
            (&[2, 2], Text(b"abcd")),
            Ok((&[1, 2], Text(b"ab"))),
        ),
        (Monad::Curtail, (&[], Text(b"a")), Ok((&[0], Text(b"")))),
        (
            Monad::Curtail,
            (&[1], Boxes(&[Some(1)])),
            Ok((&[0], Boxes(&[]))),
        ),
        (
            Monad::Curtail,
            (&[2], Boxes(&[Some(1), Some(2)])),
            Ok((&[1], Boxes(&[Some(1)]))),
        ),
    ];
    for case in table.iter() {
        assert!(rt; gives1(rt.alloc(), *case)?);
    }
    Ok(())
}

#[test]
fn items_and_axes_are_reversed(rt: HostRuntime) -> Result<(), Fail> {
    let table: [Case1<'_>; 12] = [
        (
            Monad::Reverse,
            (&[3], Ints(&[1, 2, 3])),
            Ok((&[3], Ints(&[3, 2, 1]))),
        ),
        (
            Monad::Reverse,
            (&[2, 2], Ints(&[1, 2, 3, 4])),
            Ok((&[2, 2], Ints(&[3, 4, 1, 2]))),
        ),
        (Monad::Reverse, (&[], Ints(&[5])), Ok((&[], Ints(&[5])))),
        (Monad::Reverse, (&[0], Text(b"")), Ok((&[0], Text(b"")))),
        (
            Monad::Reverse,
            (&[2, 1, 2], Text(b"abcd")),
            Ok((&[2, 1, 2], Text(b"cdab"))),
        ),
        (
            Monad::Reverse,
            (&[2], Boxes(&[Some(1), Some(2)])),
            Ok((&[2], Boxes(&[Some(2), Some(1)]))),
        ),
        (
            Monad::Transpose,
            (&[2, 3], Ints(&[0, 1, 2, 3, 4, 5])),
            Ok((&[3, 2], Ints(&[0, 3, 1, 4, 2, 5]))),
        ),
        (
            Monad::Transpose,
            (&[3], Text(b"abc")),
            Ok((&[3], Text(b"abc"))),
        ),
        (Monad::Transpose, (&[], Ints(&[7])), Ok((&[], Ints(&[7])))),
        (
            Monad::Transpose,
            (&[2, 1, 2], Text(b"abcd")),
            Ok((&[2, 1, 2], Text(b"acbd"))),
        ),
        (
            Monad::Transpose,
            (&[0, 2], Boxes(&[])),
            Ok((&[2, 0], Boxes(&[]))),
        ),
        (
            Monad::Transpose,
            (&[2, 2, 3], Ints(&[0, 1, 2, 3, 4, 5, 6, 7, 8, 9, 10, 11])),
            Ok((&[3, 2, 2], Ints(&[0, 6, 3, 9, 1, 7, 4, 10, 2, 8, 5, 11]))),
        ),
    ];
    for case in table.iter() {
        assert!(rt; gives1(rt.alloc(), *case)?);
    }
    Ok(())
}

#[test]
fn axes_are_filled_again_and_again(rt: HostRuntime) -> Result<(), Fail> {
    let table: [Case2<'_>; 18] = [
        (
            Dyad::Reshape,
            (&[2], Ints(&[2, 3])),
            (&[3], Ints(&[1, 2, 3])),
            Ok((&[2, 3], Ints(&[1, 2, 3, 1, 2, 3]))),
        ),
        (
            Dyad::Reshape,
            (&[], Ints(&[3])),
            (&[], Ints(&[5])),
            Ok((&[3], Ints(&[5, 5, 5]))),
        ),
        (
            Dyad::Reshape,
            (&[1], Ints(&[3])),
            (&[2, 2], Ints(&[1, 2, 3, 4])),
            Ok((&[3, 2], Ints(&[1, 2, 3, 4, 1, 2]))),
        ),
        (
            Dyad::Reshape,
            (&[1], Ints(&[3])),
            (&[2], Boxes(&[Some(1), Some(2)])),
            Ok((&[3], Boxes(&[Some(1), Some(2), Some(1)]))),
        ),
        (
            Dyad::Reshape,
            (&[0], Ints(&[])),
            (&[2], Text(b"ab")),
            Ok((&[], Text(b"a"))),
        ),
        (
            Dyad::Reshape,
            (&[0], Text(b"")),
            (&[2], Text(b"ab")),
            Ok((&[], Text(b"a"))),
        ),
        (
            Dyad::Reshape,
            (&[1], Ints(&[0])),
            (&[0], Ints(&[])),
            Ok((&[0], Ints(&[]))),
        ),
        (
            Dyad::Reshape,
            (&[2], Ints(&[0, 3])),
            (&[0], Text(b"")),
            Ok((&[0, 3], Text(b""))),
        ),
        (
            Dyad::Reshape,
            (&[1], Ints(&[2])),
            (&[3, 0], Ints(&[])),
            Ok((&[2, 0], Ints(&[]))),
        ),
        (
            Dyad::Reshape,
            (&[1], Ints(&[-1])),
            (&[1], Ints(&[1])),
            Err(Fault::Domain),
        ),
        (
            Dyad::Reshape,
            (&[], Text(b"a")),
            (&[1], Ints(&[1])),
            Err(Fault::Domain),
        ),
        (
            Dyad::Reshape,
            (&[], Boxes(&[Some(1)])),
            (&[1], Ints(&[1])),
            Err(Fault::Domain),
        ),
        (
            Dyad::Reshape,
            (&[1], Ints(&[2])),
            (&[0], Ints(&[])),
            Err(Fault::Length),
        ),
        (
            Dyad::Reshape,
            (&[], Text(b"a")),
            (&[0], Ints(&[])),
            Err(Fault::Domain),
        ),
        (
            Dyad::Reshape,
            (&[1], Ints(&[134_217_729])),
            (&[0], Ints(&[])),
            Err(Fault::Length),
        ),
        (
            Dyad::Reshape,
            (&[1], Ints(&[134_217_729])),
            (&[1], Ints(&[1])),
            Err(Fault::Limit),
        ),
        (
            Dyad::Reshape,
            (&[2], Ints(&[0, 134_217_729])),
            (&[1], Ints(&[1])),
            Err(Fault::Limit),
        ),
        (
            Dyad::Reshape,
            (&[2], Ints(&[1, 1])),
            (&[1; 63], Ints(&[1])),
            Err(Fault::Limit),
        ),
    ];
    for case in table.iter() {
        assert!(rt; gives2(rt.alloc(), *case)?);
    }
    Ok(())
}

#[test]
fn numbers_are_taken_and_filled(rt: HostRuntime) -> Result<(), Fail> {
    let nine: Given<'_> = (&[3, 3], Ints(&[0, 1, 2, 3, 4, 5, 6, 7, 8]));
    let table: [Case2<'_>; 19] = [
        (
            Dyad::Take,
            (&[], Ints(&[3])),
            (&[2], Ints(&[7, 8])),
            Ok((&[3], Ints(&[7, 8, 0]))),
        ),
        (
            Dyad::Take,
            (&[], Ints(&[-3])),
            (&[2], Ints(&[7, 8])),
            Ok((&[3], Ints(&[0, 7, 8]))),
        ),
        (
            Dyad::Take,
            (&[1], Ints(&[1])),
            (&[2], Ints(&[7, 8])),
            Ok((&[1], Ints(&[7]))),
        ),
        (
            Dyad::Take,
            (&[1], Ints(&[-1])),
            (&[2], Text(b"ab")),
            Ok((&[1], Text(b"b"))),
        ),
        (
            Dyad::Take,
            (&[2], Ints(&[2, 2])),
            nine,
            Ok((&[2, 2], Ints(&[0, 1, 3, 4]))),
        ),
        (
            Dyad::Take,
            (&[2], Ints(&[-2, -2])),
            nine,
            Ok((&[2, 2], Ints(&[4, 5, 7, 8]))),
        ),
        (
            Dyad::Take,
            (&[2], Ints(&[2, -4])),
            nine,
            Ok((&[2, 4], Ints(&[0, 0, 1, 2, 0, 3, 4, 5]))),
        ),
        (
            Dyad::Take,
            (&[], Ints(&[2])),
            (&[], Text(b"a")),
            Ok((&[2], Text(b"a "))),
        ),
        (
            Dyad::Take,
            (&[2], Ints(&[2, 2])),
            (&[], Ints(&[5])),
            Ok((&[2, 2], Ints(&[5, 0, 0, 0]))),
        ),
        (
            Dyad::Take,
            (&[0], Ints(&[])),
            (&[2], Ints(&[7, 8])),
            Ok((&[2], Ints(&[7, 8]))),
        ),
        (
            Dyad::Take,
            (&[0], Text(b"")),
            (&[], Ints(&[5])),
            Ok((&[], Ints(&[5]))),
        ),
        (
            Dyad::Take,
            (&[], Ints(&[3])),
            (&[1], Boxes(&[Some(1)])),
            Ok((&[3], Boxes(&[Some(1), None, None]))),
        ),
        (
            Dyad::Take,
            (&[], Ints(&[0])),
            (&[2], Ints(&[7, 8])),
            Ok((&[0], Ints(&[]))),
        ),
        (
            Dyad::Take,
            (&[], Ints(&[2])),
            (&[0, 2], Text(b"")),
            Ok((&[2, 2], Text(b"    "))),
        ),
        (
            Dyad::Take,
            (&[2], Ints(&[1, 1])),
            (&[2], Ints(&[7, 8])),
            Err(Fault::Length),
        ),
        (
            Dyad::Take,
            (&[2], Text(b"ab")),
            (&[2], Ints(&[7, 8])),
            Err(Fault::Domain),
        ),
        (
            Dyad::Take,
            (&[], Ints(&[134_217_729])),
            (&[2], Ints(&[7, 8])),
            Err(Fault::Limit),
        ),
        (
            Dyad::Take,
            (&[], Ints(&[i64::MIN])),
            (&[2], Ints(&[7, 8])),
            Err(Fault::Limit),
        ),
        (
            Dyad::Take,
            (&[2], Ints(&[1, 134_217_729])),
            (&[2], Ints(&[7, 8])),
            Err(Fault::Length),
        ),
    ];
    for case in table.iter() {
        assert!(rt; gives2(rt.alloc(), *case)?);
    }
    Ok(())
}

#[test]
fn numbers_are_left_away_and_turned(rt: HostRuntime) -> Result<(), Fail> {
    let nine: Given<'_> = (&[3, 3], Ints(&[0, 1, 2, 3, 4, 5, 6, 7, 8]));
    let six: Given<'_> = (&[2, 3], Ints(&[0, 1, 2, 3, 4, 5]));
    let table: [Case2<'_>; 25] = [
        (
            Dyad::Drop,
            (&[], Ints(&[1])),
            (&[2], Ints(&[7, 8])),
            Ok((&[1], Ints(&[8]))),
        ),
        (
            Dyad::Drop,
            (&[], Ints(&[-1])),
            (&[2], Ints(&[7, 8])),
            Ok((&[1], Ints(&[7]))),
        ),
        (
            Dyad::Drop,
            (&[], Ints(&[5])),
            (&[2], Text(b"ab")),
            Ok((&[0], Text(b""))),
        ),
        (
            Dyad::Drop,
            (&[2], Ints(&[1, 1])),
            nine,
            Ok((&[2, 2], Ints(&[4, 5, 7, 8]))),
        ),
        (
            Dyad::Drop,
            (&[2], Ints(&[-1, 1])),
            nine,
            Ok((&[2, 2], Ints(&[1, 2, 4, 5]))),
        ),
        (
            Dyad::Drop,
            (&[], Ints(&[1])),
            (&[], Ints(&[5])),
            Ok((&[0], Ints(&[]))),
        ),
        (
            Dyad::Drop,
            (&[], Ints(&[0])),
            (&[], Ints(&[5])),
            Ok((&[1], Ints(&[5]))),
        ),
        (
            Dyad::Drop,
            (&[2], Ints(&[1, 0])),
            (&[], Ints(&[5])),
            Ok((&[0, 1], Ints(&[]))),
        ),
        (
            Dyad::Drop,
            (&[0], Ints(&[])),
            (&[], Ints(&[5])),
            Ok((&[], Ints(&[5]))),
        ),
        (
            Dyad::Drop,
            (&[], Ints(&[i64::MIN])),
            (&[2], Ints(&[7, 8])),
            Ok((&[0], Ints(&[]))),
        ),
        (
            Dyad::Drop,
            (&[2], Ints(&[1, 1])),
            (&[2], Ints(&[7, 8])),
            Err(Fault::Length),
        ),
        (
            Dyad::Drop,
            (&[2], Text(b"ab")),
            (&[2], Ints(&[7, 8])),
            Err(Fault::Domain),
        ),
        (
            Dyad::Rotate,
            (&[], Ints(&[1])),
            (&[3], Ints(&[1, 2, 3])),
            Ok((&[3], Ints(&[2, 3, 1]))),
        ),
        (
            Dyad::Rotate,
            (&[], Ints(&[-1])),
            (&[3], Text(b"abc")),
            Ok((&[3], Text(b"cab"))),
        ),
        (
            Dyad::Rotate,
            (&[], Ints(&[4])),
            (&[3], Ints(&[1, 2, 3])),
            Ok((&[3], Ints(&[2, 3, 1]))),
        ),
        (
            Dyad::Rotate,
            (&[], Ints(&[i64::MIN])),
            (&[3], Ints(&[1, 2, 3])),
            Ok((&[3], Ints(&[2, 3, 1]))),
        ),
        (
            Dyad::Rotate,
            (&[2], Ints(&[1, 1])),
            six,
            Ok((&[2, 3], Ints(&[4, 5, 3, 1, 2, 0]))),
        ),
        (
            Dyad::Rotate,
            (&[], Ints(&[3])),
            (&[0], Boxes(&[])),
            Ok((&[0], Boxes(&[]))),
        ),
        (
            Dyad::Rotate,
            (&[2], Ints(&[1, 2])),
            (&[], Ints(&[5])),
            Ok((&[], Ints(&[5]))),
        ),
        (
            Dyad::Rotate,
            (&[2], Ints(&[1, 1])),
            (&[3], Ints(&[1, 2, 3])),
            Err(Fault::Length),
        ),
        (
            Dyad::Rotate,
            (&[2], Text(b"ab")),
            (&[3], Ints(&[1, 2, 3])),
            Err(Fault::Domain),
        ),
        (
            Dyad::Rotate,
            (&[], Text(b"a")),
            (&[], Ints(&[5])),
            Err(Fault::Domain),
        ),
        (
            Dyad::Left,
            (&[], Ints(&[1])),
            (&[2], Text(b"ab")),
            Ok((&[], Ints(&[1]))),
        ),
        (
            Dyad::Right,
            (&[], Ints(&[1])),
            (&[2], Text(b"ab")),
            Ok((&[2], Text(b"ab"))),
        ),
        (
            Dyad::Cap,
            (&[], Ints(&[1])),
            (&[2], Text(b"ab")),
            Err(Fault::Domain),
        ),
    ];
    for case in table.iter() {
        assert!(rt; gives2(rt.alloc(), *case)?);
    }
    Ok(())
}

#[test]
fn arrays_are_joined(rt: HostRuntime) -> Result<(), Fail> {
    let table: [Case2<'_>; 14] = [
        (
            Dyad::Join,
            (&[3], Ints(&[1, 2, 3])),
            (&[2], Ints(&[4, 5])),
            Ok((&[5], Ints(&[1, 2, 3, 4, 5]))),
        ),
        (
            Dyad::Join,
            (&[], Ints(&[1])),
            (&[], Ints(&[2])),
            Ok((&[2], Ints(&[1, 2]))),
        ),
        (
            Dyad::Join,
            (&[2], Text(b"ab")),
            (&[], Text(b"c")),
            Ok((&[3], Text(b"abc"))),
        ),
        (
            Dyad::Join,
            (&[], Ints(&[9])),
            (&[2, 2], Ints(&[1, 2, 3, 4])),
            Ok((&[3, 2], Ints(&[9, 9, 1, 2, 3, 4]))),
        ),
        (
            Dyad::Join,
            (&[2, 2], Ints(&[1, 2, 3, 4])),
            (&[3], Ints(&[5, 6, 7])),
            Ok((&[3, 3], Ints(&[1, 2, 0, 3, 4, 0, 5, 6, 7]))),
        ),
        (
            Dyad::Join,
            (&[2, 2], Text(b"abcd")),
            (&[1], Text(b"e")),
            Ok((&[3, 2], Text(b"abcde "))),
        ),
        (
            Dyad::Join,
            (&[2, 1, 1], Ints(&[1, 2])),
            (&[3], Ints(&[5, 6, 7])),
            Ok((&[3, 1, 3], Ints(&[1, 0, 0, 2, 0, 0, 5, 6, 7]))),
        ),
        (
            Dyad::Join,
            (&[1, 2], Boxes(&[Some(1), Some(2)])),
            (&[1], Boxes(&[Some(3)])),
            Ok((&[2, 2], Boxes(&[Some(1), Some(2), Some(3), None]))),
        ),
        (
            Dyad::Join,
            (&[0], Ints(&[])),
            (&[2], Text(b"ab")),
            Ok((&[2], Text(b"ab"))),
        ),
        (
            Dyad::Join,
            (&[0], Text(b"")),
            (&[0], Ints(&[])),
            Ok((&[0], Text(b""))),
        ),
        (
            Dyad::Join,
            (&[0, 3], Ints(&[])),
            (&[0, 2], Ints(&[])),
            Ok((&[0, 3], Ints(&[]))),
        ),
        (
            Dyad::Join,
            (&[1], Ints(&[1])),
            (&[1], Text(b"a")),
            Err(Fault::Domain),
        ),
        (
            Dyad::Join,
            (&[], Boxes(&[Some(1)])),
            (&[2], Ints(&[1, 2])),
            Err(Fault::Domain),
        ),
        (
            Dyad::Join,
            (&[134_217_728, 0], Ints(&[])),
            (&[1, 0], Ints(&[])),
            Err(Fault::Limit),
        ),
    ];
    for case in table.iter() {
        assert!(rt; gives2(rt.alloc(), *case)?);
    }
    Ok(())
}

#[test]
fn arrays_are_two_items(rt: HostRuntime) -> Result<(), Fail> {
    let table: [Case2<'_>; 11] = [
        (
            Dyad::Laminate,
            (&[2], Ints(&[1, 2])),
            (&[2], Ints(&[3, 4])),
            Ok((&[2, 2], Ints(&[1, 2, 3, 4]))),
        ),
        (
            Dyad::Laminate,
            (&[], Ints(&[1])),
            (&[], Ints(&[2])),
            Ok((&[2], Ints(&[1, 2]))),
        ),
        (
            Dyad::Laminate,
            (&[], Ints(&[5])),
            (&[3], Ints(&[1, 2, 3])),
            Ok((&[2, 3], Ints(&[5, 5, 5, 1, 2, 3]))),
        ),
        (
            Dyad::Laminate,
            (&[2], Text(b"ab")),
            (&[3], Text(b"cde")),
            Ok((&[2, 3], Text(b"ab cde"))),
        ),
        (
            Dyad::Laminate,
            (&[2], Ints(&[1, 2])),
            (&[2, 2], Ints(&[3, 4, 5, 6])),
            Ok((&[2, 2, 2], Ints(&[1, 2, 0, 0, 3, 4, 5, 6]))),
        ),
        (
            Dyad::Laminate,
            (&[1], Boxes(&[Some(1)])),
            (&[2], Boxes(&[Some(2), Some(3)])),
            Ok((&[2, 2], Boxes(&[Some(1), None, Some(2), Some(3)]))),
        ),
        (
            Dyad::Laminate,
            (&[], Text(b"a")),
            (&[0], Ints(&[])),
            Ok((&[2, 0], Text(b""))),
        ),
        (
            Dyad::Laminate,
            (&[1], Ints(&[1])),
            (&[1], Text(b"a")),
            Err(Fault::Domain),
        ),
        (
            Dyad::Laminate,
            (&[1; 63], Ints(&[1])),
            (&[1; 63], Ints(&[2])),
            Err(Fault::Limit),
        ),
        (
            Dyad::Laminate,
            (&[1; 63], Ints(&[1])),
            (&[1; 63], Text(b"a")),
            Err(Fault::Domain),
        ),
        (
            Dyad::Laminate,
            (&[], Ints(&[1])),
            (&[1; 63], Ints(&[2])),
            Err(Fault::Limit),
        ),
    ];
    for case in table.iter() {
        assert!(rt; gives2(rt.alloc(), *case)?);
    }
    Ok(())
}

#[test]
fn items_are_joined(rt: HostRuntime) -> Result<(), Fail> {
    let table: [Case2<'_>; 10] = [
        (
            Dyad::JoinItems,
            (&[2], Ints(&[1, 2])),
            (&[2], Ints(&[3, 4])),
            Ok((&[2, 2], Ints(&[1, 3, 2, 4]))),
        ),
        (
            Dyad::JoinItems,
            (&[], Ints(&[1])),
            (&[], Ints(&[2])),
            Ok((&[2], Ints(&[1, 2]))),
        ),
        (
            Dyad::JoinItems,
            (&[2], Ints(&[1, 2])),
            (&[], Ints(&[9])),
            Ok((&[2, 2], Ints(&[1, 9, 2, 9]))),
        ),
        (
            Dyad::JoinItems,
            (&[2, 2], Ints(&[1, 2, 3, 4])),
            (&[2], Ints(&[5, 6])),
            Ok((&[2, 3], Ints(&[1, 2, 5, 3, 4, 6]))),
        ),
        (
            Dyad::JoinItems,
            (&[2, 1, 2], Ints(&[1, 2, 3, 4])),
            (&[2, 2], Ints(&[5, 6, 7, 8])),
            Ok((&[2, 2, 2], Ints(&[1, 2, 5, 6, 3, 4, 7, 8]))),
        ),
        (
            Dyad::JoinItems,
            (&[0], Text(b"")),
            (&[], Ints(&[9])),
            Ok((&[0, 2], Ints(&[]))),
        ),
        (
            Dyad::JoinItems,
            (&[0], Ints(&[])),
            (&[0], Text(b"")),
            Ok((&[0, 2], Ints(&[]))),
        ),
        (
            Dyad::JoinItems,
            (&[2, 0], Ints(&[])),
            (&[2, 1], Text(b"ab")),
            Ok((&[2, 1], Text(b"ab"))),
        ),
        (
            Dyad::JoinItems,
            (&[2], Ints(&[1, 2])),
            (&[3], Text(b"abc")),
            Err(Fault::Length),
        ),
        (
            Dyad::JoinItems,
            (&[2], Ints(&[1, 2])),
            (&[2], Text(b"ab")),
            Err(Fault::Domain),
        ),
    ];
    for case in table.iter() {
        assert!(rt; gives2(rt.alloc(), *case)?);
    }
    Ok(())
}

#[test]
fn axes_are_moved_behind_the_others(rt: HostRuntime) -> Result<(), Fail> {
    let table: [Case2<'_>; 10] = [
        (
            Dyad::TransposeBy,
            (&[], Ints(&[0])),
            (&[2, 3], Ints(&[0, 1, 2, 3, 4, 5])),
            Ok((&[3, 2], Ints(&[0, 3, 1, 4, 2, 5]))),
        ),
        (
            Dyad::TransposeBy,
            (&[], Ints(&[-1])),
            (&[2, 3], Ints(&[0, 1, 2, 3, 4, 5])),
            Ok((&[2, 3], Ints(&[0, 1, 2, 3, 4, 5]))),
        ),
        (
            Dyad::TransposeBy,
            (&[], Ints(&[-2])),
            (&[2, 3], Ints(&[0, 1, 2, 3, 4, 5])),
            Ok((&[3, 2], Ints(&[0, 3, 1, 4, 2, 5]))),
        ),
        (
            Dyad::TransposeBy,
            (&[2], Ints(&[1, 0])),
            (&[2, 3], Ints(&[0, 1, 2, 3, 4, 5])),
            Ok((&[3, 2], Ints(&[0, 3, 1, 4, 2, 5]))),
        ),
        (
            Dyad::TransposeBy,
            (&[0], Text(b"")),
            (&[2, 3], Ints(&[0, 1, 2, 3, 4, 5])),
            Ok((&[2, 3], Ints(&[0, 1, 2, 3, 4, 5]))),
        ),
        (
            Dyad::TransposeBy,
            (&[], Ints(&[0])),
            (&[2, 2, 3], Ints(&[0, 1, 2, 3, 4, 5, 6, 7, 8, 9, 10, 11])),
            Ok((&[2, 3, 2], Ints(&[0, 6, 1, 7, 2, 8, 3, 9, 4, 10, 5, 11]))),
        ),
        (
            Dyad::TransposeBy,
            (&[2], Ints(&[0, 1])),
            (&[2, 2, 3], Ints(&[0, 1, 2, 3, 4, 5, 6, 7, 8, 9, 10, 11])),
            Ok((&[3, 2, 2], Ints(&[0, 3, 6, 9, 1, 4, 7, 10, 2, 5, 8, 11]))),
        ),
        (
            Dyad::TransposeBy,
            (&[], Ints(&[0])),
            (&[1, 2], Boxes(&[Some(1), Some(2)])),
            Ok((&[2, 1], Boxes(&[Some(1), Some(2)]))),
        ),
        (
            Dyad::TransposeBy,
            (&[], Ints(&[0])),
            (&[0, 2], Text(b"")),
            Ok((&[2, 0], Text(b""))),
        ),
        (
            Dyad::TransposeBy,
            (&[0], Ints(&[])),
            (&[], Ints(&[7])),
            Ok((&[], Ints(&[7]))),
        ),
    ];
    for case in table.iter() {
        assert!(rt; gives2(rt.alloc(), *case)?);
    }
    Ok(())
}

#[test]
fn axes_are_refused(rt: HostRuntime) -> Result<(), Fail> {
    let table: [Case2<'_>; 8] = [
        (
            Dyad::TransposeBy,
            (&[], Text(b"a")),
            (&[2, 3], Ints(&[0, 1, 2, 3, 4, 5])),
            Err(Fault::Domain),
        ),
        (
            Dyad::TransposeBy,
            (&[], Ints(&[2])),
            (&[2, 3], Ints(&[0, 1, 2, 3, 4, 5])),
            Err(Fault::Index),
        ),
        (
            Dyad::TransposeBy,
            (&[], Ints(&[-3])),
            (&[2, 3], Ints(&[0, 1, 2, 3, 4, 5])),
            Err(Fault::Index),
        ),
        (
            Dyad::TransposeBy,
            (&[2], Ints(&[0, -2])),
            (&[2, 3], Ints(&[0, 1, 2, 3, 4, 5])),
            Err(Fault::Nonce),
        ),
        (
            Dyad::TransposeBy,
            (&[2], Ints(&[5, 5])),
            (&[2, 3], Ints(&[0, 1, 2, 3, 4, 5])),
            Err(Fault::Nonce),
        ),
        (
            Dyad::TransposeBy,
            (&[2], Ints(&[5, 6])),
            (&[2, 3], Ints(&[0, 1, 2, 3, 4, 5])),
            Err(Fault::Index),
        ),
        (
            Dyad::TransposeBy,
            (&[], Ints(&[0])),
            (&[], Ints(&[7])),
            Err(Fault::Index),
        ),
        (
            Dyad::TransposeBy,
            (&[2], Ints(&[i64::MIN, i64::MAX])),
            (&[2, 3], Ints(&[0, 1, 2, 3, 4, 5])),
            Err(Fault::Index),
        ),
    ];
    for case in table.iter() {
        assert!(rt; gives2(rt.alloc(), *case)?);
    }
    Ok(())
}
