ghost use Rattle.std.specs.Prelude.{Ok, Err};
ghost use Rattle.jdata.specs.declared.fault.Fault.TheVariants as cause;

use jarray::{Array, Room};
use jdata::{Bytes, Cell, CellList, Fault, IntList, Leaves, Tree, Trouble};
use jframe::{Results, WholeDyad, WholeMonad, assemble, at_rank, at_ranks, cells, fill_cell};
use jshape::Shape;
use std::alloc::Global;
use std::process::Abort;
use std::test::Fail;

#[derive(Clone, Copy)]
enum Atoms<'a> {
    Ints(&'a [i64]),
    Text(&'a [u8]),
}

use Atoms::{Ints, Text};

/// The shape and the atoms of an array.
type Given<'a> = (&'a [u64], Atoms<'a>);

fn leaves(alloc: Global, atoms: Atoms<'_>) -> Result<Leaves, Fail> {
    match atoms {
        Ints(numbers) => Ok(Leaves::Int(IntList::of(Vec::from_slice(alloc, numbers)?))),
        Text(bytes) => Ok(Leaves::Char(Bytes::of(Vec::from_slice(alloc, bytes)?))),
    }
}

fn array(alloc: Global, given: Given<'_>) -> Result<Tree, Fail> {
    let shape = Vec::from_slice(alloc, given.0)?;
    Ok(Tree::new(shape, leaves(alloc, given.1)?)?)
}

fn arrays(alloc: Global, given: &[Given<'_>]) -> Result<Vec<Tree>, Fail> {
    let mut arrays = Vec::new(alloc);
    for one in given {
        arrays.push(array(alloc, *one)?)?;
    }
    Ok(arrays)
}

/// Boxes with these contents.
fn boxes(alloc: Global, shape: &[u64], contents: &[Given<'_>]) -> Result<Tree, Fail> {
    let mut atoms = Vec::new(alloc);
    for content in contents {
        atoms.push(Cell::Boxed(array(alloc, *content)?))?;
    }
    let shape = Vec::from_slice(alloc, shape)?;
    Ok(Tree::new(shape, Leaves::Cell(CellList::of(atoms)))?)
}

fn is_equal(tree: &Tree, expected: &Tree) -> bool {
    tree.kind() == expected.kind() && tree.same(expected)
}

fn is_array(alloc: Global, tree: &Tree, given: Given<'_>) -> Result<bool, Fail> {
    let expected = array(alloc, given)?;
    Ok(is_equal(tree, &expected))
}

fn assembled(
    rt: &impl Abort,
    alloc: Global,
    frame: &[u64],
    results: Vec<Tree>,
) -> Result<Result<Tree, Trouble>, Fail> {
    let frame = Shape::new(alloc, frame)?;
    assert!(rt; results.len() as u64 == frame.product().max(1));
    Ok(assemble(alloc, &frame, results))
}

/// Whether the results in the frame make the array or, without one, are refused with the fault.
fn makes(
    rt: &impl Abort,
    alloc: Global,
    frame: &[u64],
    results: &[Given<'_>],
    expected: Result<Given<'_>, Fault>,
) -> Result<bool, Fail> {
    let results = arrays(alloc, results)?;
    match (assembled(rt, alloc, frame, results)?, expected) {
        (Ok(whole), Ok(expected)) => is_array(alloc, &whole, expected),
        (Err(trouble), Err(fault)) => Ok(trouble == Trouble::Fault(fault)),
        _ => Ok(false),
    }
}

type Case<'a> = (&'a [u64], &'a [Given<'a>], Result<Given<'a>, Fault>);

#[test]
fn shorter_results_are_filled(rt: HostRuntime) -> Result<(), Fail> {
    let table: [Case<'_>; 9] = [
        (
            &[3],
            &[
                (&[], Ints(&[1])),
                (&[2], Ints(&[2, 3])),
                (&[3], Ints(&[4, 5, 6])),
            ],
            Ok((&[3, 3], Ints(&[1, 0, 0, 2, 3, 0, 4, 5, 6]))),
        ),
        (
            &[2],
            &[(&[2], Text(b"ab")), (&[4], Text(b"wxyz"))],
            Ok((&[2, 4], Text(b"ab  wxyz"))),
        ),
        (
            &[2],
            &[(&[2], Ints(&[7, 8])), (&[2, 2], Ints(&[1, 2, 3, 4]))],
            Ok((&[2, 2, 2], Ints(&[7, 8, 0, 0, 1, 2, 3, 4]))),
        ),
        (
            &[2],
            &[(&[1, 3], Ints(&[1, 2, 3])), (&[2, 1], Ints(&[4, 5]))],
            Ok((&[2, 2, 3], Ints(&[1, 2, 3, 0, 0, 0, 4, 0, 0, 5, 0, 0]))),
        ),
        (
            &[1, 2],
            &[(&[], Ints(&[1])), (&[], Ints(&[2]))],
            Ok((&[1, 2], Ints(&[1, 2]))),
        ),
        (&[], &[(&[2], Ints(&[1, 2]))], Ok((&[2], Ints(&[1, 2])))),
        (
            &[2],
            &[(&[], Text(b"a")), (&[0], Text(b""))],
            Ok((&[2, 1], Text(b"a "))),
        ),
        (
            &[0, 2],
            &[(&[3], Ints(&[9, 9, 9]))],
            Ok((&[0, 2, 3], Ints(&[]))),
        ),
        (
            &[0],
            &[(&[2, 2], Text(b"abcd"))],
            Ok((&[0, 2, 2], Text(b""))),
        ),
    ];
    for (frame, results, expected) in table.iter() {
        assert!(rt; makes(&rt, rt.alloc(), frame, results, *expected)?);
    }
    Ok(())
}

#[test]
fn kinds_that_differ_are_refused(rt: HostRuntime) -> Result<(), Fail> {
    let table: [Case<'_>; 5] = [
        (
            &[2],
            &[(&[1], Ints(&[1])), (&[1], Text(b"a"))],
            Err(Fault::Domain),
        ),
        (
            &[2],
            &[(&[0], Ints(&[])), (&[0], Text(b""))],
            Ok((&[2, 0], Ints(&[]))),
        ),
        (
            &[2],
            &[(&[0], Text(b"")), (&[0], Ints(&[]))],
            Ok((&[2, 0], Text(b""))),
        ),
        (
            &[2],
            &[(&[1], Ints(&[7])), (&[0], Text(b""))],
            Ok((&[2, 1], Ints(&[7, 0]))),
        ),
        (
            &[2],
            &[(&[0], Ints(&[])), (&[1], Text(b"a"))],
            Ok((&[2, 1], Text(b" a"))),
        ),
    ];
    for (frame, results, expected) in table.iter() {
        assert!(rt; makes(&rt, rt.alloc(), frame, results, *expected)?);
    }
    Ok(())
}

#[test]
fn limits_are_kept(rt: HostRuntime) -> Result<(), Fail> {
    let ones = [1; 63];
    let mut two = ones;
    two[0] = 2;
    let table: [Case<'_>; 6] = [
        (
            &two,
            &[(&[1], Ints(&[1])), (&[1], Text(b"a"))],
            Err(Fault::Domain),
        ),
        (&ones, &[(&[], Ints(&[7]))], Ok((&ones, Ints(&[7])))),
        (&ones, &[(&[1], Ints(&[7]))], Err(Fault::Limit)),
        (&ones[1..], &[(&[1], Ints(&[7]))], Ok((&ones, Ints(&[7])))),
        (
            &[0, 67_108_864],
            &[(&[2], Text(b"ab"))],
            Ok((&[0, 67_108_864, 2], Text(b""))),
        ),
        (&[0, 67_108_864], &[(&[3], Text(b"abc"))], Err(Fault::Limit)),
    ];
    for (frame, results, expected) in table.iter() {
        assert!(rt; makes(&rt, rt.alloc(), frame, results, *expected)?);
    }
    Ok(())
}

/// A boxed list of one, and one of two.
fn two_boxed(alloc: Global) -> Result<Vec<Tree>, Fail> {
    let mut results = Vec::new(alloc);
    results.push(boxes(alloc, &[1], &[(&[], Ints(&[5]))])?)?;
    results.push(boxes(alloc, &[2], &[(&[], Text(b"a")), (&[2], Text(b"bc"))])?)?;
    Ok(results)
}

#[test]
fn boxes_are_filled(rt: HostRuntime) -> Result<(), Fail> {
    let whole = assembled(&rt, rt.alloc(), &[2], two_boxed(rt.alloc())?)??;
    let contents: [Given<'_>; 4] = [
        (&[], Ints(&[5])),
        (&[0], Ints(&[])),
        (&[], Text(b"a")),
        (&[2], Text(b"bc")),
    ];
    let expected = boxes(rt.alloc(), &[2, 2], &contents)?;
    assert!(rt; is_equal(&whole, &expected));
    Ok(())
}

/// Cell `at` of an array at a rank, after a look at the frame and the count.
fn cell_of(
    rt: &impl Abort,
    alloc: Global,
    y: Tree,
    rank: Option<i64>,
    frame: &[u64],
    at: u64,
) -> Result<Tree, Fail> {
    let mut room = Room::none();
    let y = Array::of(y);
    let parted = cells(alloc, &room, &y, rank)?;
    assert!(rt; parted.frame().axes() == frame);
    assert!(rt; at < parted.count());
    let cell = parted.get(alloc, &room, &y, at)?;
    Ok(cell.into_tree(alloc, &mut room)?)
}

fn is_cell(
    rt: &impl Abort,
    alloc: Global,
    y: Given<'_>,
    rank: Option<i64>,
    (frame, at): (&[u64], u64),
    expected: Given<'_>,
) -> Result<bool, Fail> {
    let y = array(alloc, y)?;
    let cell = cell_of(rt, alloc, y, rank, frame, at)?;
    is_array(alloc, &cell, expected)
}

#[test]
fn cells_are_cut(rt: HostRuntime) -> Result<(), Fail> {
    let six: Given<'_> = (&[2, 3], Ints(&[0, 1, 2, 3, 4, 5]));
    let atom: Given<'_> = (&[], Ints(&[8]));
    let letters: Given<'_> = (&[3, 2], Text(b"abcdef"));
    let table: [(Given<'_>, Option<i64>, (&[u64], u64), Given<'_>); 10] = [
        (six, Some(1), (&[2], 0), (&[3], Ints(&[0, 1, 2]))),
        (six, Some(1), (&[2], 1), (&[3], Ints(&[3, 4, 5]))),
        (six, Some(-1), (&[2], 1), (&[3], Ints(&[3, 4, 5]))),
        (six, Some(-2), (&[2, 3], 4), (&[], Ints(&[4]))),
        (six, Some(0), (&[2, 3], 5), (&[], Ints(&[5]))),
        (six, Some(2), (&[], 0), six),
        (six, Some(9), (&[], 0), six),
        (six, None, (&[], 0), six),
        (atom, Some(-1), (&[], 0), atom),
        (letters, Some(1), (&[3], 2), (&[2], Text(b"ef"))),
    ];
    for (y, rank, place, expected) in table.iter() {
        assert!(rt; is_cell(&rt, rt.alloc(), *y, *rank, *place, *expected)?);
    }
    Ok(())
}

#[test]
fn cells_of_boxes_are_boxes(rt: HostRuntime) -> Result<(), Fail> {
    let contents: [Given<'_>; 2] = [(&[], Ints(&[5])), (&[2], Ints(&[6, 7]))];
    let y = boxes(rt.alloc(), &[2], &contents)?;
    let cell = cell_of(&rt, rt.alloc(), y, Some(0), &[2], 1)?;
    let expected = boxes(rt.alloc(), &[], &contents[1..])?;
    assert!(rt; is_equal(&cell, &expected));
    Ok(())
}

fn is_fill_cell(alloc: Global, y: Given<'_>, rank: i64, expected: Given<'_>) -> Result<bool, Fail> {
    let y = array(alloc, y)?;
    let cell = fill_cell(alloc, &Room::none(), &Array::of(y), Some(rank))?;
    is_array(alloc, &cell, expected)
}

#[test]
fn cells_of_fills(rt: HostRuntime) -> Result<(), Fail> {
    let numbers: Given<'_> = (&[0, 3], Ints(&[]));
    let letters: Given<'_> = (&[0, 2], Text(b""));
    let zeros: Given<'_> = (&[3], Ints(&[0, 0, 0]));
    assert!(rt; is_fill_cell(rt.alloc(), numbers, 1, zeros)?);
    assert!(rt; is_fill_cell(rt.alloc(), letters, -1, (&[2], Text(b"  ")))?);
    Ok(())
}

#[test]
fn a_fill_of_boxes(rt: HostRuntime) -> Result<(), Fail> {
    let none = boxes(rt.alloc(), &[0], &[])?;
    let cell = fill_cell(rt.alloc(), &Room::none(), &Array::of(none), Some(0))?;
    let expected = boxes(rt.alloc(), &[], &[(&[0], Ints(&[]))])?;
    assert!(rt; is_equal(&cell, &expected));
    Ok(())
}

fn number_results(alloc: Global) -> Result<Tree, Fail> {
    let mut room = Room::none();
    let mut results = Results::new(alloc);
    results.push(&mut room, Array::atom(7))?;
    results.push(&mut room, Array::of(array(alloc, (&[], Ints(&[8])))?))?;
    results.push(&mut room, Array::atom(9))?;
    Ok(results.finish(&Shape::new(alloc, &[3])?)?)
}

fn list_results(alloc: Global) -> Result<Tree, Fail> {
    let mut room = Room::none();
    let mut results = Results::new(alloc);
    results.push(&mut room, Array::of(array(alloc, (&[2], Ints(&[1, 2])))?))?;
    results.push(&mut room, Array::of(array(alloc, (&[2], Ints(&[3, 4])))?))?;
    Ok(results.finish(&Shape::new(alloc, &[2])?)?)
}

fn mixed_results(alloc: Global) -> Result<Tree, Fail> {
    let mut room = Room::none();
    let mut results = Results::new(alloc);
    results.push(&mut room, Array::atom(7))?;
    results.push(&mut room, Array::of(array(alloc, (&[2], Ints(&[1, 2])))?))?;
    results.push(&mut room, Array::atom(9))?;
    Ok(results.finish(&Shape::new(alloc, &[3])?)?)
}

fn no_results(alloc: Global) -> Result<Tree, Fail> {
    let mut room = Room::none();
    let mut results = Results::new(alloc);
    results.push(&mut room, Array::of(array(alloc, (&[2], Text(b"ab")))?))?;
    Ok(results.finish(&Shape::new(alloc, &[0])?)?)
}

#[test]
fn results_are_put_together(rt: HostRuntime) -> Result<(), Fail> {
    let alloc = rt.alloc();
    assert!(rt; is_array(alloc, &number_results(alloc)?, (&[3], Ints(&[7, 8, 9])))?);
    assert!(rt; is_array(alloc, &list_results(alloc)?, (&[2, 2], Ints(&[1, 2, 3, 4])))?);
    assert!(rt;
        is_array(
            alloc,
            &mixed_results(alloc)?,
            (&[3, 2], Ints(&[7, 0, 1, 2, 9, 0]))
        )?
    );
    assert!(rt; is_array(alloc, &no_results(alloc)?, (&[0, 2], Text(b"")))?);
    Ok(())
}

/// The argument itself.
struct Same;

impl WholeMonad for Same {
    ghost meant = { λ y. Ok y };

    fn apply(_alloc: Global, _room: &mut Room, y: Array) -> Result<Array, Trouble> {
        Ok(y)
    }
}

/// No argument is taken.
struct Refused;

impl WholeMonad for Refused {
    ghost meant = { λ y. Err cause.Domain };

    fn apply(_alloc: Global, _room: &mut Room, _y: Array) -> Result<Array, Trouble> {
        Err(Trouble::Fault(Fault::Domain))
    }
}

#[test]
fn a_verb_is_applied_at_its_rank(rt: HostRuntime) -> Result<(), Fail> {
    let alloc = rt.alloc();
    let mut room = Room::none();
    let six: Given<'_> = (&[2, 3], Ints(&[0, 1, 2, 3, 4, 5]));
    for rank in [Some(0), Some(1), Some(-1), None] {
        let y = Array::of(array(alloc, six)?);
        let same = at_rank::<Same>(alloc, &mut room, rank, y)?;
        assert!(rt; is_array(alloc, &same.into_tree(alloc, &mut room)?, six)?);
    }
    let y = Array::of(array(alloc, six)?);
    let refused = at_rank::<Refused>(alloc, &mut room, Some(1), y).err();
    assert_eq!(rt; refused, Some(Trouble::Fault(Fault::Domain)));
    let none = Array::of(array(alloc, (&[0, 3], Text(b"")))?);
    let shown = at_rank::<Refused>(alloc, &mut room, Some(1), none)?;
    assert!(rt;
        is_array(
            alloc,
            &shown.into_tree(alloc, &mut room)?,
            (&[0], Ints(&[]))
        )?
    );
    Ok(())
}

/// The left argument.
struct Left;

impl WholeDyad for Left {
    ghost meant = { λ x y. Ok x };

    fn apply(_alloc: Global, _room: &mut Room, x: Array, _y: Array) -> Result<Array, Trouble> {
        Ok(x)
    }
}

#[test]
fn a_verb_is_applied_to_pairs_of_cells(rt: HostRuntime) -> Result<(), Fail> {
    let alloc = rt.alloc();
    let mut room = Room::none();
    let two = Array::of(array(alloc, (&[2], Ints(&[7, 8])))?);
    let six = Array::of(array(alloc, (&[2, 3], Text(b"abcdef")))?);
    let left = at_ranks::<Left>(alloc, &mut room, Some(0), Some(0), two, six)?;
    let expected: Given<'_> = (&[2, 3], Ints(&[7, 7, 7, 8, 8, 8]));
    assert!(rt; is_array(alloc, &left.into_tree(alloc, &mut room)?, expected)?);
    let two = Array::of(array(alloc, (&[2], Ints(&[7, 8])))?);
    let three = Array::of(array(alloc, (&[3], Ints(&[1, 2, 3])))?);
    let refused = at_ranks::<Left>(alloc, &mut room, Some(0), Some(0), two, three).err();
    assert_eq!(rt; refused, Some(Trouble::Fault(Fault::Length)));
    Ok(())
}
