//! What a body keeps, worked by hand from the definitions.

use crate::Kept;
use jarray::{Array, Room};
use jdata::{Bytes, Cell, CellList, IntList, Leaves, Tree};
use jterm::Datum;
use std::alloc::Global;
use std::test::Fail;

/// A value as it is written in a table.
#[derive(Clone, Copy, Debug)]
enum Value {
    Atom(i64),
    List(&'static [i64]),
    Table(u64, u64, &'static [i64]),
    Text(&'static [u8]),
    /// Boxes with these numbers, each alone.
    Boxes(&'static [i64]),
}

fn array(alloc: Global, axes: &[u64], leaves: Leaves) -> Result<Array, Fail> {
    let tree = Tree::new(Vec::from_slice(alloc, axes)?, leaves)?;
    Ok(Array::of(tree))
}

fn integers(alloc: Global, axes: &[u64], numbers: &[i64]) -> Result<Array, Fail> {
    let numbers = IntList::of(Vec::from_slice(alloc, numbers)?);
    array(alloc, axes, Leaves::Int(numbers))
}

fn boxes(alloc: Global, numbers: &[i64]) -> Result<Array, Fail> {
    let mut cells = Vec::new(alloc);
    for &number in numbers {
        cells.push(Cell::Boxed(Tree::atom(alloc, number)?))?;
    }
    let cells = Leaves::Cell(CellList::of(cells));
    array(alloc, &[numbers.len() as u64], cells)
}

fn made(alloc: Global, value: Value) -> Result<Array, Fail> {
    match value {
        Value::Atom(number) => Ok(Array::atom(number)),
        Value::List(numbers) => integers(alloc, &[numbers.len() as u64], numbers),
        Value::Table(rows, columns, numbers) => integers(alloc, &[rows, columns], numbers),
        Value::Text(bytes) => {
            let letters = Bytes::of(Vec::from_slice(alloc, bytes)?);
            array(alloc, &[bytes.len() as u64], Leaves::Char(letters))
        }
        Value::Boxes(numbers) => boxes(alloc, numbers),
    }
}

/// What is kept where the test 1 has this value.
fn kept_with(alloc: Global, value: Value) -> Result<Kept, Fail> {
    let value = made(alloc, value)?;
    let mut kept = Kept::new(alloc)?;
    kept.keep(Some(1), Datum::of(value))?;
    Ok(kept)
}

fn is(room: &Room, value: &Datum, wanted: &Array) -> bool {
    value.array().match_with(room, wanted)
}

#[test]
fn the_result_is_the_last_value_outside_of_tests(rt: HostRuntime) -> Result<(), Fail> {
    let alloc = rt.alloc();
    let room = Room::none();
    let table = made(alloc, Value::Table(0, 0, &[]))?;
    assert!(rt; is(&room, &Kept::new(alloc)?.into_result(), &table));

    let mut kept = kept_with(alloc, Value::Atom(5))?;
    kept.keep(None, Datum::of(Array::atom(6)))?;
    kept.keep(None, Datum::of(Array::atom(7)))?;
    kept.keep(Some(2), Datum::of(Array::atom(8)))?;
    assert!(rt; is(&room, kept.value(1), &Array::atom(5)));
    assert!(rt; is(&room, &kept.into_result(), &Array::atom(7)));
    Ok(())
}

#[test]
fn a_test_starts_with_an_empty_value(rt: HostRuntime) -> Result<(), Fail> {
    let alloc = rt.alloc();
    let room = Room::none();
    let list = made(alloc, Value::List(&[]))?;
    let mut kept = kept_with(alloc, Value::Atom(0))?;
    kept.keep(Some(2), Datum::of(Array::atom(0)))?;
    assert!(rt; !kept.holds(&room, 1));
    kept.start_test(1);
    assert!(rt; is(&room, kept.value(1), &list));
    assert!(rt; kept.holds(&room, 1));
    assert!(rt; !kept.holds(&room, 2));
    Ok(())
}

// A value, whether a test with it holds, and whether it is all ones.
const TESTS: [(Value, bool, bool); 10] = [
    (Value::List(&[]), true, true),
    (Value::Atom(0), false, false),
    (Value::Atom(1), true, true),
    (Value::Atom(-1), true, false),
    (Value::List(&[0, 1]), false, false),
    (Value::List(&[1, 0]), true, false),
    (Value::Table(1, 2, &[1, 1]), true, true),
    (Value::Text(b"0"), true, false),
    (Value::Boxes(&[0]), true, false),
    (Value::Boxes(&[]), true, true),
];

#[test]
fn the_first_atom_decides_a_test(rt: HostRuntime) -> Result<(), Fail> {
    let room = Room::none();
    for (value, holds, ones) in TESTS {
        let kept = kept_with(rt.alloc(), value)?;
        assert_eq!(rt; kept.holds(&room, 1), holds, "{value:?}");
        assert_eq!(rt; kept.are_ones(&room, 1), ones, "{value:?}");
    }
    Ok(())
}

// A value, a round, and the item of it.
const ITEMS: [(Value, u64, Option<Value>); 9] = [
    (Value::Atom(7), 0, Some(Value::Atom(7))),
    (Value::Atom(7), 1, None),
    (Value::List(&[4, 5]), 0, Some(Value::Atom(4))),
    (Value::List(&[4, 5]), 1, Some(Value::Atom(5))),
    (Value::List(&[4, 5]), 2, None),
    (
        Value::Table(2, 3, &[1, 2, 3, 4, 5, 6]),
        1,
        Some(Value::List(&[4, 5, 6])),
    ),
    (Value::Table(2, 0, &[]), 1, Some(Value::List(&[]))),
    (Value::Table(0, 2, &[]), 0, None),
    (Value::Text(b""), 0, None),
];

#[test]
fn items_are_counted_from_0(rt: HostRuntime) -> Result<(), Fail> {
    let alloc = rt.alloc();
    let room = Room::none();
    for (value, round, wanted) in ITEMS {
        let kept = kept_with(alloc, value)?;
        let found = kept.item(alloc, &room, 1, round)?;
        assert_eq!(rt; found.is_some(), wanted.is_some(), "{value:?}");
        if let (Some(found), Some(wanted)) = (found, wanted) {
            assert!(rt; is(&room, &found, &made(alloc, wanted)?), "{value:?}");
        }
    }
    Ok(())
}

// A selected value, the value of a case, and whether the case is taken.
const CASES: [(Value, Value, bool); 12] = [
    (Value::Atom(1), Value::Atom(1), true),
    (Value::Atom(1), Value::Atom(2), false),
    (Value::Atom(1), Value::List(&[1]), false),
    (Value::Atom(2), Value::Boxes(&[1, 2]), true),
    (Value::Boxes(&[1, 2]), Value::Atom(2), true),
    (Value::Boxes(&[1, 2]), Value::Atom(3), false),
    (Value::Boxes(&[1, 2]), Value::Boxes(&[3, 2]), true),
    (Value::Boxes(&[1, 2]), Value::Boxes(&[3, 4]), false),
    (Value::Boxes(&[]), Value::Boxes(&[]), false),
    (Value::Boxes(&[]), Value::Text(b""), false),
    (Value::Text(b"ab"), Value::Text(b"ab"), true),
    (Value::Text(b""), Value::List(&[]), true),
];

#[test]
fn cases_are_taken_by_contents(rt: HostRuntime) -> Result<(), Fail> {
    let alloc = rt.alloc();
    let room = Room::none();
    for (selected, value, wanted) in CASES {
        let mut kept = kept_with(alloc, selected)?;
        let case = made(alloc, value)?;
        kept.keep(Some(2), Datum::of(case))?;
        let taken = kept.takes(alloc, &room, 2, 1)?;
        assert_eq!(rt; taken, wanted, "{selected:?} {value:?}");
    }
    Ok(())
}
