use jarray::{Array, Room};
use jdata::{Bytes, Cell, CellList, Fault, IntList, Leaves, Tree, Trouble};
use jsearch::{
    index_of, indices, integers, last_index_of, less, matched, member, nub, sieve, steps,
};
use std::alloc::Global;
use std::process::Abort;
use std::test::Fail;

pub fn ints(alloc: Global, axes: &[u64], numbers: &[i64]) -> Result<Array, Fail> {
    let shape = Vec::from_slice(alloc, axes)?;
    let atoms = IntList::of(Vec::from_slice(alloc, numbers)?);
    Ok(Array::of(Tree::new(shape, Leaves::Int(atoms))?))
}

pub fn list(alloc: Global, numbers: &[i64]) -> Result<Array, Fail> {
    ints(alloc, &[numbers.len() as u64], numbers)
}

pub fn expect(rt: &impl Abort, answer: Result<Array, Trouble>, expected: Array) {
    let room = Room::none();
    match answer {
        Ok(array) => assert!(rt; array.match_with(&room, &expected)),
        Err(_) => assert!(rt; false),
    }
}

pub fn expect_fault(rt: &impl Abort, answer: Result<Array, Trouble>, fault: Fault) {
    match answer {
        Ok(_) => assert!(rt; false),
        Err(trouble) => assert_eq!(rt; trouble, Trouble::Fault(fault)),
    }
}

#[test]
fn places_are_counted(rt: HostRuntime) -> Result<(), Fail> {
    let alloc = rt.alloc();
    let mut room = Room::none();
    let up = integers(alloc, &mut room, Array::atom(3));
    expect(&rt, up, list(alloc, &[0, 1, 2])?);
    let down = integers(alloc, &mut room, Array::atom(-3));
    expect(&rt, down, list(alloc, &[2, 1, 0])?);
    let rows = integers(alloc, &mut room, list(alloc, &[2, 3])?);
    expect(&rt, rows, ints(alloc, &[2, 3], &[0, 1, 2, 3, 4, 5])?);
    let turned = integers(alloc, &mut room, list(alloc, &[-2, 3])?);
    expect(&rt, turned, ints(alloc, &[2, 3], &[3, 4, 5, 0, 1, 2])?);
    let mirrored = integers(alloc, &mut room, list(alloc, &[2, -3])?);
    expect(&rt, mirrored, ints(alloc, &[2, 3], &[2, 1, 0, 5, 4, 3])?);
    let none = integers(alloc, &mut room, list(alloc, &[0, -4])?);
    expect(&rt, none, ints(alloc, &[0, 4], &[])?);
    let alone = integers(alloc, &mut room, list(alloc, &[])?);
    expect(&rt, alone, Array::atom(0));
    Ok(())
}

#[test]
fn limits_are_kept(rt: HostRuntime) -> Result<(), Fail> {
    let alloc = rt.alloc();
    let mut room = Room::none();
    let long = integers(alloc, &mut room, Array::atom(i64::MIN));
    expect_fault(&rt, long, Fault::Limit);
    let wide = integers(alloc, &mut room, list(alloc, &[0, 134_217_729])?);
    expect_fault(&rt, wide, Fault::Limit);
    let many = steps(alloc, &mut room, Array::atom(67_108_864));
    expect_fault(&rt, many, Fault::Limit);
    let most = steps(alloc, &mut room, Array::atom(i64::MIN));
    expect_fault(&rt, most, Fault::Limit);
    let often = indices(
        alloc,
        &mut room,
        list(alloc, &[i64::MAX, i64::MAX, i64::MAX])?,
    );
    expect_fault(&rt, often, Fault::Limit);
    Ok(())
}

#[test]
fn steps_and_places(rt: HostRuntime) -> Result<(), Fail> {
    let alloc = rt.alloc();
    let mut room = Room::none();
    let up = steps(alloc, &mut room, Array::atom(2));
    expect(&rt, up, list(alloc, &[-2, -1, 0, 1, 2])?);
    let down = steps(alloc, &mut room, Array::atom(-2));
    expect(&rt, down, list(alloc, &[2, 1, 0, -1, -2])?);
    let zero = steps(alloc, &mut room, Array::atom(0));
    expect(&rt, zero, list(alloc, &[0])?);
    let places = indices(alloc, &mut room, list(alloc, &[0, 2, 1])?);
    expect(&rt, places, list(alloc, &[1, 1, 2])?);
    let alone = indices(alloc, &mut room, Array::atom(2));
    expect(&rt, alone, list(alloc, &[0, 0])?);
    let none = indices(alloc, &mut room, list(alloc, &[])?);
    expect(&rt, none, list(alloc, &[])?);
    let negative = indices(alloc, &mut room, list(alloc, &[134_217_729, -1])?);
    expect_fault(&rt, negative, Fault::Domain);
    Ok(())
}

pub fn chars(alloc: Global, axes: &[u64], bytes: &[u8]) -> Result<Array, Fail> {
    let shape = Vec::from_slice(alloc, axes)?;
    let atoms = Bytes::of(Vec::from_slice(alloc, bytes)?);
    Ok(Array::of(Tree::new(shape, Leaves::Char(atoms))?))
}

/// A list of boxed texts.
pub fn boxes(alloc: Global, texts: &[&[u8]]) -> Result<Array, Fail> {
    let mut cells = Vec::new(alloc);
    for text in texts {
        let text = *text;
        let shape = Vec::from_slice(alloc, &[text.len() as u64])?;
        let bytes = Bytes::of(Vec::from_slice(alloc, text)?);
        cells.push(Cell::Boxed(Tree::new(shape, Leaves::Char(bytes))?))?;
    }
    let shape = Vec::from_slice(alloc, &[cells.len() as u64])?;
    Ok(Array::of(Tree::new(shape, Leaves::Cell(CellList::of(cells)))?))
}

#[test]
fn first_and_last_places_are_found(rt: HostRuntime) -> Result<(), Fail> {
    let alloc = rt.alloc();
    let mut room = Room::none();
    let x = list(alloc, &[5, 3, 5, 1])?;
    let first = index_of(alloc, &mut room, x, list(alloc, &[5, 1, 7])?);
    expect(&rt, first, list(alloc, &[0, 3, 4])?);
    let x = list(alloc, &[5, 3, 5, 1])?;
    let last = last_index_of(alloc, &mut room, x, list(alloc, &[5, 1, 7])?);
    expect(&rt, last, list(alloc, &[2, 3, 4])?);
    let rows = ints(alloc, &[3, 2], &[1, 2, 3, 4, 1, 2])?;
    let row = index_of(alloc, &mut room, rows, list(alloc, &[3, 4])?);
    expect(&rt, row, Array::atom(1));
    let rows = ints(alloc, &[3, 2], &[1, 2, 3, 4, 1, 2])?;
    let cells = last_index_of(alloc, &mut room, rows, ints(alloc, &[2, 2], &[1, 2, 9, 9])?);
    expect(&rt, cells, list(alloc, &[2, 3])?);
    Ok(())
}

#[test]
fn shapes_that_differ_are_nowhere(rt: HostRuntime) -> Result<(), Fail> {
    let alloc = rt.alloc();
    let mut room = Room::none();
    // a cell of lower rank is looked for once
    let rows = ints(alloc, &[3, 2], &[1, 2, 3, 4, 1, 2])?;
    let alone = index_of(alloc, &mut room, rows, Array::atom(1));
    expect(&rt, alone, Array::atom(3));
    let rows = ints(alloc, &[3, 2], &[1, 2, 3, 4, 1, 2])?;
    let long = index_of(
        alloc,
        &mut room,
        rows,
        ints(alloc, &[2, 3], &[1, 2, 0, 3, 4, 0])?,
    );
    expect(&rt, long, list(alloc, &[3, 3])?);
    // texts are no numbers, but where there are no atoms no kind counts
    let numbers = list(alloc, &[97, 98])?;
    let text = index_of(alloc, &mut room, numbers, chars(alloc, &[2], b"ab")?);
    expect(&rt, text, list(alloc, &[2, 2])?);
    let none = ints(alloc, &[3, 0], &[])?;
    let empty = index_of(alloc, &mut room, none, chars(alloc, &[0], b"")?);
    expect(&rt, empty, Array::atom(0));
    Ok(())
}

#[test]
fn items_are_members_or_left_out(rt: HostRuntime) -> Result<(), Fail> {
    let alloc = rt.alloc();
    let mut room = Room::none();
    let x = chars(alloc, &[4], b"bead")?;
    let among = member(alloc, &mut room, x, chars(alloc, &[3], b"abc")?);
    expect(&rt, among, list(alloc, &[1, 0, 1, 0])?);
    let x = boxes(alloc, &[b"one", b"two", b"three"])?;
    let left = less(alloc, &mut room, x, boxes(alloc, &[b"two", b"four"])?);
    expect(&rt, left, boxes(alloc, &[b"one", b"three"])?);
    let x = list(alloc, &[4, 5, 6])?;
    let all = less(alloc, &mut room, x, chars(alloc, &[0], b"")?);
    expect(&rt, all, list(alloc, &[4, 5, 6])?);
    Ok(())
}

#[test]
fn each_item_is_kept_once(rt: HostRuntime) -> Result<(), Fail> {
    let alloc = rt.alloc();
    let mut room = Room::none();
    let once = nub(alloc, &mut room, list(alloc, &[3, 1, 3, 2, 1])?);
    expect(&rt, once, list(alloc, &[3, 1, 2])?);
    let flags = sieve(alloc, &mut room, list(alloc, &[3, 1, 3, 2, 1])?);
    expect(&rt, flags, list(alloc, &[1, 1, 0, 1, 0])?);
    let words = nub(alloc, &mut room, boxes(alloc, &[b"a", b"bc", b"a"])?);
    expect(&rt, words, boxes(alloc, &[b"a", b"bc"])?);
    let alone = nub(alloc, &mut room, Array::atom(5));
    expect(&rt, alone, list(alloc, &[5])?);
    // items without atoms match
    let empty = nub(alloc, &mut room, ints(alloc, &[4, 0], &[])?);
    expect(&rt, empty, ints(alloc, &[1, 0], &[])?);
    let none = nub(alloc, &mut room, ints(alloc, &[0, 4], &[])?);
    expect(&rt, none, ints(alloc, &[0, 4], &[])?);
    Ok(())
}

#[test]
fn arrays_match(rt: HostRuntime) -> Result<(), Fail> {
    let alloc = rt.alloc();
    let mut room = Room::none();
    let x = list(alloc, &[1, 2])?;
    let same = matched(alloc, &mut room, x, list(alloc, &[1, 2])?);
    expect(&rt, same, Array::atom(1));
    let x = list(alloc, &[7])?;
    let other = matched(alloc, &mut room, x, Array::atom(7));
    expect(&rt, other, Array::atom(0));
    let x = list(alloc, &[])?;
    let empty = matched(alloc, &mut room, x, chars(alloc, &[0], b"")?);
    expect(&rt, empty, Array::atom(1));
    Ok(())
}
