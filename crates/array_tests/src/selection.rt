use jarray::{Array, Room};
use jdata::{Bytes, Cell, CellList, Fault, IntList, Leaves, Tree, Trouble};
use jselect::{copy, fetch, from, tally};
use std::alloc::Global;
use std::process::Abort;
use std::test::Fail;

/// An array of integers: its axes and its atoms.
type Numbers = (&'static [u64], &'static [i64]);

fn tree(alloc: Global, numbers: Numbers) -> Result<Tree, Fail> {
    let shape = Vec::from_slice(alloc, numbers.0)?;
    let atoms = IntList::of(Vec::from_slice(alloc, numbers.1)?);
    Ok(Tree::new(shape, Leaves::Int(atoms))?)
}

fn ints(alloc: Global, numbers: Numbers) -> Result<Array, Fail> {
    Ok(Array::of(tree(alloc, numbers)?))
}

fn text_tree(alloc: Global, bytes: &[u8]) -> Result<Tree, Fail> {
    let shape = Vec::from_slice(alloc, &[bytes.len() as u64])?;
    let atoms = Bytes::of(Vec::from_slice(alloc, bytes)?);
    Ok(Tree::new(shape, Leaves::Char(atoms))?)
}

fn text(alloc: Global, bytes: &[u8]) -> Result<Array, Fail> {
    Ok(Array::of(text_tree(alloc, bytes)?))
}

/// A box that stands alone.
fn boxed(alloc: Global, content: Tree) -> Result<Tree, Fail> {
    let mut cells = Vec::new(alloc);
    cells.push(Cell::Boxed(content))?;
    Ok(Tree::new(Vec::new(alloc), Leaves::Cell(CellList::of(cells)))?)
}

/// Two boxes in a list.
fn pair(alloc: Global, left: Tree, right: Tree) -> Result<Tree, Fail> {
    let mut cells = Vec::new(alloc);
    cells.push(Cell::Boxed(left))?;
    cells.push(Cell::Boxed(right))?;
    let shape = Vec::from_slice(alloc, &[2])?;
    Ok(Tree::new(shape, Leaves::Cell(CellList::of(cells)))?)
}

fn expect(rt: &impl Abort, answer: Result<Array, Trouble>, expected: Array) {
    let room = Room::none();
    match answer {
        Ok(array) => assert!(rt; array.match_with(&room, &expected)),
        Err(_) => assert!(rt; false),
    }
}

fn expect_fault(rt: &impl Abort, answer: Result<Array, Trouble>, fault: Fault) {
    match answer {
        Ok(_) => assert!(rt; false),
        Err(trouble) => assert_eq!(rt; trouble, Trouble::Fault(fault)),
    }
}

#[test]
fn items_are_counted(rt: HostRuntime) -> Result<(), Fail> {
    let alloc = rt.alloc();
    let mut room = Room::none();
    let table: [(Numbers, i64); 5] = [
        ((&[], &[7]), 1),
        ((&[0], &[]), 0),
        ((&[3], &[1, 2, 3]), 3),
        ((&[2, 3], &[0, 1, 2, 3, 4, 5]), 2),
        ((&[134_217_728, 0], &[]), 134_217_728),
    ];
    for (y, count) in table.iter() {
        let counted = tally(alloc, &mut room, ints(alloc, *y)?);
        expect(&rt, counted, Array::atom(*count));
    }
    Ok(())
}

#[test]
fn items_are_copied(rt: HostRuntime) -> Result<(), Fail> {
    let alloc = rt.alloc();
    let mut room = Room::none();
    let table: [(Numbers, Numbers, Numbers); 11] = [
        ((&[3], &[1, 0, 2]), (&[3], &[5, 6, 7]), (&[3], &[5, 7, 7])),
        ((&[], &[2]), (&[2], &[5, 6]), (&[4], &[5, 5, 6, 6])),
        ((&[3], &[1, 0, 2]), (&[], &[5]), (&[3], &[5, 5, 5])),
        ((&[], &[3]), (&[], &[5]), (&[3], &[5, 5, 5])),
        ((&[], &[0]), (&[2, 2], &[1, 2, 3, 4]), (&[0, 2], &[])),
        (
            (&[2], &[0, 2]),
            (&[2, 2], &[1, 2, 3, 4]),
            (&[2, 2], &[3, 4, 3, 4]),
        ),
        ((&[1], &[1]), (&[1, 1, 2], &[8, 9]), (&[1, 1, 2], &[8, 9])),
        ((&[0], &[]), (&[0, 3], &[]), (&[0, 3], &[])),
        ((&[2], &[2, 1]), (&[2, 0], &[]), (&[3, 0], &[])),
        (
            (&[], &[1]),
            (&[1, 134_217_728, 0], &[]),
            (&[1, 134_217_728, 0], &[]),
        ),
        ((&[0], &[]), (&[], &[5]), (&[0], &[])),
    ];
    for (x, y, copies) in table.iter() {
        let copied = copy(alloc, &mut room, ints(alloc, *x)?, ints(alloc, *y)?);
        expect(&rt, copied, ints(alloc, *copies)?);
    }
    let copied = copy(
        alloc,
        &mut room,
        ints(alloc, (&[3], &[1, 0, 2]))?,
        text(alloc, b"abc")?,
    );
    expect(&rt, copied, text(alloc, b"acc")?);
    let boxes = pair(alloc, text_tree(alloc, b"a")?, text_tree(alloc, b"b")?)?;
    let copied = copy(
        alloc,
        &mut room,
        ints(alloc, (&[2], &[0, 2]))?,
        Array::of(boxes),
    );
    let twice = pair(alloc, text_tree(alloc, b"b")?, text_tree(alloc, b"b")?)?;
    expect(&rt, copied, Array::of(twice));
    Ok(())
}

#[test]
fn copies_are_refused(rt: HostRuntime) -> Result<(), Fail> {
    let alloc = rt.alloc();
    let mut room = Room::none();
    let table: [(Numbers, Numbers, Fault); 8] = [
        ((&[], &[-1]), (&[2], &[1, 2]), Fault::Domain),
        ((&[3], &[1, -1, 1]), (&[2], &[1, 2]), Fault::Domain),
        (
            (&[3], &[134_217_728, 1, -1]),
            (&[3], &[1, 2, 3]),
            Fault::Domain,
        ),
        ((&[2], &[1, 2]), (&[3], &[1, 2, 3]), Fault::Length),
        ((&[1], &[2]), (&[3], &[1, 2, 3]), Fault::Length),
        ((&[], &[134_217_729]), (&[], &[5]), Fault::Limit),
        (
            (&[3], &[i64::MAX, i64::MAX, i64::MAX]),
            (&[3], &[1, 2, 3]),
            Fault::Limit,
        ),
        ((&[], &[2]), (&[1, 134_217_728, 0], &[]), Fault::Limit),
    ];
    for (x, y, fault) in table.iter() {
        let copied = copy(alloc, &mut room, ints(alloc, *x)?, ints(alloc, *y)?);
        expect_fault(&rt, copied, *fault);
    }
    let copied = copy(alloc, &mut room, text(alloc, b"ab")?, text(alloc, b"abc")?);
    expect_fault(&rt, copied, Fault::Domain);
    Ok(())
}

#[test]
fn items_are_named(rt: HostRuntime) -> Result<(), Fail> {
    let alloc = rt.alloc();
    let mut room = Room::none();
    let table: [(i64, Numbers, Numbers); 8] = [
        (0, (&[3], &[1, 2, 3]), (&[], &[1])),
        (2, (&[3], &[1, 2, 3]), (&[], &[3])),
        (-1, (&[3], &[1, 2, 3]), (&[], &[3])),
        (-3, (&[3], &[1, 2, 3]), (&[], &[1])),
        (1, (&[2, 3], &[0, 1, 2, 3, 4, 5]), (&[3], &[3, 4, 5])),
        (-1, (&[], &[5]), (&[], &[5])),
        (1, (&[2, 0], &[]), (&[0], &[])),
        (1, (&[2, 1, 2], &[0, 1, 2, 3]), (&[1, 2], &[2, 3])),
    ];
    for (x, y, item) in table.iter() {
        let named = from(alloc, &mut room, Array::atom(*x), ints(alloc, *y)?);
        expect(&rt, named, ints(alloc, *item)?);
    }
    for x in [3, -4, i64::MAX, i64::MIN] {
        let named = from(
            alloc,
            &mut room,
            Array::atom(x),
            ints(alloc, (&[3], &[1, 2, 3]))?,
        );
        expect_fault(&rt, named, Fault::Index);
    }
    let named = from(
        alloc,
        &mut room,
        Array::atom(0),
        ints(alloc, (&[0, 3], &[]))?,
    );
    expect_fault(&rt, named, Fault::Index);
    let named = from(alloc, &mut room, text(alloc, b"a")?, text(alloc, b"abc")?);
    expect_fault(&rt, named, Fault::Domain);
    Ok(())
}

#[test]
fn cells_are_named(rt: HostRuntime) -> Result<(), Fail> {
    let alloc = rt.alloc();
    let mut room = Room::none();
    let matrix: Numbers = (&[2, 3], &[0, 1, 2, 3, 4, 5]);
    let table: [(Numbers, Numbers, Numbers); 7] = [
        ((&[2], &[1, 2]), matrix, (&[], &[5])),
        ((&[2], &[-1, -3]), matrix, (&[], &[3])),
        ((&[1], &[1]), matrix, (&[3], &[3, 4, 5])),
        ((&[], &[-2]), matrix, (&[3], &[0, 1, 2])),
        ((&[0], &[]), matrix, matrix),
        ((&[0, 4], &[]), (&[], &[5]), (&[], &[5])),
        (
            (&[2], &[1, 0]),
            (&[2, 1, 2], &[0, 1, 2, 3]),
            (&[2], &[2, 3]),
        ),
    ];
    for (x, y, cell) in table.iter() {
        let places = Array::of(boxed(alloc, tree(alloc, *x)?)?);
        let named = from(alloc, &mut room, places, ints(alloc, *y)?);
        expect(&rt, named, ints(alloc, *cell)?);
    }
    Ok(())
}

#[test]
fn cells_are_refused(rt: HostRuntime) -> Result<(), Fail> {
    let alloc = rt.alloc();
    let mut room = Room::none();
    let matrix: Numbers = (&[2, 3], &[0, 1, 2, 3, 4, 5]);
    let table: [(Numbers, Numbers, Fault); 6] = [
        ((&[2], &[2, 0]), matrix, Fault::Index),
        ((&[2], &[0, -4]), matrix, Fault::Index),
        ((&[3], &[9, 9, 9]), matrix, Fault::Length),
        ((&[], &[0]), (&[], &[5]), Fault::Length),
        ((&[1, 1], &[0]), matrix, Fault::Domain),
        ((&[2], &[0, 0]), (&[2, 0], &[]), Fault::Index),
    ];
    for (x, y, fault) in table.iter() {
        let places = Array::of(boxed(alloc, tree(alloc, *x)?)?);
        let named = from(alloc, &mut room, places, ints(alloc, *y)?);
        expect_fault(&rt, named, *fault);
    }
    let places = Array::of(boxed(alloc, text_tree(alloc, b"a")?)?);
    let named = from(alloc, &mut room, places, ints(alloc, matrix)?);
    expect_fault(&rt, named, Fault::Domain);
    let inner = boxed(alloc, tree(alloc, (&[], &[0]))?)?;
    let places = Array::of(boxed(alloc, inner)?);
    let named = from(alloc, &mut room, places, ints(alloc, matrix)?);
    expect_fault(&rt, named, Fault::Nonce);
    Ok(())
}

/// `1 2 ; 'ab' ; < 'c'` in two levels: a list of numbers, and a pair of texts.
fn nested(alloc: Global) -> Result<Array, Fail> {
    let texts = pair(alloc, text_tree(alloc, b"ab")?, text_tree(alloc, b"c")?)?;
    let numbers = tree(alloc, (&[2], &[1, 2]))?;
    Ok(Array::of(pair(alloc, numbers, texts)?))
}

#[test]
fn items_are_fetched(rt: HostRuntime) -> Result<(), Fail> {
    let alloc = rt.alloc();
    let mut room = Room::none();
    let none: Numbers = (&[0], &[]);
    let same = fetch(alloc, &mut room, ints(alloc, none)?, nested(alloc)?);
    expect(&rt, same, nested(alloc)?);
    let first = fetch(alloc, &mut room, ints(alloc, (&[1], &[0]))?, nested(alloc)?);
    expect(&rt, first, ints(alloc, (&[2], &[1, 2]))?);
    let number = fetch(
        alloc,
        &mut room,
        ints(alloc, (&[2], &[0, -1]))?,
        nested(alloc)?,
    );
    expect(&rt, number, Array::atom(2));
    let inner = fetch(
        alloc,
        &mut room,
        ints(alloc, (&[2], &[-1, 0]))?,
        nested(alloc)?,
    );
    expect(&rt, inner, text(alloc, b"ab")?);
    let alone = boxed(alloc, text_tree(alloc, b"ab")?)?;
    let opened = fetch(alloc, &mut room, Array::atom(0), Array::of(alone))?;
    assert!(rt; opened.match_with(&room, &text(alloc, b"ab")?));
    let row = fetch(
        alloc,
        &mut room,
        Array::atom(1),
        ints(alloc, (&[2, 2], &[1, 2, 3, 4]))?,
    );
    expect(&rt, row, ints(alloc, (&[2], &[3, 4]))?);
    Ok(())
}

#[test]
fn items_are_not_fetched(rt: HostRuntime) -> Result<(), Fail> {
    let alloc = rt.alloc();
    let mut room = Room::none();
    let missing = fetch(
        alloc,
        &mut room,
        ints(alloc, (&[2], &[1, 2]))?,
        nested(alloc)?,
    );
    expect_fault(&rt, missing, Fault::Index);
    let first = fetch(
        alloc,
        &mut room,
        ints(alloc, (&[2], &[2, 0]))?,
        nested(alloc)?,
    );
    expect_fault(&rt, first, Fault::Index);
    let wrong = fetch(alloc, &mut room, text(alloc, b"a")?, nested(alloc)?);
    expect_fault(&rt, wrong, Fault::Domain);
    let mut cells = Vec::new(alloc);
    cells.push(Cell::Boxed(tree(alloc, (&[], &[1]))?))?;
    let table = Tree::new(
        Vec::from_slice(alloc, &[1, 1])?,
        Leaves::Cell(CellList::of(cells)),
    )?;
    let refused = fetch(alloc, &mut room, Array::atom(9), Array::of(table));
    expect_fault(&rt, refused, Fault::Length);
    Ok(())
}
