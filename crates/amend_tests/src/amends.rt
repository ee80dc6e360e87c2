use jamend::amend;
use jarray::{Array, Room};
use jdata::{Bytes, Cell, CellList, Fault, IntList, Leaves, Tree, Trouble};
use std::alloc::Global;
use std::process::Abort;
use std::test::Fail;

/// An array of integers: its axes and its atoms.
type Numbers = (&'static [u64], &'static [i64]);

fn tree(alloc: Global, numbers: Numbers) -> Result<Tree, Fail> {
    let shape = Vec::from_slice(alloc, numbers.0)?;
    let atoms = IntList::of(Vec::from_slice(alloc, numbers.1)?);
    Ok(Tree::new(shape, Leaves::Int(atoms))?)
}

fn text(alloc: Global, bytes: &[u8]) -> Result<Array, Fail> {
    let shape = Vec::from_slice(alloc, &[bytes.len() as u64])?;
    let atoms = Bytes::of(Vec::from_slice(alloc, bytes)?);
    Ok(Array::of(Tree::new(shape, Leaves::Char(atoms))?))
}

/// So many boxes with equal contents, in these axes.
fn boxes(alloc: Global, axes: &[u64], count: usize, content: Numbers) -> Result<Tree, Fail> {
    let mut cells = Vec::new(alloc);
    for _ in 0..count {
        cells.push(Cell::Boxed(tree(alloc, content)?))?;
    }
    let shape = Vec::from_slice(alloc, axes)?;
    Ok(Tree::new(shape, Leaves::Cell(CellList::of(cells)))?)
}

/// `x at} y`, all of integers.
fn amended(
    alloc: Global,
    x: Numbers,
    at: &Tree,
    y: Numbers,
) -> Result<Result<Array, Trouble>, Fail> {
    let mut room = Room::none();
    let new = Array::of(tree(alloc, x)?);
    let old = Array::of(tree(alloc, y)?);
    Ok(amend(alloc, &mut room, new, at, old))
}

fn expect(rt: &impl Abort, answer: Result<Array, Trouble>, expected: Array) {
    let room = Room::none();
    match answer {
        Ok(array) => assert!(rt; array.match_with(&room, &expected)),
        Err(_) => assert!(rt; false),
    }
}

fn expect_fault(rt: &impl Abort, answer: Result<Array, Trouble>, fault: Fault) {
    match answer {
        Ok(_) => assert!(rt; false),
        Err(trouble) => assert_eq!(rt; trouble, Trouble::Fault(fault)),
    }
}

#[test]
fn items_are_replaced(rt: HostRuntime) -> Result<(), Fail> {
    let alloc = rt.alloc();
    let table: [(Numbers, Numbers, Numbers, Numbers); 9] = [
        (
            (&[], &[9]),
            (&[], &[1]),
            (&[3], &[1, 2, 3]),
            (&[3], &[1, 9, 3]),
        ),
        (
            (&[2], &[7, 8]),
            (&[2], &[0, -1]),
            (&[4], &[0, 1, 2, 3]),
            (&[4], &[7, 1, 2, 8]),
        ),
        (
            (&[], &[5]),
            (&[2], &[1, 1]),
            (&[3], &[1, 2, 3]),
            (&[3], &[1, 5, 3]),
        ),
        (
            (&[2], &[8, 9]),
            (&[2], &[1, 1]),
            (&[3], &[1, 2, 3]),
            (&[3], &[1, 9, 3]),
        ),
        (
            (&[3], &[1, 2, 3]),
            (&[], &[1]),
            (&[2, 3], &[0, 1, 2, 3, 4, 5]),
            (&[2, 3], &[0, 1, 2, 1, 2, 3]),
        ),
        (
            (&[], &[9]),
            (&[2], &[0, 2]),
            (&[3, 2], &[0, 1, 2, 3, 4, 5]),
            (&[3, 2], &[9, 9, 2, 3, 9, 9]),
        ),
        (
            (&[2, 2], &[6, 7, 8, 9]),
            (&[2], &[-1, 0]),
            (&[3, 2], &[0, 1, 2, 3, 4, 5]),
            (&[3, 2], &[8, 9, 2, 3, 6, 7]),
        ),
        ((&[], &[9]), (&[], &[0]), (&[], &[4]), (&[], &[9])),
        ((&[], &[9]), (&[0], &[]), (&[2], &[4, 5]), (&[2], &[4, 5])),
    ];
    for &(x, at, y, expected) in &table {
        let at = tree(alloc, at)?;
        expect(
            &rt,
            amended(alloc, x, &at, y)?,
            Array::of(tree(alloc, expected)?),
        );
    }
    Ok(())
}

#[test]
fn a_cell_is_replaced(rt: HostRuntime) -> Result<(), Fail> {
    let alloc = rt.alloc();
    let table: [(Numbers, Numbers, Numbers, Numbers); 5] = [
        (
            (&[], &[9]),
            (&[2], &[1, 2]),
            (&[2, 3], &[0, 1, 2, 3, 4, 5]),
            (&[2, 3], &[0, 1, 2, 3, 4, 9]),
        ),
        (
            (&[], &[9]),
            (&[0], &[]),
            (&[2, 2], &[0, 1, 2, 3]),
            (&[2, 2], &[9, 9, 9, 9]),
        ),
        (
            (&[2], &[8, 9]),
            (&[], &[-1]),
            (&[2, 2], &[0, 1, 2, 3]),
            (&[2, 2], &[0, 1, 8, 9]),
        ),
        (
            (&[2], &[8, 9]),
            (&[0], &[]),
            (&[2, 2], &[0, 1, 2, 3]),
            (&[2, 2], &[8, 9, 8, 9]),
        ),
        ((&[], &[9]), (&[0], &[]), (&[], &[4]), (&[], &[9])),
    ];
    for &(x, names, y, expected) in &table {
        let at = boxes(alloc, &[], 1, names)?;
        expect(
            &rt,
            amended(alloc, x, &at, y)?,
            Array::of(tree(alloc, expected)?),
        );
    }
    Ok(())
}

#[test]
fn what_cannot_be_replaced_is_a_fault(rt: HostRuntime) -> Result<(), Fail> {
    let alloc = rt.alloc();
    let table: [(Numbers, Numbers, Numbers, Fault); 4] = [
        ((&[], &[9]), (&[], &[5]), (&[2], &[1, 2]), Fault::Index),
        (
            (&[3], &[1, 2, 3]),
            (&[2], &[0, 9]),
            (&[4], &[0, 1, 2, 3]),
            Fault::Length,
        ),
        (
            (&[2, 2], &[0, 1, 2, 3]),
            (&[], &[1]),
            (&[3], &[1, 2, 3]),
            Fault::Rank,
        ),
        ((&[], &[9]), (&[1], &[-3]), (&[2, 0], &[]), Fault::Index),
    ];
    for &(x, at, y, fault) in &table {
        let at = tree(alloc, at)?;
        expect_fault(&rt, amended(alloc, x, &at, y)?, fault);
    }
    Ok(())
}

#[test]
fn boxes_name_one_cell(rt: HostRuntime) -> Result<(), Fail> {
    let alloc = rt.alloc();
    let list: Numbers = (&[2], &[1, 2]);
    let several = boxes(alloc, &[2], 2, (&[], &[1]))?;
    expect_fault(
        &rt,
        amended(alloc, (&[], &[9]), &several, list)?,
        Fault::Domain,
    );
    let many = boxes(alloc, &[], 1, (&[2], &[0, 0]))?;
    expect_fault(
        &rt,
        amended(alloc, (&[2, 2], &[0, 1, 2, 3]), &many, list)?,
        Fault::Length,
    );
    let table = boxes(alloc, &[], 1, (&[1, 1], &[0]))?;
    expect_fault(
        &rt,
        amended(alloc, (&[], &[9]), &table, list)?,
        Fault::Domain,
    );
    Ok(())
}

#[test]
fn kinds_are_not_mixed(rt: HostRuntime) -> Result<(), Fail> {
    let alloc = rt.alloc();
    let mut room = Room::none();
    let at = tree(alloc, (&[1], &[1]))?;
    let numbers = Array::of(tree(alloc, (&[3], &[1, 2, 3]))?);
    let letter = text(alloc, b"a")?;
    expect_fault(
        &rt,
        amend(alloc, &mut room, letter, &at, numbers),
        Fault::Domain,
    );
    let word = amend(
        alloc,
        &mut room,
        text(alloc, b"o")?,
        &at,
        text(alloc, b"cat")?,
    );
    expect(&rt, word, text(alloc, b"cot")?);
    Ok(())
}
