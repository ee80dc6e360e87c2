#![tactic(auto)]

use crate::scalar2;
use jarray::{Array, Room};
use jdata::{Bytes, Cell, CellList, Fault, IntList, Leaf, Leaves, Primitive, Tree, Trouble};
use std::alloc::Global;
use std::process::Abort;
use std::test::Fail;

fn array(alloc: Global, shape: &[u64], leaves: Leaves) -> Result<Array, Fail> {
    Ok(Array::of(Tree::new(Vec::from_slice(alloc, shape)?, leaves)?))
}

fn ints(alloc: Global, shape: &[u64], numbers: &[i64]) -> Result<Array, Fail> {
    let numbers = IntList::of(Vec::from_slice(alloc, numbers)?);
    array(alloc, shape, Leaves::Int(numbers))
}

fn text(alloc: Global, shape: &[u64], bytes: &[u8]) -> Result<Array, Fail> {
    let bytes = Bytes::of(Vec::from_slice(alloc, bytes)?);
    array(alloc, shape, Leaves::Char(bytes))
}

/// A list of boxes with one number each.
fn boxes(alloc: Global, numbers: &[i64]) -> Result<Array, Fail> {
    let mut cells = Vec::new(alloc);
    for number in numbers {
        cells.push(Cell::Boxed(Tree::atom(alloc, *number)?))?;
    }
    let count = cells.len() as u64;
    array(alloc, &[count], Leaves::Cell(CellList::of(cells)))
}

fn gives(
    rt: &impl Abort,
    alloc: Global,
    verb: Primitive,
    x: Array,
    y: Array,
    shape: &[u64],
    numbers: &[i64],
) -> Result<(), Fail> {
    let mut room = Room::none();
    let result = scalar2(alloc, &mut room, verb, x, y)?;
    assert_eq!(rt; result.shape(&room), shape);
    match result.leaf(&room) {
        Leaf::Int(found) => assert_eq!(rt; found, numbers),
        _ => assert!(rt; false),
    }
    Ok(())
}

fn is_refused(rt: &impl Abort, alloc: Global, verb: Primitive, x: Array, y: Array, fault: Fault) {
    match scalar2(alloc, &mut Room::none(), verb, x, y) {
        Ok(_) => assert!(rt; false),
        Err(why) => assert_eq!(rt; why, Trouble::Fault(fault)),
    }
}

#[test]
fn atoms_and_lists(rt: HostRuntime) -> Result<(), Fail> {
    let alloc = rt.alloc();
    let x = ints(alloc, &[3], &[1, 2, 3])?;
    let y = ints(alloc, &[3], &[4, 5, 6])?;
    gives(&rt, alloc, Primitive::Times, x, y, &[3], &[4, 10, 18])?;
    let list = ints(alloc, &[3], &[4, 5, 6])?;
    let atom = Array::atom(10);
    gives(&rt, alloc, Primitive::Minus, atom, list, &[3], &[6, 5, 4])?;
    let list = ints(alloc, &[3], &[4, 5, 6])?;
    let atom = Array::atom(10);
    gives(
        &rt,
        alloc,
        Primitive::Minus,
        list,
        atom,
        &[3],
        &[-6, -5, -4],
    )?;
    let (three, four) = (Array::atom(3), Array::atom(4));
    gives(&rt, alloc, Primitive::LessDot, three, four, &[], &[3])
}

#[test]
fn shorter_shapes_are_extended(rt: HostRuntime) -> Result<(), Fail> {
    let alloc = rt.alloc();
    let table = ints(alloc, &[2, 3], &[0, 1, 2, 3, 4, 5])?;
    let list = ints(alloc, &[2], &[10, 20])?;
    let wanted = [10, 11, 12, 23, 24, 25];
    gives(&rt, alloc, Primitive::Plus, table, list, &[2, 3], &wanted)?;
    let list = ints(alloc, &[2], &[10, 20])?;
    let solid = ints(alloc, &[2, 1, 2], &[1, 2, 3, 4])?;
    let wanted = [9, 8, 17, 16];
    gives(
        &rt,
        alloc,
        Primitive::Minus,
        list,
        solid,
        &[2, 1, 2],
        &wanted,
    )?;
    let table = ints(alloc, &[2, 3], &[0, 1, 2, 3, 4, 5])?;
    let list = ints(alloc, &[3], &[10, 20, 30])?;
    is_refused(&rt, alloc, Primitive::Plus, table, list, Fault::Length);
    Ok(())
}

#[test]
fn nothing_is_of_every_kind(rt: HostRuntime) -> Result<(), Fail> {
    let alloc = rt.alloc();
    let empty = text(alloc, &[0], b"")?;
    gives(
        &rt,
        alloc,
        Primitive::Plus,
        empty,
        Array::atom(1),
        &[0],
        &[],
    )?;
    let list = ints(alloc, &[2], &[1, 2])?;
    let empty = text(alloc, &[2, 0, 3], b"")?;
    gives(&rt, alloc, Primitive::Plus, list, empty, &[2, 0, 3], &[])?;
    let list = ints(alloc, &[3], &[1, 2, 3])?;
    let empty = ints(alloc, &[0], &[])?;
    is_refused(&rt, alloc, Primitive::Plus, list, empty, Fault::Length);
    Ok(())
}

#[test]
fn every_kind_is_compared(rt: HostRuntime) -> Result<(), Fail> {
    let alloc = rt.alloc();
    let a = text(alloc, &[], b"a")?;
    gives(&rt, alloc, Primitive::Equal, Array::atom(1), a, &[], &[0])?;
    let (word, b) = (text(alloc, &[3], b"abb")?, text(alloc, &[], b"b")?);
    gives(&rt, alloc, Primitive::TildeColon, word, b, &[3], &[1, 0, 0])?;
    let (x, y) = (boxes(alloc, &[1, 2])?, boxes(alloc, &[1, 3])?);
    gives(&rt, alloc, Primitive::Equal, x, y, &[2], &[1, 0])?;
    let (x, y) = (ints(alloc, &[2], &[97, 98])?, text(alloc, &[2], b"ab")?);
    gives(&rt, alloc, Primitive::TildeColon, x, y, &[2], &[1, 1])
}

#[test]
fn faults_in_their_order(rt: HostRuntime) -> Result<(), Fail> {
    let alloc = rt.alloc();
    let (x, y) = (text(alloc, &[2], b"ab")?, ints(alloc, &[3], &[1, 2, 3])?);
    is_refused(&rt, alloc, Primitive::Plus, x, y, Fault::Domain);
    let (x, y) = (text(alloc, &[2], b"ab")?, ints(alloc, &[3], &[1, 2, 3])?);
    is_refused(&rt, alloc, Primitive::Equal, x, y, Fault::Length);
    let list = ints(alloc, &[3], &[1, i64::MAX, 2])?;
    is_refused(
        &rt,
        alloc,
        Primitive::Plus,
        list,
        Array::atom(1),
        Fault::Nonce,
    );
    let list = ints(alloc, &[3], &[1, 0, 2])?;
    is_refused(
        &rt,
        alloc,
        Primitive::PlusColon,
        list,
        Array::atom(1),
        Fault::Domain,
    );
    let zero = Array::atom(0);
    is_refused(
        &rt,
        alloc,
        Primitive::Divide,
        Array::atom(3),
        zero,
        Fault::Nonce,
    );
    Ok(())
}
