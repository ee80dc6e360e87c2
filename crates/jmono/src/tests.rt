#![tactic(auto)]

use crate::scalar1;
use jarray::{Array, Room};
use jdata::{Bytes, Cell, CellList, Fault, IntList, Kind, Leaf, Leaves, Primitive, Tree, Trouble};
use std::alloc::Global;
use std::process::Abort;
use std::test::Fail;

fn array(alloc: Global, shape: &[u64], leaves: Leaves) -> Result<Array, Fail> {
    Ok(Array::of(Tree::new(Vec::from_slice(alloc, shape)?, leaves)?))
}

fn ints(alloc: Global, shape: &[u64], numbers: &[i64]) -> Result<Array, Fail> {
    let numbers = IntList::of(Vec::from_slice(alloc, numbers)?);
    array(alloc, shape, Leaves::Int(numbers))
}

fn text(alloc: Global, shape: &[u64], bytes: &[u8]) -> Result<Array, Fail> {
    let bytes = Bytes::of(Vec::from_slice(alloc, bytes)?);
    array(alloc, shape, Leaves::Char(bytes))
}

fn boxed(alloc: Global, number: i64) -> Result<Array, Fail> {
    let mut cells = Vec::new(alloc);
    cells.push(Cell::Boxed(Tree::atom(alloc, number)?))?;
    array(alloc, &[], Leaves::Cell(CellList::of(cells)))
}

fn gives(
    rt: &impl Abort,
    alloc: Global,
    verb: Primitive,
    y: Array,
    shape: &[u64],
    numbers: &[i64],
) -> Result<(), Fail> {
    let mut room = Room::none();
    let result = scalar1(alloc, &mut room, verb, y)?;
    assert_eq!(rt; result.kind(&room), Kind::Int);
    assert_eq!(rt; result.shape(&room), shape);
    match result.leaf(&room) {
        Leaf::Int(found) => assert_eq!(rt; found, numbers),
        _ => assert!(rt; false),
    }
    Ok(())
}

fn is_refused(rt: &impl Abort, alloc: Global, verb: Primitive, y: Array, fault: Fault) {
    match scalar1(alloc, &mut Room::none(), verb, y) {
        Ok(_) => assert!(rt; false),
        Err(Trouble::Fault(found)) => assert_eq!(rt; found, fault),
        Err(Trouble::NoMemory) => assert!(rt; false),
    }
}

#[test]
fn an_atom_gives_an_atom(rt: HostRuntime) -> Result<(), Fail> {
    let alloc = rt.alloc();
    gives(&rt, alloc, Primitive::Minus, Array::atom(5), &[], &[-5])?;
    is_refused(
        &rt,
        alloc,
        Primitive::Minus,
        Array::atom(i64::MIN),
        Fault::Nonce,
    );
    Ok(())
}

#[test]
fn each_atom_by_itself(rt: HostRuntime) -> Result<(), Fail> {
    let alloc = rt.alloc();
    let table = ints(alloc, &[2, 3], &[0, 1, -2, 3, -4, 5])?;
    gives(
        &rt,
        alloc,
        Primitive::TimesColon,
        table,
        &[2, 3],
        &[0, 1, 4, 9, 16, 25],
    )
}

#[test]
fn one_fault_refuses_all(rt: HostRuntime) -> Result<(), Fail> {
    let alloc = rt.alloc();
    let list = ints(alloc, &[3], &[1, 4, 5])?;
    is_refused(&rt, alloc, Primitive::DivideColon, list, Fault::Nonce);
    Ok(())
}

#[test]
fn other_kinds_are_refused(rt: HostRuntime) -> Result<(), Fail> {
    let alloc = rt.alloc();
    let letters = text(alloc, &[3], b"abc")?;
    is_refused(&rt, alloc, Primitive::Plus, letters, Fault::Domain);
    is_refused(&rt, alloc, Primitive::Bang, boxed(alloc, 5)?, Fault::Domain);
    Ok(())
}

#[test]
fn an_empty_text_gives_integers(rt: HostRuntime) -> Result<(), Fail> {
    let alloc = rt.alloc();
    let nothing = text(alloc, &[2, 0, 3], b"")?;
    gives(
        &rt,
        alloc,
        Primitive::GreaterColon,
        nothing,
        &[2, 0, 3],
        &[],
    )
}
