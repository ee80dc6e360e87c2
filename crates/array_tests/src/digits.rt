use jarray::{Array, Room};
use jdata::{Bytes, Fault, IntList, Leaves, Tree, Trouble};
use jradix::{base, base_two, binary, digits};
use std::alloc::Global;
use std::process::Abort;
use std::test::Fail;

/// An array of integers: its axes and its atoms.
type Numbers = (&'static [u64], &'static [i64]);

fn ints(alloc: Global, numbers: Numbers) -> Result<Array, Fail> {
    let shape = Vec::from_slice(alloc, numbers.0)?;
    let atoms = IntList::of(Vec::from_slice(alloc, numbers.1)?);
    Ok(Array::of(Tree::new(shape, Leaves::Int(atoms))?))
}

fn text(alloc: Global, bytes: &[u8]) -> Result<Array, Fail> {
    let shape = Vec::from_slice(alloc, &[bytes.len() as u64])?;
    let atoms = Bytes::of(Vec::from_slice(alloc, bytes)?);
    Ok(Array::of(Tree::new(shape, Leaves::Char(atoms))?))
}

fn expect(rt: &impl Abort, answer: Result<Array, Trouble>, expected: Array) {
    let room = Room::none();
    match answer {
        Ok(array) => assert!(rt; array.match_with(&room, &expected)),
        Err(_) => assert!(rt; false),
    }
}

fn expect_fault(rt: &impl Abort, answer: Result<Array, Trouble>, fault: Fault) {
    match answer {
        Ok(_) => assert!(rt; false),
        Err(trouble) => assert_eq!(rt; trouble, Trouble::Fault(fault)),
    }
}

#[test]
fn digits_have_values(rt: HostRuntime) -> Result<(), Fail> {
    let alloc = rt.alloc();
    let mut room = Room::none();
    let table: [(Numbers, Numbers, i64); 7] = [
        ((&[2], &[24, 60]), (&[2], &[2, 5]), 125),
        ((&[], &[10]), (&[3], &[1, 2, 3]), 123),
        ((&[2], &[10, 20]), (&[], &[3]), 63),
        ((&[], &[7]), (&[], &[9]), 9),
        ((&[0], &[]), (&[0], &[]), 0),
        ((&[], &[-2]), (&[3], &[1, 1, 0]), 2),
        (
            (&[], &[2]),
            (&[2], &[4_611_686_018_427_387_903, 1]),
            i64::MAX,
        ),
    ];
    for (x, y, value) in table.iter() {
        let found = base(alloc, &mut room, ints(alloc, *x)?, ints(alloc, *y)?);
        expect(&rt, found, Array::atom(*value));
    }
    let faults: [(Numbers, Numbers, Fault); 3] = [
        ((&[2], &[1, 2]), (&[3], &[1, 2, 3]), Fault::Length),
        ((&[0], &[]), (&[1], &[1]), Fault::Length),
        ((&[], &[2]), (&[2], &[i64::MAX, 0]), Fault::Nonce),
    ];
    for (x, y, fault) in faults.iter() {
        let found = base(alloc, &mut room, ints(alloc, *x)?, ints(alloc, *y)?);
        expect_fault(&rt, found, *fault);
    }
    let five = base_two(alloc, &mut room, ints(alloc, (&[3], &[1, 0, 1]))?);
    expect(&rt, five, Array::atom(5));
    let letters = base_two(alloc, &mut room, text(alloc, b"ab")?);
    expect_fault(&rt, letters, Fault::Domain);
    Ok(())
}

#[test]
fn values_have_digits(rt: HostRuntime) -> Result<(), Fail> {
    let alloc = rt.alloc();
    let mut room = Room::none();
    let table: [(Numbers, i64, Numbers); 8] = [
        ((&[2], &[24, 60]), 125, (&[2], &[2, 5])),
        ((&[2], &[24, 60]), 3000, (&[2], &[2, 0])),
        ((&[], &[10]), 11, (&[1], &[1])),
        ((&[], &[10]), -3, (&[1], &[7])),
        ((&[3], &[2, 2, 2]), 5, (&[3], &[1, 0, 1])),
        ((&[2], &[0, 10]), 125, (&[2], &[12, 5])),
        ((&[2], &[10, 0]), 125, (&[2], &[0, 125])),
        ((&[0], &[]), 7, (&[0], &[])),
    ];
    for (x, number, expected) in table.iter() {
        let found = digits(alloc, &mut room, ints(alloc, *x)?, Array::atom(*number));
        expect(&rt, found, ints(alloc, *expected)?);
    }
    let beyond = digits(alloc, &mut room, Array::atom(-1), Array::atom(i64::MIN));
    expect_fault(&rt, beyond, Fault::Nonce);
    let letters = digits(alloc, &mut room, text(alloc, b"ab")?, Array::atom(5));
    expect_fault(&rt, letters, Fault::Domain);
    Ok(())
}

#[test]
fn values_have_binary_digits(rt: HostRuntime) -> Result<(), Fail> {
    let alloc = rt.alloc();
    let mut room = Room::none();
    let table: [(Numbers, Numbers); 6] = [
        ((&[], &[5]), (&[3], &[1, 0, 1])),
        ((&[], &[0]), (&[1], &[0])),
        ((&[3], &[1, 2, 3]), (&[3, 2], &[0, 1, 1, 0, 1, 1])),
        ((&[1, 1], &[4]), (&[1, 1, 3], &[1, 0, 0])),
        ((&[2], &[7, 8]), (&[2, 4], &[0, 1, 1, 1, 1, 0, 0, 0])),
        ((&[0], &[]), (&[0, 1], &[])),
    ];
    for (y, expected) in table.iter() {
        let found = binary(alloc, &mut room, ints(alloc, *y)?);
        expect(&rt, found, ints(alloc, *expected)?);
    }
    let negative = binary(alloc, &mut room, ints(alloc, (&[2], &[3, -1]))?);
    expect_fault(&rt, negative, Fault::Nonce);
    let letters = binary(alloc, &mut room, text(alloc, b"ab")?);
    expect_fault(&rt, letters, Fault::Domain);
    Ok(())
}
