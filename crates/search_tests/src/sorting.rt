//! Grade, sort, interval index and self-classify.

use crate::searching::{boxes, chars, expect, expect_fault, ints, list};
use jarray::{Array, Room};
use jdata::Fault;
use jsearch::{classify, grade_down, grade_up, interval_index, sort_down, sort_up};
use std::alloc::Global;
use std::process::Abort;
use std::test::Fail;

/// Both grades of an array, which is handed over twice.
fn grades(
    rt: &impl Abort,
    alloc: Global,
    y: Array,
    again: Array,
    up: &[i64],
    down: &[i64],
) -> Result<(), Fail> {
    let mut room = Room::none();
    let rising = grade_up(alloc, &mut room, y);
    expect(rt, rising, list(alloc, up)?);
    let falling = grade_down(alloc, &mut room, again);
    expect(rt, falling, list(alloc, down)?);
    Ok(())
}

#[test]
fn items_are_graded(rt: HostRuntime) -> Result<(), Fail> {
    let a = rt.alloc();
    let numbers: &[i64] = &[3, -1, 3, 7, -1];
    let (y, again) = (list(a, numbers)?, list(a, numbers)?);
    grades(&rt, a, y, again, &[1, 4, 0, 2, 3], &[3, 0, 2, 1, 4])?;
    let (y, again) = (chars(a, &[6], b"banana")?, chars(a, &[6], b"banana")?);
    grades(&rt, a, y, again, &[1, 3, 5, 0, 2, 4], &[2, 4, 0, 1, 3, 5])?;
    let rows: &[i64] = &[2, 1, 1, 9, 2, 0, 1, 9];
    let (y, again) = (ints(a, &[4, 2], rows)?, ints(a, &[4, 2], rows)?);
    grades(&rt, a, y, again, &[1, 3, 2, 0], &[0, 2, 1, 3])?;
    grades(&rt, a, Array::atom(5), Array::atom(5), &[0], &[0])?;
    let (y, again) = (ints(a, &[3, 0], &[])?, chars(a, &[3, 0], b"")?);
    grades(&rt, a, y, again, &[0, 1, 2], &[0, 1, 2])?;
    let (y, again) = (boxes(a, &[])?, ints(a, &[0, 2, 2], &[])?);
    grades(&rt, a, y, again, &[], &[])
}

#[test]
fn items_are_sorted(rt: HostRuntime) -> Result<(), Fail> {
    let a = rt.alloc();
    let mut room = Room::none();
    let up = sort_up(a, &mut room, chars(a, &[3], b"abc")?, list(a, &[2, 2, 1])?);
    expect(&rt, up, chars(a, &[3], b"cab")?);
    let down = sort_down(
        a,
        &mut room,
        boxes(a, &[b"x", b"y", b"z"])?,
        chars(a, &[2], b"ab")?,
    );
    expect(&rt, down, boxes(a, &[b"y", b"x"])?);
    let none = sort_up(a, &mut room, ints(a, &[0, 3], &[])?, chars(a, &[0], b"")?);
    expect(&rt, none, ints(a, &[0, 3], &[])?);
    let short = sort_up(a, &mut room, Array::atom(9), list(a, &[1, 0])?);
    expect_fault(&rt, short, Fault::Index);
    let boxed = sort_down(a, &mut room, Array::atom(9), boxes(a, &[b"a"])?);
    expect_fault(&rt, boxed, Fault::Nonce);
    Ok(())
}

#[test]
fn numbers_are_put_between(rt: HostRuntime) -> Result<(), Fail> {
    let a = rt.alloc();
    let mut room = Room::none();
    let y = ints(a, &[2, 3], &[0, 2, 3, 4, 6, 7])?;
    let rising = interval_index(a, &mut room, list(a, &[2, 4, 4, 6])?, y);
    expect(&rt, rising, ints(a, &[2, 3], &[0, 0, 1, 1, 3, 4])?);
    let falling = interval_index(
        a,
        &mut room,
        list(a, &[6, 4, 4, 2])?,
        list(a, &[7, 6, 4, 2, 1])?,
    );
    expect(&rt, falling, list(a, &[0, 0, 1, 3, 4])?);
    let equal = interval_index(a, &mut room, list(a, &[5, 5])?, list(a, &[4, 5, 6])?);
    expect(&rt, equal, list(a, &[0, 0, 2])?);
    let alone = interval_index(a, &mut room, Array::atom(5), Array::atom(6));
    expect(&rt, alone, Array::atom(1));
    let none = interval_index(a, &mut room, boxes(a, &[])?, chars(a, &[0, 2], b"")?);
    expect(&rt, none, ints(a, &[0, 2], &[])?);
    let unordered = interval_index(a, &mut room, list(a, &[1, 3, 2])?, Array::atom(2));
    expect_fault(&rt, unordered, Fault::Domain);
    let table = interval_index(a, &mut room, ints(a, &[1, 1], &[1])?, Array::atom(2));
    expect_fault(&rt, table, Fault::Domain);
    let text = interval_index(a, &mut room, list(a, &[1])?, chars(a, &[1], b"a")?);
    expect_fault(&rt, text, Fault::Domain);
    Ok(())
}

#[test]
fn items_are_classified(rt: HostRuntime) -> Result<(), Fail> {
    let a = rt.alloc();
    let mut room = Room::none();
    let texts = classify(a, &mut room, boxes(a, &[b"a", b"bc", b"a"])?);
    expect(&rt, texts, ints(a, &[2, 3], &[1, 0, 1, 0, 1, 0])?);
    let alone = classify(a, &mut room, Array::atom(5));
    expect(&rt, alone, ints(a, &[1, 1], &[1])?);
    let rows = classify(a, &mut room, ints(a, &[2, 2], &[1, 2, 1, 2])?);
    expect(&rt, rows, ints(a, &[1, 2], &[1, 1])?);
    let none = classify(a, &mut room, chars(a, &[0], b"")?);
    expect(&rt, none, ints(a, &[0, 0], &[])?);
    Ok(())
}
