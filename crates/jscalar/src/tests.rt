#![tactic(auto)]

mod arithmetic;
mod comparisons;

use crate::dyads::{Minus, Times};
use crate::monads::{Increment, Square};
use crate::{Turned, each, fill, one, two};
use jdata::{Fault, Primitive};
use std::process::Abort;
use std::test::Fail;

const MIN: i64 = i64::MIN;

const MAX: i64 = i64::MAX;

/// The arguments of each table: of the rows and of the columns.
const ATOMS: [i64; 12] = [MIN, -2, -1, 0, 1, 2, 3, 7, 62, 63, 64, MAX];

/// Stands for nonce error in a table.
const N: i64 = -8_888_888_888_888_888_888;

/// Stands for domain error in a table.
const D: i64 = -7_777_777_777_777_777_777;

/// What a table says.
fn told(value: i64) -> Result<i64, Fault> {
    match value {
        N => Err(Fault::Nonce),
        D => Err(Fault::Domain),
        value => Ok(value),
    }
}

fn check_one(rt: &impl Abort, verb: Primitive, row: &[i64; 12]) {
    for at in 0..12 {
        assert_eq!(rt; one(verb, ATOMS[at]), told(row[at]));
    }
}

fn check_two(rt: &impl Abort, verb: Primitive, table: &[[i64; 12]; 12]) {
    for row in 0..12 {
        for column in 0..12 {
            assert_eq!(rt;
                two(verb, ATOMS[row], ATOMS[column]),
                told(table[row][column])
            );
        }
    }
}

fn check_pairs(rt: &impl Abort, verb: Primitive, rows: &[(i64, i64, i64)]) {
    for &(x, y, value) in rows {
        assert_eq!(rt; two(verb, x, y), told(value));
    }
}

#[test]
fn large_numbers(rt: HostRuntime) {
    let choices = [
        (1, MAX, MAX),
        (MAX - 1, MAX, MAX),
        (2, 4_000_000_000, 7_999_999_998_000_000_000),
        (3_999_999_998, 4_000_000_000, 7_999_999_998_000_000_000),
        (4_611_686_018_427_387_903, MAX, N),
        (33, 66, 7_219_428_434_016_265_740),
        (33, 67, N),
    ];
    check_pairs(&rt, Primitive::Bang, &choices);
    let powers = [
        (3, 39, 4_052_555_153_018_976_267),
        (3, 40, N),
        (-2, 63, MIN),
    ];
    check_pairs(&rt, Primitive::Power, &powers);
    let roots = [
        (39, 4_052_555_153_018_976_267, 3),
        (39, 4_052_555_153_018_976_266, N),
        (2, 9_223_372_030_926_249_001, 3_037_000_499),
        (2, 9_223_372_030_926_249_002, N),
        (62, 4_611_686_018_427_387_904, 2),
    ];
    check_pairs(&rt, Primitive::DivideColon, &roots);
}

#[test]
fn monads(rt: HostRuntime) -> Result<(), Fail> {
    let table = [
        (
            Primitive::Plus,
            [MIN, -2, -1, 0, 1, 2, 3, 7, 62, 63, 64, MAX],
        ),
        (
            Primitive::LessDot,
            [MIN, -2, -1, 0, 1, 2, 3, 7, 62, 63, 64, MAX],
        ),
        (
            Primitive::GreaterDot,
            [MIN, -2, -1, 0, 1, 2, 3, 7, 62, 63, 64, MAX],
        ),
        (
            Primitive::Minus,
            [
                N,
                2,
                1,
                0,
                -1,
                -2,
                -3,
                -7,
                -62,
                -63,
                -64,
                -9_223_372_036_854_775_807,
            ],
        ),
        (Primitive::Bar, [N, 2, 1, 0, 1, 2, 3, 7, 62, 63, 64, MAX]),
        (Primitive::Times, [-1, -1, -1, 0, 1, 1, 1, 1, 1, 1, 1, 1]),
        (Primitive::Divide, [N, N, -1, N, 1, N, N, N, N, N, N, N]),
        (
            Primitive::PlusColon,
            [N, -4, -2, 0, 2, 4, 6, 14, 124, 126, 128, N],
        ),
        (
            Primitive::TimesColon,
            [N, 4, 1, 0, 1, 4, 9, 49, 3844, 3969, 4096, N],
        ),
        (
            Primitive::LessColon,
            [
                N,
                -3,
                -2,
                -1,
                0,
                1,
                2,
                6,
                61,
                62,
                63,
                9_223_372_036_854_775_806,
            ],
        ),
        (
            Primitive::GreaterColon,
            [
                -9_223_372_036_854_775_807,
                -1,
                0,
                1,
                2,
                3,
                4,
                8,
                63,
                64,
                65,
                N,
            ],
        ),
        (
            Primitive::MinusDot,
            [
                N,
                3,
                2,
                1,
                0,
                -1,
                -2,
                -6,
                -61,
                -62,
                -63,
                -9_223_372_036_854_775_806,
            ],
        ),
        (
            Primitive::MinusColon,
            [
                -4_611_686_018_427_387_904,
                -1,
                N,
                0,
                N,
                1,
                N,
                N,
                31,
                N,
                32,
                N,
            ],
        ),
        (Primitive::Bang, [N, N, N, 1, 1, 2, 6, 5040, N, N, N, N]),
        (Primitive::Power, [N, N, N, 1, N, N, N, N, N, N, N, N]),
        (Primitive::DivideColon, [N, N, N, 0, 1, N, N, N, N, N, 8, N]),
    ];
    for (verb, row) in table.iter() {
        check_one(&rt, *verb, row);
    }
    Ok(())
}

#[test]
fn lists(rt: HostRuntime) {
    let mut numbers = [1, 2, 3, 4, 5, 6, 7, 8, 9, MAX - 1];
    assert!(rt; !each::<Increment>(&mut numbers));
    assert_eq!(rt; numbers, [2, 3, 4, 5, 6, 7, 8, 9, 10, MAX]);
    assert!(rt; each::<Increment>(&mut numbers));
    let mut numbers = [-3, 0, 2, 3, 4, 5, 6, 7, 8, 9];
    assert!(rt; !each::<Square>(&mut numbers));
    assert_eq!(rt; numbers, [9, 0, 4, 9, 16, 25, 36, 49, 64, 81]);
}

#[test]
fn pairs_and_cells(rt: HostRuntime) {
    let mut numbers = [1, 2, 3, 4];
    assert!(rt; !fill::<Minus>(&[10, 20], 2, &mut numbers));
    assert_eq!(rt; numbers, [9, 8, 17, 16]);
    assert!(rt; !fill::<Turned<Minus>>(&[1, 1, 1, 1], 1, &mut numbers));
    assert_eq!(rt; numbers, [8, 7, 16, 15]);
    assert!(rt; !fill::<Times>(&[1, 2, 3, 4], 1, &mut numbers));
    assert_eq!(rt; numbers, [8, 14, 48, 60]);
    assert!(rt; fill::<Times>(&[MAX], 4, &mut numbers));
}
