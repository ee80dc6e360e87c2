use jarray::{Array, Room};
use jdata::{Cell, CellList, Fault, IntList, Leaves, Primitive, Tree, Trouble};
use jprim::{dyad, monad, opens};
use std::alloc::Global;
use std::process::Abort;
use std::test::Fail;

#[test]
fn rows_of_the_table(rt: HostRuntime) -> Result<(), Fail> {
    let alloc = rt.alloc();
    let mut room = Room::none();
    let less = monad(alloc, &mut room, Primitive::Minus, Array::atom(5))?;
    assert_eq!(rt; less.integer(&room), Some(-5));
    let sum = dyad(
        alloc,
        &mut room,
        Primitive::Plus,
        Array::atom(5),
        Array::atom(7),
    )?;
    assert_eq!(rt; sum.integer(&room), Some(12));
    let truth = dyad(
        alloc,
        &mut room,
        Primitive::TildeColon,
        Array::atom(5),
        Array::atom(7),
    )?;
    assert_eq!(rt; truth.integer(&room), Some(1));
    Ok(())
}

#[test]
fn a_valence_that_is_left_out(rt: HostRuntime) {
    let alloc = rt.alloc();
    let mut room = Room::none();
    match monad(alloc, &mut room, Primitive::PlusDot, Array::atom(5)) {
        Ok(_) => assert!(rt; false),
        Err(why) => assert_eq!(rt; why, Trouble::Fault(Fault::Nonce)),
    }
    match dyad(
        alloc,
        &mut room,
        Primitive::TildeDot,
        Array::atom(5),
        Array::atom(5),
    ) {
        Ok(_) => assert!(rt; false),
        Err(why) => assert_eq!(rt; why, Trouble::Fault(Fault::Nonce)),
    }
}

#[test]
fn verbs_that_open(rt: HostRuntime) {
    let table = [
        (Primitive::TildeDot, true, false),
        (Primitive::TildeColon, true, true),
        (Primitive::LeftBrace, false, true),
        (Primitive::MinusColon, false, true),
        (Primitive::Comma, false, false),
        (Primitive::SlashColon, false, false),
    ];
    for (verb, one, two) in table {
        assert_eq!(rt; opens(verb, false), one);
        assert_eq!(rt; opens(verb, true), two);
    }
}

/// The shape and the atoms of an array of integers.
type Given<'a> = (&'a [u64], &'a [i64]);

fn array(alloc: Global, given: Given<'_>) -> Result<Tree, Fail> {
    let shape = Vec::from_slice(alloc, given.0)?;
    let atoms = Vec::from_slice(alloc, given.1)?;
    Ok(Tree::new(shape, Leaves::Int(IntList::of(atoms)))?)
}

/// Whether an answer is the array or, without one, the fault.
fn is_answer(
    alloc: Global,
    room: &mut Room,
    answer: Result<Array, Trouble>,
    expected: Result<Given<'_>, Fault>,
) -> Result<bool, Fail> {
    match (answer, expected) {
        (Ok(value), Ok(expected)) => {
            let value = value.into_tree(alloc, room)?;
            let expected = array(alloc, expected)?;
            Ok(value.kind() == expected.kind() && value.same(&expected))
        }
        (Err(trouble), Err(fault)) => Ok(trouble == Trouble::Fault(fault)),
        _ => Ok(false),
    }
}

const SIX: Given<'static> = (&[2, 3], &[0, 1, 2, 3, 4, 5]);

#[test]
fn monads_on_whole_arrays(rt: HostRuntime) -> Result<(), Fail> {
    let alloc = rt.alloc();
    let table: [(Primitive, Given<'_>, Result<Given<'_>, Fault>); 26] = [
        (Primitive::Dollar, SIX, Ok((&[2], &[2, 3]))),
        (Primitive::Hash, SIX, Ok((&[], &[2]))),
        (Primitive::Comma, SIX, Ok((&[6], SIX.1))),
        (
            Primitive::CommaDot,
            (&[2, 1, 2], &[1, 2, 3, 4]),
            Ok((&[2, 2], &[1, 2, 3, 4])),
        ),
        (
            Primitive::CommaColon,
            (&[2], &[7, 8]),
            Ok((&[1, 2], &[7, 8])),
        ),
        (Primitive::BarColon, SIX, Ok((&[3, 2], &[0, 3, 1, 4, 2, 5]))),
        (Primitive::BarDot, SIX, Ok((&[2, 3], &[3, 4, 5, 0, 1, 2]))),
        (Primitive::LeftBraceDot, SIX, Ok((&[3], &[0, 1, 2]))),
        (Primitive::LeftBraceColon, SIX, Ok((&[3], &[3, 4, 5]))),
        (Primitive::RightBraceDot, SIX, Ok((&[1, 3], &[3, 4, 5]))),
        (Primitive::RightBraceColon, SIX, Ok((&[1, 3], &[0, 1, 2]))),
        (Primitive::LeftBracket, SIX, Ok(SIX)),
        (Primitive::RightBracket, SIX, Ok(SIX)),
        (Primitive::LeftBracketColon, SIX, Err(Fault::Domain)),
        (Primitive::IDot, (&[2], &[2, 3]), Ok(SIX)),
        (
            Primitive::IDot,
            (&[2, 1], &[2, 3]),
            Ok((&[2, 3], &[0, 1, 0, 0, 1, 2])),
        ),
        (
            Primitive::IColon,
            (&[], &[2]),
            Ok((&[5], &[-2, -1, 0, 1, 2])),
        ),
        (
            Primitive::IColon,
            (&[2], &[1, 2]),
            Ok((&[2, 5], &[-1, 0, 1, 0, 0, -2, -1, 0, 1, 2])),
        ),
        (
            Primitive::CapitalIDot,
            (&[3], &[0, 2, 1]),
            Ok((&[3], &[1, 1, 2])),
        ),
        (
            Primitive::CapitalIDot,
            (&[2, 2], &[1, 0, 0, 2]),
            Ok((&[2, 2], &[0, 0, 1, 1])),
        ),
        (
            Primitive::SlashColon,
            (&[3], &[7, 5, 7]),
            Ok((&[3], &[1, 0, 2])),
        ),
        (
            Primitive::BackslashColon,
            (&[3], &[7, 5, 7]),
            Ok((&[3], &[0, 2, 1])),
        ),
        (
            Primitive::Equal,
            (&[3], &[7, 5, 7]),
            Ok((&[2, 3], &[1, 0, 1, 0, 1, 0])),
        ),
        (
            Primitive::SemicolonColon,
            (&[2], &[7, 5]),
            Err(Fault::Domain),
        ),
        // with no cell, the shape is that of the cell of fills
        (Primitive::IDot, (&[0, 2], &[]), Ok((&[0, 0, 0], &[]))),
        (Primitive::IColon, (&[0], &[]), Ok((&[0, 1], &[]))),
    ];
    for (verb, y, expected) in table.iter() {
        let mut room = Room::none();
        let y = Array::of(array(alloc, *y)?);
        let answer = monad(alloc, &mut room, *verb, y);
        assert!(rt; is_answer(alloc, &mut room, answer, *expected)?);
    }
    Ok(())
}

#[test]
fn dyads_on_whole_arrays(rt: HostRuntime) -> Result<(), Fail> {
    let alloc = rt.alloc();
    let two: Given<'_> = (&[2], &[7, 8]);
    let three: Given<'_> = (&[3], &[5, 6, 7]);
    let table: [(Primitive, Given<'_>, Given<'_>, Result<Given<'_>, Fault>); 25] = [
        (Primitive::Dollar, (&[2], &[2, 3]), (&[6], SIX.1), Ok(SIX)),
        (
            Primitive::BarDot,
            (&[], &[1]),
            three,
            Ok((&[3], &[6, 7, 5])),
        ),
        (
            Primitive::LeftBraceDot,
            (&[], &[3]),
            two,
            Ok((&[3], &[7, 8, 0])),
        ),
        (
            Primitive::LeftBraceDot,
            (&[], &[-3]),
            two,
            Ok((&[3], &[0, 7, 8])),
        ),
        (
            Primitive::LeftBraceDot,
            (&[2, 1], &[1, 2]),
            two,
            Ok((&[2, 2], &[7, 0, 7, 8])),
        ),
        (
            Primitive::RightBraceDot,
            (&[], &[1]),
            three,
            Ok((&[2], &[6, 7])),
        ),
        (Primitive::Comma, two, three, Ok((&[5], &[7, 8, 5, 6, 7]))),
        (
            Primitive::CommaDot,
            two,
            (&[2], &[5, 6]),
            Ok((&[2, 2], &[7, 5, 8, 6])),
        ),
        (
            Primitive::CommaColon,
            two,
            three,
            Ok((&[2, 3], &[7, 8, 0, 5, 6, 7])),
        ),
        (
            Primitive::BarColon,
            (&[], &[0]),
            SIX,
            Ok((&[3, 2], &[0, 3, 1, 4, 2, 5])),
        ),
        (Primitive::LeftBracket, two, three, Ok(two)),
        (Primitive::RightBracket, two, three, Ok(three)),
        (Primitive::LeftBracketColon, two, three, Err(Fault::Domain)),
        (
            Primitive::Hash,
            (&[3], &[1, 0, 2]),
            three,
            Ok((&[3], &[5, 7, 7])),
        ),
        (Primitive::Hash, (&[2], &[1, 0]), three, Err(Fault::Length)),
        (Primitive::LeftBrace, (&[], &[1]), three, Ok((&[], &[6]))),
        (
            Primitive::LeftBrace,
            (&[2], &[2, 0]),
            three,
            Ok((&[2], &[7, 5])),
        ),
        (
            Primitive::LeftBrace,
            (&[2], &[0, 5]),
            three,
            Err(Fault::Index),
        ),
        (
            Primitive::LeftBrace,
            (&[2, 1], &[-1, 0]),
            SIX,
            Ok((&[2, 1, 3], &[3, 4, 5, 0, 1, 2])),
        ),
        (
            Primitive::LeftBraceColonColon,
            (&[], &[1]),
            three,
            Ok((&[], &[6])),
        ),
        (
            Primitive::SlashColon,
            three,
            (&[3], &[2, 1, 2]),
            Ok((&[3], &[6, 5, 7])),
        ),
        (
            Primitive::BackslashColon,
            three,
            (&[3], &[2, 1, 2]),
            Ok((&[3], &[5, 7, 6])),
        ),
        (
            Primitive::CapitalIDot,
            three,
            (&[2], &[6, 9]),
            Ok((&[2], &[1, 3])),
        ),
        // with no cell, the shape is that of the cell of fills
        (Primitive::LeftBrace, (&[0], &[]), SIX, Ok((&[0, 3], &[]))),
        (
            Primitive::LeftBraceDot,
            (&[0, 1], &[]),
            two,
            Ok((&[0, 0], &[])),
        ),
    ];
    for (verb, x, y, expected) in table.iter() {
        let mut room = Room::none();
        let x = Array::of(array(alloc, *x)?);
        let y = Array::of(array(alloc, *y)?);
        let answer = dyad(alloc, &mut room, *verb, x, y);
        assert!(rt; is_answer(alloc, &mut room, answer, *expected)?);
    }
    Ok(())
}

#[test]
fn a_fetched_box_is_opened(rt: HostRuntime) -> Result<(), Fail> {
    let alloc = rt.alloc();
    let mut room = Room::none();
    let mut cells = Vec::new(alloc);
    cells.push(Cell::Boxed(array(alloc, (&[], &[7]))?))?;
    cells.push(Cell::Boxed(array(alloc, (&[2], &[8, 9]))?))?;
    let shape = Vec::from_slice(alloc, &[2])?;
    let boxes = Array::of(Tree::new(shape, Leaves::Cell(CellList::of(cells)))?);
    let answer = dyad(
        alloc,
        &mut room,
        Primitive::LeftBraceColonColon,
        Array::atom(1),
        boxes,
    );
    assert!(rt; is_answer(alloc, &mut room, answer, Ok((&[2], &[8, 9])))?);
    Ok(())
}
