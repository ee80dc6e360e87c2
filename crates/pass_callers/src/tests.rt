use crate::{Binding, both_write};
use jdata::{Name, NoMemory, Path, Tree};
use jterm::Term;
use juses::{Desk, Reply, Use};
use std::alloc::Global;
use std::test::Fail;

fn text_of(alloc: Global, text: &[u8]) -> Result<Name, NoMemory> {
    Ok(Name::of(Vec::from_slice(alloc, text)?))
}

// A name of this letter and three digits.
fn name_of(alloc: Global, letter: u8, number: u32) -> Result<Name, NoMemory> {
    let text = [
        letter,
        b'0' + (number / 100 % 10) as u8,
        b'0' + (number / 10 % 10) as u8,
        b'0' + (number % 10) as u8,
    ];
    text_of(alloc, &text)
}

// So many names of this letter, each with its number.
fn bindings(alloc: Global, letter: u8, count: u32) -> Result<Vec<Binding>, NoMemory> {
    let mut all = Vec::new(alloc);
    for number in 0..count {
        let place = text_of(alloc, b"base")?;
        let name = name_of(alloc, letter, number)?;
        let value = Term::Noun(Tree::atom(alloc, i64::from(number))?);
        all.push(Binding { place, name, value })?;
    }
    Ok(all)
}

// The number that the name stands for.
fn value_of(desk: &mut Desk, alloc: Global, letter: u8, number: u32) -> Option<i64> {
    let from = text_of(alloc, b"base").ok()?;
    let name = name_of(alloc, letter, number).ok()?;
    match &desk.answer(Path::main(), 0, Use::Read { from, name }) {
        Ok(Reply::Named(Term::Noun(value))) => value.integer(),
        _ => None,
    }
}

// How many of the names stand for their number.
fn names_of(desk: &mut Desk, alloc: Global, letter: u8, count: u32) -> u64 {
    let mut there = 0u64;
    for number in 0..count {
        if value_of(desk, alloc, letter, number) == Some(i64::from(number)) {
            there = there.saturating_add(1);
        }
    }
    there
}

#[test]
fn two_threads_write_a_hundred_names_each(rt: HostRuntime) -> Result<(), Fail> {
    let first = bindings(rt.alloc(), b'a', 100)?;
    let second = bindings(rt.alloc(), b'b', 100)?;
    let Ok(shared) = both_write(&rt, rt.alloc(), first.as_slice(), second.as_slice()) else {
        panic!(rt; "a use was refused");
    };
    let mut desk = shared.desk;
    assert_eq!(rt; names_of(&mut desk, rt.alloc(), b'a', 100), 100);
    assert_eq!(rt; names_of(&mut desk, rt.alloc(), b'b', 100), 100);
    assert_eq!(rt; names_of(&mut desk, rt.alloc(), b'c', 100), 0);
    Ok(())
}
