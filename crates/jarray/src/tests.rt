use crate::{Array, Room};
use jdata::{Bytes, IntList, Kind, Leaf, Leaves, Tree};
use std::alloc::Global;
use std::test::Fail;

fn list(alloc: Global, numbers: &[i64]) -> Result<Array, Fail> {
    let shape = Vec::from_slice(alloc, &[numbers.len() as u64])?;
    let numbers = IntList::of(Vec::from_slice(alloc, numbers)?);
    Ok(Array::of(Tree::new(shape, Leaves::Int(numbers))?))
}

fn text(alloc: Global, bytes: &[u8]) -> Result<Array, Fail> {
    let shape = Vec::from_slice(alloc, &[bytes.len() as u64])?;
    let bytes = Bytes::of(Vec::from_slice(alloc, bytes)?);
    Ok(Array::of(Tree::new(shape, Leaves::Char(bytes))?))
}

#[test]
fn an_atom_takes_no_tree(rt: HostRuntime) -> Result<(), Fail> {
    let alloc = rt.alloc();
    let mut room = Room::none();
    let one = Array::atom(7);
    assert_eq!(rt; one.shape(&room).len(), 0);
    assert_eq!(rt; one.kind(&room), Kind::Int);
    assert!(rt; one.numbers(&room) == Some([7].as_slice()));
    assert_eq!(rt; one.tree(alloc, &room)?.integer(), Some(7));
    assert_eq!(rt; one.into_tree(alloc, &mut room)?.integer(), Some(7));
    Ok(())
}

#[test]
fn an_array_is_doubled(rt: HostRuntime) -> Result<(), Fail> {
    let alloc = rt.alloc();
    let mut room = Room::none();
    let mut first = list(alloc, &[1, 2])?.place(&mut room);
    let second = first.dup(alloc, &room)?.into_sole(alloc, &mut room)?;
    assert_eq!(rt; first.shape(&room), [2].as_slice());
    assert!(rt; second.numbers(&room) == Some([1, 2].as_slice()));
    assert!(rt; first.match_with(&room, &second));
    let (tree, spot) = first.take_out(alloc, &mut room)?;
    let back = spot.put_back(tree, &mut room);
    assert!(rt; back.match_with(&room, &second));
    back.done(&mut room);
    second.done(&mut room);
    Ok(())
}

#[test]
fn texts_have_no_numbers(rt: HostRuntime) -> Result<(), Fail> {
    let alloc = rt.alloc();
    let room = Room::none();
    assert!(rt; text(alloc, b"a")?.numbers(&room).is_none());
    assert!(rt; text(alloc, b"")?.numbers(&room) == Some([].as_slice()));
    assert!(rt; matches!(text(alloc, b"a")?.leaf(&room), Leaf::Char(_)));
    Ok(())
}

#[test]
fn shapes_and_atoms_match(rt: HostRuntime) -> Result<(), Fail> {
    let alloc = rt.alloc();
    let room = Room::none();
    let seven = Array::atom(7);
    let alone = Array::of(Tree::atom(alloc, 7)?);
    assert!(rt; seven.match_with(&room, &alone));
    assert!(rt; alone.match_with(&room, &seven));
    assert_eq!(rt; alone.integer(&room), Some(7));
    let list = list(alloc, &[7])?;
    assert!(rt; !seven.match_with(&room, &list));
    assert!(rt; !list.match_with(&room, &alone));
    assert!(rt; !seven.match_with(&room, &Array::atom(8)));
    Ok(())
}
