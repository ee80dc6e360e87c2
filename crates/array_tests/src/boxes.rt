use jarray::{Array, Room};
use jboxes::{disclose, enclose, level, link, raze, words};
use jdata::{Bytes, Cell, CellList, Fault, IntList, Leaves, Tree, Trouble};
use std::alloc::Global;
use std::test::Fail;

fn integers(alloc: Global, axes: &[u64], atoms: &[i64]) -> Result<Tree, Fail> {
    let axes = Vec::from_slice(alloc, axes)?;
    let atoms = Vec::from_slice(alloc, atoms)?;
    Ok(Tree::new(axes, Leaves::Int(IntList::of(atoms)))?)
}

fn text(alloc: Global, bytes: &[u8]) -> Result<Tree, Fail> {
    let axes = Vec::from_slice(alloc, &[bytes.len() as u64])?;
    let bytes = Vec::from_slice(alloc, bytes)?;
    Ok(Tree::new(axes, Leaves::Char(Bytes::of(bytes)))?)
}

/// Boxes in a list.
fn pair(alloc: Global, left: Tree, right: Tree) -> Result<Tree, Fail> {
    let mut cells = Vec::new(alloc);
    cells.push(Cell::Boxed(left))?;
    cells.push(Cell::Boxed(right))?;
    let axes = Vec::from_slice(alloc, &[2])?;
    Ok(Tree::new(axes, Leaves::Cell(CellList::of(cells)))?)
}

fn is_same(alloc: Global, room: &Room, found: Array, expected: Tree) -> bool {
    found.match_with(room, &Array::of(expected))
}

#[test]
fn boxes_are_opened(rt: HostRuntime) -> Result<(), Fail> {
    let alloc = rt.alloc();
    let mut room = Room::none();
    // `> < 1 2` is `1 2`
    let one = enclose(alloc, &mut room, Array::of(integers(alloc, &[2], &[1, 2])?))?;
    let back = disclose(alloc, &mut room, one)?;
    assert!(rt; is_same(alloc, &room, back, integers(alloc, &[2], &[1, 2])?));
    // `> 1 2 ; 3` is a table whose second row is filled
    let two = pair(
        alloc,
        integers(alloc, &[2], &[1, 2])?,
        integers(alloc, &[], &[3])?,
    )?;
    let table = disclose(alloc, &mut room, Array::of(two))?;
    assert!(rt;
        is_same(
            alloc,
            &room,
            table,
            integers(alloc, &[2, 2], &[1, 2, 3, 0])?
        )
    );
    // `> 5` is `5`
    let five = disclose(alloc, &mut room, Array::atom(5))?;
    assert_eq!(rt; five.integer(&room), Some(5));
    // kinds that differ
    let mixed = pair(alloc, text(alloc, b"a")?, integers(alloc, &[], &[3])?)?;
    let refused = disclose(alloc, &mut room, Array::of(mixed));
    assert!(rt; matches!(refused, Err(Trouble::Fault(Fault::Domain))));
    Ok(())
}

#[test]
fn levels_are_counted(rt: HostRuntime) -> Result<(), Fail> {
    let alloc = rt.alloc();
    let mut room = Room::none();
    let none = level(alloc, &mut room, Array::atom(7))?;
    assert_eq!(rt; none.integer(&room), Some(0));
    let one = enclose(alloc, &mut room, Array::atom(7))?;
    let two = enclose(alloc, &mut room, one)?;
    let count = level(alloc, &mut room, two)?;
    assert_eq!(rt; count.integer(&room), Some(2));
    Ok(())
}

#[test]
fn boxes_are_at_most_64_deep(rt: HostRuntime) -> Result<(), Fail> {
    let alloc = rt.alloc();
    let mut room = Room::none();
    let mut deep = Array::atom(1);
    for _ in 0..64 {
        deep = enclose(alloc, &mut room, deep)?;
    }
    let refused = enclose(alloc, &mut room, deep);
    assert!(rt; matches!(refused, Err(Trouble::Fault(Fault::Limit))));
    Ok(())
}

#[test]
fn contents_are_razed(rt: HostRuntime) -> Result<(), Fail> {
    let alloc = rt.alloc();
    let mut room = Room::none();
    // `; 1 2 ; 3` is `1 2 3`
    let two = pair(
        alloc,
        integers(alloc, &[2], &[1, 2])?,
        integers(alloc, &[], &[3])?,
    )?;
    let list = raze(alloc, &mut room, Array::of(two))?;
    assert!(rt; is_same(alloc, &room, list, integers(alloc, &[3], &[1, 2, 3])?));
    // a row of two before a list of three: the shorter item is filled
    let two = pair(
        alloc,
        integers(alloc, &[1, 2], &[1, 2])?,
        integers(alloc, &[3], &[3, 4, 5])?,
    )?;
    let rows = raze(alloc, &mut room, Array::of(two))?;
    assert!(rt;
        is_same(
            alloc,
            &room,
            rows,
            integers(alloc, &[2, 3], &[1, 2, 0, 3, 4, 5])?
        )
    );
    // what isn't boxed is ravelled
    let table = Array::of(integers(alloc, &[2, 2], &[1, 2, 3, 4])?);
    let ravel = raze(alloc, &mut room, table)?;
    assert!(rt; is_same(alloc, &room, ravel, integers(alloc, &[4], &[1, 2, 3, 4])?));
    // no boxes give no integers
    let none = Vec::from_slice(alloc, &[0])?;
    let none = Tree::new(none, Leaves::Cell(CellList::of(Vec::new(alloc))))?;
    let empty = raze(alloc, &mut room, Array::of(none))?;
    assert!(rt; is_same(alloc, &room, empty, integers(alloc, &[0], &[])?));
    let mixed = pair(alloc, text(alloc, b"a")?, integers(alloc, &[], &[3])?)?;
    let refused = raze(alloc, &mut room, Array::of(mixed));
    assert!(rt; matches!(refused, Err(Trouble::Fault(Fault::Domain))));
    Ok(())
}

#[test]
fn arrays_are_linked(rt: HostRuntime) -> Result<(), Fail> {
    let alloc = rt.alloc();
    let mut room = Room::none();
    // `1 ; 'ab'` is two boxes, and `(1 2) ;` them is three
    let right = Array::of(text(alloc, b"ab")?);
    let two = link(alloc, &mut room, Array::atom(1), right)?;
    let expected = pair(alloc, integers(alloc, &[], &[1])?, text(alloc, b"ab")?)?;
    assert!(rt; two.match_with(&room, &Array::of(expected)));
    let left = Array::of(integers(alloc, &[2], &[1, 2])?);
    let three = link(alloc, &mut room, left, two)?;
    assert_eq!(rt; three.shape(&room), [3].as_slice());
    Ok(())
}

/// Texts in a list of boxes.
fn boxed(alloc: Global, texts: &[&[u8]]) -> Result<Tree, Fail> {
    let mut cells = Vec::new(alloc);
    for each in texts {
        cells.push(Cell::Boxed(text(alloc, *each)?))?;
    }
    let axes = Vec::from_slice(alloc, &[cells.len() as u64])?;
    Ok(Tree::new(axes, Leaves::Cell(CellList::of(cells)))?)
}

#[test]
fn texts_are_cut_into_words(rt: HostRuntime) -> Result<(), Fail> {
    let alloc = rt.alloc();
    let mut room = Room::none();
    let sums = words(
        alloc,
        &mut room,
        Array::of(text(alloc, b"+/ 1 2 x NB. sum")?),
    )?;
    let parts: &[&[u8]] = &[b"+", b"/", b"1 2", b"x", b"NB. sum"];
    assert!(rt; is_same(alloc, &room, sums, boxed(alloc, parts)?));
    let none = words(alloc, &mut room, Array::of(text(alloc, b" ")?))?;
    assert!(rt; is_same(alloc, &room, none, boxed(alloc, &[])?));
    // no atoms are characters too, and an atom is a text of one
    let empty = words(alloc, &mut room, Array::of(integers(alloc, &[0], &[])?))?;
    assert!(rt; is_same(alloc, &room, empty, boxed(alloc, &[])?));
    let open = words(alloc, &mut room, Array::of(text(alloc, b"a 'b")?));
    assert_eq!(rt; open.err(), Some(Trouble::Fault(Fault::OpenQuote)));
    let numbers = words(alloc, &mut room, Array::atom(5));
    assert_eq!(rt; numbers.err(), Some(Trouble::Fault(Fault::Domain)));
    Ok(())
}
