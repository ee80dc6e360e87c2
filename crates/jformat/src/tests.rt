use crate::{display, format};
use jdata::{Bytes, Cell, CellList, Fault, IntList, Leaves, Tree, Trouble};
use std::alloc::Global;

fn integers(alloc: Global, axes: &[u64], atoms: &[i64]) -> Option<Tree> {
    let axes = Vec::from_slice(alloc, axes).ok()?;
    let atoms = Vec::from_slice(alloc, atoms).ok()?;
    Tree::new(axes, Leaves::Int(IntList::of(atoms))).ok()
}

fn characters(alloc: Global, axes: &[u64], atoms: &[u8]) -> Option<Tree> {
    let axes = Vec::from_slice(alloc, axes).ok()?;
    let atoms = Vec::from_slice(alloc, atoms).ok()?;
    Tree::new(axes, Leaves::Char(Bytes::of(atoms))).ok()
}

fn shows(alloc: Global, value: Option<Tree>, expected: &[u8]) -> bool {
    let Some(value) = value else {
        return false;
    };
    match display(alloc, &value) {
        Ok(bytes) => bytes.as_slice() == expected,
        Err(_) => false,
    }
}

fn becomes(alloc: Global, value: Option<Tree>, expected: Option<Tree>) -> bool {
    let (Some(value), Some(expected)) = (value, expected) else {
        return false;
    };
    match format(alloc, &value) {
        Ok(text) => text.same(&expected),
        Err(_) => false,
    }
}

#[test]
fn integers_are_shown(rt: HostRuntime) {
    let table: [(&[u64], &[i64], &[u8]); 8] = [
        (&[], &[7], b"7\n"),
        (&[], &[-5], b"_5\n"),
        (&[3], &[1, 2, 3], b"1 2 3\n"),
        (&[0], &[], b"\n"),
        (&[0, 3], &[], b""),
        (&[2, 0], &[], b"\n\n"),
        (&[2, 0, 2], &[], b""),
        (&[2, 3], &[1, 20, -3, 400, 5, 6], b"  1 20 _3\n400  5  6\n"),
    ];
    for (axes, atoms, expected) in table.iter() {
        let value = integers(rt.alloc(), axes, atoms);
        assert!(rt; shows(rt.alloc(), value, expected));
    }
}

#[test]
fn planes_are_apart(rt: HostRuntime) {
    let table: [(&[u64], &[i64], &[u8]); 4] = [
        (&[2, 1, 2], &[1, 22, 333, 4], b"  1 22\n\n333  4\n"),
        (&[2, 1, 1, 2], &[0, 1, 2, 3], b"0 1\n\n\n2 3\n"),
        (
            &[2, 2, 1, 1],
            &[1, 2, 3, -40],
            b"  1\n\n  2\n\n\n  3\n\n_40\n",
        ),
        (&[2, 1, 1, 1, 1], &[5, 6], b"5\n\n\n6\n"),
    ];
    for (axes, atoms, expected) in table.iter() {
        let value = integers(rt.alloc(), axes, atoms);
        assert!(rt; shows(rt.alloc(), value, expected));
    }
}

#[test]
fn characters_are_shown(rt: HostRuntime) {
    let table: [(&[u64], &[u8], &[u8]); 6] = [
        (&[], b"a", b"a\n"),
        (&[3], b"a b", b"a b\n"),
        (&[0], b"", b"\n"),
        (&[2, 2], b"abcd", b"ab\ncd\n"),
        (&[2, 2, 0], b"", b"\n\n\n\n\n"),
        (&[2, 2, 1], b"abcd", b"a\nb\n\nc\nd\n"),
    ];
    for (axes, atoms, expected) in table.iter() {
        let value = characters(rt.alloc(), axes, atoms);
        assert!(rt; shows(rt.alloc(), value, expected));
    }
}

#[test]
fn integers_become_text(rt: HostRuntime) {
    let table: [(&[u64], &[i64], &[u64], &[u8]); 7] = [
        (&[], &[-12], &[3], b"_12"),
        (&[3], &[1, 20, 3], &[6], b"1 20 3"),
        (&[0], &[], &[0], b""),
        (&[2, 2], &[1, 2, 30, 4], &[2, 4], b" 1 230 4"),
        (&[2, 1, 2], &[1, 2, 3, 44], &[2, 1, 4], b"1  23 44"),
        (&[0, 3], &[], &[0, 0], b""),
        (&[2, 0], &[], &[2, 0], b""),
    ];
    for (axes, atoms, shape, expected) in table.iter() {
        let value = integers(rt.alloc(), axes, atoms);
        let expected = characters(rt.alloc(), shape, expected);
        assert!(rt; becomes(rt.alloc(), value, expected));
    }
}

#[test]
fn characters_stay(rt: HostRuntime) {
    let value = characters(rt.alloc(), &[2, 2], b"abcd");
    let expected = characters(rt.alloc(), &[2, 2], b"abcd");
    assert!(rt; becomes(rt.alloc(), value, expected));
}

fn wide_list(alloc: Global, count: usize) -> Option<Tree> {
    let atoms = vec![in alloc; i64::MIN; count].ok()?;
    let axes = Vec::from_slice(alloc, &[count as u64]).ok()?;
    Tree::new(axes, Leaves::Int(IntList::of(atoms))).ok()
}

fn is_refused(alloc: Global, value: Option<Tree>) -> bool {
    let Some(value) = value else {
        return false;
    };
    match format(alloc, &value) {
        Ok(_) => false,
        Err(trouble) => trouble == Trouble::Fault(Fault::Limit),
    }
}

#[test]
fn a_text_beyond_the_limits_is_refused(rt: HostRuntime) {
    // 20 characters of each number and a blank between two are 134,217,740 in all
    let value = wide_list(rt.alloc(), 6_391_321);
    assert!(rt; is_refused(rt.alloc(), value));
}

/// Boxes along these axes, whose contents are texts.
fn texts(alloc: Global, axes: &[u64], contents: &[&[u8]]) -> Option<Tree> {
    let mut cells = Vec::new(alloc);
    for content in contents {
        let content = *content;
        let text = characters(alloc, &[content.len() as u64], content)?;
        cells.push(Cell::Boxed(text)).ok()?;
    }
    boxes(alloc, axes, cells)
}

fn boxes(alloc: Global, axes: &[u64], cells: Vec<Cell>) -> Option<Tree> {
    let axes = Vec::from_slice(alloc, axes).ok()?;
    Tree::new(axes, Leaves::Cell(CellList::of(cells))).ok()
}

/// One box around a value.
fn boxed(alloc: Global, content: Option<Tree>) -> Option<Tree> {
    let mut cells = Vec::new(alloc);
    cells.push(Cell::Boxed(content?)).ok()?;
    boxes(alloc, &[], cells)
}

/// Two boxes beside each other.
fn pair(alloc: Global, left: Option<Tree>, right: Option<Tree>) -> Option<Tree> {
    let mut cells = Vec::new(alloc);
    cells.push(Cell::Boxed(left?)).ok()?;
    cells.push(Cell::Boxed(right?)).ok()?;
    boxes(alloc, &[2], cells)
}

#[test]
fn boxes_of_texts_are_shown(rt: HostRuntime) {
    let table: [(&[u64], &[&[u8]], &[u8]); 8] = [
        (&[], &[b""], b"++\n||\n++\n"),
        (&[2], &[b"a", b"bcd"], b"+-+---+\n|a|bcd|\n+-+---+\n"),
        (&[0], &[], b"\n"),
        (&[0, 2], &[], b""),
        (&[2, 0], &[], b"\n\n"),
        (
            &[2, 2],
            &[b"a", b"", b"bc", b"d"],
            b"+--+-+\n|a | |\n+--+-+\n|bc|d|\n+--+-+\n",
        ),
        // a column is as wide as in the other plane, and a blank row stands between
        (
            &[2, 1, 1],
            &[b"a", b"bcd"],
            b"+---+\n|a  |\n+---+\n\n+---+\n|bcd|\n+---+\n",
        ),
        // two axes change their number, so two blank rows
        (
            &[2, 1, 1, 1],
            &[b"ab", b"c"],
            b"+--+\n|ab|\n+--+\n\n\n+--+\n|c |\n+--+\n",
        ),
    ];
    for (axes, contents, expected) in table.iter() {
        let value = texts(rt.alloc(), axes, contents);
        assert!(rt; shows(rt.alloc(), value, expected));
    }
}

#[test]
fn boxes_in_boxes_are_shown(rt: HostRuntime) {
    let alloc = rt.alloc();
    // no rows at all in the box
    let none = boxed(alloc, integers(alloc, &[0, 0], &[]));
    assert!(rt; shows(alloc, none, b"++\n++\n"));
    // a matrix beside an atom: contents at the upper left
    let matrix = integers(alloc, &[2, 2], &[1, 20, 3, 4]);
    let beside = pair(alloc, matrix, integers(alloc, &[], &[-7]));
    assert!(rt;
        shows(
            alloc,
            beside,
            b"+----+--+\n|1 20|_7|\n|3  4|  |\n+----+--+\n"
        )
    );
    // planes in a box: the blank row is filled up too
    let planes = boxed(alloc, integers(alloc, &[2, 1, 2], &[1, 2, 3, 4]));
    assert!(rt; shows(alloc, planes, b"+---+\n|1 2|\n|   |\n|3 4|\n+---+\n"));
    // boxes in boxes in boxes
    let inner = boxed(alloc, boxed(alloc, characters(alloc, &[1], b"x")));
    let outer = pair(alloc, inner, characters(alloc, &[2], b"yz"));
    let expected =
        b"+-----+--+\n|+---+|yz|\n||+-+||  |\n|||x|||  |\n||+-+||  |\n|+---+|  |\n+-----+--+\n";
    assert!(rt; shows(alloc, outer, expected));
}

#[test]
fn boxes_become_matrices(rt: HostRuntime) {
    let table: [(&[u64], &[&[u8]], &[u64], &[u8]); 5] = [
        (&[], &[b"ab"], &[3, 4], b"+--+|ab|+--+"),
        (&[2], &[b"a", b""], &[3, 4], b"+-++|a||+-++"),
        (&[0], &[], &[1, 0], b""),
        (&[0, 2], &[], &[0, 0], b""),
        // the blank row between planes is filled up
        (&[2, 1, 1], &[b"a", b"b"], &[7, 3], b"+-+|a|+-+   +-+|b|+-+"),
    ];
    for (axes, contents, shape, expected) in table.iter() {
        let value = texts(rt.alloc(), axes, contents);
        let expected = characters(rt.alloc(), shape, expected);
        assert!(rt; becomes(rt.alloc(), value, expected));
    }
}
