use crate::{
    Axes, BadTree, Bytes, Cell, CellList, Fault, IntList, Kind, Leaves, Name, NameList, NoMemory,
    Path, Primitive, PyxId, Tree, Trouble,
};
use std::alloc::Global;
use std::test::Fail;

fn axes(alloc: Global, shape: &[u64]) -> Result<Vec<u64>, Fail> {
    Ok(Vec::from_slice(alloc, shape)?)
}

fn numbers(alloc: Global, shape: &[u64], atoms: &[i64]) -> Result<Result<Tree, BadTree>, Fail> {
    let atoms = IntList::of(Vec::from_slice(alloc, atoms)?);
    Ok(Tree::new(axes(alloc, shape)?, Leaves::Int(atoms)))
}

fn text(alloc: Global, shape: &[u64], atoms: &[u8]) -> Result<Result<Tree, BadTree>, Fail> {
    let atoms = Bytes::of(Vec::from_slice(alloc, atoms)?);
    Ok(Tree::new(axes(alloc, shape)?, Leaves::Char(atoms)))
}

fn cells(alloc: Global, shape: &[u64], atoms: Vec<Cell>) -> Result<Result<Tree, BadTree>, Fail> {
    Ok(Tree::new(axes(alloc, shape)?, Leaves::Cell(CellList::of(atoms))))
}

fn single(alloc: Global, cell: Cell) -> Result<Result<Tree, BadTree>, Fail> {
    let mut atoms = Vec::new(alloc);
    atoms.push(cell)?;
    cells(alloc, &[], atoms)
}

fn boxed(alloc: Global, content: Tree) -> Result<Tree, Fail> {
    Ok(single(alloc, Cell::Boxed(content))??)
}

fn pyx(alloc: Global, number: u32) -> Result<Tree, Fail> {
    Ok(single(alloc, Cell::Pyx(named(number)))??)
}

fn named(number: u32) -> PyxId {
    PyxId {
        path: Path::main(),
        number,
    }
}

fn nested(alloc: Global, content: Tree, levels: usize) -> Result<Tree, Fail> {
    let mut tree = content;
    for _ in 0..levels {
        tree = boxed(alloc, tree)?;
    }
    Ok(tree)
}

#[test]
fn faults_have_their_numbers_and_words(rt: HostRuntime) {
    let rows = [
        (Fault::Domain, 1, "domain error"),
        (Fault::Length, 2, "length error"),
        (Fault::Rank, 3, "rank error"),
        (Fault::Index, 4, "index error"),
        (Fault::Syntax, 5, "syntax error"),
        (Fault::Value, 6, "value error"),
        (Fault::Spelling, 7, "spelling error"),
        (Fault::Control, 8, "control error"),
        (Fault::Nonce, 9, "nonce error"),
        (Fault::Limit, 10, "limit error"),
        (Fault::Stack, 11, "stack error"),
        (Fault::TimeLimit, 12, "time limit"),
        (Fault::Locale, 13, "locale error"),
        (Fault::Concurrency, 14, "concurrency error"),
        (Fault::Assertion, 15, "assertion failure"),
        (Fault::OpenQuote, 16, "open quote"),
        (Fault::IllFormed, 17, "ill-formed number"),
    ];
    for (fault, number, words) in rows {
        assert_eq!(rt; fault.number(), number);
        assert!(rt; fault.text() == words, "at {number}");
    }
    assert_eq!(rt; Trouble::from(Fault::Nonce), Trouble::Fault(Fault::Nonce));
    assert_eq!(rt; Trouble::from(NoMemory), Trouble::NoMemory);
    assert!(rt; Primitive::LeftBraceColon != Primitive::LeftBraceColonColon);
}

#[test]
fn new_refuses_what_is_no_array(rt: HostRuntime) -> Result<(), Fail> {
    let alloc = rt.alloc();
    let ones = [1; 64];
    let mut empty = [1; 63];
    empty[0] = 0;
    let rows = [
        (&[][..], &[5][..], None),
        (
            &[],
            &[],
            Some(BadTree::Length {
                product: 1,
                items: 0,
            }),
        ),
        (&[2, 3], &[1, 2, 3, 4, 5, 6], None),
        (
            &[2, 3],
            &[1, 2, 3, 4, 5],
            Some(BadTree::Length {
                product: 6,
                items: 5,
            }),
        ),
        (&[0], &[], None),
        (
            &[0],
            &[7],
            Some(BadTree::Length {
                product: 0,
                items: 1,
            }),
        ),
        (&ones[..63], &[9], None),
        (&empty[..], &[], None),
        (&ones[..], &[9], Some(BadTree::Limit)),
        (&ones[..], &[9, 9], Some(BadTree::Limit)),
        (&[134_217_728, 0], &[], None),
        (&[0, 16_384, 8_192], &[], None),
        (&[134_217_729, 0], &[], Some(BadTree::Limit)),
        (&[0, 16_384, 8_193], &[1], Some(BadTree::Limit)),
        (&[18_446_744_073_709_551_615, 2], &[1], Some(BadTree::Limit)),
        (
            &[134_217_728],
            &[1],
            Some(BadTree::Length {
                product: 134_217_728,
                items: 1,
            }),
        ),
    ];
    for (shape, atoms, bad) in rows {
        assert_eq!(rt; numbers(alloc, shape, atoms)?.err(), bad, "at {shape:?}");
    }
    assert_eq!(rt;
        text(alloc, &[2], b"abc")?.err(),
        Some(BadTree::Length {
            product: 2,
            items: 3
        })
    );
    Ok(())
}

#[test]
fn levels_count_boxes_and_pyxes(rt: HostRuntime) -> Result<(), Fail> {
    let alloc = rt.alloc();
    assert_eq!(rt; Tree::atom(alloc, 5)?.level(), 0);
    assert_eq!(rt; cells(alloc, &[0], Vec::new(alloc))??.level(), 0);
    assert_eq!(rt; pyx(alloc, 1)?.level(), 1);
    assert_eq!(rt; nested(alloc, Tree::atom(alloc, 5)?, 64)?.level(), 64);
    assert_eq!(rt; nested(alloc, pyx(alloc, 1)?, 63)?.level(), 64);
    Ok(())
}

// in an array of shape 2: the limit comes before the length
fn boxed_once_more(alloc: Global, content: Tree) -> Result<Option<BadTree>, Fail> {
    let mut atoms = Vec::new(alloc);
    atoms.push(Cell::Boxed(content))?;
    Ok(cells(alloc, &[2], atoms)?.err())
}

#[test]
fn boxes_nest_64_levels_deep(rt: HostRuntime) -> Result<(), Fail> {
    let alloc = rt.alloc();
    let fits = nested(alloc, Tree::atom(alloc, 5)?, 63)?;
    assert_eq!(rt;
        boxed_once_more(alloc, fits)?,
        Some(BadTree::Length {
            product: 2,
            items: 1
        })
    );
    let deep = nested(alloc, Tree::atom(alloc, 5)?, 64)?;
    assert_eq!(rt; boxed_once_more(alloc, deep)?, Some(BadTree::Limit));
    let waiting = nested(alloc, pyx(alloc, 1)?, 63)?;
    assert_eq!(rt; boxed_once_more(alloc, waiting)?, Some(BadTree::Limit));
    Ok(())
}

#[test]
fn single_integers_are_told(rt: HostRuntime) -> Result<(), Fail> {
    let alloc = rt.alloc();
    assert_eq!(rt; Tree::atom(alloc, i64::MIN)?.integer(), Some(i64::MIN));
    assert_eq!(rt; numbers(alloc, &[1], &[7])??.integer(), None);
    assert_eq!(rt; text(alloc, &[], b"a")??.integer(), None);
    assert_eq!(rt; text(alloc, &[], b"a")??.kind(), Kind::Char);
    assert_eq!(rt; pyx(alloc, 1)?.kind(), Kind::Boxed);
    Ok(())
}

#[test]
fn arrays_give_their_parts(rt: HostRuntime) -> Result<(), Fail> {
    let alloc = rt.alloc();
    let tree = numbers(alloc, &[3], &[7, -8, 9])??;
    assert!(rt; tree.shape() == [3].as_slice());
    assert_eq!(rt; tree.kind(), Kind::Int);
    let (shape, leaves) = tree.into_parts();
    assert!(rt; shape.as_slice() == [3].as_slice());
    assert_eq!(rt; leaves.len(), 3);
    match &leaves {
        Leaves::Int(atoms) => assert!(rt; atoms.items() == [7, -8, 9].as_slice()),
        _ => assert!(rt; false, "another kind"),
    }
    Ok(())
}

#[test]
fn lists_keep_their_items(rt: HostRuntime) -> Result<(), Fail> {
    let alloc = rt.alloc();
    let mut lengths = Axes::of(axes(alloc, &[4, 5])?);
    assert_eq!(rt; lengths.items().len(), 2);
    assert_eq!(rt; lengths.replace(1, 6), 5);
    assert!(rt; lengths.copy(alloc)?.items() == [4, 6].as_slice());
    assert!(rt; lengths.into_items().as_slice() == [4, 6].as_slice());
    Ok(())
}

#[test]
fn names_keep_their_bytes(rt: HostRuntime) -> Result<(), Fail> {
    let alloc = rt.alloc();
    let name = Name::of(Vec::from_slice(alloc, b"price")?);
    assert!(rt; name.items() == b"price".as_slice());
    assert!(rt; name.into_items().as_slice() == b"price".as_slice());
    let names = NameList::of(Vec::new(alloc));
    assert_eq!(rt; names.items().len(), 0);
    Ok(())
}

#[test]
fn paths_have_at_most_four_numbers(rt: HostRuntime) -> Result<(), Fail> {
    let mut path = Path::main();
    assert_eq!(rt; path.parts().len(), 0);
    for number in [3, 1, 4, 1] {
        let Some(child) = path.child(number) else {
            return Err(Fail::from("no child"));
        };
        path = child;
    }
    path.known();
    assert!(rt; path.parts() == [3, 1, 4, 1].as_slice());
    assert!(rt; path.child(5).is_none());
    Ok(())
}

fn no_numbers(alloc: Global) -> Result<Tree, Fail> {
    Ok(numbers(alloc, &[0], &[])??)
}

fn no_text(alloc: Global) -> Result<Tree, Fail> {
    Ok(text(alloc, &[0], b"")??)
}

fn pair(alloc: Global) -> Result<Tree, Fail> {
    Ok(numbers(alloc, &[2], &[1, 2])??)
}

fn match_both_ways(left: Tree, right: Tree) -> bool {
    left.same(&right) && right.same(&left)
}

fn differ_both_ways(left: Tree, right: Tree) -> bool {
    !left.same(&right) && !right.same(&left)
}

#[test]
fn arrays_without_atoms_match_whatever_their_kind(rt: HostRuntime) -> Result<(), Fail> {
    let alloc = rt.alloc();
    assert!(rt; match_both_ways(no_numbers(alloc)?, no_text(alloc)?));
    let no_boxes = cells(alloc, &[0], Vec::new(alloc))??;
    assert!(rt; match_both_ways(no_boxes, no_text(alloc)?));
    let boxed_numbers = boxed(alloc, no_numbers(alloc)?)?;
    assert!(rt; match_both_ways(boxed_numbers, boxed(alloc, no_text(alloc)?)?));
    Ok(())
}

#[test]
fn other_arrays_do_not_match(rt: HostRuntime) -> Result<(), Fail> {
    let alloc = rt.alloc();
    assert!(rt; differ_both_ways(no_numbers(alloc)?, pair(alloc)?));
    assert!(rt; differ_both_ways(pair(alloc)?, numbers(alloc, &[1, 2], &[1, 2])??));
    assert!(rt; differ_both_ways(pair(alloc)?, text(alloc, &[2], b"ab")??));
    assert!(rt; differ_both_ways(pair(alloc)?, boxed(alloc, pair(alloc)?)?));
    assert!(rt; differ_both_ways(pyx(alloc, 1)?, pyx(alloc, 2)?));
    assert!(rt; differ_both_ways(pyx(alloc, 1)?, boxed(alloc, pair(alloc)?)?));
    Ok(())
}

fn copy_matches(alloc: Global, tree: Tree) -> Result<bool, Fail> {
    Ok(tree.same(&tree.copy(alloc)?))
}

#[test]
fn copies_match(rt: HostRuntime) -> Result<(), Fail> {
    let alloc = rt.alloc();
    assert!(rt; copy_matches(alloc, pair(alloc)?)?);
    assert!(rt; copy_matches(alloc, no_text(alloc)?)?);
    assert!(rt; copy_matches(alloc, waiting(alloc)?)?);
    Ok(())
}

// two boxes: a pyx within one, and a pyx beside it
fn waiting(alloc: Global) -> Result<Tree, Fail> {
    let mut atoms = Vec::new(alloc);
    atoms.push(Cell::Boxed(Tree::atom(alloc, 5)?))?;
    atoms.push(Cell::Boxed(pyx(alloc, 3)?))?;
    atoms.push(Cell::Pyx(named(2)))?;
    Ok(cells(alloc, &[3], atoms)??)
}

fn opened(alloc: Global, tree: Tree) -> Result<Option<(u32, Tree)>, Fail> {
    let Some(name) = tree.first_pyx() else {
        return Ok(None);
    };
    Ok(Some((name.number, tree.open_first(text(alloc, &[], b"v")??)?)))
}

fn all_opened(alloc: Global) -> Result<Tree, Fail> {
    let mut atoms = Vec::new(alloc);
    atoms.push(Cell::Boxed(Tree::atom(alloc, 5)?))?;
    atoms.push(Cell::Boxed(boxed(alloc, text(alloc, &[], b"v")??)?))?;
    atoms.push(Cell::Boxed(text(alloc, &[], b"v")??))?;
    Ok(cells(alloc, &[3], atoms)??)
}

#[test]
fn pyxes_are_opened_from_the_first(rt: HostRuntime) -> Result<(), Fail> {
    let alloc = rt.alloc();
    let (first, tree) = opened(alloc, waiting(alloc)?)?.ok_or("no pyx")?;
    assert_eq!(rt; first, 3);
    let (second, tree) = opened(alloc, tree)?.ok_or("no second pyx")?;
    assert_eq!(rt; second, 2);
    assert_eq!(rt; tree.first_pyx(), None);
    assert!(rt; match_both_ways(tree, all_opened(alloc)?));
    Ok(())
}

#[test]
fn opening_passes_no_limit(rt: HostRuntime) -> Result<(), Fail> {
    let alloc = rt.alloc();
    for (levels, fault) in [(63, None), (64, Some(Fault::Limit))] {
        let value = nested(alloc, Tree::atom(alloc, 5)?, levels)?;
        let tree = pyx(alloc, 1)?;
        assert!(rt; tree.first_pyx() == Some(named(1)));
        assert_eq!(rt; tree.open_first(value).err(), fault);
    }
    let tree = nested(alloc, pyx(alloc, 1)?, 63)?;
    assert!(rt; tree.first_pyx() == Some(named(1)));
    assert_eq!(rt; tree.open_first(pyx(alloc, 2)?).err(), Some(Fault::Limit));
    Ok(())
}
