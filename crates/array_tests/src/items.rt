use jdata::{Bytes, Fault, IntList, Leaves, Tree, Trouble};
use jframe::join_arrays;
use std::alloc::Global;
use std::test::Fail;

/// The shape and the integers of an array.
type Given<'a> = (&'a [u64], &'a [i64]);

fn array(alloc: Global, given: Given<'_>) -> Result<Tree, Fail> {
    let shape = Vec::from_slice(alloc, given.0)?;
    let numbers = IntList::of(Vec::from_slice(alloc, given.1)?);
    Ok(Tree::new(shape, Leaves::Int(numbers))?)
}

fn joined(alloc: Global, given: &[Given<'_>]) -> Result<Result<Tree, Trouble>, Fail> {
    let mut arrays = Vec::new(alloc);
    for one in given {
        arrays.push(array(alloc, *one)?)?;
    }
    if arrays.len() > 100 {
        return Ok(Err(Trouble::NoMemory));
    }
    Ok(join_arrays(alloc, arrays))
}

fn makes(alloc: Global, given: &[Given<'_>], expected: Given<'_>) -> Result<bool, Fail> {
    match joined(alloc, given)? {
        Ok(tree) => Ok(tree.same(&array(alloc, expected)?)),
        Err(_) => Ok(false),
    }
}

#[test]
fn items_follow_each_other(rt: HostRuntime) -> Result<(), Fail> {
    let table: [(&[Given<'_>], Given<'_>); 6] = [
        (&[], (&[0], &[])),
        (&[(&[], &[5])], (&[1], &[5])),
        (
            &[(&[2], &[1, 2]), (&[0], &[]), (&[1], &[3])],
            (&[3], &[1, 2, 3]),
        ),
        (
            &[(&[], &[9]), (&[2], &[1, 2]), (&[1, 3], &[3, 4, 5])],
            (&[3, 3], &[9, 9, 9, 1, 2, 0, 3, 4, 5]),
        ),
        (
            &[(&[1, 1, 2], &[1, 2]), (&[], &[7]), (&[2, 1], &[3, 4])],
            (&[3, 2, 2], &[1, 2, 0, 0, 7, 7, 7, 7, 3, 0, 4, 0]),
        ),
        (
            &[(&[134_217_727, 0], &[]), (&[1, 0], &[])],
            (&[134_217_728, 0], &[]),
        ),
    ];
    for (given, expected) in table.iter() {
        assert!(rt; makes(rt.alloc(), given, *expected)?);
    }
    Ok(())
}

#[test]
fn kinds_come_before_limits(rt: HostRuntime) -> Result<(), Fail> {
    let alloc = rt.alloc();
    let beyond = joined(alloc, &[(&[134_217_728, 0], &[]), (&[1, 0], &[])])?;
    assert!(rt; beyond.is_err_and(|why| why == Trouble::Fault(Fault::Limit)));
    let text = Leaves::Char(Bytes::of(Vec::from_slice(alloc, b"ab")?));
    let mut arrays = Vec::new(alloc);
    arrays.push(array(alloc, (&[2], &[1, 2]))?)?;
    arrays.push(array(alloc, (&[134_217_728, 0], &[]))?)?;
    arrays.push(Tree::new(Vec::from_slice(alloc, &[2])?, text)?)?;
    assert_eq!(rt; arrays.len(), 3);
    let differ = join_arrays(alloc, arrays);
    assert!(rt; differ.is_err_and(|why| why == Trouble::Fault(Fault::Domain)));
    Ok(())
}
