use crate::{Shape, agree};
use jdata::{Fault, Trouble};
use std::test::Fail;

#[test]
fn shapes_are_parted(rt: HostRuntime) -> Result<(), Fail> {
    let table: [(&[u64], Option<i64>, &[u64], &[u64]); 9] = [
        (&[2, 3, 4], Some(1), &[2, 3], &[4]),
        (&[2, 3, 4], Some(0), &[2, 3, 4], &[]),
        (&[2, 3, 4], Some(9), &[], &[2, 3, 4]),
        (&[2, 3, 4], Some(-1), &[2], &[3, 4]),
        (&[2, 3, 4], Some(-9), &[2, 3, 4], &[]),
        (&[2, 3, 4], None, &[], &[2, 3, 4]),
        (&[1, 2, 1, 2, 1, 2], Some(1), &[1, 2, 1, 2, 1], &[2]),
        (&[], Some(-1), &[], &[]),
        (&[0, 3], Some(i64::MIN), &[0, 3], &[]),
    ];
    for (axes, rank, frame, cell) in table.iter() {
        let shape = Shape::new(rt.alloc(), axes)?;
        assert_eq!(rt; shape.axes(), *axes);
        assert_eq!(rt; shape.frame(rt.alloc(), *rank)?.axes(), *frame);
        assert_eq!(rt; shape.cell(rt.alloc(), *rank)?.axes(), *cell);
    }
    Ok(())
}

#[test]
fn limits_are_kept(rt: HostRuntime) -> Result<(), Fail> {
    let table: [(&[u64], Option<u64>); 10] = [
        (&[], Some(1)),
        (&[2, 3, 4], Some(24)),
        (&[134_217_728], Some(134_217_728)),
        (&[134_217_729], None),
        (&[0, 134_217_728], Some(0)),
        (&[0, 134_217_729], None),
        (&[65_536, 2_048], Some(134_217_728)),
        (&[65_536, 2_048, 2, 0], None),
        (&[u64::MAX, u64::MAX, 0], None),
        (&[1; 64], None),
    ];
    for (axes, product) in table.iter() {
        let answer = match Shape::new(rt.alloc(), axes) {
            Ok(shape) => Some(shape.product()),
            Err(trouble) => {
                assert_eq!(rt; trouble, Trouble::Fault(Fault::Limit));
                None
            }
        };
        assert_eq!(rt; answer, *product);
    }
    assert_eq!(rt; Shape::new(rt.alloc(), &[1; 63])?.product(), 1);
    Ok(())
}

#[test]
fn frames_agree(rt: HostRuntime) -> Result<(), Fail> {
    let table: [(&[u64], &[u64], Option<&[u64]>); 8] = [
        (&[2, 3], &[2], Some(&[2, 3])),
        (&[2], &[2, 3], Some(&[2, 3])),
        (&[], &[5], Some(&[5])),
        (&[], &[], Some(&[])),
        (&[2, 3], &[3], None),
        (&[3], &[2, 3], None),
        (&[2, 3], &[2, 4], None),
        (
            &[1, 2, 3, 4, 5, 6],
            &[1, 2, 3, 4, 5],
            Some(&[1, 2, 3, 4, 5, 6]),
        ),
    ];
    for (left, right, expected) in table.iter() {
        let left = Shape::new(rt.alloc(), left)?;
        let right = Shape::new(rt.alloc(), right)?;
        match agree(rt.alloc(), &left, &right) {
            Ok(longer) => assert_eq!(rt; Some(longer.axes()), *expected),
            Err(trouble) => {
                assert_eq!(rt; trouble, Trouble::Fault(Fault::Length));
                assert!(rt; expected.is_none());
            }
        }
    }
    Ok(())
}
