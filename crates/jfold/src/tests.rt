use crate::{prefixes, suffixes};
use jdata::Primitive;
use std::test::Fail;

#[test]
fn each_suffix_has_its_value(rt: HostRuntime) -> Result<(), Fail> {
    let sums = suffixes(rt.alloc(), Primitive::Plus, &[1, 2, 3, 4])?.ok_or("none")?;
    assert_eq!(rt; sums.items(), [10, 9, 7, 4].as_slice());
    let turned = suffixes(rt.alloc(), Primitive::Minus, &[1, 2, 3, 4])?.ok_or("none")?;
    assert_eq!(rt; turned.items(), [-2, 3, -1, 4].as_slice());
    Ok(())
}

#[test]
fn no_suffix_without_a_value(rt: HostRuntime) -> Result<(), Fail> {
    let alloc = rt.alloc();
    assert!(rt; suffixes(alloc, Primitive::Plus, &[])?.is_none());
    assert!(rt; suffixes(alloc, Primitive::Comma, &[1, 2])?.is_none());
    assert!(rt; suffixes(alloc, Primitive::Plus, &[1, i64::MAX])?.is_none());
    Ok(())
}

#[test]
fn each_prefix_has_its_value(rt: HostRuntime) -> Result<(), Fail> {
    let sums = prefixes(rt.alloc(), Primitive::Plus, &[1, 2, -3, 4])?.ok_or("none")?;
    assert_eq!(rt; sums.items(), [1, 3, 0, 4].as_slice());
    let least = prefixes(rt.alloc(), Primitive::LessDot, &[5, 2, 3, 1])?.ok_or("none")?;
    assert_eq!(rt; least.items(), [5, 2, 2, 1].as_slice());
    let greatest = prefixes(rt.alloc(), Primitive::GreaterDot, &[1, 3, 2, 4])?.ok_or("none")?;
    assert_eq!(rt; greatest.items(), [1, 3, 3, 4].as_slice());
    Ok(())
}

#[test]
fn each_prefix_of_truths_has_its_value(rt: HostRuntime) -> Result<(), Fail> {
    let differ = prefixes(rt.alloc(), Primitive::TildeColon, &[1, 0, 1, 1])?.ok_or("none")?;
    assert_eq!(rt; differ.items(), [1, 1, 0, 1].as_slice());
    let any = prefixes(rt.alloc(), Primitive::PlusDot, &[0, 0, 1, 0])?.ok_or("none")?;
    assert_eq!(rt; any.items(), [0, 0, 1, 1].as_slice());
    let all = prefixes(rt.alloc(), Primitive::TimesDot, &[1, 1, 0, 1])?.ok_or("none")?;
    assert_eq!(rt; all.items(), [1, 1, 0, 0].as_slice());
    Ok(())
}

#[test]
fn no_prefix_without_a_value(rt: HostRuntime) -> Result<(), Fail> {
    let alloc = rt.alloc();
    assert!(rt; prefixes(alloc, Primitive::Plus, &[])?.is_none());
    assert!(rt; prefixes(alloc, Primitive::Minus, &[1, 2])?.is_none());
    assert!(rt; prefixes(alloc, Primitive::Plus, &[-1, i64::MAX])?.is_none());
    assert!(rt; prefixes(alloc, Primitive::PlusDot, &[1, 2])?.is_none());
    assert!(rt; prefixes(alloc, Primitive::Plus, &[0, i64::MAX])?.is_some());
    Ok(())
}
