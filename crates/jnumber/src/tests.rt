use crate::{Read, read, write};
use std::test::Fail;

#[test]
fn runs_are_read(rt: HostRuntime) -> Result<(), Fail> {
    let table: [(&[u8], Read); 20] = [
        (b"0", Read::Number(0)),
        (b"007", Read::Number(7)),
        (b"_1", Read::Number(-1)),
        (b"_0", Read::Number(0)),
        (b"9223372036854775807", Read::Number(i64::MAX)),
        (b"9223372036854775808", Read::Not),
        (b"_9223372036854775808", Read::Number(i64::MIN)),
        (b"_9223372036854775809", Read::Not),
        (b"18446744073709551616", Read::Not),
        (b"00000000000000000000000000042", Read::Number(42)),
        (b"_", Read::Wide),
        (b"__", Read::Not),
        (b"__1", Read::Not),
        (b"5_", Read::Not),
        (b"1_000", Read::Not),
        (b"3abc", Read::Not),
        (b"3.", Read::Not),
        (b"1.5", Read::Not),
        (b"-1", Read::Not),
        (b"", Read::Not),
    ];
    for (run, expected) in table.iter() {
        assert_eq!(rt; read(run), *expected);
    }
    Ok(())
}

#[test]
fn numbers_are_written(rt: HostRuntime) -> Result<(), Fail> {
    let table: [(i64, &[u8]); 5] = [
        (0, b"0"),
        (7, b"7"),
        (-1, b"_1"),
        (i64::MAX, b"9223372036854775807"),
        (i64::MIN, b"_9223372036854775808"),
    ];
    for (number, expected) in table.iter() {
        let mut out = Vec::from_slice(rt.alloc(), b"a ")?;
        write(*number, &mut out)?;
        let mut wanted = Vec::from_slice(rt.alloc(), b"a ")?;
        wanted.extend_from_slice(expected)?;
        assert_eq!(rt; out.as_slice(), wanted.as_slice());
    }
    Ok(())
}
